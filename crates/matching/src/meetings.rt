//! What comes of a meeting of the active order and a slice of a resting one.
ghost use Rattle.std.specs.Prelude.{◌≡◌, ◌+◌, ◌^◌, ◌<◌};
ghost use Rattle.runs.specs.Slices.{volume_of};
ghost use Rattle.runs.specs.Meetings.{trade_of, trading, smaller_out, active_out, resting_out, meeting};

use prices::View;
use scan::price;
use sheet::EventSheet;
use slips::Slip;
use types::{
    CancelReason, Order, Price, Report, RestingOrder, Side, StpInstruction, StpKey, Volume,
};

/// The active order, with what is left of it, and a slice of the resting order that it meets.
#[derive(Drop)]
pub struct Meeting<'a> {
    pub view: &'a View,
    pub active: &'a Order,
    pub left: Volume,
    pub resting: RestingOrder,
    pub hidden: bool,
    pub ghost fits: { volume_of resting < 2 ^ 32 },
}

// Each push takes some of the sheet's room, so that what room there is stands with each method, and in no type.
impl Meeting<'_> {
    ghost use Rattle.matching.specs.Meetings.{slice_met, one_key, ComesTo};

    /// Whether the orders are of one broker and have one key other than 0.
    fn has_one_key(&self) -> bool
        ensures { result ≡ one_key self.now.active.now self.now.resting.order }
    {
        let (active, resting) = (self.active, &self.resting.order);
        active.broker == resting.broker
            && active.entry.key == resting.entry.key
            && active.entry.key != StpKey { number: 0 }
    }

    /// The slip of the active order and that of the resting one make one trade.
    fn traded(&self, own: Slip, other: Slip, price: Price, suppressed: bool) -> Report
        requires own { own.order ≡ self.now.active.now.number }
        requires other { other.order ≡ self.now.resting.order.number }
        requires volume { own.volume ≡ other.volume }
        ensures { result ≡ trade_of self.now.active.now.entry.side self.now.active.now self.now.resting.order price own.volume.shares suppressed }
    {
        match self.active.entry.side {
            Side::Buy => Slip::traded(own, other, price, Side::Buy, suppressed),
            Side::Sell => Slip::traded(other, own, price, Side::Sell, suppressed),
        }
    }

    /// They trade the smaller of what is left of the active order and the slice.
    #[tactic(auto, unfolding(runs::specs::Meetings::trading))]
    fn trade(&mut self, suppressed: bool, sheet: &mut EventSheet<'_>)
        requires { sheet.old.count + 2 < 2 ^ 64 }
        ensures { ComesTo (trading self.old.view.now self.old.active.now self.old.left.shares (slice_met self.old) suppressed) self.old self.new sheet.old sheet.new }
    {
        let price = price(self.view, &self.resting);
        let volume = self.left.min(self.resting.slice(self.hidden));
        let own = Slip::take(&mut self.left, volume, self.active.number);
        let other = Slip::take_from_slice(&mut self.resting, self.hidden, volume);
        sheet.push(self.traded(own, other, price, suppressed));
    }

    /// The active order, which has less left, is cancelled, and the resting one decremented.
    #[tactic(auto, unfolding(runs::specs::Meetings::smaller_out))]
    fn decrement_resting(&mut self, sheet: &mut EventSheet<'_>)
        requires less { self.old.left.shares < volume_of self.old.resting }
        requires room { sheet.old.count + 2 < 2 ^ 64 }
        ensures { ComesTo (smaller_out self.old.active.now self.old.left.shares self.old.resting) self.old self.new sheet.old sheet.new }
    {
        let volume = self.left;
        let own = Slip::take_all(&mut self.left, self.active.number);
        let other = Slip::take_shown_first(&mut self.resting, volume);
        sheet.push(own.cancelled(CancelReason::SelfTrade));
        sheet.push(other.decremented(self.active.number));
    }

    /// The resting order, which has less left, is cancelled, and the active one decremented.
    #[tactic(auto, unfolding(runs::specs::Meetings::smaller_out))]
    fn decrement_active(&mut self, sheet: &mut EventSheet<'_>)
        requires less { volume_of self.old.resting < self.old.left.shares }
        requires room { sheet.old.count + 2 < 2 ^ 64 }
        ensures { ComesTo (smaller_out self.old.active.now self.old.left.shares self.old.resting) self.old self.new sheet.old sheet.new }
    {
        let volume = self.resting.volume();
        let other = Slip::take_resting(&mut self.resting);
        let own = Slip::take(&mut self.left, volume, self.active.number);
        sheet.push(other.cancelled(CancelReason::SelfTrade));
        sheet.push(own.decremented(self.resting.order.number));
    }

    /// Both have as much left and are cancelled, the resting one first.
    #[tactic(auto, unfolding(runs::specs::Meetings::smaller_out))]
    fn cancel_both(&mut self, sheet: &mut EventSheet<'_>)
        requires level { volume_of self.old.resting ≡ self.old.left.shares }
        requires room { sheet.old.count + 2 < 2 ^ 64 }
        ensures { ComesTo (smaller_out self.old.active.now self.old.left.shares self.old.resting) self.old self.new sheet.old sheet.new }
    {
        let other = Slip::take_resting(&mut self.resting);
        let own = Slip::take_all(&mut self.left, self.active.number);
        sheet.push(other.cancelled(CancelReason::SelfTrade));
        sheet.push(own.cancelled(CancelReason::SelfTrade));
    }

    /// The active order is cancelled.
    fn cancel_active(&mut self, sheet: &mut EventSheet<'_>)
        requires { sheet.old.count + 2 < 2 ^ 64 }
        ensures { ComesTo (active_out self.old.active.now self.old.left.shares self.old.resting) self.old self.new sheet.old sheet.new }
    {
        let own = Slip::take_all(&mut self.left, self.active.number);
        sheet.push(own.cancelled(CancelReason::SelfTrade));
    }

    /// The resting order is cancelled.
    fn cancel_resting(&mut self, sheet: &mut EventSheet<'_>)
        requires room { sheet.old.count + 2 < 2 ^ 64 }
        ensures { ComesTo (resting_out self.old.left.shares self.old.resting) self.old self.new sheet.old sheet.new }
    {
        let other = Slip::take_resting(&mut self.resting);
        sheet.push(other.cancelled(CancelReason::SelfTrade));
    }

    /// Where the orders have one key the active one's instruction decides, otherwise they trade.
    #[tactic(auto, unfolding(runs::specs::Meetings::meeting))]
    pub fn conclude(&mut self, sheet: &mut EventSheet<'_>)
        requires room { sheet.old.count + 2 < 2 ^ 64 }
        ensures { ComesTo (meeting self.old.view.now self.old.active.now self.old.left.shares (slice_met self.old)) self.old self.new sheet.old sheet.new }
    {
        let own = self.has_one_key();
        let volume = self.resting.volume();
        match self.active.entry.instruction {
            StpInstruction::TradeAndSuppress if own => self.trade(true, sheet),
            StpInstruction::CancelAndDecrement if own && self.left < volume => {
                self.decrement_resting(sheet)
            }
            StpInstruction::CancelAndDecrement if own && volume < self.left => {
                self.decrement_active(sheet)
            }
            StpInstruction::CancelAndDecrement if own => self.cancel_both(sheet),
            StpInstruction::CancelNewest if own => self.cancel_active(sheet),
            StpInstruction::CancelOldest if own => self.cancel_resting(sheet),
            _ => self.trade(false, sheet),
        }
    }
}
