//! Volume that leaves an order comes as a slip, which only a report takes back.
#![tactic(auto)]

ghost use Rattle.std.specs.Prelude.{◌≡◌, ◌<◌, ◌≤◌, ◌^◌};
ghost use Rattle.types.specs.Orders.{volume_in, volume_of};
ghost use Rattle.types.specs.Reports.{trade, cancelled, decremented};
ghost use Rattle.slips.specs.Slips.{slip_of, less, none, drawn_from, drawn_shown_first, emptied, all_of};

use types::{CancelReason, OrderNumber, Price, Report, RestingOrder, Side, Volume};

/// So much volume has left the order and is still to be reported. It cannot be let go.
pub struct Slip {
    order: OrderNumber,
    volume: Volume,
}

impl Slip {
    /// Takes some of what is left of an order.
    pub fn take(left: &mut Volume, volume: Volume, order: OrderNumber) -> Slip
        requires { volume.shares ≤ left.old.shares }
        ensures left { left.new ≡ less left.old volume }
        ensures slip { result ≡ slip_of order volume }
    {
        left.shares -= volume.shares;
        Slip { order, volume }
    }

    /// Takes all that is left of an order.
    pub fn take_all(left: &mut Volume, order: OrderNumber) -> Slip
        ensures left { left.new ≡ none }
        ensures slip { result ≡ slip_of order left.old }
    {
        let volume = *left;
        Slip::take(left, volume, order)
    }

    /// Takes volume from one slice of a resting order.
    pub fn take_from_slice(resting: &mut RestingOrder, hidden: bool, volume: Volume) -> Slip
        requires { volume.shares ≤ volume_in resting.old hidden }
        ensures left { resting.new ≡ drawn_from resting.old hidden volume }
        ensures slip { result ≡ slip_of resting.old.order.number volume }
    {
        let order = resting.order.number;
        if hidden {
            Slip::take(&mut resting.reserve, volume, order)
        } else {
            Slip::take(&mut resting.shown, volume, order)
        }
    }

    /// Takes volume from a resting order, from the shown slice first.
    pub fn take_shown_first(resting: &mut RestingOrder, volume: Volume) -> Slip
        requires { volume.shares ≤ volume_of resting.old }
        ensures left { resting.new ≡ drawn_shown_first resting.old volume }
        ensures slip { result ≡ slip_of resting.old.order.number volume }
    {
        let shown = volume.shares.min(resting.shown.shares);
        resting.shown.shares -= shown;
        resting.reserve.shares -= volume.shares - shown;
        Slip {
            order: resting.order.number,
            volume,
        }
    }

    /// Takes all of a resting order.
    pub fn take_resting(resting: &mut RestingOrder) -> Slip
        requires { volume_of resting.old < 2 ^ 32 }
        ensures left { resting.new ≡ emptied resting.old }
        ensures slip { result ≡ slip_of resting.old.order.number (all_of resting.old) }
    {
        let volume = resting.volume();
        Slip::take_shown_first(resting, volume)
    }

    /// What has left the order was cancelled.
    pub fn cancelled(self, reason: CancelReason) -> Report
        ensures { result ≡ cancelled self.order self.volume reason }
    {
        let Slip { order, volume } = self;
        Report::cancelled(order, volume, reason)
    }

    /// What has left the order went with the other one, which was cancelled.
    pub fn decremented(self, other: OrderNumber) -> Report
        ensures { result ≡ decremented self.order other self.volume }
    {
        let Slip { order, volume } = self;
        Report::decremented(order, other, volume)
    }

    /// The buyer's slip and the seller's, of one volume, make one trade.
    pub fn traded(buyer: Slip, seller: Slip, price: Price, active: Side, suppressed: bool) -> Report
        requires { buyer.volume ≡ seller.volume }
        ensures { result ≡ trade buyer.order seller.order price buyer.volume active suppressed }
    {
        let Slip {
            order: buyer,
            volume,
        } = buyer;
        let Slip {
            order: seller,
            volume: _,
        } = seller;
        Report::trade(buyer, seller, price, volume, active, suppressed)
    }
}
