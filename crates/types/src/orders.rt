//! What an order is entered with.
ghost use Rattle.std.specs.Prelude.{◌≡◌, ◌<◌, ◌^◌};
ghost use Rattle.types.specs.Orders.{volume_in, volume_of};
ghost use Rattle.types.specs.Reports.{side_mark};

use crate::money::{Price, Volume};

/// The number that the book gave an accepted order: 1, 2, 3 and on.
#[derive(Clone, Copy, Debug, PartialEq, Eq, PartialOrd, Ord)]
pub struct OrderNumber {
    pub number: u32,
}

/// A broker's number.
#[derive(Clone, Copy, Debug, PartialEq, Eq)]
pub struct Broker {
    pub number: u16,
}

/// A trader's six letters.
#[derive(Clone, Copy, Debug, PartialEq, Eq)]
pub struct TraderId {
    pub letters: [u8; 6],
}

#[derive(Clone, Copy, Debug, PartialEq, Eq)]
pub enum Side {
    Buy = 1,
    Sell = 2,
}

/// How a frame or a report marks the side.
impl From<Side> for u8 {
    ghost from_gives = { λ side mark. mark ≡ side_mark side };

    fn from(side: Side) -> u8 {
        side as u8
    }
}

#[derive(Clone, Copy, Debug, PartialEq, Eq)]
pub enum OrderKind {
    Limit = 1,
    Iceberg = 2,
    Peg = 3,
}

#[derive(Clone, Copy, Debug, PartialEq, Eq)]
pub enum TimeInForce {
    Day = 1,
    ImmediateOrCancel = 2,
    FillOrKill = 3,
}

#[derive(Clone, Copy, Debug, PartialEq, Eq)]
pub struct Marks {
    pub post_only: bool,
    pub anonymous: bool,
    pub jitney: bool,
}

/// What self-trade prevention does where the active order meets one of its own.
#[derive(Clone, Copy, Debug, PartialEq, Eq)]
pub enum StpInstruction {
    Off = 0,
    TradeAndSuppress = 1,
    CancelAndDecrement = 2,
    CancelNewest = 3,
    CancelOldest = 4,
}

/// Orders of one broker and one key, other than 0, are kept from trading with each other.
#[derive(Clone, Copy, Debug, PartialEq, Eq)]
pub struct StpKey {
    pub number: u32,
}

/// An order as it is sent.
#[derive(Clone, Copy, Debug, PartialEq, Eq)]
pub struct Entry {
    pub trader: TraderId,
    pub side: Side,
    pub kind: OrderKind,
    pub term: TimeInForce,
    pub marks: Marks,
    pub limit: Price,
    pub volume: Volume,
    // A display and a key are 0 where there is none: a check must be able to refuse the wrong ones.
    pub display: Volume,
    pub instruction: StpInstruction,
    pub key: StpKey,
}

/// An accepted order: its number, its trader's broker, and the entry as it was sent.
#[derive(Clone, Copy, Debug, PartialEq, Eq)]
pub struct Order {
    pub number: OrderNumber,
    pub broker: Broker,
    pub entry: Entry,
}

/// An order on the time list, with the volume of its shown slice and of its hidden one.
#[derive(Clone, Copy, Debug, PartialEq, Eq)]
pub struct RestingOrder {
    pub order: Order,
    pub shown: Volume,
    pub reserve: Volume,
}

impl RestingOrder {
    /// The volume of the shown slice or of the hidden one.
    pub fn slice(&self, hidden: bool) -> Volume
        ensures { result ≡ record { shares = volume_in self.now hidden } }
    {
        if hidden { self.reserve } else { self.shown }
    }

    /// All that is left of the order.
    pub fn volume(&self) -> Volume
        requires { volume_of self.now < 2 ^ 32 }
        ensures { result ≡ record { shares = volume_of self.now } }
    {
        Volume {
            shares: self.shown.shares + self.reserve.shares,
        }
    }
}
