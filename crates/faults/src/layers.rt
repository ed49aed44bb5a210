//! The faults of each layer; a layer's fault holds those of the layer below, so that `?` carries them up.
ghost use Rattle.std.specs.Prelude.{◌≡◌};
ghost use Rattle.faults.specs.declared.layers.FieldFault.TheVariants.{Frame as in_frame};
ghost use Rattle.faults.specs.declared.layers.BookFault.TheVariants.{Fields as in_fields};
ghost use Rattle.faults.specs.declared.layers.ChannelFault.TheVariants.{Book as in_book};

use types::OrderNumber;

/// A frame that cannot be taken for a call.
#[derive(Clone, Copy, Debug, PartialEq, Eq)]
pub enum FrameFault {
    Short,
    Version,
    Kind,
    Length,
}

/// The fields of the call frames that a check can find wrong.
#[derive(Clone, Copy, Debug, PartialEq, Eq)]
pub enum CallField {
    Trader,
    Side,
    OrderKind,
    Term,
    Marks,
    Limit,
    Volume,
    Display,
    Instruction,
    Bid,
    Offer,
    Broker,
    LatencySensitive,
}

/// A call whose fields no state of the book could take.
#[derive(Clone, Copy, Debug, PartialEq, Eq)]
pub enum FieldFault {
    Frame(FrameFault),
    Field(CallField),
    Price(CallField),
    Volume(CallField),
    Display(CallField),
    Pairing(CallField),
    SetUp,
}

/// A call that the state of the book refuses.
#[derive(Clone, Copy, Debug, PartialEq, Eq)]
pub enum BookFault {
    Fields(FieldFault),
    Closed,
    Halted,
    NotHalted,
    UnknownTrader,
    TraderKnown,
    RegisterFull,
    LatencySensitive,
    WouldTake,
    UnknownOrder(OrderNumber),
    OtherBrokers(OrderNumber),
    DayLimit,
    TableFull,
    SheetFull,
}

/// A call whose reports the channel has no space for.
#[derive(Clone, Copy, Debug, PartialEq, Eq)]
pub enum ChannelFault {
    Book(BookFault),
    Full,
}

// By hand and not derived, since contracts name the fault that `?` makes.
impl From<FrameFault> for FieldFault {
    ghost from_gives = { λ e r. r ≡ in_frame e };

    fn from(fault: FrameFault) -> FieldFault {
        FieldFault::Frame(fault)
    }
}

impl From<FieldFault> for BookFault {
    ghost from_gives = { λ e r. r ≡ in_fields e };

    fn from(fault: FieldFault) -> BookFault {
        BookFault::Fields(fault)
    }
}

impl From<BookFault> for ChannelFault {
    ghost from_gives = { λ e r. r ≡ in_book e };

    fn from(fault: BookFault) -> ChannelFault {
        ChannelFault::Book(fault)
    }
}
