//! A refusal: its reason, which has a number, its layer and its place.
ghost use Rattle.std.specs.Prelude.{◌≡◌};
ghost use Rattle.faults.specs.Refusals.{number_of, layer_number, offset, frame_refusal, field_refusal, book_refusal, channel_refusal};

use crate::layers::{BookFault, CallField, ChannelFault, FieldFault, FrameFault};

#[derive(Clone, Copy, Debug, PartialEq, Eq)]
pub enum Reason {
    Short = 1,
    Version = 2,
    Kind = 3,
    Length = 4,
    Field = 5,
    Price = 6,
    Volume = 7,
    Display = 8,
    Pairing = 9,
    SetUp = 10,
    Closed = 20,
    Halted = 21,
    NotHalted = 22,
    UnknownTrader = 23,
    TraderKnown = 24,
    RegisterFull = 25,
    LatencySensitive = 26,
    WouldTake = 27,
    UnknownOrder = 28,
    OtherBrokers = 29,
    DayLimit = 30,
    TableFull = 31,
    SheetFull = 32,
    ChannelFull = 33,
}

#[derive(Clone, Copy, Debug, PartialEq, Eq)]
pub enum Layer {
    Frame = 1,
    Field = 2,
    Book = 3,
    Channel = 4,
}

/// The place is an offset in the frame, an order's number, or 0.
#[derive(Clone, Copy, Debug, PartialEq, Eq)]
pub struct Refusal {
    pub reason: Reason,
    pub layer: Layer,
    pub place: u32,
}

impl From<Reason> for u8 {
    ghost from_gives = { λ reason number. number ≡ number_of reason };

    fn from(reason: Reason) -> u8 {
        reason as u8
    }
}

impl From<Layer> for u8 {
    ghost from_gives = { λ layer number. number ≡ layer_number layer };

    fn from(layer: Layer) -> u8 {
        layer as u8
    }
}

impl CallField {
    /// Where the field begins, counted from the first byte of its frame.
    pub fn offset(self) -> u32
        ensures { result ≡ offset self }
    {
        match self {
            CallField::Trader => 4,
            CallField::Side => 10,
            CallField::OrderKind => 11,
            CallField::Term => 12,
            CallField::Marks => 13,
            CallField::Limit => 14,
            CallField::Volume => 18,
            CallField::Display => 22,
            CallField::Instruction => 26,
            CallField::Bid => 4,
            CallField::Offer => 8,
            CallField::Broker => 10,
            CallField::LatencySensitive => 12,
        }
    }
}

impl From<FrameFault> for Refusal {
    ghost from_gives = { λ fault refusal. refusal ≡ frame_refusal fault };

    fn from(fault: FrameFault) -> Refusal {
        let (reason, place) = match fault {
            FrameFault::Short => (Reason::Short, 0),
            FrameFault::Version => (Reason::Version, 2),
            FrameFault::Kind => (Reason::Kind, 3),
            FrameFault::Length => (Reason::Length, 0),
        };
        Refusal {
            reason,
            layer: Layer::Frame,
            place,
        }
    }
}

/// A field's fault, at the field's offset.
fn at_field(reason: Reason, field: CallField) -> Refusal
    ensures { result ≡ record { reason = reason; layer = Layer.Field; place = offset field } }
{
    Refusal {
        reason,
        layer: Layer::Field,
        place: field.offset(),
    }
}

impl From<FieldFault> for Refusal {
    ghost from_gives = { λ fault refusal. refusal ≡ field_refusal fault };

    fn from(fault: FieldFault) -> Refusal {
        match fault {
            FieldFault::Frame(fault) => fault.into(),
            FieldFault::Field(field) => at_field(Reason::Field, field),
            FieldFault::Price(field) => at_field(Reason::Price, field),
            FieldFault::Volume(field) => at_field(Reason::Volume, field),
            FieldFault::Display(field) => at_field(Reason::Display, field),
            FieldFault::Pairing(field) => at_field(Reason::Pairing, field),
            FieldFault::SetUp => Refusal {
                reason: Reason::SetUp,
                layer: Layer::Field,
                place: 0,
            },
        }
    }
}

/// A fault of the book that concerns the order of that number, or 0 for none.
fn by_book(reason: Reason, place: u32) -> Refusal
    ensures { result ≡ record { reason = reason; layer = Layer.Book; place = place } }
{
    Refusal {
        reason,
        layer: Layer::Book,
        place,
    }
}

impl From<BookFault> for Refusal {
    ghost from_gives = { λ fault refusal. refusal ≡ book_refusal fault };

    fn from(fault: BookFault) -> Refusal {
        match fault {
            BookFault::Fields(fault) => fault.into(),
            BookFault::Closed => by_book(Reason::Closed, 0),
            BookFault::Halted => by_book(Reason::Halted, 0),
            BookFault::NotHalted => by_book(Reason::NotHalted, 0),
            BookFault::UnknownTrader => by_book(Reason::UnknownTrader, 0),
            BookFault::TraderKnown => by_book(Reason::TraderKnown, 0),
            BookFault::RegisterFull => by_book(Reason::RegisterFull, 0),
            BookFault::LatencySensitive => by_book(Reason::LatencySensitive, 0),
            BookFault::WouldTake => by_book(Reason::WouldTake, 0),
            BookFault::UnknownOrder(order) => by_book(Reason::UnknownOrder, order.number),
            BookFault::OtherBrokers(order) => by_book(Reason::OtherBrokers, order.number),
            BookFault::DayLimit => by_book(Reason::DayLimit, 0),
            BookFault::TableFull => by_book(Reason::TableFull, 0),
            BookFault::SheetFull => by_book(Reason::SheetFull, 0),
        }
    }
}

impl From<ChannelFault> for Refusal {
    ghost from_gives = { λ fault refusal. refusal ≡ channel_refusal fault };

    fn from(fault: ChannelFault) -> Refusal {
        match fault {
            ChannelFault::Book(fault) => fault.into(),
            ChannelFault::Full => Refusal {
                reason: Reason::ChannelFull,
                layer: Layer::Channel,
                place: 0,
            },
        }
    }
}
