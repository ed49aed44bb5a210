//! What a call's frame says, before its codes are looked at.
ghost use Rattle.std.specs.Prelude.{◌≡◌, ◌+◌, ◌≤◌, [], length, ok_or};
ghost use Rattle.faults.specs.declared.layers.FrameFault.TheVariants as fault;
ghost use Rattle.wire.specs.Frames.{kind_of, layout, six, trader_from, quote_from, enter_from, call_at};
ghost use Rattle.wire.specs.Layouts.{fields};
ghost use Rattle.wire.specs.Reading.{announced};

use crate::bytes::{half, word};
use crate::framed::Framed;
use faults::FrameFault;
use types::{Broker, Cancellation, OrderNumber, Price, Quote, TraderId};

/// The kinds of calls, each with the code by which its frames tell it.
#[derive(Clone, Copy, Debug, PartialEq, Eq)]
pub enum CallKind {
    Enter = 1,
    Cancel = 2,
    Quote = 3,
    Halt = 4,
    Resume = 5,
    Close = 6,
    Enrol = 7,
}

/// The fields of an entry as they stand in its frame, with any values.
// A reader takes a frame whatever its codes mean, so they stay numbers here.
#[derive(Clone, Copy, Debug, PartialEq, Eq)]
pub struct EnterFrame {
    pub trader: TraderId,
    pub side: u8,
    pub kind: u8,
    pub term: u8,
    pub marks: u8,
    pub limit: u32,
    pub volume: u32,
    pub display: u32,
    pub instruction: u8,
    pub key: u32,
}

/// The fields of an enrolment as they stand in its frame, with any values.
// A reader takes a frame whatever its flag means, so it stays a number here.
#[derive(Clone, Copy, Debug, PartialEq, Eq)]
pub struct EnrolFrame {
    pub trader: TraderId,
    pub broker: Broker,
    pub latency_sensitive: u8,
}

// Like `Call` but for two payloads, of which a parameter each would say less than their names.
#[derive(Clone, Copy, Debug, PartialEq, Eq)]
pub enum CallFrame {
    Enter(EnterFrame),
    Cancel(Cancellation),
    Quote(Quote),
    Halt,
    Resume(Quote),
    Close,
    Enrol(EnrolFrame),
}

impl TryFrom<u8> for CallKind {
    type Error = FrameFault;

    ghost try_from_gives = { λ code r. r ≡ ok_or (kind_of code) fault.Kind };

    fn try_from(code: u8) -> Result<CallKind, FrameFault> {
        match code {
            1 => Ok(CallKind::Enter),
            2 => Ok(CallKind::Cancel),
            3 => Ok(CallKind::Quote),
            4 => Ok(CallKind::Halt),
            5 => Ok(CallKind::Resume),
            6 => Ok(CallKind::Close),
            7 => Ok(CallKind::Enrol),
            _ => Err(FrameFault::Kind),
        }
    }
}

impl CallKind {
    /// The length that a frame of the kind announces.
    pub fn announced(self) -> u16
        ensures { result ≡ announced (layout self) }
    {
        match self {
            CallKind::Enter => 29,
            CallKind::Cancel => 12,
            CallKind::Quote | CallKind::Resume => 10,
            CallKind::Halt | CallKind::Close => 2,
            CallKind::Enrol => 11,
        }
    }
}

fn trader_in(b: &[u8]) -> TraderId
    requires { 10 ≤ length b.now }
    ensures { result ≡ trader_from (fields (six []) b.now 4) }
{
    TraderId {
        letters: [b[4], b[5], b[6], b[7], b[8], b[9]],
    }
}

fn quote_in(b: &[u8]) -> Quote
    requires { 12 ≤ length b.now }
    ensures { result ≡ quote_from (fields (layout CallKind.Quote) b.now 4) }
{
    Quote {
        bid: Price::unless_zero(word(b, 4)),
        offer: Price::unless_zero(word(b, 8)),
    }
}

fn entry_in(b: &[u8]) -> EnterFrame
    requires { 31 ≤ length b.now }
    ensures { result ≡ enter_from (fields (layout CallKind.Enter) b.now 4) }
{
    EnterFrame {
        trader: trader_in(b),
        side: b[10],
        kind: b[11],
        term: b[12],
        marks: b[13],
        limit: word(b, 14),
        volume: word(b, 18),
        display: word(b, 22),
        instruction: b[26],
        key: word(b, 27),
    }
}

impl Framed for CallFrame {
    type Kind = CallKind;

    ghost kind_told = { kind_of };

    ghost length_of = { λ kind. announced (layout kind) };

    ghost said = { call_at };

    fn kind(code: u8) -> Result<CallKind, FrameFault> {
        code.try_into()
    }

    fn announced(kind: CallKind) -> u16 {
        kind.announced()
    }

    fn read(b: &[u8], kind: CallKind) -> CallFrame {
        match kind {
            CallKind::Enter => CallFrame::Enter(entry_in(b)),
            CallKind::Cancel => CallFrame::Cancel(Cancellation {
                trader: trader_in(b),
                order: OrderNumber {
                    number: word(b, 10),
                },
            }),
            CallKind::Quote => CallFrame::Quote(quote_in(b)),
            CallKind::Halt => CallFrame::Halt,
            CallKind::Resume => CallFrame::Resume(quote_in(b)),
            CallKind::Close => CallFrame::Close,
            CallKind::Enrol => CallFrame::Enrol(EnrolFrame {
                trader: trader_in(b),
                broker: Broker {
                    number: half(b, 10),
                },
                latency_sensitive: b[12],
            }),
        }
    }
}
