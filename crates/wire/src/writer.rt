//! Frames of calls, written.
ghost use Rattle.std.specs.Prelude.{◌≡◌, [], ◌++◌, is_ok, if◌then◌else◌};
ghost use Rattle.wire.specs.declared.frames.CallFrame.TheVariants as frame;
ghost use Rattle.wire.specs.Frames.{kind_code, layout, letters, sides, call_bytes, framed_quote};
ghost use Rattle.wire.specs.Reading.{framed};
ghost use Rattle.wire.specs.Trips.{CallTrips, ReportTrips};

use crate::frames::{CallFrame, CallKind, EnrolFrame, EnterFrame};
use std::alloc::AllocError;
use types::{Cancellation, Price, Quote, TraderId};

/// What a frame of the kind begins with: its length, the version and the kind.
fn head(kind: CallKind) -> [u8; 4]
    ensures { result ≡ framed (kind_code kind) (layout kind) [] }
{
    let [high, low] = kind.announced().to_be_bytes();
    [high, low, 1, kind as u8]
}

/// What a trader's frame begins with: its head and the six letters.
fn trader_head(kind: CallKind, trader: TraderId) -> [u8; 10]
    ensures { result ≡ framed (kind_code kind) (layout kind) [] ++ letters trader [] }
{
    let mut bytes = [0; 10];
    bytes[0..4].copy_from_slice(&head(kind));
    bytes[4..10].copy_from_slice(&trader.letters);
    bytes
}

fn enter_bytes(entry: EnterFrame) -> [u8; 31]
    ensures { result ≡ call_bytes (frame.Enter entry) }
{
    let mut bytes = [0; 31];
    bytes[0..10].copy_from_slice(&trader_head(CallKind::Enter, entry.trader));
    bytes[10] = entry.side;
    bytes[11] = entry.kind;
    bytes[12] = entry.term;
    bytes[13] = entry.marks;
    bytes[14..18].copy_from_slice(&entry.limit.to_be_bytes());
    bytes[18..22].copy_from_slice(&entry.volume.to_be_bytes());
    bytes[22..26].copy_from_slice(&entry.display.to_be_bytes());
    bytes[26] = entry.instruction;
    bytes[27..31].copy_from_slice(&entry.key.to_be_bytes());
    bytes
}

fn cancel_bytes(cancellation: Cancellation) -> [u8; 14]
    ensures { result ≡ call_bytes (frame.Cancel cancellation) }
{
    let mut bytes = [0; 14];
    bytes[0..10].copy_from_slice(&trader_head(CallKind::Cancel, cancellation.trader));
    bytes[10..14].copy_from_slice(&cancellation.order.number.to_be_bytes());
    bytes
}

fn quote_bytes(kind: CallKind, quote: Quote) -> [u8; 12]
    ensures { result ≡ framed_quote (kind_code kind) quote }
{
    let mut bytes = [0; 12];
    bytes[0..4].copy_from_slice(&[0, 10, 1, kind as u8]);
    bytes[4..8].copy_from_slice(&Price::or_zero(quote.bid).to_be_bytes());
    bytes[8..12].copy_from_slice(&Price::or_zero(quote.offer).to_be_bytes());
    bytes
}

fn enrol_bytes(enrolment: EnrolFrame) -> [u8; 13]
    ensures { result ≡ call_bytes (frame.Enrol enrolment) }
{
    let mut bytes = [0; 13];
    bytes[0..10].copy_from_slice(&trader_head(CallKind::Enrol, enrolment.trader));
    bytes[10..12].copy_from_slice(&enrolment.broker.number.to_be_bytes());
    bytes[12] = enrolment.latency_sensitive;
    bytes
}

/// Appends the frame of a call.
pub fn write_call(out: &mut Vec<u8>, call: &CallFrame) -> Result<(), AllocError>
    ensures { out.new.items ≡ (if is_ok result then out.old.items ++ call_bytes call.now else out.old.items) }
{
    match *call {
        CallFrame::Enter(entry) => out.extend_from_slice(&enter_bytes(entry)),
        CallFrame::Cancel(cancellation) => out.extend_from_slice(&cancel_bytes(cancellation)),
        CallFrame::Quote(quote) => out.extend_from_slice(&quote_bytes(CallKind::Quote, quote)),
        CallFrame::Halt => out.extend_from_slice(&head(CallKind::Halt)),
        CallFrame::Resume(quote) => out.extend_from_slice(&quote_bytes(CallKind::Resume, quote)),
        CallFrame::Close => out.extend_from_slice(&head(CallKind::Close)),
        CallFrame::Enrol(enrolment) => out.extend_from_slice(&enrol_bytes(enrolment)),
    }
}

/// Frames and what they say, both ways, for every call, every report and any bytes.
pub fn frames_round_trip()
    ensures calls { CallTrips }
    ensures reports { ReportTrips }
{}
