//! Calls from frames, and frames from calls: the codes and the checks of their fields.
#![tactic(auto)]

ghost use Rattle.std.specs.Prelude.{◌≡◌};
ghost use Rattle.codec.specs.Calls.{meant, decoded_entry, decoded_enrolment, decoded, encoded_entry, encoded, Received, received};
ghost use Rattle.codec.specs.Trips.{CallsRoundTrip};

use checks::{check_broker, check_call, check_trader};
use codes::Coded;
use faults::{CallField, FieldFault};
use types::{Call, Enrolment, Entry, Lot, Price, StpKey, Volume};
use wire::{CallFrame, EnrolFrame, EnterFrame, FrameReader};

/// What a code means, or a fault of its field.
fn decode_code<T: Coded>(code: u8, field: CallField) -> Result<T, FieldFault>
    ensures { result ≡ meant (T.Coded.meaning code) field }
{
    T::from_code(code).ok_or(FieldFault::Field(field))
}

fn decode_entry(frame: &EnterFrame) -> Result<Entry, FieldFault>
    ensures { result ≡ decoded_entry frame.now }
{
    check_trader(frame.trader)?;
    Ok(Entry {
        trader: frame.trader,
        side: decode_code(frame.side, CallField::Side)?,
        kind: decode_code(frame.kind, CallField::OrderKind)?,
        term: decode_code(frame.term, CallField::Term)?,
        marks: decode_code(frame.marks, CallField::Marks)?,
        limit: Price {
            quarters: frame.limit,
        },
        volume: Volume {
            shares: frame.volume,
        },
        display: Volume {
            shares: frame.display,
        },
        instruction: decode_code(frame.instruction, CallField::Instruction)?,
        key: StpKey { number: frame.key },
    })
}

fn decode_enrolment(frame: &EnrolFrame) -> Result<Enrolment, FieldFault>
    ensures { result ≡ decoded_enrolment frame.now }
{
    check_trader(frame.trader)?;
    check_broker(frame.broker)?;
    Ok(Enrolment {
        trader: frame.trader,
        broker: frame.broker,
        latency_sensitive: decode_code(frame.latency_sensitive, CallField::LatencySensitive)?,
    })
}

// Frames and calls are of other crates, so `decode` and `encode` are functions and no conversions.

/// The call that a frame says, or the first of its fields that says nothing.
pub fn decode(frame: &CallFrame) -> Result<Call, FieldFault>
    ensures { result ≡ decoded frame.now }
{
    match *frame {
        CallFrame::Enter(fields) => decode_entry(&fields).map(Call::Enter),
        CallFrame::Cancel(cancellation) => Ok(Call::Cancel(cancellation)),
        CallFrame::Quote(quote) => Ok(Call::Quote(quote)),
        CallFrame::Halt => Ok(Call::Halt),
        CallFrame::Resume(quote) => Ok(Call::Resume(quote)),
        CallFrame::Close => Ok(Call::Close),
        CallFrame::Enrol(fields) => decode_enrolment(&fields).map(Call::Enrol),
    }
}

fn encode_entry(entry: &Entry) -> EnterFrame
    ensures { result ≡ encoded_entry entry.now }
{
    EnterFrame {
        trader: entry.trader,
        side: entry.side.code(),
        kind: entry.kind.code(),
        term: entry.term.code(),
        marks: entry.marks.code(),
        limit: entry.limit.quarters,
        volume: entry.volume.shares,
        display: entry.display.shares,
        instruction: entry.instruction.code(),
        key: entry.key.number,
    }
}

/// The frame that says a call.
pub fn encode(call: &Call) -> CallFrame
    ensures { result ≡ encoded call.now }
{
    match *call {
        Call::Enter(entry) => CallFrame::Enter(encode_entry(&entry)),
        Call::Cancel(cancellation) => CallFrame::Cancel(cancellation),
        Call::Quote(quote) => CallFrame::Quote(quote),
        Call::Halt => CallFrame::Halt,
        Call::Resume(quote) => CallFrame::Resume(quote),
        Call::Close => CallFrame::Close,
        Call::Enrol(enrolment) => CallFrame::Enrol(EnrolFrame {
            trader: enrolment.trader,
            broker: enrolment.broker,
            latency_sensitive: enrolment.latency_sensitive.code(),
        }),
    }
}

/// The next call of a reader, its fields checked; none at the end of the bytes.
pub fn next_call(frames: &mut FrameReader, lot: Lot) -> Result<Option<Call>, FieldFault>
    ensures answer { result ≡ (received lot frames.old.rest.now).answer }
    ensures rest { frames.new.rest.now ≡ (received lot frames.old.rest.now).rest }
{
    let Some(frame) = frames.next_call()? else {
        return Ok(None);
    };
    let call = decode(&frame)?;
    check_call(lot, &call)?;
    Ok(Some(call))
}

/// Calls and their frames, both ways.
pub fn calls_round_trip()
    ensures { CallsRoundTrip }
{}
