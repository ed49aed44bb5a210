//! The checks of a call's fields, for a call made bare and for one that came as a frame.
#![tactic(auto)]

ghost use Rattle.std.specs.Prelude.{◌≡◌, ◌<◌, ◌%◌, ◌&&◌, ◌==◌, cond, nat_lt};
ghost use Rattle.checks.specs.Values.{is_letter, are_letters, in_range, on_tick, is_limit, in_lots, is_volume, is_display, is_term, is_paired};
ghost use Rattle.checks.specs.Checks.{test as tested, trader_check, broker_check, limit_check, volume_check, entry_check, cancel_check, side_check, quote_check, enrol_check, check as checked, Ticks};

use faults::{CallField, FieldFault};
use types::{
    Broker, Call, Cancellation, Enrolment, Entry, Lot, OrderKind, Price, Quote, StpInstruction,
    StpKey, TimeInForce, TraderId, Volume,
};

fn is_letter(c: u8) -> bool
    ensures { result ≡ is_letter c }
{
    matches!(c, b'0'..=b'9' | b'A'..=b'Z')
}

fn are_letters(letters: [u8; 6]) -> bool
    ensures { result ≡ are_letters letters }
{
    letters.iter().all(|&c| is_letter(c))
}

/// In the range of prices, and a multiple of one step below 50 cents and of another from there on.
fn is_on_step(p: u32, below: u32, above: u32) -> bool
    requires below { 0 < below }
    requires above { 0 < above }
    ensures { result ≡ (in_range p && p % cond (nat_lt p 200) below above == 0) }
{
    matches!(p, 1..=4_000_000) && p % (if p < 200 { below } else { above }) == 0
}

fn is_on_tick(p: u32) -> bool
    ensures { result ≡ on_tick p }
{
    is_on_step(p, 2, 4)
}

fn is_limit(kind: OrderKind, p: u32) -> bool
    ensures { result ≡ is_limit kind p }
{
    match kind {
        OrderKind::Limit | OrderKind::Iceberg => is_on_tick(p),
        OrderKind::Peg => is_on_step(p, 1, 2),
    }
}

fn in_lots(lot: Lot, v: u32) -> bool
    ensures { result ≡ in_lots lot v }
{
    v % lot.shares() == 0
}

fn is_volume(lot: Lot, v: u32) -> bool
    ensures { result ≡ is_volume lot v }
{
    matches!(v, 1..=10_000_000) && in_lots(lot, v)
}

fn is_display(lot: Lot, kind: OrderKind, v: u32, d: u32) -> bool
    ensures { result ≡ is_display lot kind v d }
{
    match kind {
        OrderKind::Iceberg => lot.shares() <= d && d <= v && in_lots(lot, d),
        OrderKind::Limit | OrderKind::Peg => d == 0,
    }
}

fn is_term(post_only: bool, kind: OrderKind, term: TimeInForce) -> bool
    ensures { result ≡ is_term post_only kind term }
{
    !(post_only || kind == OrderKind::Iceberg) || term == TimeInForce::Day
}

fn is_paired(instruction: StpInstruction, key: StpKey) -> bool
    ensures { result ≡ is_paired instruction key.number }
{
    (instruction == StpInstruction::Off) == (key.number == 0)
}

fn test(passed: bool, fault: FieldFault) -> Result<(), FieldFault>
    ensures { result ≡ tested passed fault }
{
    if passed { Ok(()) } else { Err(fault) }
}

pub fn check_trader(trader: TraderId) -> Result<(), FieldFault>
    ensures { result ≡ trader_check trader }
{
    test(
        are_letters(trader.letters),
        FieldFault::Field(CallField::Trader),
    )
}

pub fn check_broker(broker: Broker) -> Result<(), FieldFault>
    ensures { result ≡ broker_check broker }
{
    test(
        matches!(broker.number, 1..=999),
        FieldFault::Field(CallField::Broker),
    )
}

/// An order's limit, by the kind of the order.
pub fn check_limit(kind: OrderKind, limit: Price) -> Result<(), FieldFault>
    ensures { result ≡ limit_check kind limit }
{
    test(
        is_limit(kind, limit.quarters),
        FieldFault::Price(CallField::Limit),
    )
}

pub fn check_volume(lot: Lot, volume: Volume) -> Result<(), FieldFault>
    ensures { result ≡ volume_check lot volume }
{
    test(
        is_volume(lot, volume.shares),
        FieldFault::Volume(CallField::Volume),
    )
}

pub fn check_entry(lot: Lot, entry: &Entry) -> Result<(), FieldFault>
    ensures { result ≡ entry_check lot entry.now }
{
    check_trader(entry.trader)?;
    check_limit(entry.kind, entry.limit)?;
    check_volume(lot, entry.volume)?;
    test(
        is_display(lot, entry.kind, entry.volume.shares, entry.display.shares),
        FieldFault::Display(CallField::Display),
    )?;
    test(
        is_term(entry.marks.post_only, entry.kind, entry.term),
        FieldFault::Pairing(CallField::Term),
    )?;
    test(
        is_paired(entry.instruction, entry.key),
        FieldFault::Pairing(CallField::Instruction),
    )
}

pub fn check_cancellation(cancellation: Cancellation) -> Result<(), FieldFault>
    ensures { result ≡ cancel_check cancellation }
{
    check_trader(cancellation.trader)
}

fn check_side(side: Option<Price>, field: CallField) -> Result<(), FieldFault>
    ensures { result ≡ side_check side field }
{
    match side {
        None => Ok(()),
        Some(price) => test(is_on_tick(price.quarters), FieldFault::Price(field)),
    }
}

pub fn check_quote(quote: Quote) -> Result<(), FieldFault>
    ensures { result ≡ quote_check quote }
{
    check_side(quote.bid, CallField::Bid)?;
    check_side(quote.offer, CallField::Offer)
}

pub fn check_enrolment(enrolment: Enrolment) -> Result<(), FieldFault>
    ensures { result ≡ enrol_check enrolment }
{
    check_trader(enrolment.trader)?;
    check_broker(enrolment.broker)
}

/// The first fault of a call's fields, in rising order of the refusals' numbers.
pub fn check_call(lot: Lot, call: &Call) -> Result<(), FieldFault>
    ensures { result ≡ checked lot call.now }
{
    match *call {
        Call::Enter(entry) => check_entry(lot, &entry),
        Call::Cancel(cancellation) => check_cancellation(cancellation),
        Call::Quote(quote) => check_quote(quote),
        Call::Halt => Ok(()),
        Call::Resume(quote) => check_quote(quote),
        Call::Close => Ok(()),
        Call::Enrol(enrolment) => check_enrolment(enrolment),
    }
}

/// Which limits stand on a tick, around the price where the tick changes.
pub fn ticks_hold()
    ensures { Ticks }
{}
