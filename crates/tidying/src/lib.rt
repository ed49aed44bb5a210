//! After a run: used-up orders leave the table, and spent icebergs are refreshed and go to the end of the time list.
#![tactic(auto)]

ghost use Rattle.std.specs.Prelude.{◌≡◌, ℕ, ◌+◌, ◌^◌, ◌<◌, ◌≤◌, true, length, Some, slice_set};
ghost use Rattle.runs.specs.Runs.{spent, tidied};
ghost use Rattle.table.specs.Sequence.{Orders, place_at, rests_at, record_at, resting_of};
ghost use Rattle.table.specs.Writing.{Written};
ghost use Rattle.matching.specs.Running.{MayRest, AllMayRest};
ghost use Rattle.tidying.specs.Tidying.{fresh, undrawn, renewed, spends, settled, to_tidy, Undrawn, DrawnSince, Settled, OldestSpent};

use table::{OrderRecord, OrderTable};
use types::{OrderKind, RestingOrder, Volume};

/// An iceberg with nothing shown but reserve left.
fn is_spent(resting: &RestingOrder) -> bool
    ensures { result ≡ spent resting.now }
{
    let is_iceberg = resting.order.entry.kind == OrderKind::Iceberg;
    is_iceberg && resting.shown.shares == 0 && resting.reserve.shares > 0
}

/// The order with a new shown slice, from its reserve.
fn refreshed(order: &OrderRecord) -> RestingOrder
    requires { 0 < order.now.resting.order.entry.display.shares }
    ensures { result ≡ fresh order.now }
{
    let display = order.resting.order.entry.display.shares;
    let reserve = order.resting.reserve.shares;
    let shown = (display - order.drawn % display).min(reserve);
    RestingOrder {
        order: order.resting.order,
        shown: Volume { shares: shown },
        reserve: Volume {
            shares: reserve - shown,
        },
    }
}

/// Sets the place free if its order is used up, and counts anew what is drawn if it is not to be refreshed.
fn settle(table: &mut OrderTable<'_>, i: usize)
    requires { i < length table.old.places.now }
    ensures table { table.new.places.now ≡ slice_set table.old.places.now i (settled (place_at table.old.places.now i)) }
    ensures times { table.new.ends.next ≡ table.old.ends.next }
    ensures written { Written table.old table.new }
{
    if let Some(order) = table.places[i] {
        if order.resting.shown.shares == 0 && order.resting.reserve.shares == 0 {
            table.leave(i);
        } else if order.drawn > 0 && !is_spent(&order.resting) {
            table.replace(i, OrderRecord { drawn: 0, ..order });
        }
    }
}

/// The place of the spent iceberg that has waited longest.
fn oldest_spent(table: &OrderTable<'_>) -> Option<usize>
    ensures { OldestSpent table.now.places.now table.now.ends.high result }
{
    // As a chain with `min_by_key` the proof did not close.
    let mut oldest: Option<(usize, u64)> = None;
    for (i, place) in table.places[..table.ends.high].iter().enumerate() {
        if let Some(order) = place
            && is_spent(&order.resting)
            && oldest.is_none_or(|(_, time)| order.time < time)
        {
            oldest = Some((i, order.time));
        }
    }
    oldest.map(|(i, _)| i)
}

/// Refreshes the iceberg at a place, which goes to the end of the time list.
fn refresh(table: &mut OrderTable<'_>, i: usize)
    requires rests { rests_at table.old.places.now i ≡ true }
    requires display { 0 < (record_at table.old.places.now i).resting.order.entry.display.shares }
    requires times { table.old.ends.next + 1 < 2 ^ 64 }
    ensures table { table.new.places.now ≡ slice_set table.old.places.now i (Some (renewed table.old.ends.next (record_at table.old.places.now i))) }
    ensures times { table.new.ends.next ≡ table.old.ends.next + 1 }
    ensures written { Written table.old table.new }
{
    let order = table.record_at(i);
    let resting = refreshed(&order);
    table.renew(
        i,
        OrderRecord {
            drawn: 0,
            resting,
            ..order
        },
    );
}

/// Settles every order of the table.
fn settle_all(table: &mut OrderTable<'_>)
    requires { AllMayRest table.old.places.now }
    ensures list { to_tidy table.new.places.now ≡ to_tidy table.old.places.now }
    ensures settled { (k : ℕ) → rests_at table.new.places.now k ≡ true → Settled (record_at table.new.places.now k) }
    ensures rest { AllMayRest table.new.places.now }
    ensures times { table.new.ends.next ≡ table.old.ends.next }
    ensures written { Written table.old table.new }
{
    // Each turn changes the table, so the places are gone through by number.
    for i in 0..table.ends.high {
        settle(table, i);
    }
}

/// What a run leaves: used-up orders gone, and spent icebergs refreshed, the oldest first.
pub fn tidy(table: &mut OrderTable<'_>)
    requires rest { AllMayRest table.old.places.now }
    requires times { table.old.ends.next + 65536 < 2 ^ 64 }
    ensures list { (before : Orders) → DrawnSince before table.old.places.now → resting_of table.new.places.now ≡ tidied (resting_of before) (resting_of table.old.places.now) }
    ensures undrawn { Undrawn table.new.places.now }
    ensures rest { AllMayRest table.new.places.now }
    ensures times { table.new.ends.next ≤ table.old.ends.next + 65536 }
    ensures written { Written table.old table.new }
{
    settle_all(table);
    while let Some(i) = oldest_spent(table) {
        refresh(table, i);
    }
}
