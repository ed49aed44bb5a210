//! The order table: orders at places that stay put, in time sequence by their priority timestamps.
#![tactic(auto)]

mod ends;
mod journals;
mod order_table;
mod records;

ghost use Rattle.std.specs.Prelude.{◌≡◌, ℕ, ◌+◌, ◌<◌, ◌≤◌, true, false, [], length, is_some, None, IfSome, IfNone, nat_lt, replicate, slice_set};
ghost use Rattle.table.specs.Sequence.{rests_at, resting_of};
ghost use Rattle.table.specs.Noting.{Moved};
ghost use Rattle.table.specs.Places.{Sound, Found};
ghost use Rattle.table.specs.Walking.{FirstFrom};

pub use ends::Ends;
pub use journals::{Journal, NotedPlaces};
pub use order_table::OrderTable;
pub use records::OrderRecord;

/// Writes to a place, and notes it: but for `clear` and the guard, the one way to change the table. It knows nothing of the ends, which a method of the table sees to.
pub fn write(
    places: &mut [Option<OrderRecord>],
    journal: &mut Journal,
    i: usize,
    value: Option<OrderRecord>,
)
    requires small { length places.old ≤ 65536 }
    requires within { i < length places.old }
    ensures table { places.new ≡ slice_set places.old i value }
    ensures moved { Moved places.old journal.old places.new journal.new }
{
    places[i] = value;
    journal.note(i);
}

/// The first of the places that is free.
fn first_none(places: &[Option<OrderRecord>]) -> Option<usize>
    ensures free { IfSome result (λ i. (i < length places.now) × (rests_at places.now i ≡ false)) }
    ensures before { IfSome result (λ i. (k : ℕ) → k < i → rests_at places.now k ≡ true) }
    ensures none { IfNone result ((k : ℕ) → k < length places.now → rests_at places.now k ≡ true) }
{
    places.iter().position(Option::is_none)
}

/// The mark above the highest place in use, which is no higher than `high`.
fn highest(places: &[Option<OrderRecord>], high: usize) -> usize
    requires inside { high ≤ length places.now }
    requires above { (k : ℕ) → high ≤ k → rests_at places.now k ≡ false }
    ensures least { result ≤ high }
    ensures above { (k : ℕ) → result ≤ k → rests_at places.now k ≡ false }
    ensures tight { (k : ℕ) → k + 1 ≡ result → rests_at places.now k ≡ true }
{
    places[..high]
        .iter()
        .rposition(Option::is_some)
        .map_or(0, |i| i + 1)
}

// A shared slice makes no table, so this and `first_from` stand beside a table's methods.
/// The first free place; there is one exactly where fewer orders rest than the table has places.
pub fn first_free(places: &[Option<OrderRecord>], ends: Ends) -> Option<usize>
    requires { Sound places.now ends }
    ensures found { Found places.now result }
    ensures room { is_some result ≡ nat_lt (length (resting_of places.now)) (length places.now) }
{
    let free = first_none(&places[ends.low..])?;
    Some(ends.low + free)
}

/// The place of the first order on the time list whose timestamp is not earlier than `time`.
pub fn first_from(places: &[Option<OrderRecord>], ends: Ends, time: u64) -> Option<usize>
    requires { Sound places.now ends }
    ensures { FirstFrom places.now time result }
{
    // As a chain with `min_by_key` the proof did not close.
    let mut first: Option<(usize, u64)> = None;
    for (i, place) in places[..ends.high].iter().enumerate() {
        if let Some(order) = place
            && time <= order.time
            && first.is_none_or(|(_, least)| order.time < least)
        {
            first = Some((i, order.time));
        }
    }
    first.map(|(i, _)| i)
}

/// Sets every place free.
pub fn clear(places: &mut [Option<OrderRecord>]) -> Ends
    requires { length places.old ≤ 65536 }
    ensures table { places.new ≡ replicate (length places.old) None }
    ensures list { resting_of places.new ≡ [] }
    ensures sound { Sound places.new result }
    ensures times { result.next ≡ 0 }
{
    places.fill(None);
    Ends {
        low: 0,
        high: 0,
        next: 0,
    }
}
