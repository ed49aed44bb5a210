//! Priority timestamps never run out: they are made small again, in the same sequence.
ghost use Rattle.std.specs.Prelude.{◌≡◌, ◌≤◌, length, map};
ghost use Rattle.std.specs.Option.{option_map};
ghost use Rattle.table.specs.Sequence.{earlier};
ghost use Rattle.table.specs.Noting.{Moved};
ghost use Rattle.guard.specs.Renumbering.{ranked};

use table::{Journal, OrderRecord};

/// How many records have an earlier timestamp.
fn earlier(places: &[Option<OrderRecord>], time: u64) -> usize
    ensures { result ≡ earlier places.now time }
{
    places
        .iter()
        .filter(|place| place.is_some_and(|order| order.time < time))
        .count()
}

/// Gives each record of the table as its timestamp its rank in the spare.
pub fn renumber(
    table: &mut [Option<OrderRecord>],
    spare: &[Option<OrderRecord>],
    journal: &mut Journal,
)
    requires { length table.old ≤ 65536 }
    ensures table { table.new ≡ map (option_map (ranked spare.now)) table.old }
    ensures moved { Moved table.old journal.old table.new journal.new }
{
    for (i, place) in table.iter_mut().enumerate() {
        if let Some(order) = place {
            order.time = earlier(spare, order.time) as u64;
            journal.note(i);
        }
    }
}
