//! Picked orders go to the end of the time list.
ghost use Rattle.std.specs.Prelude.{◌≡◌, ◌+◌, ◌^◌, ◌<◌, ◌≤◌, length, take};
ghost use Rattle.rules.specs.Requotes.{to_end};
ghost use Rattle.table.specs.Sequence.{resting_of};
ghost use Rattle.table.specs.Writing.{Written};
ghost use Rattle.turns.specs.Turns.{Turns, Restamped};

use crate::collecting::collect_on;
use crate::picks::Picks;
use table::OrderTable;

/// Gives each order that is picked, in time sequence, the next timestamp. Their places are written down in that sequence; it answers how many there are.
pub fn move_to_end<P: Picks>(picks: &P, table: &mut OrderTable<'_>, turns: &mut [u16]) -> usize
    requires room { length table.old.places.now ≤ length turns.old }
    requires times { table.old.ends.next + length table.old.places.now < 2 ^ 64 }
    ensures turns { Turns (P.Picks.picked picks.now) table.old.places.now (take result turns.new) }
    ensures count { result ≤ length table.old.places.now }
    ensures list { resting_of table.new.places.now ≡ to_end (P.Picks.picked picks.now) (resting_of table.old.places.now) }
    ensures table { Restamped table.old.ends.next (take result turns.new) table.old.places.now table.new.places.now }
    ensures times { table.new.ends.next ≡ table.old.ends.next + result }
    ensures written { Written table.old table.new }
{
    let count = collect_on(picks, table, turns);
    let places = &turns[..count];
    for &place in places {
        table.to_end(place as usize);
    }
    count
}
