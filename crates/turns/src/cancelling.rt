//! What rests of orders is cancelled.
ghost use Rattle.std.specs.Prelude.{◌≡◌, ◌+◌, ◌^◌, ◌<◌, ◌≤◌, true, not, [], ◌∷◌, map, length, None, filter, slice_set};
ghost use Rattle.std.specs.List.{remove};
ghost use Rattle.types.specs.Reports.{cancelled};
ghost use Rattle.types.specs.declared.reports.CancelReason.TheVariants.{Requested};
ghost use Rattle.runs.specs.Slices.{volume_of};
ghost use Rattle.runs.specs.Meetings.{shares};
ghost use Rattle.rules.specs.Accounts.{rests};
ghost use Rattle.rules.specs.Calls.{has_number, cancelled_at_close};
ghost use Rattle.sheet.specs.Sheets.{Adds};
ghost use Rattle.table.specs.Sequence.{rests_at, record_at, resting_of, rank};
ghost use Rattle.table.specs.Writing.{Written};
ghost use Rattle.turns.specs.Turns.{AllFreed, VolumesFit, Numbered};

use crate::collecting::collect_on;
use crate::picks::EveryOrder;
use sheet::EventSheet;
use slips::Slip;
use table::OrderTable;
use types::CancelReason;

/// Cancels what rests of the order at a place: it is reported, and the order leaves the time list.
fn cancel(
    table: &mut OrderTable<'_>,
    place: usize,
    reason: CancelReason,
    sheet: &mut EventSheet<'_>,
)
    requires rests { rests_at table.old.places.now place ≡ true }
    requires fits { volume_of (record_at table.old.places.now place).resting < 2 ^ 32 }
    requires space { sheet.old.count + 1 < 2 ^ 64 }
    ensures table { table.new.places.now ≡ slice_set table.old.places.now place None }
    ensures list { resting_of table.new.places.now ≡ remove (resting_of table.old.places.now) (rank table.old.places.now place) }
    ensures times { table.new.ends.next ≡ table.old.ends.next }
    ensures written { Written table.old table.new }
    ensures adds { Adds sheet.old sheet.new (cancelled (record_at table.old.places.now place).resting.order.number (shares (volume_of (record_at table.old.places.now place).resting)) reason ∷ []) }
{
    let mut resting = table.record_at(place).resting;
    let slip = Slip::take_resting(&mut resting);
    sheet.push(slip.cancelled(reason));
    table.leave(place);
}

/// The close: every order is cancelled, in time sequence.
pub fn cancel_all(table: &mut OrderTable<'_>, turns: &mut [u16], sheet: &mut EventSheet<'_>)
    requires room { length table.old.places.now ≤ length turns.old }
    requires fits { VolumesFit table.old.places.now }
    requires space { sheet.old.count + length table.old.places.now < 2 ^ 64 }
    ensures table { AllFreed table.new.places.now }
    ensures list { resting_of table.new.places.now ≡ [] }
    ensures times { table.new.ends.next ≡ table.old.ends.next }
    ensures written { Written table.old table.new }
    ensures adds { Adds sheet.old sheet.new (map cancelled_at_close (resting_of table.old.places.now)) }
{
    let count = collect_on(&EveryOrder, table, turns);
    let places = &turns[..count];
    for &place in places {
        cancel(table, place as usize, CancelReason::Close, sheet);
    }
}

/// The order at a place is cancelled as requested.
pub fn cancel_one(table: &mut OrderTable<'_>, place: usize, sheet: &mut EventSheet<'_>)
    requires numbers { Numbered table.old.places.now }
    requires rests { rests_at table.old.places.now place ≡ true }
    requires fits { volume_of (record_at table.old.places.now place).resting < 2 ^ 32 }
    requires space { sheet.old.count + 1 < 2 ^ 64 }
    ensures table { table.new.places.now ≡ slice_set table.old.places.now place None }
    ensures list { resting_of table.new.places.now ≡ filter (λ o. not (has_number (record_at table.old.places.now place).resting.order.number.number o)) (resting_of table.old.places.now) }
    ensures times { table.new.ends.next ≡ table.old.ends.next }
    ensures written { Written table.old table.new }
    ensures adds { Adds sheet.old sheet.new (cancelled (record_at table.old.places.now place).resting.order.number (shares (rests (record_at table.old.places.now place).resting.order.number.number (resting_of table.old.places.now))) Requested ∷ []) }
{
    cancel(table, place, CancelReason::Requested, sheet);
}
