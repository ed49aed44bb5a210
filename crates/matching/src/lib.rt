//! The run of an active order over the order table: meetings with the foremost slices, until the order is used up or no slice is left.
#![tactic(auto)]

mod meetings;

ghost use Rattle.std.specs.Prelude.{◌≡◌, ℕ, ◌+◌, ◌*◌, ◌^◌, ◌<◌, ◌≤◌, true, [], reverse, Some, slice_set};
ghost use Rattle.runs.specs.Meetings.{shares};
ghost use Rattle.runs.specs.Runs.{in_play, run as run_of};
ghost use Rattle.table.specs.Sequence.{rests_at, record_at, resting_of};
ghost use Rattle.table.specs.Writing.{Written};
ghost use Rattle.sheet.specs.Sheets.{Adds};
ghost use Rattle.matching.specs.Meetings.{met, comes_of};
ghost use Rattle.matching.specs.Running.{on_table, SameOrders, MayRest, AllMayRest};

use meetings::Meeting;
use priority::Priority;
use scan::{ActiveOrder, Candidate};
use sheet::EventSheet;
use table::OrderTable;
use types::Volume;

/// The active order, with so much left, meets the slice, and this is left of it.
#[tactic(auto, using(crate::proofs::Going::anywhere, crate::proofs::Going::mild))]
fn meet<R: Priority>(
    active: &ActiveOrder<'_, R>,
    left: Volume,
    slice: Candidate,
    table: &mut OrderTable<'_>,
    sheet: &mut EventSheet<'_>,
) -> Volume
    requires rests { rests_at table.old.places.now slice.place ≡ true }
    requires fits { MayRest (record_at table.old.places.now slice.place) }
    requires room { sheet.old.count + 2 < 2 ^ 64 }
    ensures left { result ≡ shares (comes_of active.now.view.now active.now.order.now left.shares table.old.places.now slice).left }
    ensures table { table.new.places.now ≡ slice_set table.old.places.now slice.place (Some (met (comes_of active.now.view.now active.now.order.now left.shares table.old.places.now slice) (record_at table.old.places.now slice.place))) }
    ensures adds { Adds sheet.old sheet.new (reverse (comes_of active.now.view.now active.now.order.now left.shares table.old.places.now slice).reports) }
    ensures ends { table.new.ends ≡ table.old.ends }
    ensures written { Written table.old table.new }
{
    let mut order = table.record_at(slice.place);
    let mut meeting = Meeting {
        view: active.view,
        active: active.order,
        left,
        resting: order.resting,
        hidden: slice.facts.hidden,
    };
    meeting.conclude(sheet);
    order.drawn += order.resting.reserve.shares - meeting.resting.reserve.shares;
    order.resting = meeting.resting;
    table.replace(slice.place, order);
    meeting.left
}

// Table and sheet stay two arguments: each clause speaks of one of them, and what is called here takes one alone.
/// Runs the active order over the table, and answers what is left of it.
#[tactic(auto, using(crate::proofs::Going::going_start))]
pub fn run<R: Priority>(
    active: &ActiveOrder<'_, R>,
    volume: Volume,
    table: &mut OrderTable<'_>,
    sheet: &mut EventSheet<'_>,
) -> Volume
    requires rest { AllMayRest table.old.places.now }
    requires room { sheet.old.count + 2 * in_play (on_table volume.shares table.old.places.now []) + 2 < 2 ^ 64 }
    ensures left { result ≡ shares (run_of (R.Priority.rule active.now.rule.now) active.now.view.now active.now.order.now (on_table volume.shares table.old.places.now [])).left }
    ensures list { resting_of table.new.places.now ≡ (run_of (R.Priority.rule active.now.rule.now) active.now.view.now active.now.order.now (on_table volume.shares table.old.places.now [])).others }
    ensures adds { Adds sheet.old sheet.new (reverse (run_of (R.Priority.rule active.now.rule.now) active.now.view.now active.now.order.now (on_table volume.shares table.old.places.now [])).log) }
    ensures less { result.shares ≤ volume.shares }
    ensures same { SameOrders table.old.places.now table.new.places.now }
    ensures ends { table.new.ends ≡ table.old.ends }
    ensures rest { AllMayRest table.new.places.now }
    ensures few { sheet.new.count + 2 * in_play (on_table result.shares table.new.places.now []) ≤ sheet.old.count + 2 * in_play (on_table volume.shares table.old.places.now []) }
    ensures written { Written table.old table.new }
{
    let mut left = volume;
    'run: while left.shares > 0 {
        match active.next_slice(table) {
            Some(slice) => left = meet(active, left, slice, table, sheet),
            None => break 'run,
        }
    }
    left
}
