//! A resting order is run again from its place, which it keeps.
#![tactic(auto)]

ghost use Rattle.std.specs.Prelude.{◌≡◌, ◌+◌, ◌*◌, ◌^◌, ◌<◌, ◌≤◌, true, false, [], reverse};
ghost use Rattle.runs.specs.Slices.{volume_of};
ghost use Rattle.runs.specs.Runs.{in_play, spent, laid_out};
ghost use Rattle.rules.specs.Requotes.{run_at, put_back};
ghost use Rattle.table.specs.Sequence.{rests_at, record_at, resting_of};
ghost use Rattle.table.specs.Writing.{Written};
ghost use Rattle.sheet.specs.Sheets.{Adds};
ghost use Rattle.matching.specs.Running.{on_table, AllMayRest};
ghost use Rattle.tidying.specs.Tidying.{Undrawn};
ghost use Rattle.reentry.specs.Spots.{spot, book_of, hollow};

use matching::run;
use prices::View;
use priority::Priority;
use scan::ActiveOrder;
use sheet::EventSheet;
use table::{OrderRecord, OrderTable};
use tidying::tidy;
use types::{Order, OrderKind, RestingOrder, Volume};

/// How an order with some volume comes to rest.
pub fn lay_out(order: Order, volume: Volume) -> RestingOrder
    ensures { result ≡ laid_out order.entry.kind order volume.shares }
{
    let shown = match order.entry.kind {
        OrderKind::Limit => volume.shares,
        OrderKind::Iceberg => order.entry.display.shares.min(volume.shares),
        OrderKind::Peg => 0,
    };
    RestingOrder {
        order,
        shown: Volume { shares: shown },
        reserve: Volume {
            shares: volume.shares - shown,
        },
    }
}

/// The order after its run: as it was if it lost nothing, otherwise as after an entry.
fn after_run(before: &RestingOrder, left: Volume) -> RestingOrder
    requires { volume_of before.now < 2 ^ 32 }
    ensures { result ≡ put_back before.now left.shares }
{
    if left == before.volume() {
        *before
    } else {
        lay_out(before.order, left)
    }
}

/// The record with no volume.
fn hollowed(order: OrderRecord) -> OrderRecord
    ensures { result ≡ hollow order }
{
    let none = Volume { shares: 0 };
    OrderRecord {
        resting: RestingOrder {
            shown: none,
            reserve: none,
            ..order.resting
        },
        ..order
    }
}

/// Runs the order at a place of the table, puts back what is left of it, and tidies the table.
pub fn re_enter<R: Priority>(
    rule: &R,
    view: &View,
    table: &mut OrderTable<'_>,
    i: usize,
    sheet: &mut EventSheet<'_>,
)
    requires rest { AllMayRest table.old.places.now }
    requires undrawn { Undrawn table.old.places.now }
    requires rests { rests_at table.old.places.now i ≡ true }
    requires unspent { spent (record_at table.old.places.now i).resting ≡ false }
    requires times { table.old.ends.next + 65536 < 2 ^ 64 }
    requires room { sheet.old.count + 2 * in_play (on_table 0 table.old.places.now []) + 2 < 2 ^ 64 }
    ensures list { resting_of table.new.places.now ≡ (run_at (R.Priority.rule rule.now) view.now (spot table.old.places.now i) (book_of table.old.places.now)).resting }
    ensures adds { Adds sheet.old sheet.new (reverse (run_at (R.Priority.rule rule.now) view.now (spot table.old.places.now i) (book_of table.old.places.now)).log) }
    ensures undrawn { Undrawn table.new.places.now }
    ensures rest { AllMayRest table.new.places.now }
    ensures times { table.new.ends.next ≤ table.old.ends.next + 65536 }
    ensures written { Written table.old table.new }
{
    let before = table.record_at(i);
    table.replace(i, hollowed(before));
    let active = ActiveOrder {
        rule,
        view,
        order: &before.resting.order,
    };
    let left = run(&active, before.resting.volume(), table, sheet);
    let resting = after_run(&before.resting, left);
    table.replace(i, OrderRecord { resting, ..before });
    tidy(table);
}
