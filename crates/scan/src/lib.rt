//! The search for the slice that an active order meets next: one pass over the order table.
#![tactic(auto)]

ghost use Rattle.std.specs.Prelude.{◌≡◌, ◌≤◌, length};
ghost use Rattle.runs.specs.Lists.{foremost};
ghost use Rattle.runs.specs.Slices.{slices, taker as taker_of, ahead, offered};
ghost use Rattle.table.specs.Sequence.{resting_of, Distinct};
ghost use Rattle.scan.specs.Leading.{candidate, goes_before, better_of, considered, visited, Leading, below, NoneFrom, slice_of};

use prices::{View, executable_price, may_take};
use priority::{Priority, SliceFacts, Taker};
use table::{OrderRecord, OrderTable};
use types::{Order, OrderKind, Price, RestingOrder};

/// A slice of the order at a place of the table, with what it is compared by.
#[derive(Clone, Copy)]
pub struct Candidate {
    pub place: usize,
    pub time: u64,
    pub facts: SliceFacts,
}

/// The price at which an order trades.
pub fn price(view: &View, resting: &RestingOrder) -> Price
    ensures { result ≡ offered view.now resting.now }
{
    executable_price(view, &resting.order.entry).unwrap_or(Price { quarters: 0 })
}

/// An active order, with the rule and the view by which it meets slices.
#[derive(Drop)]
pub struct ActiveOrder<'a, R> {
    pub rule: &'a R,
    pub view: &'a View,
    pub order: &'a Order,
}

impl<R: Priority> ActiveOrder<'_, R> {
    /// What the rule is told of the order.
    fn taker(&self) -> Taker
        ensures { result ≡ taker_of self.now.order.now }
    {
        Taker {
            side: self.order.entry.side,
            broker: self.order.broker,
            marks: self.order.entry.marks,
        }
    }

    /// The slice of a record, as the order sees it.
    fn candidate(&self, order: &OrderRecord, place: usize, hidden: bool) -> Candidate
        ensures { result ≡ candidate self.now.view.now order.now place hidden }
    {
        let resting = &order.resting;
        Candidate {
            place,
            time: order.time,
            facts: SliceFacts {
                price: price(self.view, resting),
                hidden,
                peg: resting.order.entry.kind == OrderKind::Peg,
                broker: resting.order.broker,
                marks: resting.order.entry.marks,
            },
        }
    }

    /// By the rule, and where it answers level by time.
    fn goes_before(&self, first: Candidate, second: Candidate) -> bool
        ensures { result ≡ goes_before (R.Priority.rule self.now.rule.now) (taker_of self.now.order.now) first second }
    {
        self.rule
            .compare(self.taker(), first.facts, second.facts)
            .then(first.time.cmp(&second.time))
            .is_lt()
    }

    /// The better of the best so far and one more.
    fn better(&self, best: Option<Candidate>, next: Candidate) -> Option<Candidate>
        ensures { result ≡ better_of (R.Priority.rule self.now.rule.now) (taker_of self.now.order.now) best next }
    {
        match best {
            Some(best) if !self.goes_before(next, best) => Some(best),
            _ => Some(next),
        }
    }

    /// Considers one slice of a record, unless it is empty.
    fn consider(
        &self,
        order: &OrderRecord,
        place: usize,
        hidden: bool,
        best: Option<Candidate>,
    ) -> Option<Candidate>
        ensures { result ≡ considered (R.Priority.rule self.now.rule.now) self.now.view.now (taker_of self.now.order.now) order.now place hidden best }
    {
        if order.resting.slice(hidden).shares > 0 {
            self.better(best, self.candidate(order, place, hidden))
        } else {
            best
        }
    }

    /// Considers the slices of a record, if the order may take it.
    fn visit(&self, order: &OrderRecord, place: usize, best: Option<Candidate>) -> Option<Candidate>
        ensures { result ≡ visited (R.Priority.rule self.now.rule.now) self.now.view.now self.now.order.now order.now place best }
    {
        if may_take(self.view, &self.order.entry, &order.resting.order.entry) {
            let shown = self.consider(order, place, false, best);
            self.consider(order, place, true, shown)
        } else {
            best
        }
    }

    // A shared slice makes no table, so this stands beside `next_slice`.
    /// The slice that the order meets next. No order rests from `high` on.
    pub fn foremost_slice(&self, places: &[Option<OrderRecord>], high: usize) -> Option<Candidate>
        requires within { high ≤ length places.now }
        requires above { NoneFrom high places.now }
        requires distinct { Distinct places.now }
        ensures leads { Leading (R.Priority.rule self.now.rule.now) self.now.view.now self.now.order.now places.now (below high) result }
        ensures foremost { slice_of places.now result ≡ foremost (ahead (R.Priority.rule self.now.rule.now) self.now.view.now self.now.order.now) (slices self.now.view.now self.now.order.now (resting_of places.now)) }
    {
        let mut best = None;
        for (i, place) in places[..high].iter().enumerate() {
            best = match place {
                Some(order) => self.visit(order, i, best),
                None => best,
            };
        }
        best
    }

    /// The slice of a table that the order meets next.
    pub fn next_slice(&self, table: &OrderTable<'_>) -> Option<Candidate>
        ensures leads { Leading (R.Priority.rule self.now.rule.now) self.now.view.now self.now.order.now table.now.places.now (below table.now.ends.high) result }
        ensures foremost { slice_of table.now.places.now result ≡ foremost (ahead (R.Priority.rule self.now.rule.now) self.now.view.now self.now.order.now) (slices self.now.view.now self.now.order.now (resting_of table.now.places.now)) }
    {
        self.foremost_slice(table.places, table.ends.high)
    }
}
