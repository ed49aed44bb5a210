//! The table with what belongs to it.
ghost use Rattle.table.specs.Places.{Sound};

use crate::{Ends, Journal, OrderRecord, first_free, first_from, highest, write};
use types::RestingOrder;

/// The places of a table, the journal of the writes to them, and its ends, which are true of them.
#[derive(Drop)]
pub struct OrderTable<'a> {
    pub places: &'a mut [Option<OrderRecord>],
    pub journal: &'a mut Journal,
    pub ends: Ends,
    pub ghost sound: { Sound places.now ends },
}

impl OrderTable<'_> {
    ghost use Rattle.std.specs.Prelude.{◌≡◌, ◌+◌, ◌^◌, ◌<◌, true, [], ◌∷◌, ◌++◌, length, is_some, Some, None, MatchOption, nat_lt, slice_set};
    ghost use Rattle.std.specs.List.{remove};
    ghost use Rattle.table.specs.Sequence.{rests_at, record_at, record_of, stamped, resting_of, rank};
    ghost use Rattle.table.specs.Places.{Found};
    ghost use Rattle.table.specs.Walking.{FirstFrom};
    ghost use Rattle.table.specs.Writing.{Written};

    /// The record at a place where an order rests.
    pub fn record_at(&self, i: usize) -> OrderRecord
        requires { rests_at self.now.places.now i ≡ true }
        ensures { result ≡ record_at self.now.places.now i }
    {
        self.places[i].unwrap()
    }

    /// The first free place; there is one exactly where fewer orders rest than the table has places.
    pub fn first_free(&self) -> Option<usize>
        ensures found { Found self.now.places.now result }
        ensures room { is_some result ≡ nat_lt (length (resting_of self.now.places.now)) (length self.now.places.now) }
    {
        first_free(self.places, self.ends)
    }

    // That orders may rest is no fact of every table, since any order may enter; that timestamps do not run out is none, since each entry takes one.
    /// Puts an order at the first free place, which it answers, and at the end of the time list.
    pub fn enter(&mut self, resting: RestingOrder) -> Option<usize>
        requires { self.old.ends.next + 1 < 2 ^ 64 }
        ensures found { Found self.old.places.now result }
        ensures table { MatchOption result (self.new.places.now ≡ self.old.places.now) (λ i. self.new.places.now ≡ slice_set self.old.places.now i (Some (record_of self.old.ends.next resting))) }
        ensures list { MatchOption result (resting_of self.new.places.now ≡ resting_of self.old.places.now) (λ _. resting_of self.new.places.now ≡ resting_of self.old.places.now ++ resting ∷ []) }
        ensures times { MatchOption result (self.new.ends ≡ self.old.ends) (λ _. self.new.ends.next ≡ self.old.ends.next + 1) }
        ensures written { Written self.old self.new }
    {
        let i = self.first_free()?;
        let entered = OrderRecord::new(self.ends.next, resting);
        write(self.places, self.journal, i, Some(entered));
        self.ends = Ends {
            low: i + 1,
            high: self.ends.high.max(i + 1),
            next: self.ends.next + 1,
        };
        Some(i)
    }

    /// Sets the place of an order free: the order leaves the time list.
    pub fn leave(&mut self, i: usize)
        requires { rests_at self.old.places.now i ≡ true }
        ensures table { self.new.places.now ≡ slice_set self.old.places.now i None }
        ensures list { resting_of self.new.places.now ≡ remove (resting_of self.old.places.now) (rank self.old.places.now i) }
        ensures times { self.new.ends.next ≡ self.old.ends.next }
        ensures written { Written self.old self.new }
    {
        let places = &mut *self.places;
        write(places, self.journal, i, None);
        self.ends.low = self.ends.low.min(i);
        self.ends.high = highest(places, self.ends.high);
    }

    /// Puts another record with the same timestamp at the place of an order, which stays where it is on the time list.
    pub fn replace(&mut self, i: usize, order: OrderRecord)
        requires rests { rests_at self.old.places.now i ≡ true }
        requires time { order.time ≡ (record_at self.old.places.now i).time }
        ensures table { self.new.places.now ≡ slice_set self.old.places.now i (Some order) }
        ensures list { resting_of self.new.places.now ≡ slice_set (resting_of self.old.places.now) (rank self.old.places.now i) order.resting }
        ensures ends { self.new.ends ≡ self.old.ends }
        ensures written { Written self.old self.new }
    {
        write(self.places, self.journal, i, Some(order));
    }

    /// Puts another record with the next timestamp at the place of an order, which goes to the end of the time list.
    pub fn renew(&mut self, i: usize, order: OrderRecord)
        requires rests { rests_at self.old.places.now i ≡ true }
        requires times { self.old.ends.next + 1 < 2 ^ 64 }
        ensures table { self.new.places.now ≡ slice_set self.old.places.now i (Some (stamped self.old.ends.next order)) }
        ensures list { resting_of self.new.places.now ≡ remove (resting_of self.old.places.now) (rank self.old.places.now i) ++ order.resting ∷ [] }
        ensures times { self.new.ends.next ≡ self.old.ends.next + 1 }
        ensures written { Written self.old self.new }
    {
        write(
            self.places,
            self.journal,
            i,
            Some(order.stamped(self.ends.next)),
        );
        self.ends.next += 1;
    }

    /// Gives an order the next timestamp: it keeps its place, and goes to the end of the time list.
    pub fn to_end(&mut self, i: usize)
        requires rests { rests_at self.old.places.now i ≡ true }
        requires times { self.old.ends.next + 1 < 2 ^ 64 }
        ensures table { self.new.places.now ≡ slice_set self.old.places.now i (Some (stamped self.old.ends.next (record_at self.old.places.now i))) }
        ensures list { resting_of self.new.places.now ≡ remove (resting_of self.old.places.now) (rank self.old.places.now i) ++ (record_at self.old.places.now i).resting ∷ [] }
        ensures times { self.new.ends.next ≡ self.old.ends.next + 1 }
        ensures written { Written self.old self.new }
    {
        self.renew(i, self.record_at(i));
    }

    /// The place of the first order on the time list whose timestamp is not earlier than `time`.
    pub fn first_from(&self, time: u64) -> Option<usize>
        ensures { FirstFrom self.now.places.now time result }
    {
        first_from(self.places, self.ends, time)
    }
}
