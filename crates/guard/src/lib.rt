//! The guard over the order table and its spare copy behind it in one slice.
#![tactic(auto)]

mod copies;
mod renumbering;

ghost use Rattle.std.specs.Prelude.{◌≡◌, ◌+◌, ◌<◌, ◌≤◌, length, take, drop};
ghost use Rattle.table.specs.Sequence.{Orders, resting_of};
ghost use Rattle.table.specs.Places.{Sound};
ghost use Rattle.guard.specs.Keeping.{Kept};
ghost use Rattle.guard.specs.Renumbering.{with_room};

use copies::copy_changed;
use renumbering::renumber;
use table::{Ends, Journal, OrderRecord};

/// A journal for a table and a spare of which nothing is known: the first call copies the whole.
pub fn fresh(n: usize) -> Journal
    requires { n ≤ 65536 }
    ensures { (all : Orders) → n + n ≡ length all → Kept n all result }
{
    Journal {
        noted: None,
        high: n,
    }
}

// `start` and `undo` take slice, journal and length apart, since there is no guard before the one and none after the other; they differ in the direction of the one copy.
/// The start of a call: the spare becomes the table as the call finds it, and nothing is noted.
pub fn start(all: &mut [Option<OrderRecord>], journal: &mut Journal, n: usize)
    requires { Kept n all.old journal.old }
    ensures front { take n all.new ≡ take n all.old }
    ensures back { drop n all.new ≡ take n all.old }
    ensures kept { Kept n all.new journal.new }
{
    let (table, spare) = all.split_at_mut(n);
    copy_changed(table, spare, journal);
    journal.clear();
}

/// The end of a refused call: the table becomes the spare, and nothing is noted.
pub fn undo(all: &mut [Option<OrderRecord>], journal: &mut Journal, n: usize)
    requires { Kept n all.old journal.old }
    ensures front { take n all.new ≡ drop n all.old }
    ensures back { drop n all.new ≡ drop n all.old }
    ensures kept { Kept n all.new journal.new }
{
    let (table, spare) = all.split_at_mut(n);
    copy_changed(spare, table, journal);
    journal.clear();
}

/// The guard of a call: unless the call is accepted, its end restores the table.
pub struct Guard<'a> {
    pub all: &'a mut [Option<OrderRecord>],
    pub journal: &'a mut Journal,
    // Callers' clauses name the length of a half: table and spare are one piece of lent memory.
    pub n: usize,
}

impl Drop for Guard<'_> {
    fn drop(self)
        requires { Kept self.n self.all.now self.journal.now }
        ensures table { take self.entry.n self.exit.0.now ≡ drop self.entry.n self.entry.all.now }
        ensures spare { drop self.entry.n self.exit.0.now ≡ drop self.entry.n self.entry.all.now }
        ensures kept { Kept self.entry.n self.exit.0.now self.exit.1.0.now }
    {
        let Guard { all, journal, n } = self;
        undo(all, journal, n);
    }
}

impl<'a> Guard<'a> {
    /// Brings the spare up to date: it is the table as the call finds it.
    pub fn begin(
        all: &'a mut [Option<OrderRecord>],
        journal: &'a mut Journal,
        n: usize,
    ) -> Guard<'a>
        requires { Kept n all.old journal.old }
        ensures size { result.n ≡ n }
        ensures front { take n result.all.now ≡ take n all.old }
        ensures back { drop n result.all.now ≡ take n all.old }
        ensures kept { Kept n result.all.now result.journal.now }
        ensures named { result.all.ghost_name ≡ all.entry.ghost_name }
        ensures tied { result.journal.ghost_name ≡ journal.entry.ghost_name }
    {
        start(all, journal, n);
        Guard { all, journal, n }
    }

    // The ends are the caller's and not the guard's, so `Sound` is asked for here; what stays the same is one equation a clause.
    /// Sees to it, right at the beginning, that half of all timestamps are to be had.
    pub fn make_room(&mut self, ends: &mut Ends)
        requires kept { Kept self.old.n self.old.all.now self.old.journal.now }
        requires same { drop self.old.n self.old.all.now ≡ take self.old.n self.old.all.now }
        requires sound { Sound (take self.old.n self.old.all.now) ends.old }
        ensures size { self.new.n ≡ self.old.n }
        ensures table { take self.old.n self.new.all.now ≡ with_room ends.old.next (take self.old.n self.old.all.now) }
        ensures spare { drop self.old.n self.new.all.now ≡ drop self.old.n self.old.all.now }
        ensures list { resting_of (take self.old.n self.new.all.now) ≡ resting_of (take self.old.n self.old.all.now) }
        ensures times { ends.new.next < 9223372036854775808 }
        ensures sound { Sound (take self.old.n self.new.all.now) ends.new }
        ensures kept { Kept self.old.n self.new.all.now self.new.journal.now }
        ensures named { self.new.all.ghost_name ≡ self.old.all.ghost_name }
        ensures tied { self.new.journal.ghost_name ≡ self.old.journal.ghost_name }
    {
        if ends.next >= 9_223_372_036_854_775_808 {
            let all = &mut *self.all;
            let (table, spare) = all.split_at_mut(self.n);
            renumber(table, spare, self.journal);
            ends.next = self.n as u64;
        }
    }

    /// The call is accepted: the table stays as it is, and the journal with it.
    pub fn accept(self)
        ensures all { self.exit.0.now ≡ self.entry.all.now }
        ensures journal { self.exit.1.0.now ≡ self.entry.journal.now }
    {
        let Guard {
            all: _,
            journal: _,
            n: _,
        } = self;
    }
}
