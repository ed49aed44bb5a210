//! The rules of a day: what each call does in each state, and the laws that every day keeps.
#![tactic(auto)]

ghost use Rattle.std.specs.Prelude.{◌≡◌};
ghost use Rattle.rules.specs.Cases.{Cases};
ghost use Rattle.rules.specs.Laws.{DayLaw, CallsGoOn};
ghost use Rattle.rules.specs.SetUps.{places_in_range, set_up_ok, lot_in};

use types::Lot;

/// What a book is set up with: the board lot in shares, how many orders a day takes, and the places of the order table,
/// the event sheet, the trader register and the order register.
#[derive(Clone, Copy, Debug, PartialEq, Eq)]
pub struct SetUp {
    // A number, so that a set-up with any other than the three can be refused.
    pub lot: u32,
    pub day_limit: u32,
    pub table: usize,
    pub sheet: usize,
    pub traders: usize,
    pub orders: usize,
}

impl SetUp {
    /// The sheet and the registers are within their ranges.
    fn has_places_in_range(&self) -> bool
        ensures { result ≡ places_in_range self.now }
    {
        (1..=65_536).contains(&self.sheet)
            && (1..=65_536).contains(&self.traders)
            && (self.table..=65_536).contains(&self.orders)
    }

    /// Every size is within its range, and behind the table stands a spare as long.
    pub fn is_accepted(&self, spare: usize) -> bool
        ensures { result ≡ set_up_ok self.now spare }
    {
        Lot::try_from(self.lot).is_ok()
            && (1..=1_000_000).contains(&self.day_limit)
            && (1..=4096).contains(&self.table)
            && self.has_places_in_range()
            && spare == self.table
    }

    /// The board lot of an accepted set-up.
    pub fn board_lot(&self) -> Lot
        ensures { result ≡ lot_in self.now }
    {
        Lot::try_from(self.lot).unwrap_or(Lot::Hundred)
    }
}

/// The worked cases come out as they should.
pub fn cases_hold()
    ensures { Cases }
{}

/// The three laws hold of every day: for every set-up, every lawful rule, every space of the channel and every list of calls.
pub fn day_holds()
    ensures { DayLaw }
{}

/// A call that is served as the rules say carries the law on, whatever calls of the day came before it.
pub fn calls_go_on()
    ensures { CallsGoOn }
{}
