//! The event sheet: the lent memory that a call's reports are written to as it goes.
#![tactic(auto)]

ghost use Rattle.std.specs.Prelude.{◌≡◌, [], ◌∷◌, ◌+◌, ◌<◌, ◌^◌, nat_le, length};
ghost use Rattle.sheet.specs.Sheets.{Holds, Adds, BlankBeyond, SamePlaces};

use types::Report;

/// The first `count` reports of a call, as far as there are places for them; the places behind them are blank.
// The sheet is lent memory, so a length stands beside it.
pub struct EventSheet<'a> {
    pub reports: &'a mut [Report],
    pub count: usize,
}

impl EventSheet<'_> {
    /// Blanks what the last call wrote.
    pub fn begin(&mut self)
        requires { BlankBeyond self.old }
        ensures empty { Holds self.new [] }
        ensures same { SamePlaces self.old self.new }
    {
        let places = self.count.min(self.reports.len());
        self.reports[0..places].fill(Report::blank());
        self.count = 0;
    }

    /// Writes one report behind the others if there is a place, and counts it.
    pub fn push(&mut self, report: Report)
        requires { self.old.count + 1 < 2 ^ 64 }
        ensures { Adds self.old self.new (report ∷ []) }
    {
        if self.count < self.reports.len() {
            self.reports[self.count] = report;
        }
        self.count += 1;
    }

    /// The number of reports of the call.
    pub fn count(&self) -> usize
        ensures { result ≡ self.now.count }
    {
        self.count
    }

    /// Whether there was a place for each report.
    pub fn fits(&self) -> bool
        ensures { result ≡ nat_le self.now.count (length self.now.reports.now) }
    {
        self.count <= self.reports.len()
    }
}
