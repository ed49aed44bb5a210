//! A list of records.
ghost use Rattle.std.specs.Prelude.{◌≡◌, ◌-◌, length, take};
ghost use Rattle.channel.specs.Following.{same_by};

use crate::channel::Channel;
use faults::ChannelFault;
use types::Report;

/// Reports one after another in a lent slice; its space is the places left.
// The list is lent memory, so a length stands beside it.
#[derive(Drop)]
pub struct ReportList<'a> {
    pub places: &'a mut [Report],
    pub used: usize,
}

impl<'a> ReportList<'a> {
    /// An empty list.
    pub fn new(places: &'a mut [Report]) -> ReportList<'a>
        ensures { result ≡ record { places = places.entry; used = 0 } }
    {
        ReportList { places, used: 0 }
    }
}

// `ReportBytes` does the same with frames: another memory, and so bodies of its own.
impl Channel for ReportList<'_> {
    ghost list = { λ s. take s.used s.places.now };

    ghost room = { λ s. length s.places.now - s.used };

    ghost follows = { λ s t. t.places.ghost_name ≡ s.places.ghost_name };

    ghost lasting = { same_by (λ s. s.places.ghost_name) };

    fn put(&mut self, report: Report) -> Result<(), ChannelFault> {
        if self.used >= self.places.len() {
            return Err(ChannelFault::Full);
        }
        self.places[self.used] = report;
        self.used += 1;
        Ok(())
    }

    fn space(&self) -> usize {
        self.places.len().saturating_sub(self.used)
    }
}
