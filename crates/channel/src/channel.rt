//! What every channel does.
ghost use Rattle.std.specs.Prelude.{◌≡◌, ℕ, List, [], ◌∷◌};
ghost use Rattle.types.specs.declared.reports.Report.{Report};
ghost use Rattle.channel.specs.Sending.{Sent};
ghost use Rattle.channel.specs.Following.{Lasting};

use faults::ChannelFault;
use types::Report;

pub trait Channel {
    /// The reports so far.
    ghost list: { Self → List Report };

    /// How many further reports there is space for.
    ghost room: { Self → ℕ };

    /// What else ties a channel to what it was before some puts: that it still stands on the memory that it was lent,
    /// and where it stands for several channels, that their lists have grown alike.
    ghost follows: { Self → Self → Type 0 };

    ghost lasting: { Lasting follows };

    /// Appends a report; refused exactly where there is no space.
    fn put(&mut self, report: Report) -> Result<(), ChannelFault>
        ensures sent { Sent list room self.old (report ∷ []) result self.new }
        ensures follows { follows self.old self.new };

    fn space(&self) -> usize
        ensures { result ≡ room self.now };
}

/// Appends all of the reports, or none where there is less space than reports.
pub fn put_all<C: Channel>(channel: &mut C, reports: &[Report]) -> Result<(), ChannelFault>
    ensures sent { Sent C.list C.room channel.old reports.now result channel.new }
    ensures follows { C.follows channel.old channel.new }
{
    if channel.space() < reports.len() {
        return Err(ChannelFault::Full);
    }
    for report in reports {
        channel.put(*report)?;
    }
    Ok(())
}
