//! A drop copy.
ghost use Rattle.std.specs.Prelude.{◌≡◌, min};
ghost use Rattle.channel.specs.Sending.{Sent, Copied};
ghost use Rattle.channel.specs.Following.{Both, both_last};

use crate::channel::{Channel, put_all};
use faults::ChannelFault;
use types::Report;

/// Two channels that get the same reports; its list is the first one's, its space the smaller.
#[derive(Drop)]
pub struct DropCopy<P, Q> {
    pub first: P,
    pub copy: Q,
}

impl<P: Channel, Q: Channel> Channel for DropCopy<P, Q> {
    ghost list = { λ s. P.Channel.list s.first };

    ghost room = { λ s. min (P.Channel.room s.first) (Q.Channel.room s.copy) };

    ghost follows = { λ s t. Both P.Channel.follows Q.Channel.follows P.Channel.list Q.Channel.list s.first s.copy t.first t.copy };

    ghost lasting = { both_last (λ s. s.first) (λ s. s.copy) P.Channel.list Q.Channel.list P.Channel.lasting Q.Channel.lasting };

    fn put(&mut self, report: Report) -> Result<(), ChannelFault> {
        if self.space() == 0 {
            return Err(ChannelFault::Full);
        }
        self.first.put(report)?;
        self.copy.put(report)
    }

    fn space(&self) -> usize {
        self.first.space().min(self.copy.space())
    }
}

impl<P: Channel, Q: Channel> DropCopy<P, Q> {
    // The free `put_all` does it; this one says what came to the copy as well.
    /// Appends all of the reports to both, or none to either where one has less space than reports.
    pub fn put_all(&mut self, reports: &[Report]) -> Result<(), ChannelFault>
        ensures sent { Sent ⟦<DropCopy<P, Q> as Channel>⟧.list ⟦<DropCopy<P, Q> as Channel>⟧.room self.old reports.now result self.new }
        ensures copied { Copied Q.Channel.list self.old.copy reports.now result self.new.copy }
    {
        put_all(self, reports)
    }
}
