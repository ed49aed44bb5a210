//! Report frames one after another.
ghost use Rattle.std.specs.Prelude.{◌≡◌, ◌/◌, ◌<◌, length, MatchResult};
ghost use Rattle.channel.specs.Following.{same_by};
ghost use Rattle.channel.specs.Frames.{report_in, reports_in, frames_left, ReadBack};

use crate::channel::{Channel, put_all};
use faults::ChannelFault;
use types::Report;
use wire::report_bytes;

/// Report frames in lent bytes; its space is the bytes left by 21, rounded down, and its list is what its bytes read back as.
// The bytes are lent memory, so a length stands beside them.
#[derive(Drop)]
pub struct ReportBytes<'a> {
    pub bytes: &'a mut [u8],
    pub frames: usize,
}

impl<'a> ReportBytes<'a> {
    /// No frame yet.
    pub fn new(bytes: &'a mut [u8]) -> ReportBytes<'a>
        ensures { result ≡ record { bytes = bytes.entry; frames = 0 } }
    {
        ReportBytes { bytes, frames: 0 }
    }
}

/// A report's frame, which reads back as the report.
fn frame(report: Report) -> [u8; 21]
    ensures { report_in result ≡ report }
{
    report_bytes(report)
}

// `ReportList` does the same with records: another memory, and so bodies of its own.
impl Channel for ReportBytes<'_> {
    ghost list = { λ s. reports_in s.frames s.bytes.now };

    ghost room = { λ s. frames_left s.frames s.bytes.now };

    ghost follows = { λ s t. t.bytes.ghost_name ≡ s.bytes.ghost_name };

    ghost lasting = { same_by (λ s. s.bytes.ghost_name) };

    fn put(&mut self, report: Report) -> Result<(), ChannelFault> {
        if self.frames >= self.bytes.len() / 21 {
            return Err(ChannelFault::Full);
        }
        let start = self.frames * 21;
        self.bytes[start..start + 21].copy_from_slice(&frame(report));
        self.frames += 1;
        Ok(())
    }

    fn space(&self) -> usize {
        (self.bytes.len() / 21).saturating_sub(self.frames)
    }
}

/// Writes the reports as frames from the first byte on, and answers how many they are.
pub fn write_reports(bytes: &mut [u8], reports: &[Report]) -> Result<usize, ChannelFault>
    ensures { MatchResult result (λ n. reports_in n bytes.new ≡ reports.now) (λ _. length bytes.old / 21 < length reports.now) }
{
    let mut channel = ReportBytes::new(bytes);
    put_all(&mut channel, reports)?;
    Ok(channel.frames)
}

/// The list of a byte channel is what the frame reader makes of its bytes, where no report is a blank.
pub fn frames_read_back()
    ensures { ReadBack }
{}
