//! Frames of reports, of 21 bytes each.
ghost use Rattle.std.specs.Prelude.{◌≡◌, ◌≤◌, length};
ghost use Rattle.wire.specs.Reading.{announced};
ghost use Rattle.wire.specs.Reports.{report_kind, report_layout, report_at, report_bytes};

use crate::bytes::word;
use crate::framed::Framed;
use faults::FrameFault;
use types::{Report, ReportKind};

impl Framed for Report {
    type Kind = ReportKind;

    ghost kind_told = { report_kind };

    ghost length_of = { λ _. announced report_layout };

    ghost said = { report_at };

    fn kind(code: u8) -> Result<ReportKind, FrameFault> {
        ReportKind::try_from(code).map_err(|_| FrameFault::Kind)
    }

    fn announced(_kind: ReportKind) -> u16 {
        19
    }

    fn read(b: &[u8], kind: ReportKind) -> Report {
        Report {
            kind,
            order: word(b, 4),
            other: word(b, 8),
            price: word(b, 12),
            volume: word(b, 16),
            mark: b[20],
        }
    }
}

/// A report's frame.
// Neither a report nor an array is of this crate, so this is a function and no conversion.
pub fn report_bytes(report: Report) -> [u8; 21]
    ensures { result ≡ report_bytes report }
{
    let mut bytes = [0; 21];
    bytes[0..4].copy_from_slice(&[0, 19, 1, report.kind as u8]);
    bytes[4..8].copy_from_slice(&report.order.to_be_bytes());
    bytes[8..12].copy_from_slice(&report.other.to_be_bytes());
    bytes[12..16].copy_from_slice(&report.price.to_be_bytes());
    bytes[16..20].copy_from_slice(&report.volume.to_be_bytes());
    bytes[20] = report.mark;
    bytes
}
