//! A line for a report.
ghost use Rattle.std.specs.Prelude.{Some};
ghost use Rattle.report_lines.specs.Lines.{report_words};

use crate::told::{active_told, reason_told, resume_told, side_told, suppressed_told};
use std::fmt;
use types::{Price, Report, ReportKind};
use words::{Dollars, QuoteSide};

/// A report in words and dollars.
#[derive(Clone, Copy, Debug, PartialEq, Eq)]
pub struct ReportLine {
    pub report: Report,
}

impl fmt::Display for ReportLine {
    ghost output = { λ l. Some (report_words l.report) };

    fn fmt<W: fmt::Write>(&self, f: &mut fmt::Formatter<W>) -> fmt::Result {
        let Report {
            kind,
            order,
            other,
            price,
            volume,
            mark,
        } = self.report;
        match kind {
            ReportKind::Blank => write!(f, "BLANK"),
            ReportKind::Accepted => {
                let side = side_told(mark);
                let limit = Dollars {
                    price: Price { quarters: price },
                };
                write!(f, "ACCEPTED order {order} {side} {volume} at {limit}")
            }
            ReportKind::Trade => {
                let price = Dollars {
                    price: Price { quarters: price },
                };
                let active = active_told(mark);
                let suppressed = suppressed_told(mark / 4 == 1);
                write!(
                    f,
                    "TRADE buyer {order} seller {other} price {price} volume {volume} active {active}{suppressed}"
                )
            }
            ReportKind::Cancelled => {
                let reason = reason_told(mark);
                write!(f, "CANCELLED order {order} volume {volume} by {reason}")
            }
            ReportKind::Decremented => write!(
                f,
                "DECREMENTED order {order} volume {volume} against {other}"
            ),
            ReportKind::Quote => {
                let bid = QuoteSide {
                    price: Price::unless_zero(price),
                };
                let offer = QuoteSide {
                    price: Price::unless_zero(volume),
                };
                let resumed = resume_told(mark);
                write!(f, "QUOTE bid {bid} offer {offer}{resumed}")
            }
            ReportKind::Halted => write!(f, "HALTED"),
            ReportKind::Closed => write!(f, "CLOSED"),
        }
    }
}
