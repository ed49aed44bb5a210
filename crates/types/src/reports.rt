//! What a book reports.
ghost use Rattle.std.specs.Prelude.{◌≡◌};
ghost use Rattle.types.specs.Reports.{report_kind_from, cancel_mark, blank, accepted, trade, cancelled, decremented, quoted, halted, closed};

use crate::money::{Price, Volume};
use crate::orders::{OrderNumber, Side};
use crate::quotes::Quote;

#[derive(Clone, Copy, Debug, PartialEq, Eq)]
pub enum ReportKind {
    /// No report: a place of an event sheet that is not in use.
    Blank = 0,
    Accepted = 1,
    Trade = 2,
    Cancelled = 3,
    Decremented = 4,
    Quote = 5,
    Halted = 6,
    Closed = 7,
}

/// A number of no report's kind.
#[derive(Clone, Copy, Debug, PartialEq, Eq)]
pub struct UnknownReportKind {
    pub code: u8,
}

/// The kind of a report, by its number; a blank is no report, so 0 tells none.
impl TryFrom<u8> for ReportKind {
    type Error = UnknownReportKind;

    ghost try_from_gives = { λ code r. r ≡ report_kind_from code };

    fn try_from(code: u8) -> Result<ReportKind, UnknownReportKind> {
        match code {
            1 => Ok(ReportKind::Accepted),
            2 => Ok(ReportKind::Trade),
            3 => Ok(ReportKind::Cancelled),
            4 => Ok(ReportKind::Decremented),
            5 => Ok(ReportKind::Quote),
            6 => Ok(ReportKind::Halted),
            7 => Ok(ReportKind::Closed),
            _ => Err(UnknownReportKind { code }),
        }
    }
}

/// Why what was left of an order was cancelled.
#[derive(Clone, Copy, Debug, PartialEq, Eq)]
pub enum CancelReason {
    Requested = 1,
    ImmediateOrCancel = 2,
    FillOrKill = 3,
    SelfTrade = 4,
    Close = 5,
}

/// How a report marks the reason.
impl From<CancelReason> for u8 {
    ghost from_gives = { λ reason mark. mark ≡ cancel_mark reason };

    fn from(reason: CancelReason) -> u8 {
        reason as u8
    }
}

/// A report's kind and its five numbers, which a reader takes with any values.
#[derive(Clone, Copy, Debug, PartialEq, Eq)]
pub struct Report {
    pub kind: ReportKind,
    pub order: u32,
    pub other: u32,
    pub price: u32,
    pub volume: u32,
    pub mark: u8,
}

impl Report {
    /// A blank place of an event sheet: all zeros.
    pub fn blank() -> Report
        ensures { result ≡ blank }
    {
        // The zeros are said here, and the other reports are made of this one.
        Report {
            kind: ReportKind::Blank,
            order: 0,
            other: 0,
            price: 0,
            volume: 0,
            mark: 0,
        }
    }

    pub fn accepted(order: OrderNumber, limit: Price, volume: Volume, side: Side) -> Report
        ensures { result ≡ accepted order limit volume side }
    {
        Report {
            kind: ReportKind::Accepted,
            order: order.number,
            price: limit.quarters,
            volume: volume.shares,
            mark: side.into(),
            ..Report::blank()
        }
    }

    pub fn trade(
        buyer: OrderNumber,
        seller: OrderNumber,
        price: Price,
        volume: Volume,
        active: Side,
        suppressed: bool,
    ) -> Report
        ensures { result ≡ trade buyer seller price volume active suppressed }
    {
        let side = u8::from(active);
        let mark = if suppressed { side + 4 } else { side };
        Report {
            kind: ReportKind::Trade,
            order: buyer.number,
            other: seller.number,
            price: price.quarters,
            volume: volume.shares,
            mark,
        }
    }

    pub fn cancelled(order: OrderNumber, volume: Volume, reason: CancelReason) -> Report
        ensures { result ≡ cancelled order volume reason }
    {
        Report {
            kind: ReportKind::Cancelled,
            order: order.number,
            volume: volume.shares,
            mark: reason.into(),
            ..Report::blank()
        }
    }

    /// The order lost volume to self-trade prevention, which cancelled the other one.
    pub fn decremented(order: OrderNumber, other: OrderNumber, volume: Volume) -> Report
        ensures { result ≡ decremented order other volume }
    {
        Report {
            kind: ReportKind::Decremented,
            order: order.number,
            other: other.number,
            volume: volume.shares,
            ..Report::blank()
        }
    }

    pub fn quoted(quote: Quote, resumed: bool) -> Report
        ensures { result ≡ quoted quote resumed }
    {
        Report {
            kind: ReportKind::Quote,
            price: Price::or_zero(quote.bid),
            volume: Price::or_zero(quote.offer),
            mark: resumed as u8,
            ..Report::blank()
        }
    }

    pub fn halted() -> Report
        ensures { result ≡ halted }
    {
        Report {
            kind: ReportKind::Halted,
            ..Report::blank()
        }
    }

    pub fn closed() -> Report
        ensures { result ≡ closed }
    {
        Report {
            kind: ReportKind::Closed,
            ..Report::blank()
        }
    }
}
