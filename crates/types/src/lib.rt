//! The words of the book: money, orders, quotes, calls and reports.
#![tactic(auto)]

mod calls;
mod money;
mod orders;
mod quotes;
mod reports;

pub use calls::{Call, Cancellation, Enrolment};
pub use money::{Lot, Price, UnknownLot, Volume};
pub use orders::{
    Broker, Entry, Marks, Order, OrderKind, OrderNumber, RestingOrder, Side, StpInstruction,
    StpKey, TimeInForce, TraderId,
};
pub use quotes::{Quote, SessionState};
pub use reports::{CancelReason, Report, ReportKind, UnknownReportKind};
