//! Lines for reports and for resting orders, in words and dollars.
#![tactic(auto)]

mod reports;
mod resting;
mod told;

pub use reports::ReportLine;
pub use resting::RestingLine;
