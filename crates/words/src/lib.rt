//! What is printed of money, orders, calls and refusals.
#![tactic(auto)]

mod lines;
mod money;

pub use lines::{CallLine, RefusalLine};
pub use money::{Dollars, QuoteSide};
