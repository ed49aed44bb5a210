//! Orders of the table in their turn: picked in time sequence, moved to the end, cancelled.
#![tactic(auto)]

mod by_time;
mod cancelling;
mod collecting;
mod moving;
mod picks;

pub use cancelling::{cancel_all, cancel_one};
pub use collecting::collect;
pub use moving::move_to_end;
pub use picks::{EveryOrder, Picks, Repriced};
