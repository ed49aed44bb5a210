//! Cells that hold values by key, and the search for a key: one for every kind of key.
//!
//! Open addressing: a key is looked for from its home place on, round the end of the cells, up to the first free place.
//!
//! `Sound` says that such a search finds every key. `clear` makes any cells sound; `locate` and `find` ask for it.
#![tactic(auto)]

mod cell;
mod key;
mod keys;
mod search;

pub use cell::Cell;
pub use key::{Key, scatter};
pub use search::{clear, find, locate, next_place, value_at};
