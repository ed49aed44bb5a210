//! A finder keeps values by key in lent cells: one map for every kind of key. The library's maps would take memory of their own.
//!
//! A key is looked for from its home place on, round the end of the cells, up to the first free place.
//! A removal draws the keys behind it nearer to their homes, so that the place is free again and no search grows longer by it.
//!
//! `Sound` says that a search finds every key. `new` and `clear` make any cells sound; the other methods ask for it, and those that change the cells keep it.
#![tactic(auto)]

mod finder;
mod shift;

pub use finder::{Finder, Full};
