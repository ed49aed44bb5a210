//! The ends of the table.

/// Every place below `low` is in use, `high` is right above the highest place in use, and every timestamp is below `next`.
#[derive(Clone, Copy)]
pub struct Ends {
    pub low: usize,
    pub high: usize,
    pub next: u64,
}
