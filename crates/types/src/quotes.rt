//! The protected quote, and the states of a session.
use crate::money::Price;

/// The protected bid and offer, each of which may be missing.
#[derive(Clone, Copy, Debug, PartialEq, Eq)]
pub struct Quote {
    pub bid: Option<Price>,
    pub offer: Option<Price>,
}

#[derive(Clone, Copy, Debug, PartialEq, Eq)]
pub enum SessionState {
    Open,
    Halted,
    Closed,
}
