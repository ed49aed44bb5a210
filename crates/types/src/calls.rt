//! The calls that a book takes.
use crate::orders::{Broker, Entry, OrderNumber, TraderId};
use crate::quotes::Quote;

#[derive(Clone, Copy, Debug, PartialEq, Eq)]
pub struct Cancellation {
    pub trader: TraderId,
    pub order: OrderNumber,
}

#[derive(Clone, Copy, Debug, PartialEq, Eq)]
pub struct Enrolment {
    pub trader: TraderId,
    pub broker: Broker,
    pub latency_sensitive: bool,
}

#[derive(Clone, Copy, Debug, PartialEq, Eq)]
pub enum Call {
    Enter(Entry),
    Cancel(Cancellation),
    Quote(Quote),
    Halt,
    Resume(Quote),
    Close,
    Enrol(Enrolment),
}
