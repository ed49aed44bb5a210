//! What the order table has at a place in use.
ghost use Rattle.std.specs.Prelude.{◌≡◌};
ghost use Rattle.table.specs.Sequence.{record_of, stamped};

use types::RestingOrder;

/// An order at its place. `time` is its priority timestamp; `drawn` is what the run going on has drawn from its reserve.
#[derive(Clone, Copy)]
pub struct OrderRecord {
    pub time: u64,
    pub drawn: u32,
    pub resting: RestingOrder,
}

impl OrderRecord {
    /// The record of an order that comes to rest at a time.
    pub fn new(time: u64, resting: RestingOrder) -> OrderRecord
        ensures { result ≡ record_of time resting }
    {
        OrderRecord {
            time,
            drawn: 0,
            resting,
        }
    }

    /// The record with another timestamp.
    pub fn stamped(self, time: u64) -> OrderRecord
        ensures { result ≡ stamped time self }
    {
        OrderRecord { time, ..self }
    }
}
