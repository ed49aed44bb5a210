//! A line for a resting order.
ghost use Rattle.std.specs.Prelude.{Some};
ghost use Rattle.report_lines.specs.Lines.{resting_words};

use names::Worded;
use std::fmt;
use types::RestingOrder;
use words::Dollars;

/// A resting order in words and dollars; a limit has no reserve, and a peg shows nothing.
#[derive(Clone, Copy, Debug, PartialEq, Eq)]
pub struct RestingLine {
    pub resting: RestingOrder,
}

impl fmt::Display for RestingLine {
    ghost output = { λ l. Some (resting_words l.resting) };

    fn fmt<W: fmt::Write>(&self, f: &mut fmt::Formatter<W>) -> fmt::Result {
        let RestingOrder {
            order,
            shown,
            reserve,
        } = self.resting;
        let limit = Dollars {
            price: order.entry.limit,
        };
        write!(
            f,
            "RESTING order {} {} {} at {limit} shown {} reserve {} broker {}",
            order.number.number,
            order.entry.side.word(),
            order.entry.kind.word(),
            shown.shares,
            reserve.shares,
            order.broker.number
        )
    }
}
