//! The keys of a book's registers: order numbers, and traders by their six letters.
ghost use Rattle.cells.specs.Keys.{same_order, order_home, same_trader, trader_home};
ghost use Rattle.std.proofs.Common.{rules};
ghost use Rattle.std.proofs.lemmas.Slice.Eq.{bytes_eq-Decides};
ghost use Rattle.cells.specs.Letters.{by_letters};

use crate::key::{Key, scatter};
use types::{OrderNumber, TraderId};

impl Key for OrderNumber {
    ghost equal = { same_order };

    ghost number = { order_home };

    ghost decides = { Prim.search rules };

    fn same(&self, other: &OrderNumber) -> bool {
        self.number == other.number
    }

    fn spread(&self) -> usize {
        scatter(u64::from(self.number))
    }
}

impl Key for TraderId {
    ghost equal = { same_trader };

    ghost number = { trader_home };

    ghost decides = { λ x y. by_letters (same_trader x y) x y (bytes_eq-Decides x.letters y.letters) };

    fn same(&self, other: &TraderId) -> bool {
        self.letters == other.letters
    }

    fn spread(&self) -> usize {
        let [a, b, c, d, e, f] = self.letters;
        let front = u32::from_be_bytes([0, a, b, c]);
        let back = u32::from_be_bytes([0, d, e, f]);
        scatter(scatter(u64::from(front)) as u64 + u64::from(back))
    }
}
