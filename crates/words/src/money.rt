//! Prices in dollars.
ghost use Rattle.std.specs.Prelude.{Some};
ghost use Rattle.words.specs.Words.{dollars, side_dollars};

use std::fmt;
use types::Price;

/// A price, shown in dollars with four decimals.
#[derive(Clone, Copy, Debug, PartialEq, Eq)]
pub struct Dollars {
    pub price: Price,
}

impl fmt::Display for Dollars {
    ghost output = { λ d. Some (dollars d.price.quarters) };

    #[tactic(auto, using(crate::proofs::Digits::four_decimals), unfolding(crate::specs::Words::dollars))]
    fn fmt<W: fmt::Write>(&self, f: &mut fmt::Formatter<W>) -> fmt::Result {
        let all = u64::from(self.price.quarters) * 25;
        write!(f, "{}.{:04}", all / 10_000, all % 10_000)
    }
}

/// A side of a quote, shown in dollars, or as a dash where it is missing.
#[derive(Clone, Copy, Debug, PartialEq, Eq)]
pub struct QuoteSide {
    pub price: Option<Price>,
}

impl fmt::Display for QuoteSide {
    ghost output = { λ s. Some (side_dollars s.price) };

    fn fmt<W: fmt::Write>(&self, f: &mut fmt::Formatter<W>) -> fmt::Result {
        match self.price {
            None => write!(f, "-"),
            Some(price) => write!(f, "{}", Dollars { price }),
        }
    }
}
