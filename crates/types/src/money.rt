//! Prices, volumes and board lots.
ghost use Rattle.std.specs.Prelude.{◌≡◌, ◌<◌};
ghost use Rattle.types.specs.Reports.{price_or_zero, price_unless_zero};
ghost use Rattle.types.specs.Money.{lot_shares, lot_from};

/// A price counts quarter cents: 4000 is 10 dollars.
#[derive(Clone, Copy, Debug, PartialEq, Eq, PartialOrd, Ord)]
pub struct Price {
    pub quarters: u32,
}

impl Price {
    // Neither an option nor a number is of this crate, so these two are functions and no conversions.
    /// The number of a side of a quote: 0 where it is missing.
    pub fn or_zero(side: Option<Price>) -> u32
        ensures { result ≡ price_or_zero side }
    {
        side.map_or(0, |price| price.quarters)
    }

    /// The side of a quote that the number tells: missing where it is 0.
    pub fn unless_zero(quarters: u32) -> Option<Price>
        ensures { result ≡ price_unless_zero quarters }
    {
        if quarters == 0 {
            None
        } else {
            Some(Price { quarters })
        }
    }
}

/// A number of shares.
#[derive(Clone, Copy, Debug, PartialEq, Eq, PartialOrd, Ord)]
pub struct Volume {
    pub shares: u32,
}

/// The board lot, of which every volume is a multiple.
#[derive(Clone, Copy, Debug, PartialEq, Eq)]
pub enum Lot {
    Hundred = 100,
    FiveHundred = 500,
    Thousand = 1000,
}

/// A number of shares that no board lot has.
#[derive(Clone, Copy, Debug, PartialEq, Eq)]
pub struct UnknownLot {
    pub shares: u32,
}

impl Lot {
    pub fn shares(self) -> u32
        ensures value { result ≡ lot_shares self }
        ensures positive { 0 < result }
    {
        self as u32
    }
}

impl TryFrom<u32> for Lot {
    type Error = UnknownLot;

    ghost try_from_gives = { λ shares r. r ≡ lot_from shares };

    fn try_from(shares: u32) -> Result<Lot, UnknownLot> {
        match shares {
            100 => Ok(Lot::Hundred),
            500 => Ok(Lot::FiveHundred),
            1000 => Ok(Lot::Thousand),
            _ => Err(UnknownLot { shares }),
        }
    }
}
