//! The codes of the sides.
ghost use Rattle.codes.specs.Codes.{side_code, side_of};
ghost use Rattle.std.proofs.Common.{rules};

use crate::Coded;
use types::Side;

impl Coded for Side {
    ghost number = { side_code };

    ghost meaning = { side_of };

    ghost kept = { Prim.search rules };

    ghost told = { Prim.search rules };

    fn code(self) -> u8 {
        self.into()
    }

    fn from_code(code: u8) -> Option<Side> {
        match code {
            1 => Some(Side::Buy),
            2 => Some(Side::Sell),
            _ => None,
        }
    }
}
