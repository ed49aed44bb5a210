//! The codes of the terms.
ghost use Rattle.codes.specs.Codes.{term_code, term_of};
ghost use Rattle.std.proofs.Common.{rules};

use crate::Coded;
use types::TimeInForce;

impl Coded for TimeInForce {
    ghost number = { term_code };

    ghost meaning = { term_of };

    ghost kept = { Prim.search rules };

    ghost told = { Prim.search rules };

    fn code(self) -> u8 {
        self as u8
    }

    fn from_code(code: u8) -> Option<TimeInForce> {
        match code {
            1 => Some(TimeInForce::Day),
            2 => Some(TimeInForce::ImmediateOrCancel),
            3 => Some(TimeInForce::FillOrKill),
            _ => None,
        }
    }
}
