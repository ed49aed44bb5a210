//! The codes of no and yes.
ghost use Rattle.codes.specs.Codes.{flag_code, flag_of};
ghost use Rattle.std.proofs.Common.{rules};

use crate::Coded;

impl Coded for bool {
    ghost number = { flag_code };

    ghost meaning = { flag_of };

    ghost kept = { Prim.search rules };

    ghost told = { Prim.search rules };

    fn code(self) -> u8 {
        self as u8
    }

    fn from_code(code: u8) -> Option<bool> {
        match code {
            0 => Some(false),
            1 => Some(true),
            _ => None,
        }
    }
}
