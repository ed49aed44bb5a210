//! The codes of the marks, of which an order has any.
ghost use Rattle.codes.specs.Codes.{marks_code, marks_of};
ghost use Rattle.std.proofs.Common.{rules};

use crate::Coded;
use types::Marks;

impl Coded for Marks {
    ghost number = { marks_code };

    ghost meaning = { marks_of };

    ghost kept = { Prim.search rules };

    ghost told = { Prim.search rules };

    fn code(self) -> u8 {
        self.post_only as u8 + self.anonymous as u8 * 2 + self.jitney as u8 * 4
    }

    fn from_code(code: u8) -> Option<Marks> {
        if code < 8 {
            Some(Marks {
                post_only: code % 2 == 1,
                anonymous: code / 2 % 2 == 1,
                jitney: code / 4 == 1,
            })
        } else {
            None
        }
    }
}
