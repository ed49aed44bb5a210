//! The codes of the kinds of order.
ghost use Rattle.codes.specs.Codes.{kind_code, kind_of};
ghost use Rattle.std.proofs.Common.{rules};

use crate::Coded;
use types::OrderKind;

impl Coded for OrderKind {
    ghost number = { kind_code };

    ghost meaning = { kind_of };

    ghost kept = { Prim.search rules };

    ghost told = { Prim.search rules };

    fn code(self) -> u8 {
        self as u8
    }

    fn from_code(code: u8) -> Option<OrderKind> {
        match code {
            1 => Some(OrderKind::Limit),
            2 => Some(OrderKind::Iceberg),
            3 => Some(OrderKind::Peg),
            _ => None,
        }
    }
}
