//! The codes of the instructions for self-trade prevention.
ghost use Rattle.codes.specs.Codes.{instruction_code, instruction_of};
ghost use Rattle.std.proofs.Common.{rules};

use crate::Coded;
use types::StpInstruction;

impl Coded for StpInstruction {
    ghost number = { instruction_code };

    ghost meaning = { instruction_of };

    ghost kept = { Prim.search rules };

    ghost told = { Prim.search rules };

    fn code(self) -> u8 {
        self as u8
    }

    fn from_code(code: u8) -> Option<StpInstruction> {
        match code {
            0 => Some(StpInstruction::Off),
            1 => Some(StpInstruction::TradeAndSuppress),
            2 => Some(StpInstruction::CancelAndDecrement),
            3 => Some(StpInstruction::CancelNewest),
            4 => Some(StpInstruction::CancelOldest),
            _ => None,
        }
    }
}
