//! What a finder asks of its keys.
//!
//! A key of several parts is spread part by part, as `scatter(scatter(first) as u64 + second)`.
ghost use Rattle.std.specs.Prelude.{◌≡◌, ℕ, Bool, Decides, nat_eq};
ghost use Rattle.cells.specs.Cells.{scattered};
ghost use Rattle.std.proofs.Common.{rules};

pub trait Key: Copy {
    /// Whether two keys are the same.
    ghost equal: { Self → Self → Bool };

    /// The number that a key's home goes by: its remainder by the number of cells.
    ghost number: { Self → ℕ };

    fn same(&self, other: &Self) -> bool
        ensures { result ≡ equal self.now other.now };

    fn spread(&self) -> usize
        ensures { result ≡ number self.now };

    /// Equal keys are one key.
    ghost decides: { (x y : Self) → Decides (equal x y) (x ≡ y) };
}

/// Spreads a key's number, so that numbers in a row, or far apart by a round step, have homes apart.
pub fn scatter(number: u64) -> usize
    ensures { result ≡ scattered number }
{
    (number.wrapping_mul(11400714819323198485) / 4294967296) as usize
}

impl Key for u32 {
    ghost equal = { nat_eq };

    ghost number = { scattered };

    ghost decides = { Prim.search rules };

    fn same(&self, other: &u32) -> bool {
        self == other
    }

    fn spread(&self) -> usize {
        scatter(u64::from(*self))
    }
}
