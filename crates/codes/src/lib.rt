//! The codes by which frames tell the words of an order.
#![tactic(auto)]

mod flags;
mod instructions;
mod kinds;
mod marks;
mod sides;
mod terms;

ghost use Rattle.std.specs.Prelude.{◌≡◌, ℕ, Some, Option};

/// What has a code: each value has one of its own, and no other number means anything.
// `From` and `TryFrom` know no law between them, and would be foreign here to the types and to the numbers alike.
pub trait Coded: Sized {
    ghost number: { Self → ℕ };

    ghost meaning: { ℕ → Option Self };

    fn code(self) -> u8
        ensures { result ≡ number self };

    fn from_code(code: u8) -> Option<Self>
        ensures { result ≡ meaning code };

    ghost kept: { (x : Self) → meaning (number x) ≡ Some x };

    ghost told: { (n : ℕ) (x : Self) → meaning n ≡ Some x → n ≡ number x };
}
