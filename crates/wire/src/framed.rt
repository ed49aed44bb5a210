//! What can stand in a frame.
ghost use Rattle.std.specs.Prelude.{◌≡◌, ℕ, ◌+◌, ◌≤◌, List, Option, length, ok_or};
ghost use Rattle.faults.specs.declared.layers.FrameFault.TheVariants as fault;

use faults::FrameFault;

/// What can stand in a frame: by its kind a frame announces a length, and its bytes say something.
pub(crate) trait Framed: Sized {
    type Kind: Copy;

    ghost kind_told: { ℕ → Option Self.Kind };

    ghost length_of: { Self.Kind → ℕ };

    ghost said: { List ℕ → Self.Kind → Self };

    /// The kind that a frame's code tells.
    fn kind(code: u8) -> Result<Self::Kind, FrameFault>
        ensures { result ≡ ok_or (kind_told code) fault.Kind };

    /// The length that a frame of the kind announces.
    fn announced(kind: Self::Kind) -> u16
        ensures { result ≡ length_of kind };

    /// What the bytes of a frame of the kind say.
    fn read(b: &[u8], kind: Self::Kind) -> Self
        requires { 2 + length_of kind ≤ length b.now }
        ensures { result ≡ said b.now kind };
}
