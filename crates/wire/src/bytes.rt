//! Big-endian numbers in bytes.
ghost use Rattle.std.specs.Prelude.{◌≡◌, ◌+◌, ◌≤◌, length};
ghost use Rattle.wire.specs.Layouts.{be16, be32, Layouts};

// The library has no trait with `from_be_bytes`, and a generic function over one of our own would be no shorter than these two.
pub(crate) fn half(b: &[u8], at: usize) -> u16
    requires { at + 2 ≤ length b.now }
    ensures { result ≡ be16 b.now at }
{
    u16::from_be_bytes([b[at], b[at + 1]])
}

pub(crate) fn word(b: &[u8], at: usize) -> u32
    requires { at + 4 ≤ length b.now }
    ensures { result ≡ be32 b.now at }
{
    u32::from_be_bytes([b[at], b[at + 1], b[at + 2], b[at + 3]])
}

/// What holds of every layout of numbers in bytes.
pub fn layouts_hold()
    ensures { Layouts }
{}
