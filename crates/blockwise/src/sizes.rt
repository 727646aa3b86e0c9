//! Sizes of blocks and bodies.

ghost use Rattle.std.specs.Prelude.{◌≡◌, ◌≤◌, ◌<◌, ◌^◌, ◌+◌};

/// The size exponent of the largest blocks, of 1,024 bytes (RFC 7959, section 2.2).
pub const LARGEST_SZX: u8 = 6;

/// How many bytes a block of this size exponent has.
#[tactic(auto, using(crate::proofs::WholeBlocks::small_size))]
pub(crate) fn size_of(szx: u8) -> usize
    requires { szx < 7 }
    ensures value { result ≡ 2 ^ (szx + 4) }
    ensures some { 0 < result }
    ensures small { result ≤ 1024 }
{
    1 << (szx + 4)
}
