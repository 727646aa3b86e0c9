//! Values of the options Block1 and Block2.

ghost use Rattle.std.specs.Prelude.{◌≡◌, ◌≤◌, ◌<◌, ◌^◌, ◌+◌, length, IfSome, IfNone, IfOk, IsOkUnless};
ghost use Rattle.coap_codec.specs.Values.{uint, IsShortest, IsBlock};
ghost use Rattle.coap_codec.specs.declared.block.Block.{Block};

use crate::fault::CodecFault;
use crate::uint::{uint_of, uint_to};
use std::alloc::Global;

/// Which part of a body a message carries or asks for (RFC 7959, section 2.2).
#[derive(Clone, Copy, Debug, PartialEq, Eq)]
pub struct Block {
    /// The number of the block, counted from 0, below 2^20.
    pub num: u32,
    /// Whether more blocks follow.
    pub more: bool,
    /// The size exponent, at most 6: a block has 2^(szx + 4) bytes.
    pub szx: u8,
}

impl Block {
    /// The size of a block in bytes, 16 to 1,024.
    pub fn size(self) -> usize
        requires { self.szx < 7 }
        ensures { result ≡ 2 ^ (self.szx + 4) }
    {
        1 << (self.szx + 4)
    }
}

/// The block that a value stands for; none where the value has more than three bytes, or the
/// size exponent is 7, which is reserved.
pub fn block_of(value: &[u8]) -> Option<Block>
    ensures found { IfSome result (λ b. (length value.now ≤ 3) × IsBlock b (uint value.now)) }
    ensures num { IfSome result (λ b. b.num < 2 ^ 20) }
    ensures none { IfNone result ((b : Block) → length value.now ≤ 3
        → IsBlock b (uint value.now) → ⊥) }
{
    if value.len() > 3 {
        return None;
    }
    let n = uint_of(value);
    let szx = (n % 8) as u8;
    if szx == 7 {
        return None;
    }
    Some(Block {
        num: n / 16,
        more: n / 8 % 2 == 1,
        szx,
    })
}

/// The shortest value that stands for the block, of at most three bytes.
pub fn block_to(alloc: Global, b: Block) -> Result<Vec<u8>, CodecFault>
    requires num { b.num < 2 ^ 20 }
    requires szx { b.szx < 7 }
    ensures value { IfOk result (λ v. IsBlock b (uint v.items)) }
    ensures shortest { IfOk result (λ v. IsShortest v.items) }
    ensures memory { IsOkUnless result CodecFault.Memory }
{
    let more = if b.more { 8 } else { 0 };
    uint_to(alloc, 16 * b.num + more + u32::from(b.szx))
}
