//! Which piece of a state is wanted.

ghost use Rattle.std.specs.Prelude.{◌≡◌, ◌<◌, ◌≤◌, ◌+◌, ◌*◌, ◌^◌, length};
ghost use Rattle.coap_codec.specs.Spelling.{entries};
ghost use Rattle.coap_codec.specs.Values.{values};
ghost use Rattle.blockwise.specs.Reading.{size_of};
ghost use Rattle.demo_origin.specs.Blocks.{is_block, named_value, named_by, part_at, part_of, piece_of, BeginsIn, IsIn, IsSized};

use coap_codec::{Block, Message, block_of, first_of, uint_of};
use limits::MAX_BODY_LEN;

/// The size exponent of a device's blocks (RFC 7959, section 2.2).
#[derive(Clone, Copy)]
pub struct BlockSize {
    pub szx: u8,
    pub ghost small: { szx < 7 },
}

/// What is wanted of a state.
#[derive(Clone, Copy)]
pub enum Part {
    /// All of it.
    Whole,
    /// This piece.
    Piece(Block),
    /// A piece that it doesn't have.
    Past,
}

/// How many bytes a block of this size exponent has.
#[tactic(auto, using(blockwise::proofs::WholeBlocks::small_size))]
pub(crate) fn size_of(szx: u8) -> usize
    requires { szx < 7 }
    ensures value { result ≡ size_of szx }
    ensures some { 0 < result }
    ensures small { result ≤ 1024 }
{
    1 << (szx + 4)
}

/// Whether it is the value of a Block option (RFC 7959, section 2.2).
pub(crate) fn is_block(value: &[u8]) -> bool
    ensures { result ≡ is_block value.now }
{
    value.len() <= 3 && uint_of(value) % 8 < 7
}

fn named_value(value: &[u8]) -> Option<Block>
    ensures is { result ≡ named_value value.now }
    ensures sized { IsSized result }
{
    block_of(value)
}

/// The block that the message's first option of that number names.
pub(crate) fn named_in(m: &Message, number: u16) -> Option<Block>
    ensures is { result ≡ named_by (values number (entries m.now.options.items)) }
    ensures sized { IsSized result }
{
    match first_of(m, number) {
        Some(value) => named_value(value),
        None => None,
    }
}

/// The piece of a state that begins at that byte.
#[tactic(auto, using(crate::proofs::Pieces::below_itself, crate::proofs::Pieces::begins_below))]
fn part_at(szx: u8, offset: usize, len: usize) -> Part
    requires szx { szx < 7 }
    requires offset { offset < 2 ^ 32 }
    ensures is { result ≡ part_at szx offset len }
    ensures inside { IsIn len result }
{
    let size = size_of(szx);
    if offset == 0 && len <= size {
        return Part::Whole;
    }
    if offset < len.min(MAX_BODY_LEN) {
        let num = offset / size;
        return Part::Piece(Block {
            num: num as u32,
            more: offset + size < len,
            szx,
        });
    }
    Part::Past
}

/// The piece of a state that a Block2 asks for, in the smaller of its size and the device's.
pub(crate) fn part_of(named: Option<Block>, own: BlockSize, len: usize) -> Part
    requires { IsSized named }
    ensures is { result ≡ part_of named own.szx len }
    ensures inside { IsIn len result }
{
    match named {
        None => part_at(own.szx, 0, len),
        Some(b) => part_at(b.szx.min(own.szx), offset_of(b), len),
    }
}

/// The first byte of the block.
#[tactic(auto, using(crate::proofs::Pieces::offset_below))]
pub(crate) fn offset_of(b: Block) -> usize
    requires szx { b.szx < 7 }
    requires num { b.num < 2 ^ 20 }
    ensures value { result ≡ b.num * size_of b.szx }
    ensures small { result < 2 ^ 32 }
{
    b.num as usize * size_of(b.szx)
}

/// The bytes of that piece.
pub(crate) fn piece_of(b: Block, state: &[u8]) -> &[u8]
    requires { BeginsIn (length state.now) b }
    ensures { result.now ≡ piece_of b state.now }
{
    let size = size_of(b.szx);
    let rest = &state[offset_of(b)..];
    &rest[..rest.len().min(size)]
}
