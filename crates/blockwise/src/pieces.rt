//! Which piece may follow: what is known of those before it, without their bytes.

ghost use Rattle.std.specs.Prelude.{◌≡◌, ◌≢◌, ◌≤◌, ◌<◌, ◌+◌, ◌^◌, ◌↔◌, IsTrue, length, OnOk, IfOk, IfErr, IfSome, IsOk, OnErr, Ok, Err};
ghost use Rattle.coap_codec.specs.Spelling.{content};
ghost use Rattle.blockwise.specs.Reading.{offset_in};
ghost use Rattle.blockwise.specs.Downloads.{no_pieces, differs, is_sized, is_no_larger, first_of, last_szx, judged, with_piece, adds, CanBeAsked, is_only_piece};

use crate::fault::BlockFault;
use crate::reading::{block2_in, is_alone};
use crate::representation::Representation;
use crate::sizes::{LARGEST_SZX, size_of};
use coap_codec::{Block, Message};
use limits::MAX_BODY_LEN;
use std::marker::Model;

/// What was taken of a representation, in order from its first byte, without the bytes.
#[derive(Clone, Copy)]
pub struct Pieces {
    of: Option<Representation>,
    len: usize,
    szx: u8,
}

impl Model for Pieces {
    ghost use Rattle.std.specs.Prelude.{◌≤◌, ◌<◌};
    ghost use Rattle.limits.specs.declared.TheConstants.{MAX_BODY_LEN};
    ghost use Rattle.blockwise.specs.Downloads.{PiecesValue};

    ghost Value = { PiecesValue };

    ghost view = { λ p. record { of = p.of; len = p.len; szx = p.szx } };

    ghost invariant = { λ p. (p.len ≤ MAX_BODY_LEN) × (p.szx < 7) };

    ghost inverse = { λ v. record { of = v.of; len = v.len; szx = v.szx } };

    ghost inverse_ok = { λ p h i. record { of = p.of; len = p.len; szx = p.szx } };
}

/// What comes after a piece that was taken.
#[derive(Clone, Copy, Debug, PartialEq, Eq)]
pub enum Step {
    /// The next one is to be asked for, with this Block2.
    Next(Block),
    /// It was the last.
    Last,
}

fn is_changed(of: Option<Representation>, m: &Message) -> bool
    ensures { result ≡ differs of (content m.now) }
{
    match of {
        Some(first) => !first.is_same(Representation::of(m)),
        None => false,
    }
}

fn is_sized(block: Option<Block>, len: usize) -> bool
    requires { IfSome block (λ b. b.szx < 7) }
    ensures { result ≡ is_sized block len }
{
    match block {
        Some(block) if block.more => len == size_of(block.szx),
        Some(block) => len <= size_of(block.szx),
        None => true,
    }
}

fn is_no_larger(block: Option<Block>, szx: u8) -> bool
    ensures { result ≡ is_no_larger block szx }
{
    match block {
        Some(block) => block.szx <= szx,
        None => true,
    }
}

fn offset_in(block: Option<Block>) -> usize
    requires num { IfSome block (λ b. b.num < 2 ^ 20) }
    requires szx { IfSome block (λ b. b.szx < 7) }
    ensures { result ≡ offset_in block }
{
    match block {
        Some(block) => block.num as usize * size_of(block.szx),
        None => 0,
    }
}

fn first_of(of: Option<Representation>, m: &Message) -> Option<Representation>
    ensures { result ≡ first_of of (content m.now) }
{
    match of {
        Some(first) => Some(first),
        None => Some(Representation::of(m)),
    }
}

fn last_szx(block: Option<Block>, szx: u8) -> u8
    ensures { result ≡ last_szx block szx }
{
    match block {
        Some(block) => block.szx,
        None => szx,
    }
}

impl Pieces {
    /// No pieces: the first one is to be asked for, without Block2.
    pub fn none() -> Pieces
        ensures { result ≡ no_pieces }
    {
        Pieces {
            of: None,
            len: 0,
            szx: LARGEST_SZX,
        }
    }

    /// The same pieces once more, which take no memory.
    pub fn copy(&self) -> Pieces
        ensures { result ≡ self.now }
    {
        *self
    }

    /// How many bytes were taken.
    pub fn len(&self) -> usize
        ensures value { result ≡ self.now.len }
        ensures few { result ≤ MAX_BODY_LEN }
    {
        self.len
    }

    /// Whether no bytes were taken.
    pub fn is_empty(&self) -> bool
        ensures { IsTrue result ↔ (self.now.len ≡ 0) }
    {
        self.len == 0
    }

    /// Whether the message is the next piece, and what comes after it, or the first reason why it
    /// isn't. It takes no memory, and nothing changes.
    #[tactic(auto, using(crate::proofs::WholeBlocks::few_blocks))]
    pub fn judge(&self, m: &Message) -> Result<Step, BlockFault>
        ensures judged { result ≡ judged self.now (content m.now) }
        ensures short { OnOk result (self.now.len + length m.now.payload.items ≤ MAX_BODY_LEN) }
        ensures asked { IfOk result CanBeAsked }
        ensures free { IfErr result (λ fault. fault ≢ BlockFault.Memory) }
    {
        if is_changed(self.of, m) {
            return Err(BlockFault::Changed);
        }
        let block = block2_in(m);
        let len = m.payload.len();
        if !is_sized(block, len) || !is_no_larger(block, self.szx) {
            return Err(BlockFault::Size);
        }
        if offset_in(block) != self.len {
            return Err(BlockFault::Gap);
        }
        if len > MAX_BODY_LEN - self.len {
            return Err(BlockFault::TooLarge);
        }
        match block {
            Some(block) if block.more => Ok(Step::Next(Block {
                num: block.num + 1,
                more: false,
                szx: block.szx,
            })),
            Some(_) | None => Ok(Step::Last),
        }
    }

    /// Takes a piece that was judged to be the next one, and no memory.
    #[tactic(auto, using(crate::proofs::Judging::judged_short))]
    pub fn advance(&mut self, m: &Message)
        requires judged { IsOk (judged self.old (content m.now)) }
        ensures { self.new ≡ with_piece self.old (content m.now) }
    {
        self.of = first_of(self.of, m);
        self.len += m.payload.len();
        self.szx = last_szx(block2_in(m), self.szx);
    }

    /// Judges a message, and takes it if it is the next piece. After the last one the next body is
    /// for other `Pieces`.
    pub fn add(&mut self, m: &Message) -> Result<Step, BlockFault>
        ensures ok { IfOk result (λ step. adds self.old (content m.now) ≡ Ok (self.new, step)) }
        ensures len { OnOk result (self.new.len ≡ self.old.len + length m.now.payload.items) }
        ensures asked { IfOk result CanBeAsked }
        ensures err { IfErr result (λ fault. adds self.old (content m.now) ≡ Err fault) }
        ensures free { IfErr result (λ fault. fault ≢ BlockFault.Memory) }
        ensures same { OnErr result (self.new ≡ self.old) }
    {
        let step = self.judge(m)?;
        self.advance(m);
        Ok(step)
    }
}

/// Whether the message is all of a representation by itself: the first piece, and the last.
pub fn is_only_piece(m: &Message) -> bool
    ensures { result ≡ is_only_piece (content m.now) }
{
    let block = block2_in(m);
    is_alone(block) && is_sized(block, m.payload.len())
}
