//! A body that goes in pieces.

ghost use Rattle.std.specs.Prelude.{◌≡◌, ◌≢◌, ◌≤◌, ◌<◌, ◌*◌, ◌^◌, ◌+◌, ◌↔◌, IfSome, length};
ghost use Rattle.limits.specs.declared.TheConstants.{MAX_BODY_LEN};
ghost use Rattle.coap_codec.specs.Spelling.{content};
ghost use Rattle.blockwise.specs.Uploads.{begun, is_last, next_block, next_payload, next_szx, slice_of, if_final, answer_to, next_of, Continues, Responds};

use crate::reading::{answers_piece, block1_in, is_final};
use crate::sizes::size_of;
use coap_codec::{Block, Message};
use std::marker::Model;

/// The code 2.31 (Continue).
const CONTINUE: u8 = 95;

/// How much of a body was taken, and in what size the rest goes. The body itself is lent at each
/// call, so that none is copied.
#[derive(Clone, Copy)]
pub struct Upload {
    len: usize,
    taken: usize,
    szx: u8,
}

impl Model for Upload {
    ghost use Rattle.blockwise.specs.Uploads.{UploadValue, IsSound};

    ghost Value = { UploadValue };

    ghost view = { λ u. record { len = u.len; taken = u.taken; szx = u.szx } };

    ghost invariant = { λ u. IsSound (record { len = u.len; taken = u.taken; szx = u.szx }) };

    ghost inverse = { λ v. record { len = v.len; taken = v.taken; szx = v.szx } };

    ghost inverse_ok = { λ u h i. record { len = u.len; taken = u.taken; szx = u.szx } };
}

/// What one message carries of a body.
#[derive(Clone, Copy, Debug)]
pub struct Piece<'a> {
    /// The value of its Block1 option; none where the body goes whole, in one message without it.
    pub block: Option<Block>,
    /// The bytes.
    pub payload: &'a [u8],
}

/// What an answer to a piece means.
#[derive(Clone, Copy, Debug, PartialEq, Eq)]
pub enum Answered {
    /// The piece was taken, and the next one is to be sent.
    Next,
    /// It is the whole response.
    Last,
    /// It can't be an answer to this piece.
    Wrong,
}

/// The bytes of a body that the block has: none where it lies past the end.
pub fn slice_of(block: Block, body: &[u8]) -> &[u8]
    requires num { block.num < 2 ^ 20 }
    requires szx { block.szx < 7 }
    ensures slice { result.now ≡ slice_of block body.now }
    ensures short { length result.now ≤ 1024 }
{
    let size = size_of(block.szx);
    let start = (block.num as usize * size).min(body.len());
    let rest = &body[start..];
    &rest[..rest.len().min(size)]
}

/// The answer is the whole response if its code is the final one.
fn if_final(is_final: bool) -> Answered
    ensures { result ≡ if_final is_final }
{
    if is_final {
        Answered::Last
    } else {
        Answered::Wrong
    }
}

/// In what size the rest goes.
fn next_szx(block: Option<Block>, szx: u8) -> u8
    ensures { result ≡ next_szx block szx }
{
    match block {
        Some(block) if block.szx < szx => block.szx,
        _ => szx,
    }
}

impl Upload {
    /// Nothing of the body went yet; its pieces are to go in this size.
    pub fn new(body: &[u8], szx: u8) -> Upload
        requires len { length body.now ≤ MAX_BODY_LEN }
        requires szx { szx < 7 }
        ensures { result ≡ begun (length body.now) szx }
    {
        Upload {
            len: body.len(),
            taken: 0,
            szx,
        }
    }

    /// The same upload once more, which takes no memory.
    pub fn copy(&self) -> Upload
        ensures { result ≡ self.now }
    {
        *self
    }

    /// How long the body is, in bytes.
    pub fn body_len(&self) -> usize
        ensures { result ≡ self.now.len }
    {
        self.len
    }

    /// Whether the next piece is the last.
    pub fn is_last(&self) -> bool
        ensures { result ≡ is_last self.now }
    {
        self.len <= self.taken + size_of(self.szx)
    }

    /// The Block1 of the next piece: none where the body goes whole.
    pub fn next_block(&self) -> Option<Block>
        ensures block { result ≡ next_block self.now }
        // The block begins where the bytes that were taken end, and a Block option can say it.
        ensures offset { IfSome result (λ b. b.num * 2 ^ (b.szx + 4) ≡ self.now.taken) }
        ensures num { IfSome result (λ b. b.num < 2 ^ 20) }
        ensures szx { IfSome result (λ b. b.szx < 7) }
    {
        let last = self.is_last();
        if self.taken == 0 && last {
            return None;
        }
        Some(Block {
            num: (self.taken / size_of(self.szx)) as u32,
            more: !last,
            szx: self.szx,
        })
    }

    /// The next piece of the body. Until an answer to it says `Next`, it stays the same.
    pub fn next_piece<'a>(&self, body: &'a [u8]) -> Piece<'a>
        requires { length body.now ≡ self.now.len }
        ensures block { result.block ≡ next_block self.now }
        ensures payload { result.payload.now ≡ next_payload self.now body.now }
        // The block begins where the bytes that were taken end, and a Block option can say it.
        ensures offset { IfSome result.block (λ b. b.num * 2 ^ (b.szx + 4) ≡ self.now.taken) }
        ensures num { IfSome result.block (λ b. b.num < 2 ^ 20) }
        ensures szx { IfSome result.block (λ b. b.szx < 7) }
    {
        let rest = &body[self.taken..];
        Piece {
            block: self.next_block(),
            payload: &rest[..rest.len().min(size_of(self.szx))],
        }
    }

    /// What the answer to the piece means. Nothing changes.
    #[tactic(auto, using(crate::proofs::Answering::next_is, crate::proofs::Answering::last_is))]
    pub fn judge(&self, m: &Message) -> Answered
        ensures answer { result ≡ answer_to self.now (content m.now) }
        ensures next { (result ≡ Answered.Next) ↔ Continues self.now (content m.now) }
        ensures last { (result ≡ Answered.Last) ↔ Responds self.now (content m.now) }
    {
        let size = size_of(self.szx);
        if !answers_piece((self.taken / size) as u32, m) {
            return Answered::Wrong;
        }
        if self.is_last() {
            return if_final(is_final(m));
        }
        if m.code == CONTINUE {
            return Answered::Next;
        }
        if_final(is_final(m) && m.code / 32 != 2)
    }

    /// The piece counts as taken, by an answer that was judged so.
    pub fn advance(&mut self, m: &Message)
        requires { Continues self.old (content m.now) }
        ensures { self.new ≡ next_of self.old (content m.now) }
    {
        self.taken += size_of(self.szx);
        self.szx = next_szx(block1_in(m), self.szx);
    }

    /// Judges the answer to the piece. `Next` counts the piece as taken; otherwise nothing changes.
    pub fn answered(&mut self, m: &Message) -> Answered
        ensures answer { result ≡ answer_to self.old (content m.now) }
        ensures next { (result ≡ Answered.Next) ↔ Continues self.old (content m.now) }
        ensures last { (result ≡ Answered.Last) ↔ Responds self.old (content m.now) }
        ensures taken { result ≡ Answered.Next → self.new ≡ next_of self.old (content m.now) }
        ensures same { result ≢ Answered.Next → self.new ≡ self.old }
        ensures len { self.new.len ≡ self.old.len }
    {
        let answered = self.judge(m);
        if let Answered::Next = answered {
            self.advance(m);
        }
        answered
    }
}
