//! A body that comes in pieces.

ghost use Rattle.std.specs.Prelude.{◌≡◌, ◌≢◌, ◌≤◌, ◌+◌, ◌++◌, ◌⊎◌, ◌↔◌, [], length, IsTrue, OnOk, IfOk, IfErr, Ok, OnErr, IsOkUnless, true, false, vec_len, vec_capacity};
ghost use Rattle.coap_codec.specs.Spelling.{content};
ghost use Rattle.blockwise.specs.Downloads.{nothing, pieces_of, judged, takes, told, has_room, IsRefused, CanBeAsked, NextCanBeAsked};

use crate::fault::BlockFault;
use crate::pieces::{Pieces, Step};
use coap_codec::{Block, Message};
use std::alloc::{AllocError, Global};
use std::marker::Model;

/// A body of which the first pieces came.
#[derive(Drop)]
pub struct Download {
    pieces: Pieces,
    bytes: Vec<u8>,
}

impl Model for Download {
    ghost use Rattle.std.specs.Prelude.{◌≡◌, ◌-◌, length, vec_capacity, vec_len};
    ghost use Rattle.blockwise.specs.Downloads.{HeldDownload};

    ghost Value = { HeldDownload };

    ghost view = { λ d. record {
      download = record { of = d.pieces.of; bytes = d.bytes.items; szx = d.pieces.szx };
      room = vec_capacity d.bytes - vec_len d.bytes;
    } };

    ghost invariant = { λ d. d.pieces.len ≡ length d.bytes.items };
}

/// How far a download came by a piece.
#[derive(Drop)]
pub enum Progress {
    /// The next one is to be asked for, with this Block2.
    Next(Block),
    /// It was the last, and this is the whole body.
    Whole(Vec<u8>),
}

/// Puts the bytes after those that there are, for which there is room. The first ones aren't
/// copied.
fn join(bytes: &mut Vec<u8>, more: Vec<u8>)
    requires { (bytes.old.items ≡ [])
        ⊎ (vec_len bytes.old + vec_len more ≤ vec_capacity bytes.old) }
    ensures { bytes.new.items ≡ bytes.old.items ++ more.items }
{
    if bytes.is_empty() {
        *bytes = more;
    } else {
        extend(bytes, &more);
    }
}

fn extend(bytes: &mut Vec<u8>, more: &[u8])
    requires { vec_len bytes.old + length more.now ≤ vec_capacity bytes.old }
    ensures { bytes.new.items ≡ bytes.old.items ++ more.now }
{
    match bytes.extend_from_slice(more) {
        Ok(()) | Err(_) => {}
    }
}

impl Download {
    /// A download of which nothing came yet: its first message asks without Block2.
    pub fn first(alloc: Global) -> Download
        ensures { result.download ≡ nothing }
    {
        Download {
            pieces: Pieces::none(),
            bytes: Vec::new(alloc),
        }
    }

    /// How many bytes came.
    pub fn len(&self) -> usize
        ensures { result ≡ length self.now.download.bytes }
    {
        self.bytes.len()
    }

    /// Whether no bytes came.
    pub fn is_empty(&self) -> bool
        ensures { IsTrue result ↔ (self.now.download.bytes ≡ []) }
    {
        self.bytes.is_empty()
    }

    /// Whether the message is the next piece, and what comes after it, or the first reason why it
    /// isn't. It takes no memory, and nothing changes.
    pub fn judge(&self, m: &Message) -> Result<Step, BlockFault>
        ensures judged { result ≡ judged (pieces_of self.now.download) (content m.now) }
        ensures asked { IfOk result CanBeAsked }
        ensures free { IfErr result (λ fault. fault ≢ BlockFault.Memory) }
    {
        self.pieces.judge(m)
    }

    /// Makes room for a piece of so many bytes, so that adding it takes no memory. Those of the
    /// first one are moved in, and want none.
    pub fn make_room(&mut self, len: usize) -> Result<(), AllocError>
        ensures download { self.new.download ≡ self.old.download }
        ensures room { OnOk result (has_room len self.new ≡ true) }
        ensures unchanged { OnErr result (self.new ≡ self.old) }
        ensures wanted { OnErr result (has_room len self.old ≡ false) }
    {
        if !self.bytes.is_empty() {
            self.bytes.reserve(len)?;
        }
        Ok(())
    }

    /// Takes a piece that was judged to be the next one, which this comes after, and keeps its
    /// bytes. After the last one the download is as a new one.
    pub fn add_in_room(&mut self, m: Message, step: Step) -> Progress
        requires judged { judged (pieces_of self.old.download) (content m) ≡ Ok step }
        requires room { has_room (length m.payload.items) self.old ≡ true }
        ensures takes { takes self.old.download (content m) ≡ Ok (self.new.download, told result) }
        ensures asked { CanBeAsked step → NextCanBeAsked result }
    {
        self.pieces.advance(&m);
        join(&mut self.bytes, m.payload);
        match step {
            Step::Next(block) => Progress::Next(block),
            Step::Last => {
                let alloc = *self.bytes.allocator();
                self.pieces = Pieces::none();
                Progress::Whole(std::mem::replace(&mut self.bytes, Vec::new(alloc)))
            }
        }
    }

    /// Judges a message, and takes it where it is the next piece. Memory may be wanted for a later
    /// one than the first.
    pub fn add(&mut self, m: Message) -> Result<Progress, BlockFault>
        ensures ok { IfOk result
            (λ p. takes self.old.download (content m) ≡ Ok (self.new.download, told p)) }
        ensures asked { IfOk result NextCanBeAsked }
        ensures err { IfErr result (λ fault.
            IsRefused fault (takes self.old.download (content m))) }
        ensures first { self.old.download.bytes ≡ []
            → IfErr result (λ fault. fault ≢ BlockFault.Memory) }
        ensures same { OnErr result (self.new ≡ self.old) }
    {
        let step = self.judge(&m)?;
        self.make_room(m.payload.len())?;
        Ok(self.add_in_room(m, step))
    }

    /// The same pieces once more, with a copy of their bytes.
    pub fn copy(&self) -> Result<Download, BlockFault>
        ensures ok { IfOk result (λ d. d.download ≡ self.now.download) }
        ensures memory { IsOkUnless result BlockFault.Memory }
    {
        Ok(Download {
            pieces: self.pieces,
            bytes: Vec::from_slice(*self.bytes.allocator(), &self.bytes)?,
        })
    }
}
