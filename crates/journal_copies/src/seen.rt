//! Which messages repeat no other.

ghost use Rattle.std.specs.Prelude.{ℕ, ◌≡◌, [], List, not, IfOk, Some};
ghost use Rattle.std.specs.List.{list_any};
ghost use Rattle.coap_codec.specs.Reading.{message_at};
ghost use Rattle.exchange_model.specs.Rotating.{Seen, is_seen};
ghost use Rattle.journal_book.specs.Entries.{Heard};
ghost use Rattle.journal_copies.specs.Knowing.{AreBefore, Knows, Sees, is_fresh, such_id, with_seen};

use crate::source::Source;
use coap_codec::{CodecFault, MsgType, decode};
use limits::EXCHANGE_LIFETIME;
use std::alloc::{AllocError, Global};
use std::collections::HashMap;
use uri_map::Peer;

/// The CONs and NONs that were heard and repeat none (RFC 7252 section 4.5): when those with an
/// endpoint and a message ID in common were heard last.
#[derive(Drop)]
pub struct SeenMessages {
    alloc: Global,
    moments: HashMap<Source, u64>,
}

/// Whether what was heard at a moment is remembered at another one.
pub fn is_fresh(heard: u64, moment: u64) -> bool
    ensures { result ≡ is_fresh moment (Some heard) }
{
    moment < heard || moment - heard < EXCHANGE_LIFETIME
}

/// The ID of the CON or NON that the bytes spell, where they spell one.
fn id_of(alloc: Global, bytes: &[u8]) -> Result<Option<u16>, AllocError>
    ensures { IfOk result (λ mid. mid ≡ such_id (message_at bytes.now)) }
{
    match decode(alloc, bytes) {
        Ok(message) => match message.kind {
            MsgType::Con | MsgType::Non => Ok(Some(message.mid)),
            MsgType::Ack | MsgType::Rst => Ok(None),
        },
        Err(CodecFault::Memory) => Err(AllocError),
        Err(_) => Ok(None),
    }
}

impl SeenMessages {
    /// None was seen.
    pub fn new(alloc: Global) -> SeenMessages
        ensures { Knows result.moments [] }
    {
        SeenMessages {
            alloc,
            moments: HashMap::new(alloc),
        }
    }

    /// Whether a message that is heard at this moment repeats one that was seen.
    fn is_repeat(&self, source: Source, moment: u64) -> bool
        ensures { (old : List Seen) → Knows self.now.moments old
            → result ≡ list_any (is_seen moment source.peer source.mid) old }
    {
        match self.moments.get(&source) {
            Some(heard) => is_fresh(*heard, moment),
            None => false,
        }
    }

    /// Notes a message, where it repeats none, and tells whether that is so.
    fn note(&mut self, source: Source, moment: u64) -> Result<bool, AllocError>
        ensures more { (old : List Seen) → Knows self.old.moments old
            → IfOk result (λ more.
            more ≡ not (list_any (is_seen moment source.peer source.mid) old)) }
        ensures knows { (n : ℕ) (old : List Seen) → Knows self.old.moments old
            → IfOk result (λ more.
            Knows self.new.moments (with_seen more n moment source old)) }
    {
        if self.is_repeat(source, moment) {
            return Ok(false);
        }
        self.moments.insert(source, moment)?;
        Ok(true)
    }

    /// Notes what was heard at this moment, where it is a CON or NON that repeats none, and tells
    /// whether that is so.
    pub fn see(&mut self, peer: Peer, bytes: &[u8], moment: u64) -> Result<bool, AllocError>
        ensures { (n : ℕ) (old : List Seen) → AreBefore n old → Knows self.old.moments old
            → IfOk result (λ more.
            Sees n moment (Some (Heard peer bytes.now)) old self.new.moments more) }
    {
        match id_of(self.alloc, bytes)? {
            Some(mid) => {
                let more = self.note(Source { peer, mid }, moment)?;
                Ok(more)
            }
            None => Ok(false),
        }
    }
}
