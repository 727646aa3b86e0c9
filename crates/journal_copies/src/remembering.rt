//! What of a journal is remembered.

ghost use Rattle.std.specs.Prelude.{ℕ, ◌≡◌, ◌≤◌, [], List, length, option_map, IfOk};
ghost use Rattle.limits.specs.declared.TheConstants.{MAX_ENTRIES};
ghost use Rattle.exchange_model.specs.Rotating.{Seen};
ghost use Rattle.journal_book.specs.Entries.{done_of};
ghost use Rattle.journal_book.specs.Views.{event_of, item_of};
ghost use Rattle.journal_copies.specs.Copying.{Looks, first_in, heard_in, is_recent_by, received, sent_in, timeout_in};
ghost use Rattle.journal_copies.specs.Knowing.{AreBefore, Knows};
ghost use Rattle.journal_copies.specs.Marking.{AreMarks};

use crate::marks::Marks;
use crate::seen::{SeenMessages, is_fresh};
use coap_codec::Bytes;
use journal_book::{Done, Entry, Event, Journal};
use limits::MESSAGE_ID_LIFETIME;
use std::alloc::{AllocError, Global};
use transformers::Relation;
use uri_map::Peer;

/// A datagram that was heard, or sent.
#[derive(Clone, Copy)]
pub struct Received<'a> {
    pub peer: Peer,
    pub bytes: &'a Bytes,
}

/// What was heard, be it in a copy.
pub fn heard_in<R: Relation>(event: &Event<R>) -> Option<Received<'_>>
    ensures { option_map received result ≡ heard_in (done_of (event_of event.now)) }
{
    match event {
        Event::Heard { peer, bytes } => Some(Received { peer: *peer, bytes }),
        Event::Carried { done, .. } => match done {
            Done::Heard { peer, bytes } => Some(Received { peer: *peer, bytes }),
            _ => None,
        },
        _ => None,
    }
}

/// The first timeout of what was sent: a first sending has one (RFC 7252 section 4.2).
fn first_timeout<R: Relation>(event: &Event<R>) -> Option<u32>
    ensures { result ≡ timeout_in (done_of (event_of event.now)) }
{
    match event {
        Event::Sent { timeout, .. } => *timeout,
        Event::Carried { done, .. } => match done {
            Done::Sent { timeout, .. } => *timeout,
            _ => None,
        },
        _ => None,
    }
}

/// What was sent, be it in a copy.
fn sent_in<R: Relation>(event: &Event<R>) -> Option<Received<'_>>
    ensures { option_map received result ≡ sent_in (done_of (event_of event.now)) }
{
    match event {
        Event::Sent { peer, bytes, .. } => Some(Received { peer: *peer, bytes }),
        Event::Carried { done, .. } => match done {
            Done::Sent { peer, bytes, .. } => Some(Received { peer: *peer, bytes }),
            _ => None,
        },
        _ => None,
    }
}

/// What was sent for the first time.
pub fn first_in<R: Relation>(event: &Event<R>) -> Option<Received<'_>>
    ensures { option_map received result ≡ first_in (done_of (event_of event.now)) }
{
    if first_timeout(event).is_none() {
        return None;
    }
    sent_in(event)
}

/// Whether what was done at that moment is a first sending, whose message ID is in use at this one.
fn is_recent_first<R: Relation>(entry: &Entry<R>, moment: u64) -> bool
    ensures { result ≡ is_recent_by moment entry.now.moment (done_of (event_of entry.now.event)) }
{
    if first_timeout(&entry.event).is_none() {
        return false;
    }
    moment < entry.moment || moment - entry.moment < MESSAGE_ID_LIFETIME
}

/// Whether the entry is to be remembered at this moment. Messages that repeat none are noted.
fn is_remembered<R: Relation>(
    seen: &mut SeenMessages,
    entry: &Entry<R>,
    moment: u64,
) -> Result<bool, AllocError>
    ensures { (n : ℕ) (old : List Seen) → AreBefore n old → Knows seen.old.moments old
        → IfOk result (λ kept. Looks moment n (item_of entry.now) old seen.new.moments kept) }
{
    if let Some(received) = heard_in(&entry.event) {
        let more = seen.see(received.peer, received.bytes.as_slice(), entry.moment)?;
        return Ok(more && is_fresh(entry.moment, moment));
    }
    Ok(is_recent_first(entry, moment))
}

/// What of a journal is remembered at this moment.
pub fn remembered<R: Relation>(
    alloc: Global,
    journal: &Journal<R>,
    moment: u64,
) -> Result<Marks, AllocError>
    requires few { length journal.now.entries ≤ MAX_ENTRIES }
    requires whole { journal.now.given ≡ 0 }
    ensures { IfOk result (AreMarks moment journal.now.entries []) }
{
    let mut seen = SeenMessages::new(alloc);
    let mut marks = Marks::new(alloc);
    'each: for number in 0..journal.len() {
        let Some(entry) = journal.get(number) else {
            unreachable!()
        };
        let kept = is_remembered(&mut seen, entry, moment)?;
        marks.push(entry, kept)?;
    }
    Ok(marks)
}
