//! Whether a journal shows what asks came to.

ghost use Rattle.std.specs.Prelude.{◌≡◌, ◌↔◌, ◌≤◌, false, length, map, IfOk, IsTrue, MatchOption, None, Some};
ghost use Rattle.limits.specs.declared.TheConstants.{MAX_BODY_LEN};
ghost use Rattle.coap_codec.specs.Spelling.{Spells, content};
ghost use Rattle.exchange_core.specs.Answering.{AreHeard, given_of};
ghost use Rattle.gateway_desk.specs.Settled.{IsShown};
ghost use Rattle.journal_book.specs.Entries.{done_of};
ghost use Rattle.journal_book.specs.Views.{event_of};
ghost use Rattle.gateway_desk.specs.Shown.{AreUnheard, CountsAt, bytes_heard, HearsAt, HearsNone, IsHeardAt, IsMadeAt, IsUnheard, RestsOn, SpellsNone};

use crate::in_memory::get;
use crate::replies::{are_response, ends_valid};
use ask_model::Meaning;
use coap_codec::{Bytes, CodecFault, Message, decode};
use exchange_core::Answer;
use journal_book::{Done, Event, Grounds, Journal};
use reply_reading::{Outcome, Response};
use std::alloc::{AllocError, Global};
use transformers::Relation;

/// The message that the bytes spell.
fn spelled(alloc: Global, bytes: &[u8]) -> Result<Option<Message>, AllocError>
    ensures { IfOk result (λ o. MatchOption o (SpellsNone bytes.now)
        (λ m. Spells (content m) bytes.now)) }
{
    match decode(alloc, bytes) {
        Ok(message) => Ok(Some(message)),
        Err(fault) => {
            if fault == CodecFault::Memory {
                Err(AllocError)
            } else {
                Ok(None)
            }
        }
    }
}

/// The bytes that were heard, be it in a copy.
fn heard_in<R: Relation>(event: &Event<R>) -> Option<&Bytes>
    ensures { MatchOption result (bytes_heard (done_of (event_of event.now)) ≡ None)
        (λ bytes. bytes_heard (done_of (event_of event.now)) ≡ Some bytes.now) }
{
    match event {
        Event::Heard { bytes, .. } => Some(bytes),
        Event::Carried { done, .. } => match done {
            Done::Heard { bytes, .. } => Some(bytes),
            _ => None,
        },
        _ => None,
    }
}

/// The bytes that were heard in the entry with this number.
fn heard_at<R: Relation>(journal: &Journal<R>, number: u32) -> Option<&Bytes>
    requires whole { journal.now.given ≡ 0 }
    ensures { MatchOption result (HearsNone journal.now.entries number)
        (λ bytes. HearsAt journal.now.entries number bytes.now) }
{
    match get(journal, number as usize) {
        Some(entry) => heard_in(&entry.event),
        None => None,
    }
}

/// The message that was heard in the entry with this number.
fn message_at<R: Relation>(
    alloc: Global,
    journal: &Journal<R>,
    number: u32,
) -> Result<Option<Message>, AllocError>
    requires whole { journal.now.given ≡ 0 }
    ensures { IfOk result (λ o. MatchOption o (IsUnheard journal.now.entries number)
        (λ m. IsHeardAt journal.now.entries number (content m))) }
{
    match heard_at(journal, number) {
        Some(bytes) => spelled(alloc, bytes.as_slice()),
        None => Ok(None),
    }
}

/// The messages that were heard in the entries with these numbers, if one was in each.
fn messages_at<R: Relation>(
    alloc: Global,
    journal: &Journal<R>,
    numbers: &[u32],
) -> Result<Option<Vec<Message>>, AllocError>
    requires whole { journal.now.given ≡ 0 }
    ensures { IfOk result (λ o. MatchOption o (AreUnheard journal.now.entries numbers.now)
        (λ ms. AreHeard journal.now.entries numbers.now (map content ms.items))) }
{
    let mut messages = Vec::new(alloc);
    'each: for number in numbers {
        match message_at(alloc, journal, *number)? {
            Some(message) => messages.push(message)?,
            None => return Ok(None),
        }
    }
    Ok(Some(messages))
}

/// Whether the entry with this number, if there is one, was made at this moment.
fn is_made_at<R: Relation>(journal: &Journal<R>, number: Option<&u32>, moment: u64) -> bool
    requires whole { journal.now.given ≡ 0 }
    ensures { MatchOption number.entry (result ≡ false)
        (λ n. IsTrue result ↔ IsMadeAt journal.now.entries n.now moment) }
{
    let Some(number) = number else {
        return false;
    };
    match get(journal, *number as usize) {
        Some(entry) => entry.moment == moment,
        None => false,
    }
}

/// Whether what these entries heard counts from this moment: that of the first, or of the last
/// where that is a 2.03.
fn counts_from<R: Relation>(
    journal: &Journal<R>,
    numbers: &[u32],
    messages: &[Message],
    moment: u64,
) -> bool
    requires whole { journal.now.given ≡ 0 }
    requires heard { AreHeard journal.now.entries numbers.now (map content messages.now) }
    ensures { IsTrue result ↔ CountsAt journal.now.entries moment numbers.now }
{
    if ends_valid(messages) {
        return is_made_at(journal, numbers.last(), moment);
    }
    is_made_at(journal, numbers.first(), moment)
}

/// Whether these entries bear the response: they heard all replies to a request with this method
/// and body, count from this moment, and those are it.
fn rests_on<R: Relation>(
    alloc: Global,
    journal: &Journal<R>,
    numbers: &[u32],
    moment: u64,
    method: u8,
    body: &[u8],
    response: &Response,
) -> Result<bool, AllocError>
    requires whole { journal.now.given ≡ 0 }
    requires short { length body.now ≤ MAX_BODY_LEN }
    ensures { IfOk result (λ is. IsTrue is
        ↔ RestsOn journal.now.entries numbers.now moment method (length body.now) response.now) }
{
    let Some(messages) = messages_at(alloc, journal, numbers)? else {
        return Ok(false);
    };
    if !counts_from(journal, numbers, &messages, moment) {
        return Ok(false);
    }
    are_response(alloc, method, body, messages, response)
}

/// Whether the journal shows what the ask came to.
pub fn is_shown<R: Relation>(
    alloc: Global,
    journal: &Journal<R>,
    answer: &Answer<R>,
) -> Result<bool, AllocError>
    requires whole { journal.now.given ≡ 0 }
    ensures { IfOk result (λ is. IsTrue is ↔ IsShown journal.now.entries (given_of answer.now)) }
{
    let outcome = answer.finding.outcome();
    let grounds = answer.finding.grounds();
    match (outcome, grounds, answer.mapped.meaning()) {
        (Outcome::Whole(response), Grounds::Live(numbers), Meaning::Ask { method, .. }) => {
            let heard = answer.heard;
            rests_on(
                alloc,
                journal,
                numbers.as_slice(),
                heard,
                method.code(),
                answer.mapped.body(),
                response,
            )
        }
        (Outcome::Whole(response), Grounds::Kept(numbers), Meaning::Ask { method, .. }) => {
            let heard = answer.heard;
            rests_on(
                alloc,
                journal,
                numbers.as_slice(),
                heard,
                method.code(),
                answer.mapped.body(),
                response,
            )
        }
        (Outcome::Fault(_), Grounds::Fault(_, _), _) => Ok(answer.heard == answer.moment),
        _ => Ok(false),
    }
}
