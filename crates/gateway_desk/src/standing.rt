//! Whether a journal has what a session noted, and in that order.

ghost use Rattle.std.specs.Prelude.{◌≡◌, ◌↔◌, None, IfOk, IfSome, IsTrue, map, slice_get};
ghost use Rattle.std.specs.List.{All};
ghost use Rattle.journal_book.specs.Views.{event_of};
ghost use Rattle.gateway_desk.specs.Lines.{slip_of, line_of};
ghost use Rattle.gateway_desk.specs.Settled.{IsAskOn, AsksAt, AnswersAs, HasReceipt, HasLine};
ghost use Rattle.gateway_desk.specs.Settled.{AreInOrder, IsJustified, Lacks, AreOutOfOrder, IsUnjustified, number_of};
ghost use Rattle.gateway_desk.specs.Running.{next_from};

use crate::in_memory::get;
use crate::pass::{Note, Pass};
use crate::receipt::Receipt;
use crate::same::{is_same_grounds, means_same};
use crate::shown::is_shown;
use journal_book::{Entry, Event, Journal};
use std::alloc::{AllocError, Global};
use std::sync::ledger::Ledger;
use transformers::Relation;

fn is_ask_on<R: Relation>(event: &Event<R>, conn: u32) -> bool
    ensures { IsTrue result ↔ IsAskOn conn (event_of event.now) }
{
    match event {
        Event::Asked(asker, _) => *asker == conn,
        _ => false,
    }
}

/// Whether the entry with this number asks on the connection.
fn asks_at<R: Relation>(journal: &Journal<R>, number: u32, conn: u32) -> bool
    requires whole { journal.now.given ≡ 0 }
    ensures { IsTrue result ↔ AsksAt conn (slice_get journal.now.entries number) }
{
    match get(journal, number as usize) {
        Some(entry) => is_ask_on(&entry.event, conn),
        None => false,
    }
}

/// Whether the first of these entries answers the second, as the receipt says.
fn answers_as<R: Relation>(receipt: &Receipt<R>, answer: &Entry<R>, ask: &Entry<R>) -> bool
    ensures { IsTrue result ↔ AnswersAs (slip_of receipt.now)
        answer.now.moment (event_of answer.now.event) (event_of ask.now.event) }
{
    match (&answer.event, &ask.event) {
        (
            Event::Answered {
                conn,
                ask: number,
                grounds,
            },
            Event::Asked(asker, mapped),
        ) => {
            let own = *asker == *conn && *conn == receipt.answer.conn;
            let grounds = is_same_grounds(grounds, receipt.answer.finding.grounds());
            let sense = means_same(mapped, &receipt.answer.mapped);
            *number == receipt.number
                && own
                && answer.moment == receipt.answer.moment
                && grounds
                && sense
        }
        _ => false,
    }
}

/// Whether the journal has the receipt.
fn has_receipt<R: Relation>(
    alloc: Global,
    journal: &Journal<R>,
    receipt: &Receipt<R>,
) -> Result<bool, AllocError>
    requires whole { journal.now.given ≡ 0 }
    ensures { IfOk result (λ has. IsTrue has
        ↔ HasReceipt journal.now.entries (slip_of receipt.now)) }
{
    let answer = get(journal, receipt.answer.number as usize);
    let ask = get(journal, receipt.number as usize);
    match (answer, ask) {
        (Some(answer), Some(ask)) => {
            let answers = answers_as(receipt, answer, ask);
            let shown = is_shown(alloc, journal, &receipt.answer)?;
            Ok(receipt.answer.ask == receipt.number && answers && shown)
        }
        _ => Ok(false),
    }
}

/// Whether the journal has what is noted on the connection.
fn has_line<R: Relation>(
    alloc: Global,
    journal: &Journal<R>,
    conn: u32,
    note: &Note<R>,
) -> Result<bool, AllocError>
    requires whole { journal.now.given ≡ 0 }
    ensures { IfOk result (λ has. IsTrue has
        ↔ HasLine journal.now.entries conn (line_of note.now)) }
{
    match note {
        Note::Asked(number) => Ok(asks_at(journal, *number, conn)),
        Note::Got(receipt) => {
            let own = asks_at(journal, receipt.number, conn);
            let stands = has_receipt(alloc, journal, receipt)?;
            Ok(own && stands)
        }
        Note::Told(receipt) => has_receipt(alloc, journal, receipt),
    }
}

/// The number of the ask that a note is of.
fn number_of<R: Relation>(note: &Note<R>) -> u32
    ensures { result ≡ number_of (line_of note.now) }
{
    match note {
        Note::Asked(number) => *number,
        Note::Got(receipt) => receipt.number,
        Note::Told(receipt) => receipt.number,
    }
}

/// The number of the ask of the first note that the journal doesn't have.
fn strange<R: Relation>(
    alloc: Global,
    journal: &Journal<R>,
    conn: u32,
    notes: &[Note<R>],
) -> Result<Option<u32>, AllocError>
    requires whole { journal.now.given ≡ 0 }
    ensures none { IfOk result (λ o. o ≡ None
        → All (HasLine journal.now.entries conn) (map line_of notes.now)) }
    ensures some { IfOk result (λ o. IfSome o
        (Lacks journal.now.entries conn (map line_of notes.now))) }
{
    'each: for note in notes {
        if !has_line(alloc, journal, conn, note)? {
            return Ok(Some(number_of(note)));
        }
    }
    Ok(None)
}

/// From which number on asks come after a note, as before it they come from this one on. None where
/// the note is an ask that comes earlier.
fn next_from<R: Relation>(note: &Note<R>, from: u64) -> Option<u64>
    ensures { result ≡ next_from (line_of note.now) from }
{
    match note {
        Note::Asked(number) => {
            if from <= u64::from(*number) {
                Some(from)
            } else {
                None
            }
        }
        Note::Got(receipt) | Note::Told(receipt) => {
            Some(from.max(u64::from(receipt.answer.number) + 1))
        }
    }
}

/// The first ask that doesn't come after an answer which stands before it.
fn early<R: Relation>(notes: &[Note<R>]) -> Option<u32>
    ensures none { result ≡ None → AreInOrder (map line_of notes.now) }
    ensures some { IfSome result (AreOutOfOrder (map line_of notes.now)) }
{
    let mut from = 0u64;
    'each: for note in notes {
        match next_from(note, from) {
            Some(next) => from = next,
            None => return Some(number_of(note)),
        }
    }
    None
}

/// The number of an ask by which the journal doesn't justify what the pass notes.
pub fn stranger<R: Relation, L: Ledger>(
    alloc: Global,
    journal: &Journal<R>,
    pass: &Pass<R, L>,
) -> Result<Option<u32>, AllocError>
    requires whole { journal.now.given ≡ 0 }
    ensures none { IfOk result (λ o. o ≡ None → IsJustified journal.now.entries pass.now) }
    ensures some { IfOk result (λ o. IfSome o
        (IsUnjustified journal.now.entries pass.now)) }
{
    match strange(alloc, journal, pass.conn(), pass.notes())? {
        Some(number) => Ok(Some(number)),
        None => Ok(early(pass.notes())),
    }
}
