//! What is stored and isn't fresh any more: exchanges ask whether it is valid still, and a 2.03
//! renews it (RFC 7252 section 5.9.1.3).

ghost use Rattle.std.specs.Prelude.{◌≡◌, IfOk};
ghost use Rattle.coap_codec.specs.Spelling.{content};
ghost use Rattle.exchange_model.specs.Steps.{as_pieces, reply_at};
ghost use Rattle.history_laws.specs.Progress.{Ends, Renewed};
ghost use Rattle.history_laws.specs.Responses.{confirms};
ghost use Rattle.journal_book.specs.Views.{event_of};
ghost use Rattle.exchange_progress.specs.Coming.{AsksSayable, IsComing};
ghost use Rattle.exchange_core.specs.Renewing.{AreAskable, IsListed, ends_heard, has_valid_code, hears_valid, hears_valid_by, stale_for};
ghost use Rattle.exchange_core.specs.Reading.{IsPairHere};
ghost use Rattle.journal_book.specs.Journals.{IsHere};
ghost use Rattle.exchange_model.specs.Memory.{IsLast};
ghost use Rattle.std.specs.List.{AllByRecursion};

use ask_model::Mapped;
use coap_codec::Message;
use exchange_progress::{Coming, Ended};
use journal_book::{Event, Journal, Numbers};
use reply_reading::{Finding, confirms, renewed};
use resp_cache::{Store, StoredResponse};
use std::alloc::{AllocError, Global};
use std::sync::Arc;
use transformers::Relation;

/// The code of a 2.03, which stands in the second byte of its datagram (RFC 7252 section 3).
const VALID: u8 = 67;

/// Whether a datagram has the code of a 2.03.
fn has_valid_code(datagram: &[u8]) -> bool
    ensures { result ≡ has_valid_code datagram.now }
{
    match datagram.get(1) {
        Some(code) => *code == VALID,
        None => false,
    }
}

/// Whether this heard a 2.03.
fn hears_valid<R: Relation>(event: &Event<R>) -> bool
    ensures { result ≡ hears_valid_by (event_of event.now) }
{
    match event {
        Event::Heard { bytes, .. } => has_valid_code(bytes.as_slice()),
        _ => false,
    }
}

/// Whether the entry with this number has heard a 2.03.
fn is_renewal<R: Relation>(journal: &Journal<R>, number: u32) -> bool
    requires { IsHere journal.now.given journal.now.kept number }
    ensures { result ≡ hears_valid journal.now.entries number }
{
    match journal.get(number as usize) {
        Some(entry) => hears_valid(&entry.event),
        None => false,
    }
}

/// Whether it is as it was heard: no 2.03 has renewed it, which would be the last of its list.
pub fn is_as_heard<R: Relation>(journal: &Journal<R>, stored: &StoredResponse) -> bool
    requires { IsLast (IsHere journal.now.given journal.now.kept) stored.now.list }
    ensures { result ≡ ends_heard journal.now.entries stored.now.list }
{
    match stored.list().last() {
        Some(last) => !is_renewal(journal, *last),
        None => true,
    }
}

/// The same response with the entries of its pieces alone: a 2.03 that renewed it before goes.
fn as_pieces<R: Relation>(
    alloc: Global,
    journal: &Journal<R>,
    stored: &StoredResponse,
) -> Result<StoredResponse, AllocError>
    requires listed { IsListed journal.now.entries stored.now.list }
    requires here { IsLast (IsHere journal.now.given journal.now.kept) stored.now.list }
    ensures { IfOk result (λ s. s ≡ as_pieces journal.now.entries stored.now) }
{
    if is_as_heard(journal, stored) {
        return stored.share();
    }
    match stored.list().split_last() {
        Some((_, pieces)) => {
            let list = Vec::from_slice(alloc, pieces)?;
            stored.carried(alloc, stored.opening(), list)
        }
        None => stored.share(),
    }
}

/// What is stored for the request, where that is a GET, isn't fresh at this moment, and has an
/// ETag: as an exchange keeps it.
pub fn find_stale<R: Relation>(
    alloc: Global,
    journal: &Journal<R>,
    store: &Store,
    moment: u64,
    mapped: &Mapped<R>,
) -> Result<Option<StoredResponse>, AllocError>
    requires askable { AreAskable journal.now.entries store.now.pairs }
    requires here { AllByRecursion (IsPairHere journal.now.given journal.now.kept) store.now.pairs }
    ensures { IfOk result (λ o. o
        ≡ stale_for mapped.now.sense moment journal.now.entries store.now.pairs) }
{
    if store.is_empty() {
        return Ok(None);
    }
    let Some(sought) = mapped.lookup() else {
        return Ok(None);
    };
    let Some(stored) = store.stale(&sought, moment) else {
        return Ok(None);
    };
    if stored.response().etag.is_none() {
        return Ok(None);
    }
    Ok(Some(as_pieces(alloc, journal, stored)?))
}

/// Whether the message says that this is valid still.
pub fn is_confirmed(stored: &StoredResponse, message: &Message) -> bool
    ensures { result ≡ confirms stored.now.response.etag (content message.now) }
{
    confirms(&stored.response().etag, message)
}

/// What an exchange comes to by the message, in the entry with this number, that renews this.
pub fn renewed_by(
    alloc: Global,
    stored: &StoredResponse,
    number: u32,
    message: &Message,
) -> Result<Coming, AllocError>
    ensures coming { IfOk result (λ x. IsComing number x
        (Ends (Renewed stored.now (reply_at number (content message.now))))) }
    ensures sayable { IfOk result AsksSayable }
{
    let response = Arc::new(alloc, renewed(alloc, stored.response(), message)?)?;
    let mut list = Vec::from_slice(alloc, stored.list())?;
    list.push(number)?;
    let numbers = Numbers::from_slice(alloc, &list)?;
    let finding = Finding::whole(response, numbers);
    Ok(Coming::Ends(Ended::Renewed(finding, stored.opening())))
}
