//! From an answer to the HTTP response that tells it (RFC 8075, sections 6 and 7).

ghost use Rattle.std.specs.Prelude.{List, ℕ, ◌≡◌, map, IfOk};
ghost use Rattle.std.specs.Option.{option_map};
ghost use Rattle.ask_model.specs.Views.{sense_of};
ghost use Rattle.ask_model.specs.declared.cause.Cause.{Cause as Causes};
ghost use Rattle.journal_book.specs.Entries.{Fault};
ghost use Rattle.reply_reading.specs.Findings.{Fits, Fails};
ghost use Rattle.transformers.specs.Keeps.{AllKeep, pair_of as forms_of};
ghost use Rattle.http_mapping.specs.Means.{IsOwn, last_reply as last_in, told_status, failure_status as failed};
ghost use Rattle.http_mapping.specs.Writes.{Writes, WritesWhole, WritesShown, WritesOwn, typing_of};

use crate::lines::{
    add_body, add_caching, add_cause, add_connection, add_content_length, add_location,
    add_retry_after, add_typing, begun,
};
use crate::showing::{Showing, showing_of};
use ask_model::{Cause, Mapped, Meaning};
use code_map::{Status, status_of};
use http_edge::Memory;
use journal_book::Grounds;
use media_map::Media;
use reply_reading::{Finding, Outcome, Response};
use std::alloc::Global;
use transformers::{Bank, Relation};

/// The bytes of the HTTP response that tells what a request came to. The first reply that this
/// rests on was heard `age` milliseconds ago. A body is transformed if the bank has a transformer
/// from its format to the media type that is wanted; if that fails, the answer is a 502. An answer
/// to a HEAD has no body, and the Content-Length of the answer to a GET.
pub fn render<R: Relation>(
    alloc: Global,
    bank: &Bank<R>,
    mapped: &Mapped<R>,
    finding: &Finding,
    age: u64,
) -> Result<Vec<u8>, Memory>
    requires keep { AllKeep R.holds R.takes bank.now.stored.items }
    ensures { IfOk result (λ bytes. Writes (map forms_of bank.now.stored.items) R.holds R.takes
        mapped.now finding.now age bytes.items) }
{
    match finding.outcome() {
        Outcome::Whole(response) => {
            show_whole(alloc, bank, mapped, response, last_reply(finding), age)
        }
        Outcome::Fault(cause) => tell(alloc, mapped, *cause, number_named(finding)),
    }
}

/// The number of the last reply that a response rests on; 0 where it rests on none.
fn last_reply(finding: &Finding) -> u32
    ensures { result ≡ last_in finding.now.grounds }
{
    match finding.grounds() {
        Grounds::Live(numbers) | Grounds::Kept(numbers) => {
            let numbers = numbers.as_slice();
            numbers.last().copied().unwrap_or(0)
        }
        Grounds::Fault(_, _) => 0,
    }
}

/// The number of the entry that an error of the proxy's own names.
fn number_named(finding: &Finding) -> u32
    ensures { (cause : Causes) → Fits (Fails cause) finding.now.grounds
        → finding.now.grounds ≡ Fault cause result }
{
    match finding.grounds() {
        Grounds::Fault(_, number) => *number,
        Grounds::Live(_) | Grounds::Kept(_) => 0,
    }
}

/// The bytes of an answer of the proxy's own: its cause, and the number of the entry that it names.
fn tell<R: Relation>(
    alloc: Global,
    mapped: &Mapped<R>,
    cause: Cause,
    number: u32,
) -> Result<Vec<u8>, Memory>
    ensures { IfOk result (λ bytes. WritesOwn mapped.now cause number bytes.items) }
{
    let status = status_told(mapped.meaning(), cause);
    let came = mapped.came();
    let mut out = begun(alloc, status, 0)?;
    add_cause(alloc, &mut out, cause, number)?;
    add_connection(&mut out, came)?;
    add_content_length(&mut out, status, 0)?;
    add_body(&mut out, came, &[])?;
    Ok(out)
}

/// The status of an error of the proxy's own.
fn status_told(meaning: &Meaning, cause: Cause) -> Status
    ensures { (body : List ℕ) → IsOwn (told_status (sense_of meaning.now body) cause) result }
{
    match meaning {
        Meaning::Refuse(_, Status::MethodNotAllowed) => Status::BadRequest,
        Meaning::Refuse(_, status) => *status,
        Meaning::Ask { .. } => failure_status(cause),
    }
}

/// The status that tells why a request has no response.
fn failure_status(cause: Cause) -> Status
    ensures { IsOwn (failed cause) result }
{
    match cause {
        Cause::Busy => Status::ServiceUnavailable,
        Cause::Timeout => Status::GatewayTimeout,
        _ => Status::BadGateway,
    }
}

/// The bytes of the answer that shows a response of that age (in milliseconds), with its body as
/// it is or transformed.
fn show_whole<R: Relation>(
    alloc: Global,
    bank: &Bank<R>,
    mapped: &Mapped<R>,
    response: &Response,
    last: u32,
    age: u64,
) -> Result<Vec<u8>, Memory>
    requires keep { AllKeep R.holds R.takes bank.now.stored.items }
    ensures { IfOk result (λ bytes. WritesWhole (map forms_of bank.now.stored.items)
        R.holds R.takes mapped.now response.now last age bytes.items) }
{
    match showing_of(bank, mapped, response)? {
        Showing::Same => { show(alloc, mapped, response, None, response.body.as_slice(), age) }
        Showing::Other(media, body) => {
            show(alloc, mapped, response, Some(media), body.as_slice(), age)
        }
        Showing::Failed => tell(alloc, mapped, Cause::NotUnderstood, last),
    }
}

/// The bytes of the answer that shows a response of that age with this body, which was transformed
/// to the media type, or wasn't.
fn show<R: Relation>(
    alloc: Global,
    mapped: &Mapped<R>,
    response: &Response,
    media: Option<&Media>,
    body: &[u8],
    age: u64,
) -> Result<Vec<u8>, Memory>
    ensures { IfOk result (λ bytes. WritesShown mapped.now response.now
        (typing_of (option_map (λ m. m.now) media.entry) response.now) body.now age bytes.items) }
{
    let status = status_of(response.code, !response.body.as_slice().is_empty());
    let came = mapped.came();
    let mut out = begun(alloc, status, body.len())?;
    add_typing(&mut out, media, response)?;
    add_caching(alloc, &mut out, came, response, age)?;
    add_location(alloc, &mut out, mapped, response)?;
    add_retry_after(&mut out, response)?;
    add_connection(&mut out, came)?;
    add_content_length(&mut out, status, body.len())?;
    add_body(&mut out, came, body)?;
    Ok(out)
}
