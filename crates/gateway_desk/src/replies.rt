//! Whether replies are a response.

ghost use Rattle.std.specs.Prelude.{◌≡◌, ◌↔◌, ◌≤◌, Some, length, map, is_some, IfOk, IsTrue};
ghost use Rattle.limits.specs.declared.TheConstants.{MAX_BODY_LEN};
ghost use Rattle.std.specs.List.{list_all};
ghost use Rattle.coap_codec.specs.Spelling.{content};
ghost use Rattle.blockwise.specs.Downloads.{given, nothing};
ghost use Rattle.blockwise.specs.Uploads.{begun};
ghost use Rattle.history_laws.specs.Responses.{is_tellable, whole_given};
ghost use Rattle.reply_reading.specs.Findings.{Tells};
ghost use Rattle.exchange_core.specs.Answering.{IsRenewal};
ghost use Rattle.history_laws.specs.Responses.{first_some};
ghost use Rattle.gateway_desk.specs.Shown.{IsRenewedBy, IsResponseBy, TellsRenewed, ends_valid, fetched_in};

use crate::same::{is_same_in, is_same_response};
use blockwise::{Answered, LARGEST_SZX, Pieces, Step, Upload};
use coap_codec::{Message, is_forwardable};
use journal_book::Numbers;
use reply_reading::{Finding, Outcome, Response, answer_of, fetched_of, is_tellable};
use std::alloc::{AllocError, Global};

/// The code of a GET (RFC 7252 section 12.1.1).
const GET: u8 = 1;

/// The code of a 2.03 (RFC 7252 section 12.1.2).
const VALID: u8 = 67;

/// Whether a reader may be told what each of the messages says.
fn are_tellable(messages: &[Message]) -> bool
    ensures { result ≡ list_all is_tellable (map content messages.now) }
{
    'each: for m in messages {
        if !is_tellable(m) {
            return false;
        }
    }
    true
}

/// Whether they are the pieces of one representation, each after the other up to the last (RFC 7959
/// section 2.4).
fn are_pieces(messages: &[Message]) -> bool
    ensures { result ≡ is_some (given nothing (map content messages.now)) }
{
    let mut pieces = Pieces::none();
    'each: for i in 0..messages.len() {
        let m = &messages[i];
        match pieces.judge(m) {
            Ok(Step::Next(_)) => pieces.advance(m),
            Ok(Step::Last) => return i + 1 == messages.len(),
            Err(_) => return false,
        }
    }
    false
}

/// Whether the finding tells the response.
fn is_told(finding: &Finding, response: &Response) -> bool
    ensures { IsTrue result ↔ (finding.now.told ≡ Tells response.now) }
{
    match finding.outcome() {
        Outcome::Whole(said) => is_same_response(said, response),
        Outcome::Fault(_) => false,
    }
}

/// Whether the messages, as all replies to a GET, are the response.
fn is_fetched(
    alloc: Global,
    messages: Vec<Message>,
    response: &Response,
) -> Result<bool, AllocError>
    ensures { IfOk result (λ is. IsTrue is
        ↔ (fetched_in (map content messages.items) ≡ Some response.now)) }
{
    if !are_tellable(&messages) {
        return Ok(false);
    }
    if !are_pieces(&messages) {
        return Ok(false);
    }
    let mut earlier = messages;
    let Some(last) = earlier.pop() else {
        return Ok(false);
    };
    let numbers = Numbers::from_slice(alloc, &[])?;
    let finding = fetched_of(alloc, numbers, earlier, last)?;
    Ok(is_told(&finding, response))
}

/// Whether by each of the messages a piece of the body is taken, and the last is the answer to the
/// request (RFC 7959 section 2.3).
fn are_answers(body: &[u8], messages: &[Message]) -> bool
    requires { length body.now ≤ MAX_BODY_LEN }
    ensures { result
        ≡ is_some (whole_given (begun (length body.now) 6) (map content messages.now)) }
{
    let mut upload = Upload::new(body, LARGEST_SZX);
    'each: for i in 0..messages.len() {
        let m = &messages[i];
        if !is_forwardable(&m.options) {
            return false;
        }
        match upload.judge(m) {
            Answered::Next => upload.advance(m),
            Answered::Last => return i + 1 == messages.len(),
            Answered::Wrong => return false,
        }
    }
    false
}

/// Whether the messages, as all replies to another request with this body, are the response.
fn is_answered(
    alloc: Global,
    body: &[u8],
    messages: Vec<Message>,
    response: &Response,
) -> Result<bool, AllocError>
    requires { length body.now ≤ MAX_BODY_LEN }
    ensures { IfOk result (λ is. IsTrue is
        ↔ (whole_given (begun (length body.now) 6) (map content messages.items)
        ≡ Some response.now)) }
{
    if !are_answers(body, &messages) {
        return Ok(false);
    }
    let mut earlier = messages;
    let Some(last) = earlier.pop() else {
        return Ok(false);
    };
    let numbers = Numbers::from_slice(alloc, &[])?;
    let finding = answer_of(alloc, numbers, last)?;
    Ok(is_told(&finding, response))
}

/// Whether the last of the messages is a 2.03.
pub fn ends_valid(messages: &[Message]) -> bool
    ensures { result ≡ ends_valid (map content messages.now) }
{
    match messages.last() {
        Some(last) => last.code == VALID,
        None => false,
    }
}

/// Its format, or else the other one.
fn first_some(format: Option<u16>, other: Option<u16>) -> Option<u16>
    ensures { result ≡ first_some format other }
{
    match format {
        Some(format) => Some(format),
        None => other,
    }
}

/// Whether the one response is the other as the 2.03 renews it that says this.
fn is_renewed_by(said: &Response, by: &Response, response: &Response) -> bool
    ensures { IsTrue result ↔ IsRenewedBy said.now by.now response.now }
{
    let format = first_some(by.format, response.format);
    is_same_in(said, format, by.max_age, response)
}

/// Whether the findings tell those.
fn tells_renewed(said: &Finding, by: &Finding, response: &Response) -> bool
    ensures { IsTrue result ↔ TellsRenewed said.now.told by.now.told response.now }
{
    match (said.outcome(), by.outcome()) {
        (Outcome::Whole(said), Outcome::Whole(by)) => is_renewed_by(said, by, response),
        _ => false,
    }
}

/// Whether the messages, as all replies to a GET, are the pieces of a response that the 2.03 behind
/// them renewed, and which is the response then (RFC 7252 section 5.9.1.3).
fn is_renewal(
    alloc: Global,
    messages: Vec<Message>,
    response: &Response,
) -> Result<bool, AllocError>
    ensures { IfOk result (λ is. IsTrue is ↔ IsRenewal (map content messages.items) response.now) }
{
    if !ends_valid(&messages) {
        return Ok(false);
    }
    let mut pieces = messages;
    let Some(valid) = pieces.pop() else {
        return Ok(false);
    };
    if !are_tellable(&pieces) {
        return Ok(false);
    }
    if !are_pieces(&pieces) {
        return Ok(false);
    }
    let mut earlier = pieces;
    let Some(last) = earlier.pop() else {
        return Ok(false);
    };
    let none = Numbers::from_slice(alloc, &[])?;
    let said = fetched_of(alloc, none, earlier, last)?;
    let no_more = Numbers::from_slice(alloc, &[])?;
    let by = answer_of(alloc, no_more, valid)?;
    Ok(tells_renewed(&said, &by, response))
}

/// Whether the messages, as all replies to a request with this method and body, are the response.
pub fn are_response(
    alloc: Global,
    method: u8,
    body: &[u8],
    messages: Vec<Message>,
    response: &Response,
) -> Result<bool, AllocError>
    requires { length body.now ≤ MAX_BODY_LEN }
    ensures { IfOk result (λ is. IsTrue is
        ↔ IsResponseBy method (length body.now) (map content messages.items) response.now) }
{
    if method != GET {
        return is_answered(alloc, body, messages, response);
    }
    if ends_valid(&messages) {
        return is_renewal(alloc, messages, response);
    }
    is_fetched(alloc, messages, response)
}
