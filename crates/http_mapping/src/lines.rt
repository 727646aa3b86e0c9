//! The lines of an answer's head, each written where its rule says so.

ghost use Rattle.std.specs.Prelude.{◌≡◌, ◌++◌, codes, decimal, if◌then◌else◌, [], IfOk, OnOk};
ghost use Rattle.std.specs.Option.{option_map};
ghost use Rattle.media_map.specs.Formats.{media_text};
ghost use Rattle.ask_model.specs.Causes.{cause_text};
ghost use Rattle.ask_model.specs.Views.{came_of};
ghost use Rattle.http_mapping.specs.Means.{only, content_type, cache_control, entity_tag, caching, value_if, retry_after, connection, content_length, is_head as head};
ghost use Rattle.http_mapping.specs.Located.{located};
ghost use Rattle.http_mapping.specs.Writes.{first_line, Adds, typing_of};

use crate::fields::{
    CONTENT, NO_CONTENT, UNAVAILABLE, closes, format_shown, is_head, is_read, seconds_left,
};
use crate::location::location_of;
use ask_model::{Cause, Mapped};
use code_map::Status;
use http_edge::{Incoming, Memory};
use itoa::Buffer;
use media_map::{Media, media_named};
use reply_reading::Response;
use std::alloc::Global;
use transformers::Relation;

/// The room that the head of an answer is given at first.
const HEAD: usize = 256;

/// An answer that has its status line, with room for its head and as many bytes more. Its last line
/// isn't ended yet: what is added begins with that.
pub fn begun(alloc: Global, status: Status, len: usize) -> Result<Vec<u8>, Memory>
    ensures { IfOk result (λ out. out.items ++ codes "\r\n" ≡ first_line status) }
{
    let mut out = Vec::with_capacity(alloc, len.saturating_add(HEAD))?;
    out.extend_from_slice(status_line(status).as_bytes())?;
    Ok(out)
}

/// The status line, not ended.
fn status_line(status: Status) -> &'static str
    ensures { result.now ++ codes "\r\n" ≡ first_line status }
{
    match status {
        Status::Okay => "HTTP/1.1 200 OK",
        Status::Created => "HTTP/1.1 201 Created",
        Status::NoContent => "HTTP/1.1 204 No Content",
        Status::BadRequest => "HTTP/1.1 400 Bad Request",
        Status::Forbidden => "HTTP/1.1 403 Forbidden",
        Status::NotFound => "HTTP/1.1 404 Not Found",
        Status::MethodNotAllowed => "HTTP/1.1 400 CoAP server returned 4.05",
        Status::NotAcceptable => "HTTP/1.1 406 Not Acceptable",
        Status::PreconditionFailed => "HTTP/1.1 412 Precondition Failed",
        Status::ContentTooLarge => "HTTP/1.1 413 Content Too Large",
        Status::UriTooLong => "HTTP/1.1 414 URI Too Long",
        Status::UnsupportedMediaType => "HTTP/1.1 415 Unsupported Media Type",
        Status::InternalServerError => "HTTP/1.1 500 Internal Server Error",
        Status::NotImplemented => "HTTP/1.1 501 Not Implemented",
        Status::BadGateway => "HTTP/1.1 502 Bad Gateway",
        Status::ServiceUnavailable => "HTTP/1.1 503 Service Unavailable",
        Status::GatewayTimeout => "HTTP/1.1 504 Gateway Timeout",
    }
}

/// Adds a line that begins so, behind the end of the line before.
fn add_line(out: &mut Vec<u8>, front: &str, value: &[u8]) -> Result<(), Memory>
    ensures { OnOk result (out.new.items ≡ out.old.items ++ front.now ++ value.now) }
{
    out.extend_from_slice(front.as_bytes())?;
    out.extend_from_slice(value)?;
    Ok(())
}

/// Adds a line that begins so, and has a number behind that.
fn add_number(out: &mut Vec<u8>, front: &str, number: u64) -> Result<(), Memory>
    ensures { OnOk result (out.new.items ≡ out.old.items ++ front.now ++ decimal number) }
{
    let mut digits = Buffer::new();
    add_line(out, front, digits.format(number).as_bytes())
}

/// Names the cause of an answer of the proxy's own, and the entry that shows it.
pub fn add_cause(alloc: Global, out: &mut Vec<u8>, cause: Cause, number: u32) -> Result<(), Memory>
    ensures { OnOk result (Adds out.old.items out.new.items
        (only (codes "HC-Cause") (cause_text cause ++ codes " " ++ decimal number))) }
{
    let value = format!(in alloc; "{cause} {number}")?;
    add_line(out, "\r\nHC-Cause: ", value.as_bytes())
}

/// The media type of a body: the one that it was transformed to, or that of the response.
pub fn add_typing(
    out: &mut Vec<u8>,
    media: Option<&Media>,
    response: &Response,
) -> Result<(), Memory>
    ensures { OnOk result (Adds out.old.items out.new.items
        (typing_of (option_map (λ m. m.now) media.entry) response.now)) }
{
    match media {
        Some(media) => add_media(out, media),
        None => add_content_type(out, response),
    }
}

/// The media type of the body of a response.
fn add_content_type(out: &mut Vec<u8>, response: &Response) -> Result<(), Memory>
    ensures { OnOk result (Adds out.old.items out.new.items (content_type response.now)) }
{
    match format_shown(response) {
        Some(format) => add_format(out, format),
        None => Ok(()),
    }
}

/// The media type of a format.
fn add_format(out: &mut Vec<u8>, format: u16) -> Result<(), Memory>
    ensures { OnOk result (Adds out.old.items out.new.items
        (only (codes "Content-Type") (media_text format))) }
{
    match media_named(format) {
        Some(name) => add_line(out, "\r\nContent-Type: ", name.as_bytes()),
        None => {
            let front = "\r\nContent-Type: application/coap-payload;cf=";
            add_number(out, front, u64::from(format))
        }
    }
}

/// A media type.
fn add_media(out: &mut Vec<u8>, media: &Media) -> Result<(), Memory>
    ensures { OnOk result (Adds out.old.items out.new.items
        (only (codes "Content-Type") media.now)) }
{
    add_line(out, "\r\nContent-Type: ", media.as_str().as_bytes())
}

/// How long a response of that age, in milliseconds, stays fresh.
fn add_freshness(out: &mut Vec<u8>, response: &Response, age: u64) -> Result<(), Memory>
    ensures { OnOk result (Adds out.old.items out.new.items (cache_control response.now age)) }
{
    if response.code != CONTENT {
        return Ok(());
    }
    add_number(
        out,
        "\r\nCache-Control: max-age=",
        seconds_left(response, age),
    )
}

/// The entity tag, as HTTP writes it (RFC 9110, section 8.8.3).
fn add_entity_tag(alloc: Global, out: &mut Vec<u8>, response: &Response) -> Result<(), Memory>
    ensures { OnOk result (Adds out.old.items out.new.items (entity_tag response.now)) }
{
    match &response.etag {
        Some(tag) if response.code == CONTENT => {
            let value = format!(in alloc; "\"{}\"", hex::encode(alloc, tag.as_slice())?)?;
            add_line(out, "\r\nETag: ", value.as_bytes())
        }
        _ => Ok(()),
    }
}

/// How long a representation that was asked for stays fresh, and its entity tag.
pub fn add_caching(
    alloc: Global,
    out: &mut Vec<u8>,
    came: &Incoming,
    response: &Response,
    age: u64,
) -> Result<(), Memory>
    ensures { OnOk result (Adds out.old.items out.new.items
        (caching (came_of came.now) response.now age)) }
{
    if !is_read(came) {
        return Ok(());
    }
    add_validity(alloc, out, response, age)
}

/// How long a response stays fresh, and its entity tag.
fn add_validity(
    alloc: Global,
    out: &mut Vec<u8>,
    response: &Response,
    age: u64,
) -> Result<(), Memory>
    ensures { OnOk result (Adds out.old.items out.new.items
        (cache_control response.now age ++ entity_tag response.now)) }
{
    add_freshness(out, response, age)?;
    add_entity_tag(alloc, out, response)
}

/// Where a created resource is hosted.
pub fn add_location<R: Relation>(
    alloc: Global,
    out: &mut Vec<u8>,
    mapped: &Mapped<R>,
    response: &Response,
) -> Result<(), Memory>
    ensures { OnOk result (Adds out.old.items out.new.items
        (value_if (codes "Location") (located mapped.now.rules mapped.now.sense response.now))) }
{
    match location_of(alloc, mapped, response)? {
        Some(value) => add_line(out, "\r\nLocation: ", &value),
        None => Ok(()),
    }
}

/// When to ask again (RFC 8075, section 7).
pub fn add_retry_after(out: &mut Vec<u8>, response: &Response) -> Result<(), Memory>
    ensures { OnOk result (Adds out.old.items out.new.items (retry_after response.now)) }
{
    match response.max_age {
        Some(seconds) if response.code == UNAVAILABLE => {
            add_number(out, "\r\nRetry-After: ", u64::from(seconds))
        }
        _ => Ok(()),
    }
}

/// Says that the connection is closed after the answer, where it is (RFC 9112, section 9.6).
pub fn add_connection(out: &mut Vec<u8>, came: &Incoming) -> Result<(), Memory>
    ensures { OnOk result (Adds out.old.items out.new.items (connection (came_of came.now))) }
{
    if closes(came) {
        add_line(out, "\r\nConnection: ", b"close")?;
    }
    Ok(())
}

/// The length of the body, but in a 204 (RFC 9110, section 8.6).
pub fn add_content_length(out: &mut Vec<u8>, status: Status, len: usize) -> Result<(), Memory>
    ensures { OnOk result (Adds out.old.items out.new.items (content_length status len)) }
{
    if status.number() == NO_CONTENT {
        return Ok(());
    }
    add_number(out, "\r\nContent-Length: ", len as u64)
}

/// Ends the last line and the head, and adds the body; to a HEAD none (RFC 9110, section 9.3.2).
pub fn add_body(out: &mut Vec<u8>, came: &Incoming, body: &[u8]) -> Result<(), Memory>
    ensures { OnOk result (out.new.items ≡ out.old.items ++ codes "\r\n"
        ++ codes "\r\n" ++ (if head (came_of came.now) then [] else body.now)) }
{
    out.extend_from_slice(b"\r\n\r\n")?;
    if !is_head(came) {
        out.extend_from_slice(body)?;
    }
    Ok(())
}
