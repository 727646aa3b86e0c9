//! The head that unread bytes begin with.

ghost use Rattle.std.specs.Prelude.{◌≡◌, ◌≤◌, ℕ, List, [], length, IfOk, MatchResult, All, map};
ghost use Rattle.httparse.specs.Spans.{IsHeaderWithin, IsWithin, header_bytes, span_bytes};
ghost use Rattle.http_edge.specs.Requests.{content, request_from, expects_of, AreFields};
ghost use Rattle.http_edge.specs.Framing.{IsFound};
ghost use Rattle.http_edge.specs.Bodies.{SoFar};
ghost use Rattle.http_edge.specs.Reading.{NeverTakes};
ghost use Rattle.http_edge.specs.Edges.{IsStart};

use crate::begun::Begun;
use crate::body::Left;
use crate::field_map::fields_of;
use crate::framing::{Found, Framing, found_in, framing_by};
use crate::memory::Memory;
use crate::request::{BadKind, Request, Version};
use httparse::Status;
use httparse::spans::{EMPTY_HEADER_SPAN, HeaderSpan, RequestSpans, parse_request};
use std::alloc::Global;

/// What unread bytes begin with.
#[derive(Drop)]
pub enum Start {
    Wait,
    Bad(BadKind),
    /// A head of that length.
    Head(Begun, usize),
}

/// Reads the head at the front.
pub fn start_of(alloc: Global, unread: &[u8]) -> Result<Start, Memory>
    requires { length unread.now ≤ 8192 }
    ensures { IfOk result (IsStart unread.now) }
{
    let mut spans = [EMPTY_HEADER_SPAN; 64];
    let head = match parse_request(unread, &mut spans) {
        Ok(Status::Complete(head)) => head,
        Ok(Status::Partial) => {
            if unread.len() == 8192 {
                return Ok(Start::Bad(BadKind::Syntax));
            }
            return Ok(Start::Wait);
        }
        Err(_) => return Ok(Start::Bad(BadKind::Syntax)),
    };
    let spans = &spans[..head.headers];
    let found = found_in(unread, spans);
    let left = match left_of(framing_by(&found, head.version)) {
        Ok(left) => left,
        Err(kind) => return Ok(Start::Bad(kind)),
    };
    let wants = expects_in(&found, head.version);
    let request = request_of(alloc, unread, spans, &head, &found, room_of(left))?;
    let begun = Begun {
        request,
        left,
        wants,
        told: false,
    };
    Ok(Start::Head(begun, head.len))
}

/// What of a body so framed is read first.
fn left_of(framing: Framing) -> Result<Left, BadKind>
    ensures { (text : List ℕ) → MatchResult result (λ left. SoFar framing left [] text text)
        (λ kind. NeverTakes framing text kind) }
{
    match framing {
        Framing::Sized(n) => Ok(Left::Bytes(n)),
        Framing::Chunked => Ok(Left::Line),
        Framing::Refused(kind) => Err(kind),
    }
}

/// How many bytes of a body there will be at least.
fn room_of(left: Left) -> usize {
    match left {
        Left::Bytes(n) => n,
        _ => 0,
    }
}

/// The client waits for `100 Continue` before it sends the body.
fn expects_in(found: &Found<'_>, minor: u8) -> bool
    ensures { (fields : List (List ℕ × List ℕ)) → IsFound found.now fields
        → result ≡ expects_of minor fields }
{
    minor == 1 && found.expects
}

/// The request without its body.
fn request_of(
    alloc: Global,
    unread: &[u8],
    spans: &[HeaderSpan],
    head: &RequestSpans,
    found: &Found<'_>,
    room: usize,
) -> Result<Request, Memory>
    requires within { All (IsHeaderWithin (length unread.now)) spans.now }
    requires method { IsWithin (length unread.now) head.now.method }
    requires path { IsWithin (length unread.now) head.now.path }
    requires fields { AreFields unread.now spans.now }
    requires found { IsFound found.now (map (header_bytes unread.now) spans.now) }
    ensures { IfOk result (λ r.
        content r ≡ request_from (span_bytes unread.now head.now.method)
        (span_bytes unread.now head.now.path) head.now.version
        (map (header_bytes unread.now) spans.now)) }
{
    Ok(Request {
        method: Vec::from_slice(alloc, head.method.of(unread))?,
        target: Vec::from_slice(alloc, head.path.of(unread))?,
        version: if head.version == 0 {
            Version::Http10
        } else {
            Version::Http11
        },
        fields: fields_of(alloc, unread, spans)?,
        body: Vec::with_capacity(alloc, room)?,
        close: head.version == 0 || found.closes,
    })
}
