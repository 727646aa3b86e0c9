//! Whether two values are equal.

ghost use Rattle.std.specs.Prelude.{◌≡◌, ◌↔◌, IsTrue};
ghost use Rattle.ask_model.specs.Views.{came_of, body_of, payload_of};
ghost use Rattle.journal_book.specs.Views.{grounds_of};

use ask_model::{Mapped, Meaning, Payload};
use coap_codec::Bytes;
use http_edge::Incoming;
use journal_book::Grounds;
use reply_reading::Response;
use transformers::Relation;
use uri_map::{Host, Peer, Target, Texts};

/// Whether these are the same grounds.
pub fn is_same_grounds(a: &Grounds, b: &Grounds) -> bool
    ensures { IsTrue result ↔ (grounds_of a.now ≡ grounds_of b.now) }
{
    match (a, b) {
        (Grounds::Live(js), Grounds::Live(ks)) => js.as_slice() == ks.as_slice(),
        (Grounds::Kept(js), Grounds::Kept(ks)) => js.as_slice() == ks.as_slice(),
        (Grounds::Fault(cause, n), Grounds::Fault(other, k)) => *cause == *other && *n == *k,
        _ => false,
    }
}

fn is_same_host(a: &Host, b: &Host) -> bool
    ensures { IsTrue result ↔ (a.now ≡ b.now) }
{
    match (a, b) {
        (Host::Name(a), Host::Name(b)) => a == b,
        (Host::V4(a), Host::V4(b)) => a == b,
        (Host::V6(a), Host::V6(b)) => a == b,
        _ => false,
    }
}

fn are_same_texts(a: &Texts, b: &Texts) -> bool
    ensures { IsTrue result ↔ (a.now ≡ b.now) }
{
    a == b
}

fn is_same_target(a: &Target, b: &Target) -> bool
    ensures { IsTrue result ↔ (a.now ≡ b.now) }
{
    let host = is_same_host(&a.host, &b.host);
    let path = are_same_texts(&a.path, &b.path);
    let query = are_same_texts(&a.query, &b.query);
    host && a.port == b.port && path && query
}

fn is_same_peer(a: &Peer, b: &Peer) -> bool
    ensures { IsTrue result ↔ (a.now ≡ b.now) }
{
    a == b
}

fn is_same_format(a: Option<u16>, b: Option<u16>) -> bool
    ensures { IsTrue result ↔ (a ≡ b) }
{
    match (a, b) {
        (None, None) => true,
        (Some(a), Some(b)) => a == b,
        _ => false,
    }
}

fn are_same_bytes(a: &[u8], b: &[u8]) -> bool
    ensures { IsTrue result ↔ (a.now ≡ b.now) }
{
    a == b
}

/// Whether these are the same values of options.
fn are_same_values(a: &[Bytes], b: &[Bytes]) -> bool
    ensures { IsTrue result ↔ (a.now ≡ b.now) }
{
    if a.len() != b.len() {
        return false;
    }
    'each: for i in 0..a.len() {
        if !are_same_bytes(a[i].as_slice(), b[i].as_slice()) {
            return false;
        }
    }
    true
}

/// Whether both have the same value of an option, or none.
fn is_same_value(a: &Option<Bytes>, b: &Option<Bytes>) -> bool
    ensures { IsTrue result ↔ (a.now ≡ b.now) }
{
    match (a, b) {
        (None, None) => true,
        (Some(a), Some(b)) => are_same_bytes(a.as_slice(), b.as_slice()),
        _ => false,
    }
}

fn is_same_age(a: Option<u32>, b: Option<u32>) -> bool
    ensures { IsTrue result ↔ (a ≡ b) }
{
    match (a, b) {
        (None, None) => true,
        (Some(a), Some(b)) => a == b,
        _ => false,
    }
}

/// Whether the first response would be the second in this format and with this Max-Age.
pub fn is_same_in(a: &Response, format: Option<u16>, max_age: Option<u32>, b: &Response) -> bool
    ensures { IsTrue result
        ↔ (record a.now { format = format; max_age = max_age } ≡ b.now) }
{
    let format = is_same_format(format, b.format);
    let etag = is_same_value(&a.etag, &b.etag);
    let max_age = is_same_age(max_age, b.max_age);
    let path = are_same_values(a.location.path.as_slice(), b.location.path.as_slice());
    let query = are_same_values(a.location.query.as_slice(), b.location.query.as_slice());
    let body = are_same_bytes(a.body.as_slice(), b.body.as_slice());
    a.code == b.code && format && etag && max_age && path && query && body
}

/// Whether these are the same responses.
pub fn is_same_response(a: &Response, b: &Response) -> bool
    ensures { IsTrue result ↔ (a.now ≡ b.now) }
{
    is_same_in(a, a.format, a.max_age, b)
}

/// The body that came in.
fn body(came: &Incoming) -> &[u8]
    ensures { result.now ≡ body_of (came_of came.now) }
{
    match came {
        Incoming::Request(request) => &request.body,
        Incoming::Bad(_) => &[],
    }
}

/// The payload of a request with this body.
fn payload_bytes<'a>(payload: &'a Payload, body: &'a [u8]) -> &'a [u8]
    ensures { result.now ≡ payload_of payload.now body.now }
{
    match payload {
        Payload::Empty => &[],
        Payload::Same => body,
        Payload::Changed(bytes) => bytes.as_slice(),
    }
}

/// Whether the requests mean the same.
pub fn means_same<R: Relation>(a: &Mapped<R>, b: &Mapped<R>) -> bool
    ensures { IsTrue result ↔ (a.now.sense ≡ b.now.sense) }
{
    match (a.meaning(), b.meaning()) {
        (
            Meaning::Ask {
                method,
                target,
                peer,
                accept,
                format,
                payload,
            },
            Meaning::Ask {
                method: other_method,
                target: other_target,
                peer: other_peer,
                accept: other_accept,
                format: other_format,
                payload: other_payload,
            },
        ) => {
            let code = method.code() == other_method.code();
            let target = is_same_target(target, other_target);
            let peer = is_same_peer(peer, other_peer);
            let accept = is_same_format(*accept, *other_accept);
            let format = is_same_format(*format, *other_format);
            let bytes = payload_bytes(payload, body(a.came()));
            let other_bytes = payload_bytes(other_payload, body(b.came()));
            let body = are_same_bytes(bytes, other_bytes);
            code && peer && target && accept && format && body
        }
        (Meaning::Refuse(cause, status), Meaning::Refuse(other_cause, other_status)) => {
            *cause == *other_cause && status.number() == other_status.number()
        }
        _ => false,
    }
}
