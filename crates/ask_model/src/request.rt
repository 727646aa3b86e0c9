//! The datagram that asks a CoAP server (RFC 7252 section 3).

ghost use Rattle.std.specs.Prelude.{◌≡◌, ◌≤◌, ◌<◌, ◌^◌, length, IfOk, IfSome};
ghost use Rattle.std.specs.List.{list_any};
ghost use Rattle.std.specs.Str.{bytes_eq};
ghost use Rattle.limits.specs.declared.TheConstants.{MAX_BODY_LEN};
ghost use Rattle.ask_model.specs.Requests.{CoapRequest, carried_by};
ghost use Rattle.ask_model.specs.Observing.{IsObserving, is_named};
ghost use Rattle.ask_model.specs.Views.{Rules, came_of, body_of, payload_of, sense_of};
ghost use Rattle.ask_model.specs.Datagrams.{IsSentFor, IsSendable, block_or_first, block_named};

use crate::meaning::{Meaning, Payload};
use crate::writing::{asking_bytes, observing_bytes};
use blockwise::{LARGEST_SZX, Upload, slice_of};
use coap_codec::{Block, Bytes, Token};
use http_edge::Incoming;
use std::alloc::{AllocError, Global};
use uri_map::{Host, Text};

/// The code of a GET (RFC 7252 section 12.1.1).
pub(crate) const GET: u8 = 1;

/// Whether the two texts are one.
fn is_same(a: &Text, b: &Text) -> bool
    ensures { result ≡ bytes_eq a.now b.now }
{
    a.as_bytes() == b.as_bytes()
}

/// Whether the name is one of these.
fn is_among(names: &[Text], name: &Text) -> bool
    ensures { result ≡ list_any (bytes_eq name.now) names.now }
{
    names.iter().any(|n| is_same(name, n))
}

/// Whether the host is one of these names.
fn is_named(names: &[Text], host: &Host) -> bool
    ensures { result ≡ is_named names.now host.now }
{
    match host {
        Host::Name(name) => is_among(names, name),
        Host::V4(_) | Host::V6(_) => false,
    }
}

/// The block that a message with this method is for: the one that is named, or else the first of a
/// body that goes in several.
fn block_or_first(method: u8, body: &[u8], block: Option<Block>) -> Option<Block>
    requires short { length body.now ≤ MAX_BODY_LEN }
    requires num { IfSome block (λ b. b.num < 2 ^ 20) }
    requires szx { IfSome block (λ b. b.szx < 7) }
    ensures block { (q : CoapRequest) → q.method ≡ method → q.body ≡ body.now
        → result ≡ block_or_first q block }
    ensures num { IfSome result (λ b. b.num < 2 ^ 20) }
    ensures szx { IfSome result (λ b. b.szx < 7) }
{
    if block.is_some() || method == GET {
        return block;
    }
    Upload::new(body, LARGEST_SZX).next_block()
}

/// What a message for the block carries of the body: that block, or all where it names none, or one
/// of the representation.
fn carried(method: u8, body: &[u8], block: Option<Block>) -> &[u8]
    requires num { IfSome block (λ b. b.num < 2 ^ 20) }
    requires szx { IfSome block (λ b. b.szx < 7) }
    ensures { result.now ≡ carried_by method block body.now }
{
    match block {
        Some(block) if method != GET => slice_of(block, body),
        _ => body,
    }
}

/// The payload's bytes, of which those of the HTTP request are given.
pub(crate) fn bytes_of<'a>(payload: &'a Payload, body: &'a [u8]) -> &'a [u8]
    ensures { result.now ≡ payload_of payload.now body.now }
{
    match payload {
        Payload::Empty => &[],
        Payload::Same => body,
        Payload::Changed(bytes) => bytes.as_slice(),
    }
}

/// The body of what came in.
pub(crate) fn body_in(came: &Incoming) -> &[u8]
    ensures { result.now ≡ body_of (came_of came.now) }
{
    match came {
        Incoming::Request(request) => request.body.as_slice(),
        Incoming::Bad(_) => &[],
    }
}

/// The datagram of a request with this meaning and body, for the block that is named or for the
/// first, under this message ID and token.
pub(crate) fn datagram_of(
    alloc: Global,
    meaning: &Meaning,
    body: &[u8],
    block: Option<Block>,
    mid: u16,
    token: &Token,
) -> Result<Option<Bytes>, AllocError>
    requires sendable { IsSendable (sense_of meaning.now body.now) }
    requires num { IfSome block (λ b. b.num < 2 ^ 20) }
    requires szx { IfSome block (λ b. b.szx < 7) }
    ensures { IfOk result (λ o. IsSentFor (sense_of meaning.now body.now)
        (block_named (sense_of meaning.now body.now) block) mid token.now o) }
{
    match meaning {
        Meaning::Ask {
            method,
            target,
            accept,
            format,
            payload,
            ..
        } => {
            let code = method.code();
            let body = bytes_of(payload, body);
            let named = block_or_first(code, body, block);
            let payload = carried(code, body, named);
            let bytes = asking_bytes(
                alloc, code, mid, token, target, *format, *accept, named, payload,
            )?;
            Ok(Some(Bytes::of(bytes)))
        }
        Meaning::Refuse(_, _) => Ok(None),
    }
}

/// The datagram of a GET that asks to be told of changes, where its server has one of these names.
/// None of any other, and of what is no GET.
pub(crate) fn observing_of(
    alloc: Global,
    meaning: &Meaning,
    body: &[u8],
    names: &[Text],
    mid: u16,
    token: &Token,
) -> Result<Option<Bytes>, AllocError>
    requires sendable { IsSendable (sense_of meaning.now body.now) }
    ensures { (s : Rules) → s.observed ≡ names.now
        → IfOk result (λ o. IsObserving s (sense_of meaning.now body.now) mid token.now o) }
{
    match meaning {
        Meaning::Ask {
            method,
            target,
            accept,
            format,
            payload,
            ..
        } => {
            let code = method.code();
            let is_get = code == GET && format.is_none() && bytes_of(payload, body).is_empty();
            if !is_get || !is_named(names, &target.host) {
                return Ok(None);
            }
            let bytes = observing_bytes(alloc, code, mid, token, target, *format, *accept)?;
            Ok(Some(Bytes::of(bytes)))
        }
        Meaning::Refuse(_, _) => Ok(None),
    }
}
