//! What an ask means, and the datagram that carries it.

use crate::sample::{Nothing, light, server, too_large};
use ask_model::{Cause, Mapped, Meaning};
use coap_codec::{Bytes, Token};
use http_edge::{BadKind, Incoming};
use std::alloc::{AllocError, Global};
use std::net::{IpAddr, Ipv6Addr};
use uri_map::{Peer, is_same_peer};

/// The ask goes to this server.
fn goes_to(mapped: &Mapped<Nothing>, server: &Peer) -> bool {
    match mapped.peer() {
        Some(peer) => is_same_peer(&peer, server),
        None => false,
    }
}

/// With the ID 0 and this token it is sent so.
fn is_sent_as(
    alloc: Global,
    mapped: &Mapped<Nothing>,
    token: &[u8; 8],
    want: &[u8],
) -> Result<bool, AllocError> {
    match mapped.request(alloc, None, 0, &Token::new(token))? {
        Some(sent) => Ok(sent.as_slice() == want),
        None => Ok(false),
    }
}

/// The ask of the light goes to its server, and is sent so.
fn light_is_sent_as(alloc: Global, want: &[u8]) -> Result<bool, AllocError> {
    let mapped = light(alloc)?;
    Ok(goes_to(&mapped, &server(5683)) && is_sent_as(alloc, &mapped, &[0; 8], want)?)
}

#[test]
fn a_request_is_sent_as_its_datagram(rt: HostRuntime) {
    // the header and the token, Uri-Host, and Uri-Path
    let want = b"\x48\x01\0\0\0\0\0\0\0\0\0\0\x3d\0s.example.com\x85light";
    assert!(rt; light_is_sent_as(rt.alloc(), want) == Ok(true));
}

/// With the ID 0 and no token, it is asked so whether the light that has this ETag is valid still.
fn light_is_validated_as(alloc: Global, want: &[u8]) -> Result<bool, AllocError> {
    let mapped = light(alloc)?;
    match mapped.validate_request(alloc, b"on", 0, &Token::new(&[]))? {
        Some(sent) => Ok(sent.as_slice() == want),
        None => Ok(false),
    }
}

#[test]
fn what_is_stale_is_asked_about_by_its_etag(rt: HostRuntime) {
    // the header, Uri-Host, ETag, and Uri-Path
    let want = b"\x40\x01\0\0\x3d\0s.example.com\x12on\x75light";
    assert!(rt; light_is_validated_as(rt.alloc(), want) == Ok(true));
}

/// The request is refused for this cause, with this status.
fn is_refused(mapped: &Mapped<Nothing>, cause: Cause, number: u16) -> bool {
    match mapped.meaning() {
        Meaning::Refuse(found, status) => *found == cause && status.number() == number,
        Meaning::Ask { .. } => false,
    }
}

/// What came was too large.
fn came_large(mapped: &Mapped<Nothing>) -> bool {
    matches!(mapped.came(), Incoming::Bad(BadKind::Large))
}

fn takes_literals(mapped: &Mapped<Nothing>) -> bool {
    mapped.settings().directory.literals()
}

fn has_peer(mapped: &Mapped<Nothing>) -> bool {
    mapped.peer().is_some()
}

fn wants_nothing(mapped: &Mapped<Nothing>) -> bool {
    mapped.wanted().is_none()
}

fn is_sent(alloc: Global, mapped: &Mapped<Nothing>) -> Result<bool, AllocError> {
    Ok(mapped.request(alloc, None, 0, &Token::new(&[]))?.is_some())
}

/// The request is refused for its size, and goes nowhere.
fn is_refusal(alloc: Global, mapped: &Mapped<Nothing>) -> bool {
    is_refused(mapped, Cause::BadHttp, 413)
        && came_large(mapped)
        && takes_literals(mapped)
        && !has_peer(mapped)
        && wants_nothing(mapped)
        && is_sent(alloc, mapped) == Ok(false)
}

fn too_large_is_refused(alloc: Global) -> Result<bool, AllocError> {
    let mapped = too_large(alloc)?;
    Ok(is_refusal(alloc, &mapped))
}

#[test]
fn a_refusal_sends_nothing(rt: HostRuntime) {
    assert!(rt; too_large_is_refused(rt.alloc()) == Ok(true));
}

#[test]
fn peers_are_told_apart(rt: HostRuntime) {
    let other = Peer {
        address: IpAddr::V6(Ipv6Addr::new(0x2001, 0xdb8, 0, 0, 0, 0, 0, 1)),
        port: 5683,
    };
    assert!(rt; is_same_peer(&server(5683), &server(5683)));
    assert!(rt; !is_same_peer(&server(5683), &server(5684)));
    assert!(rt; !is_same_peer(&server(5683), &other));
}

fn cause_is(alloc: Global, cause: Cause, words: &str) -> bool {
    match format!(in alloc; "{cause}") {
        Ok(text) => text.as_str() == words,
        Err(_) => false,
    }
}

fn copied(alloc: Global, items: &[u8]) -> Result<Bytes, AllocError> {
    Bytes::from_slice(alloc, items)?.copy()
}

#[test]
fn causes_are_written_as_the_field_shows_them(rt: HostRuntime) {
    let alloc = rt.alloc();
    assert!(rt; cause_is(alloc, Cause::BadHttp, "bad-http"));
    assert!(rt; cause_is(alloc, Cause::NoMap, "no-map"));
    assert!(rt; cause_is(alloc, Cause::Method, "method"));
    assert!(rt; cause_is(alloc, Cause::Media, "media"));
    assert!(rt; cause_is(alloc, Cause::Busy, "busy"));
    assert!(rt; cause_is(alloc, Cause::Timeout, "timeout"));
    assert!(rt; cause_is(alloc, Cause::Reset, "reset"));
    assert!(rt; cause_is(alloc, Cause::NotUnderstood, "not-understood"));
    let bytes = copied(alloc, b"on").expect(&rt, "memory");
    assert!(rt; bytes.as_slice() == b"on".as_slice());
    assert!(rt; bytes.len() == 2);
}
