//! What the replies to an exchange make known (RFC 7252 sections 5.2, 5.4 and 5.9, RFC 7959 section 2).

use ask_model::Cause;
use blockwise::{Answered, LARGEST_SZX, Upload, is_only_piece};
use coap_codec::{Bytes, Message, decode, is_forwardable};
use journal_book::{Grounds, Numbers};
use reply_reading::{
    Finding, Outcome, Response, answer_of, confirms, fetched_of, is_tellable, renewed,
};
use std::alloc::Global;
use std::sync::Arc;

/// The codes of the requests that are replied to.
const GET: u8 = 1;

const PUT: u8 = 3;

/// What the message makes known as the only piece of a representation, which the entry 4 bears.
fn piece_in(alloc: Global, message: Message) -> Option<Finding> {
    if !(is_tellable(&message) && is_only_piece(&message)) {
        return Some(Finding::fault(Cause::NotUnderstood, 4));
    }
    let replies = Numbers::from_slice(alloc, &[4]).ok()?;
    fetched_of(alloc, replies, Vec::new(alloc), message).ok()
}

/// What the message makes known as the answer to a request whose body went whole, which the entry 4
/// bears.
fn answer_in(alloc: Global, message: Message) -> Option<Finding> {
    let answered = Upload::new(&[], LARGEST_SZX).judge(&message);
    if !is_forwardable(&message.options) || answered != Answered::Last {
        return Some(Finding::fault(Cause::NotUnderstood, 4));
    }
    let replies = Numbers::from_slice(alloc, &[4]).ok()?;
    answer_of(alloc, replies, message).ok()
}

/// What the datagram makes known as the only reply, which the entry with the number 4 bears.
fn finding_in(alloc: Global, method: u8, bytes: &[u8]) -> Option<Finding> {
    let message = decode(alloc, bytes).ok()?;
    if method == GET {
        piece_in(alloc, message)
    } else {
        answer_in(alloc, message)
    }
}

/// It is a response, which rests on the entry 4.
fn is_whole(finding: &Finding) -> bool {
    match finding.grounds() {
        Grounds::Live(numbers) => numbers.as_slice() == [4].as_slice(),
        _ => false,
    }
}

/// It is an error of the proxy's own, which names the entry 4.
fn is_not_understood(finding: &Finding) -> bool {
    match finding.outcome() {
        Outcome::Fault(Cause::NotUnderstood) => names_the_entry(finding.grounds()),
        _ => false,
    }
}

fn names_the_entry(grounds: &Grounds) -> bool {
    matches!(grounds, Grounds::Fault(Cause::NotUnderstood, 4))
}

/// The method of a request, a datagram, and whether it is a whole response; the others aren't understood.
static ROWS: [(u8, &[u8], bool); 33] = [
    // the response of figure 17, piggybacked; separate ones
    (GET, b"\x62\x45\x7d\x34te\xff22.3 C", true),
    (GET, b"\x42\x45\x12\x99te\xffon", true),
    (GET, b"\x52\x45\x12\x99te\xffon", true),
    // 2.03 and 4.04, and a code of a reserved class
    (GET, b"\x42\x43\x12\x99te", false),
    (GET, b"\x42\x84\x12\x99te", true),
    (GET, b"\x42\x20\x12\x99te", false),
    (GET, b"\x52\x20\x12\x99te", false),
    // unknown options: safe to forward, unsafe, critical
    (GET, b"\x42\x45\x12\x99te\xe1\x06\xf3x", true),
    (GET, b"\x42\x45\x12\x99te\xe1\x06\xf5x", false),
    (GET, b"\x42\x45\x12\x99te\xe1\x06\xf4x", false),
    // Block2 to a GET: the last one, one with more to come, one of the reserved size, and two
    (GET, b"\x42\x45\x12\x99te\xd1\x0a\x06", true),
    (GET, b"\x42\x45\x12\x99te\xd1\x0a\x0e", false),
    (GET, b"\x42\x45\x12\x99te\xd1\x0a\x07", false),
    (GET, b"\x42\x45\x12\x99te\xd1\x0a\x06\x01\x06", false),
    // a later one; of 16 bytes, with 16 and with 17
    (GET, b"\x42\x45\x12\x99te\xd1\x0a\x10", false),
    (
        GET,
        b"\x42\x45\x12\x99te\xd1\x0a\0\xff0123456789abcdef",
        true,
    ),
    (
        GET,
        b"\x42\x45\x12\x99te\xd1\x0a\0\xff0123456789abcdefg",
        false,
    ),
    // Block1 to a GET says nothing: a later one, one with more to come, and one with an error
    (GET, b"\x42\x45\x12\x99te\xd1\x0e\x16", true),
    (GET, b"\x42\x45\x12\x99te\xd1\x0e\x0e", true),
    (GET, b"\x42\x84\x12\x99te\xd1\x0e\x16", true),
    // Block1 to a PUT: the piece that went, of any size and with more set, also with a 4.13; another
    // piece; 2.31; and one of four bytes
    (PUT, b"\x42\x44\x12\x99te\xd1\x0e\x06", true),
    (PUT, b"\x42\x8d\x12\x99te\xd1\x0e\x02", true),
    (PUT, b"\x42\x44\x12\x99te\xd1\x0e\x0e", true),
    (PUT, b"\x42\x8d\x12\x99te\xd1\x0e\x0a", true),
    (PUT, b"\x42\x44\x12\x99te\xd1\x0e\x16", false),
    (PUT, b"\x42\x8d\x12\x99te\xd1\x0e\x1a", false),
    (PUT, b"\x42\x5f\x12\x99te\xd1\x0e\x06", false),
    (PUT, b"\x42\x44\x12\x99te\xd4\x0e\0\0\0\x06", false),
    // Block2 to a PUT: the only piece, of any size; a later one, and one with more to come
    (PUT, b"\x42\x44\x12\x99te\xd1\x0a\x06\xffon", true),
    (
        PUT,
        b"\x42\x44\x12\x99te\xd1\x0a\0\xff0123456789abcdefg",
        true,
    ),
    (PUT, b"\x42\x44\x12\x99te\xd1\x0a\x10\xffon", false),
    (PUT, b"\x42\x44\x12\x99te\xd1\x0a\x0e\xffon", false),
    // Location-Path may repeat
    (GET, b"\x42\x45\x12\x99te\x81a\x01b", true),
];

/// The rows, handed out by a call that says nothing of them: a loop over them is proved in less time.
fn rows() -> &'static [(u8, &'static [u8], bool)] {
    &ROWS
}

/// Whether the datagram makes known what is wanted.
fn makes_known(alloc: Global, method: u8, bytes: &[u8], whole: bool) -> bool {
    match finding_in(alloc, method, bytes) {
        Some(finding) if whole => is_whole(&finding),
        Some(finding) => is_not_understood(&finding),
        None => false,
    }
}

#[test]
fn replies_are_whole_or_not_understood(rt: HostRuntime) {
    for &(method, bytes, whole) in rows() {
        let told = makes_known(rt.alloc(), method, bytes, whole);
        assert!(rt; told, "{bytes:?}");
    }
}

/// The response that was found, which it shares.
fn response_of(finding: &Finding) -> Option<Arc<Response>> {
    match finding.outcome() {
        Outcome::Whole(response) => Arc::try_clone(response).ok(),
        Outcome::Fault(_) => None,
    }
}

/// The response that this datagram is, by a copy of what it makes known.
fn response_in(alloc: Global, bytes: &[u8]) -> Option<Arc<Response>> {
    let finding = finding_in(alloc, GET, bytes)?;
    let copy = finding.copy().ok()?;
    response_of(&copy)
}

fn has_tag(response: &Response, wanted: &[u8]) -> bool {
    match &response.etag {
        Some(etag) => etag.as_slice() == wanted,
        None => false,
    }
}

#[test]
fn what_options_say(rt: HostRuntime) {
    // ETag, Location-Path, Content-Format and Max-Age
    let full = b"\x42\x45\x12\x99te\x42\x01\x02\x41a\x42\x01\x02\x21\x3c\xffon";
    let said = response_in(rt.alloc(), full).expect(&rt, "a response");
    assert!(rt; said.code == 0x45);
    assert!(rt; said.format == Some(0x0102) && said.max_age == Some(60));
    assert!(rt; has_tag(&said, &[1, 2]));
    let location = &said.location;
    assert!(rt; location.path.as_slice().len() == 1 && location.query.as_slice().is_empty());
    assert!(rt; said.body.as_slice() == b"on".as_slice());
    // an empty ETag does not count
    let bare = b"\x42\x45\x12\x99te\x40\xffon";
    let said = response_in(rt.alloc(), bare).expect(&rt, "a response");
    assert!(rt; said.etag.is_none() && said.format.is_none() && said.max_age.is_none());
}

/// The response that these three datagrams are together.
fn response_of_three(alloc: Global, pieces: [&[u8]; 3]) -> Option<Arc<Response>> {
    let [first, second, last] = pieces;
    let mut earlier = Vec::new(alloc);
    earlier.push(decode(alloc, first).ok()?).ok()?;
    earlier.push(decode(alloc, second).ok()?).ok()?;
    let replies = Numbers::from_slice(alloc, &[4, 6, 8]).ok()?;
    let finding = fetched_of(alloc, replies, earlier, decode(alloc, last).ok()?).ok()?;
    response_of(&finding)
}

#[test]
fn what_pieces_say_together(rt: HostRuntime) {
    // 16, 16 and 2 bytes, with a Max-Age of 60, none and 30
    let pieces: [&[u8]; 3] = [
        b"\x42\x45\x12\x99te\xd1\x01\x3c\x91\x08\xff0123456789abcdef",
        b"\x42\x45\x12\x9ate\xd1\x0a\x18\xffghijklmnopqrstuv",
        b"\x42\x45\x12\x9bte\xd1\x01\x1e\x91\x20\xffwx",
    ];
    let said = response_of_three(rt.alloc(), pieces).expect(&rt, "a response");
    assert!(rt; said.code == 0x45 && said.max_age == Some(60));
    let whole = b"0123456789abcdefghijklmnopqrstuvwx";
    assert!(rt; said.body.as_slice() == whole.as_slice());
}

/// A datagram, and whether it says that what has the ETag "e" is valid still.
static VALID: [(&[u8], bool); 8] = [
    // 2.03 with this ETag, with another, with a longer one, and with none
    (b"\x62\x43\x7d\x34te\x41e", true),
    (b"\x62\x43\x7d\x34te\x41f", false),
    (b"\x62\x43\x7d\x34te\x42ee", false),
    (b"\x62\x43\x7d\x34te", false),
    // 2.05 with this ETag
    (b"\x62\x45\x7d\x34te\x41e\xffon", false),
    // unknown options: safe to forward, unsafe, critical
    (b"\x62\x43\x7d\x34te\x41e\xe1\x06\xf3x", true),
    (b"\x62\x43\x7d\x34te\x41e\xe1\x06\xf5x", false),
    (b"\x62\x43\x7d\x34te\x41e\xe1\x06\xf4x", false),
];

fn valid_rows() -> &'static [(&'static [u8], bool)] {
    &VALID
}

/// Whether the datagram says that what has the ETag "e" is valid still.
fn confirms_e(alloc: Global, bytes: &[u8]) -> Option<bool> {
    let message = decode(alloc, bytes).ok()?;
    let tag = Some(Bytes::from_slice(alloc, b"e").ok()?);
    Some(confirms(&tag, &message) && !confirms(&None, &message))
}

#[test]
fn a_2_03_confirms_what_has_its_etag(rt: HostRuntime) {
    for &(bytes, valid) in valid_rows() {
        assert!(rt; confirms_e(rt.alloc(), bytes) == Some(valid), "{bytes:?}");
    }
}

/// The response that the first datagram is, as the other one renews it.
fn renewed_in(alloc: Global, first: &[u8], valid: &[u8]) -> Option<Response> {
    let response = response_in(alloc, first)?;
    let message = decode(alloc, valid).ok()?;
    renewed(alloc, &response, &message).ok()
}

#[test]
fn a_2_03_renews_the_age_and_the_format_that_it_names(rt: HostRuntime) {
    // ETag, Content-Format 258 and Max-Age 60
    let full = b"\x42\x45\x12\x99te\x42\x01\x02\x82\x01\x02\x21\x3c\xffon";
    // ETag and Max-Age 30
    let aged = b"\x62\x43\x7d\x34te\x42\x01\x02\xa1\x1e";
    let said = renewed_in(rt.alloc(), full, aged).expect(&rt, "a response");
    assert!(rt; said.code == 0x45 && said.body.as_slice() == b"on".as_slice());
    assert!(rt; said.format == Some(0x0102) && said.max_age == Some(30));
    assert!(rt; has_tag(&said, &[1, 2]));
    // ETag and Content-Format 50
    let named = b"\x62\x43\x7d\x34te\x42\x01\x02\x81\x32";
    let said = renewed_in(rt.alloc(), full, named).expect(&rt, "a response");
    assert!(rt; said.format == Some(50) && said.max_age.is_none());
}
