//! What a response is good for, faults in words, and shared bytes.

use crate::telling::{check, is_written};
use coap_codec::{Message, MsgType, Opt, Token};
use message_layer::{Bytes, Fitness, LinkFault, judge};
use std::alloc::Global;

/// A response with one option.
fn response(alloc: Global, number: u16, value: &[u8]) -> Option<Message> {
    let mut m = Message::new(alloc, MsgType::Non, 69, 0, Token::new(&[]));
    let option = Opt::new(alloc, number, value).ok()?;
    m.options.push(option).ok()?;
    Some(m)
}

fn judged(alloc: Global, number: u16, value: &[u8]) -> Option<Fitness> {
    let m = response(alloc, number, value)?;
    Some(judge(&m))
}

/// The option stands there twice.
fn judged_twice(alloc: Global, number: u16, value: &[u8]) -> Option<Fitness> {
    let mut m = response(alloc, number, value)?;
    let option = Opt::new(alloc, number, value).ok()?;
    m.options.push(option).ok()?;
    Some(judge(&m))
}

/// A response with this code and an ETag.
fn judged_code(alloc: Global, code: u8) -> Option<Fitness> {
    let mut m = response(alloc, 4, &[1])?;
    m.code = code;
    Some(judge(&m))
}

/// An option of a response, and what the response is good for.
type Row = (u16, &'static [u8], Fitness);

static OPTIONS: [Row; 7] = [
    (23, &[6], Fitness::Fits),
    (23, &[7], Fitness::Rejected),
    (27, &[0, 0, 0, 0], Fitness::Rejected),
    // defined for requests alone
    (11, &[0x61], Fitness::Rejected),
    (6, &[0, 0, 0, 0], Fitness::Fits),
    // unknown ones, unsafe and safe to forward
    (10, &[], Fitness::NotUnderstood),
    (16, &[], Fitness::Fits),
];

fn is_judged(alloc: Global, row: &Row) -> bool {
    judged(alloc, row.0, row.1) == Some(row.2)
}

#[test]
fn options_of_responses(rt: HostRuntime) {
    for row in &OPTIONS {
        check(&rt, row.0, is_judged(rt.alloc(), row));
    }
    check(
        &rt,
        "twice",
        judged_twice(rt.alloc(), 23, b"\x06") == Some(Fitness::Rejected),
    );
}

#[test]
fn codes_of_responses(rt: HostRuntime) {
    let alloc = rt.alloc();
    check(
        &rt,
        "3.00",
        judged_code(alloc, 96) == Some(Fitness::NotUnderstood),
    );
    check(
        &rt,
        "6.00",
        judged_code(alloc, 192) == Some(Fitness::Rejected),
    );
}

static FAULTS: [(LinkFault, &str); 3] = [
    (LinkFault::Queue, "64 messages wait for this peer"),
    (
        LinkFault::Numbers,
        "32,768 message IDs of this peer are in use",
    ),
    (LinkFault::Memory, "out of memory"),
];

#[test]
fn faults_in_words(rt: HostRuntime) {
    for (fault, words) in &FAULTS {
        check(&rt, *words, is_written(rt.alloc(), fault, words));
    }
}

fn bytes_of(alloc: Global, items: &[u8]) -> Option<Bytes> {
    let items = Vec::from_slice(alloc, items).ok()?;
    Bytes::new(alloc, items).ok()
}

/// The bytes are these, and so are those that share them.
fn shares(bytes: &Bytes, want: &[u8]) -> bool {
    match bytes.share() {
        Ok(again) => again.as_slice() == want && bytes.as_slice() == want,
        Err(_) => false,
    }
}

#[test]
fn shared_bytes(rt: HostRuntime) {
    let bytes = bytes_of(rt.alloc(), b"\x01\x02\x03").expect(&rt, "memory");
    assert!(rt; shares(&bytes, b"\x01\x02\x03"));
}
