//! Requests as they are read from a connection, and answers as they are written (RFC 9112).

use crate::telling::{check, is_written};
use http_edge::{
    BadKind, Body, Edge, Field, HttpAnswer, Incoming, Memory, Request, Version, answer_bytes,
};
use std::alloc::{AllocError, Global};
use std::sync::Arc;

/// Feeds a piece. Like `next`, it passes on nothing of what the edge promises: a trial over it is
/// proved in less time.
fn feed(edge: &mut Edge, piece: &[u8]) {
    edge.feed(piece);
}

/// The next item.
fn next(edge: &mut Edge) -> Result<Option<Incoming>, Memory> {
    edge.next()
}

/// Writes these parts one after another.
fn write_parts(out: &mut Vec<u8>, parts: &[&[u8]]) -> Result<(), Memory> {
    for part in parts {
        out.extend_from_slice(part)?;
    }
    Ok(())
}

/// A request, in brackets: its method, target, body and, where it closes the connection, a `!`.
fn write_request(out: &mut Vec<u8>, request: &Request) -> Result<(), Memory> {
    let end: &[u8] = if request.close { b"!]" } else { b"]" };
    let (method, target, body) = (&request.method, &request.target, &request.body);
    write_parts(out, &[b"[", method, b" ", target, b" ", body, end])
}

/// A request, or a refusal by its status.
fn write_item(out: &mut Vec<u8>, item: &Incoming) -> Result<(), Memory> {
    match item {
        Incoming::Request(request) => write_request(out, request),
        Incoming::Bad(BadKind::Syntax) => write_parts(out, &[b"[400]"]),
        Incoming::Bad(BadKind::Large) => write_parts(out, &[b"[413]"]),
        Incoming::Bad(BadKind::Coding) => write_parts(out, &[b"[501]"]),
    }
}

/// What the edge gives next; and where nothing is left and 100 Continue is due, a `?`.
fn report_one(edge: &mut Edge, out: &mut Vec<u8>) -> Result<(), Memory> {
    match next(edge)? {
        Some(item) => write_item(out, &item),
        None if edge.wants_continue() => write_parts(out, &[b"[?]"]),
        None => Ok(()),
    }
}

/// What the edge gives, each in brackets.
fn report(edge: &mut Edge, out: &mut Vec<u8>) -> Result<(), Memory> {
    for _ in 0..4 {
        report_one(edge, out)?;
    }
    Ok(())
}

/// Feeds a piece in parts of at most so many bytes, and reports what is given after each.
fn read_on(edge: &mut Edge, out: &mut Vec<u8>, piece: &[u8], len: usize) -> Result<(), Memory> {
    for part in piece.chunks(len.max(1)) {
        feed(edge, part);
        report(edge, out)?;
    }
    Ok(())
}

/// The same for each of the pieces.
fn read_all(
    edge: &mut Edge,
    out: &mut Vec<u8>,
    pieces: &[&[u8]],
    len: usize,
) -> Result<(), Memory> {
    for piece in pieces {
        read_on(edge, out, piece, len)?;
    }
    Ok(())
}

/// What is read of the pieces by an edge of their own.
fn read_anew(alloc: Global, out: &mut Vec<u8>, pieces: &[&[u8]], len: usize) -> Result<(), Memory> {
    let mut edge = Edge::new(alloc)?;
    read_all(&mut edge, out, pieces, len)
}

/// The length of a part that fits.
const FITS: usize = 4096;

/// This is read of the pieces, each fed in parts of at most so many bytes.
pub fn reads_by(alloc: Global, pieces: &[&[u8]], len: usize, want: &[u8]) -> bool {
    let mut out = Vec::new(alloc);
    read_anew(alloc, &mut out, pieces, len).is_ok() && out.as_slice() == want
}

/// This is read of the pieces.
pub fn reads(alloc: Global, pieces: &[&[u8]], want: &[u8]) -> bool {
    reads_by(alloc, pieces, FITS, want)
}

/// What is given of a connection's bytes: how a body is framed, and lengths of 0 to 65,536 bytes.
static FRAMINGS: [(&[u8], &[u8]); 16] = [
    (
        b"PUT /a HTTP/1.1\r\nHost: p\r\nTransfer-Encoding: chunked\r\nContent-Length: 3\r\n\r\noff",
        b"[400]",
    ),
    (
        b"PUT /a HTTP/1.0\r\nTransfer-Encoding: gzip\r\n\r\n",
        b"[400]",
    ),
    (
        b"PUT /a HTTP/1.1\r\nHost: p\r\nTransfer-Encoding: gzip, chunked\r\n\r\n",
        b"[501]",
    ),
    (
        b"PUT /a HTTP/1.1\r\nHost: p\r\nTransfer-Encoding: chunked\r\nTransfer-Encoding: chunked\r\n\r\n",
        b"[501]",
    ),
    (
        b"PUT /a HTTP/1.1\r\nTransfer-Encoding: gzip\r\n\r\n",
        b"[400]",
    ),
    (
        b"PUT /a HTTP/1.1\r\nHost: p\r\nTransfer-Encoding: chunked\r\n\r\n3\r\noff0\r\n\r\n",
        b"[400]",
    ),
    (
        b"PUT /a HTTP/1.1\r\nHost: p\r\nTransfer-Encoding: chunked\r\n\r\n3\noff\r\n0\r\n\r\n",
        b"[400]",
    ),
    (
        b"PUT / HTTP/1.1\r\nHost: p\r\nContent-Length: 00\r\n\r\n",
        b"[PUT / ]",
    ),
    (
        b"PUT / HTTP/1.1\r\nHost: p\r\nContent-Length: \r\n\r\n",
        b"[400]",
    ),
    (
        b"PUT / HTTP/1.1\r\nHost: p\r\nContent-Length: +5\r\n\r\n",
        b"[400]",
    ),
    (
        b"PUT / HTTP/1.1\r\nHost: p\r\nContent-Length: 5,5\r\n\r\n",
        b"[400]",
    ),
    (
        b"PUT / HTTP/1.1\r\nHost: p\r\nContent-Length: 3\r\nContent-Length: 3\r\n\r\noff",
        b"[400]",
    ),
    (
        b"PUT / HTTP/1.1\r\nHost: p\r\nExpect: 100-Continue\r\nContent-Length: 65536\r\n\r\n",
        b"[?]",
    ),
    (
        b"PUT / HTTP/1.1\r\nHost: p\r\nExpect: 100-continue\r\nContent-Length: 65537\r\n\r\n",
        b"[413]",
    ),
    (
        b"PUT / HTTP/1.1\r\nHost: p\r\nContent-Length: 99999999999999999999999999\r\n\r\n",
        b"[413]",
    ),
    (
        b"PUT /a HTTP/1.0\r\nExpect: 100-continue\r\nContent-Length: 3\r\n\r\noff",
        b"[PUT /a off!]",
    ),
];

#[test]
fn framings(rt: HostRuntime) {
    for &(text, want) in &FRAMINGS {
        check(&rt, want, reads(rt.alloc(), &[text], want));
    }
}

/// A text in front, a part and how often it follows, what ends it, and what is given: a head has at
/// most 8,191 bytes and 64 fields, a chunk's line 256 bytes.
type LimitRow = (
    &'static [u8],
    &'static [u8],
    usize,
    &'static [u8],
    &'static [u8],
);

static LIMITS: [LimitRow; 9] = [
    (b"", b"a", 8191, b"", b""),
    (b"", b"a", 8192, b"", b"[400]"),
    (
        b"GET / HTTP/1.1\r\nHost: p\r\nA: ",
        b"a",
        8160,
        b"\r\n\r\n",
        b"[GET / ]",
    ),
    (
        b"GET / HTTP/1.1\r\nHost: p\r\nA: ",
        b"a",
        8161,
        b"\r\n\r\n",
        b"[400]",
    ),
    (
        b"GET / HTTP/1.1\r\nHost: p\r\n",
        b"a:b\r\n",
        63,
        b"\r\n",
        b"[GET / ]",
    ),
    (
        b"GET / HTTP/1.1\r\nHost: p\r\n",
        b"a:b\r\n",
        64,
        b"",
        b"[400]",
    ),
    (
        b"PUT /a HTTP/1.1\r\nHost: p\r\nTransfer-Encoding: chunked\r\n\r\n3;",
        b"a",
        252,
        b"\r\noff\r\n0\r\n\r\n",
        b"[PUT /a off]",
    ),
    (
        b"PUT /a HTTP/1.1\r\nHost: p\r\nTransfer-Encoding: chunked\r\n\r\n3;",
        b"a",
        253,
        b"\r\noff\r\n0\r\n\r\n",
        b"[400]",
    ),
    (
        b"PUT /a HTTP/1.1\r\nHost: p\r\nTransfer-Encoding: chunked\r\n\r\n10000\r\n",
        b"a",
        65536,
        b"\r\n1\r\na\r\n0\r\n\r\n",
        b"[413]",
    ),
];

/// A text with so many equal parts in it.
pub fn filled(
    alloc: Global,
    front: &[u8],
    part: &[u8],
    count: usize,
    back: &[u8],
) -> Result<Vec<u8>, AllocError> {
    let mut text = Vec::from_slice(alloc, front)?;
    for _ in 0..count {
        text.extend_from_slice(part)?;
    }
    text.extend_from_slice(back)?;
    Ok(text)
}

fn keeps_limit(alloc: Global, row: &LimitRow) -> bool {
    let &(front, part, count, back, want) = row;
    match filled(alloc, front, part, count, back) {
        Ok(text) => reads(alloc, &[&text], want),
        Err(AllocError) => false,
    }
}

#[test]
fn limits(rt: HostRuntime) {
    for row in &LIMITS {
        check(&rt, row.2, keeps_limit(rt.alloc(), row));
    }
}

/// Reads on with a copy alone.
fn copy_reads_on(edge: &Edge, out: &mut Vec<u8>, piece: &[u8]) -> Result<(), Memory> {
    let mut copy = edge.copy()?;
    read_on(&mut copy, out, piece, FITS)
}

/// A copy reads the rest of a request, and the edge another one after a restart.
fn read_by_two(edge: &mut Edge, out: &mut Vec<u8>) -> Result<(), Memory> {
    let begun = b"PUT /a HTTP/1.1\r\nHost: p\r\nContent-Length: 3\r\n\r\nof";
    read_on(edge, out, begun, FITS)?;
    copy_reads_on(edge, out, b"f")?;
    edge.restart();
    read_on(edge, out, b"GET /b HTTP/1.1\r\nHost: p\r\n\r\n", FITS)
}

/// A copy reads on by itself, and a restart forgets what was fed.
#[test]
fn copies_and_restarts(rt: HostRuntime) {
    let mut out = Vec::new(rt.alloc());
    let mut edge = new_edge(rt.alloc()).expect(&rt, "memory");
    check(
        &rt,
        "both are read",
        read_by_two(&mut edge, &mut out).is_ok(),
    );
    check(
        &rt,
        "what is read",
        out.as_slice() == b"[PUT /a off][GET /b ]".as_slice(),
    );
}

fn count_of_accepts(request: &Request) -> usize {
    request.fields.get_all("accept").iter().count()
}

/// The request has three fields, of which two are Accepts, and this version.
fn has_three_fields(request: &Request, version: Version) -> bool {
    request.version == version && request.fields.len() == 3 && count_of_accepts(request) == 2
}

/// A copy of the request that is given has them.
fn gives_three_fields(item: &Incoming, version: Version) -> bool {
    let Incoming::Request(request) = item else {
        return false;
    };
    match request.copy() {
        Ok(copy) => has_three_fields(&copy, version),
        Err(_) => false,
    }
}

/// The edge gives it next.
fn gives_next(edge: &mut Edge, version: Version) -> bool {
    match next(edge) {
        Ok(Some(item)) => gives_three_fields(&item, version),
        _ => false,
    }
}

#[test]
fn fields_in_order(rt: HostRuntime) {
    let mut edge = new_edge(rt.alloc()).expect(&rt, "memory");
    feed(
        &mut edge,
        b"GET / HTTP/1.1\r\nAccept: a\r\nHost: p\r\nACCEPT:  b \r\n\r\n",
    );
    assert!(rt; gives_next(&mut edge, Version::Http11));
}

static FIELDS: [(&str, &str); 3] = [
    ("Content-Type", "text/plain;charset=utf-8"),
    ("Cache-Control", "max-age=60"),
    ("Content-Length", "2"),
];

fn field(alloc: Global, name: &'static str, value: &str) -> Result<Field, AllocError> {
    let value = Vec::from_slice(alloc, value.as_bytes())?;
    Ok(Field { name, value })
}

fn fields(alloc: Global) -> Result<Vec<Field>, AllocError> {
    let mut fields = Vec::new(alloc);
    for &(name, value) in &FIELDS {
        fields.push(field(alloc, name, value)?)?;
    }
    Ok(fields)
}

fn shared(alloc: Global, bytes: &[u8]) -> Result<Arc<Vec<u8>>, AllocError> {
    Ok(Arc::new(alloc, Vec::from_slice(alloc, bytes)?)?)
}

/// The bytes of a 200 with these fields and this body.
fn ok_bytes(alloc: Global, fields: Vec<Field>, body: Arc<Vec<u8>>) -> Result<Vec<u8>, Memory> {
    let answer = HttpAnswer {
        status: 200,
        phrase: "OK",
        fields,
        body: Body::Shared(body),
    };
    answer_bytes(alloc, &answer)
}

#[test]
fn answers(rt: HostRuntime) {
    let fields = fields(rt.alloc()).expect(&rt, "memory");
    let body = shared(rt.alloc(), b"on").expect(&rt, "memory");
    let bytes = ok_bytes(rt.alloc(), fields, body).expect(&rt, "memory");
    let want =
        b"HTTP/1.1 200 OK\r\nContent-Type: text/plain;charset=utf-8\r\nCache-Control: max-age=60\r\nContent-Length: 2\r\n\r\non";
    assert!(rt; bytes.as_slice() == want.as_slice());
}

static REFUSALS: [(BadKind, &str); 3] = [
    (BadKind::Syntax, "not an HTTP request"),
    (BadKind::Large, "a body above 65536 bytes"),
    (BadKind::Coding, "a transfer coding other than chunked"),
];

#[test]
fn refusals_in_words(rt: HostRuntime) {
    for (kind, words) in &REFUSALS {
        check(&rt, *words, is_written(rt.alloc(), kind, words));
    }
    check(
        &rt,
        "memory",
        is_written(rt.alloc(), &Memory, "out of memory"),
    );
}

/// The method, the target and the body of the request are these.
fn asks(request: &Request, method: &[u8], target: &[u8], body: &[u8]) -> bool {
    request.method.as_slice() == method
        && request.target.as_slice() == target
        && request.body.as_slice() == body
}

fn has_two_fields(request: &Request) -> bool {
    request.fields.len() == 2 && request.fields.contains_key("host")
}

/// What is given is this PUT, with two fields.
fn is_put(item: &Incoming, target: &[u8], body: &[u8]) -> bool {
    match item {
        Incoming::Request(request) => {
            asks(request, b"PUT", target, body) && has_two_fields(request) && !request.close
        }
        Incoming::Bad(_) => false,
    }
}

/// What is given after so many is the next of the two.
fn is_next(item: &Incoming, given: u8) -> bool {
    match given {
        0 => is_put(item, b"/a", b"off"),
        1 => is_put(item, b"/b", b"on"),
        _ => false,
    }
}

/// How many requests are given after one more call, which gives the next of the two, or nothing
/// where both are given, or is refused memory.
fn given_then(edge: &mut Edge, given: u8) -> Option<u8> {
    match next(edge) {
        Ok(Some(item)) => is_next(&item, given).then_some(given.wrapping_add(1)),
        Ok(None) => (given == 2).then_some(given),
        Err(Memory) => Some(given),
    }
}

/// An edge, though a first call is refused memory.
fn new_edge(alloc: Global) -> Result<Edge, Memory> {
    match Edge::new(alloc) {
        Ok(edge) => Ok(edge),
        Err(Memory) => Edge::new(alloc),
    }
}

/// Two requests are read whole though a call is refused memory, and made again.
#[test]
fn memory(rt: HostRuntime) {
    let mut edge = new_edge(rt.alloc()).expect(&rt, "memory");
    feed(
        &mut edge,
        b"PUT /a HTTP/1.1\r\nHost: p\r\nTransfer-Encoding: chunked\r\n\r\n3\r\noff\r\n0\r\n\r\nPUT /b HTTP/1.1\r\nHost: p\r\nContent-Length: 2\r\n\r\non",
    );
    let mut given = 0;
    // Two requests, a call that is refused, and one for which nothing is left.
    for _ in 0..4 {
        given = given_then(&mut edge, given).expect(&rt, "what is due");
    }
    assert!(rt; given == 2);
}
