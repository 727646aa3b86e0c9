//! Requests are read the same however their bytes are cut.

use crate::http::{filled, reads, reads_by};
use crate::telling::check;
use std::alloc::{AllocError, Global};
use std::ops::Range;

/// The text is read so at every cut into two pieces.
fn reads_in_two(alloc: Global, text: &[u8], want: &[u8]) -> bool {
    for at in 0..text.len() {
        let (front, back) = text.split_at(at);
        if !reads(alloc, &[front, back], want) {
            return false;
        }
    }
    true
}

/// The text is read so at every cut into two pieces, and byte by byte.
fn reads_cut(alloc: Global, text: &[u8], want: &[u8]) -> bool {
    reads_in_two(alloc, text, want) && reads_by(alloc, &[text], 1, want)
}

/// What is given of a text, however it is cut.
static READ: [(&[u8], &[u8]); 9] = [
    (b"HEAD /a HTTP/1.1\r\nHost: p\r\n\r\n", b"[HEAD /a ]"),
    (b"\r\n\nGET /a HTTP/1.1\nhOST: p\n\n", b"[GET /a ]"),
    (
        b"GET /a HTTP/1.0\r\n\r\nGET /b HTTP/1.1\r\nHost: p\r\n\r\n",
        b"[GET /a !]",
    ),
    (
        b"GET /a HTTP/1.1\r\nHost: p\r\nConnection: x ,\tCLOSE\r\n\r\nGET",
        b"[GET /a !]",
    ),
    (
        b"GET /a HTTP/1.1\r\nHost: p\r\nConnection: closed, clo se\r\n\r\n",
        b"[GET /a ]",
    ),
    (
        b"GET /a HTTP/1.1\r\n\r\nGET /b HTTP/1.1\r\nHost: p\r\n\r\n",
        b"[400]",
    ),
    (b"GET /a HTTP/1.1\r\nHost: p\r\nHost: p\r\n\r\n", b"[400]"),
    (
        b"GET /a HTTP/1.1\r\nHost: p\r\nA: b\r\n c\r\n\r\n",
        b"[400]",
    ),
    (
        b"POST /a HTTP/1.1\r\nHost: p\r\nContent-Length: 3\r\n\r\nabcPUT /b HTTP/1.1\r\nhost: q\r\nTransfer-Encoding: Chunked\r\n\r\n4;x=\"y\" \r\nWiki\r\n005\t\r\npedia\r\n0\r\nExpires: never\r\n\r\nGET /c HTTP/1.1\r\nHost: p\r\n\r\nGET /d",
        b"[POST /a abc][PUT /b Wikipedia][GET /c ]",
    ),
];

#[test]
fn cut_once(rt: HostRuntime) {
    for &(text, want) in &READ {
        check(&rt, want, reads_cut(rt.alloc(), text, want));
    }
}

/// The text is read so at each pair of cuts outside the range.
fn reads_in_three(alloc: Global, text: &[u8], range: Range<usize>, want: &[u8]) -> bool {
    for first in 0..text.len() {
        for second in first..text.len() {
            if !range.contains(&first) && !range.contains(&second) {
                let pieces = [&text[..first], &text[first..second], &text[second..]];
                if !reads(alloc, &pieces, want) {
                    return false;
                }
            }
        }
    }
    true
}

/// What is given of a text, however it is cut into three.
static READ_IN_THREE: [(&[u8], &[u8]); 4] = [
    (
        b"GET /light HTTP/1.1\r\nHost: p\r\n\r\nGET /light HTTP/1.1\r\nHost: p\r\n\r\n",
        b"[GET /light ][GET /light ]",
    ),
    (
        b"PUT /light HTTP/1.1\r\nHost: p\r\nContent-Length: 3\r\n\r\noff",
        b"[PUT /light off]",
    ),
    (
        b"PUT /light HTTP/1.1\r\nHost: p\r\nTransfer-Encoding: chunked\r\n\r\n3\r\noff\r\n0\r\n\r\n",
        b"[PUT /light off]",
    ),
    (
        b"PUT /light HTTP/1.1\r\nHost: p\r\nTransfer-Encoding: chunked\r\nContent-Length: 3\r\n\r\noff",
        b"[400]",
    ),
];

#[test]
fn cut_twice(rt: HostRuntime) {
    for &(text, want) in &READ_IN_THREE {
        check(&rt, want, reads_in_three(rt.alloc(), text, 0..0, want));
    }
}

/// The client is told to go on at each pair of cuts of which one lies after the head.
fn continues(alloc: Global, text: &[u8], head: usize) -> bool {
    for first in 0..text.len() {
        for second in first..text.len() {
            let pieces = [&text[..first], &text[first..second], &text[second..]];
            let want: &[u8] = if second >= head {
                b"[?][PUT /light off]"
            } else {
                b"[PUT /light off]"
            };
            if !reads(alloc, &pieces, want) {
                return false;
            }
        }
    }
    true
}

/// The client is told to go on where a piece ends after the head and before the body's end.
#[test]
fn cuts_that_continue(rt: HostRuntime) {
    let text =
        b"PUT /light HTTP/1.1\r\nHost: p\r\nExpect: 100-continue\r\nContent-Length: 3\r\n\r\noff";
    assert!(rt; continues(rt.alloc(), text, text.len() - 3));
}

/// How many equal bytes a chunk has in its line, and what is read: a line of 256 bytes is read, and
/// one of 257 is refused.
static CHUNK_LINES: [(usize, &[u8]); 2] = [(252, b"[PUT /light off]"), (253, b"[400]")];

/// This is read of the chunk. The cuts in the midst of the equal bytes are left out.
fn reads_line(alloc: Global, count: usize, want: &[u8]) -> bool {
    let head = b"PUT /light HTTP/1.1\r\nHost: p\r\nTransfer-Encoding: chunked\r\n\r\n3;";
    match filled(alloc, head, b"a", count, b"\r\noff\r\n0\r\n\r\n") {
        Ok(text) => reads_in_three(alloc, &text, 80..300, want),
        Err(AllocError) => false,
    }
}

#[test]
fn cuts_in_a_chunk_line(rt: HostRuntime) {
    for &(count, want) in &CHUNK_LINES {
        check(&rt, count, reads_line(rt.alloc(), count, want));
    }
}
