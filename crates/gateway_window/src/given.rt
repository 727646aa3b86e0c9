//! An answer that a client was given.

ghost use Rattle.std.specs.Prelude.{◌≡◌, ◌≤◌, ◌+◌};

use http_edge::Incoming;
use journal_book::Grounds;
use uri_map::Peer;

/// What begins the second line of an answer of the gateway's own, before the cause.
const CAUSE_LINE: &[u8] = b"\r\nHC-Cause: ";

/// How many bytes of an answer come before its status: `HTTP/1.1` and a space (RFC 9112 section 4).
const BEFORE_STATUS: usize = 9;

/// An answer that a client was given.
#[derive(Clone, Copy)]
pub struct Given<'a> {
    /// what was asked
    pub came: &'a Incoming,
    /// the device that was to be asked, unless the request was refused
    pub peer: Option<Peer>,
    /// what the answer rests on
    pub grounds: &'a Grounds,
    pub status: u16,
    /// what it has of a cause of the gateway's own
    pub cause: Option<&'a [u8]>,
    /// how many bytes it has; None where it couldn't be written
    pub count: Option<usize>,
}

/// What an answer says first.
#[derive(Clone, Copy)]
pub struct Heading<'a> {
    pub status: u16,
    /// a cause of the gateway's own
    pub cause: Option<&'a [u8]>,
}

/// What the bytes of an answer say first, of which those of its head suffice: 0 for a status that
/// is no three digits.
pub fn heading_of(head: &[u8]) -> Heading<'_> {
    Heading {
        status: status_in(head),
        cause: cause_in(head),
    }
}

/// The cause of the gateway's own, if there is one: no field stands before it.
fn cause_in(head: &[u8]) -> Option<&[u8]> {
    let fields = head.get(line_of(head).len()..)?;
    Some(line_of(fields.strip_prefix(CAUSE_LINE)?))
}

/// What comes before the end of the line.
fn line_of(bytes: &[u8]) -> &[u8] {
    'each: for (at, byte) in bytes.iter().enumerate() {
        if *byte == b'\r' {
            return &bytes[..at];
        }
    }
    bytes
}

/// The three digits of the status, as a number; 0 where the head is too short, and for what is no
/// digit.
fn status_in(head: &[u8]) -> u16 {
    match head.get(BEFORE_STATUS..BEFORE_STATUS + 3) {
        Some([a, b, c]) => digit(*a) * 100 + digit(*b) * 10 + digit(*c),
        _ => 0,
    }
}

/// The digit that this byte spells.
fn digit(byte: u8) -> u16
    ensures least { result ≤ 9 }
    ensures spelled { 48 ≤ byte → byte ≤ 57 → byte ≡ 48 + result }
{
    match byte {
        b'0'..=b'9' => u16::from(byte - b'0'),
        _ => 0,
    }
}
