//! The lines of a script: `MOMENT WORD EVENT`.

ghost use Rattle.std.specs.Prelude.{◌≡◌, ◌++◌, ◌∷◌, IfSome};

use std::alloc::Global;
use std::{fmt, str};
use uri_map::{Peer, peer_at};

/// Why a line is no input.
#[derive(Clone, Copy, PartialEq, Eq)]
pub enum LineFault {
    /// It isn't `MOMENT WORD EVENT`.
    Form,
    /// It ends by CR and LF.
    CarriageReturn,
    /// A moment, a word or a connection isn't decimal, or too large.
    Number,
    /// An address with its port isn't one.
    Peer,
    /// Bytes aren't pairs of hexadecimal digits in lower case.
    Hex,
    Memory,
}

impl fmt::Display for LineFault {
    fn fmt<W: fmt::Write>(&self, f: &mut fmt::Formatter<W>) -> fmt::Result {
        f.write_str(match self {
            LineFault::Form => {
                "a line is MOMENT WORD open|tick|rotate|bytes CONN HEX|datagram PEER HEX|close CONN"
            }
            LineFault::CarriageReturn => "lines end by LF, and this one by CR and LF",
            LineFault::Number => "MOMENT and WORD are decimal below 2^64, and CONN is below 2^32",
            LineFault::Peer => {
                "PEER is an address with a port, as 192.0.2.1:5683 or [2001:db8::1]:5683"
            }
            LineFault::Hex => "HEX is pairs of the digits 0 to 9 and a to f",
            LineFault::Memory => "out of memory",
        })
    }
}

/// What happens, with the bytes that the line gives it.
#[derive(Drop)]
pub enum Event {
    /// A client wants a connection.
    Open,
    /// Bytes of the connection came in.
    Bytes(u32, Vec<u8>),
    /// A datagram came in from the endpoint.
    Datagram(Peer, Vec<u8>),
    /// Time went on.
    Tick,
    /// The client closed the connection.
    Close(u32),
    /// The sealed journal is to be given out, and a new one begun.
    Rotate,
}

/// A line of a script.
#[derive(Drop)]
pub struct Line {
    pub moment: u64,
    pub word: u64,
    pub event: Event,
}

/// Reads a line, which stands here without its line end.
pub fn line_of(alloc: Global, text: &[u8]) -> Result<Line, LineFault> {
    if text.last() == Some(&b'\r') {
        return Err(LineFault::CarriageReturn);
    }
    let (moment, rest) = first_word(text).ok_or(LineFault::Form)?;
    let (word, rest) = first_word(rest).ok_or(LineFault::Form)?;
    Ok(Line {
        moment: decimal(moment).ok_or(LineFault::Number)?,
        word: decimal(word).ok_or(LineFault::Number)?,
        event: event_of(alloc, rest)?,
    })
}

/// Reads what happens.
fn event_of(alloc: Global, text: &[u8]) -> Result<Event, LineFault> {
    match text {
        b"open" => return Ok(Event::Open),
        b"tick" => return Ok(Event::Tick),
        b"rotate" => return Ok(Event::Rotate),
        _ => {}
    }
    let (name, rest) = first_word(text).ok_or(LineFault::Form)?;
    match name {
        b"bytes" => {
            let (connection, digits) = first_word(rest).ok_or(LineFault::Form)?;
            let connection = connection_of(connection).ok_or(LineFault::Number)?;
            Ok(Event::Bytes(connection, bytes_of(alloc, digits)?))
        }
        b"datagram" => {
            let (peer, digits) = first_word(rest).ok_or(LineFault::Form)?;
            let peer = peer_at(peer).ok_or(LineFault::Peer)?;
            Ok(Event::Datagram(peer, bytes_of(alloc, digits)?))
        }
        b"close" => Ok(Event::Close(connection_of(rest).ok_or(LineFault::Number)?)),
        _ => Err(LineFault::Form),
    }
}

/// What stands before the first space, and what stands after it.
pub(crate) fn first_word(text: &[u8]) -> Option<(&[u8], &[u8])>
    ensures { IfSome result (λ p. text.now ≡ p.0.now ++ 32 ∷ p.1.now) }
{
    let end = text.iter().position(|b| *b == b' ')?;
    Some((&text[..end], &text[end + 1..]))
}

/// The number that decimal digits give.
pub(crate) fn decimal(digits: &[u8]) -> Option<u64> {
    if digits.is_empty() || !digits.iter().all(|b| b.is_ascii_digit()) {
        return None;
    }
    str::from_utf8(digits).ok()?.parse::<u64>().ok()
}

/// The number of a connection.
pub(crate) fn connection_of(digits: &[u8]) -> Option<u32> {
    u32::try_from(decimal(digits)?).ok()
}

/// The bytes that hexadecimal digits in lower case give.
pub(crate) fn bytes_of(alloc: Global, digits: &[u8]) -> Result<Vec<u8>, LineFault> {
    if digits.iter().any(|b| b.is_ascii_uppercase()) {
        return Err(LineFault::Hex);
    }
    match hex::decode(alloc, digits) {
        Ok(bytes) => Ok(bytes),
        Err(hex::FromHexError::OutOfMemory) => Err(LineFault::Memory),
        Err(_) => Err(LineFault::Hex),
    }
}
