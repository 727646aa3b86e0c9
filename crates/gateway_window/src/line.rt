//! The line of an answer.

ghost use Rattle.std.specs.Prelude.{◌≤◌, ◌≢◌, ◌↔◌, IsTrue};

use crate::given::Given;
use http_edge::Incoming;
use journal_book::Grounds;
use std::fmt;
use std::net::SocketAddr;

/// How many characters of a method a line has at most.
const LONGEST_METHOD: u64 = 32;

/// How many characters of a target a line has at most. A line of up to 1,024 bytes is written in
/// one piece, so that lines of several threads do not mix.
const LONGEST_TARGET: u64 = 750;

/// The line of an answer.
#[derive(Drop)]
pub struct Line<'a> {
    pub client: SocketAddr,
    pub conn: u32,
    /// how long the request was in hand, in milliseconds
    pub time: u64,
    pub given: Given<'a>,
}

impl fmt::Display for Line<'_> {
    fn fmt<W: fmt::Write>(&self, f: &mut fmt::Formatter<W>) -> fmt::Result {
        let Given {
            came,
            peer: _,
            grounds,
            status,
            cause,
            count,
        } = self.given;
        write!(f, "{} {} ", self.client, self.conn)?;
        write_request(f, came)?;
        write!(f, " {status} ")?;
        write_cause(f, cause)?;
        write!(f, " {} ", self.time)?;
        match count {
            Some(count) => write!(f, "{count}")?,
            None => f.write_str("-")?,
        }
        f.write_str(origin_of(cause, grounds))
    }
}

/// Writes the method and the target, or that there are none.
fn write_request<W: fmt::Write>(f: &mut fmt::Formatter<W>, came: &Incoming) -> fmt::Result {
    match came {
        Incoming::Request(request) => {
            write_escaped(f, &request.method, LONGEST_METHOD)?;
            f.write_str(" ")?;
            write_escaped(f, &request.target, LONGEST_TARGET)
        }
        Incoming::Bad(_) => f.write_str("- -"),
    }
}

/// Writes the bytes in at most `most` characters: a byte that is not plain as `\xHH`, and `..`
/// where some are left out.
fn write_escaped<W: fmt::Write>(f: &mut fmt::Formatter<W>, bytes: &[u8], most: u64) -> fmt::Result {
    let mut left = most;
    'each: for byte in bytes {
        let size = if is_plain(*byte) { 1 } else { 4 };
        if left < size {
            return f.write_str("..");
        }
        left -= size;
        if size == 1 {
            f.write_char(*byte as char)?;
        } else {
            write!(f, "\\x{byte:02X}")?;
        }
    }
    Ok(())
}

/// Whether a byte is written as it is: printable ASCII other than the space, the quote and the
/// backslash.
fn is_plain(byte: u8) -> bool
    ensures { IsTrue result ↔ ((33 ≤ byte) × (byte ≤ 126) × (byte ≢ 34) × (byte ≢ 92)) }
{
    byte > 32 && byte < 127 && byte != b'"' && byte != b'\\'
}

/// Writes a cause and its entry, with a colon between them.
fn write_cause<W: fmt::Write>(f: &mut fmt::Formatter<W>, cause: Option<&[u8]>) -> fmt::Result {
    let Some(cause) = cause else {
        return f.write_str("-");
    };
    'each: for byte in cause {
        f.write_char(if *byte == b' ' { ':' } else { *byte as char })?;
    }
    Ok(())
}

/// Where the answer comes from: a device that was asked for it (`live`), a stored response
/// (`kept`), or the gateway itself (`own`).
fn origin_of(cause: Option<&[u8]>, grounds: &Grounds) -> &'static str {
    match grounds {
        Grounds::Live(_) if cause.is_none() => " live",
        Grounds::Kept(_) if cause.is_none() => " kept",
        _ => " own",
    }
}
