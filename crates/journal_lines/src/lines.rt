//! The lines of entries (`docs/formats.md`, "Journal lines").

use crate::hiding::{Payloads, hidden};
use crate::unwritten::{Unwritten, written};
use http_edge::Incoming;
use journal_book::{Done, Entry, Event, Grounds, Mark};
use std::alloc::Global;
use std::io::Write;
use transformers::Relation;
use uri_map::Peer;

/// Writes `WORD PEER HEX`.
pub fn write_datagram<W: Write>(
    alloc: Global,
    writer: &mut W,
    word: &str,
    peer: Peer,
    bytes: &[u8],
) -> Result<(), Unwritten> {
    let bytes = hex::encode(alloc, bytes)?;
    written(writeln!(writer, "{word} {peer} {bytes}"))
}

/// Writes a datagram, with its payload where that is shown.
fn write_shown<W: Write>(
    alloc: Global,
    writer: &mut W,
    word: &str,
    datagram: (Peer, &[u8]),
    payloads: Payloads,
) -> Result<(), Unwritten> {
    let (peer, bytes) = datagram;
    match payloads {
        Payloads::Shown => write_datagram(alloc, writer, word, peer, bytes),
        Payloads::Hidden => {
            let bytes = hidden(alloc, bytes)?;
            write_datagram(alloc, writer, word, peer, &bytes)
        }
    }
}

/// Writes `NUMBER MOMENT` and what happened.
pub fn write_entry<R: Relation, W: Write>(
    alloc: Global,
    writer: &mut W,
    number: usize,
    entry: &Entry<R>,
    payloads: Payloads,
) -> Result<(), Unwritten> {
    let moment = entry.moment;
    written(write!(writer, "{number} {moment} "))?;
    match &entry.event {
        Event::Opened(connection) => written(writeln!(writer, "opened {connection}")),
        Event::Asked(connection, mapped) => write_asked(writer, *connection, mapped.came()),
        Event::Sent { peer, bytes, .. } => {
            write_shown(alloc, writer, "sent", (*peer, bytes.as_slice()), payloads)
        }
        Event::Heard { peer, bytes } => {
            write_shown(alloc, writer, "heard", (*peer, bytes.as_slice()), payloads)
        }
        Event::Passed => written(writeln!(writer, "passed")),
        Event::Answered { conn, ask, grounds } => {
            written(write!(writer, "answered {conn} {ask} "))?;
            write_grounds(writer, grounds)
        }
        Event::Shut(connection) => written(writeln!(writer, "shut {connection}")),
        Event::Sealed => written(writeln!(writer, "sealed")),
        Event::Carried { number, mark, done } => {
            let mark = mark_word(*mark);
            written(write!(writer, "carried {number} {mark} "))?;
            write_done(alloc, writer, done, payloads)
        }
    }
}

/// What a copy is for.
fn mark_word(mark: Mark) -> &'static str {
    match mark {
        Mark::Ground => "ground",
        Mark::Past => "past",
    }
}

/// Writes what a copy carries, as it is written of the entry that it copies.
fn write_done<R: Relation, W: Write>(
    alloc: Global,
    writer: &mut W,
    done: &Done<R>,
    payloads: Payloads,
) -> Result<(), Unwritten> {
    match done {
        Done::Asked(connection, mapped) => write_asked(writer, *connection, mapped.came()),
        Done::Sent { peer, bytes, .. } => {
            write_shown(alloc, writer, "sent", (*peer, bytes.as_slice()), payloads)
        }
        Done::Heard { peer, bytes } => {
            write_shown(alloc, writer, "heard", (*peer, bytes.as_slice()), payloads)
        }
    }
}

/// Writes `asked CONN METHOD TARGET LENGTH`, or `asked CONN bad` for bytes that are no request.
fn write_asked<W: Write>(
    writer: &mut W,
    connection: u32,
    came: &Incoming,
) -> Result<(), Unwritten> {
    written(write!(writer, "asked {connection} "))?;
    match came {
        Incoming::Bad(_) => written(writeln!(writer, "bad")),
        Incoming::Request(request) => {
            written(writer.write_all(request.method.as_slice()))?;
            written(writer.write_all(b" "))?;
            written(writer.write_all(request.target.as_slice()))?;
            let length = request.body.len();
            written(writeln!(writer, " {length}"))
        }
    }
}

/// Writes `live N,N..`, `kept N,N..` or `fault KIND N`.
fn write_grounds<W: Write>(writer: &mut W, grounds: &Grounds) -> Result<(), Unwritten> {
    match grounds {
        Grounds::Live(numbers) => write_numbers(writer, "live", numbers.as_slice()),
        Grounds::Kept(numbers) => write_numbers(writer, "kept", numbers.as_slice()),
        Grounds::Fault(cause, number) => written(writeln!(writer, "fault {cause} {number}")),
    }
}

/// Writes `WORD N,N..`.
fn write_numbers<W: Write>(writer: &mut W, word: &str, numbers: &[u32]) -> Result<(), Unwritten> {
    written(write!(writer, "{word} "))?;
    for (i, number) in numbers.iter().enumerate() {
        if i > 0 {
            written(write!(writer, ","))?;
        }
        written(write!(writer, "{number}"))?;
    }
    written(writeln!(writer))
}
