//! What happens in a step, in words.

use crate::book::Step;
use crate::message::write_message;
use crate::untold::{Untold, written};
use command_line::{Event, StoryTurn};
use demo_origin::{Method, Segments};
use gateway_world::RotateFault;
use std::alloc::Global;
use std::io::Write;
use story_laws::LONGEST_WAY;
use three_parties::{Behaviour, Execution, Flight, Output, Sent, Stage, device_peer, proxy_peer};
use transformers::Relation;
use uri_map::is_same_peer;

/// How much had come of the steps before one.
#[derive(Clone, Copy)]
pub(crate) struct Before {
    outputs: usize,
    flights: usize,
    taken: usize,
}

impl Before {
    /// How much has come so far.
    pub(crate) fn now<R: Relation, H: Behaviour>(stage: &Stage<R, H>) -> Before {
        Before {
            outputs: stage.outputs.len(),
            flights: stage.flights.len(),
            taken: stage.taken.len(),
        }
    }
}

/// Tells of a step, before which so much had come: what it was, and what came of it.
pub(crate) fn tell_step<R: Relation, H: Behaviour, W: Write>(
    alloc: Global,
    writer: &mut W,
    stage: &Stage<R, H>,
    before: Before,
    step: &Step,
) -> Result<(), Untold> {
    let moment = stage.moment;
    written(write!(writer, "{moment:>8}  "))?;
    tell_turn(alloc, writer, stage, before, &step.turn)?;
    for output in stage.outputs.iter().skip(before.outputs) {
        tell_output(alloc, writer, output)?;
    }
    for execution in stage.taken.iter().skip(before.taken) {
        tell_execution(alloc, writer, execution)?;
    }
    for (number, flight) in stage.flights.iter().enumerate().skip(before.flights) {
        tell_flight(alloc, writer, number, flight)?;
    }
    Ok(())
}

/// Tells what a step was.
fn tell_turn<R: Relation, H: Behaviour, W: Write>(
    alloc: Global,
    writer: &mut W,
    stage: &Stage<R, H>,
    before: Before,
    turn: &StoryTurn,
) -> Result<(), Untold> {
    match turn {
        StoryTurn::Gateway(event) => tell_event(alloc, writer, event),
        StoryTurn::Device => written(writeln!(writer, "the device looks at its timers")),
        StoryTurn::Both => written(writeln!(writer, "both look at their timers")),
        StoryTurn::Deliver(number) => {
            let sent = stage.flights.as_slice().get(*number);
            let sent = if *number < before.flights { sent } else { None };
            tell_delivery(writer, stage.moment, *number, sent)
        }
    }
}

/// Tells what happens to the gateway.
fn tell_event<W: Write>(alloc: Global, writer: &mut W, event: &Event) -> Result<(), Untold> {
    match event {
        Event::Open => written(writeln!(writer, "a client connects")),
        Event::Bytes(connection, bytes) => {
            written(write!(writer, "client {connection} sends "))?;
            write_quoted(alloc, writer, bytes)?;
            written(writeln!(writer, ""))
        }
        Event::Datagram(peer, _) => written(writeln!(writer, "a datagram of {peer} is lost")),
        Event::Tick => written(writeln!(writer, "the gateway looks at its timers")),
        Event::Close(connection) => written(writeln!(writer, "client {connection} goes away")),
        Event::Rotate => written(writeln!(writer, "the gateway's journal is asked for")),
    }
}

/// Tells where the network brings a datagram.
fn tell_delivery<W: Write>(
    writer: &mut W,
    moment: u64,
    number: usize,
    flight: Option<&Flight>,
) -> Result<(), Untold> {
    let Some(flight) = flight else {
        return written(writeln!(writer, "no datagram {number} was sent"));
    };
    if moment.saturating_sub(flight.moment) > LONGEST_WAY {
        return written(writeln!(writer, "datagram {number} is lost: after 100 seconds"));
    }
    let to = match &flight.sent {
        Sent::Proxy(datagram) if is_same_peer(&datagram.peer, &device_peer()) => "the device",
        Sent::Device(datagram) if is_same_peer(&datagram.peer, &proxy_peer()) => "the gateway",
        _ => "nobody here",
    };
    written(writeln!(writer, "datagram {number} comes to {to}"))
}

/// What stands before what comes of a step.
const INDENT: &str = "            ";

/// Tells what the gateway gave out, unless that is a datagram.
fn tell_output<R: Relation, W: Write>(
    alloc: Global,
    writer: &mut W,
    output: &Output<R>,
) -> Result<(), Untold> {
    match output {
        Output::Bytes(connection, bytes) => {
            written(write!(writer, "{INDENT}client {connection} is told "))?;
            write_quoted(alloc, writer, bytes)?;
            written(writeln!(writer, ""))
        }
        Output::Datagram(_) => Ok(()),
        Output::Closed(connection) => written(writeln!(
            writer,
            "{INDENT}the gateway closes the connection of client {connection}"
        )),
        Output::GivenUp(connection) => written(writeln!(
            writer,
            "{INDENT}the gateway gives up the connection of client {connection}"
        )),
        Output::Turned => written(writeln!(writer, "{INDENT}the gateway turns the client away")),
        Output::Rotated(journal) => {
            let count = journal.len();
            written(writeln!(
                writer,
                "{INDENT}the gateway gives a journal of {count} entries out, and begins a new one"
            ))
        }
        Output::Unrotated(fault) => {
            let reason = reason_of(*fault);
            written(writeln!(writer, "{INDENT}the gateway keeps it: {reason}"))
        }
    }
}

/// Why a journal isn't given out.
fn reason_of(fault: RotateFault) -> &'static str {
    match fault {
        RotateFault::Unsealed => "it isn't full",
        RotateFault::Given => "its beginning was given out",
        RotateFault::Connected => "a client is connected",
        RotateFault::Exchanging => "a request isn't over",
        RotateFault::Spent => "too few numbers are left",
        RotateFault::Crowded => "too much of it has to be remembered",
        RotateFault::Memory => "out of memory",
    }
}

/// Tells what the device executed.
fn tell_execution<W: Write>(
    alloc: Global,
    writer: &mut W,
    execution: &Execution,
) -> Result<(), Untold> {
    let taken = &execution.taken;
    let method = match taken.method {
        Method::Post => "POST",
        Method::Put => "PUT",
        Method::Delete => "DELETE",
    };
    written(write!(writer, "{INDENT}the device executes {method} "))?;
    write_path(alloc, writer, &taken.path)?;
    written(write!(writer, ": "))?;
    write_quoted(alloc, writer, taken.before.as_slice())?;
    written(write!(writer, " becomes "))?;
    write_quoted(alloc, writer, taken.after.as_slice())?;
    let (class, detail) = (taken.code / 32, taken.code % 32);
    written(writeln!(writer, ", {class}.{detail:02}"))
}

/// Tells of a datagram that is sent.
fn tell_flight<W: Write>(
    alloc: Global,
    writer: &mut W,
    number: usize,
    flight: &Flight,
) -> Result<(), Untold> {
    match &flight.sent {
        Sent::Proxy(datagram) => {
            written(write!(writer, "{INDENT}the gateway sends datagram {number}"))?;
            if !is_same_peer(&datagram.peer, &device_peer()) {
                let peer = datagram.peer;
                written(write!(writer, " to {peer}"))?;
            }
            written(write!(writer, ": "))?;
            write_message(alloc, writer, datagram.bytes.as_slice())
        }
        Sent::Device(datagram) => {
            written(write!(writer, "{INDENT}the device sends datagram {number}: "))?;
            write_message(alloc, writer, datagram.bytes.as_slice())
        }
    }
}

/// Tells what the device's resources hold at the end.
pub(crate) fn tell_end<R: Relation, H: Behaviour, W: Write>(
    alloc: Global,
    writer: &mut W,
    stage: &Stage<R, H>,
) -> Result<(), Untold> {
    for held in &stage.origin.state.resources {
        written(write!(writer, "at the end "))?;
        write_path(alloc, writer, &held.path)?;
        written(write!(writer, " holds "))?;
        write_quoted(alloc, writer, held.state.as_slice())?;
        written(writeln!(writer, ""))?;
    }
    written(writer.flush())
}

/// Writes a path, with slashes between its segments.
fn write_path<W: Write>(alloc: Global, writer: &mut W, path: &Segments) -> Result<(), Untold> {
    for (place, segment) in path.as_slice().iter().enumerate() {
        if place > 0 {
            written(write!(writer, "/"))?;
        }
        write_escaped(alloc, writer, segment.as_slice())?;
    }
    Ok(())
}

/// Writes bytes in quotes.
pub(crate) fn write_quoted<W: Write>(
    alloc: Global,
    writer: &mut W,
    bytes: &[u8],
) -> Result<(), Untold> {
    written(write!(writer, "\""))?;
    write_escaped(alloc, writer, bytes)?;
    written(write!(writer, "\""))
}

/// Writes bytes: printed characters of ASCII as they are, others by their number.
pub(crate) fn write_escaped<W: Write>(
    alloc: Global,
    writer: &mut W,
    bytes: &[u8],
) -> Result<(), Untold> {
    let text: Vec<u8> = bytes.escape_ascii().collect(alloc)?;
    written(writer.write_all(&text))
}
