//! The lines of a story: what the device has at first, and then turns, `MOMENT TURN`.

use crate::script::{Event, LineFault, bytes_of, connection_of, decimal, first_word};
use proxy_settings::{Kind, Resource};
use std::alloc::{AllocError, Global};
use std::fmt;
use uri_map::Text;

/// How many seconds a response of a story's device stays fresh.
const MAX_AGE: u32 = 60;

/// What stands before the path of a story's device in a target.
const BASE: &[u8] = b"/hc/coap://s.example.com/";

/// Why a line is none of a story.
#[derive(Clone, Copy, PartialEq, Eq)]
pub enum StoryFault {
    /// It isn't `seed NUMBER`, `cell PATH STATE`, `counter PATH STATE`, a remark or `MOMENT TURN`.
    Form,
    /// It is `MOMENT`, and then none of the turns.
    Turn,
    /// A seed, a moment, a connection or a datagram isn't decimal, or too large.
    Number,
    /// A request has a method that the gateway doesn't map.
    Method,
    /// Bytes aren't pairs of hexadecimal digits in lower case.
    Hex,
    /// It says after the first turn what the device has at first, or which words are random.
    Late,
    Memory,
}

impl fmt::Display for StoryFault {
    fn fmt<W: fmt::Write>(&self, f: &mut fmt::Formatter<W>) -> fmt::Result {
        f.write_str(match self {
            StoryFault::Form => {
                "a line is MOMENT TURN, or before the first of these seed NUMBER, cell PATH STATE or \
                 counter PATH STATE; a remark begins with #"
            }
            StoryFault::Turn => {
                "a turn is open, ask CONN METHOD PATH BODY, bytes CONN HEX, close CONN, deliver NUMBER, \
                 tick, tick gateway, tick device or rotate"
            }
            StoryFault::Number => {
                "MOMENT and NUMBER are decimal below 2^64, and CONN is below 2^32"
            }
            StoryFault::Method => "METHOD is GET, HEAD, POST, PUT or DELETE",
            StoryFault::Hex => "HEX is pairs of the digits 0 to 9 and a to f",
            StoryFault::Late => "what the device has, and the seed, stand before the first turn",
            StoryFault::Memory => "out of memory",
        })
    }
}

impl From<AllocError> for StoryFault {
    fn from(_e: AllocError) -> StoryFault {
        StoryFault::Memory
    }
}

/// What happens in a turn.
#[derive(Drop)]
pub enum StoryTurn {
    /// It happens to the gateway.
    Gateway(Event),
    /// The device looks at its timers.
    Device,
    /// The gateway looks at its timers, and then the device.
    Both,
    /// The network delivers the datagram of that number.
    Deliver(usize),
}

/// A line of a story.
#[derive(Drop)]
pub enum StoryLine {
    /// It says nothing.
    Remark,
    /// Random words come of this number.
    Seed(u64),
    /// The device has the resource.
    Resource(Resource),
    /// At the moment a turn is taken.
    Turn(u64, StoryTurn),
}

/// Reads a line of a story, which stands here without its line end.
pub fn story_line_of(alloc: Global, text: &str) -> Result<StoryLine, StoryFault> {
    if text.is_empty() || text.starts_with("#") {
        return Ok(StoryLine::Remark);
    }
    let (first, rest) = text.split_once(" ").ok_or(StoryFault::Form)?;
    match first {
        "seed" => Ok(StoryLine::Seed(number_of(rest.as_bytes())?)),
        "cell" => Ok(StoryLine::Resource(resource_of(alloc, Kind::Cell, rest)?)),
        "counter" => Ok(StoryLine::Resource(resource_of(alloc, Kind::Counter, rest)?)),
        moment => {
            let moment = decimal(moment.as_bytes()).ok_or(StoryFault::Form)?;
            Ok(StoryLine::Turn(moment, turn_of(alloc, rest.as_bytes())?))
        }
    }
}

/// Reads `PATH` or `PATH STATE`: a text that stays fresh for a minute.
fn resource_of(alloc: Global, kind: Kind, text: &str) -> Result<Resource, AllocError> {
    let (path, state) = text.split_once(" ").unwrap_or((text, ""));
    Ok(Resource {
        path: Text::copy_of(alloc, path)?,
        kind,
        state: Text::copy_of(alloc, state)?,
        format: 0,
        max_age: MAX_AGE,
    })
}

/// What stands before the first space, and what stands after it, if there is one.
fn split_of(text: &[u8]) -> (&[u8], &[u8]) {
    match first_word(text) {
        Some((word, rest)) => (word, rest),
        None => (text, b""),
    }
}

/// Reads a turn.
fn turn_of(alloc: Global, text: &[u8]) -> Result<StoryTurn, StoryFault> {
    match text {
        b"open" => return Ok(StoryTurn::Gateway(Event::Open)),
        b"rotate" => return Ok(StoryTurn::Gateway(Event::Rotate)),
        b"tick" => return Ok(StoryTurn::Both),
        b"tick gateway" => return Ok(StoryTurn::Gateway(Event::Tick)),
        b"tick device" => return Ok(StoryTurn::Device),
        _ => {}
    }
    let (name, rest) = first_word(text).ok_or(StoryFault::Turn)?;
    match name {
        b"ask" => Ok(StoryTurn::Gateway(asked(alloc, rest)?)),
        b"bytes" => Ok(StoryTurn::Gateway(handed_in(alloc, rest)?)),
        b"close" => Ok(StoryTurn::Gateway(Event::Close(connection_in(rest)?))),
        b"deliver" => match usize::try_from(number_of(rest)?) {
            Ok(number) => Ok(StoryTurn::Deliver(number)),
            Err(_) => Err(StoryFault::Number),
        },
        _ => Err(StoryFault::Turn),
    }
}

fn number_of(digits: &[u8]) -> Result<u64, StoryFault> {
    decimal(digits).ok_or(StoryFault::Number)
}

fn connection_in(digits: &[u8]) -> Result<u32, StoryFault> {
    connection_of(digits).ok_or(StoryFault::Number)
}

/// Reads `CONN HEX`.
fn handed_in(alloc: Global, text: &[u8]) -> Result<Event, StoryFault> {
    let (connection, digits) = first_word(text).ok_or(StoryFault::Turn)?;
    let connection = connection_in(connection)?;
    match bytes_of(alloc, digits) {
        Ok(bytes) => Ok(Event::Bytes(connection, bytes)),
        Err(LineFault::Memory) => Err(StoryFault::Memory),
        Err(_) => Err(StoryFault::Hex),
    }
}

/// Reads `CONN METHOD PATH` or `CONN METHOD PATH BODY`.
fn asked(alloc: Global, text: &[u8]) -> Result<Event, StoryFault> {
    let (connection, rest) = first_word(text).ok_or(StoryFault::Turn)?;
    let connection = connection_in(connection)?;
    let (method, rest) = first_word(rest).ok_or(StoryFault::Turn)?;
    if !matches!(method, b"GET" | b"HEAD" | b"POST" | b"PUT" | b"DELETE") {
        return Err(StoryFault::Method);
    }
    let (path, body) = split_of(rest);
    Ok(Event::Bytes(connection, request_to(alloc, method, path, body)?))
}

/// The HTTP request for the path of the device, with this body, if it has any.
fn request_to(
    alloc: Global,
    method: &[u8],
    path: &[u8],
    body: &[u8],
) -> Result<Vec<u8>, AllocError> {
    let mut request = Vec::from_slice(alloc, method)?;
    request.push(b' ')?;
    request.extend_from_slice(BASE)?;
    request.extend_from_slice(path)?;
    request.extend_from_slice(b" HTTP/1.1\r\nHost: gateway\r\n")?;
    if !body.is_empty() {
        let length = format!(in alloc; "Content-Length: {}\r\n", body.len())?;
        request.extend_from_slice(length.as_bytes())?;
    }
    request.extend_from_slice(b"\r\n")?;
    request.extend_from_slice(body)?;
    Ok(request)
}
