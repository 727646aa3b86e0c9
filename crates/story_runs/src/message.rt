//! A message of CoAP in words.

use crate::telling::{write_escaped, write_quoted};
use crate::untold::{Untold, written};
use coap_codec::{CodecFault, Message, MsgType, block_of, decode, number};
use std::alloc::Global;
use std::io::Write;

/// The most bytes of a payload that are told.
const TOLD: usize = 60;

/// The least code of a response (RFC 7252, section 5.9).
const FIRST_RESPONSE: u8 = 64;

/// Tells what a datagram says, and ends the line.
pub(crate) fn write_message<W: Write>(
    alloc: Global,
    writer: &mut W,
    datagram: &[u8],
) -> Result<(), Untold> {
    match decode(alloc, datagram) {
        Ok(message) => write_decoded(alloc, writer, &message),
        Err(CodecFault::Memory) => Err(Untold::Memory),
        Err(_) => {
            let count = datagram.len();
            written(writeln!(writer, "{count} bytes that are no message"))
        }
    }
}

fn write_decoded<W: Write>(alloc: Global, writer: &mut W, message: &Message) -> Result<(), Untold> {
    let kind = match message.kind {
        MsgType::Con => "CON",
        MsgType::Non => "NON",
        MsgType::Ack => "ACK",
        MsgType::Rst => "RST",
    };
    written(write!(writer, "{kind}"))?;
    write_code(alloc, writer, message)?;
    write_pieces(writer, message)?;
    write_payload(alloc, writer, &message.payload)?;
    let mid = message.mid;
    written(write!(writer, ", message ID {mid}"))?;
    if !message.token.as_slice().is_empty() {
        let token = hex::encode(alloc, message.token.as_slice())?;
        written(write!(writer, ", token {token}"))?;
    }
    written(writeln!(writer, ""))
}

/// Tells a request by its method and its path, and everything else by its code.
fn write_code<W: Write>(alloc: Global, writer: &mut W, message: &Message) -> Result<(), Untold> {
    let method = match message.code {
        1 => "GET",
        2 => "POST",
        3 => "PUT",
        4 => "DELETE",
        code => {
            let (class, detail) = (code / 32, code % 32);
            return written(write!(writer, " {class}.{detail:02}"));
        }
    };
    written(write!(writer, " {method} "))?;
    let path = message
        .options
        .as_slice()
        .iter()
        .filter(|o| o.number == number::URI_PATH);
    for (place, option) in path.enumerate() {
        if place > 0 {
            written(write!(writer, "/"))?;
        }
        write_escaped(alloc, writer, &option.value)?;
    }
    Ok(())
}

/// Tells of a body in pieces (RFC 7959): which one a request brings and the answer to it has got.
/// And of a state in pieces: which one a request asks for and the answer to it brings.
fn write_pieces<W: Write>(writer: &mut W, message: &Message) -> Result<(), Untold> {
    let is_request = message.code < FIRST_RESPONSE;
    for option in message.options.as_slice() {
        if option.number == number::BLOCK1 {
            write_piece(writer, &option.value, is_request, "got", "the body")?;
        }
        if option.number == number::BLOCK2 {
            write_piece(writer, &option.value, !is_request, "asks for", "the state")?;
        }
    }
    Ok(())
}

/// Tells which piece a message brings, or else what it says of which piece.
fn write_piece<W: Write>(
    writer: &mut W,
    value: &[u8],
    brings: bool,
    says: &str,
    whole: &str,
) -> Result<(), Untold> {
    let Some(block) = block_of(value) else {
        return Ok(());
    };
    let num = block.num;
    if !brings {
        return written(write!(writer, ", {says} piece {num} of {whole}"));
    }
    if block.more {
        return written(write!(writer, ", piece {num} of {whole}"));
    }
    written(write!(writer, ", last piece {num} of {whole}"))
}

fn write_payload<W: Write>(alloc: Global, writer: &mut W, payload: &[u8]) -> Result<(), Untold> {
    if payload.is_empty() {
        return Ok(());
    }
    written(write!(writer, ", "))?;
    if payload.len() <= TOLD {
        return write_quoted(alloc, writer, payload);
    }
    let count = payload.len();
    written(write!(writer, "{count} bytes"))
}
