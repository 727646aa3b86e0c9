//! Responses with pieces.

use coap_codec::{CodecFault, Message, MsgType, Opt, Token};
use std::alloc::Global;

/// The codes of the responses: 2.04, 2.05, 2.31, 4.08 and 4.13.
pub const CHANGED: u8 = 68;

pub const CONTENT: u8 = 69;

pub const CONTINUE: u8 = 95;

pub const INCOMPLETE: u8 = 136;

pub const TOO_LARGE: u8 = 141;

/// The byte at that place of a text of which no two pieces are equal.
fn byte_at(place: usize) -> u8 {
    (place % 256) as u8 ^ (place / 256 % 256) as u8
}

/// So many bytes of the text from that place.
pub fn bytes_from(alloc: Global, place: usize, len: usize) -> Result<Vec<u8>, CodecFault> {
    let mut bytes = Vec::new(alloc);
    for i in 0..len {
        bytes.push(byte_at(place.wrapping_add(i)))?;
    }
    Ok(bytes)
}

/// Whether these are the first bytes of the text.
pub fn begins_text(bytes: &[u8]) -> bool {
    for (i, byte) in bytes.iter().enumerate() {
        if *byte != byte_at(i) {
            return false;
        }
    }
    true
}

/// A response with these options and this payload.
pub fn response(
    alloc: Global,
    code: u8,
    options: &[(u16, &[u8])],
    payload: Vec<u8>,
) -> Result<Message, CodecFault> {
    let mut m = Message::new(alloc, MsgType::Ack, code, 0, Token::new(&[]));
    for (number, value) in options {
        m.options.push(Opt::new(alloc, *number, value)?)?;
    }
    m.payload = payload;
    Ok(m)
}

/// A response without a payload.
pub fn empty(alloc: Global, code: u8, options: &[(u16, &[u8])]) -> Result<Message, CodecFault> {
    response(alloc, code, options, Vec::new(alloc))
}
