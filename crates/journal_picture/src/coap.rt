//! A datagram in words.

use crate::label::{Label, bytes_of, write_beginning, write_quoted};
use crate::page::Page;
use coap_codec::{
    CodecFault, Message, MsgType, Opt, block_of, decode, definition, number, uint_of,
};
use media_map::media_of;
use std::alloc::{AllocError, Global};
use std::str::from_utf8;

/// Writes what the message in these digits says: its type, code, payload, message ID, token and
/// options.
pub(crate) fn write_message(
    label: &mut Label<'_>,
    alloc: Global,
    digits: &str,
) -> Result<(), AllocError> {
    let bytes = bytes_of(alloc, digits)?;
    match decode(alloc, &bytes) {
        Ok(message) => write_decoded(label, alloc, &message),
        Err(CodecFault::Memory) => Err(AllocError),
        Err(_) => {
            label.head.bytes(bytes.len() as u64)?;
            label.head.words(if bytes.len() == 1 {
                " that is no message"
            } else {
                " that are no message"
            })
        }
    }
}

/// Writes what the message says. For a copy the number of the first equal entry stands in place of
/// its token and options.
fn write_decoded(
    label: &mut Label<'_>,
    alloc: Global,
    message: &Message,
) -> Result<(), AllocError> {
    label.head.element("tspan", "bold", ">", &[])?;
    label.head.words(kind_of(message.kind))?;
    write_code(&mut label.head, message.code)?;
    label.head.markup("</tspan>")?;
    write_payload(&mut label.head, &message.payload)?;
    label.under.told("ID {}", &[u64::from(message.mid)])?;
    if let Some(number) = label.row.first() {
        label.under.words(", the same bytes as ")?;
        return label.under.link(number);
    }
    if !message.token.as_slice().is_empty() {
        label.under.words(", token ")?;
        label.under.hex(message.token.as_slice())?;
    }
    write_options(&mut label.options, alloc, message.options.as_slice())
}

/// How many characters of options are told before the rest is left out.
const TOLD: u64 = 120;

/// Writes options, each by its name and its value.
fn write_options(page: &mut Page, alloc: Global, options: &[Opt]) -> Result<(), AllocError> {
    'each: for option in options {
        if page.columns() > TOLD {
            return page.words(", …");
        }
        if page.columns() > 0 {
            page.words(", ")?;
        }
        write_name(page, option.number)?;
        page.words(" ")?;
        write_value(page, alloc, option.number, &option.value)?;
    }
    Ok(())
}

/// The type of a message (RFC 7252, section 3).
fn kind_of(kind: MsgType) -> &'static str {
    match kind {
        MsgType::Con => "CON ",
        MsgType::Non => "NON ",
        MsgType::Ack => "ACK ",
        MsgType::Rst => "RST ",
    }
}

/// Writes a code as `2.05 Content`.
fn write_code(page: &mut Page, code: u8) -> Result<(), AllocError> {
    let (class, detail) = (code / 32, code % 32);
    let digits = [
        u64::from(class),
        u64::from(detail / 10),
        u64::from(detail % 10),
    ];
    page.told("{}.{}{}", &digits)?;
    page.words(name_of(class, detail))
}

/// The name of a code (RFC 7252, section 12.1, and RFC 7959, section 2.9).
fn name_of(class: u8, detail: u8) -> &'static str {
    match (class, detail) {
        (0, 0) => " Empty",
        (0, 1) => " GET",
        (0, 2) => " POST",
        (0, 3) => " PUT",
        (0, 4) => " DELETE",
        (2, 1) => " Created",
        (2, 2) => " Deleted",
        (2, 3) => " Valid",
        (2, 4) => " Changed",
        (2, 5) => " Content",
        (2, 31) => " Continue",
        (4, 0) => " Bad Request",
        (4, 1) => " Unauthorized",
        (4, 2) => " Bad Option",
        (4, 3) => " Forbidden",
        (4, 4) => " Not Found",
        (4, 5) => " Method Not Allowed",
        (4, 6) => " Not Acceptable",
        (4, 8) => " Request Entity Incomplete",
        (4, 12) => " Precondition Failed",
        (4, 13) => " Request Entity Too Large",
        (4, 15) => " Unsupported Content-Format",
        (5, 0) => " Internal Server Error",
        (5, 1) => " Not Implemented",
        (5, 2) => " Bad Gateway",
        (5, 3) => " Service Unavailable",
        (5, 4) => " Gateway Timeout",
        (5, 5) => " Proxying Not Supported",
        _ => "",
    }
}

/// Writes the name of the option of that number.
fn write_name(page: &mut Page, of: u16) -> Result<(), AllocError> {
    match definition(of) {
        Some(row) => page.shown(row.name),
        None => page.told("option {}", &[u64::from(of)]),
    }
}

/// Writes the value of an option of that number: a text, a media type, a number or digits.
fn write_value(page: &mut Page, alloc: Global, of: u16, value: &[u8]) -> Result<(), AllocError> {
    match of {
        number::URI_HOST
        | number::URI_PATH
        | number::URI_QUERY
        | number::LOCATION_PATH
        | number::LOCATION_QUERY
        | number::PROXY_URI
        | number::PROXY_SCHEME => write_text(page, value),
        number::CONTENT_FORMAT | number::ACCEPT => write_format(page, alloc, value),
        number::BLOCK1 | number::BLOCK2 => write_block(page, value),
        number::URI_PORT | number::MAX_AGE | number::OBSERVE | number::SIZE1 | number::SIZE2
            if value.len() <= 4 => page.shown(uint_of(value)),
        _ => write_digits(page, value),
    }
}

/// Writes a text, or digits where it is none.
fn write_text(page: &mut Page, value: &[u8]) -> Result<(), AllocError> {
    match from_utf8(value) {
        Ok(text) => write_beginning(page, text),
        Err(_) => write_digits(page, value),
    }
}

/// The most bytes that are shown in digits.
const DIGITS: usize = 24;

/// Writes bytes in digits, or of many the first.
fn write_digits(page: &mut Page, value: &[u8]) -> Result<(), AllocError> {
    match value.split_at_checked(DIGITS) {
        Some((beginning, rest)) if !rest.is_empty() => {
            page.hex(beginning)?;
            page.words("…")
        }
        _ => page.hex(value),
    }
}

/// Writes the media type of a content format.
fn write_format(page: &mut Page, alloc: Global, value: &[u8]) -> Result<(), AllocError> {
    if value.len() > 4 {
        return write_digits(page, value);
    }
    match u16::try_from(uint_of(value)) {
        Ok(format) => page.shown(media_of(alloc, format)?),
        Err(_) => write_digits(page, value),
    }
}

/// Writes the number of a block, whether more follow, and its size (RFC 7959, section 2.2).
fn write_block(page: &mut Page, value: &[u8]) -> Result<(), AllocError> {
    match block_of(value) {
        Some(block) if block.szx < 7 => page.told(
            if block.more {
                "{} more {}"
            } else {
                "{} last {}"
            },
            &[u64::from(block.num), block.size() as u64],
        ),
        _ => write_digits(page, value),
    }
}

/// Writes a payload: a text, or the beginning of a long one; for anything else the number of bytes.
fn write_payload(page: &mut Page, payload: &[u8]) -> Result<(), AllocError> {
    match from_utf8(payload) {
        Ok(text) => write_quoted(page, text),
        Err(_) => {
            page.words(", ")?;
            page.bytes(payload.len() as u64)
        }
    }
}
