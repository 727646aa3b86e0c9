//! What a row says.

use crate::coap::write_message;
use crate::entry::{Answer, Event, Grounds, Request, decimal};
use crate::journal::Row;
use crate::page::Page;
use std::alloc::{AllocError, Global};
use std::str::from_utf8;

/// A row, and its words in the parts that have places of their own.
#[derive(Drop)]
pub(crate) struct Label<'a> {
    pub(crate) row: Row<'a>,
    /// Where it stands, from the top.
    pub(crate) top: u64,
    /// Over the arrow: what it is.
    pub(crate) head: Page,
    /// After that, where it is a copy or got no answer.
    pub(crate) mark: Page,
    /// Under the arrow: what tells it from others.
    pub(crate) under: Page,
    /// Under that: the options of a message.
    pub(crate) options: Page,
}

/// How wide a character is over an arrow, and how wide under it, in pixels.
const WIDE: u64 = 8;

const NARROW: u64 = 7;

impl<'a> Label<'a> {
    fn new(alloc: Global, row: Row<'a>) -> Label<'a> {
        Label {
            row,
            top: 0,
            head: Page::new(alloc),
            mark: Page::new(alloc),
            under: Page::new(alloc),
            options: Page::new(alloc),
        }
    }

    /// How wide it is, in pixels.
    pub(crate) fn width(&self) -> u64 {
        let head = self.head.columns().saturating_mul(WIDE);
        let mark = self.mark.columns().saturating_mul(NARROW);
        let under = self.under.columns().max(self.options.columns());
        head.saturating_add(mark).max(under.saturating_mul(NARROW))
    }

    /// How much it takes below its arrow, in pixels.
    pub(crate) fn depth(&self) -> u64 {
        if self.options.columns() > 0 {
            46
        } else if self.under.columns() > 0 {
            31
        } else {
            16
        }
    }
}

/// What a row says. An answer has the digits of the response that was written.
pub(crate) fn label_of<'a>(
    alloc: Global,
    row: Row<'a>,
    response: Option<&str>,
) -> Result<Label<'a>, AllocError> {
    let mut label = Label::new(alloc, row);
    if let Some(carried) = row.entry.carried {
        label.mark.words("entry ")?;
        label.mark.shown(carried.number)?;
        label.mark.words(" of the journal before, ")?;
        label.mark.text(carried.mark.as_bytes())?;
    }
    match row.entry.event {
        Event::Opened(_) => label.head.words("connects")?,
        Event::Asked(_, request) => write_request(&mut label, request)?,
        Event::Bad(_) => label.head.words("bytes that are no request")?,
        Event::Sent(datagram) | Event::Heard(datagram) => {
            write_mark(&mut label.mark, &row)?;
            write_message(&mut label, alloc, datagram.digits)?;
        }
        Event::Answered(answer) => {
            if let Some(digits) = response {
                write_response(&mut label.head, alloc, digits)?;
            }
            write_rests(&mut label.under, answer)?;
        }
        Event::Shut(_) => label.head.words("closed")?,
        Event::Passed => label.head.words("a timer is due")?,
        Event::Sealed => label.head.words("the journal is sealed")?,
    }
    Ok(label)
}

/// Writes a request.
fn write_request(label: &mut Label<'_>, request: Request<'_>) -> Result<(), AllocError> {
    label.head.styled("bold", request.method.as_bytes())?;
    label.head.words(" ")?;
    write_beginning(&mut label.head, request.target)?;
    if request.length > 0 {
        label.under.words("with ")?;
        label.under.bytes(request.length)?;
    }
    Ok(())
}

/// Writes whether a datagram is a copy or got no answer.
fn write_mark(mark: &mut Page, row: &Row<'_>) -> Result<(), AllocError> {
    if row.mark.copies > 0 {
        mark.told("copy {}", &[u64::from(row.mark.copies)])?;
    }
    match (row.is_lost(), row.mark.copies > 0) {
        (true, true) => mark.words(", no answer in time"),
        (true, false) => mark.words("no answer in time"),
        (false, _) => Ok(()),
    }
}

/// Writes which request an answer answers, and what it rests on.
fn write_rests(under: &mut Page, answer: Answer<'_>) -> Result<(), AllocError> {
    under.words("answers ")?;
    under.link(answer.ask)?;
    match answer.grounds {
        Grounds::Live(numbers) => write_links(under, ", rests on ", numbers),
        Grounds::Kept(numbers) => write_links(under, ", from the store, rests on ", numbers),
        Grounds::Fault(kind, number) => {
            under.words(", ")?;
            under.text(kind.as_bytes())?;
            under.words(": see ")?;
            under.link(number)
        }
    }
}

/// Writes links to the entries of these numbers, which have commas between.
fn write_links(page: &mut Page, words: &'static str, numbers: &str) -> Result<(), AllocError> {
    page.words(words)?;
    'each: for one in numbers.split(',') {
        if let Ok(number) = decimal(one) {
            page.link(number)?;
            page.words(" ")?;
        }
    }
    Ok(())
}

/// Writes the status and the phrase of a response, from its first line; and its body, if that is a
/// short text.
fn write_response(head: &mut Page, alloc: Global, digits: &str) -> Result<(), AllocError> {
    let bytes = bytes_of(alloc, digits)?;
    let end = bytes.iter().position(|b| *b == b'\r').unwrap_or(0);
    if let Ok(line) = from_utf8(&bytes[..end]) {
        if let Some((_, status)) = line.split_once(' ') {
            head.styled(class_of(status), status.as_bytes())?;
        }
    }
    if let Ok(text) = from_utf8(&bytes) {
        if let Some((_, body)) = text.split_once("\r\n\r\n") {
            write_quoted(head, body)?;
        }
    }
    Ok(())
}

/// The style of a status, by its class (RFC 9110, section 15).
fn class_of(status: &str) -> &'static str {
    match status.as_bytes().first() {
        Some(b'2') => "good",
        Some(b'4') => "refused",
        Some(b'5') => "failed",
        _ => "bold",
    }
}

/// The bytes that digits stand for; a journal that was read has them in pairs.
pub(crate) fn bytes_of(alloc: Global, digits: &str) -> Result<Vec<u8>, AllocError> {
    match hex::decode(alloc, digits.as_bytes()) {
        Ok(bytes) => Ok(bytes),
        Err(hex::FromHexError::OutOfMemory) => Err(AllocError),
        Err(_) => Ok(Vec::new(alloc)),
    }
}

/// Writes a text in quotes, or nothing where it is empty.
pub(crate) fn write_quoted(page: &mut Page, text: &str) -> Result<(), AllocError> {
    if text.is_empty() {
        return Ok(());
    }
    page.words(" “")?;
    write_beginning(page, text)?;
    page.words("”")
}

/// The most bytes that are shown of a text.
const SHOWN: usize = 60;

/// Writes a text, or where it is long its beginning.
pub(crate) fn write_beginning(page: &mut Page, text: &str) -> Result<(), AllocError> {
    let bytes = text.as_bytes();
    match bytes.split_at_checked(end_of_beginning(bytes)) {
        Some((beginning, rest)) if !rest.is_empty() => {
            page.text(beginning)?;
            page.words("…")
        }
        _ => page.text(bytes),
    }
}

/// Where the beginning of a text ends: before the first character that starts after `SHOWN` bytes,
/// or where the text ends.
fn end_of_beginning(text: &[u8]) -> usize {
    'each: for (place, byte) in text.iter().enumerate() {
        if place >= SHOWN && byte & 0xc0 != 0x80 {
            return place;
        }
    }
    text.len()
}
