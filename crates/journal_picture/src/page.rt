//! A page, and the pieces that it is written in.

ghost use Rattle.std.specs.Prelude.{◌≡◌, ◌++◌, OnOk};
ghost use Rattle.journal_picture.specs.Escaping.{escape, escaped};

use std::alloc::{AllocError, Global};
use std::fmt::Display;
use std::marker::Model;

/// A page that is being written, or a piece of one. Markup of the program's own is written as it
/// is, and all text is escaped.
#[derive(Drop)]
pub struct Page {
    alloc: Global,
    bytes: Vec<u8>,
    /// How many characters of text it has.
    columns: u64,
}

impl Model for Page {
    ghost use Rattle.std.specs.Prelude.{List, ℕ};

    ghost Value = { List ℕ };

    ghost view = { λ p. p.bytes.items };
}

/// Appends a byte of text as it stands on a page: itself, its HTML entity, or a sign for a byte
/// that cannot be shown.
fn push_escape(bytes: &mut Vec<u8>, byte: u8) -> Result<(), AllocError>
    ensures { OnOk result (bytes.new.items ≡ bytes.old.items ++ escape byte) }
{
    match byte {
        b'&' => bytes.extend_from_slice(b"&amp;"),
        b'<' => bytes.extend_from_slice(b"&lt;"),
        b'>' => bytes.extend_from_slice(b"&gt;"),
        b'"' => bytes.extend_from_slice(b"&quot;"),
        b'\'' => bytes.extend_from_slice(b"&#39;"),
        0..=31 | 127 => bytes.extend_from_slice(b"&#65533;"),
        _ => Ok(bytes.push(byte)?),
    }
}

/// Appends text, escaped.
fn push_escaped(bytes: &mut Vec<u8>, text: &[u8]) -> Result<(), AllocError>
    ensures { OnOk result (bytes.new.items ≡ bytes.old.items ++ escaped text.now) }
{
    'each: for byte in text {
        push_escape(bytes, *byte)?;
    }
    Ok(())
}

/// How many characters a text in UTF-8 has: each has one byte that continues none.
fn columns_of(text: &[u8]) -> u64 {
    text.iter().filter(|b| **b & 0xc0 != 0x80).count() as u64
}

impl Page {
    ghost use Rattle.std.specs.Prelude.{[]};

    /// An empty page.
    pub fn new(alloc: Global) -> Page
        ensures { result ≡ [] }
    {
        Page {
            alloc,
            bytes: Vec::new(alloc),
            columns: 0,
        }
    }

    /// An empty piece for this page.
    pub fn beside(&self) -> Page
        ensures { result ≡ [] }
    {
        Page::new(self.alloc)
    }

    /// What was written.
    pub fn as_slice(&self) -> &[u8]
        ensures { result.now ≡ self.now }
    {
        &self.bytes
    }

    /// How many characters of text were written, where markup counts nothing.
    pub fn columns(&self) -> u64 {
        self.columns
    }

    /// Writes markup, which is a text of the program.
    pub fn markup(&mut self, text: &'static str) -> Result<(), AllocError>
        ensures { OnOk result (self.new ≡ self.old ++ text.now) }
    {
        self.bytes.extend_from_slice(text.as_bytes())
    }

    /// Writes text, escaped.
    pub fn text(&mut self, text: &[u8]) -> Result<(), AllocError>
        ensures { OnOk result (self.new ≡ self.old ++ escaped text.now) }
    {
        push_escaped(&mut self.bytes, text)?;
        self.columns = self.columns.saturating_add(columns_of(text));
        Ok(())
    }

    /// Writes what another piece has.
    pub fn piece(&mut self, other: &Page) -> Result<(), AllocError>
        ensures { OnOk result (self.new ≡ self.old ++ other.now) }
    {
        self.bytes.extend_from_slice(&other.bytes)?;
        self.columns = self.columns.saturating_add(other.columns);
        Ok(())
    }

    /// Writes words of the program, which are shown.
    pub fn words(&mut self, words: &'static str) -> Result<(), AllocError>
        ensures { OnOk result (self.new ≡ self.old ++ escaped words.now) }
    {
        self.text(words.as_bytes())
    }

    /// Writes markup in which each `{}` stands for the next of these numbers, which are positions
    /// in pixels.
    pub(crate) fn drawn(
        &mut self,
        markup: &'static str,
        numbers: &[u64],
    ) -> Result<(), AllocError> {
        let mut numbers = numbers.iter();
        'each: for piece in markup.split("{}") {
            self.markup(piece)?;
            if let Some(number) = numbers.next() {
                let digits = number.to_string(self.alloc)?;
                self.bytes.extend_from_slice(digits.as_bytes())?;
            }
        }
        Ok(())
    }

    /// Writes words of the program, in which each `{}` stands for the next of these numbers.
    pub(crate) fn told(&mut self, words: &'static str, numbers: &[u64]) -> Result<(), AllocError> {
        let mut piece = self.beside();
        piece.drawn(words, numbers)?;
        self.text(piece.as_slice())
    }

    /// Writes how many bytes there are.
    pub(crate) fn bytes(&mut self, count: u64) -> Result<(), AllocError> {
        self.told(if count == 1 { "{} byte" } else { "{} bytes" }, &[count])
    }

    /// Begins an element of a class. Its attributes begin with a space, and end with the end of the
    /// tag.
    pub(crate) fn element(
        &mut self,
        name: &'static str,
        class: &'static str,
        attributes: &'static str,
        numbers: &[u64],
    ) -> Result<(), AllocError> {
        self.markup("<")?;
        self.markup(name)?;
        self.markup(" class=\"")?;
        self.markup(class)?;
        self.markup("\"")?;
        self.drawn(attributes, numbers)
    }

    /// Writes text in that style.
    pub(crate) fn styled(&mut self, class: &'static str, text: &[u8]) -> Result<(), AllocError> {
        self.element("tspan", class, ">", &[])?;
        self.text(text)?;
        self.markup("</tspan>")
    }

    /// Writes a text element that begins so and has those words, or nothing where there are none.
    pub(crate) fn line(
        &mut self,
        start: &'static str,
        numbers: &[u64],
        words: &Page,
    ) -> Result<(), AllocError> {
        if words.columns == 0 {
            return Ok(());
        }
        self.drawn(start, numbers)?;
        self.piece(words)?;
        self.markup("</text>")
    }

    /// Writes a link to the row of the entry of that number.
    pub(crate) fn link(&mut self, number: u64) -> Result<(), AllocError> {
        self.drawn("<a href=\"#e{}\">", &[number])?;
        self.shown(number)?;
        self.markup("</a>")
    }

    /// Writes a moment in seconds.
    pub(crate) fn moment(&mut self, moment: u64) -> Result<(), AllocError> {
        let digits = [
            moment / 1000,
            moment / 100 % 10,
            moment / 10 % 10,
            moment % 10,
        ];
        self.told("{}.{}{}{} s", &digits)
    }

    /// Writes what a value is shown as, escaped.
    pub(crate) fn shown<T: Display + Drop>(&mut self, value: T) -> Result<(), AllocError> {
        let text = value.to_string(self.alloc)?;
        self.text(text.as_bytes())
    }

    /// Writes bytes in hexadecimal digits, which are shown.
    pub(crate) fn hex(&mut self, bytes: &[u8]) -> Result<(), AllocError> {
        let digits = hex::encode(self.alloc, bytes)?;
        self.text(digits.as_bytes())
    }
}
