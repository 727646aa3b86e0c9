//! Short texts, which take no memory.

use std::marker::Model;
use std::str::from_utf8;

/// A text in UTF-8 of at most 23 bytes.
#[derive(Debug, Drop)]
pub(crate) struct ShortText {
    bytes: [u8; 23],
    len: u8,
}

impl Model for ShortText {
    ghost use Rattle.std.specs.Prelude.{ℕ, List, ◌≤◌, ◌≡◌, take, length, true};
    ghost use Rattle.std.specs.Str.{is_utf8};

    ghost Value = { List ℕ };

    ghost view = { λ t. take t.len t.bytes };

    ghost invariant = { λ t.
        (t.len ≤ 23) × (length t.bytes ≡ 23) × (is_utf8 (take t.len t.bytes) ≡ true) };
}

impl ShortText {
    ghost use Rattle.std.specs.Prelude.{◌≡◌, ◌≤◌, length, IsUtf8};

    /// The most bytes that a short text has.
    pub(crate) const ROOM: usize = 23;

    /// The text with these bytes.
    pub(crate) fn of(text: &str) -> ShortText
        requires { length text.now ≤ 23 }
        ensures { result ≡ text.now }
    {
        let text = text.as_bytes();
        let mut bytes = [0; 23];
        bytes[..text.len()].copy_from_slice(text);
        ShortText {
            bytes,
            len: text.len() as u8,
        }
    }

    /// The same text.
    pub(crate) fn copy(&self) -> ShortText
        ensures { result ≡ self.now }
    {
        ShortText {
            bytes: self.bytes,
            len: self.len,
        }
    }

    /// Its bytes.
    pub(crate) fn as_slice(&self) -> &[u8]
        ensures bytes { result.now ≡ self.now }
        ensures utf8 { IsUtf8 self.now }
    {
        &self.bytes[..self.len as usize]
    }

    /// The text.
    pub(crate) fn as_str(&self) -> &str
        ensures value { result.now ≡ self.now }
        ensures utf8 { IsUtf8 self.now }
    {
        match from_utf8(self.as_slice()) {
            Ok(text) => text,
            Err(_) => unreachable!(),
        }
    }
}
