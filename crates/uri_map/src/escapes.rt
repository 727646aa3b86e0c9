//! Escapes in paths and queries (RFC 3986, section 2.1), looked at where they stand.

ghost use Rattle.std.specs.Prelude.{◌≡◌, ◌<◌, [], ◌∷◌, length, true, false, MatchOption};
ghost use Rattle.percent_encoding.specs.Percent.{percent_decode as decoded};
ghost use Rattle.uri_map.specs.Steps.{option_view};
ghost use Rattle.uri_map.specs.Splitting.{pieces};
ghost use Rattle.uri_map.specs.Escapes as spec;
ghost use Rattle.uri_map.specs.Limits as limits;
ghost use Rattle.uri_map.specs.Scanning as scan;
ghost use Rattle.uri_map.specs.declared.fault.UriFault.TheVariants.{Escape};

use crate::fault::UriFault;
use crate::marks::{Mark, index_of};
use crate::plain::is_plain;
use crate::utf8::is_utf8;
use percent_encoding::percent_decode;

/// A part of a target that is split into values.
#[derive(Clone, Copy)]
pub(crate) enum Part {
    /// Segments between `/`.
    Path,
    /// Arguments between `&`.
    Query,
}

impl Part {
    /// The byte between two values.
    pub(crate) fn separator(self) -> u8
        ensures { result ≡ spec.separator self }
    {
        match self {
            Part::Path => b'/',
            Part::Query => b'&',
        }
    }

    /// The number of the option that carries a value (RFC 7252, section 5.10).
    pub(crate) fn number(self) -> u16
        ensures { result ≡ limits.number self }
    {
        match self {
            Part::Path => 11,
            Part::Query => 15,
        }
    }
}

/// The next value of what is left of a part, and what is left then.
pub(crate) fn next_piece(part: Part, left: Option<&[u8]>) -> Option<(&[u8], Option<&[u8]>)>
    ensures pieces { MatchOption result (pieces (spec.separator part) (option_view left.entry) ≡ [])
        (λ x. pieces (spec.separator part) (option_view left.entry)
        ≡ x.0.now ∷ pieces (spec.separator part) (option_view x.1)) }
    ensures shorter { MatchOption result (left.entry ≡ left.entry)
        (λ x. scan.left_len (option_view x.1) < scan.left_len (option_view left.entry)) }
{
    let text = left?;
    let end = index_of(Mark::Byte(part.separator()), text);
    if end < text.len() {
        Some((&text[..end], Some(&text[end + 1..])))
    } else {
        Some((text, None))
    }
}

/// What stands after the first byte or escape of the text, if there is one.
fn next_escaped(text: &[u8]) -> Result<Option<&[u8]>, UriFault>
    ensures { scan.Escapes (scan.view_next result) text.now }
{
    match text {
        [] => Ok(None),
        [b'%', high, low, rest @ ..] => {
            if high.is_ascii_hexdigit() && low.is_ascii_hexdigit() {
                Ok(Some(rest))
            } else {
                Err(UriFault::Escape)
            }
        }
        [b'%', ..] => Err(UriFault::Escape),
        [_, rest @ ..] => Ok(Some(rest)),
    }
}

/// Nothing where each `%` stands before two hexadecimal digits.
pub(crate) fn check_escapes(text: &[u8]) -> Result<(), UriFault>
    ensures { scan.Tells Escape result (spec.well_escaped text.now) }
{
    let mut rest = text;
    'each: while let Some(next) = next_escaped(rest)? {
        rest = next;
    }
    Ok(())
}

/// Whether the text stands for `.` or `..`.
fn is_dots(text: &[u8]) -> bool
    ensures { result ≡ spec.is_dots (decoded text.now) }
{
    let mut bytes = percent_decode(text);
    if bytes.next() != Some(b'.') {
        return false;
    }
    match (bytes.next(), bytes.next()) {
        (None, _) => true,
        (Some(b'.'), None) => true,
        _ => false,
    }
}

/// How many bytes the text stands for.
pub(crate) fn decoded_len(text: &[u8]) -> usize
    ensures { result ≡ length (decoded text.now) }
{
    percent_decode(text).count()
}

/// Whether the text stands for bytes that the part refuses.
#[inline]
fn is_refused(part: Part, text: &[u8]) -> bool
    ensures { result ≡ spec.is_refused part (decoded text.now) }
{
    match part {
        Part::Path => is_dots(text),
        Part::Query => false,
    }
}

/// How many bytes the value of the part has that the text stands for, if it stands for one.
#[inline(never)]
#[tactic(auto, unfolding(crate::specs::Escapes::text_at))]
fn escaped_len(part: Part, text: &[u8]) -> Result<usize, UriFault>
    ensures { scan.Measures result part text.now }
{
    check_escapes(text)?;
    if !is_utf8(text) || is_refused(part, text) {
        return Err(UriFault::Escape);
    }
    Ok(decoded_len(text))
}

/// The same. Most texts are plain, and then it is how many bytes they have themselves.
pub(crate) fn value_len(part: Part, text: &[u8]) -> Result<usize, UriFault>
    ensures { scan.Measures result part text.now }
{
    if is_plain(text) && !is_refused(part, text) {
        return Ok(text.len());
    }
    escaped_len(part, text)
}
