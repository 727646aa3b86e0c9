//! Media types as content formats, and back.

ghost use Rattle.std.specs.Prelude.{◌≡◌, ◌<◌, ◌++◌, codes, decimal, IfOk, IfSome, IsNone};
ghost use Rattle.media_map.specs.Formats.{media_text, has_charset, is_foreign_text, format_in, table, table_format, number_with, format_number, payload_format as payload, begins as begins_with, ends as ends_with, loose_format as loose, format_at};
ghost use Rattle.media_map.specs.Views.{named_of, bytes_of};
ghost use Rattle.std.specs.Option.{option_map};

use crate::fault::MediaFault;
use crate::form::Media;
use crate::media_type::MediaType;
use crate::policy::Policy;
use crate::text::{is_same, trim};
use crate::value::Value;
use std::alloc::{AllocError, Global};

/// The content format that a Content-Type says; None for blanks alone. Refused are, in this order,
/// what is no media type (`Syntax`), `application/coap-payload` where it is not passed through
/// (`PassThrough`), and what has no format (`Unmapped`).
#[tactic(auto, unfolding(crate::specs::Formats::format_at))]
pub fn format_of(content_type: &[u8], policy: Policy) -> Result<Option<u16>, MediaFault>
    ensures { result ≡ format_at policy content_type.now }
{
    if trim(content_type).is_empty() {
        return Ok(None);
    }
    let Some(media) = MediaType::parse(content_type) else {
        return Err(MediaFault::Syntax);
    };
    if let Some(format) = known_format(&media) {
        return Ok(Some(format));
    }
    match payload_format(&media) {
        Some(format) if policy.pass => Ok(Some(format)),
        Some(_) => Err(MediaFault::PassThrough),
        None if policy.loose => Ok(Some(loose_format(&media))),
        None => Err(MediaFault::Unmapped),
    }
}

/// The media type of a content format that has one of its own.
#[tactic(auto, unfolding(crate::specs::Formats::media_text))]
pub fn media_named(format: u16) -> Option<&'static str>
    ensures named { IfSome result (λ name. name.now ≡ media_text format) }
    ensures numbered { IsNone result
        → media_text format ≡ codes "application/coap-payload;cf=" ++ decimal format }
{
    match format {
        0 => Some("text/plain;charset=utf-8"),
        40 => Some("application/link-format"),
        41 => Some("application/xml"),
        42 => Some("application/octet-stream"),
        47 => Some("application/exi"),
        50 => Some("application/json"),
        60 => Some("application/cbor"),
        _ => None,
    }
}

/// The media type of a content format. One without a media type of its own is written by its number
/// (RFC 8075 section 6.2).
pub fn media_of(alloc: Global, format: u16) -> Result<Media, AllocError>
    ensures { IfOk result (λ m. m ≡ media_text format) }
{
    match media_named(format) {
        Some(name) => Media::from_str(alloc, name),
        None => Ok(Media::new(format!(in alloc; "application/coap-payload;cf={format}")?)),
    }
}

/// Whether the type is text/plain in a charset that format 0 doesn't stand for.
#[tactic(auto, unfolding(crate::specs::Formats::is_foreign_text))]
pub fn is_other_text(media: &MediaType<'_>) -> bool
    ensures { result ≡ is_foreign_text (named_of media.now) }
{
    is_same(media.essence, b"text/plain") && !is_utf8_or_ascii(media.parameter(b"charset"))
}

fn is_utf8_or_ascii(charset: Option<&[u8]>) -> bool
    ensures { result ≡ has_charset (option_map (λ v. v.now) charset.entry) }
{
    match charset {
        None => true,
        Some(text) => {
            let value = Value::of(text);
            value.says(b"utf-8") || value.says(b"us-ascii")
        }
    }
}

fn row_format(essence: &[u8]) -> Option<u16>
    ensures { result ≡ format_in table essence.now }
{
    if is_same(essence, b"text/plain") {
        Some(0)
    } else if is_same(essence, b"application/link-format") {
        Some(40)
    } else if is_same(essence, b"application/xml") {
        Some(41)
    } else if is_same(essence, b"application/octet-stream") {
        Some(42)
    } else if is_same(essence, b"application/exi") {
        Some(47)
    } else if is_same(essence, b"application/json") {
        Some(50)
    } else if is_same(essence, b"application/cbor") {
        Some(60)
    } else {
        None
    }
}

/// The format whose media type it is.
#[tactic(auto, unfolding(crate::specs::Formats::table_format))]
pub fn known_format(media: &MediaType<'_>) -> Option<u16>
    ensures { result ≡ table_format (named_of media.now) }
{
    if is_other_text(media) {
        return None;
    }
    row_format(media.essence)
}

/// The format that `application/coap-payload` names.
#[tactic(auto, unfolding(crate::specs::Formats::payload_format))]
pub fn payload_format(media: &MediaType<'_>) -> Option<u16>
    ensures { result ≡ payload (named_of media.now) }
{
    if !is_same(media.essence, b"application/coap-payload") {
        return None;
    }
    let text = media.parameter(b"cf")?;
    number(&Value::of(text))
}

#[tactic(auto, unfolding(crate::specs::Formats::format_number))]
fn number(value: &Value<'_>) -> Option<u16>
    ensures { result ≡ format_number (bytes_of value.now) }
{
    let mut number: u32 = 0;
    let mut count: u8 = 0;
    let mut rest = *value;
    'each: while let Some((digit, after)) = rest.first() {
        if count == 5 {
            return None;
        }
        number = next_number(number, digit)?;
        count += 1;
        rest = after;
    }
    if count == 0 {
        return None;
    }
    u16::try_from(number).ok()
}

#[tactic(auto, unfolding(crate::specs::Formats::number_with))]
fn next_number(number: u32, digit: u8) -> Option<u32>
    requires { number < 65536 }
    ensures number { result ≡ number_with number digit }
    ensures bound { IfSome result (λ n. n < 65536) }
{
    if !digit.is_ascii_digit() {
        return None;
    }
    let next = 10 * number + u32::from(digit - b'0');
    if next > 65535 { None } else { Some(next) }
}

#[tactic(auto, unfolding(crate::specs::Formats::begins))]
fn begins(text: &[u8], front: &[u8]) -> bool
    ensures { result ≡ begins_with text.now front.now }
{
    front.len() <= text.len() && is_same(&text[..front.len()], front)
}

#[tactic(auto, unfolding(crate::specs::Formats::ends))]
fn ends(text: &[u8], back: &[u8]) -> bool
    ensures { result ≡ ends_with text.now back.now }
{
    back.len() <= text.len() && is_same(&text[text.len() - back.len()..], back)
}

/// The nearest format of a media type that has none.
#[tactic(auto, unfolding(crate::specs::Formats::loose_format))]
fn loose_format(media: &MediaType<'_>) -> u16
    ensures { result ≡ loose (named_of media.now) }
{
    if is_other_text(media) {
        42
    } else if is_same(media.essence, b"text/xml") {
        41
    } else if begins(media.essence, b"text/") {
        0
    } else if !begins(media.essence, b"application/") {
        42
    } else if ends(media.essence, b"+xml") {
        41
    } else if ends(media.essence, b"+json") {
        50
    } else {
        42
    }
}
