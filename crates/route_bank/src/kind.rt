//! Between which forms there is a transformer.

ghost use Rattle.std.specs.Prelude.{◌≡◌};
ghost use Rattle.route_bank.specs.Profiles.{kind_of, down_kind, up_kind};

use media_map::Form;

/// The content format of bytes.
const OCTETS: u16 = 42;

/// The content format of CBOR.
const CBOR: u16 = 60;

/// What a transformer makes of bodies.
#[derive(Clone, Copy, Debug, PartialEq, Eq)]
pub enum Kind {
    /// JSON of CBOR.
    CborToJson,
    /// CBOR of JSON.
    JsonToCbor,
    /// Hexadecimal digits of bytes.
    OctetsToHex,
}

/// The transformer between two forms: bytes go to any media type, and CBOR and `application/json`
/// to each other.
pub fn kind_between(from: &Form, to: &Form) -> Option<Kind>
    ensures { result ≡ kind_of from.now to.now }
{
    match (from, to) {
        (Form::Format(format), Form::Media(media)) => down(*format, media.as_str()),
        (Form::Media(media), Form::Format(format)) => up(media.as_str(), *format),
        _ => None,
    }
}

/// The transformer from a format to a media type.
fn down(format: u16, media: &str) -> Option<Kind>
    ensures { result ≡ down_kind format media.now }
{
    if format == OCTETS {
        Some(Kind::OctetsToHex)
    } else if format == CBOR && media == "application/json" {
        Some(Kind::CborToJson)
    } else {
        None
    }
}

/// The transformer from a media type to a format.
fn up(media: &str, format: u16) -> Option<Kind>
    ensures { result ≡ up_kind media.now format }
{
    if format == CBOR && media == "application/json" {
        Some(Kind::JsonToCbor)
    } else {
        None
    }
}
