//! The table of options, and what an option's number says of it (RFC 7252, sections 5.4 and
//! 5.10).

ghost use Rattle.std.specs.Prelude.{◌≡◌, ◌≤◌, ◌↔◌, IsTrue, IfSome};
ghost use Rattle.coap_codec.specs.Options.{definition_of, is_critical_number, is_unsafe_number, is_no_cache_key_number, is_read_in_response};

use crate::number;
use std::fmt;

/// The name of an option.
#[derive(Clone, Copy, Debug, PartialEq, Eq)]
pub enum OptionName {
    IfMatch,
    UriHost,
    ETag,
    IfNoneMatch,
    Observe,
    UriPort,
    LocationPath,
    UriPath,
    ContentFormat,
    MaxAge,
    UriQuery,
    Accept,
    LocationQuery,
    Block2,
    Block1,
    Size2,
    ProxyUri,
    ProxyScheme,
    Size1,
}

impl fmt::Display for OptionName {
    fn fmt<W: fmt::Write>(&self, f: &mut fmt::Formatter<W>) -> fmt::Result {
        f.write_str(match self {
            OptionName::IfMatch => "If-Match",
            OptionName::UriHost => "Uri-Host",
            OptionName::ETag => "ETag",
            OptionName::IfNoneMatch => "If-None-Match",
            OptionName::Observe => "Observe",
            OptionName::UriPort => "Uri-Port",
            OptionName::LocationPath => "Location-Path",
            OptionName::UriPath => "Uri-Path",
            OptionName::ContentFormat => "Content-Format",
            OptionName::MaxAge => "Max-Age",
            OptionName::UriQuery => "Uri-Query",
            OptionName::Accept => "Accept",
            OptionName::LocationQuery => "Location-Query",
            OptionName::Block2 => "Block2",
            OptionName::Block1 => "Block1",
            OptionName::Size2 => "Size2",
            OptionName::ProxyUri => "Proxy-Uri",
            OptionName::ProxyScheme => "Proxy-Scheme",
            OptionName::Size1 => "Size1",
        })
    }
}

/// How often an option counts in one message.
#[derive(Clone, Copy, Debug, PartialEq, Eq)]
pub enum Occurrence {
    /// It has no meaning there.
    Never,
    /// The first one counts.
    Once,
    /// Each one counts.
    Repeated,
}

/// A row of the table of options (RFC 7252, section 5.10).
#[derive(Clone, Copy, Debug, PartialEq, Eq)]
pub struct OptionDefinition {
    /// The option number.
    pub number: u16,
    /// The name.
    pub name: OptionName,
    /// The fewest bytes of a value.
    pub min_len: u16,
    /// The most bytes of a value.
    pub max_len: u16,
    /// Whether a receiver that doesn't know it refuses the message (section 5.4.1).
    pub critical: bool,
    /// Whether a proxy that doesn't know it may not forward it (section 5.4.2).
    pub unsafe_to_forward: bool,
    /// Whether its number keeps it out of the cache key (section 5.4.2).
    pub no_cache_key: bool,
    /// How often it counts in a request.
    pub in_request: Occurrence,
    /// How often it counts in a response. Of ETag there is one at most (section 5.10.6.1).
    pub in_response: Occurrence,
}

impl OptionDefinition {
    /// Whether a value may have so many bytes. An option with another length counts as
    /// unrecognised (section 5.4.3).
    pub fn allows_len(self, len: usize) -> bool
        ensures { IsTrue result ↔ ((self.min_len ≤ len) × (len ≤ self.max_len)) }
    {
        usize::from(self.min_len) <= len && len <= usize::from(self.max_len)
    }
}

/// The row of the option of that number, if the table has one.
#[inline(always)]
pub fn definition(number: u16) -> Option<OptionDefinition>
    ensures row { result ≡ definition_of number }
    // The columns of the table are what the bits of its numbers say.
    ensures critical { IfSome result (λ row. row.critical ≡ is_critical_number number) }
    ensures unsafe_to_forward { IfSome result (λ row.
        row.unsafe_to_forward ≡ is_unsafe_number number) }
    ensures no_cache_key { IfSome result (λ row. row.no_cache_key ≡ is_no_cache_key_number number) }
{
    use Occurrence::{Never, Once, Repeated};
    let (name, min_len, max_len, in_request, in_response) = match number {
        number::IF_MATCH => (OptionName::IfMatch, 0, 8, Repeated, Never),
        number::URI_HOST => (OptionName::UriHost, 1, 255, Once, Never),
        number::ETAG => (OptionName::ETag, 1, 8, Repeated, Once),
        number::IF_NONE_MATCH => (OptionName::IfNoneMatch, 0, 0, Once, Never),
        number::OBSERVE => (OptionName::Observe, 0, 3, Once, Once),
        number::URI_PORT => (OptionName::UriPort, 0, 2, Once, Never),
        number::LOCATION_PATH => (OptionName::LocationPath, 0, 255, Never, Repeated),
        number::URI_PATH => (OptionName::UriPath, 0, 255, Repeated, Never),
        number::CONTENT_FORMAT => (OptionName::ContentFormat, 0, 2, Once, Once),
        number::MAX_AGE => (OptionName::MaxAge, 0, 4, Never, Once),
        number::URI_QUERY => (OptionName::UriQuery, 0, 255, Repeated, Never),
        number::ACCEPT => (OptionName::Accept, 0, 2, Once, Never),
        number::LOCATION_QUERY => (OptionName::LocationQuery, 0, 255, Never, Repeated),
        number::BLOCK2 => (OptionName::Block2, 0, 3, Once, Once),
        number::BLOCK1 => (OptionName::Block1, 0, 3, Once, Once),
        number::SIZE2 => (OptionName::Size2, 0, 4, Once, Once),
        number::PROXY_URI => (OptionName::ProxyUri, 1, 1034, Once, Never),
        number::PROXY_SCHEME => (OptionName::ProxyScheme, 1, 255, Once, Never),
        number::SIZE1 => (OptionName::Size1, 0, 4, Once, Once),
        _ => return None,
    };
    Some(OptionDefinition {
        number,
        name,
        min_len,
        max_len,
        critical: is_critical(number),
        unsafe_to_forward: is_unsafe(number),
        no_cache_key: no_cache_key(number),
        in_request,
        in_response,
    })
}

/// Whether an option of that number is recognised in a response. A response with a critical one
/// that isn't is rejected (section 5.4.1).
pub fn is_allowed_in_response(number: u16) -> bool
    ensures { result ≡ is_read_in_response number }
{
    match definition(number) {
        Some(row) => row.in_response != Occurrence::Never,
        None => false,
    }
}

/// Whether an option of that number, known or not, is critical (section 5.4.6).
pub fn is_critical(number: u16) -> bool
    ensures { result ≡ is_critical_number number }
{
    number & 1 == 1
}

/// Whether an option of that number, known or not, is unsafe to forward (section 5.4.6).
pub fn is_unsafe(number: u16) -> bool
    ensures { result ≡ is_unsafe_number number }
{
    (number >> 1) & 1 == 1
}

/// Whether an option of that number, known or not, is safe to forward and yet no part of the
/// cache key (section 5.4.6).
pub fn no_cache_key(number: u16) -> bool
    ensures { result ≡ is_no_cache_key_number number }
{
    (number >> 1) & 0x0f == 0x0e
}
