//! What texts and numbers of a file stand for.

ghost use Rattle.std.specs.Prelude.{◌≡◌, ◌==◌, ◌≤◌, codes, IfSome};
ghost use Rattle.std.specs.List.{list_all, list_any};
ghost use Rattle.proxy_settings.specs.Values as spec;

use media_map::{Policy, format_of};
use std::net::{IpAddr, Ipv4Addr, Ipv6Addr};

/// The number, where it is from 0 to the greatest.
pub(crate) fn up_to(most: u32, number: i64) -> Option<u32>
    ensures value { result ≡ spec.up_to most number }
    ensures most { IfSome result (λ n. n ≤ most) }
{
    if number < 0 || number > i64::from(most) {
        return None;
    }
    Some(number as u32)
}

/// The IPv6 address that the text writes, without dots.
fn undotted(text: &[u8]) -> Option<Ipv6Addr>
    ensures { result ≡ spec.undotted text.now }
{
    if text.contains(&b'.') {
        return None;
    }
    ipv6(text)
}

fn ipv6(text: &[u8]) -> Option<Ipv6Addr>
    ensures { result ≡ spec.ipv6_of text.now }
{
    Ipv6Addr::parse_ascii(text).ok()
}

fn ipv4(text: &[u8]) -> Option<Ipv4Addr>
    ensures { result ≡ spec.ipv4_of text.now }
{
    Ipv4Addr::parse_ascii(text).ok()
}

/// The address that the text writes.
#[tactic(auto, unfolding(crate::specs::Values::address_named))]
pub(crate) fn address_of(text: &str) -> Option<IpAddr>
    ensures { result ≡ spec.address_named text.now }
{
    match ipv4(text.as_bytes()) {
        Some(address) => Some(IpAddr::V4(address)),
        None => match undotted(text.as_bytes()) {
            Some(address) => Some(IpAddr::V6(address)),
            None => None,
        },
    }
}

/// Whether it is one of the marks that a base may have.
fn is_base_mark(byte: u8) -> bool
    ensures { result ≡ list_any (λ c. byte == c) (codes "-._~/") }
{
    byte == b'-' || byte == b'.' || byte == b'_' || byte == b'~' || byte == b'/'
}

#[tactic(auto, unfolding(crate::specs::Values::is_base_byte))]
fn is_base_byte(byte: u8) -> bool
    ensures { result ≡ spec.is_base_byte byte }
{
    byte.is_ascii_alphanumeric() || is_base_mark(byte)
}

fn are_base_bytes(bytes: &[u8]) -> bool
    ensures { result ≡ list_all spec.is_base_byte bytes.now }
{
    'each: for byte in bytes {
        if !is_base_byte(*byte) {
            return false;
        }
    }
    true
}

/// Whether the text is a base.
#[tactic(auto, unfolding(crate::specs::Values::is_base))]
pub(crate) fn is_base(text: &str) -> bool
    ensures { result ≡ spec.is_base text.now }
{
    let bytes = text.as_bytes();
    bytes.starts_with(b"/") && bytes.ends_with(b"/") && are_base_bytes(bytes)
}

/// Whether the text is a host's name.
#[tactic(auto, unfolding(crate::specs::Values::is_host))]
pub(crate) fn is_host(text: &str) -> bool
    ensures { result ≡ spec.is_host text.now }
{
    let bytes = text.as_bytes();
    !bytes.is_empty() && bytes.len() <= 255 && ipv4(bytes).is_none()
}

/// Whether the text is a media type.
#[tactic(auto, unfolding(crate::specs::Values::is_media))]
pub(crate) fn is_media(text: &str) -> bool
    ensures { result ≡ spec.is_media text.now }
{
    let any = Policy {
        loose: true,
        pass: true,
    };
    match format_of(text.as_bytes(), any) {
        Ok(Some(_)) => true,
        Ok(None) | Err(_) => false,
    }
}
