//! Addresses in brackets, and ports (RFC 3986, section 3.2).

ghost use Rattle.std.specs.Prelude.{◌≡◌, ◌<◌, length};
ghost use Rattle.std.specs.Option.{option_map};
ghost use Rattle.uri_map.specs.Steps.{option_view};
ghost use Rattle.uri_map.specs.Authority as spec;
ghost use Rattle.uri_map.specs.Peers.{plain_at};

use crate::fault::UriFault;
use crate::marks::{Mark, cut_at};
use std::net::{Ipv4Addr, Ipv6Addr};

/// The port of CoAP (RFC 7252, section 6.1).
pub(crate) const COAP_PORT: u16 = 5683;

/// The IPv4 address that the whole text writes.
pub(crate) fn v4_of(text: &[u8]) -> Option<Ipv4Addr>
    ensures { result ≡ spec.ipv4_of text.now }
{
    Ipv4Addr::parse_ascii(text).ok()
}

/// The IPv6 address that the whole text writes.
pub(crate) fn v6_of(text: &[u8]) -> Option<Ipv6Addr>
    ensures { result ≡ spec.ipv6_of text.now }
{
    Ipv6Addr::parse_ascii(text).ok()
}

/// What stands after an opening bracket, plain or escaped.
fn behind_opening(text: &[u8]) -> Option<&[u8]>
    ensures { option_view result ≡ spec.behind_opening text.now }
{
    match text {
        [b'[', rest @ ..] => Some(rest),
        [b'%', b'5', b'B', rest @ ..] => Some(rest),
        [b'%', b'5', b'b', rest @ ..] => Some(rest),
        _ => None,
    }
}

/// What stands after a closing bracket, plain or escaped.
fn behind_closing(text: &[u8]) -> Option<&[u8]>
    ensures { option_view result ≡ spec.behind_closing text.now }
{
    match text {
        [b']', rest @ ..] => Some(rest),
        [b'%', b'5', b'D', rest @ ..] => Some(rest),
        [b'%', b'5', b'd', rest @ ..] => Some(rest),
        _ => None,
    }
}

/// The address at the front, and what stands after its digits and colons.
#[tactic(auto, unfolding(crate::specs::Authority::address_at))]
fn address_at(text: &[u8]) -> Option<(Ipv6Addr, &[u8])>
    ensures { option_map (λ x. (x.0, x.1.now)) result ≡ spec.address_at text.now }
{
    let (written, rest) = cut_at(Mark::Address, text);
    let address = v6_of(written)?;
    Some((address, rest))
}

/// The address in brackets at the front, plain or escaped, and what stands after it.
#[tactic(auto, unfolding(crate::specs::Authority::bracketed_at))]
pub(crate) fn bracketed(text: &[u8]) -> Option<(Ipv6Addr, &[u8])>
    ensures { option_map (λ x. (x.0, x.1.now)) result ≡ spec.bracketed_at text.now }
{
    let inner = behind_opening(text)?;
    let (address, rest) = address_at(inner)?;
    let rest = behind_closing(rest)?;
    Some((address, rest))
}

/// The address in plain brackets at the front, and what stands after it.
#[tactic(auto, unfolding(crate::specs::Peers::plain_at))]
pub(crate) fn bracketed_plain(text: &[u8]) -> Option<(Ipv6Addr, &[u8])>
    ensures { option_map (λ x. (x.0, x.1.now)) result ≡ plain_at text.now }
{
    let [b'[', inner @ ..] = text else {
        return None;
    };
    let (address, rest) = address_at(inner)?;
    match rest {
        [b']', rest @ ..] => Some((address, rest)),
        _ => None,
    }
}

/// The number that decimal digits write.
fn decimal_of(digits: &[u8]) -> Option<u32>
    requires { length digits.now < 6 }
    ensures { result ≡ spec.decimal digits.now }
{
    let mut number = 0;
    'each: for digit in digits {
        if !digit.is_ascii_digit() {
            return None;
        }
        number = 10 * number + u32::from(*digit - b'0');
    }
    Some(number)
}

/// The port that 1 to 5 digits write.
fn port_of_digits(digits: &[u8]) -> Option<u16>
    ensures { result ≡ spec.port digits.now }
{
    if digits.is_empty() || digits.len() > 5 {
        return None;
    }
    let number = decimal_of(digits)?;
    if number < 1 || number > 65535 {
        return None;
    }
    Some(number as u16)
}

/// The port that is written, with its colon.
pub(crate) fn written_port(text: &[u8]) -> Option<u16>
    ensures { result ≡ spec.written_port text.now }
{
    match text {
        [b':', digits @ ..] => port_of_digits(digits),
        _ => None,
    }
}

/// The port that is written, or where nothing is, the port of CoAP.
pub(crate) fn port_of(text: &[u8]) -> Result<u16, UriFault>
    ensures { result ≡ spec.port_at text.now }
{
    match text {
        [] => Ok(COAP_PORT),
        [_, ..] => written_port(text).ok_or(UriFault::Authority),
    }
}
