//! Authorities: a host and a port (RFC 3986, section 3.2).

ghost use Rattle.std.specs.Prelude.{◌≡◌, ◌≤◌, length, IsUtf8, IfOk};
ghost use Rattle.uri_map.specs.Steps.{Reads};
ghost use Rattle.uri_map.specs.Authority as spec;
ghost use Rattle.uri_map.specs.Scanning.{host_view, NameFound};

use crate::address::{bracketed, port_of, v4_of};
use crate::escapes::{check_escapes, decoded_len};
use crate::fault::UriFault;
use crate::marks::{Mark, cut_at};
use crate::text::Text;
use crate::utf8::is_text;
use percent_encoding::percent_decode;
use std::alloc::{AllocError, Global};
use std::marker::Model;
use std::net::{Ipv4Addr, Ipv6Addr};
use std::str::from_utf8;

/// A name of a host: 1 to 255 bytes of UTF-8, kept without an allocation.
#[derive(Drop)]
struct HostName {
    bytes: [u8; 255],
    len: usize,
}

impl Model for HostName {
    ghost use Rattle.std.specs.Prelude.{ℕ, List, ◌≤◌, ◌≡◌, take, length, true};
    ghost use Rattle.std.specs.Str.{is_utf8};

    ghost Value = { List ℕ };

    ghost view = { λ n. take n.len n.bytes };

    ghost invariant = { λ n.
        (n.len ≤ 255) × (length n.bytes ≡ 255) × (is_utf8 (take n.len n.bytes) ≡ true) };
}

impl HostName {
    /// The name that the text stands for, in lower case.
    fn lowered(text: &[u8]) -> Option<HostName>
        ensures { NameFound result (spec.lowered text.now) }
    {
        let mut bytes = [0; 255];
        let mut len = 0;
        let mut rest = percent_decode(text);
        'each: while let Some(b) = rest.next() {
            if len == 255 {
                return None;
            }
            bytes[len] = b.to_ascii_lowercase();
            len += 1;
        }
        if len == 0 || !is_text(&bytes[..len]) {
            return None;
        }
        Some(HostName { bytes, len })
    }

    /// Its bytes.
    fn as_slice(&self) -> &[u8]
        ensures bytes { result.now ≡ self.now }
        ensures utf8 { IsUtf8 self.now }
        ensures short { length self.now ≤ 255 }
    {
        &self.bytes[..self.len]
    }
}

/// A name of a host as it is written, which stands for 1 to 255 bytes of UTF-8.
#[derive(Drop)]
pub(crate) struct WrittenName<'a> {
    text: &'a [u8],
}

impl<'a> Model for WrittenName<'a> {
    ghost use Rattle.std.specs.Prelude.{ℕ, List, ◌≡◌, true};
    ghost use Rattle.uri_map.specs.Authority.{lowered, is_name};

    ghost Value = { List ℕ };

    ghost view = { λ n. lowered n.text.now };

    ghost invariant = { λ n. is_name (lowered n.text.now) ≡ true };
}

impl<'a> WrittenName<'a> {
    /// How many bytes the name has.
    pub(crate) fn len(&self) -> usize
        ensures { result ≡ length self.now }
    {
        decoded_len(self.text)
    }

    /// The name, in lower case.
    #[inline(never)]
    pub(crate) fn lowered(&self, alloc: Global) -> Result<Text, AllocError>
        ensures { IfOk result (λ t. t ≡ self.now) }
    {
        let Some(name) = HostName::lowered(self.text) else {
            unreachable!()
        };
        match from_utf8(name.as_slice()) {
            Ok(text) => Text::copy_of(alloc, text),
            Err(_) => unreachable!(),
        }
    }
}

/// A host before any memory is taken for it.
#[derive(Drop)]
pub(crate) enum Named<'a> {
    Name(WrittenName<'a>),
    V4(Ipv4Addr),
    V6(Ipv6Addr),
}

/// The host that a name is, or an address that is written with escapes.
#[inline(never)]
#[tactic(auto, unfolding(crate::specs::Authority::named_at))]
fn name_of(text: &[u8]) -> Result<Named<'_>, UriFault>
    ensures { Reads host_view result (spec.named_at text.now) }
{
    if check_escapes(text).is_err() {
        return Err(UriFault::Authority);
    }
    let name = HostName::lowered(text).ok_or(UriFault::Authority)?;
    match v4_of(name.as_slice()) {
        Some(address) => Ok(Named::V4(address)),
        None => Ok(Named::Name(WrittenName { text })),
    }
}

/// The host that a text without brackets names.
fn host_named(text: &[u8]) -> Result<Named<'_>, UriFault>
    ensures { Reads host_view result (spec.named_at text.now) }
{
    match v4_of(text) {
        Some(address) => Ok(Named::V4(address)),
        None => name_of(text),
    }
}

/// The host and the port of an authority.
#[tactic(auto, unfolding(crate::specs::Authority::authority_at, crate::specs::Authority::name_and_port))]
pub(crate) fn authority_of(text: &[u8]) -> Result<(Named<'_>, u16), UriFault>
    ensures { Reads (λ x. (host_view x.0, x.1)) result (spec.authority_at text.now) }
{
    if text.contains(&b'@') {
        return Err(UriFault::Authority);
    }
    if let Some((address, rest)) = bracketed(text) {
        let port = port_of(rest)?;
        return Ok((Named::V6(address), port));
    }
    let (host, rest) = cut_at(Mark::Byte(b':'), text);
    let port = port_of(rest)?;
    let host = host_named(host)?;
    Ok((host, port))
}
