//! The text under which the proxy hosts a target (RFC 8075, section 5.3).

ghost use Rattle.std.specs.Prelude.{◌≡◌, ◌<◌, ◌++◌, IfOk, OnOk, codes, flat_map};
ghost use Rattle.std.specs.Char.{digit_char};
ghost use Rattle.std.specs.Net.Text.{groups_text, hex};
ghost use Rattle.percent_encoding.specs.Percent.{percent_encode as encoded};
ghost use Rattle.uri_map.specs.Hosting as spec;

use crate::address::COAP_PORT;
use crate::target::{Host, Target};
use crate::text::Text;
use percent_encoding::{AsciiSet, NON_ALPHANUMERIC, ascii_set, percent_encode};
use std::alloc::{AllocError, Global};

/// What is escaped in a segment: all but the unreserved bytes (RFC 3986, section 2.3).
const SEGMENT: AsciiSet = ascii_set!(
    NON_ALPHANUMERIC
        .remove(b'-')
        .remove(b'.')
        .remove(b'_')
        .remove(b'~')
);

/// What is escaped in an argument: the same, save `=`.
const ARGUMENT: AsciiSet = ascii_set!(
    NON_ALPHANUMERIC
        .remove(b'-')
        .remove(b'.')
        .remove(b'_')
        .remove(b'~')
        .remove(b'=')
);

/// Appends the escaped bytes.
fn push_escaped(
    alloc: Global,
    out: &mut Vec<u8>,
    set: AsciiSet,
    bytes: &[u8],
) -> Result<(), AllocError>
    ensures { OnOk result (out.new.items ≡ out.old.items ++ encoded set bytes.now) }
{
    let text = percent_encode(bytes, set).into_cow(alloc)?;
    out.extend_from_slice(text.as_str().as_bytes())?;
    Ok(())
}

/// A hexadecimal digit, in lower case.
fn hex_digit(n: u16) -> u8
    requires { n < 16 }
    ensures { result ≡ digit_char n }
{
    if n < 10 {
        b'0' + n as u8
    } else {
        b'a' + (n - 10) as u8
    }
}

/// Appends a group of an IPv6 address, without leading zeros.
#[tactic(auto, unfolding(std::specs::Net::Text::hex))]
fn push_group(out: &mut Vec<u8>, n: u16) -> Result<(), AllocError>
    ensures { OnOk result (out.new.items ≡ out.old.items ++ hex n) }
{
    if n >= 0x1000 {
        out.push(hex_digit(n / 0x1000))?;
    }
    if n >= 0x100 {
        out.push(hex_digit(n / 0x100 % 16))?;
    }
    if n >= 0x10 {
        out.push(hex_digit(n / 0x10 % 16))?;
    }
    out.push(hex_digit(n % 16))?;
    Ok(())
}

/// Appends groups, each after a colon.
fn push_other_groups(out: &mut Vec<u8>, segments: &[u16]) -> Result<(), AllocError>
    ensures { OnOk result (out.new.items
        ≡ out.old.items ++ flat_map (λ n. codes ":" ++ hex n) segments.now) }
{
    'each: for segment in segments {
        out.push(b':')?;
        push_group(out, *segment)?;
    }
    Ok(())
}

/// Appends groups with colons between them.
fn push_groups(out: &mut Vec<u8>, segments: &[u16]) -> Result<(), AllocError>
    ensures { OnOk result (out.new.items ≡ out.old.items ++ groups_text segments.now) }
{
    if let [first, others @ ..] = segments {
        push_group(out, *first)?;
        push_other_groups(out, others)?;
    }
    Ok(())
}

fn push_host(alloc: Global, out: &mut Vec<u8>, host: &Host) -> Result<(), AllocError>
    ensures { OnOk result (out.new.items ≡ out.old.items ++ spec.host_text host.now) }
{
    match host {
        Host::Name(name) => push_escaped(alloc, out, SEGMENT, name.as_bytes())?,
        Host::V4(address) => {
            let text = format!(in alloc; "{address}")?;
            out.extend_from_slice(text.as_bytes())?;
        }
        Host::V6(address) => {
            out.extend_from_slice(b"%5B")?;
            push_groups(out, &address.segments())?;
            out.extend_from_slice(b"%5D")?;
        }
    }
    Ok(())
}

fn push_port(alloc: Global, out: &mut Vec<u8>, port: u16) -> Result<(), AllocError>
    ensures { OnOk result (out.new.items ≡ out.old.items ++ spec.port_text port) }
{
    if port != COAP_PORT {
        let text = format!(in alloc; ":{port}")?;
        out.extend_from_slice(text.as_bytes())?;
    }
    Ok(())
}

/// Appends each text, escaped, after the byte.
fn push_texts(
    alloc: Global,
    out: &mut Vec<u8>,
    set: AsciiSet,
    mark: u8,
    texts: &[Text],
) -> Result<(), AllocError>
    ensures { OnOk result (out.new.items ≡ out.old.items ++ spec.texts_behind set mark texts.now) }
{
    'each: for text in texts {
        out.push(mark)?;
        push_escaped(alloc, out, set, text.as_bytes())?;
    }
    Ok(())
}

/// Appends `?` and the escaped arguments with `&` between them, or nothing where there is none.
fn push_query(alloc: Global, out: &mut Vec<u8>, texts: &[Text]) -> Result<(), AllocError>
    ensures { OnOk result (out.new.items ≡ out.old.items ++ spec.query_text texts.now) }
{
    if let [first, others @ ..] = texts {
        out.push(b'?')?;
        push_escaped(alloc, out, ARGUMENT, first.as_bytes())?;
        push_texts(alloc, out, ARGUMENT, b'&', others)?;
    }
    Ok(())
}

/// The text under which the proxy hosts the target, below the base (RFC 8075 section 5.3).
/// `target_of` gives the target back.
pub fn hosting_of(alloc: Global, base: &[u8], target: &Target) -> Result<Vec<u8>, AllocError>
    ensures { IfOk result (λ v. v.items ≡ spec.hosting base.now target.now) }
{
    let mut out = Vec::from_slice(alloc, base)?;
    out.extend_from_slice(b"coap://")?;
    push_host(alloc, &mut out, &target.host)?;
    push_port(alloc, &mut out, target.port)?;
    push_texts(alloc, &mut out, SEGMENT, b'/', target.path.as_slice())?;
    push_query(alloc, &mut out, target.query.as_slice())?;
    Ok(out)
}
