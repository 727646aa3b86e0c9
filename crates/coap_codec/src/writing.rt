//! Messages as bytes.

ghost use Rattle.std.specs.Prelude.{◌≡◌, ◌≤◌, ◌<◌, ◌++◌, ◌↔◌, length, IsTrue, OnOk, IfOk, IsOkUnless};
ghost use Rattle.std.specs.List.{AllByRecursion};
ghost use Rattle.coap_codec.specs.Spelling.{Spells, content, entry, entries};
ghost use Rattle.coap_codec.specs.Writing.{IsInOrder, IsShort, IsEncodable, nibble, more, AppendsOption, AppendsOptions, head_of, payload_text};

use crate::fault::CodecFault;
use crate::message::{Message, MsgType};
use crate::opt::Opt;
use crate::token::Token;
use std::alloc::{AllocError, Global};

/// The most bytes of an option's value that `encode` takes, those of a Proxy-Uri.
pub const MAX_VALUE_LEN: usize = 1034;

/// The nibble of a delta or a length.
fn nibble_of(n: u16) -> u8
    ensures { result ≡ nibble n }
{
    if n < 13 {
        n as u8
    } else if n < 269 {
        13
    } else {
        14
    }
}

/// Appends the bytes that extend the nibble: most often none.
#[inline(always)]
fn push_more(out: &mut Vec<u8>, n: u16) -> Result<(), AllocError>
    ensures { OnOk result (out.new.items ≡ out.old.items ++ more n) }
{
    if n >= 269 {
        out.extend_from_slice(&(n - 269).to_be_bytes())?;
    } else if n >= 13 {
        out.push((n - 13) as u8)?;
    }
    Ok(())
}

/// Appends an option with this number and value, after one of the number before.
pub fn append_option(
    out: &mut Vec<u8>,
    before: u16,
    number: u16,
    value: &[u8],
) -> Result<(), AllocError>
    requires in_order { before ≤ number }
    requires short { length value.now ≤ MAX_VALUE_LEN }
    ensures { OnOk result (AppendsOption before (record { number = number; value = value.now })
        out.old.items out.new.items) }
{
    let delta = number - before;
    let len = value.len() as u16;
    out.push(16 * nibble_of(delta) + nibble_of(len))?;
    push_more(out, delta)?;
    push_more(out, len)?;
    out.extend_from_slice(value)?;
    Ok(())
}

/// Appends an option after one of the number before.
fn push_option(out: &mut Vec<u8>, before: u16, o: &Opt) -> Result<(), AllocError>
    requires in_order { before ≤ o.now.number }
    requires short { length o.now.value.items ≤ MAX_VALUE_LEN }
    ensures { OnOk result (AppendsOption before (entry o.now) out.old.items out.new.items) }
{
    append_option(out, before, o.number, o.value.as_slice())
}

/// Appends all options.
fn push_options(out: &mut Vec<u8>, options: &[Opt]) -> Result<(), CodecFault>
    requires in_order { IsInOrder 0 (entries options.now) }
    requires short { AllByRecursion IsShort (entries options.now) }
    ensures ok { OnOk result (AppendsOptions (entries options.now) out.old.items out.new.items) }
    ensures memory { IsOkUnless result CodecFault.Memory }
{
    let mut before = 0;
    'each: for o in options {
        push_option(out, before, o)?;
        before = o.number;
    }
    Ok(())
}

/// Appends the header of a message and its token.
pub fn append_head(
    out: &mut Vec<u8>,
    kind: MsgType,
    code: u8,
    mid: u16,
    token: &Token,
) -> Result<(), AllocError>
    ensures ok { OnOk result
        (out.new.items ≡ out.old.items ++ head_of kind code mid token.now) }
    ensures token { OnOk result (length token.now ≤ Token.LIMIT) }
{
    let [high, low] = mid.to_be_bytes();
    out.push(64 + 16 * (kind as u8) + token.len() as u8)?;
    out.push(code)?;
    out.push(high)?;
    out.push(low)?;
    out.extend_from_slice(token.as_slice())?;
    Ok(())
}

/// Appends the payload after its marker, or nothing where there is none.
pub fn append_payload(out: &mut Vec<u8>, payload: &[u8]) -> Result<(), AllocError>
    ensures { OnOk result (out.new.items ≡ out.old.items ++ payload_text payload.now) }
{
    if !payload.is_empty() {
        out.push(0xff)?;
        out.extend_from_slice(payload)?;
    }
    Ok(())
}

/// The options are in order of their numbers, and their values short enough.
fn options_are_encodable(options: &[Opt]) -> bool
    ensures { IsTrue result
        ↔ (IsInOrder 0 (entries options.now) × AllByRecursion IsShort (entries options.now)) }
{
    let mut before = 0;
    'each: for option in options {
        if option.number < before || option.value.len() > MAX_VALUE_LEN {
            return false;
        }
        before = option.number;
    }
    true
}

/// Whether `encode` takes the message: the options in order of their numbers, values of at most
/// `MAX_VALUE_LEN` bytes, and nothing else in an Empty message.
pub fn is_encodable(m: &Message) -> bool
    ensures { IsTrue result ↔ IsEncodable (content m.now) }
{
    let empty = m.token.is_empty() && m.options.is_empty() && m.payload.is_empty();
    options_are_encodable(&m.options) && (m.code != 0 || empty)
}

/// How many bytes the message has, or some more: three for what stands before each value.
fn size_of(m: &Message) -> usize {
    let mut size = m.payload.len().saturating_add(m.token.len());
    size = size.saturating_add(5);
    'each: for option in &m.options {
        size = size.saturating_add(option.value.len());
        size = size.saturating_add(3);
    }
    size
}

/// The one spelling of the message. It takes each byte once.
pub fn encode(alloc: Global, m: &Message) -> Result<Vec<u8>, CodecFault>
    requires { IsEncodable (content m.now) }
    ensures ok { IfOk result (λ bytes. Spells (content m.now) bytes.items) }
    ensures memory { IsOkUnless result CodecFault.Memory }
{
    let mut out = Vec::with_capacity(alloc, size_of(m))?;
    append_head(&mut out, m.kind, m.code, m.mid, &m.token)?;
    push_options(&mut out, &m.options)?;
    append_payload(&mut out, &m.payload)?;
    Ok(out)
}
