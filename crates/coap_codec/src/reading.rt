//! Bytes as messages.

ghost use Rattle.std.specs.Prelude.{◌<◌, ◌≤◌, ◌≡◌, ◌⊎◌, length, IfOk, IfErr, IsErrOf, MatchResult};
ghost use Rattle.std.specs.Option.{option_map};
ghost use Rattle.coap_codec.specs.Spelling.{Content, Spells, entries, content};
ghost use Rattle.coap_codec.specs.Faults.{FirstFault};
ghost use Rattle.coap_codec.specs.Reading.{Reads, Gives, extended_at, value_at, option_at, next_at, only_rest, only_options, payload_at, head_at, message_at, GivesLast};
ghost use Rattle.coap_codec.specs.declared.fault.CodecFault.{CodecFault};

use crate::fault::CodecFault;
use crate::message::{Message, MsgType};
use crate::opt::Opt;
use crate::token::Token;
use std::alloc::Global;

/// The first four bytes.
#[derive(Clone, Copy)]
struct Head {
    kind: MsgType,
    code: u8,
    mid: u16,
    token_len: u8,
}

/// An option where it stands in the bytes.
#[derive(Clone, Copy)]
struct Found<'a> {
    number: u16,
    value: &'a [u8],
}

/// The number that a nibble below 15 and the bytes after it stand for, and the bytes after those.
fn extended_of(nibble: u8, bytes: &[u8]) -> Result<(u32, &[u8]), CodecFault>
    ensures reads { Reads (λ x. (x.0, x.1.now)) result (extended_at nibble bytes.now) }
    ensures bound { nibble < 16 → IfOk result (λ x. x.0 < 65805) }
{
    if nibble < 13 {
        return Ok((u32::from(nibble), bytes));
    }
    if nibble == 13 {
        return match bytes {
            [] => Err(CodecFault::Truncated),
            [more, rest @ ..] => Ok((u32::from(*more) + 13, rest)),
        };
    }
    match bytes {
        [high, low, rest @ ..] => Ok((256 * u32::from(*high) + u32::from(*low) + 269, rest)),
        _ => Err(CodecFault::Truncated),
    }
}

/// So many bytes, and the bytes after them.
fn value_of(len: u32, bytes: &[u8]) -> Result<(&[u8], &[u8]), CodecFault>
    ensures reads { Reads (λ x. (x.0.now, x.1.now)) result (value_at len bytes.now) }
    ensures len { IfOk result (λ x. length x.0.now ≡ len) }
{
    let len = len as usize;
    if bytes.len() < len {
        return Err(CodecFault::Truncated);
    }
    Ok(bytes.split_at(len))
}

/// The option that begins with the byte, after one of the number before, and the bytes after it.
#[tactic(auto, unfolding(crate::specs::Reading::option_at))]
fn option_of(before: u16, first: u8, bytes: &[u8]) -> Result<(Found<'_>, &[u8]), CodecFault>
    ensures { Reads (λ x. (record { number = x.0.number; value = x.0.value.now }, x.1.now)) result
        (option_at before first bytes.now) }
{
    if first / 16 == 15 || first % 16 == 15 {
        return Err(CodecFault::Reserved);
    }
    let (delta, rest) = extended_of(first / 16, bytes)?;
    let number = u32::from(before) + delta;
    if number > 65535 {
        return Err(CodecFault::Number);
    }
    let (len, rest) = extended_of(first % 16, rest)?;
    let (value, rest) = value_of(len, rest)?;
    let number = number as u16;
    Ok((Found { number, value }, rest))
}

/// The next option and the bytes after it, or none at the end or the payload marker.
#[inline(always)]
#[tactic(auto, unfolding(crate::specs::Reading::next_at))]
fn next_option(before: u16, bytes: &[u8]) -> Result<Option<(Found<'_>, &[u8])>, CodecFault>
    ensures { Reads (λ o.
        option_map (λ x. (record { number = x.0.number; value = x.0.value.now }, x.1.now)) o)
        result (next_at before bytes.now) }
{
    match bytes {
        [] => Ok(None),
        [0xff, ..] => Ok(None),
        [first, rest @ ..] => {
            let next = option_of(before, *first, rest)?;
            Ok(Some(next))
        }
    }
}

/// The bytes after the options, which have no fault.
fn after_options(bytes: &[u8]) -> Result<&[u8], CodecFault>
    ensures { Reads (λ x. x.now) result (only_rest bytes.now) }
{
    let mut number = 0;
    let mut rest = bytes;
    'each: while let Some((found, next)) = next_option(number, rest)? {
        number = found.number;
        rest = next;
    }
    Ok(rest)
}

/// The options at the front.
fn options_of(alloc: Global, bytes: &[u8]) -> Result<Vec<Opt>, CodecFault>
    ensures { Gives (λ v. entries v.items) result (only_options bytes.now) }
{
    let mut options = Vec::new(alloc);
    let mut number = 0;
    let mut rest = bytes;
    'each: while let Some((found, next)) = next_option(number, rest)? {
        let value = Vec::from_slice(alloc, found.value)?;
        number = found.number;
        options.push(Opt { number, value })?;
        rest = next;
    }
    Ok(options)
}

/// The payload, where the options end.
fn payload_of(bytes: &[u8]) -> Result<&[u8], CodecFault>
    ensures { Reads (λ x. x.now) result (payload_at bytes.now) }
{
    match bytes {
        [] => Ok(bytes),
        [_] => Err(CodecFault::EmptyPayload),
        [_, payload @ ..] => Ok(payload),
    }
}

/// The header, and the bytes after it.
fn head_of(bytes: &[u8]) -> Result<(Head, &[u8]), CodecFault>
    ensures reads { Reads (λ x.
        (record { kind = x.0.kind; code = x.0.code; mid = x.0.mid; len = x.0.token_len }, x.1.now))
        result (head_at bytes.now) }
    ensures short { IfOk result (λ x. x.0.token_len ≤ 8) }
{
    let [first, code, high, low, rest @ ..] = bytes else {
        return Err(CodecFault::Short);
    };
    if first / 64 != 1 {
        return Err(CodecFault::Version);
    }
    let token_len = first % 16;
    if token_len > 8 {
        return Err(CodecFault::TokenLength);
    }
    if *code == 0 && (token_len > 0 || !rest.is_empty()) {
        return Err(CodecFault::EmptyExtra);
    }
    let kind = match first / 16 % 4 {
        0 => MsgType::Con,
        1 => MsgType::Non,
        2 => MsgType::Ack,
        _ => MsgType::Rst,
    };
    let head = Head {
        kind,
        code: *code,
        mid: u16::from_be_bytes([*high, *low]),
        token_len,
    };
    Ok((head, rest))
}

/// First each fault is looked for, without memory; then the message is made.
#[tactic(auto, unfolding(crate::specs::Reading::message_at))]
fn message_of(alloc: Global, bytes: &[u8]) -> Result<Message, CodecFault>
    ensures { GivesLast content result (message_at bytes.now) }
{
    let (head, rest) = head_of(bytes)?;
    let (token, rest) = value_of(u32::from(head.token_len), rest)?;
    let after = after_options(rest)?;
    let payload = payload_of(after)?;
    let options = options_of(alloc, rest)?;
    let payload = Vec::from_slice(alloc, payload)?;
    Ok(Message {
        kind: head.kind,
        code: head.code,
        mid: head.mid,
        token: Token::new(token),
        options,
        payload,
    })
}

/// The message that the bytes spell, or their first fault in reading order.
///
/// It reads each byte a bounded number of times, and takes memory only once all of them are
/// found good, and only for what the message keeps.
pub fn decode(alloc: Global, bytes: &[u8]) -> Result<Message, CodecFault>
    ensures found { IfOk result (λ m. Spells (content m) bytes.now) }
    // What is spelled is read, unless memory runs out.
    ensures only { (m : Content) → Spells m bytes.now
        → MatchResult result (λ n. content n ≡ m) (λ e. e ≡ CodecFault.Memory) }
    ensures fault { IfErr result (λ e. (e ≡ CodecFault.Memory) ⊎ FirstFault bytes.now e) }
    ensures fault_only { (f : CodecFault) → FirstFault bytes.now f → IsErrOf result f }
    // Memory runs out only where the bytes spell a message.
    ensures memory { IsErrOf result CodecFault.Memory → (m : Content) × Spells m bytes.now }
    // The same in one equation, for definitions that read.
    ensures exact { GivesLast content result (message_at bytes.now) }
{
    message_of(alloc, bytes)
}
