//! The options of a request, written into its datagram one after the other.

ghost use Rattle.std.specs.Prelude.{◌≡◌, ◌≢◌, ◌≤◌, ◌<◌, ◌^◌, [], ◌++◌, true, length, option_map, IfOk, IfSome, OnOk};
ghost use Rattle.std.specs.List.{AllByRecursion};
ghost use Rattle.coap_codec.specs.declared.message.MsgType.TheVariants.{Con};
ghost use Rattle.coap_codec.specs.Spelling.{Spells};
ghost use Rattle.coap_codec.specs.Writing.{AppendsOption, IsShort, head_of};
ghost use Rattle.uri_map.specs.Limits.{fits, host_options, option_with, options_with, uri_options};
ghost use Rattle.ask_model.specs.Requests.{block_option, block_value, observing_options, optional, options_asking, uint_bytes, validating_options};
ghost use Rattle.ask_model.specs.Written.{AreAppended, resource_options};

use crate::request::GET;
use coap_codec::number::{
    ACCEPT, BLOCK1, BLOCK2, CONTENT_FORMAT, ETAG, OBSERVE, URI_HOST, URI_PATH, URI_QUERY,
};
use coap_codec::{Block, MsgType, Token, append_head, append_option, append_payload};
use std::alloc::{AllocError, Global};
use uri_map::{Host, Target, Text};

/// How many bytes an option takes beside its value, or some more.
const BESIDE_VALUE: usize = 3;

/// How many bytes the texts take as options, or some more.
fn texts_size(texts: &[Text]) -> usize {
    let mut size = 0usize;
    'each: for text in texts {
        size = size.saturating_add(text.len().saturating_add(BESIDE_VALUE));
    }
    size
}

/// How many bytes a message for the target takes, or some more, with so many of a payload.
fn message_size(target: &Target, payload_len: usize) -> usize {
    let host = match &target.host {
        Host::Name(name) => name.len().saturating_add(BESIDE_VALUE),
        Host::V4(_) | Host::V6(_) => 0,
    };
    let texts = texts_size(target.path.as_slice()).saturating_add(texts_size(
        target.query.as_slice(),
    ));
    host.saturating_add(texts)
        .saturating_add(payload_len)
        .saturating_add(24)
}

/// The head of a CON, with room for the options of a request for the target and a payload of so
/// many bytes.
fn head_for(
    alloc: Global,
    code: u8,
    mid: u16,
    token: &Token,
    target: &Target,
    payload_len: usize,
) -> Result<Vec<u8>, AllocError>
    ensures ok { IfOk result (λ out. out.items ≡ head_of Con code mid token.now) }
    ensures token { OnOk result (length token.now ≤ 8) }
{
    let mut out = Vec::with_capacity(alloc, message_size(target, payload_len))?;
    append_head(&mut out, MsgType::Con, code, mid, token)?;
    Ok(out)
}

/// Appends an option for each text, after one of the number before. Says the number of the last.
fn append_texts(
    out: &mut Vec<u8>,
    before: u16,
    number: u16,
    texts: &[Text],
) -> Result<u16, AllocError>
    requires in_order { before ≤ number }
    requires short { AllByRecursion IsShort (options_with number texts.now) }
    ensures ok { IfOk result (λ last.
        AreAppended before (options_with number texts.now) last out.old.items out.new.items) }
    ensures small { IfOk result (λ last. last ≤ number) }
{
    let mut last = before;
    'each: for text in texts {
        append_option(out, last, number, text.as_bytes())?;
        last = number;
    }
    Ok(last)
}

/// Appends an option that bears the number: in network byte order, and no zero leads (RFC 7252
/// section 3.2).
fn append_uint(out: &mut Vec<u8>, before: u16, number: u16, n: u32) -> Result<(), AllocError>
    requires in_order { before ≤ number }
    requires small { n < 2 ^ 24 }
    ensures { OnOk result (AppendsOption before (option_with number (uint_bytes n))
        out.old.items out.new.items) }
{
    let bytes = n.to_be_bytes();
    let zeros = if n == 0 {
        4
    } else if n < 0x100 {
        3
    } else if n < 0x1_0000 {
        2
    } else {
        1
    };
    append_option(out, before, number, &bytes[zeros..])
}

/// Appends an option that bears the number, where there is one. Says the number of the last.
fn append_optional(
    out: &mut Vec<u8>,
    before: u16,
    number: u16,
    n: Option<u32>,
) -> Result<u16, AllocError>
    requires in_order { before ≤ number }
    requires small { IfSome n (λ n. n < 2 ^ 24) }
    ensures ok { IfOk result (λ last.
        AreAppended before (optional number n) last out.old.items out.new.items) }
    ensures small { IfOk result (λ last. last ≤ number) }
{
    match n {
        None => Ok(before),
        Some(n) => {
            append_uint(out, before, number, n)?;
            Ok(number)
        }
    }
}

/// The same number.
fn wide(n: Option<u16>) -> Option<u32>
    ensures same { result ≡ n }
    ensures small { IfSome result (λ n. n < 2 ^ 24) }
{
    match n {
        None => None,
        Some(n) => Some(u32::from(n)),
    }
}

/// Appends the option of the host, if it has one.
fn append_host(out: &mut Vec<u8>, host: &Host) -> Result<u16, AllocError>
    requires { AllByRecursion IsShort (host_options host.now) }
    ensures ok { IfOk result (λ last.
        AreAppended 0 (host_options host.now) last out.old.items out.new.items) }
    ensures small { IfOk result (λ last. last ≤ 3) }
{
    match host {
        Host::Name(name) => {
            append_option(out, 0, URI_HOST, name.as_bytes())?;
            Ok(URI_HOST)
        }
        Host::V4(_) | Host::V6(_) => Ok(0),
    }
}

/// Appends the options of the path and the query, each with its format after it.
fn append_resource(
    out: &mut Vec<u8>,
    before: u16,
    target: &Target,
    format: Option<u16>,
    accept: Option<u16>,
) -> Result<u16, AllocError>
    requires in_order { before ≤ 11 }
    requires fits { fits (uri_options target.now) ≡ true }
    ensures ok { IfOk result (λ last. AreAppended before
        (resource_options target.now format accept) last out.old.items out.new.items) }
    ensures small { IfOk result (λ last. last ≤ 17) }
{
    let path = append_texts(out, before, URI_PATH, target.path.as_slice())?;
    let typed = append_optional(out, path, CONTENT_FORMAT, wide(format))?;
    let query = append_texts(out, typed, URI_QUERY, target.query.as_slice())?;
    append_optional(out, query, ACCEPT, wide(accept))
}

/// Appends the options of a request for the target, with these formats of its body and of what is
/// wanted. Says the number of the last.
fn append_asking(
    out: &mut Vec<u8>,
    target: &Target,
    format: Option<u16>,
    accept: Option<u16>,
) -> Result<u16, AllocError>
    requires { fits (uri_options target.now) ≡ true }
    ensures ok { IfOk result (λ last. AreAppended 0
        (options_asking target.now format accept) last out.old.items out.new.items) }
    ensures small { IfOk result (λ last. last ≤ 17) }
{
    let host = append_host(out, &target.host)?;
    append_resource(out, host, target, format, accept)
}

/// Appends the options of a request that asks to be told of changes (RFC 7641 section 2).
fn append_observing(
    out: &mut Vec<u8>,
    target: &Target,
    format: Option<u16>,
    accept: Option<u16>,
) -> Result<u16, AllocError>
    requires { fits (uri_options target.now) ≡ true }
    ensures { IfOk result (λ last. AreAppended 0
        (observing_options target.now format accept) last out.old.items out.new.items) }
{
    let host = append_host(out, &target.host)?;
    let observing = append_optional(out, host, OBSERVE, Some(0))?;
    append_resource(out, observing, target, format, accept)
}

/// Appends the options of a request that asks whether what has this ETag is valid still.
fn append_validating(
    out: &mut Vec<u8>,
    target: &Target,
    format: Option<u16>,
    accept: Option<u16>,
    etag: &[u8],
) -> Result<u16, AllocError>
    requires fits { fits (uri_options target.now) ≡ true }
    requires short { length etag.now ≤ 8 }
    ensures { IfOk result (λ last. AreAppended 0
        (validating_options etag.now target.now format accept) last out.old.items out.new.items) }
{
    let host = append_host(out, &target.host)?;
    append_option(out, host, ETAG, etag)?;
    append_resource(out, ETAG, target, format, accept)
}

/// The number that a Block option bears (RFC 7959 section 2.2).
fn block_value(block: Block) -> u32
    requires num { block.num < 2 ^ 20 }
    requires szx { block.szx < 7 }
    ensures value { result ≡ block_value block }
    ensures small { result < 2 ^ 24 }
{
    let more = if block.more { 8 } else { 0 };
    16 * block.num + (more + u32::from(block.szx))
}

/// The number that names the block, where one is named.
fn number_of(block: Option<Block>) -> Option<u32>
    requires num { IfSome block (λ b. b.num < 2 ^ 20) }
    requires szx { IfSome block (λ b. b.szx < 7) }
    ensures value { result ≡ option_map block_value block }
    ensures small { IfSome result (λ n. n < 2 ^ 24) }
{
    match block {
        None => None,
        Some(block) => Some(block_value(block)),
    }
}

/// The option that names a block: Block2 for one of the representation that a GET asks for, Block1
/// for one of the request's own body (RFC 7959 section 2.1).
fn block_option(method: u8) -> u16
    ensures is { result ≡ block_option method }
    ensures late { 17 ≤ result }
{
    if method == GET { BLOCK2 } else { BLOCK1 }
}

/// Appends the option that names the block, where one is named.
fn append_block(
    out: &mut Vec<u8>,
    before: u16,
    method: u8,
    block: Option<Block>,
) -> Result<u16, AllocError>
    requires in_order { before ≤ 17 }
    requires num { IfSome block (λ b. b.num < 2 ^ 20) }
    requires szx { IfSome block (λ b. b.szx < 7) }
    ensures { IfOk result (λ last. AreAppended before
        (optional (block_option method) (option_map block_value block)) last
        out.old.items out.new.items) }
{
    append_optional(out, before, block_option(method), number_of(block))
}

/// The message of a request, under this message ID and token, for the block that is named, with
/// this payload.
pub(crate) fn asking_bytes(
    alloc: Global,
    code: u8,
    mid: u16,
    token: &Token,
    target: &Target,
    format: Option<u16>,
    accept: Option<u16>,
    block: Option<Block>,
    payload: &[u8],
) -> Result<Vec<u8>, AllocError>
    requires code { code ≢ 0 }
    requires fits { fits (uri_options target.now) ≡ true }
    requires num { IfSome block (λ b. b.num < 2 ^ 20) }
    requires szx { IfSome block (λ b. b.szx < 7) }
    ensures { IfOk result (λ bytes. Spells (record {
      kind = Con;
      code = code;
      mid = mid;
      token = token.now;
      options = options_asking target.now format accept
          ++ optional (block_option code) (option_map block_value block);
      payload = payload.now;
    }) bytes.items) }
{
    let mut out = head_for(alloc, code, mid, token, target, payload.len())?;
    let last = append_asking(&mut out, target, format, accept)?;
    append_block(&mut out, last, code, block)?;
    append_payload(&mut out, payload)?;
    Ok(out)
}

/// The message of a GET that asks to be told of changes.
pub(crate) fn observing_bytes(
    alloc: Global,
    code: u8,
    mid: u16,
    token: &Token,
    target: &Target,
    format: Option<u16>,
    accept: Option<u16>,
) -> Result<Vec<u8>, AllocError>
    requires code { code ≢ 0 }
    requires fits { fits (uri_options target.now) ≡ true }
    ensures { IfOk result (λ bytes. Spells (record {
      kind = Con;
      code = code;
      mid = mid;
      token = token.now;
      options = observing_options target.now format accept;
      payload = [];
    }) bytes.items) }
{
    let mut out = head_for(alloc, code, mid, token, target, 0)?;
    append_observing(&mut out, target, format, accept)?;
    Ok(out)
}

/// The message of a GET that asks whether what has this ETag is valid still.
pub(crate) fn validating_bytes(
    alloc: Global,
    code: u8,
    mid: u16,
    token: &Token,
    target: &Target,
    format: Option<u16>,
    accept: Option<u16>,
    etag: &[u8],
) -> Result<Vec<u8>, AllocError>
    requires code { code ≢ 0 }
    requires fits { fits (uri_options target.now) ≡ true }
    requires short { length etag.now ≤ 8 }
    ensures { IfOk result (λ bytes. Spells (record {
      kind = Con;
      code = code;
      mid = mid;
      token = token.now;
      options = validating_options etag.now target.now format accept;
      payload = [];
    }) bytes.items) }
{
    let mut out = head_for(alloc, code, mid, token, target, etag.len())?;
    append_validating(&mut out, target, format, accept, etag)?;
    Ok(out)
}
