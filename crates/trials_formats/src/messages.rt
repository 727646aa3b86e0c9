//! Messages of CoAP: the vectors of RFC 7252, and what its tables say of options.

ghost use Rattle.std.specs.Prelude.{◌^◌, ◌<◌};

use crate::telling::{check, is_written};
use coap_codec::{
    Block, CodecFault, Message, MsgType, Opt, Token, block_of, block_to, decode, definition,
    encode, first_of, is_allowed_in_response, is_critical, is_encodable, is_unsafe, no_cache_key,
    number, uint_of, uint_to, values_of,
};
use std::alloc::Global;

/// A message, its option where it has one, and its bytes.
struct Vector {
    kind: MsgType,
    code: u8,
    mid: u16,
    token: &'static [u8],
    option: Option<(u16, &'static [u8])>,
    payload: &'static [u8],
    bytes: &'static [u8],
}

/// RFC 7252, figures 16 and 17; a ping and a reset; and an option of two bytes' number.
static VECTORS: [Vector; 7] = [
    Vector {
        kind: MsgType::Con,
        code: 1,
        mid: 0x7d34,
        token: b"",
        option: Some((11, b"temperature")),
        payload: b"",
        bytes: b"\x40\x01\x7d\x34\xbbtemperature",
    },
    Vector {
        kind: MsgType::Ack,
        code: 0x45,
        mid: 0x7d34,
        token: b"",
        option: None,
        payload: b"22.3 C",
        bytes: b"\x60\x45\x7d\x34\xff22.3 C",
    },
    Vector {
        kind: MsgType::Con,
        code: 1,
        mid: 0x7d35,
        token: b"\x20",
        option: Some((11, b"temperature")),
        payload: b"",
        bytes: b"\x41\x01\x7d\x35\x20\xbbtemperature",
    },
    Vector {
        kind: MsgType::Ack,
        code: 0x45,
        mid: 0x7d35,
        token: b"\x20",
        option: None,
        payload: b"22.3 C",
        bytes: b"\x61\x45\x7d\x35\x20\xff22.3 C",
    },
    Vector {
        kind: MsgType::Con,
        code: 0,
        mid: 9,
        token: b"",
        option: None,
        payload: b"",
        bytes: b"\x40\0\0\x09",
    },
    Vector {
        kind: MsgType::Rst,
        code: 0,
        mid: 9,
        token: b"",
        option: None,
        payload: b"",
        bytes: b"\x70\0\0\x09",
    },
    Vector {
        kind: MsgType::Non,
        code: 2,
        mid: 0x0102,
        token: b"t",
        option: Some((281, b"")),
        payload: b"x",
        bytes: b"\x51\x02\x01\x02t\xe0\0\x0c\xffx",
    },
];

fn message_of(alloc: Global, row: &Vector) -> Result<Message, CodecFault> {
    if row.token.len() > 8 {
        return Err(CodecFault::TokenLength);
    }
    let token = Token::new(row.token);
    let mut m = Message::new(alloc, row.kind, row.code, row.mid, token);
    if let Some((number, value)) = row.option {
        m.options.push(Opt::new(alloc, number, value)?)?;
    }
    m.payload.extend_from_slice(row.payload)?;
    Ok(m)
}

/// The bytes of a message that can be encoded.
fn encoded(alloc: Global, m: &Message) -> Option<Vec<u8>> {
    if !is_encodable(m) {
        return None;
    }
    encode(alloc, m).ok()
}

/// The bytes are read as this message.
fn reads_as(alloc: Global, bytes: &[u8], m: &Message) -> bool {
    match decode(alloc, bytes) {
        Ok(read) => read == *m,
        Err(_) => false,
    }
}

/// The message is written as these bytes, and they are read as it.
fn is_written_so(alloc: Global, m: &Message, bytes: &[u8]) -> bool {
    match encoded(alloc, m) {
        Some(written) => written.as_slice() == bytes && reads_as(alloc, bytes, m),
        None => false,
    }
}

fn is_vector(alloc: Global, row: &Vector) -> bool {
    match message_of(alloc, row) {
        Ok(m) => is_written_so(alloc, &m, row.bytes),
        Err(_) => false,
    }
}

#[test]
fn vectors(rt: HostRuntime) {
    for row in &VECTORS {
        check(&rt, row.bytes, is_vector(rt.alloc(), row));
    }
}

/// A length, and how the message begins.
static LENGTHS: [(usize, &[u8]); 5] = [
    (12, b"\x40\x01\0\0\x1c\x07"),
    (13, b"\x40\x01\0\0\x1d\0\x07"),
    (268, b"\x40\x01\0\0\x1d\xff\x07"),
    (269, b"\x40\x01\0\0\x1e\0\0\x07"),
    (1034, b"\x40\x01\0\0\x1e\x02\xfd\x07"),
];

/// A message with an option of so many bytes.
fn with_value(alloc: Global, len: usize) -> Result<Message, CodecFault> {
    let mut m = Message::new(alloc, MsgType::Con, 1, 0, Token::new(&[]));
    let value = vec![in alloc; 7; len]?;
    m.options.push(Opt { number: 1, value })?;
    Ok(m)
}

/// The message's bytes begin so, and are read as it.
fn begins(alloc: Global, m: &Message, want: &[u8]) -> bool {
    match encoded(alloc, m) {
        Some(bytes) => bytes.starts_with(want) && reads_as(alloc, &bytes, m),
        None => false,
    }
}

/// The message with an option of so many bytes begins so.
fn has_head(alloc: Global, len: usize, want: &[u8]) -> bool {
    match with_value(alloc, len) {
        Ok(m) => begins(alloc, &m, want),
        Err(_) => false,
    }
}

/// The head of an option by the length of its value.
#[test]
fn lengths(rt: HostRuntime) {
    for &(len, want) in &LENGTHS {
        check(&rt, len, has_head(rt.alloc(), len, want));
    }
}

/// Bytes, and their first fault.
static FAULTS: [(&[u8], CodecFault); 13] = [
    (b"\x40\x01\0", CodecFault::Short),
    (b"\x80\x01\0\0", CodecFault::Version),
    (b"\x49\x01\0\x07", CodecFault::TokenLength),
    (b"\x48\x45\0\x07", CodecFault::Truncated),
    (b"\x40\x45\0\x07\xff", CodecFault::EmptyPayload),
    (b"\x50\x45\0\x07\xf0", CodecFault::Reserved),
    (b"\x41\0\0\x07\xaa", CodecFault::EmptyExtra),
    (b"\x40\0\0\x07\xff", CodecFault::EmptyExtra),
    (b"\x40\x45\0\x07\xe0\xff\xff", CodecFault::Number),
    // The delta's and the length's bytes are missing, and one of the value's.
    (b"\x40\x45\0\x07\xe0\xff", CodecFault::Truncated),
    (b"\x40\x45\0\x07\x1d", CodecFault::Truncated),
    (b"\x40\x45\0\x07\x12a", CodecFault::Truncated),
    // The first of two faults, after an option that is good.
    (b"\x40\x45\0\x07\x11a\x0f\xff", CodecFault::Reserved),
];

fn has_fault(alloc: Global, bytes: &[u8], fault: CodecFault) -> bool {
    decode(alloc, bytes).err() == Some(fault)
}

#[test]
fn faults(rt: HostRuntime) {
    for &(bytes, fault) in &FAULTS {
        check(&rt, bytes, has_fault(rt.alloc(), bytes, fault));
    }
}

/// A number, and its shortest bytes.
static NUMBERS: [(u32, &[u8]); 4] = [
    (0, b""),
    (60, b"\x3c"),
    (258, b"\x01\x02"),
    (0xffff_ffff, b"\xff\xff\xff\xff"),
];

fn is_number(alloc: Global, n: u32, want: &[u8]) -> bool {
    match uint_to(alloc, n) {
        Ok(bytes) => bytes.as_slice() == want,
        Err(_) => false,
    }
}

#[test]
fn numbers(rt: HostRuntime) {
    for &(n, want) in &NUMBERS {
        check(&rt, n, is_number(rt.alloc(), n, want));
    }
    check(&rt, "leading zeros", uint_of(&[0, 0, 1, 2]) == 258);
}

/// The block has these bytes.
fn is_block(alloc: Global, block: Block, want: &[u8]) -> bool
    requires num { block.num < 2 ^ 20 }
    requires szx { block.szx < 7 }
{
    match block_to(alloc, block) {
        Ok(bytes) => bytes.as_slice() == want,
        Err(_) => false,
    }
}

#[test]
fn blocks(rt: HostRuntime) {
    let second = Block {
        num: 1,
        more: true,
        szx: 6,
    };
    check(&rt, "written", is_block(rt.alloc(), second, b"\x1e"));
    check(&rt, "read", block_of(b"\x1e") == Some(second));
    check(&rt, "its size", second.size() == 1024);
    check(&rt, "a size of 7", block_of(b"\x07").is_none());
}

/// The values are these two, and no others.
fn are_two(values: &[&[u8]], one: &[u8], other: &[u8]) -> bool {
    match values {
        [first, second] => *first == one && *second == other,
        _ => false,
    }
}

/// The message has these two values of an ETag, and no others.
fn has_tags(alloc: Global, m: &Message, one: &[u8], other: &[u8]) -> bool {
    match values_of(alloc, m, number::ETAG) {
        Ok(values) => are_two(&values, one, other),
        Err(_) => false,
    }
}

/// The message has the token `t`, and the ETags `a` and `bc`.
fn is_tagged(alloc: Global, m: &Message) -> bool {
    m.token.as_slice() == b"t".as_slice()
        && m.token.len() == 1
        && !m.token.is_empty()
        && first_of(m, number::ETAG) == Some(b"a".as_slice())
        && has_tags(alloc, m, b"a", b"bc")
}

/// The same of a copy of the message, which is the message again.
fn is_copied(alloc: Global, m: &Message) -> bool {
    match m.copy(alloc) {
        Ok(copy) => copy == *m && is_tagged(alloc, &copy),
        Err(_) => false,
    }
}

/// The same of the message of these bytes.
fn is_copied_when_read(alloc: Global, bytes: &[u8]) -> bool {
    match decode(alloc, bytes) {
        Ok(m) => is_copied(alloc, &m),
        Err(_) => false,
    }
}

#[test]
fn copies_and_values(rt: HostRuntime) {
    assert!(rt; is_copied_when_read(rt.alloc(), b"\x51\x02\0\x01t\x41a\x02bc\xffx"));
}

/// RFC 7252, table 4, RFC 7641 and RFC 7959: an option's number, whether it is critical, and
/// whether it is unsafe to forward.
type OptionRow = (u16, bool, bool);

static OPTIONS: [OptionRow; 19] = [
    (1, true, false),
    (3, true, true),
    (4, false, false),
    (5, true, false),
    (6, false, true),
    (7, true, true),
    (8, false, false),
    (11, true, true),
    (12, false, false),
    (14, false, true),
    (15, true, true),
    (17, true, false),
    (20, false, false),
    (23, true, true),
    (27, true, true),
    (28, false, false),
    (35, true, true),
    (39, true, true),
    (60, false, false),
];

/// The option is defined so.
fn is_option(row: &OptionRow) -> bool {
    let &(number, critical, unsafe_to_forward) = row;
    definition(number).is_some()
        && is_critical(number) == critical
        && is_unsafe(number) == unsafe_to_forward
}

/// How many options below 100 are defined.
fn count_of_options() -> u8 {
    let mut known: u8 = 0;
    for number in 0..100 {
        if definition(number).is_some() {
            known = known.saturating_add(1);
        }
    }
    known
}

#[test]
fn option_table(rt: HostRuntime) {
    for row in &OPTIONS {
        check(&rt, row, is_option(row));
    }
    check(&rt, "no others", count_of_options() == 19);
}

/// Size1 is named so, is no part of a cache key, and has at most four bytes.
fn is_size1(alloc: Global) -> bool {
    match definition(number::SIZE1) {
        Some(it) => {
            is_written(alloc, &it.name, "Size1")
                && it.no_cache_key
                && it.allows_len(4)
                && !it.allows_len(5)
        }
        None => false,
    }
}

#[test]
fn one_option(rt: HostRuntime) {
    check(&rt, "Size1", is_size1(rt.alloc()));
    check(&rt, "Max-Age", is_allowed_in_response(number::MAX_AGE));
    check(&rt, "Uri-Path", !is_allowed_in_response(number::URI_PATH));
    check(&rt, "NoCacheKey", no_cache_key(0x1c) && !no_cache_key(0x1e));
    let words = "a token length above 8";
    check(
        &rt,
        "a fault",
        is_written(rt.alloc(), &CodecFault::TokenLength, words),
    );
}
