//! Examples of RFC 8949, appendix A, and inputs at the limits.

use crate::telling::check;
use std::alloc::Global;
use transformers::{Refused, cbor_json, json_cbor, octets_hex};

// A CBOR item in hexadecimal, and the JSON of its value. The items have the shortest heads.
static INSIDE: [(&str, &str); 37] = [
    ("00", "0"),
    ("01", "1"),
    ("0a", "10"),
    ("17", "23"),
    ("1818", "24"),
    ("1819", "25"),
    ("1864", "100"),
    ("1903e8", "1000"),
    ("1a000f4240", "1000000"),
    ("1b000000e8d4a51000", "1000000000000"),
    ("1bffffffffffffffff", "18446744073709551615"),
    ("20", "-1"),
    ("29", "-10"),
    ("3863", "-100"),
    ("3903e7", "-1000"),
    ("3b7fffffffffffffff", "-9223372036854775808"),
    ("f4", "false"),
    ("f5", "true"),
    ("f6", "null"),
    ("60", "\"\""),
    ("6161", "\"a\""),
    ("6449455446", "\"IETF\""),
    ("62225c", "\"\\\"\\\\\""),
    ("62c3bc", "\"\u{fc}\""),
    ("63e6b0b4", "\"\u{6c34}\""),
    ("64f0908591", "\"\u{10151}\""),
    ("80", "[]"),
    ("83010203", "[1,2,3]"),
    ("8301820203820405", "[1,[2,3],[4,5]]"),
    (
        "98190102030405060708090a0b0c0d0e0f101112131415161718181819",
        "[1,2,3,4,5,6,7,8,9,10,11,12,13,14,15,16,17,18,19,20,21,22,23,24,25]",
    ),
    ("a0", "{}"),
    ("a16161f4", "{\"a\":false}"),
    ("a1616101", "{\"a\":1}"),
    ("a26161016162820203", "{\"a\":1,\"b\":[2,3]}"),
    ("826161a161626163", "[\"a\",{\"b\":\"c\"}]"),
    (
        "a56161614161626142616361436164614461656145",
        "{\"a\":\"A\",\"b\":\"B\",\"c\":\"C\",\"d\":\"D\",\"e\":\"E\"}",
    ),
    ("82f6a0", "[null,{}]"),
];

// Items that aren't taken: other kinds, keys that aren't text, items of unknown length, and items
// that aren't well formed.
static OUTSIDE: [&str; 62] = [
    "c249010000000000000000",
    "3bffffffffffffffff",
    "3b8000000000000000",
    "c349010000000000000000",
    "f90000",
    "f98000",
    "f93c00",
    "fb3ff199999999999a",
    "f93e00",
    "f97bff",
    "fa47c35000",
    "fa7f7fffff",
    "fb7e37e43c8800759c",
    "f90001",
    "f90400",
    "f9c400",
    "fbc010666666666666",
    "f97c00",
    "f97e00",
    "f9fc00",
    "fa7f800000",
    "fb7ff0000000000000",
    "f7",
    "f0",
    "f8ff",
    "f814",
    "c074323031332d30332d32315432303a30343a30305a",
    "c11a514b67b0",
    "c1fb41d452d9e8200000",
    "d74401020304",
    "d818456449455446",
    "d82076687474703a2f2f7777772e6578616d706c652e636f6d",
    "40",
    "4401020304",
    "a201020304",
    "5f42010243030405ff",
    "7f657374726561646d696e67ff",
    "9fff",
    "9f018202039f0405ffff",
    "9f01820203820405ff",
    "83018202039f0405ff",
    "83019f0203ff820405",
    "9f0102030405060708090a0b0c0d0e0f101112131415161718181819ff",
    "bf61610161629f0203ffff",
    "826161bf61626163ff",
    "bf6346756ef563416d7421ff",
    "",
    "18",
    "19ff",
    "1a000000",
    "1b00000000000000",
    "1c",
    "1f",
    "61",
    "62c3",
    "61ff",
    "81",
    "a1",
    "a16161",
    "0000",
    "a2616101616102",
    "9bffffffffffffffff00",
];

// Items with heads that are longer than they have to be, or with keys out of order.
static LONG: [(&str, &str); 6] = [
    ("1817", "17"),
    ("1900ff", "18ff"),
    ("1b0000000000000001", "01"),
    ("79000161", "6161"),
    ("9a0000000101", "8101"),
    ("a2616202616101", "a2616101616202"),
];

// JSON that isn't taken.
static REFUSED: [&[u8]; 17] = [
    b"",
    b"1.5",
    b"{\"a\":1.5}",
    b"-0",
    b"1e2",
    b"18446744073709551616",
    b"-9223372036854775809",
    b"[1,[2.5]]",
    b"{\"a\":{\"b\":0.1}}",
    b"nul",
    b"1 2",
    b"[1",
    b"{\"a\"}",
    b"\"\\ud800\"",
    b"[1,]",
    b"'a'",
    b"\"\xff\"",
];

// The bytes of an item.
fn bytes_of(alloc: Global, item: &str) -> Option<Vec<u8>> {
    hex::decode(alloc, item).ok()
}

// This JSON is made of the item.
fn makes_json(alloc: Global, item: &[u8], json: &[u8]) -> bool {
    match cbor_json(alloc, item) {
        Ok(made) => made.as_slice() == json,
        Err(_) => false,
    }
}

// This item is made of the JSON.
fn makes_item(alloc: Global, json: &[u8], item: &[u8]) -> bool {
    match json_cbor(alloc, json) {
        Ok(made) => made.as_slice() == item,
        Err(_) => false,
    }
}

fn makes_both(alloc: Global, item: &str, json: &str) -> bool {
    match bytes_of(alloc, item) {
        Some(item) => {
            makes_json(alloc, &item, json.as_bytes()) && makes_item(alloc, json.as_bytes(), &item)
        }
        None => false,
    }
}

#[test]
fn items_inside(rt: HostRuntime) {
    for &(item, json) in &INSIDE {
        check(&rt, item, makes_both(rt.alloc(), item, json));
    }
}

fn is_item_refused(alloc: Global, item: &[u8]) -> bool {
    cbor_json(alloc, item).err() == Some(Refused::Content)
}

fn is_json_refused(alloc: Global, json: &[u8]) -> bool {
    json_cbor(alloc, json).err() == Some(Refused::Content)
}

fn is_outside(alloc: Global, item: &str) -> bool {
    match bytes_of(alloc, item) {
        Some(item) => is_item_refused(alloc, &item),
        None => false,
    }
}

#[test]
fn items_outside(rt: HostRuntime) {
    for &item in &OUTSIDE {
        check(&rt, item, is_outside(rt.alloc(), item));
    }
}

// The item that is made of the JSON that is made of the item is this one.
fn is_shortened(alloc: Global, item: &[u8], short: &[u8]) -> bool {
    match cbor_json(alloc, item) {
        Ok(json) => makes_item(alloc, &json, short),
        Err(_) => false,
    }
}

fn has_short(alloc: Global, long: &str, short: &str) -> bool {
    match (bytes_of(alloc, long), bytes_of(alloc, short)) {
        (Some(long), Some(short)) => is_shortened(alloc, &long, &short),
        _ => false,
    }
}

#[test]
fn long_heads(rt: HostRuntime) {
    for &(long, short) in &LONG {
        check(&rt, long, has_short(rt.alloc(), long, short));
    }
}

#[test]
fn json_refused(rt: HostRuntime) {
    for &json in &REFUSED {
        check(&rt, json, is_json_refused(rt.alloc(), json));
    }
}

#[test]
fn equal_keys(rt: HostRuntime) {
    let item = b"\xa2\x61\x61\x03\x61\x62\x02";
    assert!(rt; makes_item(rt.alloc(), b"{\"a\":1,\"b\":2,\"a\":3}", item));
}

// An empty array within so many others, as an item.
fn nested_item(alloc: Global, others: u8) -> Option<Vec<u8>> {
    let mut item = Vec::new(alloc);
    item.resize(usize::from(others), 0x81).ok()?;
    item.push(0x80).ok()?;
    Some(item)
}

// The same as JSON.
fn nested_json(alloc: Global, others: u8) -> Option<Vec<u8>> {
    let arrays = usize::from(others) + 1;
    let mut json = Vec::new(alloc);
    json.resize(arrays, b'[').ok()?;
    json.resize(2 * arrays, b']').ok()?;
    Some(json)
}

#[test]
fn nesting(rt: HostRuntime) {
    let alloc = rt.alloc();
    let item = nested_item(alloc, 31).expect(&rt, "memory");
    let json = nested_json(alloc, 31).expect(&rt, "memory");
    check(&rt, "JSON", makes_json(alloc, &item, &json));
    check(&rt, "an item", makes_item(alloc, &json, &item));
}

#[test]
fn nesting_too_deep(rt: HostRuntime) {
    let alloc = rt.alloc();
    let item = nested_item(alloc, 32).expect(&rt, "memory");
    let json = nested_json(alloc, 32).expect(&rt, "memory");
    check(&rt, "an item", is_item_refused(alloc, &item));
    check(&rt, "JSON", is_json_refused(alloc, &json));
}

fn has_digits(alloc: Global, octets: &[u8], want: &[u8]) -> bool {
    match octets_hex(alloc, octets) {
        Ok(digits) => digits.as_slice() == want,
        Err(_) => false,
    }
}

#[test]
fn hexadecimal(rt: HostRuntime) {
    check(
        &rt,
        "three octets",
        has_digits(rt.alloc(), b"\x00\xff\x1a", b"00ff1a"),
    );
    check(&rt, "none", has_digits(rt.alloc(), b"", b""));
}
