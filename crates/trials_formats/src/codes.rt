//! Methods, and the statuses of response codes (RFC 8075, table 2).

use crate::telling::{check, is_written};
use code_map::{Method, Status, is_passed_on, method_of, phrase_of, status_of};

/// A method's name, the method, its code, and whether it writes.
type MethodRow = (&'static [u8], Method, u8, bool);

static METHODS: [MethodRow; 5] = [
    (b"GET", Method::Get, 1, false),
    (b"HEAD", Method::Head, 1, false),
    (b"POST", Method::Post, 2, true),
    (b"PUT", Method::Put, 3, true),
    (b"DELETE", Method::Delete, 4, true),
];

fn is_method(row: &MethodRow) -> bool {
    let &(name, method, code, writes) = row;
    method_of(name) == Some(method)
        && method.name().as_bytes() == name
        && method.code() == code
        && method.is_write() == writes
}

#[test]
fn methods_by_name(rt: HostRuntime) {
    for row in &METHODS {
        check(&rt, row.1, is_method(row));
    }
}

static NO_METHODS: [&[u8]; 2] = [b"Get", b"PATCH"];

#[test]
fn other_names(rt: HostRuntime) {
    for &name in &NO_METHODS {
        check(&rt, name, method_of(name).is_none());
    }
}

/// The code of c.dd, the status of a response without a payload, and its phrase.
type StatusRow = (u8, u8, u16, &'static str);

static STATUSES: [StatusRow; 22] = [
    (2, 1, 201, "Created"),
    (2, 2, 204, "No Content"),
    (2, 4, 204, "No Content"),
    (2, 5, 200, "OK"),
    (2, 6, 204, "No Content"),
    (4, 0, 400, "Bad Request"),
    (4, 1, 403, "Forbidden"),
    (4, 2, 500, "Internal Server Error"),
    (4, 3, 403, "Forbidden"),
    (4, 4, 404, "Not Found"),
    (4, 5, 400, "CoAP server returned 4.05"),
    (4, 6, 406, "Not Acceptable"),
    (4, 12, 412, "Precondition Failed"),
    (4, 13, 413, "Content Too Large"),
    (4, 15, 415, "Unsupported Media Type"),
    (4, 29, 400, "Bad Request"),
    (5, 0, 500, "Internal Server Error"),
    (5, 1, 501, "Not Implemented"),
    (5, 2, 502, "Bad Gateway"),
    (5, 3, 503, "Service Unavailable"),
    (5, 4, 504, "Gateway Timeout"),
    (5, 5, 502, "Bad Gateway"),
];

/// The code is passed on, with this status and this phrase.
fn is_told(row: &StatusRow) -> bool {
    let &(class, detail, number, phrase) = row;
    let code = (class % 8) * 32 + detail % 32;
    let status = status_of(code, false);
    status.number() == number
        && phrase_of(status).as_bytes() == phrase.as_bytes()
        && is_passed_on(code)
}

#[test]
fn statuses_by_code(rt: HostRuntime) {
    for row in &STATUSES {
        check(&rt, row, is_told(row));
    }
}

/// A code, the status of a response with a payload, and whether it is passed on: 2.02 and 2.04;
/// 2.31, which is no final answer, and 7.00, which is no response.
static PAYLOADS: [(u8, u16, bool); 4] = [
    (66, 200, true),
    (68, 200, true),
    (95, 502, false),
    (224, 502, false),
];

fn is_told_with_payload(&(code, number, passed_on): &(u8, u16, bool)) -> bool {
    status_of(code, true).number() == number && is_passed_on(code) == passed_on
}

#[test]
fn statuses_with_payload(rt: HostRuntime) {
    for row in &PAYLOADS {
        check(&rt, row, is_told_with_payload(row));
    }
}

#[test]
fn in_words(rt: HostRuntime) {
    let alloc = rt.alloc();
    check(
        &rt,
        "a method",
        is_written(alloc, &Method::Delete, "DELETE"),
    );
    check(
        &rt,
        "a status",
        is_written(alloc, &Status::UriTooLong, "414 URI Too Long"),
    );
}
