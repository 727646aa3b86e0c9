//! Requests over sockets: what a client sends, what its device hears and replies, and what the
//! client is told.

/// A request over sockets.
pub struct Row {
    pub method: &'static [u8],
    /// what comes after the device's address
    pub rest: &'static [u8],
    /// the code that the device hears, and what stands after the token
    pub code: u8,
    pub asked: &'static [u8],
    /// how the device's reply begins, its code, and what stands after the token
    pub reply: (u8, u8, &'static [u8]),
    pub told: &'static [u8],
    /// how many letters come after both
    pub letters: usize,
}

/// How an ACK with a token of 8 bytes begins.
pub const ACK: u8 = 0x68;

/// How an RST begins.
const RST: u8 = 0x70;

/// What a GET is answered while the light is on.
const IS_ON: &[u8] =
    b"HTTP/1.1 200 OK\r\nContent-Type: text/plain;charset=utf-8\r\nCache-Control: max-age=60\r\nContent-Length: 2\r\n\r\non";

/// The device has forgotten who it is; then the light is read and put out, and in the end the
/// device has so much to say of it that its datagram has 1,500 bytes, as many as go over Ethernet
/// at once.
static ROWS: [Row; 4] = [
    Row {
        method: b"GET",
        rest: b"/light HTTP/1.1\r\nHost: p\r\n\r\n",
        code: 1,
        asked: b"\xb5light",
        reply: (RST, 0, b""),
        told: b"HTTP/1.1 502 Bad Gateway\r\nHC-Cause: reset 3\r\nContent-Length: 0\r\n\r\n",
        letters: 0,
    },
    Row {
        method: b"GET",
        rest: b"/light HTTP/1.1\r\nHost: p\r\n\r\n",
        code: 1,
        asked: b"\xb5light",
        reply: (ACK, 69, b"\xc0\xffon"),
        told: IS_ON,
        letters: 0,
    },
    Row {
        method: b"PUT",
        rest: b"/light HTTP/1.1\r\nHost: p\r\nContent-Length: 3\r\n\r\noff",
        code: 3,
        asked: b"\xb5light\xffoff",
        reply: (ACK, 68, b""),
        told: b"HTTP/1.1 204 No Content\r\n\r\n",
        letters: 0,
    },
    Row {
        method: b"GET",
        rest: b"/light HTTP/1.1\r\nHost: p\r\n\r\n",
        code: 1,
        asked: b"\xb5light",
        reply: (ACK, 69, b"\xc0\xff"),
        told: b"HTTP/1.1 200 OK\r\nContent-Type: text/plain;charset=utf-8\r\nCache-Control: max-age=60\r\nContent-Length: 1486\r\n\r\n",
        letters: 1486,
    },
];

pub fn rows() -> &'static [Row] {
    &ROWS
}
