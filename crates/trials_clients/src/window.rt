//! What a window is asked, and how it has to answer.

use crate::sockets::open_client;
use std::alloc::Global;
use std::io::{Read, Write};
use std::net::{Net, SocketAddr, TcpStream};
use std::str;

/// What is asked of the window over a socket, and how the answer begins.
static ASKED: [(&str, &str); 8] = [
    (
        "GET /health HTTP/1.1\r\nHost: w\r\n\r\n",
        "HTTP/1.1 200 OK\r\n",
    ),
    (
        "GET http://w/metrics?x HTTP/1.1\r\nHost: w\r\n\r\n",
        "HTTP/1.1 200 OK\r\n",
    ),
    ("GET /nothing HTTP/1.1\r\nHost: w\r\n\r\n", "HTTP/1.1 404 "),
    ("GET /journal HTTP/1.1\r\nHost: w\r\n\r\n", "HTTP/1.1 200 "),
    (
        "GET /journal?from=1 HTTP/1.1\r\nHost: w\r\n\r\n",
        "HTTP/1.1 404 ",
    ),
    (
        "GET /journal/0 HTTP/1.1\r\nHost: w\r\n\r\n",
        "HTTP/1.1 404 ",
    ),
    (
        "PUT / HTTP/1.1\r\nHost: w\r\nContent-Length: 0\r\n\r\n",
        "HTTP/1.1 405 ",
    ),
    ("?\r\n\r\n", "HTTP/1.1 400 "),
];

/// They, handed out by a call that says nothing of them.
fn asked() -> &'static [(&'static str, &'static str)] {
    &ASKED
}

/// Where a gateway takes connections, and where it is looked at.
#[derive(Clone, Copy)]
pub struct Shown {
    pub gateway: SocketAddr,
    pub window: SocketAddr,
}

/// Whether the window answers so.
fn answers<W: Net<Stream = TcpStream>>(
    rt: &W,
    alloc: Global,
    window: SocketAddr,
    asked: &str,
    told: &str,
) -> Option<bool> {
    let mut client = open_client(rt, window)?;
    client.write_all(asked.as_bytes()).ok()?;
    let mut begun = vec![in alloc; 0u8; told.len()].ok()?;
    client.read_exact(&mut begun).ok()?;
    Some(begun.as_slice() == told.as_bytes())
}

/// Whether the window answers all as it has to.
pub fn answers_all<W: Net<Stream = TcpStream>>(
    rt: &W,
    alloc: Global,
    window: SocketAddr,
) -> Option<bool> {
    for &(asked, told) in asked() {
        if !answers(rt, alloc, window, asked, told)? {
            return Some(false);
        }
    }
    Some(true)
}

/// All that is answered to these bytes until the connection ends.
pub fn told_to<W: Net<Stream = TcpStream>>(
    rt: &W,
    alloc: Global,
    at: SocketAddr,
    asked: &[u8],
) -> Option<Vec<u8>> {
    let mut client = open_client(rt, at)?;
    client.write_all(asked).ok()?;
    let mut told = Vec::new(alloc);
    client.read_to_end(&mut told).ok()?;
    Some(told)
}

/// Whether the window counts an answer of the gateway's own, once that was given.
pub fn is_counted<W: Net<Stream = TcpStream>>(rt: &W, alloc: Global, shown: Shown) -> Option<bool> {
    told_to(rt, alloc, shown.gateway, b"?\r\n\r\n")?;
    let asked = b"GET /metrics HTTP/1.1\r\nHost: w\r\n\r\n";
    let figures = told_to(rt, alloc, shown.window, asked)?;
    let figures = str::from_utf8(&figures).ok()?;
    Some(figures.contains("\nhcproxy_own_responses_total{cause=\"bad-http\"} 1\n"))
}

/// What the window says of the journal, once bytes that are no request were answered.
static SAID: [(&str, &str); 4] = [
    ("GET /journal HTTP/1.1\r\nHost: w\r\n\r\n", " opened 0\n1 "),
    (
        "GET /journal?from=2 HTTP/1.1\r\nHost: w\r\n\r\n",
        " answered 0 1 fault bad-http 1\n",
    ),
    (
        "GET /journal/1 HTTP/1.1\r\nHost: w\r\n\r\n",
        "<a href=\"#e1\">1</a>, bad-http: see <a href=\"#e1\">1</a>",
    ),
    (
        "HEAD /journal/2 HTTP/1.1\r\nHost: w\r\n\r\n",
        "Content-Type: text/html; charset=utf-8\r\n",
    ),
];

fn said() -> &'static [(&'static str, &'static str)] {
    &SAID
}

/// Whether the window leads from an answer of the gateway's own to its entries.
pub fn shows_journal<W: Net<Stream = TcpStream>>(
    rt: &W,
    alloc: Global,
    shown: Shown,
) -> Option<bool> {
    told_to(rt, alloc, shown.gateway, b"?\r\n\r\n")?;
    for &(asked, said) in said() {
        let text = told_to(rt, alloc, shown.window, asked.as_bytes())?;
        if !str::from_utf8(&text).ok()?.contains(said) {
            return Some(false);
        }
    }
    Some(true)
}
