//! What the window of a gateway shows.

use coap_codec::Bytes;
use http_edge::{Edge, Incoming, answer_bytes};
use journal_book::{Entry, Event};
use journal_lines::{Payloads, write_entry};
use status_page::{
    Classes, Connections, Device, Excerpt, Fill, Last, Phase, Responses, Status, answer_of,
};
use std::alloc::{AllocError, Global};
use std::net::{IpAddr, Ipv4Addr};
use std::str;
use trials_clients::Nothing;
use uri_map::Peer;

/// A gateway that turns its journal over, with a device that a stranger asked.
fn turning(alloc: Global) -> Result<Status, AllocError> {
    let mut devices = Vec::new(alloc);
    devices.push(Device {
        peer: Peer {
            address: IpAddr::V4(Ipv4Addr::new(192, 0, 2, 1)),
            port: 5683,
        },
        open: 2,
        queued: 1,
        answers: 7,
        timeouts: 3,
        last: Some(Last {
            status: 504,
            at: 1_000_000_000,
            request: Vec::from_slice(alloc, b"GET /<b>")?,
            ask: Some(40),
        }),
    })?;
    Ok(Status {
        phase: Phase::Turning,
        started: 1_000_000_000,
        at: 1_000_000_061,
        connections: Connections {
            open: 2,
            asking: 2,
            opened: 9,
            refused: 0,
        },
        exchanges: 2,
        stored: 3,
        responses: Responses {
            classes: Classes::default(),
            kept: 5,
            causes: Vec::new(alloc),
        },
        sent: 12,
        heard: 4,
        journal: Fill {
            entries: 58_982,
            bytes: 5_000_000,
            turned: 1,
        },
        devices,
    })
}

/// The text of the answer of that gateway to a request.
fn text_for(alloc: Global, request: &[u8]) -> Option<String> {
    let mut edge = Edge::new(alloc).ok()?;
    edge.feed(request);
    let came: Incoming = edge.next().ok()??;
    let status = turning(alloc).ok()?;
    let Ok(answer) = answer_of(alloc, &came, &status, None) else {
        return None;
    };
    let bytes = answer_bytes(alloc, &answer).ok()?;
    let text = str::from_utf8(&bytes).ok()?;
    String::from_str(alloc, text).ok()
}

/// What is asked of that gateway, and what stands in the answer.
static TOLD: [(&str, &str); 8] = [
    (
        "GET / HTTP/1.1\r\nHost: w\r\n\r\n",
        "<a href=\"/journal/40\">GET /&lt;b&gt;</a>",
    ),
    (
        "GET / HTTP/1.1\r\nHost: w\r\n\r\n",
        "since Sun, 09 Sep 2001 01:46:40 GMT, for 1 min 1 s",
    ),
    (
        "GET /metrics HTTP/1.1\r\nHost: w\r\n\r\n",
        "# TYPE hcproxy_device_timeouts_total counter\n\
         hcproxy_device_timeouts_total{device=\"192.0.2.1:5683\"} 3\n",
    ),
    (
        "GET /metrics HTTP/1.1\r\nHost: w\r\n\r\n",
        "\nhcproxy_ready 0\n",
    ),
    (
        "GET /metrics HTTP/1.1\r\nHost: w\r\n\r\n",
        "\nhcproxy_kept_responses_total 5\n",
    ),
    (
        "GET /health HTTP/1.1\r\nHost: w\r\n\r\n",
        "HTTP/1.1 503 Service Unavailable\r\n",
    ),
    (
        "GET /journal HTTP/1.1\r\nHost: w\r\n\r\n",
        "HTTP/1.1 503 Service Unavailable\r\n",
    ),
    (
        "HEAD /health HTTP/1.1\r\nHost: w\r\n\r\n",
        "Content-Length: 67\r\nCache-Control: no-store\r\n\
         X-Content-Type-Options: nosniff\r\nConnection: close\r\n\r\n",
    ),
];

fn told() -> &'static [(&'static str, &'static str)] {
    &TOLD
}

/// Whether each answer has what it has to.
fn tells_all(alloc: Global) -> Option<bool> {
    for &(asked, told) in told() {
        if !text_for(alloc, asked.as_bytes())?.as_str().contains(told) {
            return Some(false);
        }
    }
    Some(true)
}

#[test]
fn pages_tell_how_it_does(rt: HostRuntime) {
    assert!(rt; tells_all(rt.alloc()) == Some(true));
}

/// A part of a journal: a request that was joined, so that what its answer rests on came before it.
static PART: &str = "40 900 heard 192.0.2.1:5683 6145b20de70102ff2a2a\n\
    41 905 opened 7\n\
    43 906 asked 7 GET /hc/coap://s.example.com/light 0\n\
    51 906 answered 7 43 kept 38,40\n";

/// The text of the answer to a request for what became of that one.
fn picture(alloc: Global) -> Option<String> {
    let mut edge = Edge::new(alloc).ok()?;
    edge.feed(b"GET /journal/43 HTTP/1.1\r\nHost: w\r\n\r\n");
    let came: Incoming = edge.next().ok()??;
    let status = Status::without_figures(alloc, Phase::Serving, 0);
    let mut excerpt = Excerpt::new(alloc, 52);
    excerpt.lines.extend_from_slice(PART.as_bytes()).ok()?;
    let Ok(answer) = answer_of(alloc, &came, &status, Some(&excerpt)) else {
        return None;
    };
    let text = str::from_utf8(answer.body.as_slice()).ok()?;
    String::from_str(alloc, text).ok()
}

/// Whether it is drawn, with a curve from what is there alone.
fn is_drawn(alloc: Global) -> Option<bool> {
    let text = picture(alloc)?;
    let curves = text.as_str().split("<path class=\"rests\"").count();
    Some(text.as_str().contains("<g id=\"e43\"") && curves == 3)
}

#[test]
fn a_request_is_drawn_with_gaps(rt: HostRuntime) {
    assert!(rt; is_drawn(rt.alloc()) == Some(true));
}

/// The line of a datagram whose payload is hidden, or the whole of it where it is no message.
fn hidden_line(alloc: Global, bytes: &[u8]) -> Option<String> {
    let peer = Peer {
        address: IpAddr::V4(Ipv4Addr::new(192, 0, 2, 1)),
        port: 5683,
    };
    let bytes = Bytes::from_slice(alloc, bytes).ok()?;
    let entry: Entry<Nothing> = Entry {
        moment: 900,
        event: Event::Heard { peer, bytes },
    };
    let mut line = Vec::new(alloc);
    write_entry(alloc, &mut line, 40, &entry, Payloads::Hidden).ok()?;
    String::from_str(alloc, str::from_utf8(&line).ok()?).ok()
}

/// Whether a datagram is shown so.
fn is_shown_as(alloc: Global, bytes: &[u8], shown: &str) -> Option<bool> {
    let line = hidden_line(alloc, bytes)?;
    Some(
        line.as_str()
            == format!(in alloc; "40 900 heard 192.0.2.1:5683 {shown}\n")
                .ok()?
                .as_str(),
    )
}

#[test]
fn payloads_are_hidden(rt: HostRuntime) {
    let whole = b"\x61\x45\xb2\x0d\xe7\xc1\x2a\xffon";
    assert!(rt; is_shown_as(rt.alloc(), whole, "6145b20de7c12aff2a2a") == Some(true));
    assert!(rt; is_shown_as(rt.alloc(), b"on\xff", "2a2a2a") == Some(true));
}
