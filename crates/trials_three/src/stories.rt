//! Stories of a counter.

use crate::plays::{Outcome, Wanted, plays};
use three_parties::{Happening, Input, Turn, When};

pub fn at(moment: u64, happening: Happening<'static>) -> Turn<'static> {
    Turn::Proxy(Input {
        moment,
        word: 0,
        happening,
    })
}

pub fn deliver(moment: u64, number: usize) -> Turn<'static> {
    Turn::Deliver(When { moment, word: 0 }, number)
}

pub const POST: &[u8] = b"POST /hc/coap://s.example.com/c HTTP/1.1\r\nHost: p\r\n\r\n";

const GET: &[u8] = b"GET /hc/coap://s.example.com/c HTTP/1.1\r\nHost: p\r\n\r\n";

/// POST of c, as CON 0 with token 0.
pub const POST_C: &[u8] = b"\x48\x02\x00\x00\0\0\0\0\0\0\0\0\x3d\x00s.example.com\x81c";

/// 2.04 with the new state.
pub const COUNTED: &[u8] = b"\x68\x44\x00\x00\0\0\0\0\0\0\0\0\xff1";

/// GET of c, as CON 1 with token 1.
const GET_C: &[u8] = b"\x48\x01\x00\x01\0\0\0\x01\0\0\0\0\x3d\x00s.example.com\x81c";

/// 2.05 with ETag 1, Content-Format 0, Max-Age 60, and the state.
const SHOWN: &[u8] = b"\x68\x45\x00\x01\0\0\0\x01\0\0\0\0\x48\0\0\0\0\0\0\0\x01\x80\x21\x3c\xff1";

static COUNTED_ONCE: Wanted = Wanted {
    flights: &[POST_C, COUNTED, COUNTED, GET_C, SHOWN, COUNTED],
    told: "HTTP/1.1 200 OK\r\nContent-Length: 1\r\n\r\n1\
        HTTP/1.1 200 OK\r\nContent-Type: text/plain;charset=utf-8\r\nCache-Control: max-age=60\r\n\
        ETag: \"0000000000000001\"\r\nContent-Length: 1\r\n\r\n1",
    executed: &[0],
};

#[test]
fn a_post_delivered_again_is_executed_once(rt: HostRuntime) {
    let turns = [
        at(0, Happening::Open),
        at(0, Happening::Bytes(0, POST)),
        deliver(10, 0),
        deliver(10, 0),
        deliver(20, 2),
        deliver(20, 1),
        at(30, Happening::Bytes(0, GET)),
        deliver(40, 3),
        deliver(40, 4),
        // 100 seconds after it was sent it executes nothing, and a millisecond later it is lost
        deliver(100_000, 0),
        deliver(100_001, 0),
    ];
    assert_eq!(rt;
        plays(rt.alloc(), &turns, COUNTED_ONCE),
        Ok(Outcome::AsWanted)
    );
}

static REPEATED: Wanted = Wanted {
    flights: &[POST_C, POST_C, COUNTED],
    told: "HTTP/1.1 200 OK\r\nContent-Length: 1\r\n\r\n1",
    executed: &[1],
};

#[test]
fn a_lost_post_goes_out_again(rt: HostRuntime) {
    let turns = [
        at(0, Happening::Open),
        at(0, Happening::Bytes(0, POST)),
        at(2000, Happening::Tick),
        deliver(2010, 1),
        deliver(2020, 2),
        deliver(2020, 7),
    ];
    assert_eq!(rt; plays(rt.alloc(), &turns, REPEATED), Ok(Outcome::AsWanted));
}
