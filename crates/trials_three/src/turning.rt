//! A story over a turn of the gateway's journal.

use crate::plays::{Outcome, Wanted, plays};
use crate::stories::{COUNTED, POST, POST_C, at, deliver};
use std::alloc::{AllocError, Global};
use three_parties::{Happening, Turn};

/// POST of c once more, as CON 1 with token 1: its numbers go on.
const POST_AGAIN: &[u8] = b"\x48\x02\x00\x01\0\0\0\x01\0\0\0\0\x3d\x00s.example.com\x81c";

/// 2.04 with the state after that.
const COUNTED_AGAIN: &[u8] = b"\x68\x44\x00\x01\0\0\0\x01\0\0\0\0\xff2";

/// How many connections come in vain after the first. A journal of 65,536 entries has seven by
/// then, gets two by each, and keeps three places for the next one, its end and the seal: there is
/// none for the last of them, which seals the journal.
const IN_VAIN: u32 = 32_765;

static COUNTED_ON_EITHER_SIDE: Wanted = Wanted {
    flights: &[
        POST_C,
        COUNTED,
        COUNTED,
        POST_AGAIN,
        COUNTED_AGAIN,
        COUNTED_AGAIN,
        COUNTED,
    ],
    told: "HTTP/1.1 200 OK\r\nContent-Length: 1\r\n\r\n1\
        HTTP/1.1 200 OK\r\nContent-Length: 1\r\n\r\n2",
    executed: &[0, 3],
};

/// A POST on either side of a turn of the journal, each delivered twice, and the first once more
/// after the turn.
fn over_a_turn(alloc: Global) -> Result<Vec<Turn<'static>>, AllocError> {
    let mut turns = Vec::new(alloc);
    turns.extend_from_slice(&[
        at(0, Happening::Open),
        at(0, Happening::Bytes(0, POST)),
        deliver(10, 0),
        deliver(10, 0),
        deliver(20, 2),
        deliver(20, 1),
        at(20, Happening::Close(0)),
    ])?;
    'each: for number in 1..=IN_VAIN {
        turns.push(at(30, Happening::Open))?;
        turns.push(at(30, Happening::Close(number)))?;
    }
    turns.extend_from_slice(&[
        at(40, Happening::Rotate),
        at(50, Happening::Open),
        at(50, Happening::Bytes(IN_VAIN, POST)),
        deliver(60, 3),
        deliver(60, 3),
        deliver(60, 0),
        deliver(70, 4),
        deliver(70, 5),
        deliver(70, 6),
    ])?;
    Ok(turns)
}

fn play(alloc: Global) -> Result<Outcome, AllocError> {
    let turns = over_a_turn(alloc)?;
    plays(alloc, turns.as_slice(), COUNTED_ON_EITHER_SIDE)
}

#[test]
fn a_post_is_executed_once_on_either_side_of_a_turn(rt: HostRuntime) {
    assert_eq!(rt; play(rt.alloc()), Ok(Outcome::AsWanted));
}
