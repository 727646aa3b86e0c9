//! A core whose sealed journal is turned over.

use crate::calls::{
    ask, close, entries, hear, moment_of, new_core, next_sent, open, past_of, rotate,
};
use crate::sample::Nothing;
use exchange_core::{Core, OpenFault, RotateFault};
use std::alloc::Global;

/// The datagrams that carry the first ask and the second one.
const REQUEST: &[u8] = b"\x48\x01\0\0\0\0\0\0\0\0\0\0\x3d\0s.example.com\x85light";

const NEXT: &[u8] = b"\x48\x01\0\x01\0\0\0\x01\0\0\0\0\x3d\0s.example.com\x85light";

/// The response to the first ask, in a CON of its own, and the ACK that it gets.
const RESPONSE: &[u8] = b"\x48\x45\x12\x34\0\0\0\0\0\0\0\0\xffon";

const ACK: &[u8] = b"\x60\0\x12\x34";

/// This datagram goes out next.
fn sends_next(core: &mut Core<Nothing>, alloc: Global, wanted: &[u8]) -> bool {
    match next_sent(core, alloc) {
        Some(sent) => sent.as_slice() == wanted,
        None => false,
    }
}

/// The first ask is answered by a response of its own, and the connection is closed.
fn serves_one(core: &mut Core<Nothing>, alloc: Global) -> bool {
    open(core, 0) == Ok(0)
        && ask(core, alloc, 0, 0, 0).is_ok()
        && sends_next(core, alloc, REQUEST)
        && hear(core, 600, 5683, RESPONSE)
        && sends_next(core, alloc, ACK)
        && close(core, 600, 0)
}

/// A connection comes and goes, if the journal takes it.
fn passes(core: &mut Core<Nothing>, conn: u32) -> Result<bool, OpenFault> {
    let opened = open(core, 600)?;
    Ok(opened == conn && close(core, 600, conn))
}

/// Connections come and go until the journal is sealed, the first with this number. Which is next?
fn seal(core: &mut Core<Nothing>, first: u32) -> Option<u32> {
    for conn in first..40000 {
        match passes(core, conn) {
            Ok(true) => {}
            Err(OpenFault::Sealed) => return Some(conn),
            _ => return None,
        }
    }
    None
}

/// The first ask was served, and the journal is sealed.
fn sealed(alloc: Global) -> Option<(Core<Nothing>, u32)> {
    let mut core = new_core(alloc)?;
    if !serves_one(&mut core, alloc) {
        return None;
    }
    let next = seal(&mut core, 1)?;
    Some((core, next))
}

#[test]
fn a_turn_is_refused(rt: HostRuntime) {
    let alloc = rt.alloc();
    let mut core = new_core(alloc).expect(&rt, "memory");
    assert!(rt; rotate(&mut core, 0) == Err(RotateFault::Unsealed));
    // one asks and leaves, and its exchange stays open after the seal
    assert!(rt; open(&mut core, 0) == Ok(0));
    assert!(rt; ask(&mut core, alloc, 0, 0, 0).is_ok());
    assert!(rt; close(&mut core, 0, 0));
    assert!(rt; open(&mut core, 0) == Ok(1));
    assert!(rt; seal(&mut core, 2).is_some());
    assert!(rt; rotate(&mut core, 0) == Err(RotateFault::Connected));
    assert!(rt; close(&mut core, 0, 1));
    // it is over 93 seconds after its opening, as its message is: 2 s times 31, and what the word adds
    assert!(rt; rotate(&mut core, 92_999) == Err(RotateFault::Exchanging));
    assert!(rt; rotate(&mut core, 93_000).is_ok());
}

#[test]
fn what_is_remembered_goes_on(rt: HostRuntime) {
    let alloc = rt.alloc();
    let (mut core, next) = sealed(alloc).expect(&rt, "a sealed core");
    // a minute after it was heard the response isn't fresh any more
    let given = rotate(&mut core, 60_600).ok().expect(&rt, "a journal");
    // the seal is its last entry
    assert!(rt; given == 65_536 || given == 65_535);
    // the first sending and the response are copied
    assert!(rt; entries(&core) == 2);
    assert!(rt; past_of(&core, 0) == Some(2) && moment_of(&core, 0) == Some(0));
    assert!(rt; past_of(&core, 1) == Some(3) && moment_of(&core, 1) == Some(600));
    // numbers of connections, tokens and IDs go on
    assert!(rt; open(&mut core, 60_600) == Ok(next));
    assert!(rt; ask(&mut core, alloc, 60_600, 0, next).is_ok());
    assert!(rt; sends_next(&mut core, alloc, NEXT));
    // the same response again is acknowledged as before
    assert!(rt; hear(&mut core, 61_000, 5683, RESPONSE));
    assert!(rt; sends_next(&mut core, alloc, ACK));
}
