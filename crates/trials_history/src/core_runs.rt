//! Runs of a core: what goes out, what waits, what goes out again, and what ends it.

use crate::calls::{
    answered, ask, ask_number, ask_too_much, cause_of, close, close_and_go_back, entries,
    first_answered, hear, is_idle, moment_of, new_core, next_due, next_sent, open, responds, sends,
    take_answer, take_first, tick,
};
use crate::sample::Nothing;
use ask_model::Cause;
use exchange_core::{AskFault, Core, OpenFault, Ticket};
use std::alloc::Global;

/// The datagram that carries the first ask.
const REQUEST: &[u8] = b"\x48\x01\0\0\0\0\0\0\0\0\0\0\x3d\0s.example.com\x85light";

/// The datagram that carries an ask for what has the number 1, sent as the second.
const NEXT: &[u8] = b"\x48\x01\0\x01\0\0\0\x01\0\0\0\0\x3d\0s.example.com\x811";

/// The core with its first connections open, so many of them.
fn opened(alloc: Global, count: u32) -> Option<Core<Nothing>> {
    let mut core = new_core(alloc)?;
    for conn in 0..count {
        if open(&mut core, 0) != Ok(conn) {
            return None;
        }
    }
    Some(core)
}

/// What a connection asks at the moment 0 with this word.
fn asked(core: &mut Core<Nothing>, alloc: Global, word: u64, conn: u32) -> Option<Ticket<Nothing>> {
    ask(core, alloc, 0, word, conn).ok()
}

/// What a connection asks of what has this number.
fn asked_number(
    core: &mut Core<Nothing>,
    alloc: Global,
    conn: u32,
    number: u32,
) -> Option<Ticket<Nothing>> {
    ask_number(core, alloc, conn, number).ok()
}

/// This datagram goes out next.
fn sends_next(core: &mut Core<Nothing>, alloc: Global, wanted: &[u8]) -> bool {
    match next_sent(core, alloc) {
        Some(sent) => sent.as_slice() == wanted,
        None => false,
    }
}

fn sends_nothing(core: &mut Core<Nothing>, alloc: Global) -> bool {
    next_sent(core, alloc).is_none()
}

/// The answer waits, with this number, moment and cause.
fn fails(
    core: &mut Core<Nothing>,
    ticket: &Ticket<Nothing>,
    number: u32,
    moment: u64,
    cause: Cause,
) -> bool {
    match take_answer(core, ticket) {
        Some(answer) => {
            answer.number == number && answer.moment == moment && cause_of(&answer) == Some(cause)
        }
        None => false,
    }
}

/// The first answer that waits, with this ask and this cause, and its copy.
fn fails_first(core: &mut Core<Nothing>, ask: u32, cause: Cause) -> bool {
    let Some(answer) = take_first(core) else {
        return false;
    };
    match answer.copy() {
        Ok(copy) => copy.ask == ask && cause_of(&copy) == Some(cause),
        Err(_) => false,
    }
}

/// The answer waits: a 2.05 with the payload `on`, heard then.
fn shows(core: &mut Core<Nothing>, ticket: &Ticket<Nothing>, heard: u64) -> bool {
    match take_answer(core, ticket) {
        Some(answer) => answer.heard == heard && responds(&answer, 0x45, b"on"),
        None => false,
    }
}

#[test]
fn connections_open_and_close(rt: HostRuntime) {
    let mut core = new_core(rt.alloc()).expect(&rt, "memory");
    for conn in 0..256 {
        assert!(rt; open(&mut core, 7) == Ok(conn));
    }
    assert!(rt; open(&mut core, 7) == Err(OpenFault::Full));
    assert!(rt; close(&mut core, 3, 17));
    assert!(rt; !close(&mut core, 9, 17));
    // a moment before the last one counts as the last one
    assert!(rt; moment_of(&core, 256) == Some(7));
    assert!(rt; open(&mut core, 9) == Ok(256));
}

/// A connection is opened and closed again.
fn passes(core: &mut Core<Nothing>) -> bool {
    match open(core, 0) {
        Ok(conn) => close(core, 0, conn),
        Err(_) => false,
    }
}

#[test]
fn a_full_journal_is_sealed(rt: HostRuntime) {
    let mut core = new_core(rt.alloc()).expect(&rt, "memory");
    // an opening leaves a place for its closing and one for the seal
    for _ in 0..32767 {
        assert!(rt; passes(&mut core));
    }
    assert!(rt; open(&mut core, 5) == Err(OpenFault::Sealed));
    assert!(rt; entries(&core) == 65535);
    assert!(rt; open(&mut core, 6) == Err(OpenFault::Sealed));
    assert!(rt; entries(&core) == 65535);
}

/// The fault of an ask; none where it is taken.
fn ask_fault(core: &mut Core<Nothing>, alloc: Global, word: u64, conn: u32) -> Option<AskFault> {
    ask(core, alloc, 0, word, conn).err()
}

#[test]
fn a_refusal_is_answered(rt: HostRuntime) {
    let alloc = rt.alloc();
    let mut core = opened(alloc, 1).expect(&rt, "a connection");
    assert!(rt; ask_fault(&mut core, alloc, 0, 7) == Some(AskFault::Unknown));
    let refused = ask_too_much(&mut core, alloc, 5, 0);
    let ticket = refused.ok().expect(&rt, "a ticket");
    assert!(rt; answered(&core, 2) == Some((0, 1)));
    assert!(rt; first_answered(&core) == Some(1));
    assert!(rt; fails(&mut core, &ticket, 2, 5, Cause::BadHttp));
    assert!(rt; first_answered(&core).is_none());
}

#[test]
fn a_message_is_numbered_by_its_word(rt: HostRuntime) {
    let alloc = rt.alloc();
    let mut core = opened(alloc, 1).expect(&rt, "a connection");
    assert!(rt; is_idle(&core, 0));
    assert!(rt; ask_fault(&mut core, alloc, 0x0123_4567_89ab_cdef, 0).is_none());
    // the first ID is the low 16 bits; the token is no token issued yet, and the high 32 bits
    let want = b"\x48\x01\xcd\xef\0\0\0\0\x01\x23\x45\x67\x3d\0s.example.com\x85light";
    assert!(rt; sends(&core, 2, want, Some(2537)));
    assert!(rt; !is_idle(&core, 0));
    assert!(rt; ask_fault(&mut core, alloc, 0, 0) == Some(AskFault::Pending));
}

#[test]
fn one_message_is_outstanding(rt: HostRuntime) {
    let alloc = rt.alloc();
    let mut core = opened(alloc, 2).expect(&rt, "connections");
    let first = asked(&mut core, alloc, 0, 0).expect(&rt, "a ticket");
    let second = asked_number(&mut core, alloc, 1, 1).expect(&rt, "a ticket");
    // the second message waits for the end of the first (RFC 7252 section 4.7)
    assert!(rt; sends_next(&mut core, alloc, REQUEST));
    assert!(rt; sends_nothing(&mut core, alloc));
    // an empty ACK lets it go
    assert!(rt; hear(&mut core, 20, 5683, b"\x60\0\0\0"));
    assert!(rt; sends_next(&mut core, alloc, NEXT));
    // it is answered before the first (RFC 7252 section 5.2.2)
    assert!(rt;
        hear(
            &mut core,
            60,
            5683,
            b"\x68\x45\0\x01\0\0\0\x01\0\0\0\0\xffon"
        )
    );
    assert!(rt; shows(&mut core, &second, 60));
    assert!(rt;
        hear(
            &mut core,
            80,
            5683,
            b"\x48\x45\x77\x77\0\0\0\0\0\0\0\0\xffon"
        )
    );
    assert!(rt; sends_next(&mut core, alloc, b"\x60\0\x77\x77"));
    assert!(rt; shows(&mut core, &first, 80));
    // the same again is acknowledged again, and no news
    assert!(rt;
        hear(
            &mut core,
            90,
            5683,
            b"\x48\x45\x77\x77\0\0\0\0\0\0\0\0\xffon"
        )
    );
    assert!(rt; sends_next(&mut core, alloc, b"\x60\0\x77\x77"));
    assert!(rt; first_answered(&core).is_none());
}

#[test]
fn one_message_is_sent_for_equal_asks(rt: HostRuntime) {
    let alloc = rt.alloc();
    let mut core = opened(alloc, 2).expect(&rt, "connections");
    let first = asked(&mut core, alloc, 0, 0).expect(&rt, "a ticket");
    assert!(rt; sends_next(&mut core, alloc, REQUEST));
    let second = asked(&mut core, alloc, 0, 1).expect(&rt, "a ticket");
    assert!(rt; sends_nothing(&mut core, alloc));
    assert!(rt; hear(&mut core, 60, 5683, b"\x68\x45\0\0\0\0\0\0\0\0\0\0\xffon"));
    assert!(rt; shows(&mut core, &first, 60));
    assert!(rt; shows(&mut core, &second, 60));
    assert!(rt; sends_nothing(&mut core, alloc));
}

#[test]
fn a_reset_ends_an_exchange(rt: HostRuntime) {
    let alloc = rt.alloc();
    let mut core = opened(alloc, 1).expect(&rt, "a connection");
    let ticket = asked(&mut core, alloc, 0, 0).expect(&rt, "a ticket");
    // nothing was sent to this port
    assert!(rt; hear(&mut core, 3, 5684, b"\x70\0\0\0"));
    assert!(rt; entries(&core) == 3);
    assert!(rt; hear(&mut core, 7, 5683, b"\x70\0\0\0"));
    assert!(rt; entries(&core) == 5);
    assert!(rt; fails(&mut core, &ticket, 4, 7, Cause::Reset));
}

#[test]
fn sixty_four_messages_wait(rt: HostRuntime) {
    let alloc = rt.alloc();
    let mut core = opened(alloc, 66).expect(&rt, "connections");
    for conn in 0..65 {
        assert!(rt; ask_number(&mut core, alloc, conn, conn).is_ok());
    }
    let ticket = asked(&mut core, alloc, 0, 65).expect(&rt, "a ticket");
    // 66 openings, 65 asks, one sending, and this ask
    assert!(rt; fails(&mut core, &ticket, 133, 0, Cause::Busy));
}

/// A tick at this moment sends the first ask's datagram once more, and nothing else.
fn copies(core: &mut Core<Nothing>, alloc: Global, moment: u64) -> bool {
    tick(core, moment) && sends_next(core, alloc, REQUEST) && sends_nothing(core, alloc)
}

/// A tick at this moment adds no entry.
fn rests(core: &mut Core<Nothing>, moment: u64) -> bool {
    let before = entries(core);
    tick(core, moment) && entries(core) == before
}

#[test]
fn a_message_goes_out_five_times(rt: HostRuntime) {
    let alloc = rt.alloc();
    let mut core = opened(alloc, 1).expect(&rt, "a connection");
    let ticket = asked(&mut core, alloc, 0, 0).expect(&rt, "a ticket");
    assert!(rt; sends_next(&mut core, alloc, REQUEST));
    // ACK_TIMEOUT doubles with each copy (RFC 7252 section 4.2)
    assert!(rt; next_due(&core) == Some(2_000));
    assert!(rt; rests(&mut core, 1_999));
    assert!(rt; copies(&mut core, alloc, 2_000));
    assert!(rt; copies(&mut core, alloc, 6_000));
    assert!(rt; copies(&mut core, alloc, 14_000));
    assert!(rt; copies(&mut core, alloc, 30_000));
    assert!(rt; next_due(&core) == Some(62_000));
    assert!(rt; rests(&mut core, 61_999));
    assert!(rt; tick(&mut core, 62_000));
    assert!(rt; sends_nothing(&mut core, alloc));
    // an opening, the ask and its sending, four ticks with a copy each, and the last tick
    assert!(rt; fails(&mut core, &ticket, 12, 62_000, Cause::Timeout));
    assert!(rt; next_due(&core).is_none());
}

#[test]
fn a_message_that_never_goes_out(rt: HostRuntime) {
    let alloc = rt.alloc();
    let mut core = opened(alloc, 2).expect(&rt, "connections");
    // the longest timeout: ACK_TIMEOUT times ACK_RANDOM_FACTOR
    let first = asked(&mut core, alloc, 1_000, 0).expect(&rt, "a ticket");
    let second = asked_number(&mut core, alloc, 1, 1).expect(&rt, "a ticket");
    for moment in [3_000, 9_000, 21_000, 45_000] {
        assert!(rt; tick(&mut core, moment));
    }
    // MAX_TRANSMIT_WAIT (RFC 7252 section 4.8.2)
    assert!(rt; tick(&mut core, 93_000));
    assert!(rt; fails(&mut core, &second, 15, 93_000, Cause::Timeout));
    assert!(rt; fails_first(&mut core, first.number, Cause::Timeout));
}

#[test]
fn a_closing_is_taken_back(rt: HostRuntime) {
    let alloc = rt.alloc();
    let mut core = opened(alloc, 1).expect(&rt, "a connection");
    let ticket = asked(&mut core, alloc, 0, 0).expect(&rt, "a ticket");
    assert!(rt; close_and_go_back(&mut core, 0));
    assert!(rt; entries(&core) == 3);
    assert!(rt; sends_next(&mut core, alloc, REQUEST));
    assert!(rt; next_due(&core) == Some(2_000));
    assert!(rt; tick(&mut core, 93_000));
    // its connection waits still: after the tick's entry and a copy it is answered
    assert!(rt; fails(&mut core, &ticket, 5, 93_000, Cause::Timeout));
}
