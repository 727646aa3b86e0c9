//! A call that memory was refused is made once more; until then the link is as before.

use crate::link::{Said, hear, request, said_by, sends, submit, tick};
use crate::telling::check;
use coap_codec::{Token, encode};
use message_layer::{Hearing, Link, LinkFault};
use std::alloc::Global;

/// Memory was refused, and the link is as before.
fn is_as_before(link: &mut Link, due: Option<u64>, fault: LinkFault) -> bool {
    fault == LinkFault::Memory && link.next_due() == due && link.take_send().is_none()
}

fn submits(link: &mut Link, alloc: Global, token: Token) -> bool {
    let due = link.next_due();
    match submit(link, alloc, token, 0, 0) {
        Ok(()) => true,
        Err(fault) => is_as_before(link, due, fault) && submit(link, alloc, token, 0, 0).is_ok(),
    }
}

fn hears(link: &mut Link, datagram: &[u8], moment: u32) -> Option<Said> {
    let due = link.next_due();
    let fault = match link.heard(datagram, u64::from(moment)) {
        Ok(up) => return Some(said_by(&up)),
        Err(fault) => fault,
    };
    if !is_as_before(link, due, fault) {
        return None;
    }
    hear(link, datagram, moment)
}

fn ticks(link: &mut Link, moment: u32) -> Option<Said> {
    let due = link.next_due();
    let fault = match link.tick(u64::from(moment)) {
        Ok(up) => return Some(said_by(&up)),
        Err(fault) => fault,
    };
    if !is_as_before(link, due, fault) {
        return None;
    }
    tick(link, moment)
}

fn expects(link: &mut Link, token: &Token) -> bool {
    match link.expect(token, true) {
        Ok(()) => true,
        Err(fault) => fault == LinkFault::Memory && link.expect(token, true).is_ok(),
    }
}

fn copies(link: &Link) -> Option<Link> {
    match link.copy() {
        Ok(copy) => Some(copy),
        Err(LinkFault::Memory) => link.copy().ok(),
        Err(_) => None,
    }
}

/// The datagram tells this, and is answered so.
fn answers(link: &mut Link, datagram: &[u8], moment: u32, told: Said, answer: &[u8]) -> bool {
    hears(link, datagram, moment) == Some(told) && sends(link, answer)
}

/// The tick tells this, and sends this.
fn sends_at(link: &mut Link, moment: u32, told: Said, datagram: &[u8]) -> bool {
    ticks(link, moment) == Some(told) && sends(link, datagram)
}

/// Two messages go out: the first one twice, the second when the first is acknowledged.
fn sends_two(link: &mut Link, alloc: Global) -> bool {
    submits(link, alloc, Token::new(&[9]))
        && sends(link, &[0x41, 1, 0, 0, 9])
        && submits(link, alloc, Token::new(&[8]))
        && sends_at(link, 2000, Said::Nothing, &[0x41, 1, 0, 0, 9])
        && answers(
            link,
            &[0x60, 0, 0, 0],
            2100,
            Said::Nothing,
            &[0x41, 1, 0, 1, 8],
        )
}

/// A separate response is told once, and what can't be read is reset.
fn hears_three(link: &mut Link) -> bool {
    let response = [0x41, 0x45, 0x12, 0x34, 9, 0xc0, 0xff, 0x6f, 0x6e];
    let ack = [0x60, 0, 0x12, 0x34];
    answers(link, &response, 2200, Said::Response, &ack)
        && answers(link, &response, 2300, Said::Nothing, &ack)
        && answers(
            link,
            &[0x49, 1, 0, 7],
            2400,
            Said::Nothing,
            &[0x70, 0, 0, 7],
        )
}

/// A response under a token that is expected.
fn hears_expected(link: &mut Link) -> bool {
    expects(link, &Token::new(&[6]))
        && hears(link, &[0x51, 0x45, 0x56, 0x78, 6], 2450) == Some(Said::Response)
        && link.take_send().is_none()
}

/// With any one allocation refused, every call gives what it would have given, or Memory and then
/// that.
#[test]
fn memory_refused_once(rt: HostRuntime) {
    let alloc = rt.alloc();
    let mut link = Link::new(alloc);
    check(&rt, "two messages", sends_two(&mut link, alloc));
    check(&rt, "three datagrams", hears_three(&mut link));
    check(&rt, "an expected token", hears_expected(&mut link));
    check(
        &rt,
        "a third message",
        submits(&mut link, alloc, Token::new(&[7])),
    );
    let mut copy = copies(&link).expect(&rt, "a copy");
    for moment in [4100, 8100, 16100, 32100] {
        assert!(rt; sends_at(&mut link, moment, Said::Nothing, &[0x41, 1, 0, 1, 8]));
    }
    check(
        &rt,
        "the second is given up",
        sends_at(&mut link, 64100, Said::TimedOut, &[0x41, 1, 0, 2, 7]),
    );
    assert!(rt;
        answers(
            &mut copy,
            &[0x70, 0, 0, 1],
            2500,
            Said::Reset,
            &[0x41, 1, 0, 2, 7]
        )
    );
}

/// Hears the datagram, and takes a GET after it.
fn goes_on_once(
    link: &mut Link,
    alloc: Global,
    datagram: &[u8],
    token: Token,
) -> Result<Said, LinkFault> {
    let Ok(text) = encode(alloc, &request(alloc, token)) else {
        return Err(LinkFault::Memory);
    };
    let Some(hearing) = link.prepare_heard(datagram, 100)? else {
        return Ok(Said::Dropped);
    };
    let Hearing { heeding, up } = hearing;
    let more = link.prepare_more(&heeding, token, &text, 100, 0)?;
    link.hear_with_more_prepared(heeding, Some(more), 100);
    Ok(said_by(&up))
}

fn goes_on(link: &mut Link, alloc: Global, datagram: &[u8], token: Token) -> Option<Said> {
    let due = link.next_due();
    let fault = match goes_on_once(link, alloc, datagram, token) {
        Ok(said) => return Some(said),
        Err(fault) => fault,
    };
    if !is_as_before(link, due, fault) {
        return None;
    }
    goes_on_once(link, alloc, datagram, token).ok()
}

/// A message that follows a reply is sent at once where none waits, and else after it.
#[test]
fn memory_refused_to_what_follows(rt: HostRuntime) {
    let alloc = rt.alloc();
    let mut link = Link::new(alloc);
    assert!(rt;
        submits(&mut link, alloc, Token::new(&[9])) && sends(&mut link, &[0x41, 1, 0, 0, 9])
    );
    let reply = goes_on(&mut link, alloc, &[0x61, 0x45, 0, 0, 9], Token::new(&[8]));
    check(&rt, "a reply", reply == Some(Said::Response));
    check(
        &rt,
        "the message after it",
        sends(&mut link, &[0x41, 1, 0, 1, 8]),
    );
    check(
        &rt,
        "one waits",
        submits(&mut link, alloc, Token::new(&[7])),
    );
    let ack = goes_on(&mut link, alloc, &[0x60, 0, 0, 1], Token::new(&[6]));
    check(&rt, "an ACK", ack == Some(Said::Nothing));
    check(&rt, "what waited", sends(&mut link, &[0x41, 1, 0, 2, 7]));
    check(
        &rt,
        "the last one",
        answers(
            &mut link,
            &[0x60, 0, 0, 2],
            200,
            Said::Nothing,
            &[0x41, 1, 0, 3, 6],
        ),
    );
}
