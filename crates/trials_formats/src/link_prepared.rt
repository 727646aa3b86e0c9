//! The calls of a link in two phases: first what may want memory is prepared, then it is done.

use crate::link::{Said, hear, request, said_by, sends, tick};
use crate::telling::check;
use coap_codec::{Token, encode};
use message_layer::{Bytes, FirstSending, Hearing, Link, Ticking};
use std::alloc::Global;

fn is_bytes(bytes: &Option<Bytes>, wanted: Option<&[u8]>) -> bool {
    match (bytes, wanted) {
        (None, None) => true,
        (Some(bytes), Some(wanted)) => bytes.as_slice() == wanted,
        _ => false,
    }
}

fn is_sending(first: &Option<FirstSending>, wanted: Option<&[u8]>) -> bool {
    match (first, wanted) {
        (None, None) => true,
        (Some(first), Some(wanted)) => first.datagram.as_slice() == wanted,
        _ => false,
    }
}

/// Hands in a GET, which is sent at once as these bytes, or not.
fn submits(link: &mut Link, alloc: Global, token: Token, moment: u32, sent: Option<&[u8]>) -> bool {
    let moment = u64::from(moment);
    let Ok(text) = encode(alloc, &request(alloc, token)) else {
        return false;
    };
    let Ok(submission) = link.prepare_submit(token, &text, moment, 0) else {
        return false;
    };
    let is = is_sending(&submission.sent, sent);
    link.submit_prepared(submission, moment);
    is
}

/// Hears a datagram, with this reply and this message that goes out next.
fn hears(
    link: &mut Link,
    datagram: &[u8],
    moment: u32,
    reply: Option<&[u8]>,
    next: Option<&[u8]>,
) -> Option<Said> {
    let moment = u64::from(moment);
    let hearing = match link.prepare_heard(datagram, moment) {
        Ok(Some(hearing)) => hearing,
        Ok(None) => return Some(Said::Dropped),
        Err(_) => return None,
    };
    let Hearing { heeding, up } = hearing;
    let is = is_bytes(&heeding.reply, reply) && is_sending(&heeding.next, next);
    link.hear_prepared(heeding, moment);
    if is { Some(said_by(&up)) } else { None }
}

fn is_tick(ticking: &Ticking, sent: Option<&[u8]>) -> bool {
    match (ticking, sent) {
        (Ticking::Rests, None) => true,
        (Ticking::Copies(copy), Some(sent)) => copy.as_slice() == sent,
        (Ticking::GivesUp(_, next), sent) => is_sending(next, sent),
        _ => false,
    }
}

/// Ticks without these tokens, and sends this.
fn ticks(link: &mut Link, moment: u32, gone: &[Token], sent: Option<&[u8]>) -> Option<Said> {
    let moment = u64::from(moment);
    let ticking = link.prepare_tick(moment, gone).ok()?;
    let is = is_tick(&ticking, sent);
    let up = link.tick_prepared(ticking, moment, gone);
    if is { Some(said_by(&up)) } else { None }
}

/// The first of three messages is sent, and its copy at 2,000 ms; the second is gone then.
fn sends_first(link: &mut Link, alloc: Global) -> bool {
    let first = [0x41, 1, 0, 0, 9];
    submits(link, alloc, Token::new(&[9]), 0, Some(&first))
        && sends(link, &first)
        && submits(link, alloc, Token::new(&[8]), 0, None)
        && submits(link, alloc, Token::new(&[7]), 0, None)
        && ticks(link, 1999, &[], None) == Some(Said::Nothing)
        && ticks(link, 2000, &[Token::new(&[8])], Some(&first)) == Some(Said::Nothing)
        && sends(link, &first)
}

/// A separate response acknowledges nothing, ends the first message and is told.
fn tells_response(link: &mut Link) -> bool {
    let response = [0x41, 0x45, 0x12, 0x34, 9, 0xc0, 0xff, 0x6f, 0x6e];
    let ack = [0x60, 0, 0x12, 0x34];
    let next = [0x41, 1, 0, 1, 7];
    hears(link, &response, 2100, Some(&ack), Some(&next)) == Some(Said::Response)
        && hears(link, &response, 2200, Some(&ack), None) == Some(Said::Nothing)
}

/// The message is given up, and the one after the next goes out.
fn gives_up(link: &mut Link, alloc: Global) -> bool {
    for moment in [4100, 8100, 16100, 32100] {
        if tick(link, moment) != Some(Said::Nothing) {
            return false;
        }
    }
    let next = [0x41, 1, 0, 2, 5];
    submits(link, alloc, Token::new(&[6]), 32200, None)
        && submits(link, alloc, Token::new(&[5]), 32200, None)
        && ticks(link, 64100, &[Token::new(&[6])], Some(&next)) == Some(Said::TimedOut)
}

#[test]
fn in_two_phases(rt: HostRuntime) {
    let alloc = rt.alloc();
    let mut link = Link::new(alloc);
    check(
        &rt,
        "before a sending",
        hears(&mut link, &[0x40, 0, 0, 1], 0, None, None) == Some(Said::Dropped),
    );
    check(&rt, "the first message", sends_first(&mut link, alloc));
    check(&rt, "a response", tells_response(&mut link));
    check(&rt, "the next message", gives_up(&mut link, alloc));
    link.clear_out();
    check(&rt, "cleared", link.take_send().is_none());
    // what is gone is awaited no more, and what was sent is
    check(
        &rt,
        "what is gone",
        hear(&mut link, &[0x41, 0x45, 0x43, 0x21, 6], 64200) == Some(Said::Nothing),
    );
    check(
        &rt,
        "a Reset message",
        sends(&mut link, &[0x70, 0, 0x43, 0x21]),
    );
    check(
        &rt,
        "what was sent",
        hear(&mut link, &[0x41, 0x45, 0x43, 0x22, 5], 64200) == Some(Said::Response),
    );
}
