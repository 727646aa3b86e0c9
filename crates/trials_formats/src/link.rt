ghost use Rattle.std.specs.Prelude.{◌≡◌, []};
ghost use Rattle.coap_codec.specs.Spelling.{content};

use crate::telling::check;
use coap_codec::{Message, MsgType, Token};
use message_layer::{Fitness, Link, LinkFault, Up, judge};
use std::alloc::Global;

/// What a call told.
#[derive(Clone, Copy, PartialEq, Eq)]
pub enum Said {
    Nothing,
    Response,
    TimedOut,
    Reset,
    Dropped,
}

pub fn said_by(up: &Up) -> Said {
    match up {
        Up::Nothing => Said::Nothing,
        Up::Response(_) => Said::Response,
        Up::TimedOut(_) => Said::TimedOut,
        Up::Reset(_) => Said::Reset,
        Up::Dropped => Said::Dropped,
    }
}

pub fn request(alloc: Global, token: Token) -> Message
    ensures { content result ≡ record { kind = MsgType.Con; code = 1; mid = 0; token = token; options = []; payload = [] } }
{
    Message::new(alloc, MsgType::Con, 1, 0, token)
}

/// Hands in a GET.
pub fn submit(
    link: &mut Link,
    alloc: Global,
    token: Token,
    moment: u32,
    word: u64,
) -> Result<(), LinkFault> {
    link.submit(request(alloc, token), u64::from(moment), word)
}

pub fn tick(link: &mut Link, moment: u32) -> Option<Said> {
    let up = link.tick(u64::from(moment)).ok()?;
    Some(said_by(&up))
}

pub fn hear(link: &mut Link, datagram: &[u8], moment: u32) -> Option<Said> {
    let up = link.heard(datagram, u64::from(moment)).ok()?;
    Some(said_by(&up))
}

/// What a response that is heard is good for.
fn hear_response(link: &mut Link, datagram: &[u8], moment: u32) -> Option<Fitness> {
    let up = link.heard(datagram, u64::from(moment)).ok()?;
    match &up {
        Up::Response(m) => Some(judge(m)),
        _ => None,
    }
}

/// This datagram goes out next.
fn sends_next(link: &mut Link, wanted: &[u8]) -> bool {
    match link.take_send() {
        Some(sent) => sent.as_slice() == wanted,
        None => false,
    }
}

fn sends_nothing(link: &mut Link) -> bool {
    link.take_send().is_none()
}

/// This datagram goes out, and no other.
pub fn sends(link: &mut Link, wanted: &[u8]) -> bool {
    sends_next(link, wanted) && sends_nothing(link)
}

/// A GET goes out first at moment 0.
fn one_sent(alloc: Global, token: Token) -> Option<Link> {
    let mut link = Link::new(alloc);
    submit(&mut link, alloc, token, 0, 0).ok()?;
    link.take_send()?;
    Some(link)
}

/// A copy goes out at this moment, and nothing a millisecond before.
fn sends_copy(link: &mut Link, copy: &[u8], before: u32, moment: u32) -> bool {
    tick(link, before).is_some()
        && sends_nothing(link)
        && link.next_due() == Some(u64::from(moment))
        && tick(link, moment).is_some()
        && sends_next(link, copy)
}

/// The message is given up at this moment, and not a millisecond before.
fn gives_up(link: &mut Link, before: u32, moment: u32) -> bool {
    tick(link, before) == Some(Said::Nothing)
        && tick(link, moment) == Some(Said::TimedOut)
        && sends_nothing(link)
        && link.next_due().is_none()
}

/// Its copies go out at these moments and not a millisecond before.
fn sends_copies(link: &mut Link, copy: &[u8], times: &[(u32, u32)]) -> bool {
    for (before, moment) in times {
        if !sends_copy(link, copy, *before, *moment) {
            return false;
        }
    }
    true
}

/// A random word, and the datagram that is sent with it; the moments at which its copies go out,
/// and when it is given up, each with the millisecond before.
type Run = (u64, &'static [u8], [(u32, u32); 4], (u32, u32));

static RUNS: [Run; 2] = [
    // the longest timeout
    (
        1000,
        b"\x41\x01\x03\xe8\x07",
        [(2999, 3000), (8999, 9000), (20999, 21000), (44999, 45000)],
        (92999, 93000),
    ),
    // the shortest one
    (
        0,
        b"\x41\x01\0\0\x07",
        [(1999, 2000), (5999, 6000), (13999, 14000), (29999, 30000)],
        (61999, 62000),
    ),
];

fn is_run(alloc: Global, run: &Run) -> bool {
    let (word, datagram, times, (before, end)) = run;
    let mut link = Link::new(alloc);
    submit(&mut link, alloc, Token::new(&[7]), 0, *word).is_ok()
        && sends_next(&mut link, datagram)
        && sends_copies(&mut link, datagram, times)
        && gives_up(&mut link, *before, *end)
}

#[test]
fn copies_of_a_message(rt: HostRuntime) {
    for run in &RUNS {
        check(&rt, run.0, is_run(rt.alloc(), run));
    }
}

/// A message is sent, and 64 more are handed in.
fn fills(link: &mut Link, alloc: Global) -> bool {
    for n in 0..65u8 {
        if submit(link, alloc, Token::new(&[n]), 0, 0).is_err() {
            return false;
        }
    }
    true
}

/// One more has no place, until one is forgotten.
fn is_full(link: &mut Link, alloc: Global, last: Token) -> bool {
    let refused = submit(link, alloc, last, 0, 0) == Err(LinkFault::Queue);
    link.forget(&Token::new(&[3]));
    refused && submit(link, alloc, last, 0, 0).is_ok()
}

/// The second message goes out once the first is acknowledged.
fn goes_on(link: &mut Link) -> bool {
    !sends_nothing(link)
        && hear(link, &[0x60, 0, 0, 0], 0).is_some()
        && sends_next(link, &[0x41, 1, 0, 1, 1])
}

#[test]
fn queue(rt: HostRuntime) {
    let alloc = rt.alloc();
    let mut link = Link::new(alloc);
    check(&rt, "64 wait", fills(&mut link, alloc));
    check(
        &rt,
        "one more",
        is_full(&mut link, alloc, Token::new(&[65])),
    );
    check(&rt, "the second", goes_on(&mut link));
}

/// The message ID that goes out next.
fn sent_mid(link: &mut Link) -> Option<(u8, u8)> {
    let sent = link.take_send()?;
    match sent.as_slice() {
        [_, _, high, low, ..] => Some((*high, *low)),
        _ => None,
    }
}

/// A GET goes out and is answered, and its token is awaited no more.
fn goes_round(link: &mut Link, alloc: Global, token: Token, moment: u32) -> bool {
    if submit(link, alloc, token, moment, 65535).is_err() {
        return false;
    }
    let Some((high, low)) = sent_mid(link) else {
        return false;
    };
    hear(link, &[0x61, 0x45, high, low, 9], moment) == Some(Said::Response)
        && link.expect(&token, false).is_ok()
}

/// No ID is free until this moment; then the next one is given.
fn is_used_up(link: &mut Link, alloc: Global, token: Token) -> bool {
    submit(link, alloc, token, 493999, 0) == Err(LinkFault::Numbers)
        && submit(link, alloc, token, 494000, 0).is_ok()
        && sends_next(link, &[0x41, 1, 0x7f, 0xff, 9])
}

#[test]
fn numbers(rt: HostRuntime) {
    let alloc = rt.alloc();
    let mut link = Link::new(alloc);
    let token = Token::new(&[9]);
    for _ in 0..32768u32 {
        assert!(rt; goes_round(&mut link, alloc, token, 0));
    }
    check(&rt, "no ID", is_used_up(&mut link, alloc, token));
}

/// Where nearly all IDs are in use all the time, each is taken as soon as it is free.
#[test]
fn numbers_that_come_free(rt: HostRuntime) {
    let alloc = rt.alloc();
    let mut link = Link::new(alloc);
    let token = Token::new(&[9]);
    for n in 0..98304u32 {
        // 494,040 ms after the ID that was given 32,768 ago
        assert!(rt; goes_round(&mut link, alloc, token, 15 * n + n / 13));
    }
}

#[test]
fn heard_before_a_sending(rt: HostRuntime) {
    let mut link = Link::new(rt.alloc());
    assert!(rt; hear(&mut link, &[0x40, 0, 0, 1], 0) == Some(Said::Dropped));
}

/// A ping is answered by a Reset message.
fn answers_ping(link: &mut Link, mid: u16) -> bool {
    let [high, low] = mid.to_be_bytes();
    hear(link, &[0x40, 0, high, low], 0).is_some() && sends_next(link, &[0x70, 0, high, low])
}

/// The last ID is remembered, and the one before 1,024 others isn't.
fn remembers(link: &mut Link) -> bool {
    hear(link, &[0x40, 0, 4, 0], 246999) == Some(Said::Dropped)
        && sends_nothing(link)
        && hear(link, &[0x40, 0, 0, 5], 246999) == Some(Said::Nothing)
        && !sends_nothing(link)
}

/// The last ID is forgotten at this moment.
fn forgets(link: &mut Link) -> bool {
    hear(link, &[0x40, 0, 4, 0], 247000) == Some(Said::Nothing) && !sends_nothing(link)
}

#[test]
fn remembered(rt: HostRuntime) {
    let mut link = one_sent(rt.alloc(), Token::new(&[9])).expect(&rt, "a GET goes out");
    for mid in 0..1024u16 {
        assert!(rt; answers_ping(&mut link, mid));
    }
    let mut copy = link.copy().expect(&rt, "memory");
    check(&rt, "remembered", remembers(&mut link));
    check(&rt, "forgotten", forgets(&mut link));
    check(&rt, "remembered by the copy", remembers(&mut copy));
    check(&rt, "forgotten by the copy", forgets(&mut copy));
}

/// What the response with this ID tells.
fn tells(link: &mut Link, mid: u8, moment: u32) -> Option<Said> {
    let said = hear(link, &[0x41, 0x45, 0, mid, 9, 0xff, 0x6f, 0x6e], moment);
    link.take_send();
    said
}

/// Of two that were heard, the later first, the other is forgotten; what comes after that is
/// remembered, at an earlier moment too.
fn forgets_the_earlier(link: &mut Link) -> bool {
    tells(link, 2, 300_000) == Some(Said::Response)
        && tells(link, 1, 300_000) == Some(Said::Nothing)
        && tells(link, 3, 10) == Some(Said::Response)
        && tells(link, 3, 20) == Some(Said::Nothing)
}

#[test]
fn clock_that_goes_back(rt: HostRuntime) {
    let mut link = one_sent(rt.alloc(), Token::new(&[9])).expect(&rt, "a GET goes out");
    assert!(rt; tells(&mut link, 1, 600_000) == Some(Said::Response));
    assert!(rt; tells(&mut link, 2, 0) == Some(Said::Response));
    let mut copy = link.copy().expect(&rt, "memory");
    check(&rt, "the link", forgets_the_earlier(&mut link));
    check(&rt, "its copy", forgets_the_earlier(&mut copy));
}

/// What is heard is answered so, or not at all.
fn answers(alloc: Global, heard: &[u8], answer: Option<&[u8]>) -> bool {
    let Some(mut link) = one_sent(alloc, Token::new(&[0, 0, 0, 0, 0, 0, 0, 0])) else {
        return false;
    };
    if hear(&mut link, heard, 10) != Some(Said::Nothing) {
        return false;
    }
    match answer {
        None => sends_nothing(&mut link),
        Some(wanted) => sends_next(&mut link, wanted),
    }
}

/// What is heard, and how it is answered.
type Heard = (&'static [u8], Option<&'static [u8]>);

static MALFORMED: [Heard; 9] = [
    (&[0x40, 1, 0], None),
    (&[0x80, 1, 0, 0], None),
    (&[0x49, 1, 0, 7], Some(&[0x70, 0, 0, 7])),
    (&[0x48, 0x45, 0, 7], Some(&[0x70, 0, 0, 7])),
    (&[0x40, 0x45, 0, 7, 0xff], Some(&[0x70, 0, 0, 7])),
    (&[0x50, 0x45, 0, 7, 0xf0], None),
    (&[0x41, 0, 0, 7, 0xaa], Some(&[0x70, 0, 0, 7])),
    (
        &[0x40, 0x45, 0, 7, 0xe0, 0xff, 0xff],
        Some(&[0x70, 0, 0, 7]),
    ),
    (&[0x40, 0, 0, 9], Some(&[0x70, 0, 0, 9])),
];

#[test]
fn malformed(rt: HostRuntime) {
    for &(heard, answer) in &MALFORMED {
        check(&rt, heard, answers(rt.alloc(), heard, answer));
    }
}

/// A second message goes out when the first is acknowledged.
fn sends_second(link: &mut Link, alloc: Global) -> bool {
    submit(link, alloc, Token::new(&[8]), 0, 0).is_ok()
        && sends_nothing(link)
        && hear(link, &[0x60, 0, 0, 0], 100).is_some()
        && sends_next(link, &[0x41, 1, 0, 1, 8])
}

/// A separate response is told once, and acknowledged each time.
fn tells_separate(link: &mut Link) -> bool {
    let response = [0x41, 0x45, 0x12, 0x34, 9, 0xc0, 0xff, 0x6f, 0x6e];
    hear_response(link, &response, 200) == Some(Fitness::Fits)
        && sends_next(link, &[0x60, 0, 0x12, 0x34])
        && hear(link, &response, 300) == Some(Said::Nothing)
        && sends_next(link, &[0x60, 0, 0x12, 0x34])
}

/// The second message is reset.
fn is_reset(link: &mut Link) -> bool {
    hear(link, &[0x70, 0, 0, 1], 400) == Some(Said::Reset)
}

#[test]
fn separate(rt: HostRuntime) {
    let alloc = rt.alloc();
    let mut link = one_sent(alloc, Token::new(&[9])).expect(&rt, "a GET goes out");
    check(&rt, "a second message", sends_second(&mut link, alloc));
    check(&rt, "a separate response", tells_separate(&mut link));
    let mut copy = link.copy().expect(&rt, "memory");
    check(&rt, "a reset", is_reset(&mut link));
    check(&rt, "nothing is due", link.next_due().is_none());
    check(&rt, "the copy is due", copy.next_due() == Some(2100));
    check(&rt, "a reset of the copy", is_reset(&mut copy));
}

#[test]
fn rejected(rt: HostRuntime) {
    let mut link = one_sent(rt.alloc(), Token::new(&[9])).expect(&rt, "a GET goes out");
    let response = [0x41, 0x45, 0x43, 0x21, 9, 0x90];
    check(
        &rt,
        "a rejected response",
        hear_response(&mut link, &response, 10) == Some(Fitness::Rejected),
    );
    check(
        &rt,
        "a Reset message",
        sends_next(&mut link, &[0x70, 0, 0x43, 0x21]),
    );
}
