//! Sending: messages that are handed in, their copies, and the end of what is outstanding.

ghost use Rattle.std.specs.Prelude.{◌≡◌, ◌<◌, ◌≤◌, ◌+◌, ◌^◌, length, IfOk, OnOk, OnErr, IsTrue, true, ◌↔◌, IsOkUnless, MatchOption, None, is_some, vec_len, vec_capacity};
ghost use Rattle.std.specs.Option.{option_copied, option_map};
ghost use Rattle.std.specs.List.{AllByRecursion, find};
ghost use Rattle.limits.specs.declared.TheConstants.{MAX_MESSAGE_IDS, MAX_WAITING};
ghost use Rattle.coap_codec.specs.Spelling.{content};
ghost use Rattle.coap_codec.specs.Writing.{IsEncodable};
ghost use Rattle.message_layer.specs.Values.{seen, shown, told, has_room, IsSound, IsSoundOutstanding, IsSoundWaiting};
ghost use Rattle.message_layer.specs.Sending.{due_of, next_mid, first_sent, next_sent, ticked, with_outstanding, again, waits, submitted, IsNext, IsNextOf, HasRoom, HasRoomToo, mids_in_use, with_mid, HasPlace, Submits, IsSubmitted};
ghost use Rattle.message_layer.specs.Calls.{is_among, waits_on, without};
ghost use Rattle.message_layer.specs.Prepared.{at_once, copied, MaySubmit, IsSubmission, IsTicking};

use crate::bytes::Bytes;
use crate::fault::LinkFault;
use crate::prepared::{FirstSending, Submission, Ticking};
use crate::state::{Awaited, Outstanding, State, Up, Waiting};
use crate::{calls, handing};
use coap_codec::{Message, MsgType, Token};
use limits::{MAX_RETRANSMIT, MAX_WAITING};
use std::alloc::{AllocError, Global};

/// Two to the power of the number of copies.
pub fn power(retransmissions: u8) -> u64
    requires { retransmissions ≤ MAX_RETRANSMIT }
    ensures is { result ≡ 2 ^ retransmissions }
    ensures small { result ≤ 16 }
{
    match retransmissions {
        0 => 1,
        1 => 2,
        2 => 4,
        3 => 8,
        _ => 16,
    }
}

/// When the next copy, or the end, is due.
fn due(outstanding: &Outstanding) -> u64
    requires { IsSoundOutstanding outstanding.now }
    ensures { result ≡ due_of outstanding.now }
{
    outstanding.sent + outstanding.timeout * power(outstanding.retransmissions)
}

/// The message ID after the last one, or the first one.
pub fn mid_after(last_mid: Option<u16>, first_mid: u16) -> u16
    ensures { result ≡ next_mid last_mid first_mid }
{
    match last_mid {
        None => first_mid,
        Some(mid) => ((u32::from(mid) + 1) % 65536) as u16,
    }
}

/// The message as it is when it is sent in this datagram, and the datagram once more.
pub fn sent_in(
    w: &Waiting,
    mid: u16,
    datagram: Bytes,
    moment: u64,
) -> Result<FirstSending, AllocError>
    ensures message { IfOk result (λ p. p.message ≡ record {
      token = w.now.token;
      mid = mid;
      datagram = datagram;
      timeout = w.now.timeout;
      sent = moment;
      retransmissions = 0;
    }) }
    ensures datagram { IfOk result (λ p. p.datagram ≡ p.message.datagram) }
{
    let copy = datagram.share()?;
    let message = Outstanding {
        token: w.token,
        mid,
        datagram,
        timeout: w.timeout,
        sent: moment,
        retransmissions: 0,
    };
    Ok(FirstSending {
        message,
        datagram: copy,
    })
}

/// The message as it is when it is sent, and its bytes once more.
pub fn launch(
    alloc: Global,
    w: &Waiting,
    last_mid: Option<u16>,
    moment: u64,
) -> Result<FirstSending, AllocError>
    requires { IsSoundWaiting w.now }
    ensures message { IfOk result (λ p. p.message ≡ first_sent moment last_mid w.now) }
    ensures datagram { IfOk result (λ p. p.datagram ≡ p.message.datagram) }
{
    let mid = mid_after(last_mid, w.first_mid);
    let datagram = w.datagram.numbered(alloc, mid)?;
    sent_in(w, mid, datagram, moment)
}

/// The message that goes out next, if one waits.
pub fn prepared(
    alloc: Global,
    waiting: &[Waiting],
    last_mid: Option<u16>,
    moment: u64,
) -> Result<Option<FirstSending>, AllocError>
    requires { AllByRecursion IsSoundWaiting waiting.now }
    ensures { IfOk result (λ next. IsNext moment last_mid waiting.now next) }
{
    match waiting {
        [] => Ok(None),
        [w, ..] => {
            let next = launch(alloc, w, last_mid, moment)?;
            Ok(Some(next))
        }
    }
}

fn first_without<'a>(waiting: &'a [Waiting], gone: &[Token]) -> Option<&'a Waiting>
    ensures { option_copied result ≡ find (waits_on (is_among gone.now)) waiting.now }
{
    'each: for w in waiting {
        if !calls::is_among(gone, &w.token) {
            return Some(w);
        }
    }
    None
}

/// The message that goes out next, if one waits that has no token of these.
fn prepared_but(
    alloc: Global,
    s: &State,
    gone: &[Token],
    moment: u64,
) -> Result<Option<FirstSending>, AllocError>
    requires { IsSound (seen s.now) }
    ensures { IfOk result (λ x. IsNextOf moment (without gone.now (seen s.now)) x) }
{
    match first_without(&s.waiting, gone) {
        None => Ok(None),
        Some(w) => {
            let next = launch(alloc, w, s.last_mid, moment)?;
            Ok(Some(next))
        }
    }
}

/// Room for what one more call adds.
#[tactic(auto, using(crate::proofs::Room::room_holds))]
pub fn make_room(s: &mut State) -> Result<(), AllocError>
    ensures same { seen s.new ≡ seen s.old }
    ensures ok { OnOk result (has_room s.new ≡ true) }
{
    s.given.reserve()?;
    s.waiting.reserve(1)?;
    s.awaited.reserve(1)?;
    s.heard.reserve()?;
    s.out.reserve(2)?;
    Ok(())
}

fn send_first(s: &mut State, first: FirstSending)
    requires room { HasRoom s.old }
    requires copy { first.datagram ≡ first.message.datagram }
    ensures state { seen s.new ≡ with_outstanding (seen s.old) s.old.waiting.items first.message }
    ensures len { vec_len s.new.waiting ≡ vec_len s.old.waiting }
    ensures capacity { vec_capacity s.new.waiting ≡ vec_capacity s.old.waiting }
{
    let FirstSending { message, datagram } = first;
    s.last_mid = Some(message.mid);
    s.given.push_reserved(message.sent);
    s.awaited.push_reserved(Awaited {
        token: message.token,
        mid: Some(message.mid),
    });
    s.out.push_back_reserved(datagram);
    s.outstanding = Some(message);
}

/// What was outstanding has ended: the next message is sent.
pub fn send_next(s: &mut State, next: Option<FirstSending>, moment: u64)
    requires room { HasRoom s.old }
    requires next { IsNextOf moment (seen s.old) next }
    ensures state { seen s.new ≡ next_sent moment (seen s.old) }
    ensures room { next ≡ None → HasRoom s.new }
    ensures len { vec_len s.new.waiting ≤ vec_len s.old.waiting }
    ensures capacity { vec_capacity s.new.waiting ≡ vec_capacity s.old.waiting }
{
    match next {
        None => s.outstanding = None,
        Some(first) => {
            drop(s.waiting.remove(0));
            send_first(s, first);
        }
    }
}

/// Counts a copy.
fn count_copy(outstanding: &mut Option<Outstanding>, moment: u64)
    requires { MatchOption outstanding.old (Unit {0}) (λ o. o.retransmissions < 5) }
    ensures { outstanding.new ≡ option_map (again moment) outstanding.old }
{
    if let Some(o) = outstanding {
        o.sent = moment;
        o.retransmissions += 1;
    }
}

/// What a tick does after what bears one of these tokens is gone. Nothing is changed.
pub fn prepare_tick(
    alloc: Global,
    s: &mut State,
    moment: u64,
    gone: &[Token],
) -> Result<Ticking, AllocError>
    requires { IsSound (seen s.old) }
    ensures same { seen s.new ≡ seen s.old }
    ensures ok { IfOk result (λ x. IsTicking moment gone.now (shown s.new) x) }
{
    let Some(outstanding) = &s.outstanding else {
        return Ok(Ticking::Rests);
    };
    if moment < due(outstanding) {
        return Ok(Ticking::Rests);
    }
    if outstanding.retransmissions < MAX_RETRANSMIT {
        let copy = outstanding.datagram.share()?;
        make_room(s)?;
        return Ok(Ticking::Copies(copy));
    }
    let token = outstanding.token;
    let next = prepared_but(alloc, s, gone, moment)?;
    make_room(s)?;
    Ok(Ticking::GivesUp(token, next))
}

fn send_copy(s: &mut State, copy: Bytes, moment: u64)
    requires sound { IsSound (seen s.old) }
    requires room { HasRoomToo s.old }
    ensures { seen s.new ≡ copied moment copy (seen s.old) }
{
    s.out.push_back_reserved(copy);
    count_copy(&mut s.outstanding, moment);
}

fn give_up(s: &mut State, next: Option<FirstSending>, moment: u64)
    requires room { HasRoomToo s.old }
    requires next { IsNextOf moment (seen s.old) next }
    ensures { seen s.new ≡ next_sent moment (seen s.old) }
{
    send_next(s, next, moment);
}

/// Does what a tick does.
pub fn tick_prepared(s: &mut State, x: Ticking, moment: u64, gone: &[Token]) -> Up
    requires sound { IsSound (seen s.old) }
    requires ready { IsTicking moment gone.now (shown s.old) x }
    ensures { ticked moment (without gone.now (seen s.old)) ≡ (seen s.new, told result) }
{
    calls::drop_gone(s, gone);
    match x {
        Ticking::Rests => Up::Nothing,
        Ticking::Copies(copy) => {
            send_copy(s, copy, moment);
            Up::Nothing
        }
        Ticking::GivesUp(token, next) => {
            give_up(s, next, moment);
            Up::TimedOut(token)
        }
    }
}

/// There is an ID for one more message.
pub fn has_mid(s: &State, moment: u64) -> bool
    requires { length s.now.given.moments + vec_len s.now.waiting ≤ MAX_MESSAGE_IDS }
    ensures { IsTrue result ↔ (mids_in_use moment (seen s.now) < MAX_MESSAGE_IDS) }
{
    s.given.has_free(s.waiting.len(), moment)
}

/// Whether a place in the queue and an ID are free; if not, which is missing.
pub fn check(s: &State, moment: u64) -> Result<(), LinkFault>
    requires { IsSound (seen s.now) }
    ensures { IsSubmitted moment (seen s.now) result }
{
    if s.waiting.len() >= MAX_WAITING {
        return Err(LinkFault::Queue);
    }
    if !has_mid(s, moment) {
        return Err(LinkFault::Numbers);
    }
    Ok(())
}

/// The message with these bytes, as it is taken. Nothing is changed.
pub fn prepare_submit(
    alloc: Global,
    s: &mut State,
    token: Token,
    text: &[u8],
    moment: u64,
    word: u64,
) -> Result<Submission, LinkFault>
    requires waiting { IsSoundWaiting (waits token text.now word) }
    requires id { with_mid 0 text.now ≡ text.now }
    requires place { HasPlace moment (seen s.old) }
    ensures same { seen s.new ≡ seen s.old }
    ensures ok { IfOk result (λ x. IsSubmission moment token text.now word (shown s.new) x) }
    ensures memory { IsOkUnless result LinkFault.Memory }
{
    make_room(s)?;
    match &s.outstanding {
        Some(_) => handing::in_turn(alloc, token, text, word),
        None => handing::at_once(alloc, token, text, s.last_mid, moment, word),
    }
}

/// Takes a message, where there is room for it, and for its sending if it is sent at once.
pub fn take(s: &mut State, x: Submission, moment: u64)
    requires sound { IsSound (seen s.old) }
    requires waiting { vec_len s.old.waiting < vec_capacity s.old.waiting }
    requires room { is_some x.sent ≡ true → HasRoom s.old }
    requires place { length s.old.waiting.items < MAX_WAITING }
    requires sent { IsNext moment s.old.last_mid (at_once x.waiting s.old.outstanding) x.sent }
    ensures { seen s.new ≡ submitted moment x.waiting (seen s.old) }
{
    let Submission { waiting, sent } = x;
    s.given.prune(s.waiting.len(), moment);
    match sent {
        None => s.waiting.push_reserved(waiting),
        Some(first) => send_first(s, first),
    }
}

/// Takes a message.
pub fn submit_prepared(s: &mut State, x: Submission, moment: u64)
    requires sound { IsSound (seen s.old) }
    requires room { HasRoomToo s.old }
    requires ready { MaySubmit moment (shown s.old) x }
    ensures { seen s.new ≡ submitted moment x.waiting (seen s.old) }
{
    take(s, x, moment);
}

/// Takes a message to be sent.
#[tactic(auto, using(crate::proofs::Numbering::spelled_under_0))]
pub fn submit(
    alloc: Global,
    s: &mut State,
    m: Message,
    moment: u64,
    word: u64,
) -> Result<(), LinkFault>
    requires sound { IsSound (seen s.old) }
    requires encodable { IsEncodable (content m) }
    requires confirmable { m.kind ≡ MsgType.Con }
    ensures ok { OnOk result (Submits moment word (content m) (seen s.old) (seen s.new)) }
    ensures err { OnErr result (seen s.new ≡ seen s.old) }
    ensures fault { IsSubmitted moment (seen s.old) result }
{
    check(s, moment)?;
    let token = m.token;
    let text = handing::text_of(alloc, m)?;
    let x = prepare_submit(alloc, s, token, &text, moment, word)?;
    submit_prepared(s, x, moment);
    Ok(())
}

/// When the outstanding message is due.
pub fn next_due(s: &State) -> Option<u64>
    requires { IsSound (seen s.now) }
    ensures { result ≡ option_map due_of s.now.outstanding }
{
    let outstanding = s.outstanding.as_ref()?;
    Some(due(outstanding))
}
