//! Datagrams from the peer, and carrying out the verdict on them.

ghost use Rattle.std.specs.Prelude.{◌≡◌, ◌<◌, ◌≤◌, ◌+◌, ◌/◌, ◌%◌, ◌++◌, ◌∷◌, [], map, IfOk, OnErr, IsOkUnless, None, true, false, vec_len, vec_capacity};
ghost use Rattle.std.specs.VecDeque.{deque_len, deque_capacity};
ghost use Rattle.coap_codec.specs.Spelling.{content};
ghost use Rattle.message_layer.specs.Values.{seen, shown, told, was_dropped, IsSound};
ghost use Rattle.message_layer.specs.Sending.{HasRoom, HasRoomToo, IsNextOf};
ghost use Rattle.message_layer.specs.Hearing.{replies, remembered_in, answered, answered_in, ended, applied, says, reset_for, hears, listed, takes};
ghost use Rattle.message_layer.specs.Prepared.{MayHeed, IsMessage, IsOfNone, IsPreparedFor, is_lost, unread_mid, unread_verdict};

use crate::bytes::Bytes;
use crate::fault::LinkFault;
use crate::prepared::{FirstSending, Hearing, Heeding};
use crate::remembered::Remembered;
use crate::sending;
use crate::state::{Awaited, Heard, Reply, State, Up};
use crate::verdict::{IGNORED, News, Verdict, decide, is_same};
use coap_codec::{CodecFault, Message, Token, decode};
use limits::MAX_DATAGRAM_LEN;
use std::alloc::{AllocError, Global};
use std::collections::VecDeque;

/// The message of that first byte and that ID, with no code and no token.
fn empty(alloc: Global, first: u8, mid: u16) -> Result<Option<Bytes>, AllocError>
    ensures { IfOk result (λ o. listed o ≡ (first ∷ 0 ∷ (mid / 256) ∷ (mid % 256) ∷ []) ∷ []) }
{
    let items = Vec::from_slice(alloc, &[first, 0, (mid / 256) as u8, (mid % 256) as u8])?;
    Ok(Some(Bytes::new(alloc, items)?))
}

/// The empty ACK or RST with that ID.
fn reply_of(alloc: Global, mid: u16, reply: Reply) -> Result<Option<Bytes>, AllocError>
    ensures { IfOk result (λ o. listed o ≡ replies mid reply) }
{
    match reply {
        Reply::Nothing => Ok(None),
        Reply::Ack => empty(alloc, 0x60, mid),
        Reply::Rst => empty(alloc, 0x70, mid),
    }
}

fn push_reply(out: &mut VecDeque<Bytes>, reply: Option<Bytes>)
    requires { deque_len out.old < deque_capacity out.old }
    ensures items { out.new.items ≡ out.old.items ++ listed reply }
    ensures len { deque_len out.new ≤ deque_len out.old + 1 }
    ensures capacity { deque_capacity out.new ≡ deque_capacity out.old }
{
    if let Some(reply) = reply {
        out.push_back_reserved(reply);
    }
}

fn remember(heard: &mut Remembered, remembered: bool, mid: u16, reply: Reply, moment: u64)
    requires { heard.old.room ≡ true }
    ensures { heard.new.messages ≡ remembered_in moment mid reply remembered heard.old.messages }
{
    if remembered {
        heard.remember(Heard { mid, moment, reply });
    }
}

fn answered_one(a: Awaited, token: &Token) -> Awaited
    ensures { result ≡ answered token.now a }
{
    if is_same(&a.token, token) {
        Awaited {
            token: a.token,
            mid: None,
        }
    } else {
        a
    }
}

fn answer_each(awaited: &mut [Awaited], token: &Token)
    ensures { awaited.new ≡ map (answered token.now) awaited.old }
{
    'each: for a in awaited.iter_mut() {
        *a = answered_one(*a, token);
    }
}

/// A response was told: no ACK is to bring another one.
fn answer(awaited: &mut Vec<Awaited>, token: &Token, news: News)
    ensures items { awaited.new.items ≡ answered_in token.now news awaited.old.items }
    ensures len { vec_len awaited.new ≡ vec_len awaited.old }
    ensures capacity { vec_capacity awaited.new ≡ vec_capacity awaited.old }
{
    if let News::Response = news {
        answer_each(awaited, token);
    }
}

/// The message that goes out next, if what is outstanding ends.
fn prepared_if(
    alloc: Global,
    ends: bool,
    s: &State,
    moment: u64,
) -> Result<Option<FirstSending>, AllocError>
    requires { IsSound (seen s.now) }
    ensures next { IfOk result (λ x. ends ≡ true → IsNextOf moment (seen s.now) x) }
    ensures none { IfOk result (λ x. ends ≡ false → x ≡ None) }
{
    if ends {
        let next = sending::prepared(alloc, &s.waiting, s.last_mid, moment)?;
        return Ok(next);
    }
    Ok(None)
}

fn end_if(s: &mut State, ends: bool, next: Option<FirstSending>, moment: u64)
    requires room { HasRoom s.old }
    requires next { ends ≡ true → IsNextOf moment (seen s.old) next }
    ensures state { seen s.new ≡ ended moment ends (seen s.old) }
    ensures room { next ≡ None → HasRoom s.new }
    ensures len { vec_len s.new.waiting ≤ vec_len s.old.waiting }
    ensures capacity { vec_capacity s.new.waiting ≡ vec_capacity s.old.waiting }
{
    if ends {
        sending::send_next(s, next, moment);
    }
}

/// What the verdict says, with everything that it puts out. Nothing is changed.
fn prepare_heeding(
    alloc: Global,
    s: &mut State,
    mid: u16,
    token: &Token,
    verdict: Verdict,
    moment: u64,
) -> Result<Heeding, AllocError>
    requires { IsSound (seen s.old) }
    ensures same { seen s.new ≡ seen s.old }
    ensures ready { IfOk result (λ x. MayHeed moment (shown s.new) x) }
    ensures mid { IfOk result (λ x. x.mid ≡ mid) }
    ensures token { IfOk result (λ x. x.token ≡ token.now) }
    ensures verdict { IfOk result (λ x. x.verdict ≡ verdict) }
{
    let reply = reply_of(alloc, mid, verdict.reply)?;
    let next = prepared_if(alloc, verdict.ends, s, moment)?;
    sending::make_room(s)?;
    Ok(Heeding {
        mid,
        token: *token,
        verdict,
        reply,
        next,
    })
}

/// Does what the verdict says.
pub fn heed(s: &mut State, x: Heeding, moment: u64)
    requires room { HasRoomToo s.old }
    requires ready { MayHeed moment (shown s.old) x }
    ensures state { seen s.new ≡ applied moment x.mid x.token x.verdict (seen s.old) }
    ensures room { x.next ≡ None → HasRoom s.new }
    ensures waiting { vec_len s.new.waiting < vec_capacity s.new.waiting }
{
    let Heeding {
        mid,
        token,
        verdict,
        reply,
        next,
    } = x;
    push_reply(&mut s.out, reply);
    remember(&mut s.heard, verdict.remembered, mid, verdict.reply, moment);
    answer(&mut s.awaited, &token, verdict.news);
    end_if(s, verdict.ends, next, moment);
}

/// The message ID of a CON that cannot be read, if it shows one.
fn mid_to_reset(datagram: &[u8]) -> Option<u16>
    ensures { result ≡ reset_for datagram.now }
{
    match datagram {
        [first, _, high, low, ..] => {
            if first / 16 == 4 {
                Some(256 * u16::from(*high) + u16::from(*low))
            } else {
                None
            }
        }
        _ => None,
    }
}

fn mid_or_zero(mid: Option<u16>) -> u16
    ensures { result ≡ unread_mid mid }
{
    mid.unwrap_or(0)
}

/// The verdict on what cannot be read: it is reset, if it shows an ID (RFC 7252 section 4.2).
fn unread(mid: Option<u16>) -> Verdict
    ensures { result ≡ unread_verdict mid }
{
    match mid {
        None => IGNORED,
        Some(_) => Verdict {
            reply: Reply::Rst,
            ..IGNORED
        },
    }
}

fn prepare_unread(
    alloc: Global,
    s: &mut State,
    datagram: &[u8],
    moment: u64,
) -> Result<Hearing, AllocError>
    requires { IsSound (seen s.old) }
    ensures same { seen s.new ≡ seen s.old }
    ensures ready { IfOk result (λ h. MayHeed moment (shown s.new) h.heeding) }
    ensures is { IfOk result (λ h. IsOfNone (reset_for datagram.now) h) }
{
    let reset = mid_to_reset(datagram);
    let mid = mid_or_zero(reset);
    let token = Token::new(&[]);
    let heeding = prepare_heeding(alloc, s, mid, &token, unread(reset), moment)?;
    Ok(Hearing {
        heeding,
        up: Up::Nothing,
    })
}

fn up_of(news: News, m: Message) -> Up
    ensures { told result ≡ says news (content m) }
{
    match news {
        News::Quiet => Up::Nothing,
        News::Response => Up::Response(m),
        News::Reset(token) => Up::Reset(token),
        News::Lost => Up::Dropped,
    }
}

fn loses(news: &News) -> bool
    ensures { result ≡ is_lost news.now }
{
    match news {
        News::Lost => true,
        News::Quiet | News::Response | News::Reset(_) => false,
    }
}

/// What the message does and tells.
fn prepare_message(
    alloc: Global,
    s: &mut State,
    m: Message,
    moment: u64,
) -> Result<Option<Hearing>, LinkFault>
    requires { IsSound (seen s.old) }
    ensures same { seen s.new ≡ seen s.old }
    ensures ok { IfOk result (λ o. IsMessage moment (content m) (shown s.new) o) }
    ensures memory { IsOkUnless result LinkFault.Memory }
{
    let verdict = decide(s, &m, moment);
    if loses(&verdict.news) {
        return Ok(None);
    }
    let mid = m.mid;
    let token = m.token;
    let news = verdict.news;
    let heeding = prepare_heeding(alloc, s, mid, &token, verdict, moment)?;
    let up = up_of(news, m);
    Ok(Some(Hearing { heeding, up }))
}

/// What a datagram does and tells. Nothing is changed.
pub fn prepare_heard(
    alloc: Global,
    s: &mut State,
    datagram: &[u8],
    moment: u64,
) -> Result<Option<Hearing>, LinkFault>
    requires { IsSound (seen s.old) }
    ensures same { seen s.new ≡ seen s.old }
    ensures ok { IfOk result (λ o. IsPreparedFor moment datagram.now (shown s.new) o) }
    ensures memory { IsOkUnless result LinkFault.Memory }
{
    if s.last_mid.is_none() || datagram.len() > MAX_DATAGRAM_LEN {
        return Ok(None);
    }
    match decode(alloc, datagram) {
        Ok(m) => prepare_message(alloc, s, m, moment),
        Err(CodecFault::Memory) => Err(LinkFault::Memory),
        Err(_) => {
            let hearing = prepare_unread(alloc, s, datagram, moment)?;
            Ok(Some(hearing))
        }
    }
}

/// Takes a datagram.
pub fn hear(alloc: Global, s: &mut State, datagram: &[u8], moment: u64) -> Result<Up, LinkFault>
    requires { IsSound (seen s.old) }
    ensures ok { IfOk result (λ x. hears moment datagram.now (seen s.old) ≡ (seen s.new, told x)) }
    ensures err { OnErr result (seen s.new ≡ seen s.old) }
    ensures memory { IsOkUnless result LinkFault.Memory }
{
    match prepare_heard(alloc, s, datagram, moment)? {
        None => Ok(Up::Dropped),
        Some(hearing) => {
            let Hearing { heeding, up } = hearing;
            heed(s, heeding, moment);
            Ok(up)
        }
    }
}
