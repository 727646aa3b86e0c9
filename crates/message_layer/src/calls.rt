//! The calls that neither send nor hear: forgetting, expecting, giving out and copying.

ghost use Rattle.std.specs.Prelude.{◌≡◌, ◌≤◌, filter, IfOk, OnOk, OnErr, IsOk, false, vec_len, vec_capacity};
ghost use Rattle.message_layer.specs.Values.{seen};
ghost use Rattle.message_layer.specs.Sending.{HasRoomToo};
ghost use Rattle.message_layer.specs.Calls.{waits_not_under, forgotten, is_other, expected, sent_out, is_among, waits_on, is_awaited_on, without, out_empty, kept_link};

use crate::bytes::Bytes;
use crate::state::{Awaited, Outstanding, State, Waiting};
use crate::verdict::{awaits, is_same};
use coap_codec::Token;
use std::alloc::{AllocError, Global};
use std::collections::VecDeque;

fn drop_waiting(waiting: &mut Vec<Waiting>, token: &Token)
    ensures { waiting.new.items ≡ filter (waits_not_under token.now) waiting.old.items }
{
    waiting.retain(|w| !is_same(&w.token, token));
}

/// Messages with the token that still wait are not sent.
pub fn forget(s: &mut State, token: &Token)
    ensures { seen s.new ≡ forgotten token.now (seen s.old) }
{
    drop_waiting(&mut s.waiting, token);
}

fn drop_awaited(awaited: &mut Vec<Awaited>, token: &Token)
    ensures { awaited.new.items ≡ filter (is_other token.now) awaited.old.items }
{
    awaited.retain(|a| !is_same(&a.token, token));
}

/// Whether a response is awaited under the token.
pub fn expect(s: &mut State, token: &Token, on: bool) -> Result<(), AllocError>
    ensures ok { OnOk result (seen s.new ≡ expected token.now on (seen s.old)) }
    ensures err { OnErr result (seen s.new ≡ seen s.old) }
    ensures off { on ≡ false → IsOk result }
{
    if on {
        if !awaits(&s.awaited, token) {
            s.awaited.push(Awaited {
                token: *token,
                mid: None,
            })?;
        }
    } else {
        drop_awaited(&mut s.awaited, token);
    }
    Ok(())
}

/// The token is one of these.
pub fn is_among(tokens: &[Token], token: &Token) -> bool
    ensures { result ≡ is_among tokens.now token.now }
{
    'each: for other in tokens {
        if is_same(token, other) {
            return true;
        }
    }
    false
}

fn drop_gone_waiting(waiting: &mut Vec<Waiting>, gone: &[Token])
    ensures items { waiting.new.items ≡ filter (waits_on (is_among gone.now)) waiting.old.items }
    ensures len { vec_len waiting.new ≤ vec_len waiting.old }
    ensures capacity { vec_capacity waiting.new ≡ vec_capacity waiting.old }
{
    waiting.retain(|w| !is_among(gone, &w.token));
}

fn drop_gone_awaited(awaited: &mut Vec<Awaited>, gone: &[Token])
    ensures items { awaited.new.items
        ≡ filter (is_awaited_on (is_among gone.now)) awaited.old.items }
    ensures len { vec_len awaited.new ≤ vec_len awaited.old }
    ensures capacity { vec_capacity awaited.new ≡ vec_capacity awaited.old }
{
    awaited.retain(|a| !is_among(gone, &a.token));
}

/// What bears one of these tokens is neither awaited nor sent any more.
pub fn drop_gone(s: &mut State, gone: &[Token])
    ensures state { seen s.new ≡ without gone.now (seen s.old) }
    ensures room { HasRoomToo s.old → HasRoomToo s.new }
{
    if !gone.is_empty() {
        drop_gone_waiting(&mut s.waiting, gone);
        drop_gone_awaited(&mut s.awaited, gone);
    }
}

/// Nothing is to be given out any more.
pub fn clear_out(s: &mut State)
    ensures { seen s.new ≡ out_empty (seen s.old) }
{
    s.out.clear();
}

/// Nothing is under way any more. What has to be remembered stays.
pub fn forget_exchanges(s: &mut State, moment: u64)
    ensures { seen s.new ≡ kept_link moment (seen s.old) }
{
    s.waiting.clear();
    s.outstanding = None;
    s.given.drop_unused(moment);
    s.awaited.clear();
    s.heard.drop_old(moment);
    s.out.clear();
}

/// The next datagram to be sent.
pub fn take_send(s: &mut State) -> Option<Bytes>
    ensures { sent_out (seen s.old) ≡ (seen s.new, result) }
{
    s.out.pop_front()
}

fn copy_waiting(alloc: Global, waiting: &[Waiting]) -> Result<Vec<Waiting>, AllocError>
    ensures { IfOk result (λ copy. copy.items ≡ waiting.now) }
{
    let mut copy = Vec::new(alloc);
    'each: for w in waiting {
        let datagram = w.datagram.share()?;
        copy.push(Waiting {
            token: w.token,
            datagram,
            timeout: w.timeout,
            first_mid: w.first_mid,
        })?;
    }
    Ok(copy)
}

fn copy_outstanding(outstanding: &Option<Outstanding>) -> Result<Option<Outstanding>, AllocError>
    ensures { IfOk result (λ copy. copy ≡ outstanding.now) }
{
    match outstanding {
        None => Ok(None),
        Some(o) => {
            let datagram = o.datagram.share()?;
            Ok(Some(Outstanding {
                token: o.token,
                mid: o.mid,
                datagram,
                timeout: o.timeout,
                sent: o.sent,
                retransmissions: o.retransmissions,
            }))
        }
    }
}

fn copy_out(alloc: Global, out: &VecDeque<Bytes>) -> Result<VecDeque<Bytes>, AllocError>
    ensures { IfOk result (λ copy. copy.items ≡ out.now.items) }
{
    let mut copy = VecDeque::new(alloc);
    'each: for i in 0..out.len() {
        let datagram = out[i].share()?;
        copy.push_back(datagram)?;
    }
    Ok(copy)
}

/// An equal state. The bytes of its messages are shared.
pub fn copy(alloc: Global, s: &State) -> Result<State, AllocError>
    ensures { IfOk result (λ copy. seen copy ≡ seen s.now) }
{
    Ok(State {
        waiting: copy_waiting(alloc, &s.waiting)?,
        outstanding: copy_outstanding(&s.outstanding)?,
        last_mid: s.last_mid,
        given: s.given.copy(alloc)?,
        awaited: Vec::from_slice(alloc, &s.awaited)?,
        heard: s.heard.copy(alloc)?,
        out: copy_out(alloc, &s.out)?,
    })
}
