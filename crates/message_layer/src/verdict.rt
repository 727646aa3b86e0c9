//! What a message of the peer's means for a link: its reply, and whom it concerns.

ghost use Rattle.std.specs.Prelude.{◌≡◌, true, false};
ghost use Rattle.std.specs.List.{list_any, find};
ghost use Rattle.std.specs.Str.{bytes_eq};
ghost use Rattle.coap_codec.specs.Spelling.{content};
ghost use Rattle.message_layer.specs.Values.{seen};
ghost use Rattle.message_layer.specs.Hearing.{is_repeat, is_awaited, mid_is, is_awaited_by_ack, is_outstanding_under, is_outstanding_as, new_verdict, heard_verdict, ack_verdict, rst_verdict, verdict_of};

use crate::state::{Awaited, Outstanding, Reply, State};
use coap_codec::{Message, MsgType, Token, is_rejected};

/// What is to be told of a message.
#[derive(Clone, Copy)]
pub enum News {
    /// Nothing.
    Quiet,
    /// It is a response under a token that is awaited.
    Response,
    /// It rejects the outstanding message, which has this token.
    Reset(Token),
    /// It counts as lost: too many messages are remembered.
    Lost,
}

/// What a message does to a link (RFC 7252 sections 4.2 and 4.3).
#[derive(Clone, Copy)]
pub struct Verdict {
    /// The empty ACK or RST that answers it.
    pub reply: Reply,
    /// It is remembered, and not processed again.
    pub remembered: bool,
    /// The outstanding interaction ends.
    pub ends: bool,
    pub news: News,
}

/// It does nothing.
pub const IGNORED: Verdict = Verdict {
    reply: Reply::Nothing,
    remembered: false,
    ends: false,
    news: News::Quiet,
};

/// The tokens have the same bytes.
pub fn is_same(a: &Token, b: &Token) -> bool
    ensures { result ≡ bytes_eq a.now b.now }
{
    a.as_slice() == b.as_slice()
}

/// A response is awaited under the token.
pub fn awaits(awaited: &[Awaited], token: &Token) -> bool
    ensures { result ≡ list_any (is_awaited token.now) awaited.now }
{
    awaited.iter().any(|a| is_same(&a.token, token))
}

fn is_mid(mid: u16, other: Option<u16>) -> bool
    ensures { result ≡ mid_is mid other }
{
    match other {
        None => false,
        Some(n) => n == mid,
    }
}

fn awaits_by_ack(awaited: &[Awaited], mid: u16, token: &Token) -> bool
    ensures { result ≡ list_any (is_awaited_by_ack mid token.now) awaited.now }
{
    awaited
        .iter()
        .any(|a| is_mid(mid, a.mid) && is_same(&a.token, token))
}

fn has_token(outstanding: &Option<Outstanding>, token: &Token) -> bool
    ensures { result ≡ is_outstanding_under token.now outstanding.now }
{
    match outstanding {
        None => false,
        Some(o) => is_same(&o.token, token),
    }
}

fn has_mid(outstanding: &Option<Outstanding>, mid: u16) -> bool
    ensures { result ≡ is_outstanding_as mid outstanding.now }
{
    match outstanding {
        None => false,
        Some(o) => o.mid == mid,
    }
}

/// A CON or NON that was not heard before. A response that is awaited is told, even where it is
/// rejected; every other message but an empty one is reset.
fn new_message(s: &State, m: &Message, accepts: Reply, empties: Reply) -> Verdict
    ensures { result ≡ new_verdict (seen s.now) (content m.now) accepts empties }
{
    if m.code == 0 {
        return Verdict {
            reply: empties,
            remembered: true,
            ends: false,
            news: News::Quiet,
        };
    }
    if m.code > 31 && awaits(&s.awaited, &m.token) {
        return Verdict {
            reply: if is_rejected(m) { Reply::Rst } else { accepts },
            remembered: true,
            ends: has_token(&s.outstanding, &m.token),
            news: News::Response,
        };
    }
    Verdict {
        reply: Reply::Rst,
        remembered: true,
        ends: false,
        news: News::Quiet,
    }
}

/// A CON or NON: one that was heard before gets the same answer again and is not processed.
fn own_message(s: &State, m: &Message, confirms: bool, moment: u64) -> Verdict
    ensures { result ≡ heard_verdict moment (seen s.now) (content m.now) confirms
        (find (is_repeat moment m.now.mid) s.now.heard.messages) }
{
    if let Some(h) = s.heard.find(m.mid, moment) {
        return Verdict {
            reply: if confirms { h.reply } else { Reply::Nothing },
            remembered: false,
            ends: false,
            news: News::Quiet,
        };
    }
    if !s.heard.has_free(moment) {
        return Verdict {
            reply: Reply::Nothing,
            remembered: false,
            ends: false,
            news: News::Lost,
        };
    }
    if confirms {
        new_message(s, m, Reply::Ack, Reply::Rst)
    } else {
        new_message(s, m, Reply::Nothing, Reply::Nothing)
    }
}

fn acknowledgement(s: &State, m: &Message) -> Verdict
    ensures { result ≡ ack_verdict (seen s.now) (content m.now) }
{
    if m.code == 0 {
        return Verdict {
            reply: Reply::Nothing,
            remembered: false,
            ends: has_mid(&s.outstanding, m.mid),
            news: News::Quiet,
        };
    }
    if m.code > 31 {
        return Verdict {
            reply: Reply::Nothing,
            remembered: false,
            ends: has_mid(&s.outstanding, m.mid) && has_token(&s.outstanding, &m.token),
            news: if awaits_by_ack(&s.awaited, m.mid, &m.token) {
                News::Response
            } else {
                News::Quiet
            },
        };
    }
    IGNORED
}

fn reset(s: &State, m: &Message) -> Verdict
    ensures { result ≡ rst_verdict (content m.now) s.now.outstanding }
{
    match &s.outstanding {
        None => IGNORED,
        Some(o) => {
            if m.code == 0 && o.mid == m.mid {
                Verdict {
                    reply: Reply::Nothing,
                    remembered: false,
                    ends: true,
                    news: News::Reset(o.token),
                }
            } else {
                IGNORED
            }
        }
    }
}

/// What the message does.
pub fn decide(s: &State, m: &Message, moment: u64) -> Verdict
    ensures { result ≡ verdict_of moment (seen s.now) (content m.now) }
{
    match m.kind {
        MsgType::Con => own_message(s, m, true, moment),
        MsgType::Non => own_message(s, m, false, moment),
        MsgType::Ack => acknowledgement(s, m),
        MsgType::Rst => reset(s, m),
    }
}
