//! What a link keeps: plain data in the terms of RFC 7252, section 4.

ghost use Rattle.std.specs.Prelude.{◌≡◌};
ghost use Rattle.message_layer.specs.Remembering.{is_fresh, is_repeat};

use crate::bytes::{Bytes, Unnumbered};
use crate::mids::Mids;
use crate::remembered::Remembered;
use coap_codec::{Message, Token};
use limits::EXCHANGE_LIFETIME;
use std::collections::VecDeque;

/// A message that was handed in and not yet sent.
#[derive(Drop)]
pub struct Waiting {
    pub token: Token,
    /// Its bytes, under message ID 0.
    pub datagram: Unnumbered,
    /// The initial timeout, in milliseconds.
    pub timeout: u64,
    /// The message ID, should no message have been sent before.
    pub first_mid: u16,
}

/// The message that was sent and is neither acknowledged, answered, reset nor given up
/// (an outstanding interaction, RFC 7252 section 4.7).
#[derive(Drop)]
pub struct Outstanding {
    pub token: Token,
    pub mid: u16,
    pub datagram: Bytes,
    /// The initial timeout, in milliseconds.
    pub timeout: u64,
    /// When it was sent the last time.
    pub sent: u64,
    /// How often it was sent again (the retransmission counter).
    pub retransmissions: u8,
}

/// A token under which a response is awaited.
#[derive(Clone, Copy)]
pub struct Awaited {
    pub token: Token,
    /// The ID of its message, as long as an ACK may carry the response.
    pub mid: Option<u16>,
}

/// What answers a message, beside a response: nothing, or an empty ACK or RST with its ID.
#[derive(Clone, Copy)]
pub enum Reply {
    Nothing,
    Ack,
    Rst,
}

/// A CON or NON of the peer's: its ID, when it was heard, and what it was answered.
#[derive(Clone, Copy)]
pub struct Heard {
    pub mid: u16,
    pub moment: u64,
    pub reply: Reply,
}

impl Heard {
    /// Its ID still stands for it alone.
    pub(crate) fn is_fresh(&self, moment: u64) -> bool
        ensures { result ≡ is_fresh moment self.now }
    {
        moment.saturating_sub(self.moment) < EXCHANGE_LIFETIME
    }

    /// It has this ID, which still stands for it alone.
    pub(crate) fn is_repeat(&self, mid: u16, moment: u64) -> bool
        ensures { result ≡ is_repeat moment mid self.now }
    {
        self.mid == mid && self.is_fresh(moment)
    }
}

/// What a link keeps, and the datagrams that are to be given out.
#[derive(Drop)]
pub struct State {
    /// Messages to be sent, in order.
    pub waiting: Vec<Waiting>,
    pub outstanding: Option<Outstanding>,
    /// The message ID given last.
    pub last_mid: Option<u16>,
    /// When the last message IDs were given, the oldest first.
    pub given: Mids,
    pub awaited: Vec<Awaited>,
    /// The CONs and NONs that were heard last, the oldest first.
    pub heard: Remembered,
    pub out: VecDeque<Bytes>,
}

/// What a datagram or a tick brings.
#[derive(Drop)]
pub enum Up {
    Nothing,
    /// A response under a token that is awaited.
    Response(Message),
    /// The message with this token was sent five times and never acknowledged.
    TimedOut(Token),
    /// The peer rejected the message with this token.
    Reset(Token),
    /// The datagram counts as lost.
    Dropped,
}
