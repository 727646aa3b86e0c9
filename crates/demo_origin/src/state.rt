//! What a device keeps: plain data in the terms of RFC 7252.

use crate::blocks::BlockSize;
use crate::body::Body;
use crate::segments::Segments;
use coap_codec::Token;
use message_layer::Bytes;
use std::collections::VecDeque;
use uri_map::Peer;

/// A resource as it stands.
#[derive(Drop)]
pub struct Held {
    pub path: Segments,
    /// Its content format (RFC 7252, section 12.3).
    pub format: u16,
    /// How many seconds its responses stay fresh (RFC 7252, section 5.10.5).
    pub max_age: u32,
    pub state: Bytes,
    /// How many changes it has seen.
    pub version: u64,
}

/// Who asked, the message ID that the next message to it has, where it isn't in an ACK, and when
/// the last message was sent to it.
#[derive(Clone, Copy)]
pub struct Client {
    pub peer: Peer,
    pub next_mid: u16,
    pub moment: u64,
}

/// A CON or NON that was heard: whose, its ID, when, and the datagram that answered it, if any.
#[derive(Drop)]
pub struct Remembered {
    pub peer: Peer,
    pub mid: u16,
    pub moment: u64,
    pub answer: Option<Bytes>,
}

/// A body of which more comes: whose, the number of its resource, and what came.
#[derive(Drop)]
pub struct Upload {
    pub peer: Peer,
    pub place: usize,
    pub body: Body,
}

/// A notification that isn't acknowledged: its message ID and its bytes, when it was sent the last
/// time, and how often it was sent again (the retransmission counter).
#[derive(Drop)]
pub struct Notification {
    pub mid: u16,
    pub bytes: Bytes,
    pub sent: u64,
    pub copies: u8,
}

/// Who is told of changes (RFC 7641, section 4.1): whose registration it is, under which token, the
/// number of its resource, and the version that it was told of.
#[derive(Drop)]
pub struct Observer {
    pub peer: Peer,
    pub token: Token,
    pub place: usize,
    pub told: u64,
    pub outstanding: Option<Notification>,
}

/// A datagram to be sent.
#[derive(Drop)]
pub struct Datagram {
    pub peer: Peer,
    pub bytes: Bytes,
}

/// What a device keeps, and the datagrams that are to be given out.
#[derive(Drop)]
pub struct State {
    /// The size of its pieces.
    pub block: BlockSize,
    pub resources: Vec<Held>,
    pub clients: Vec<Client>,
    pub remembered: Vec<Remembered>,
    pub uploads: Vec<Upload>,
    pub observers: Vec<Observer>,
    pub out: VecDeque<Datagram>,
}
