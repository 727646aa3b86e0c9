//! What is prepared for a call of a link: everything that may need memory is made before the link
//! changes.

use crate::bytes::Bytes;
use crate::state::{Outstanding, Up, Waiting};
use crate::verdict::Verdict;
use coap_codec::Token;

/// A message as it is sent for the first time, and its datagram once more.
#[derive(Drop)]
pub struct FirstSending {
    pub message: Outstanding,
    pub datagram: Bytes,
}

/// A message that is handed in.
#[derive(Drop)]
pub struct Submission {
    /// The message, as it waits for its turn.
    pub waiting: Waiting,
    /// Its first sending, where nothing is outstanding: then it is sent at once.
    pub sent: Option<FirstSending>,
}

/// What a datagram of the peer's makes a link do.
#[derive(Drop)]
pub struct Heeding {
    /// The message ID of the datagram, under which it is answered and remembered.
    pub mid: u16,
    pub token: Token,
    pub verdict: Verdict,
    /// The empty ACK or RST that answers it.
    pub reply: Option<Bytes>,
    /// The message that goes out next, where what is outstanding ends.
    pub next: Option<FirstSending>,
}

/// A datagram of the peer's: what it makes a link do, and what it tells.
#[derive(Drop)]
pub struct Hearing {
    pub heeding: Heeding,
    pub up: Up,
}

/// What a tick makes a link do.
#[derive(Drop)]
pub enum Ticking {
    /// Nothing is due.
    Rests,
    /// What is outstanding is sent once more: these bytes.
    Copies(Bytes),
    /// The outstanding message with this token is given up, and the next one is sent.
    GivesUp(Token, Option<FirstSending>),
}
