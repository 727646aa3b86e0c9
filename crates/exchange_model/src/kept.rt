//! What a core keeps of what is open.

use blockwise::{Pieces, Upload};
use cache_key::Digests;
use coap_codec::Token;
use resp_cache::StoredResponse;
use uri_map::Peer;

/// An open connection, by its number among those that were opened, with its ask that isn't answered
/// yet.
#[derive(Clone, Copy)]
pub struct Conn {
    pub id: u32,
    pub pending: Option<u32>,
}

/// An open exchange, by the number of the entry that opened it.
#[derive(Clone, Copy)]
pub struct Exchange {
    pub opening: u32,
    /// the ask that it goes back to: its opening, or where a notification opened it, the ask by
    /// which the proxy became an observer (RFC 7641 section 3.2)
    pub ask: u32,
    /// what its latest message is sent under (RFC 7252 section 5.3.1)
    pub token: Token,
    /// the moment of its opening
    pub since: u64,
    pub peer: Peer,
    /// the code of its request (RFC 7252 section 12.1.1)
    pub method: u8,
    /// its latest first sending, once one went out
    pub sending: Option<u32>,
    /// that is of its latest message, to which a reply is awaited
    pub awaits: bool,
    /// its next message asks to observe what it reads (RFC 7641 section 3.1)
    pub observes: bool,
    /// the moment of the last ask that reads it
    pub asked: u64,
    /// no write to its place has ended since it was opened, so that equal GETs may join it
    pub current: bool,
    /// no notification that counts has come since the first of its replies (RFC 7641 section 3.4)
    pub newest: bool,
    /// how far it has come by its replies
    pub work: Work,
    /// those of the key and of the place that it was opened for
    pub digests: Digests,
}

/// How far an open exchange has come piece by piece (RFC 7959 section 2).
#[derive(Clone, Copy)]
pub enum Work {
    /// of a GET
    Fetches {
        /// how often what it fetches was begun anew
        restarts: u8,
        /// what is known of the pieces that it has fetched since then
        pieces: Pieces,
    },
    /// of any other request: how much of its body was taken
    Gives(Upload),
}

/// A reply by which an open exchange goes on, by the number of the entry in which it was heard: a
/// piece that it has fetched, or the answer to one of its body.
#[derive(Clone, Copy)]
pub struct Piece {
    /// the entry that opened the exchange
    pub opening: u32,
    pub number: u32,
}

/// A stored response that isn't fresh any more, and has an ETag: the exchange that this entry
/// opened asks whether it is valid still, and nothing has come to that yet (RFC 7252 section
/// 5.6.2).
#[derive(Drop)]
pub struct Stale {
    /// the entry that opened the exchange
    pub opening: u32,
    pub stored: StoredResponse,
}

/// Who waits for an exchange, by the number of its ask's entry.
#[derive(Clone, Copy)]
pub struct Reader {
    pub ask: u32,
    /// the connection that asked
    pub conn: u32,
    /// the entry that opened the exchange
    pub opening: u32,
}
