//! What goes into a world, and what comes out.

pub use exchange_core::{Datagram, RotateFault};
use journal_book::Journal;
use transformers::Relation;
use uri_map::Peer;

/// What happens.
#[derive(Clone, Copy)]
pub enum Happening<'a> {
    /// A client wants a connection.
    Open,
    /// Bytes of the connection came in.
    Bytes(u32, &'a [u8]),
    /// A datagram came in from the endpoint.
    Datagram(Peer, &'a [u8]),
    /// Time went on.
    Tick,
    /// The client closed the connection.
    Close(u32),
    /// The sealed journal is to be given out, and a new one begun.
    Rotate,
}

/// When it happens: a moment in milliseconds, and 64 random bits.
#[derive(Clone, Copy)]
pub struct When {
    pub moment: u64,
    pub word: u64,
}

/// One input: what happens, and when.
#[derive(Clone, Copy)]
pub struct Input<'a> {
    pub moment: u64,
    pub word: u64,
    pub happening: Happening<'a>,
}

/// What a world gives out.
#[derive(Drop)]
pub enum Output<R: Relation> {
    /// Bytes for the connection.
    Bytes(u32, Vec<u8>),
    /// A datagram that goes out.
    Datagram(Datagram),
    /// The proxy closes the connection.
    Closed(u32),
    /// Memory is refused for what the connection asks, or is told, and the proxy closes it.
    GivenUp(u32),
    /// No connection was opened: 256 are open, or the journal takes nothing more.
    Turned,
    /// The journal that was sealed. The new one begins with copies of its entries.
    Rotated(Journal<R>),
    /// Why the journal isn't given out: another reason than want of memory.
    Unrotated(RotateFault),
}
