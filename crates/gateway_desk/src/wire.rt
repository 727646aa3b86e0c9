//! Where datagrams go and come from.

ghost use Rattle.std.specs.Prelude.{◌≡◌, ◌≤◌, ◌<◌, length, take, IfOk, IfSome};
ghost use Rattle.limits.specs.declared.TheConstants.{MAX_DATAGRAM_LEN};
ghost use Rattle.exchange_core.specs.Values.{outgoing_of};

use exchange_core::Datagram;
use std::marker::Model;
use uri_map::Peer;

/// A device failed.
#[derive(Clone, Copy, Debug, PartialEq, Eq)]
pub struct Failed;

/// Where datagrams go and come from.
pub trait Wire {
    /// What a send leaves. Since each wire has its own, only its `send` makes one.
    type Sent: Drop;

    /// Sends a datagram. One that can't be sent is lost.
    fn send(&self, datagram: Outbound<'_>) -> Self::Sent;

    /// Puts the datagram that comes in a short wait at the front of the buffer. So that a longer
    /// one than is taken shows, there is room for one.
    fn receive(&self, buffer: &mut [u8]) -> Result<Option<Inbound>, Failed>
        requires room { MAX_DATAGRAM_LEN < length buffer.old }
        ensures fits { IfOk result (λ o. IfSome o (λ i. i.count ≤ length buffer.new)) }
        ensures length { length buffer.new ≡ length buffer.old };
}

/// A datagram that came in and lies at the front of a buffer. Who has it has to hand it in: it
/// can't be let go otherwise.
pub struct Inbound {
    peer: Peer,
    count: usize,
}

impl Model for Inbound {
    ghost use Rattle.gateway_desk.specs.Arriving.{Arrival};

    ghost Value = { Arrival };

    ghost view = { λ i. record { peer = i.peer; count = i.count } };
}

impl Inbound {
    /// A datagram of so many bytes from this peer, which a wire received.
    pub fn new(peer: Peer, count: usize) -> Inbound
        ensures peer { result.peer ≡ peer }
        ensures count { result.count ≡ count }
    {
        Inbound { peer, count }
    }

    /// Who sent it, and its bytes, which lie in this buffer.
    pub(crate) fn open(self, buffer: &[u8]) -> (Peer, &[u8])
        requires { self.count ≤ length buffer.now }
        ensures peer { result.0 ≡ self.peer }
        ensures bytes { result.1.now ≡ take self.count buffer.now }
    {
        let Inbound { peer, count } = self;
        (peer, &buffer[..count])
    }
}

/// The mark of a datagram that is sent: what bears one is made by `Unsent::send` alone.
#[derive(Drop)]
struct Mark;

/// A datagram that goes out, which only one that was taken from the desk becomes.
#[derive(Drop)]
pub struct Outbound<'a> {
    /// where it goes
    pub peer: Peer,
    pub bytes: &'a [u8],
    mark: Mark,
}

/// A datagram that was taken to be sent, of which the desk makes one and nothing else does. Who has
/// it has to send it: it can't be let go otherwise.
pub struct Unsent {
    datagram: Datagram,
}

impl Model for Unsent {
    ghost use Rattle.exchange_core.specs.Values.{Outgoing, outgoing_of};

    ghost Value = { Outgoing };

    ghost view = { λ u. outgoing_of u.datagram };
}

impl Unsent {
    /// A datagram that the core gave.
    pub(crate) fn new(datagram: Datagram) -> Unsent
        ensures { result ≡ outgoing_of datagram }
    {
        Unsent { datagram }
    }

    /// The datagram, as it goes out.
    fn outbound(&self) -> Outbound<'_>
        ensures peer { result.peer ≡ self.now.peer }
        ensures bytes { result.bytes.now ≡ self.now.bytes }
    {
        Outbound {
            peer: self.datagram.peer,
            bytes: self.datagram.bytes.as_slice(),
            mark: Mark,
        }
    }

    /// Sends it.
    pub fn send<N: Wire>(self, wire: &N) -> N::Sent {
        let sent = wire.send(self.outbound());
        let Unsent { datagram: _ } = self;
        sent
    }
}
