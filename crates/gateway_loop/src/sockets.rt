//! What the loop is given from outside: sockets whose calls don't wait.
//!
//! No call promises that anything can be moved.

ghost use Rattle.std.specs.Prelude.{◌≡◌, ◌≤◌, ◌<◌, ◌∷◌, [], true, length, take};
ghost use Rattle.gateway_loop.specs.Sockets.{Grown, IsEnd, moved, received, came_from};

use uri_map::Peer;

/// What a call on a connection came to.
#[derive(Clone, Copy, Debug, PartialEq, Eq)]
pub enum Moved {
    /// So many bytes were moved.
    Bytes(usize),
    /// Nothing now.
    Later,
    /// Nothing any more: the other side ended, or the connection failed.
    End,
}

/// A client's connection.
pub trait Stream {
    ghost use Rattle.std.specs.Prelude.{List, ℕ, Bool, Option};

    /// what was written, where that can be known
    ghost written: { Self → Option (List ℕ) };

    /// what reads gave, where that can be known
    ghost gave: { Self → Option (List ℕ) };

    /// whether the other side ended or the connection failed, where that can be known
    ghost over: { Self → Bool };

    /// Puts what came in into the buffer, from its begin on.
    fn read(&mut self, buffer: &mut [u8]) -> Moved
        requires room { 0 < length buffer.old }
        ensures fits { moved result ≤ length buffer.new }
        ensures length { length buffer.new ≡ length buffer.old }
        ensures came { Grown (gave self.old) (gave self.new) (take (moved result) buffer.new) }
        ensures end { IsEnd result → over self.new ≡ true }
        ensures quiet { Grown (written self.old) (written self.new) [] };

    /// Writes the first of the bytes, as many as the connection takes.
    fn write(&mut self, bytes: &[u8]) -> Moved
        ensures fits { moved result ≤ length bytes.now }
        ensures went { Grown (written self.old) (written self.new) (take (moved result) bytes.now) }
        ensures end { IsEnd result → over self.new ≡ true }
        ensures quiet { Grown (gave self.old) (gave self.new) [] };

    /// Tells the client, after what was written, that nothing more is.
    fn finish(&mut self)
        ensures went { Grown (written self.old) (written self.new) [] }
        ensures quiet { Grown (gave self.old) (gave self.new) [] };
}

/// What came of the wait for a datagram.
#[derive(Clone, Copy, PartialEq, Eq)]
pub enum Received {
    /// One of so many bytes, from this endpoint.
    From(usize, Peer),
    /// None now.
    Later,
}

/// Where datagrams go and come from.
pub trait Wire {
    ghost use Rattle.std.specs.Prelude.{List, Bool, Option};
    ghost use Rattle.exchange_core.specs.Values.{Outgoing};

    /// what it was given to send, where that can be known
    ghost sent: { Self → Option (List Outgoing) };

    /// what it gave, where that can be known
    ghost heard: { Self → Option (List Outgoing) };

    /// whether it said that no datagram is there, where that can be known
    ghost spent: { Self → Bool };

    /// Sends a datagram. One that can't be sent is lost.
    fn send(&mut self, peer: Peer, bytes: &[u8])
        ensures went { Grown (sent self.old) (sent self.new)
            (record { peer = peer; bytes = bytes.now } ∷ []) }
        ensures quiet { Grown (heard self.old) (heard self.new) [] };

    /// Puts the datagram that came in first into the buffer.
    fn receive(&mut self, buffer: &mut [u8]) -> Received
        ensures fits { received result ≤ length buffer.new }
        ensures length { length buffer.new ≡ length buffer.old }
        ensures came { Grown (heard self.old) (heard self.new) (came_from result buffer.new) }
        ensures none { result ≡ Received.Later → spent self.new ≡ true }
        ensures quiet { Grown (sent self.old) (sent self.new) [] };
}
