//! What drives the loop: clients that want connections, signs, and the time.

ghost use Rattle.std.specs.Prelude.{◌≡◌};
ghost use Rattle.gateway_loop.specs.Hosts.{IsUnused};

use crate::sockets::Stream;

/// A sign that something may be ready. It promises nothing.
#[derive(Clone, Copy, Debug, PartialEq, Eq)]
pub enum Sign {
    /// Clients may want connections.
    Clients,
    /// Datagrams may have come in.
    Wire,
    /// The connection with this number may take or give bytes.
    Ready(u32),
    /// So it may, and its client may send no more.
    Ended(u32),
}

/// What came of the wait for a client.
#[derive(Drop)]
pub enum Accepted<S> {
    /// One that wants a connection.
    Client(S),
    /// None now.
    Later,
    /// The system gives none now, and no sign tells when it does again.
    Refused,
}

/// Where clients come from, and what tells when to look at which socket.
pub trait Host<S: Stream> {
    /// Takes the client that waits longest: of its connection nothing was read or written.
    fn accept(&mut self) -> Accepted<S>
        ensures written { IsUnused S.written result }
        ensures gave { IsUnused S.gave result };

    /// Gives signs of the connection from now on, under this number. False where it can't.
    fn watch(&mut self, number: u32, stream: &mut S) -> bool
        ensures { stream.new ≡ stream.old };

    /// Gives the signs of a connection that is watched under this number from now on. False where it
    /// can't.
    fn rename(&mut self, number: u32, stream: &mut S) -> bool
        ensures { stream.new ≡ stream.old };

    /// Waits until there may be a sign, at most for so many milliseconds. False where it can't.
    fn wait(&mut self, most: Option<u64>) -> bool;

    /// The next sign of those that there are.
    fn sign(&mut self) -> Option<Sign>;

    /// The moment, in milliseconds. None where the clock fails.
    fn moment(&mut self) -> Option<u64>;

    /// 64 random bits.
    fn word(&mut self) -> u64;
}
