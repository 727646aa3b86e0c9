//! The connection of a client over TCP.

ghost use Rattle.std.specs.Prelude.{◌≡◌, ◌≤◌, Ok, IfOk, length};
ghost use Rattle.gateway_loop.specs.Sockets.{moved};

use gateway_loop::{Moved, Stream};
use mio::net::TcpStream;
use std::io::{self, ErrorKind, Read, Write};
use std::net::{Shutdown, SocketAddr};

/// A client's connection, whose calls don't wait.
#[derive(Drop)]
pub struct Client {
    pub(crate) stream: TcpStream,
    pub(crate) address: SocketAddr,
}

impl Client {
    /// A connection that was taken of this client. Its answers go out without delay.
    pub fn new(stream: TcpStream, address: SocketAddr) -> Client {
        let _ = stream.set_nodelay(true);
        Client { stream, address }
    }
}

impl Stream for Client {
    ghost use Rattle.std.specs.Prelude.{None, true};

    ghost written = { λ c. None };

    ghost gave = { λ c. None };

    ghost over = { λ c. true };

    fn read(&mut self, buffer: &mut [u8]) -> Moved {
        told(self.stream.read(buffer))
    }

    fn write(&mut self, bytes: &[u8]) -> Moved {
        told(self.stream.write(bytes))
    }

    fn finish(&mut self) {
        let _ = self.stream.shutdown(Shutdown::Write);
    }
}

/// What a call on a socket that doesn't wait came to. Such a call isn't broken off by a signal.
#[inline(always)]
fn told(outcome: io::Result<usize>) -> Moved
    ensures { (most : _) → IfOk outcome (λ n. n ≤ most) → moved result ≤ most }
{
    match outcome {
        Ok(count) => Moved::Bytes(count),
        Err(error) if error.kind() == ErrorKind::WouldBlock => Moved::Later,
        Err(_) => Moved::End,
    }
}
