//! The socket of a device.

ghost use Rattle.std.specs.Prelude.{◌≤◌, ◌≡◌, [], ◌∷◌, length, true, IfOk, OnOk, OnErr, IfSome};
ghost use Rattle.device_server.specs.Turns.{Grown, datagram, listed, received};

use server_faults::DeviceFault;
use std::io::{self, ErrorKind};
use std::net::{Net, SocketAddr, UdpSocket};
use std::time::Duration;
use uri_map::Peer;

/// The socket or the clock failed, and isn't to be used any more.
#[derive(Clone, Copy, Debug, PartialEq, Eq)]
pub struct Failed;

/// What datagrams go out by and come in by.
pub trait Wire {
    ghost use Rattle.std.specs.Prelude.{List, Option, Bool};
    ghost use Rattle.demo_origin.specs.declared.state.Datagram.{Datagram};

    /// the datagrams that came, each with its sender, in order, where that can be known
    ghost came: { Self → Option (List Datagram) };

    /// the datagrams that were handed in, each with its receiver, in order, where that can be known
    ghost sent: { Self → Option (List Datagram) };

    /// whether it failed
    ghost failed: { Self → Bool };

    /// Sends a datagram. One that can't be sent is lost.
    fn send(&mut self, peer: Peer, bytes: &[u8])
        ensures sends { Grown (sent self.old) (sent self.new) (datagram peer bytes.now ∷ []) }
        ensures quiet { came self.new ≡ came self.old }
        ensures sound { failed self.new ≡ failed self.old };

    /// Puts the datagram that comes within so many milliseconds into the buffer, and answers how
    /// long it is and who sent it.
    fn receive(&mut self, buffer: &mut [u8], wait: u64) -> Result<Option<(usize, Peer)>, Failed>
        ensures fits { IfOk result (λ o. IfSome o (λ r. r.0 ≤ length buffer.new)) }
        ensures length { length buffer.new ≡ length buffer.old }
        ensures brings { IfOk result (λ o.
            Grown (came self.old) (came self.new) (listed (received buffer.new o))) }
        ensures none { OnErr result (came self.new ≡ came self.old) }
        ensures same { sent self.new ≡ sent self.old }
        ensures sound { OnOk result (failed self.new ≡ failed self.old) }
        ensures fails { OnErr result (failed self.new ≡ true) };
}

/// The UDP socket of a device.
#[derive(Drop)]
pub struct DevicePort {
    socket: UdpSocket,
    failed: bool,
}

impl DevicePort {
    /// Takes the address. A port of 0 is one that the system chooses.
    pub fn bind<W: Net>(rt: &W, at: SocketAddr) -> Result<DevicePort, DeviceFault> {
        match UdpSocket::bind(rt, at) {
            Ok(socket) => Ok(DevicePort {
                socket,
                failed: false,
            }),
            Err(error) => Err(DeviceFault::Listen(at, error)),
        }
    }

    /// Where messages are taken.
    pub fn listens_at(&self) -> io::Result<SocketAddr> {
        self.socket.local_addr()
    }

    fn receive_by(&self, buffer: &mut [u8], wait: u64) -> io::Result<(usize, SocketAddr)>
        ensures fits { IfOk result (λ r. r.0 ≤ length buffer.new) }
        ensures length { length buffer.new ≡ length buffer.old }
    {
        self.socket
            .set_read_timeout(Some(Duration::from_millis(wait.max(1))))?;
        self.socket.recv_from(buffer)
    }
}

impl Wire for DevicePort {
    ghost use Rattle.std.specs.Prelude.{None};

    ghost came = { λ p. None };

    ghost sent = { λ p. None };

    ghost failed = { λ p. p.failed };

    fn send(&mut self, peer: Peer, bytes: &[u8]) {
        let _ = self
            .socket
            .send_to(bytes, SocketAddr::new(peer.address, peer.port));
    }

    fn receive(&mut self, buffer: &mut [u8], wait: u64) -> Result<Option<(usize, Peer)>, Failed> {
        match self.receive_by(buffer, wait) {
            Ok((count, from)) => Ok(Some((
                count,
                Peer {
                    address: from.ip(),
                    port: from.port(),
                },
            ))),
            Err(error) if is_passing(error.kind()) => Ok(None),
            Err(_) => {
                self.failed = true;
                Err(Failed)
            }
        }
    }
}

/// Whether the next receive may succeed: nothing came in time, or what was sent earlier found
/// nobody.
fn is_passing(kind: ErrorKind) -> bool {
    matches!(
        kind,
        ErrorKind::WouldBlock
            | ErrorKind::TimedOut
            | ErrorKind::Interrupted
            | ErrorKind::ConnectionRefused
            | ErrorKind::ConnectionReset
            | ErrorKind::HostUnreachable
            | ErrorKind::NetworkUnreachable
    )
}
