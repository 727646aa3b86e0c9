//! The UDP socket towards the devices.

ghost use Rattle.std.specs.Prelude.{◌≤◌, ◌≡◌, ◌<◌, length, None, IfOk, IfSome, OnErr, MatchOption, MatchResult};
ghost use Rattle.std.specs.Net.Socket.{socket_ip, socket_port};

use gateway_desk::{Failed, Inbound, Outbound, Wire};
use std::io::{self, ErrorKind};
use std::net::{Net, SocketAddr, UdpSocket};
use std::time::Duration;
use uri_map::Peer;

/// How long a wait for a datagram lasts, in milliseconds: so long it takes at most until the loop
/// sees that the desk was shut. A datagram that comes is taken at once.
const LONGEST_WAIT: u64 = 1000;

/// The UDP socket towards all devices.
#[derive(Drop)]
pub struct DeviceSocket {
    socket: UdpSocket,
}

impl DeviceSocket {
    /// A socket at this address. A port of 0 is one that the system chooses.
    pub fn bind<W: Net>(rt: &W, at: SocketAddr) -> io::Result<DeviceSocket> {
        let socket = UdpSocket::bind(rt, at)?;
        socket.set_read_timeout(Some(Duration::from_millis(LONGEST_WAIT)))?;
        Ok(DeviceSocket { socket })
    }

    /// From where datagrams are sent.
    pub fn local_addr(&self) -> io::Result<SocketAddr> {
        self.socket.local_addr()
    }
}

impl Wire for DeviceSocket {
    type Sent = ();

    fn send(&self, datagram: Outbound<'_>) {
        let (bytes, to) = written(&datagram);
        let _ = self.socket.send_to(bytes, to);
    }

    fn receive(&self, buffer: &mut [u8]) -> Result<Option<Inbound>, Failed> {
        told(self.socket.recv_from(buffer))
    }
}

/// What goes into the socket for a datagram: its bytes, and the address of its peer.
fn written<'a>(datagram: &Outbound<'a>) -> (&'a [u8], SocketAddr)
    ensures bytes { result.0.now ≡ datagram.now.bytes.now }
    ensures ip { socket_ip result.1 ≡ datagram.now.peer.address }
    ensures port { socket_port result.1 ≡ datagram.now.peer.port }
{
    let peer = datagram.peer;
    (datagram.bytes, SocketAddr::new(peer.address, peer.port))
}

/// What a receive of the socket tells: a datagram that came, with its length and its sender; that
/// none did; or that no more come.
fn told(received: io::Result<(usize, SocketAddr)>) -> Result<Option<Inbound>, Failed>
    ensures came { IfOk received (λ r. MatchResult result
        (λ o. MatchOption o ⊥ (λ i. (i.count ≡ r.0) × (i.peer.address ≡ socket_ip r.1)
        × (i.peer.port ≡ socket_port r.1))) (λ _. ⊥)) }
    ensures none { OnErr received (IfOk result (λ o. o ≡ None)) }
{
    match received {
        Ok((count, from)) => Ok(Some(Inbound::new(peer_at(from), count))),
        Err(error) if is_passing(error.kind()) => Ok(None),
        Err(_) => Err(Failed),
    }
}

/// Who sends from this address.
fn peer_at(from: SocketAddr) -> Peer
    ensures address { result.address ≡ socket_ip from }
    ensures port { result.port ≡ socket_port from }
{
    Peer {
        address: from.ip(),
        port: from.port(),
    }
}

/// Whether the next receive may succeed: nothing came in time, or what was sent earlier found
/// nobody.
fn is_passing(kind: ErrorKind) -> bool {
    matches!(
        kind,
        ErrorKind::WouldBlock
            | ErrorKind::TimedOut
            | ErrorKind::Interrupted
            | ErrorKind::ConnectionRefused
            | ErrorKind::ConnectionReset
            | ErrorKind::HostUnreachable
            | ErrorKind::NetworkUnreachable
    )
}
