//! The UDP socket towards the devices.

ghost use Rattle.std.specs.Prelude.{◌≡◌};
ghost use Rattle.std.specs.Net.Socket.{socket_ip, socket_port};

use gateway_loop::{Received, Wire};
use mio::net::UdpSocket;
use std::io::ErrorKind;
use std::net::SocketAddr;
use uri_map::Peer;

/// How often a receive is tried again that failed: what was sent earlier may have found nobody.
const TRIES: usize = 1024;

/// The UDP socket towards all devices, whose calls don't wait.
#[derive(Drop)]
pub struct Devices {
    pub(crate) socket: UdpSocket,
    /// how many datagrams the system took to be sent, and how many came
    pub(crate) sent: u64,
    pub(crate) heard: u64,
}

impl Devices {
    /// A socket of which nothing was sent or heard.
    pub fn new(socket: UdpSocket) -> Devices {
        Devices {
            socket,
            sent: 0,
            heard: 0,
        }
    }
}

impl Wire for Devices {
    ghost use Rattle.std.specs.Prelude.{None, true};

    ghost sent = { λ d. None };

    ghost heard = { λ d. None };

    ghost spent = { λ d. true };

    fn send(&mut self, peer: Peer, bytes: &[u8]) {
        let to = SocketAddr::new(peer.address, peer.port);
        if self.socket.send_to(bytes, to).is_ok() {
            self.sent = self.sent.saturating_add(1);
        }
    }

    fn receive(&mut self, buffer: &mut [u8]) -> Received {
        'each: for _ in 0..TRIES {
            match self.socket.recv_from(buffer) {
                Ok((count, from)) => {
                    self.heard = self.heard.saturating_add(1);
                    return Received::From(count, peer_at(from));
                }
                Err(error) if error.kind() == ErrorKind::WouldBlock => return Received::Later,
                Err(_) => {}
            }
        }
        Received::Later
    }
}

/// Who sends from this address.
fn peer_at(from: SocketAddr) -> Peer
    ensures address { result.address ≡ socket_ip from }
    ensures port { result.port ≡ socket_port from }
{
    Peer {
        address: from.ip(),
        port: from.port(),
    }
}
