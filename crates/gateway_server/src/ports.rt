//! The sockets that clients and devices find the gateway at.

use gateway_system::DeviceSocket;
use server_faults::ServeFault;
use std::io;
use std::net::{Net, SocketAddr, TcpListener, TcpStream};

/// Where connections are taken, and where datagrams go out and come in.
#[derive(Drop)]
pub struct Ports {
    pub(crate) listener: TcpListener,
    pub(crate) devices: DeviceSocket,
}

impl Ports {
    /// Takes both addresses. A port of 0 is one that the system chooses.
    pub fn bind<W: Net<Listener = TcpListener, Stream = TcpStream>>(
        rt: &W,
        listen: SocketAddr,
        udp: SocketAddr,
    ) -> Result<Ports, ServeFault> {
        Ok(Ports {
            listener: TcpListener::bind(rt, listen).map_err(|error| ServeFault::Listen(
                listen, error,
            ))?,
            devices: DeviceSocket::bind(rt, udp).map_err(|error| ServeFault::Udp(udp, error))?,
        })
    }

    /// Where connections are taken.
    pub fn listens_at(&self) -> io::Result<SocketAddr> {
        self.listener.local_addr()
    }

    /// From where datagrams are sent.
    pub fn sends_from(&self) -> io::Result<SocketAddr> {
        self.devices.local_addr()
    }
}
