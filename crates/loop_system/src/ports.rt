//! The sockets that clients and devices find the gateway at.

use crate::devices::Devices;
use mio::net::{TcpListener, UdpSocket};
use server_faults::ServeFault;
use std::io;
use std::net::{Net, SocketAddr, TcpListener as Window, TcpStream};

/// Where connections are taken, and where datagrams go out and come in.
#[derive(Drop)]
pub struct Ports {
    pub(crate) listener: TcpListener,
    pub(crate) devices: Devices,
    /// where the gateway is looked at, if it is
    pub(crate) window: Option<Window>,
}

impl Ports {
    /// Takes both addresses. A port of 0 is one that the system chooses.
    pub fn bind<W: Net>(rt: &W, listen: SocketAddr, udp: SocketAddr) -> Result<Ports, ServeFault> {
        let listener = TcpListener::bind(rt, listen).map_err(|error| ServeFault::Listen(
            listen, error,
        ))?;
        let socket = UdpSocket::bind(rt, udp).map_err(|error| ServeFault::Udp(udp, error))?;
        Ok(Ports {
            listener,
            devices: Devices::new(socket),
            window: None,
        })
    }

    /// These ports, and an address where the gateway is looked at.
    pub fn with_window<W: Net<Listener = Window, Stream = TcpStream>>(
        self,
        rt: &W,
        at: SocketAddr,
    ) -> Result<Ports, ServeFault> {
        let window = Window::bind(rt, at).map_err(|error| ServeFault::Window(at, error))?;
        Ok(self.shown_by(window))
    }

    /// These ports, and a socket at which the gateway is looked at.
    pub fn shown_by(self, window: Window) -> Ports {
        let mut ports = self;
        ports.window = Some(window);
        ports
    }

    /// Where the gateway is looked at, if it is.
    pub fn shows_at(&self) -> Option<SocketAddr> {
        match &self.window {
            Some(window) => window.local_addr().ok(),
            None => None,
        }
    }

    /// Where connections are taken.
    pub fn listens_at(&self) -> io::Result<SocketAddr> {
        self.listener.local_addr()
    }

    /// From where datagrams are sent.
    pub fn sends_from(&self) -> io::Result<SocketAddr> {
        self.devices.socket.local_addr()
    }
}
