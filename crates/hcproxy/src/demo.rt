//! `hcproxy demo`: the gateway, and the demonstration device beside it, on this machine alone.

use crate::files::setup_in;
use crate::notes::noted;
use ask_model::Settings;
use command_line::{
    COAP_PORT, DEVICE, Demonstration, GATEWAY, Report, WEB_PORT, WINDOW_PORT, followed, loopback,
};
use device_server::DevicePort;
use log::Log;
use loop_system::{NoArchive, Options, Ports};
use proxy_settings::{Device, Part, Setup};
use server_faults::{DeviceFault, ServeFault};
use std::alloc::Global;
use std::io::{self, ErrorKind};
use std::net::{Net, SocketAddr, TcpListener, TcpStream};
use std::random::RandomSource;
use std::rt::Clock;
use std::sync::Wait;
use std::thread::{self, Threads};
use uri_map::Peer;

/// What is taken for a demonstration before it runs.
#[derive(Drop)]
struct Opened {
    ports: Ports,
    settings: Settings,
    port: DevicePort,
    device: Device,
}

/// Runs the gateway and the device until one of them fails. Where no address is named for connections
/// and the usual port is in use, this is told, and the system chooses another; so too for the device, and
/// for where the gateway is looked at.
pub fn run_demo<
    R: Net<Listener = TcpListener, Stream = TcpStream>
        + Threads
        + Wait
        + Log
        + Clock
        + RandomSource
        + Print
        + Eprint
        + AllocGlobal
        + Copy
        + Drop
        + Send
        + Sync
        + 'static,
>(rt: R, listen: Option<Peer>) -> Report<'static> {
    let opened = match take_ports(&rt, listen) {
        Ok(opened) => opened,
        Err(report) => return report,
    };
    if let Err(report) = tell_what_to_try(&rt, &opened) {
        return report;
    }
    let Opened {
        ports,
        settings,
        port,
        device,
    } = opened;
    if !start_device(rt, port, device) {
        return Report::serve(ServeFault::Thread);
    }
    let (notes, alloc, options) = (noted(rt), rt.alloc(), Options::default());
    let fault = loop_system::run(&rt, notes, alloc, ports, settings, options, NoArchive);
    Report::serve(fault)
}

/// Takes the ports.
fn take_ports<R: Net<Listener = TcpListener, Stream = TcpStream> + Eprint + AllocGlobal>(
    rt: &R,
    listen: Option<Peer>,
) -> Result<Opened, Report<'static>> {
    let (settings, device) = (settings(rt.alloc())?, device(rt.alloc())?);
    let ports = match ports_at(rt, listen) {
        Ok(ports) => ports,
        Err(fault) => return Err(Report::serve(fault)),
    };
    let ports = match window_port(rt) {
        Ok(window) => ports.shown_by(window),
        Err(fault) => return Err(Report::serve(fault)),
    };
    let port = match device_port(rt) {
        Ok(port) => port,
        Err(fault) => return Err(Report::origin(fault)),
    };
    Ok(Opened {
        ports,
        settings,
        port,
        device,
    })
}

/// What the gateway goes by.
fn settings(alloc: Global) -> Result<Settings, Report<'static>> {
    match setup_in(alloc, Part::Serve, GATEWAY)? {
        Setup::Serve(serve) => Ok(followed(alloc, &serve)?),
        Setup::Origin(_) => unreachable!(),
    }
}

/// What the device has.
fn device(alloc: Global) -> Result<Device, Report<'static>> {
    match setup_in(alloc, Part::Origin, DEVICE)? {
        Setup::Origin(device) => Ok(device),
        Setup::Serve(_) => unreachable!(),
    }
}

/// The ports of the gateway: the address that is named or refused, or else the usual one or any.
fn ports_at<R: Net<Listener = TcpListener, Stream = TcpStream> + Eprint>(
    rt: &R,
    listen: Option<Peer>,
) -> Result<Ports, ServeFault> {
    if let Some(at) = listen {
        return Ports::bind(rt, SocketAddr::new(at.address, at.port), loopback(0));
    }
    match Ports::bind(rt, loopback(WEB_PORT), loopback(0)) {
        Err(ServeFault::Listen(at, error)) if is_in_use(error) => {
            tell_in_use(rt, at);
            Ports::bind(rt, loopback(0), loopback(0))
        }
        outcome => outcome,
    }
}

/// The port at which the gateway is looked at: the usual one or any.
fn window_port<R: Net<Listener = TcpListener, Stream = TcpStream> + Eprint>(
    rt: &R,
) -> Result<TcpListener, ServeFault> {
    match window_at(rt, loopback(WINDOW_PORT)) {
        Err(ServeFault::Listen(at, error)) if is_in_use(error) => {
            tell_in_use(rt, at);
            window_at(rt, loopback(0))
        }
        outcome => outcome,
    }
}

/// That port.
fn window_at<R: Net<Listener = TcpListener, Stream = TcpStream>>(
    rt: &R,
    at: SocketAddr,
) -> Result<TcpListener, ServeFault> {
    match TcpListener::bind(rt, at) {
        Ok(window) => Ok(window),
        Err(error) => Err(ServeFault::Listen(at, error)),
    }
}

/// The port of the device: the usual one or any.
fn device_port<R: Net + Eprint>(rt: &R) -> Result<DevicePort, DeviceFault> {
    match DevicePort::bind(rt, loopback(COAP_PORT)) {
        Err(DeviceFault::Listen(at, error)) if is_in_use(error) => {
            tell_in_use(rt, at);
            DevicePort::bind(rt, loopback(0))
        }
        outcome => outcome,
    }
}

/// Whether another program has the port.
fn is_in_use(error: io::Error) -> bool {
    error.kind() == ErrorKind::AddrInUse
}

fn tell_in_use<R: Eprint>(rt: &R, at: SocketAddr) {
    let _ = eprintln!(rt; "hcproxy: {at} is in use, so the system chooses another port");
}

/// Prints where the two are found, and what to ask.
fn tell_what_to_try<R: Print>(rt: &R, opened: &Opened) -> Result<(), Report<'static>> {
    let ports = &opened.ports;
    let (Ok(web), Some(window), Ok(device)) = (
        ports.listens_at(),
        ports.shows_at(),
        opened.port.listens_at(),
    ) else {
        return Err(Report::serve(ServeFault::Stopped));
    };
    let told = Demonstration {
        web,
        window,
        device,
    };
    match println!(rt; "{told}") {
        Ok(()) => Ok(()),
        Err(_) => Err(Report::unprinted()),
    }
}

/// Starts the device in a thread of its own, and answers whether it could. What it fails with is told,
/// and the gateway goes on.
fn start_device<R: Threads + Log + Clock + Eprint + AllocGlobal + Copy + Drop + Send + 'static>(
    rt: R,
    port: DevicePort,
    device: Device,
) -> bool {
    let started = thread::spawn(&rt, move || {
        let fault = device_server::run(noted(rt), rt.alloc(), port, &device);
        let _ = eprintln!(rt; "{}", Report::origin(fault));
    });
    started.is_ok()
}
