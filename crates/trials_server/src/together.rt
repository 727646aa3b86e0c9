//! The gateway and the demonstration device in one process, on sockets of this machine.

use crate::looping::start_shown;
use crate::threads::{LONG, start};
use device_server::DevicePort;
use log::Log;
use proxy_settings::{Device, Part, Setup, settings_of};
use std::alloc::Global;
use std::io::{Read, Write};
use std::net::{Net, SocketAddr, TcpStream};
use std::rt::Clock;
use std::thread::Threads;
use std::{str, thread};
use trials_clients::{Shown, any_port, open_client, told_to};

/// A device with a light that is on.
static LIGHT: &str =
    "listen = '127.0.0.1:5683'\n[[resource]]\npath = 'light'\nkind = 'cell'\nstate = 'on'\n";

fn light() -> &'static str {
    LIGHT
}

/// What a GET of the light is answered: its state, of version 0.
static IS_ON: &[u8] =
    b"HTTP/1.1 200 OK\r\nContent-Type: text/plain;charset=utf-8\r\nCache-Control: max-age=60\r\nETag: \"0000000000000000\"\r\nContent-Length: 2\r\n\r\non";

fn is_on() -> &'static [u8] {
    IS_ON
}

fn device(alloc: Global) -> Option<Device> {
    match settings_of(alloc, Part::Origin, light()) {
        Ok(Setup::Origin(device)) => Some(device),
        Ok(Setup::Serve(_)) | Err(_) => None,
    }
}

/// Starts the device, and answers at which port it takes messages.
fn start_device<W: Threads + Log + Clock + Net + Copy + Drop + Send + 'static>(
    rt: W,
    alloc: Global,
) -> Option<u16> {
    let device = device(alloc)?;
    let port = DevicePort::bind(&rt, any_port()).ok()?;
    let at = port.listens_at().ok()?;
    let started = thread::spawn(&rt, move || {
        let _ = device_server::run(rt, alloc, port, &device);
    });
    started.is_ok().then_some(at.port())
}

/// A client of the gateway is answered by the device at that port.
fn is_answered<W: Net<Stream = TcpStream>>(rt: &W, gateway: SocketAddr, port: u16) -> Option<bool> {
    let mut client = open_client(rt, gateway)?;
    write!(
        client,
        "GET /hc/coap://127.0.0.1:{port}/light HTTP/1.1\r\nHost: p\r\n\r\n"
    )
    .ok()?;
    let mut told = [0u8; 256];
    let count = is_on().len().min(256);
    client.read_exact(&mut told[..count]).ok()?;
    Some(&told[..count] == is_on())
}

#[test]
fn the_device_answers_the_gateway(rt: HostRuntime) {
    let gateway = start(rt, rt.alloc(), LONG);
    let port = start_device(rt, rt.alloc());
    assert!(rt; gateway.is_some() && port.is_some());
    if let (Some(gateway), Some(port)) = (gateway, port) {
        assert!(rt; is_answered(&rt, gateway, port) == Some(true));
    }
}

/// What the window shows of that request: its entries, and the device's reply with what it carries
/// hidden.
static DRAWN: [&str; 3] = ["<g id=\"e1\" ", "ff2a2a</title>", "<g id=\"e4\" "];

fn drawn() -> &'static [&'static str] {
    &DRAWN
}

/// Whether the window leads from the device's reply to what became of the request.
fn is_drawn<W: Net<Stream = TcpStream>>(
    rt: &W,
    alloc: Global,
    shown: Shown,
    port: u16,
) -> Option<bool> {
    if !is_answered(rt, shown.gateway, port)? {
        return Some(false);
    }
    let asked = b"GET /journal/3 HTTP/1.1\r\nHost: w\r\n\r\n";
    let page = told_to(rt, alloc, shown.window, asked)?;
    let page = str::from_utf8(&page).ok()?;
    Some(drawn().iter().all(|part| page.contains(*part)))
}

#[test]
fn the_window_draws_a_request(rt: HostRuntime) {
    let shown = start_shown(rt, rt.alloc());
    let port = start_device(rt, rt.alloc());
    assert!(rt; shown.is_some() && port.is_some());
    if let (Some(shown), Some(port)) = (shown, port) {
        assert!(rt; is_drawn(&rt, rt.alloc(), shown, port) == Some(true));
    }
}
