//! What clients and devices do over sockets of this machine.

use crate::table::{Row, rows};
use std::alloc::{AllocError, Global};
use std::io::{Read, Write};
use std::net::{IpAddr, Ipv4Addr, Net, SocketAddr, TcpStream, UdpSocket};
use std::rt::Clock;
use std::thread;
use std::time::Duration;

/// How long the client and the device wait at most, in seconds.
const PATIENCE: u64 = 20;

/// How long a client may stand still in the trials of that, in seconds.
pub const IDLE: u64 = 1;

/// A port of this machine that the system chooses.
pub fn any_port() -> SocketAddr {
    SocketAddr::new(IpAddr::V4(Ipv4Addr::LOCALHOST), 0)
}

/// The reply to a request that begins so, with its ID, and with its token where the length says so.
pub fn reply_to(
    alloc: Global,
    first: u8,
    request: &[u8],
    code: u8,
    rest: &[u8],
) -> Result<Vec<u8>, AllocError> {
    let mut bytes = Vec::new(alloc);
    bytes.extend_from_slice(&[first, code])?;
    if let [_, _, front @ ..] = request {
        let kept = if first & 15 == 0 { 2 } else { 10 };
        bytes.extend_from_slice(&front[..front.len().min(kept)])?;
    }
    bytes.extend_from_slice(rest)?;
    Ok(bytes)
}

/// A device's socket.
fn open_device<W: Net>(rt: &W) -> Option<UdpSocket> {
    let device = UdpSocket::bind(rt, any_port()).ok()?;
    let patience = Duration::from_secs(PATIENCE);
    device.set_read_timeout(Some(patience)).ok()?;
    Some(device)
}

/// A client's connection to the gateway.
pub fn open_client<W: Net<Stream = TcpStream>>(rt: &W, gateway: SocketAddr) -> Option<TcpStream> {
    let client = TcpStream::connect(rt, gateway).ok()?;
    let patience = Duration::from_secs(PATIENCE);
    client.set_read_timeout(Some(patience)).ok()?;
    Some(client)
}

/// The client asks for the light of the device at this port.
fn asks(client: &mut TcpStream, port: u16, row: &'static Row) -> bool {
    client.write_all(row.method).is_ok()
        && write!(client, " /hc/coap://127.0.0.1:{port}").is_ok()
        && client.write_all(row.rest).is_ok()
}

/// Whether the datagram asks what the row says: a CON with a token of 8 bytes.
fn is_asked(datagram: &[u8], row: &'static Row) -> bool {
    match datagram {
        [0x48, code, _, _, _, _, _, _, _, _, _, _, asked @ ..] => {
            *code == row.code && asked == row.asked
        }
        _ => false,
    }
}

/// These bytes, and so many letters after them.
fn with_letters(alloc: Global, front: &[u8], letters: usize) -> Result<Vec<u8>, AllocError> {
    let mut bytes = Vec::from_slice(alloc, front)?;
    let letters = vec![in alloc; b'x'; letters]?;
    bytes.extend_from_slice(&letters)?;
    Ok(bytes)
}

/// The device is asked what the row says, and replies as it says.
fn replies(alloc: Global, device: &UdpSocket, row: &'static Row) -> bool {
    let mut buffer = [0u8; 64];
    let Ok((count, gateway)) = device.recv_from(&mut buffer) else {
        return false;
    };
    let request = &buffer[..count];
    let Ok(rest) = with_letters(alloc, row.reply.2, row.letters) else {
        return false;
    };
    let Ok(reply) = reply_to(alloc, row.reply.0, request, row.reply.1, &rest) else {
        return false;
    };
    is_asked(request, row) && device.send_to(&reply, gateway).is_ok()
}

/// Whether the client is told what the row says.
fn is_told(alloc: Global, client: &mut TcpStream, row: &'static Row) -> bool {
    let Ok(wanted) = with_letters(alloc, row.told, row.letters) else {
        return false;
    };
    let Ok(mut told) = vec![in alloc; 0u8; wanted.len()] else {
        return false;
    };
    client.read_exact(&mut told).is_ok() && told.as_slice() == wanted.as_slice()
}

/// Whether the rows go as they say, one after the other on one connection.
pub fn go<W: Net<Stream = TcpStream>>(rt: &W, alloc: Global, gateway: SocketAddr) -> Option<bool> {
    let device = open_device(rt)?;
    let port = device.local_addr().ok()?.port();
    let mut client = open_client(rt, gateway)?;
    for row in rows() {
        let asked = asks(&mut client, port, row);
        if !asked || !replies(alloc, &device, row) || !is_told(alloc, &mut client, row) {
            return Some(false);
        }
    }
    Some(true)
}

/// Whether a client that stops within a request is told the end.
pub fn is_given_up<W: Net<Stream = TcpStream>>(rt: &W, gateway: SocketAddr) -> Option<bool> {
    let mut client = open_client(rt, gateway)?;
    client.write_all(b"GET /hc/coap").ok()?;
    let mut told = [0u8; 16];
    let count = client.read(&mut told).ok()?;
    Some(count == 0)
}

/// Whether one more is answered where as many are connected as may be, and ask nothing.
pub fn is_taken<W: Net<Stream = TcpStream> + Clock>(
    rt: &W,
    alloc: Global,
    gateway: SocketAddr,
) -> Option<bool> {
    let mut idle = Vec::new(alloc);
    'each: for _ in 0..256 {
        idle.push(open_client(rt, gateway)?).ok()?;
    }
    thread::sleep(rt, Duration::from_millis(2 * IDLE * 1000));
    let mut client = open_client(rt, gateway)?;
    client.write_all(b"?\r\n\r\n").ok()?;
    let mut told = [0u8; 12];
    client.read_exact(&mut told).ok()?;
    Some(told.as_slice() == b"HTTP/1.1 400".as_slice())
}
