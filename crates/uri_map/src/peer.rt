//! Peers: where datagrams go.

ghost use Rattle.std.specs.Prelude.{◌≡◌};
ghost use Rattle.uri_map.specs.Peers.{peer_named, same_address, same_peer};

use crate::address::{bracketed_plain, v4_of, written_port};
use crate::marks::{Mark, cut_at};
use std::fmt;
use std::net::{IpAddr, Ipv6Addr};

/// The address and UDP port of a CoAP endpoint. Written `192.0.2.1:5683` or
/// `[2001:db8:0:0:0:0:0:1]:5683`, with all eight groups.
#[derive(Clone, Copy, Debug, PartialEq, Eq)]
pub struct Peer {
    pub address: IpAddr,
    pub port: u16,
}

/// An IPv6 address as eight groups.
#[derive(Clone, Copy)]
struct Groups(Ipv6Addr);

impl fmt::Display for Groups {
    fn fmt<W: fmt::Write>(&self, f: &mut fmt::Formatter<W>) -> fmt::Result {
        let [a, b, c, d, e, g, h, i] = self.0.segments();
        write!(f, "{a:x}:{b:x}:{c:x}:{d:x}:{e:x}:{g:x}:{h:x}:{i:x}")
    }
}

impl fmt::Display for Peer {
    fn fmt<W: fmt::Write>(&self, f: &mut fmt::Formatter<W>) -> fmt::Result {
        let port = self.port;
        match self.address {
            IpAddr::V4(address) => write!(f, "{address}:{port}"),
            IpAddr::V6(address) => write!(f, "[{}]:{port}", Groups(address)),
        }
    }
}

/// Whether the addresses are equal.
fn is_same_address(a: &IpAddr, b: &IpAddr) -> bool
    ensures { result ≡ same_address a.now b.now }
{
    match (a, b) {
        (IpAddr::V4(a), IpAddr::V4(b)) => a.octets() == b.octets(),
        (IpAddr::V6(a), IpAddr::V6(b)) => a.segments() == b.segments(),
        _ => false,
    }
}

/// Whether the two are one endpoint: the same address and port (RFC 7252 section 1.2).
pub fn is_same_peer(a: &Peer, b: &Peer) -> bool
    ensures { result ≡ same_peer a.now b.now }
{
    is_same_address(&a.address, &b.address) && a.port == b.port
}

/// The peer that `ADDRESS:PORT` names: an IPv4 address, or an IPv6 address in plain brackets, and a
/// port of 1 to 5 digits from 1 to 65535. Nothing else is taken: no name, no zone, no dots in IPv6.
#[tactic(auto, unfolding(crate::specs::Peers::peer_named))]
pub fn peer_at(text: &[u8]) -> Option<Peer>
    ensures { result ≡ peer_named text.now }
{
    if let Some((address, rest)) = bracketed_plain(text) {
        let port = written_port(rest)?;
        return Some(Peer {
            address: IpAddr::V6(address),
            port,
        });
    }
    let (written, rest) = cut_at(Mark::Byte(b':'), text);
    let address = v4_of(written)?;
    let port = written_port(rest)?;
    Some(Peer {
        address: IpAddr::V4(address),
        port,
    })
}
