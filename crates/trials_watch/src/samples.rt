//! Resources of one device, and watches of them.

use cache_key::{Key, Reading};
use coap_codec::Token;
use observe_share::Registration;
use std::alloc::{AllocError, Global};
use std::net::{IpAddr, Ipv4Addr};
use uri_map::{Host, Peer, Target, Text, Texts};

/// 192.0.2.2:5683.
pub fn device() -> Peer {
    Peer {
        address: IpAddr::V4(Ipv4Addr::new(192, 0, 2, 2)),
        port: 5683,
    }
}

/// `coap://o.example.com/` with this segment.
pub fn target(alloc: Global, segment: &str) -> Result<Target, AllocError> {
    let mut path = Texts::new(alloc);
    path.push(Text::copy_of(alloc, segment)?)?;
    Ok(Target {
        host: Host::Name(Text::copy_of(alloc, "o.example.com")?),
        port: 5683,
        path,
        query: Texts::new(alloc),
    })
}

/// What a GET of that target reads, which wants no format.
pub fn reading(target: &Target) -> Reading<'_> {
    Reading {
        peer: device(),
        target,
        accept: None,
    }
}

/// The key of a GET of that target, which wants no format.
pub fn key(alloc: Global, segment: &str) -> Result<Key, AllocError> {
    Key::of(alloc, device(), &target(alloc, segment)?, None)
}

/// The token `00` and this byte.
pub fn token(last: u8) -> Token {
    Token::new(&[0, last])
}

/// A watch of that target, asked for at 0, whose first number came at 10.
pub fn watched(
    alloc: Global,
    segment: &str,
    last: u8,
    version: u32,
) -> Result<Registration, AllocError> {
    Ok(Registration {
        key: key(alloc, segment)?,
        token: token(last),
        opening: 1,
        version,
        moment: 10,
        asked: 0,
    })
}
