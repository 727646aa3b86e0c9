//! Readings and responses of one device.

use cache_key::{Key, Lookup, Reading};
use coap_codec::Bytes;
use resp_cache::{Location, Response, Store, StoredResponse, Values};
use std::alloc::{AllocError, Global};
use std::net::{IpAddr, Ipv4Addr};
use std::sync::Arc;
use uri_map::{Host, Peer, Target, Text, Texts};

/// 192.0.2.1:5683.
fn device() -> Peer {
    Peer {
        address: IpAddr::V4(Ipv4Addr::new(192, 0, 2, 1)),
        port: 5683,
    }
}

/// `coap://s.example.com/` with this segment.
pub fn target(alloc: Global, segment: &str) -> Result<Target, AllocError> {
    let mut path = Texts::new(alloc);
    path.push(Text::copy_of(alloc, segment)?)?;
    Ok(Target {
        host: Host::Name(Text::copy_of(alloc, "s.example.com")?),
        port: 5683,
        path,
        query: Texts::new(alloc),
    })
}

/// A GET of the target, with this Accept.
pub fn reading(target: &Target, accept: Option<u16>) -> Reading<'_> {
    Reading {
        peer: device(),
        target,
        accept,
    }
}

/// The key of a GET of that target, with this Accept.
pub fn key_of(alloc: Global, segment: &str, accept: Option<u16>) -> Result<Key, AllocError> {
    Key::of(alloc, device(), &target(alloc, segment)?, accept)
}

/// The key of a GET of `light` with this Accept.
pub fn key(alloc: Global, accept: u16) -> Result<Key, AllocError> {
    key_of(alloc, "light", Some(accept))
}

/// 2.05 with the body `on`, which rests on the journal's entry 3, and was asked for by entry 1.
pub fn response(
    alloc: Global,
    heard: u64,
    max_age: Option<u32>,
) -> Result<StoredResponse, AllocError> {
    let response = Response {
        code: 69,
        format: Some(0),
        etag: Some(Bytes::of(Vec::from_slice(alloc, &[7])?)),
        max_age,
        location: Location {
            path: Values::of(Vec::new(alloc)),
            query: Values::of(Vec::new(alloc)),
        },
        body: Bytes::of(Vec::from_slice(alloc, b"on")?),
    };
    let shared = Arc::new(alloc, response)?;
    StoredResponse::new(alloc, shared, 1, heard, Vec::from_slice(alloc, &[3])?)
}

/// Puts a response that is fresh until 60,000 under the key with this Accept. True where nothing
/// goes.
pub fn puts(store: &mut Store, alloc: Global, accept: u16) -> Result<bool, AllocError> {
    let gone = store.put(key(alloc, accept)?, response(alloc, 0, None)?)?;
    Ok(gone.is_none())
}

/// Whether what is read is served at this moment, and is the last used then.
pub fn uses(store: &mut Store, reading: &Reading<'_>, moment: u64) -> bool {
    let sought = Lookup::of(reading);
    let served = store.fresh(&sought, moment).is_some();
    store.touch(&sought, moment);
    served
}

/// Whether a GET of `light` with this Accept is served.
fn serves(store: &mut Store, alloc: Global, accept: u16) -> Result<bool, AllocError> {
    let light = target(alloc, "light")?;
    Ok(uses(store, &reading(&light, Some(accept)), 1))
}

pub fn is_served(store: &mut Store, alloc: Global, accept: u16) -> bool {
    serves(store, alloc, accept) == Ok(true)
}

pub fn is_missing(store: &mut Store, alloc: Global, accept: u16) -> bool {
    serves(store, alloc, accept) == Ok(false)
}
