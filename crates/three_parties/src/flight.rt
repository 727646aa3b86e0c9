//! Datagrams on their way.

ghost use Rattle.std.specs.Prelude.{◌≡◌, IfOk, Some, map, slice_get};
ghost use Rattle.exchange_core.specs.Values.{outgoing_of};
ghost use Rattle.three_parties.specs.Arriving.{reach_in_time, reach_of};
ghost use Rattle.three_parties.specs.Flights.{device_at, going, proxy_at, reach};

use coap_codec::Bytes;
use std::alloc::AllocError;
use std::net::{IpAddr, Ipv4Addr};
use std::sync::Arc;
use story_laws::LONGEST_WAY;
use uri_map::{Peer, is_same_peer};

/// The UDP port of CoAP (RFC 7252 section 6.1).
const COAP_PORT: u16 = 5683;

/// A datagram, by who sent it.
#[derive(Drop)]
pub enum Sent {
    Proxy(gateway_world::Datagram),
    Device(demo_origin::Datagram),
}

/// A datagram that was sent, and the moment of the turn in which it was, in milliseconds.
#[derive(Drop)]
pub struct Flight {
    pub moment: u64,
    pub sent: Sent,
}

/// Where a delivery brings a datagram, with the bytes of that.
#[derive(Drop)]
pub enum Arriving {
    ToProxy(message_layer::Bytes),
    ToDevice(Arc<Bytes>),
    Nowhere,
}

/// Where the device takes datagrams: 192.0.2.1:5683.
pub fn device_peer() -> Peer
    ensures { result ≡ device_at }
{
    Peer {
        address: IpAddr::V4(Ipv4Addr::new(192, 0, 2, 1)),
        port: COAP_PORT,
    }
}

/// Where the device sees the proxy: 198.51.100.1:5683.
pub fn proxy_peer() -> Peer
    ensures { result ≡ proxy_at }
{
    Peer {
        address: IpAddr::V4(Ipv4Addr::new(198, 51, 100, 1)),
        port: COAP_PORT,
    }
}

/// The same datagram once more, which shares its bytes.
pub(crate) fn share(
    datagram: &gateway_world::Datagram,
) -> Result<gateway_world::Datagram, AllocError>
    ensures { IfOk result (λ d. outgoing_of d ≡ outgoing_of datagram.now) }
{
    Ok(gateway_world::Datagram {
        peer: datagram.peer,
        bytes: Arc::try_clone(&datagram.bytes)?,
    })
}

/// Where a delivery at this moment brings the datagram with this number.
pub(crate) fn destination(
    moment: u64,
    flights: &[Flight],
    number: usize,
) -> Result<Arriving, AllocError>
    ensures { IfOk result (λ a. reach_of a
        ≡ reach moment (slice_get (map going flights.now) number)) }
{
    match flights.get(number) {
        Some(flight) => reached(moment, flight),
        None => Ok(Arriving::Nowhere),
    }
}

/// Where a delivery at this moment brings the datagram.
fn reached(moment: u64, flight: &Flight) -> Result<Arriving, AllocError>
    ensures { IfOk result (λ a. reach_of a ≡ reach moment (Some (going flight.now))) }
{
    if moment.saturating_sub(flight.moment) > LONGEST_WAY {
        return Ok(Arriving::Nowhere);
    }
    received(&flight.sent)
}

/// Where it does in time.
fn received(sent: &Sent) -> Result<Arriving, AllocError>
    ensures { IfOk result (λ a. reach_of a ≡ reach_in_time sent.now) }
{
    match sent {
        Sent::Proxy(datagram) => {
            if is_same_peer(&datagram.peer, &device_peer()) {
                Ok(Arriving::ToDevice(Arc::try_clone(&datagram.bytes)?))
            } else {
                Ok(Arriving::Nowhere)
            }
        }
        Sent::Device(datagram) => {
            if is_same_peer(&datagram.peer, &proxy_peer()) {
                Ok(Arriving::ToProxy(datagram.bytes.share()?))
            } else {
                Ok(Arriving::Nowhere)
            }
        }
    }
}
