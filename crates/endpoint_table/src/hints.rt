//! Where endpoints were found last.

ghost use Rattle.std.specs.Prelude.{◌≡◌, ◌<◌, None, Some, true, map, length, slice_get, option_map, IfSome, IsTrue};
ghost use Rattle.uri_map.specs.Peers.{same_peer};
ghost use Rattle.endpoint_table.specs.Places.{IsFirstAt, HasNone};
ghost use Rattle.endpoint_table.specs.Tables.{AreOnce, peer_link};

use crate::endpoint::Endpoint;
use std::alloc::{AllocError, Global};
use std::net::IpAddr;
use uri_map::{Peer, is_same_peer};

/// How many places are kept in mind, one for each sum.
const SLOTS: usize = 1024;

/// Where endpoints were found last, by a sum over their addresses and ports. A place is tried
/// before it is believed, so this is no part of what a table is: it saves the way through all
/// endpoints.
#[derive(Drop)]
pub struct Hints {
    places: Vec<usize>,
}

/// The sum of an address and a port, below the number of slots.
fn slot_of(peer: &Peer) -> usize {
    let sum = match peer.address {
        IpAddr::V4(address) => u32::from_be_bytes(address.octets()),
        IpAddr::V6(address) => {
            let [a, b, c, d, e, f, g, h] = address.segments();
            let high = u32::from(a ^ c ^ e ^ g);
            let low = u32::from(b ^ d ^ f ^ h);
            high * 65536 + low
        }
    };
    let mixed = (sum ^ u32::from(peer.port)).wrapping_mul(2_654_435_769);
    (mixed >> 22) as usize
}

/// Whether the endpoint stands in this place.
fn is_at(rows: &[Endpoint], place: usize, peer: &Peer) -> bool
    ensures { IsTrue result → option_map (λ x. same_peer x.peer peer.now)
        (slice_get rows.now place) ≡ Some true }
{
    match rows.get(place) {
        Some(x) => is_same_peer(&x.peer, peer),
        None => false,
    }
}

impl Hints {
    /// No endpoint was found yet.
    pub fn new(alloc: Global) -> Result<Hints, AllocError> {
        let mut places = Vec::new(alloc);
        for _ in 0..SLOTS {
            places.push(0)?;
        }
        Ok(Hints { places })
    }

    /// None are kept, so that each endpoint is looked for among all.
    pub fn none(alloc: Global) -> Hints {
        Hints {
            places: Vec::new(alloc),
        }
    }

    /// The place of an endpoint, where something was asked of it. Only one that isn't in mind is
    /// looked for.
    pub fn look_up(&self, rows: &[Endpoint], peer: &Peer) -> Option<usize>
        requires { AreOnce rows.now }
        ensures below { IfSome result (λ i. i < length rows.now) }
        ensures some { IfSome result (λ i. IsFirstAt peer.now (map peer_link rows.now) i) }
        ensures none { result ≡ None → HasNone peer.now (map peer_link rows.now) }
    {
        let place = self.hint(slot_of(peer));
        if is_at(rows, place, peer) {
            return Some(place);
        }
        find_endpoint(rows, peer)
    }

    /// The same, and keeps the place in mind.
    pub fn find(&mut self, rows: &[Endpoint], peer: &Peer) -> Option<usize>
        requires { AreOnce rows.now }
        ensures below { IfSome result (λ i. i < length rows.now) }
        ensures some { IfSome result (λ i. IsFirstAt peer.now (map peer_link rows.now) i) }
        ensures none { result ≡ None → HasNone peer.now (map peer_link rows.now) }
    {
        let place = self.look_up(rows, peer)?;
        self.keep(slot_of(peer), place);
        Some(place)
    }

    /// Keeps in mind where each endpoint stands now.
    pub fn keep_all(&mut self, rows: &[Endpoint]) {
        for (place, x) in rows.iter().enumerate() {
            self.keep(slot_of(&x.peer), place);
        }
    }

    /// What stands in a slot.
    fn hint(&self, slot: usize) -> usize {
        self.places.get(slot).copied().unwrap_or(0)
    }

    /// Puts a place into a slot.
    fn keep(&mut self, slot: usize, place: usize) {
        if let Some(kept) = self.places.get_mut(slot) {
            *kept = place;
        }
    }
}

/// The place of an endpoint, where something was asked of it.
fn find_endpoint(rows: &[Endpoint], peer: &Peer) -> Option<usize>
    ensures below { IfSome result (λ i. i < length rows.now) }
    ensures some { IfSome result (λ i. IsFirstAt peer.now (map peer_link rows.now) i) }
    ensures none { result ≡ None → HasNone peer.now (map peer_link rows.now) }
{
    'each: for place in 0..rows.len() {
        if is_same_peer(&rows[place].peer, peer) {
            return Some(place);
        }
    }
    None
}
