//! Places.

ghost use Rattle.std.specs.Prelude.{◌≡◌, IfOk};
ghost use Rattle.cache_key.specs.Keys.{place_of, same_place};
ghost use Rattle.cache_key.specs.Order.{place_cmp};

use crate::order::{cmp_addresses, cmp_texts};
use crate::reading::Reading;
use std::alloc::AllocError;
use std::cmp::Ordering;
use uri_map::{Peer, Target, Texts, is_same_peer};

/// What a write changes: the resource of a peer that a path names, whatever the host that the
/// request named, its query and its Accept.
#[derive(Debug, Drop)]
pub struct Place {
    /// Who serves it.
    pub peer: Peer,
    /// The values of the Uri-Path options.
    pub path: Texts,
}

impl Place {
    /// The place of the target at the peer.
    pub fn of(peer: Peer, target: &Target) -> Result<Place, AllocError>
        ensures { IfOk result (λ p. p ≡ place_of peer target.now) }
    {
        Ok(Place {
            peer,
            path: target.path.copy()?,
        })
    }

    /// Whether it is that place.
    pub fn is_same(&self, other: &Place) -> bool
        ensures { result ≡ same_place self.now other.now }
    {
        is_same_peer(&self.peer, &other.peer) && self.path == other.path
    }

    /// Whether it is the place of this reading.
    pub fn is_of(&self, reading: &Reading<'_>) -> bool
        ensures { result ≡ same_place self.now
            (place_of reading.now.peer reading.now.target.now) }
    {
        is_same_peer(&self.peer, &reading.peer) && self.path == reading.target.path
    }

    /// Which of the two stands first in an index: by the peer, and then by the path.
    pub fn total_cmp(&self, other: &Place) -> Ordering
        ensures { result ≡ place_cmp self.now other.now }
    {
        cmp_addresses(&self.peer.address, &other.peer.address)
            .then(self.peer.port.cmp(&other.peer.port))
            .then(cmp_texts(self.path.as_slice(), other.path.as_slice()))
    }

    /// A copy of the place.
    pub fn copy(&self) -> Result<Place, AllocError>
        ensures { IfOk result (λ p. p ≡ self.now) }
    {
        Ok(Place {
            peer: self.peer,
            path: self.path.copy()?,
        })
    }
}
