//! Keys.

ghost use Rattle.std.specs.Prelude.{◌≡◌, IfOk};
ghost use Rattle.cache_key.specs.Digests.{digests_of, rank_of};
ghost use Rattle.cache_key.specs.Keys.{key_of, same_host, same_key, same_place};
ghost use Rattle.cache_key.specs.Order.{key_cmp};

use crate::digest::Digests;
use crate::lookup::Lookup;
use crate::order::{cmp_hosts, cmp_texts};
use crate::place::Place;
use crate::reading::Reading;
use std::alloc::{AllocError, Global};
use std::cmp::Ordering;
use std::marker::Model;
use std::sync::Arc;
use uri_map::{Host, Peer, Target, Texts};

/// What a key is made of.
#[derive(Drop)]
struct Parts {
    place: Place,
    host: Host,
    query: Texts,
    accept: Option<u16>,
}

/// What the response to a GET is kept under: the peer, the host, the path, the query and the
/// Accept of the request. Its copies share it. Beside it stand its digests, so that most keys are
/// told apart without a look at what is shared.
#[derive(Drop)]
pub struct Key {
    digests: Digests,
    parts: Arc<Parts>,
}

impl Model for Key {
    ghost use Rattle.std.specs.Prelude.{◌≡◌};
    ghost use Rattle.std.specs.Arc.{arc_value};
    ghost use Rattle.cache_key.specs.Digests.{digests_of};
    ghost use Rattle.cache_key.specs.Keys.{CacheKey};

    ghost Value = { CacheKey };

    ghost view = { λ k. record {
      place = (arc_value k.parts).place;
      host = (arc_value k.parts).host;
      query = (arc_value k.parts).query;
      accept = (arc_value k.parts).accept;
    } };

    ghost invariant = { λ k. k.digests ≡ digests_of (record {
      place = (arc_value k.parts).place;
      host = (arc_value k.parts).host;
      query = (arc_value k.parts).query;
      accept = (arc_value k.parts).accept;
    }) };
}

/// Whether the hosts are equal.
pub(crate) fn is_same_host(a: &Host, b: &Host) -> bool
    ensures { result ≡ same_host a.now b.now }
{
    match (a, b) {
        (Host::Name(a), Host::Name(b)) => a == b,
        (Host::V4(a), Host::V4(b)) => a.octets() == b.octets(),
        (Host::V6(a), Host::V6(b)) => a.segments() == b.segments(),
        _ => false,
    }
}

impl Key {
    /// The key of a GET of the target at the peer, with that Accept.
    pub fn of(
        alloc: Global,
        peer: Peer,
        target: &Target,
        accept: Option<u16>,
    ) -> Result<Key, AllocError>
        ensures { IfOk result (λ k. k ≡ key_of peer target.now accept) }
    {
        let digests = Digests::of(&peer, target, accept);
        let parts = Parts {
            place: Place::of(peer, target)?,
            host: target.host.copy()?,
            query: target.query.copy()?,
            accept,
        };
        Ok(Key {
            digests,
            parts: Arc::new(alloc, parts)?,
        })
    }

    /// The key that is looked for, whose digests were made before.
    pub fn of_sought(alloc: Global, sought: &Lookup<'_>) -> Result<Key, AllocError>
        ensures { IfOk result (λ k. k ≡ sought.now) }
    {
        let reading = &sought.reading;
        let parts = Parts {
            place: Place::of(reading.peer, reading.target)?,
            host: reading.target.host.copy()?,
            query: reading.target.query.copy()?,
            accept: reading.accept,
        };
        Ok(Key {
            digests: sought.digests,
            parts: Arc::new(alloc, parts)?,
        })
    }

    /// Its digests, and those of its place.
    pub fn digests(&self) -> Digests
        ensures { result ≡ digests_of self.now }
    {
        self.digests
    }

    /// The place that the request reads.
    pub fn place(&self) -> &Place
        ensures { result.now ≡ self.now.place }
    {
        &self.parts.place
    }

    /// Whether it is that key.
    pub fn is_same(&self, other: &Key) -> bool
        ensures { result ≡ same_key self.now other.now }
    {
        self.digests.key == other.digests.key && self.has_parts_of(other)
    }

    /// Whether all parts are equal.
    fn has_parts_of(&self, other: &Key) -> bool
        ensures { result ≡ same_key self.now other.now }
    {
        self.parts.place.is_same(&other.parts.place)
            && is_same_host(&self.parts.host, &other.parts.host)
            && self.parts.query == other.parts.query
            && self.parts.accept == other.parts.accept
    }

    /// Whether it is the key of this reading, of which no key is made.
    pub fn is_of(&self, reading: &Reading<'_>) -> bool
        ensures { result ≡ same_key self.now
            (key_of reading.now.peer reading.now.target.now reading.now.accept) }
    {
        self.parts.place.is_of(reading)
            && is_same_host(&self.parts.host, &reading.target.host)
            && self.parts.query == reading.target.query
            && self.parts.accept == reading.accept
    }

    /// Whether it is the key that is looked for.
    pub fn is_sought(&self, lookup: &Lookup<'_>) -> bool
        ensures { result ≡ same_key self.now lookup.now }
    {
        self.digests.key == lookup.digests.key && self.is_of(&lookup.reading)
    }

    /// Whether it is of the place that is looked for.
    pub fn is_at(&self, lookup: &Lookup<'_>) -> bool
        ensures { result ≡ same_place self.now.place lookup.now.place }
    {
        self.digests.place == lookup.digests.place && self.place().is_of(&lookup.reading)
    }

    /// A number by which it is found among others: equal keys have equal ones, and those of a place
    /// are in one row of 65536.
    pub fn rank(&self) -> u32
        ensures { result ≡ rank_of self.now }
    {
        self.digests.rank()
    }

    /// Which of the two stands first in an index: by the place, and then by the host, the query and
    /// the Accept. The keys of a place stand together.
    pub fn total_cmp(&self, other: &Key) -> Ordering
        ensures { result ≡ key_cmp self.now other.now }
    {
        let (a, b) = (&self.parts, &other.parts);
        a.place
            .total_cmp(&b.place)
            .then(cmp_hosts(&a.host, &b.host))
            .then(cmp_texts(a.query.as_slice(), b.query.as_slice()))
            .then(a.accept.cmp(&b.accept))
    }

    /// The same key once more, which isn't copied.
    pub fn share(&self) -> Result<Key, AllocError>
        ensures { IfOk result (λ k. k ≡ self.now) }
    {
        Ok(Key {
            digests: self.digests,
            parts: Arc::try_clone(&self.parts)?,
        })
    }
}
