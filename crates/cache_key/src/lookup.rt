//! What many keys are looked through for.

ghost use Rattle.std.specs.Prelude.{◌≡◌};
ghost use Rattle.cache_key.specs.Digests.{digests_of, rank_of};
ghost use Rattle.cache_key.specs.Keys.{key_of};

use crate::digest::Digests;
use crate::reading::Reading;
use std::marker::Model;

/// A reading that keys are looked through for. What most of them differ in already is made of it
/// once.
#[derive(Drop)]
pub struct Lookup<'a> {
    pub(crate) reading: Reading<'a>,
    pub(crate) digests: Digests,
}

impl<'a> Model for Lookup<'a> {
    ghost use Rattle.std.specs.Prelude.{◌≡◌};
    ghost use Rattle.cache_key.specs.Digests.{digests_of};
    ghost use Rattle.cache_key.specs.Keys.{CacheKey, key_of};

    ghost Value = { CacheKey };

    ghost view = { λ l. key_of l.reading.peer l.reading.target.now l.reading.accept };

    ghost invariant = { λ l. l.digests
        ≡ digests_of (key_of l.reading.peer l.reading.target.now l.reading.accept) };
}

impl<'a> Lookup<'a> {
    /// For the key of the reading, or its place.
    pub fn of(reading: &Reading<'a>) -> Lookup<'a>
        ensures { result ≡ key_of reading.now.peer reading.now.target.now reading.now.accept }
    {
        Lookup {
            reading: *reading,
            digests: Digests::of(&reading.peer, reading.target, reading.accept),
        }
    }

    /// The same, where the digests of the key are known.
    pub fn with(reading: &Reading<'a>, digests: Digests) -> Lookup<'a>
        requires { let key = key_of reading.now.peer reading.now.target.now reading.now.accept in
            digests ≡ digests_of key }
        ensures { result ≡ key_of reading.now.peer reading.now.target.now reading.now.accept }
    {
        Lookup {
            reading: *reading,
            digests,
        }
    }

    /// The digests of the key that is looked for, and of its place.
    pub fn digests(&self) -> Digests
        ensures { result ≡ digests_of self.now }
    {
        self.digests
    }

    /// The rank of the key that is looked for.
    pub fn rank(&self) -> u32
        ensures { result ≡ rank_of self.now }
    {
        self.digests.rank()
    }
}
