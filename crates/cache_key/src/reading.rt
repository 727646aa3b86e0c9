//! What a GET reads, where no key is made of it.

ghost use Rattle.std.specs.Prelude.{◌≡◌};
ghost use Rattle.cache_key.specs.Keys.{key_of, place_of, same_key, same_place};

use crate::key::is_same_host;
use uri_map::{Peer, Target, is_same_peer};

/// A target at its peer, with the Accept of the request. Two of them are compared as their keys
/// are, without making these.
#[derive(Clone, Copy)]
pub struct Reading<'a> {
    pub peer: Peer,
    pub target: &'a Target,
    pub accept: Option<u16>,
}

impl<'a> Reading<'a> {
    /// Whether both are of one place.
    pub fn is_at_place_of(&self, other: &Reading<'_>) -> bool
        ensures { result ≡ same_place (place_of self.now.peer self.now.target.now)
            (place_of other.now.peer other.now.target.now) }
    {
        is_same_peer(&self.peer, &other.peer) && self.target.path == other.target.path
    }

    /// Whether both have one key.
    pub fn has_key_of(&self, other: &Reading<'_>) -> bool
        ensures { result ≡ same_key (key_of self.now.peer self.now.target.now self.now.accept)
            (key_of other.now.peer other.now.target.now other.now.accept) }
    {
        self.is_at_place_of(other)
            && is_same_host(&self.target.host, &other.target.host)
            && self.target.query == other.target.query
            && self.accept == other.accept
    }
}
