//! Digests, by which most keys and places are told apart at once.

ghost use Rattle.std.specs.Prelude.{◌≡◌};
ghost use Rattle.std.specs.Hash.FoldHasher as folding;
ghost use Rattle.cache_key.specs.Digests.{digests_of, fed_on, host_bytes, key_fed, place_fed, rank};
ghost use Rattle.cache_key.specs.Keys.{key_of};

use std::hash::{FoldHasher, Hasher};
use std::net::IpAddr;
use uri_map::{Host, Peer, Target, Texts};

/// The digests of a key and of its place. The hasher has no secret: who chooses paths can make keys
/// whose digests are equal, and these are told apart by their texts, as fast as without digests.
#[derive(Clone, Copy)]
pub struct Digests {
    pub place: u64,
    pub key: u64,
}

/// Writes each text.
fn write_texts(hasher: &mut FoldHasher, texts: &Texts)
    ensures { hasher.new ≡ fed_on hasher.old texts.now }
{
    'each: for text in texts.as_slice() {
        hasher.write(text.as_bytes());
    }
}

/// Writes the name or the address.
fn write_host(hasher: &mut FoldHasher, host: &Host)
    ensures { hasher.new ≡ folding.write hasher.old (host_bytes host.now) }
{
    match host {
        Host::Name(name) => hasher.write(name.as_bytes()),
        Host::V4(address) => hasher.write(&address.octets()),
        Host::V6(address) => hasher.write(&address.octets()),
    }
}

/// The hasher after the place.
#[tactic(auto, unfolding(crate::specs::Digests::place_fed))]
fn after_place(peer: &Peer, path: &Texts) -> FoldHasher
    ensures { result ≡ place_fed peer.now path.now }
{
    let mut hasher = FoldHasher::default();
    match &peer.address {
        IpAddr::V4(address) => hasher.write(&address.octets()),
        IpAddr::V6(address) => hasher.write(&address.octets()),
    }
    hasher.write_u16(peer.port);
    write_texts(&mut hasher, path);
    hasher
}

/// The hasher after what a key has besides its place.
#[tactic(auto, unfolding(crate::specs::Digests::key_fed))]
fn after_key(place: FoldHasher, target: &Target, accept: Option<u16>) -> FoldHasher
    ensures { result ≡ key_fed place target.now.host target.now.query accept }
{
    let mut hasher = place;
    write_host(&mut hasher, &target.host);
    write_texts(&mut hasher, &target.query);
    if let Some(format) = accept {
        hasher.write_u16(format);
    }
    hasher
}

impl Digests {
    /// Those of the key of a GET of the target at the peer, with that Accept.
    #[tactic(auto, unfolding(crate::specs::Digests::digests_of))]
    pub fn of(peer: &Peer, target: &Target, accept: Option<u16>) -> Digests
        ensures { result ≡ digests_of (key_of peer.now target.now accept) }
    {
        let place = after_place(peer, &target.path);
        let key = after_key(place, target, accept);
        Digests {
            place: place.finish(),
            key: key.finish(),
        }
    }
    /// What keys are sorted by in an index: those of a place stand together.
    pub fn rank(&self) -> u32
        ensures { result ≡ rank self.now }
    {
        (self.place % 65536) as u32 * 65536 + (self.key % 65536) as u32
    }
}
