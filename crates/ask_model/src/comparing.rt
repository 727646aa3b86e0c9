//! What requests read and change: which of them one response may answer, and which outdate it.

ghost use Rattle.std.specs.Prelude.{◌≡◌, ℕ, List, option_map};
ghost use Rattle.cache_key.specs.Keys.{key_of, place_of};
ghost use Rattle.ask_model.specs.Sharing.{asked_digests, asks_same_by, key_read, outdates_by, place_written};
ghost use Rattle.ask_model.specs.Views.{sense_of};

use crate::meaning::Meaning;
use crate::request::{GET, bytes_of};
use cache_key::{Digests, Reading};

/// What a GET reads. Anything else reads nothing.
pub(crate) fn reading_of<'a>(meaning: &'a Meaning, body: &[u8]) -> Option<Reading<'a>>
    ensures { option_map (λ r. key_of r.peer r.target.now r.accept) result
        ≡ key_read (sense_of meaning.now body.now) }
{
    match meaning {
        Meaning::Ask {
            method,
            target,
            peer,
            accept,
            format,
            payload,
        } => {
            let is_get = method.code() == GET
                && format.is_none()
                && bytes_of(payload, body).is_empty();
            if !is_get {
                return None;
            }
            Some(Reading {
                peer: *peer,
                target,
                accept: *accept,
            })
        }
        Meaning::Refuse(_, _) => None,
    }
}

/// What a request changes that isn't a GET: its place alone counts.
pub(crate) fn writing_of(meaning: &Meaning) -> Option<Reading<'_>>
    ensures { (body : List ℕ) → option_map (λ r. place_of r.peer r.target.now) result
        ≡ place_written (sense_of meaning.now body) }
{
    match meaning {
        Meaning::Ask {
            method,
            target,
            peer,
            accept,
            ..
        } => {
            if method.code() == GET {
                return None;
            }
            Some(Reading {
                peer: *peer,
                target,
                accept: *accept,
            })
        }
        Meaning::Refuse(_, _) => None,
    }
}

/// The digests of the key that a request asks under.
pub(crate) fn digests_in(meaning: &Meaning) -> Digests
    ensures { (body : List ℕ) → result ≡ asked_digests (sense_of meaning.now body) }
{
    match meaning {
        Meaning::Ask {
            target,
            peer,
            accept,
            ..
        } => Digests::of(peer, target, *accept),
        Meaning::Refuse(_, _) => Digests { place: 0, key: 0 },
    }
}

/// Whether both are GETs that one response may answer.
pub(crate) fn asks_same(a: &Meaning, a_body: &[u8], b: &Meaning, b_body: &[u8]) -> bool
    ensures { result ≡ asks_same_by (sense_of a.now a_body.now) (sense_of b.now b_body.now) }
{
    match (reading_of(a, a_body), reading_of(b, b_body)) {
        (Some(one), Some(other)) => one.has_key_of(&other),
        _ => false,
    }
}

/// Whether the first is a write to the place that the second reads or changes.
pub(crate) fn outdates(write: &Meaning, other: &Meaning) -> bool
    ensures { (a b : List ℕ) → result ≡ outdates_by (sense_of write.now a) (sense_of other.now b) }
{
    match (write, other) {
        (
            Meaning::Ask {
                method,
                target,
                peer,
                ..
            },
            Meaning::Ask {
                target: other_target,
                peer: other_peer,
                ..
            },
        ) => {
            let changed = Reading {
                peer: *peer,
                target,
                accept: None,
            };
            let other = Reading {
                peer: *other_peer,
                target: other_target,
                accept: None,
            };
            method.code() != GET && other.is_at_place_of(&changed)
        }
        _ => false,
    }
}
