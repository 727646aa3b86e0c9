//! Hints of what is watched: so most requests are told at once from all watches.

ghost use Rattle.std.specs.Prelude.{◌≡◌, ◌/◌, ◌%◌, ℕ, true, length, IfOk};
ghost use Rattle.observe_share.specs.Hints.{AreHinted, is_hinted};

use crate::registration::Registration;
use std::alloc::{AllocError, Global};

/// How many there are. Places whose digests agree in these ten bits share one.
pub const HINTS: usize = 1024;

/// Where the hint of a place stands, by the rank of one of its keys: the upper half of that is of
/// the digest of the place.
fn hint_place(rank: u32) -> usize
    ensures { result ≡ rank / 65536 % 1024 }
{
    (rank / 65536) as usize % HINTS
}

/// Whether the place of the key with this rank may be watched. There may be no hints.
pub fn is_hinted(hints: &[bool], rank: u32) -> bool
    ensures { result ≡ is_hinted hints.now rank }
{
    match hints.get(hint_place(rank)) {
        Some(hint) => *hint,
        None => false,
    }
}

/// The place of the key with this rank may be watched from now on.
pub fn put_hint(hints: &mut [bool], rank: u32)
    requires { length hints.old ≡ 1024 }
    ensures put { is_hinted hints.new rank ≡ true }
    ensures kept { (k : ℕ) → is_hinted hints.old k ≡ true → is_hinted hints.new k ≡ true }
    ensures len { length hints.new ≡ 1024 }
{
    hints[hint_place(rank)] = true;
}

/// The places of these watches may be watched from now on.
fn put_hints(hints: &mut [bool], standing: &[Registration])
    requires { length hints.old ≡ 1024 }
    ensures hinted { AreHinted hints.new standing.now }
    ensures len { length hints.new ≡ 1024 }
{
    'each: for r in standing {
        put_hint(hints, r.key.rank());
    }
}

/// No places may be watched but those of these watches, which have their hints: those of others go.
pub fn hint_anew(hints: &mut [bool], standing: &[Registration])
    requires { AreHinted hints.old standing.now }
    ensures hinted { AreHinted hints.new standing.now }
    ensures len { length hints.new ≡ length hints.old }
{
    if hints.len() == HINTS {
        hints.fill(false);
        put_hints(hints, standing);
    }
}

/// The hints of these watches.
pub fn hints_of(alloc: Global, standing: &[Registration]) -> Result<Vec<bool>, AllocError>
    ensures hinted { IfOk result (λ v. AreHinted v.items standing.now) }
    ensures len { IfOk result (λ v. length v.items ≡ 1024) }
{
    let mut hints = Vec::new(alloc);
    hints.resize(HINTS, false)?;
    put_hints(&mut hints, standing);
    Ok(hints)
}
