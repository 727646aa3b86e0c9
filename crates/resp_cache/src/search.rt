//! Where a key's pair stands.

ghost use Rattle.std.specs.Prelude.{◌≡◌, ℕ, None, IfSome, false, true};
ghost use Rattle.std.specs.Option.{option_copied};
ghost use Rattle.resp_cache.specs.Names.{IsNamed};
ghost use Rattle.resp_cache.specs.Slots.{holds, holds_near, slot_at};

use crate::names::{Named, row_of};
use crate::pair::Pair;
use cache_key::{Key, Lookup};

/// The pair in this slot.
pub fn pair_at(slots: &[Option<Pair>], slot: u16) -> Option<&Pair>
    ensures { option_copied result ≡ slot_at slots.now slot }
{
    if slot == 0 {
        return None;
    }
    slots.get(usize::from(slot) - 1)?.as_ref()
}

/// Whether the slot holds the pair of the key that is looked for.
fn is_sought_at(slots: &[Option<Pair>], slot: u16, sought: &Lookup<'_>) -> bool
    ensures { result ≡ holds sought.now (slot_at slots.now slot) }
{
    match pair_at(slots, slot) {
        Some(pair) => pair.key.is_sought(sought),
        None => false,
    }
}

/// Whether the slot holds the key's pair.
fn is_of_at(slots: &[Option<Pair>], slot: u16, key: &Key) -> bool
    ensures { result ≡ holds key.now (slot_at slots.now slot) }
{
    match pair_at(slots, slot) {
        Some(pair) => pair.key.is_same(key),
        None => false,
    }
}

/// Whether the slot holds a pair of the place that is looked for.
fn is_near_at(slots: &[Option<Pair>], slot: u16, changed: &Lookup<'_>) -> bool
    ensures { result ≡ holds_near changed.now (slot_at slots.now slot) }
{
    match pair_at(slots, slot) {
        Some(pair) => pair.key.is_at(changed),
        None => false,
    }
}

/// The slot of the pair of the key that is looked for.
pub fn slot_sought(slots: &[Option<Pair>], names: &[Named], sought: &Lookup<'_>) -> Option<u16>
    requires { IsNamed slots.now names.now }
    ensures some { IfSome result (λ s. holds sought.now (slot_at slots.now s) ≡ true) }
    ensures none { result ≡ None → (s : ℕ) → holds sought.now (slot_at slots.now s) ≡ false }
{
    let rank = u64::from(sought.rank());
    'each: for name in row_of(names, rank, rank + 1) {
        if is_sought_at(slots, name.slot, sought) {
            return Some(name.slot);
        }
    }
    None
}

/// The slot of the key's pair.
pub fn slot_of(slots: &[Option<Pair>], names: &[Named], key: &Key) -> Option<u16>
    requires { IsNamed slots.now names.now }
    ensures some { IfSome result (λ s. holds key.now (slot_at slots.now s) ≡ true) }
    ensures none { result ≡ None → (s : ℕ) → holds key.now (slot_at slots.now s) ≡ false }
{
    let rank = u64::from(key.rank());
    'each: for name in row_of(names, rank, rank + 1) {
        if is_of_at(slots, name.slot, key) {
            return Some(name.slot);
        }
    }
    None
}

/// The slot of a pair of the place that is looked for. The keys of a place are in one row of ranks.
pub fn slot_near(slots: &[Option<Pair>], names: &[Named], changed: &Lookup<'_>) -> Option<u16>
    requires { IsNamed slots.now names.now }
    ensures some { IfSome result (λ s. holds_near changed.now (slot_at slots.now s) ≡ true) }
    ensures none { result ≡ None → (s : ℕ) → holds_near changed.now (slot_at slots.now s) ≡ false }
{
    let row = u64::from(changed.rank() / 65536);
    'each: for name in row_of(names, row * 65536, row * 65536 + 65536) {
        if is_near_at(slots, name.slot, changed) {
            return Some(name.slot);
        }
    }
    None
}
