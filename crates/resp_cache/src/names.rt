//! The index of pairs: the numbers of their slots in the order of the ranks of their keys.

ghost use Rattle.std.specs.Prelude.{◌≡◌, ◌≤◌, ◌<◌, ◌+◌, ◌∷◌, [], None, Option, List, Some, filter, length, nat_lt, not, remove, slice_get, take, vec_capacity, vec_len};
ghost use Rattle.std.specs.List.{AllByRecursion};
ghost use Rattle.cache_key.specs.Digests.{rank_of};
ghost use Rattle.resp_cache.specs.Names.{Ascend, IsFirstFrom, IsNamed, names_other, names_slot, rank_in, ranks_below, ranks_within};
ghost use Rattle.resp_cache.specs.Slots.{Puts, slot_at};
ghost use Rattle.resp_cache.specs.declared.names.Named.{Named as Name};
ghost use Rattle.resp_cache.specs.declared.pair.Pair.{Pair as Row};

/// A slot in the index.
#[derive(Clone, Copy)]
pub struct Named {
    /// the rank of the key whose pair stands in it
    pub rank: u32,
    pub slot: u16,
}

/// The first place of those of this rank or a higher one.
fn first_from(names: &[Named], rank: u64) -> usize
    requires { Ascend rank_in names.now }
    ensures { IsFirstFrom rank names.now result }
{
    names.partition_point(
        |name: &Named| -> bool
            ensures { result ≡ nat_lt name.now.rank rank }
        { u64::from(name.rank) < rank },
    )
}

/// Whether what stands in this place is of a rank below this one.
fn is_below(names: &[Named], place: usize, rank: u64) -> bool
    ensures { result ≡ ranks_below rank (slice_get names.now place) }
{
    match names.get(place) {
        Some(name) => u64::from(name.rank) < rank,
        None => false,
    }
}

/// The first place of those of this rank or a higher one, where those before `first` are lower.
fn end_before(names: &[Named], first: usize, rank: u64) -> usize
    requires order { Ascend rank_in names.now }
    requires within { first ≤ length names.now }
    requires before { AllByRecursion (λ (n : Name). n.rank < rank) (take first names.now) }
    ensures end { IsFirstFrom rank names.now result }
    ensures behind { first ≤ result }
{
    let mut end = first;
    'each: while is_below(names, end, rank) {
        end += 1;
    }
    end
}

/// Those whose ranks are from this one to before the other.
pub fn row_of(names: &[Named], from: u64, to: u64) -> &[Named]
    requires order { Ascend rank_in names.now }
    requires rise { from ≤ to }
    ensures { result.now ≡ filter (ranks_within from to) names.now }
{
    let first = first_from(names, from);
    let end = end_before(names, first, to);
    &names[first..end]
}

/// Puts the slot into the index, for which there is a place.
pub fn put_name(names: &mut Vec<Named>, rank: u32, slot: u16)
    requires order { Ascend rank_in names.old.items }
    requires place { vec_len names.old < vec_capacity names.old }
    ensures named { (slots after : List (Option Row)) (p : Row)
        → rank_of p.key ≡ rank → slot_at slots slot ≡ None → Puts slots after slot (Some p)
        → IsNamed slots names.old.items → IsNamed after names.new.items }
    ensures len { vec_len names.new ≡ vec_len names.old + 1 }
    ensures capacity { vec_capacity names.new ≡ vec_capacity names.old }
{
    let place = first_from(names.as_slice(), u64::from(rank));
    if names.insert(place, Named { rank, slot }).is_err() {
        unreachable!()
    }
}

/// Whether another slot stands in this place.
fn is_other(names: &[Named], place: usize, slot: u16) -> bool
    ensures { result ≡ names_other slot (slice_get names.now place) }
{
    match names.get(place) {
        Some(name) => name.slot != slot,
        None => false,
    }
}

/// The place of the slot, which stands there under this rank.
fn place_of_slot(names: &[Named], rank: u32, slot: u16) -> usize
    requires order { Ascend rank_in names.now }
    requires there { filter (names_slot slot) names.now
        ≡ record { rank = rank; slot = slot } ∷ [] }
    ensures within { result < length names.now }
    ensures only { filter (λ n. not (names_slot slot n)) names.now ≡ remove names.now result }
{
    let mut place = first_from(names, u64::from(rank));
    'each: while is_other(names, place, slot) {
        place += 1;
    }
    place
}

/// Takes the slot out of the index, where it stands under this rank.
pub fn drop_name(names: &mut Vec<Named>, rank: u32, slot: u16)
    requires order { Ascend rank_in names.old.items }
    requires there { filter (names_slot slot) names.old.items
        ≡ record { rank = rank; slot = slot } ∷ [] }
    ensures items { names.new.items ≡ filter (λ n. not (names_slot slot n)) names.old.items }
    ensures len { vec_len names.new + 1 ≡ vec_len names.old }
    ensures capacity { vec_capacity names.new ≡ vec_capacity names.old }
{
    let place = place_of_slot(names.as_slice(), rank, slot);
    names.remove(place);
}
