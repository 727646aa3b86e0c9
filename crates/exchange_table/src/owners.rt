//! Which exchanges have fetched pieces: for any other nothing is gone through.

ghost use Rattle.std.specs.Prelude.{◌≡◌, ◌≤◌, ◌<◌, ◌||◌, ℕ, None, IfSome, filter, length, nat_lt, not, vec_capacity, vec_len};
ghost use Rattle.std.specs.List.{list_any};
ghost use Rattle.exchange_table.specs.Fetched.{is_number, is_of_another, itself};
ghost use Rattle.exchange_table.specs.Places.{RiseBy, IsOnlyAt, IsNowhere};
ghost use Rattle.exchange_table.specs.Tables.{opening_of};

use crate::places::is_opened;
use exchange_model::Exchange;

/// The place of the owner with this opening.
pub fn owner_place(owners: &[u32], opening: u32) -> Option<usize>
    requires { RiseBy itself owners.now }
    ensures below { IfSome result (λ i. i < length owners.now) }
    ensures some { IfSome result (IsOnlyAt (is_number opening) owners.now) }
    ensures none { result ≡ None → IsNowhere (is_number opening) owners.now }
{
    let place = owners.partition_point(
        |owner: &u32| -> bool
            ensures { result ≡ nat_lt owner.now opening }
        { *owner < opening },
    );
    let owner = owners.get(place)?;
    if *owner == opening { Some(place) } else { None }
}

/// Whether the exchange with this opening is an owner.
pub fn is_owner(owners: &[u32], opening: u32) -> bool
    requires { RiseBy itself owners.now }
    ensures { result ≡ list_any (is_number opening) owners.now }
{
    owner_place(owners, opening).is_some()
}

/// Notes that the exchange with this opening has fetched a piece, for which there is a place.
pub fn note_owner(owners: &mut Vec<u32>, opening: u32)
    requires order { RiseBy itself owners.old.items }
    requires place { vec_len owners.old < vec_capacity owners.old }
    ensures order { RiseBy itself owners.new.items }
    ensures noted { (o : ℕ) → list_any (is_number o) owners.new.items
        ≡ (list_any (is_number o) owners.old.items || is_number o opening) }
{
    if is_owner(owners.as_slice(), opening) {
        return;
    }
    let place = owners.partition_point(
        |owner: &u32| -> bool
            ensures { result ≡ nat_lt owner.now opening }
        { *owner < opening },
    );
    if owners.insert(place, opening).is_err() {
        unreachable!()
    }
}

/// Takes out the openings of these exchanges.
pub fn drop_owners(owners: &mut Vec<u32>, over: &[Exchange])
    requires { RiseBy opening_of over.now }
    ensures owners { owners.new.items ≡ filter (is_of_another over.now) owners.old.items }
    ensures fewer { vec_len owners.new ≤ vec_len owners.old }
    ensures capacity { vec_capacity owners.new ≡ vec_capacity owners.old }
{
    owners.retain(|owner| !is_opened(over, *owner));
}
