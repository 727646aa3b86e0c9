//! The timers of the links, in the order in which they run out.

ghost use Rattle.std.specs.Prelude.{ℕ, ◌≡◌, ◌≤◌, ◌<◌, List, Option, Some, length, insert, remove, vec_capacity, IfOk};
ghost use Rattle.endpoint_table.specs.declared.dues.Due.{Due as Timer};
ghost use Rattle.endpoint_table.specs.Dues.{Ordered, dues_from, first_due, first_places, inserted, is_before, put, removed, due_places};

use std::alloc::{AllocError, Global};

/// When the timer of the endpoint in a place runs out.
#[derive(Clone, Copy)]
pub struct Due {
    pub due: u64,
    pub place: usize,
}

/// Whether it runs out before the other.
fn is_before(one: &Due, other: &Due) -> bool
    ensures { result ≡ is_before one.now other.now }
{
    one.due < other.due || one.due == other.due && one.place < other.place
}

/// Where a timer stands, or belongs. It is looked for by halving.
fn place_due(dues: &[Due], due: &Due) -> usize
    requires { Ordered dues.now }
    ensures below { result ≤ length dues.now }
    ensures there { insert dues.now result due.now ≡ inserted due.now dues.now }
    ensures stands { (others : List Timer) → dues.now ≡ inserted due.now others
        → (result < length dues.now) × (remove dues.now result ≡ others) }
{
    dues.partition_point(
        |other: &Due| -> bool
            ensures { result ≡ is_before other.now due.entry.now }
        { is_before(other, due) },
    )
}

/// Takes out the timer of the endpoint in this place, which ran out then, if it ran.
fn remove_due(dues: &mut Vec<Due>, place: usize, due: Option<u64>)
    requires ordered { Ordered dues.old.items }
    requires was { dues.old.items ≡ put place due (removed place dues.old.items) }
    ensures items { dues.new.items ≡ removed place dues.old.items }
    ensures capacity { vec_capacity dues.old ≤ vec_capacity dues.new }
{
    if let Some(moment) = due {
        let at = place_due(dues.as_slice(), &Due { due: moment, place });
        dues.remove(at);
    }
}

/// Puts a timer in its place, for which there is room.
fn insert_due(dues: &mut Vec<Due>, due: Due)
    requires ordered { Ordered dues.old.items }
    requires room { length dues.old.items < vec_capacity dues.old }
    ensures items { dues.new.items ≡ inserted due dues.old.items }
    ensures capacity { vec_capacity dues.old ≤ vec_capacity dues.new }
{
    let at = place_due(dues.as_slice(), &due);
    if dues.insert(at, due).is_err() {
        unreachable!()
    }
}

/// Puts the timer of the endpoint in this place among them, if one runs.
pub fn put_due(dues: &mut Vec<Due>, place: usize, due: Option<u64>)
    requires ordered { Ordered dues.old.items }
    requires room { (m : ℕ) → due ≡ Some m → length dues.old.items < vec_capacity dues.old }
    ensures items { dues.new.items ≡ put place due dues.old.items }
    ensures capacity { vec_capacity dues.old ≤ vec_capacity dues.new }
{
    match due {
        Some(due) => insert_due(dues, Due { due, place }),
        None => {}
    }
}

/// The timer of the endpoint in this place is this one, if one runs, and no more the one before.
pub fn set_due(dues: &mut Vec<Due>, place: usize, before: Option<u64>, due: Option<u64>)
    requires ordered { Ordered dues.old.items }
    requires was { dues.old.items ≡ put place before (removed place dues.old.items) }
    requires room { (m : ℕ) → due ≡ Some m
        → length (removed place dues.old.items) < vec_capacity dues.old }
    ensures items { dues.new.items ≡ put place due (removed place dues.old.items) }
    ensures capacity { vec_capacity dues.old ≤ vec_capacity dues.new }
{
    remove_due(dues, place, before);
    put_due(dues, place, due);
}

/// The same timers, with a place for each of so many endpoints.
pub fn copy_dues(alloc: Global, dues: &[Due], endpoints: usize) -> Result<Vec<Due>, AllocError>
    ensures items { IfOk result (λ v. v.items ≡ dues.now) }
    ensures places { IfOk result (λ v. endpoints ≤ vec_capacity v) }
{
    let mut copy = Vec::with_capacity(alloc, endpoints)?;
    copy.extend_from_slice(dues)?;
    Ok(copy)
}

/// The places of the endpoints whose timers run out first, up to one that has not run out.
fn first_places(alloc: Global, dues: &[Due], moment: u64) -> Result<Vec<usize>, AllocError>
    ensures { IfOk result (λ v. v.items ≡ first_places moment dues.now) }
{
    let mut places = Vec::new(alloc);
    'each: for due in dues {
        if due.due > moment {
            return Ok(places);
        }
        places.push(due.place)?;
    }
    Ok(places)
}

/// The places of the endpoints whose timers have run out, in order.
pub fn due_places(alloc: Global, dues: &[Due], moment: u64) -> Result<Vec<usize>, AllocError>
    ensures { IfOk result (λ v. (ts : List (Option ℕ)) → dues.now ≡ dues_from 0 ts
        → v.items ≡ due_places moment 0 ts) }
{
    let mut places = first_places(alloc, dues, moment)?;
    places.sort_unstable();
    Ok(places)
}

/// When the first timer runs out.
pub fn first_due(dues: &[Due]) -> Option<u64>
    ensures { result ≡ first_due dues.now }
{
    match dues {
        [] => None,
        [first, ..] => Some(first.due),
    }
}
