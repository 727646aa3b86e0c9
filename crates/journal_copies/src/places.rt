//! Where copies stand.

ghost use Rattle.std.specs.Prelude.{ℕ, ◌≡◌, ◌≤◌, List, get_or, length, map, IfOk};
ghost use Rattle.limits.specs.declared.TheConstants.{MAX_ENTRIES};
ghost use Rattle.exchange_model.specs.Rotating.{copies_with, pair_at};
ghost use Rattle.journal_book.specs.Entries.{Written};
ghost use Rattle.journal_copies.specs.Carrying.{ArePlaces, moved_pair, place_by, place_in, taken_as};
ghost use Rattle.journal_copies.specs.Marking.{AreMarks, count_some, one_of};

use crate::marks::Marks;
use crate::taking::Taken;
use journal_book::Mark;
use resp_cache::Pair;
use std::alloc::{AllocError, Global};

/// Where the copy of each entry stands. Where it has none, how many copies there are.
#[derive(Drop)]
struct Places {
    places: Vec<u32>,
    count: u32,
}

/// How many copies an entry has.
fn one_of(mark: &Option<Mark>) -> u32
    ensures one { result ≡ one_of mark.now }
    ensures small { result ≤ 1 }
{
    match mark {
        Some(_) => 1,
        None => 0,
    }
}

/// Where the copy of an entry stands that comes after so many, of so many.
fn place_by(mark: &Option<Mark>, next: u32, count: u32) -> u32
    ensures { result ≡ place_by mark.now next count }
{
    match mark {
        Some(_) => next,
        None => count,
    }
}

/// How many are copied.
fn count_of(marks: &[Option<Mark>]) -> u32
    requires { length marks.now ≤ MAX_ENTRIES }
    ensures { result ≡ count_some marks.now }
{
    let mut count = 0;
    'each: for mark in marks {
        count += one_of(mark);
    }
    count
}

impl Places {
    /// The places of the copies of what is marked.
    fn of(alloc: Global, marks: &[Option<Mark>]) -> Result<Places, AllocError>
        requires { length marks.now ≤ MAX_ENTRIES }
        ensures { IfOk result (ArePlaces marks.now) }
    {
        let count = count_of(marks);
        let mut places = Vec::new(alloc);
        let mut next = 0;
        'each: for mark in marks {
            places.push(place_by(mark, next, count))?;
            next += one_of(mark);
        }
        Ok(Places { places, count })
    }

    /// The place of the copy of the entry with this number.
    fn get(&self, number: u32) -> u32
        ensures { result ≡ place_in self.now number }
    {
        match self.places.get(number as usize) {
            Some(place) => *place,
            None => self.count,
        }
    }

    /// The places of the copies of these entries.
    fn all(&self, numbers: &[u32]) -> Result<Vec<u32>, AllocError>
        ensures { IfOk result (λ v. v.items ≡ map (place_in self.now) numbers.now) }
    {
        let mut places = Vec::new(*self.places.allocator());
        'each: for number in numbers {
            places.push(self.get(*number))?;
        }
        Ok(places)
    }
}

/// The pair, which names the entries that it rests on by the places of their copies. It shares key
/// and response.
fn moved(alloc: Global, places: &Places, pair: &Pair) -> Result<Pair, AllocError>
    ensures { IfOk result (λ p. p ≡ moved_pair (place_in places.now) pair.now) }
{
    let opening = places.get(pair.stored.opening());
    let list = places.all(pair.stored.list())?;
    Ok(Pair {
        key: pair.key.share()?,
        stored: pair.stored.carried(alloc, opening, list)?,
    })
}

/// The pairs that are carried over, which name the entries that they rest on by the places of their
/// copies.
pub fn renumbered(alloc: Global, marks: &Marks, taken: &[Taken]) -> Result<Vec<Pair>, AllocError>
    requires { length marks.now.marks.items ≤ MAX_ENTRIES }
    ensures { (t : ℕ) (ws : List Written) (gs : List ℕ) → AreMarks t ws gs marks.now
        → IfOk result (λ v. v.items
        ≡ map (pair_at (copies_with t ws gs)) (map taken_as taken.now)) }
{
    let places = Places::of(alloc, marks.as_slice())?;
    let mut pairs = Vec::new(alloc);
    'each: for carried in taken {
        pairs.push(moved(alloc, &places, &carried.pair)?)?;
    }
    Ok(pairs)
}
