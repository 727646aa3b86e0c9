//! Segments of entries: none is moved when more come.

ghost use Rattle.std.specs.Prelude.{ℕ, ◌≡◌, ◌≤◌, ◌<◌, ◌+◌, ◌-◌, ◌*◌, ◌∷◌, ◌++◌, [], length, map, take, Some, MatchOption, OnOk, OnErr, slice_get, slice_index_or, vec_len};
ghost use Rattle.journal_book.specs.Segments.{AreFilled, entries_in};
ghost use Rattle.journal_book.specs.Views.{item_of};

use crate::entry::Entry;
use std::alloc::{AllocError, Global};
use transformers::Relation;

/// How many entries a segment has places for.
pub const SEGMENT_LEN: usize = 1024;

/// More segments have no addresses.
pub const MAX_SEGMENTS: usize = 1 << 53;

/// The entry with this number.
pub fn entry_at<R: Relation>(segments: &[Vec<Entry<R>>], number: usize) -> Option<&Entry<R>>
    ensures { (n : ℕ) → AreFilled segments.now n
        → MatchOption result (length (entries_in segments.now) ≤ number)
        (λ e. slice_get (entries_in segments.now) number ≡ Some (item_of e.now)) }
{
    match segments.get(number / SEGMENT_LEN) {
        Some(segment) => segment.get(number % SEGMENT_LEN),
        None => None,
    }
}

/// Puts an entry last, behind so many.
pub fn put_entry<R: Relation>(segments: &mut Vec<Vec<Entry<R>>>, len: usize, entry: Entry<R>)
    requires filled { AreFilled segments.old.items len }
    requires room { len < 1024 * vec_len segments.old }
    ensures filled { AreFilled segments.new.items (len + 1) }
    ensures entries { entries_in segments.new.items
        ≡ entries_in segments.old.items ++ item_of entry ∷ [] }
    ensures places { vec_len segments.new ≡ vec_len segments.old }
{
    segments[len / SEGMENT_LEN].push_reserved(entry);
}

/// Takes the last of so many entries out.
pub fn take_entry<R: Relation>(segments: &mut Vec<Vec<Entry<R>>>, len: usize)
    requires filled { AreFilled segments.old.items len }
    requires some { 0 < len }
    ensures filled { AreFilled segments.new.items (len - 1) }
    ensures entries { entries_in segments.new.items
        ≡ take (len - 1) (entries_in segments.old.items) }
    ensures places { vec_len segments.new ≡ vec_len segments.old }
{
    let last = len - 1;
    segments[last / SEGMENT_LEN].truncate(last % SEGMENT_LEN);
}

/// Takes the first of the segments out, which hold so many entries, where it is full. The others hold
/// the number that is given back beside it.
pub fn take_first<R: Relation>(
    segments: &mut Vec<Vec<Entry<R>>>,
    held: usize,
) -> (Vec<Entry<R>>, usize)
    requires filled { AreFilled segments.old.items held }
    requires full { 1024 ≤ held }
    ensures filled { AreFilled segments.new.items result.1 }
    ensures first { result.0 ≡ slice_index_or segments.old.items 0 result.0 }
    ensures count { result.1 + 1024 ≡ held }
    ensures entries { map item_of result.0.items ++ entries_in segments.new.items
        ≡ entries_in segments.old.items }
    ensures len { length result.0.items ≡ 1024 }
    ensures places { vec_len segments.new + 1 ≡ vec_len segments.old }
{
    (segments.remove(0), held - SEGMENT_LEN)
}

/// Puts one more empty segment last.
pub fn begin_segment<R: Relation>(
    alloc: Global,
    segments: &mut Vec<Vec<Entry<R>>>,
) -> Result<(), AllocError>
    ensures filled { (n : ℕ) → AreFilled segments.old.items n → AreFilled segments.new.items n }
    ensures entries { entries_in segments.new.items ≡ entries_in segments.old.items }
    ensures ok { OnOk result (vec_len segments.new ≡ vec_len segments.old + 1) }
    ensures err { OnErr result (vec_len segments.new ≡ vec_len segments.old) }
{
    let segment = Vec::with_capacity(alloc, SEGMENT_LEN)?;
    segments.reserve(1)?;
    segments.push_reserved(segment);
    Ok(())
}
