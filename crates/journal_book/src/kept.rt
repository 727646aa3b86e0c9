//! Entries that were given out and are kept, since they are named still.

ghost use Rattle.std.specs.Prelude.{◌≡◌, ◌++◌, List, Some, None, true, false, filter, length, map, nat_lt, slice_get, IfOk, IfSome, OnSome};
ghost use Rattle.journal_book.specs.Entries.{Written};
ghost use Rattle.journal_book.specs.Journals.{Rise, is_among, is_of};
ghost use Rattle.journal_book.specs.Keeping.{AreOf, numbers_in};
ghost use Rattle.journal_book.specs.Views.{item_of};

use crate::entry::Entry;
use std::alloc::{AllocError, Global};
use transformers::Relation;

/// An entry that was given out, with its number.
#[derive(Drop)]
pub struct KeptEntry<R: Relation> {
    pub number: u32,
    pub entry: Entry<R>,
}

/// The one with this number, found by halving.
pub fn kept_at<R: Relation>(kept: &[KeptEntry<R>], number: usize) -> Option<&Entry<R>>
    requires { Rise (numbers_in kept.now) }
    ensures entry { IfSome result (λ e. (ws : List Written) → AreOf ws kept.now
        → slice_get ws number ≡ Some (item_of e.now)) }
    ensures some { OnSome result (is_among (numbers_in kept.now) number ≡ true) }
    ensures none { result ≡ None → is_among (numbers_in kept.now) number ≡ false }
{
    let place = kept.partition_point(
        |kept: &KeptEntry<R>| -> bool
            ensures { result ≡ nat_lt kept.now.number number }
        { (kept.number as usize) < number },
    );
    let found = kept.get(place)?;
    if found.number as usize == number {
        Some(&found.entry)
    } else {
        None
    }
}

/// Whether the number is named.
fn is_named(named: &[u32], number: u32) -> bool
    requires { Rise named.now }
    ensures { result ≡ is_among named.now number }
{
    named.binary_search(&number).is_ok()
}

/// Keeps what is named.
pub fn keep_named<R: Relation>(kept: &mut Vec<KeptEntry<R>>, named: &[u32])
    requires { Rise named.now }
    ensures numbers { numbers_in kept.new.items
        ≡ filter (is_among named.now) (numbers_in kept.old.items) }
    ensures entries { (ws : List Written) → AreOf ws kept.old.items → AreOf ws kept.new.items }
{
    kept.retain(|kept| is_named(named, kept.number));
}

/// The entry with this number of a segment, the first of which has that one.
fn entry_in<R: Relation>(segment: &[Entry<R>], first: usize, number: u32) -> Option<&Entry<R>>
    ensures some { OnSome result (is_of first (length segment.now) number ≡ true) }
    ensures none { result ≡ None → is_of first (length segment.now) number ≡ false }
    ensures entry { IfSome result (λ e. (ws : List Written) → length ws ≡ first
        → slice_get (ws ++ map item_of segment.now) number ≡ Some (item_of e.now)) }
{
    let place = (number as usize).checked_sub(first)?;
    segment.get(place)
}

/// Copies of the entries of a segment that are named, the first of which has this number.
pub fn copy_named<R: Relation>(
    alloc: Global,
    segment: &[Entry<R>],
    first: usize,
    named: &[u32],
) -> Result<Vec<KeptEntry<R>>, AllocError>
    ensures numbers { IfOk result (λ v. numbers_in v.items
        ≡ filter (is_of first (length segment.now)) named.now) }
    ensures entries { IfOk result (λ v. (ws : List Written) → length ws ≡ first
        → AreOf (ws ++ map item_of segment.now) v.items) }
{
    let mut copies = Vec::new(alloc);
    'each: for number in named {
        if let Some(entry) = entry_in(segment, first, *number) {
            copies.push(KeptEntry {
                number: *number,
                entry: entry.copy()?,
            })?;
        }
    }
    Ok(copies)
}
