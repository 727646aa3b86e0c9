//! Entries of a journal, copied for who looks at it.

ghost use Rattle.std.specs.Prelude.{◌≡◌, ◌≤◌, ◌<◌, ◌+◌, ◌-◌, ◌++◌, length, map, take, drop, IfOk, OnOk};
ghost use Rattle.journal_book.specs.Views.{item_of};
ghost use Rattle.journal_extracts.specs.Extracts.{IsExtract, entries_at, entry_at, place_of};

use journal_book::{Entry, Journal};
use std::alloc::AllocError;
use transformers::Relation;

/// How many entries are copied at a time.
pub const MOST_COPIED: usize = 256;

/// How many bytes they count at most, but for the first of them.
pub const MOST_COPIED_LEN: u64 = 262_144;

/// Entries of a journal that follow each other.
#[derive(Drop)]
pub struct Extract<R: Relation> {
    /// how many entries the journal has
    pub total: usize,
    /// the number of the first of these
    pub first: usize,
    pub entries: Vec<Entry<R>>,
}

/// An entry, and its number.
#[derive(Drop)]
pub struct Numbered<R: Relation> {
    pub number: u32,
    pub entry: Entry<R>,
}

/// What an entry counts, where there is one.
fn size_at<R: Relation>(journal: &Journal<R>, number: usize) -> u64 {
    match journal.get(number) {
        Some(entry) => entry.size(),
        None => 0,
    }
}

/// Where the entries end that are copied from this number on: the first of them, and as many more
/// as count no more bytes in all than may be copied.
fn copied_end<R: Relation>(journal: &Journal<R>, from: usize) -> usize
    requires { from ≤ length journal.now.entries }
    ensures begin { from ≤ result }
    ensures within { result ≤ length journal.now.entries }
    ensures few { result ≤ from + 256 }
    ensures some { from < length journal.now.entries → from < result }
{
    let mut bytes: u64 = 0;
    let most = journal.len().min(from.saturating_add(MOST_COPIED));
    'each: for number in from..most {
        bytes = bytes.saturating_add(size_at(journal, number));
        if number > from && bytes > MOST_COPIED_LEN {
            return number;
        }
    }
    most
}

/// The entries from this number on that weren't given out, which come into this list in place of
/// what is there.
pub fn extract_of<R: Relation>(
    journal: &Journal<R>,
    from: usize,
    entries: Vec<Entry<R>>,
) -> Result<Extract<R>, AllocError>
    ensures { IfOk result (IsExtract journal.now from) }
{
    let first = from.max(journal.given());
    let start = first.min(journal.len());
    let end = copied_end(journal, start);
    let mut entries = entries;
    entries.clear();
    add_copies(&mut entries, journal, start, end)?;
    Ok(Extract {
        total: journal.len(),
        first,
        entries,
    })
}

/// Adds copies of the entries from one number to another to an empty list.
fn add_copies<R: Relation>(
    entries: &mut Vec<Entry<R>>,
    journal: &Journal<R>,
    from: usize,
    to: usize,
) -> Result<(), AllocError>
    requires empty { length entries.old.items ≡ 0 }
    requires here { journal.now.given ≤ from }
    requires order { from ≤ to }
    requires within { to ≤ length journal.now.entries }
    ensures copied { OnOk result (map item_of entries.new.items
        ≡ take (to - from) (drop from journal.now.entries)) }
    ensures count { OnOk result (from + length entries.new.items ≡ to) }
{
    'each: for number in from..to {
        let Some(entry) = journal.get(number) else {
            unreachable!()
        };
        entries.push(entry.copy()?)?;
    }
    Ok(())
}

/// The entries with these numbers, but for those given out and not kept, which come into
/// this list in place of what is there.
pub fn numbered_of<R: Relation>(
    journal: &Journal<R>,
    numbers: &[u32],
    entries: Vec<Numbered<R>>,
) -> Result<Vec<Numbered<R>>, AllocError>
    ensures placed { IfOk result (λ v.
        map place_of v.items ≡ entries_at journal.now numbers.now) }
    ensures few { IfOk result (λ v. length v.items ≤ length numbers.now) }
{
    let mut entries = entries;
    entries.clear();
    'each: for number in numbers {
        add_numbered(&mut entries, journal, *number)?;
    }
    Ok(entries)
}

/// Adds the entry with this number, where there is one that can be read.
fn add_numbered<R: Relation>(
    entries: &mut Vec<Numbered<R>>,
    journal: &Journal<R>,
    number: u32,
) -> Result<(), AllocError>
    ensures placed { OnOk result (map place_of entries.new.items
        ≡ map place_of entries.old.items ++ entry_at journal.now number) }
    ensures few { OnOk result (length entries.new.items ≤ length entries.old.items + 1) }
{
    if let Some(entry) = journal.get(number as usize) {
        let entry = entry.copy()?;
        entries.push(Numbered { number, entry })?;
    }
    Ok(())
}
