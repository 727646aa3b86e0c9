//! Which entries are copied, and what their copies count.

ghost use Rattle.std.specs.Prelude.{ℕ, ◌≡◌, ◌++◌, ◌∷◌, [], List, get_or, is_none, is_some, slice_set, IfOk, None, OnOk, Some};
ghost use Rattle.exchange_model.specs.Rotating.{are_few, copies_with};
ghost use Rattle.journal_book.specs.Entries.{Written, done_of, entry_size};
ghost use Rattle.journal_book.specs.Views.{event_of, item_of};
ghost use Rattle.journal_copies.specs.Marking.{AreMarks, more_if, past_if};

use journal_book::{Entry, Event, Journal, Mark};
use limits::{MAX_COPIES, MAX_COPIES_LEN};
use std::alloc::{AllocError, Global};
use transformers::Relation;

/// A mark for each entry that is to be copied.
#[derive(Drop)]
pub struct Marks {
    marks: Vec<Option<Mark>>,
    /// how many copies these are
    count: u64,
    /// what they count
    bytes: u64,
}

/// Whether an entry says something that may be copied.
fn may_be_copied<R: Relation>(event: &Event<R>) -> bool
    ensures { result ≡ is_some (done_of (event_of event.now)) }
{
    match event {
        Event::Asked(_, _) => true,
        Event::Sent { .. } => true,
        Event::Heard { .. } => true,
        Event::Carried { .. } => true,
        _ => false,
    }
}

impl Marks {
    /// None, before the first entry.
    pub fn new(alloc: Global) -> Marks
        ensures marks { result.marks.items ≡ [] }
        ensures count { result.count ≡ 0 }
        ensures bytes { result.bytes ≡ 0 }
    {
        Marks {
            marks: Vec::new(alloc),
            count: 0,
            bytes: 0,
        }
    }

    /// The next entry is marked where it is remembered, or isn't.
    pub(crate) fn push<R: Relation>(
        &mut self,
        entry: &Entry<R>,
        kept: bool,
    ) -> Result<(), AllocError>
        ensures marks { OnOk result
            (self.new.marks.items ≡ self.old.marks.items ++ past_if kept ∷ []) }
        ensures count { OnOk result (self.new.count ≡ more_if kept 1 self.old.count) }
        ensures bytes { OnOk result
            (self.new.bytes ≡ more_if kept (entry_size (item_of entry.now)) self.old.bytes) }
    {
        if !kept {
            self.marks.push(None)?;
            return Ok(());
        }
        self.marks.push(Some(Mark::Past))?;
        self.count = self.count.saturating_add(1);
        self.bytes = self.bytes.saturating_add(entry.size());
        Ok(())
    }

    /// The mark of the entry with this number.
    pub fn get(&self, number: usize) -> Option<Mark>
        ensures { result ≡ get_or self.now.marks.items number None }
    {
        match self.marks.get(number) {
            Some(mark) => *mark,
            None => None,
        }
    }

    /// The marks, for all entries.
    pub fn as_slice(&self) -> &[Option<Mark>]
        ensures { result.now ≡ self.now.marks.items }
    {
        self.marks.as_slice()
    }

    /// Whether there is an entry with this number that has no mark.
    fn lacks(&self, number: usize) -> bool
        ensures { result
            ≡ is_none (get_or self.now.marks.items number (Some Mark.Past)) }
    {
        match self.marks.get(number) {
            Some(mark) => mark.is_none(),
            None => false,
        }
    }

    /// Counts the copy of an entry of this size, where it has no mark.
    fn count_in(&mut self, number: usize, size: u64)
        ensures marks { self.new.marks.items ≡ self.old.marks.items }
        ensures count { let lacks = is_none (get_or self.old.marks.items number (Some Mark.Past)) in
            self.new.count ≡ more_if lacks 1 self.old.count }
        ensures bytes { let lacks = is_none (get_or self.old.marks.items number (Some Mark.Past)) in
            self.new.bytes ≡ more_if lacks size self.old.bytes }
    {
        if !self.lacks(number) {
            return;
        }
        self.count = self.count.saturating_add(1);
        self.bytes = self.bytes.saturating_add(size);
    }

    /// Marks an entry as one on which an answer may rest.
    fn set(&mut self, number: usize)
        ensures marks { self.new.marks.items
            ≡ slice_set self.old.marks.items number (Some Mark.Ground) }
        ensures count { self.new.count ≡ self.old.count }
        ensures bytes { self.new.bytes ≡ self.old.bytes }
    {
        if let Some(mark) = self.marks.get_mut(number) {
            *mark = Some(Mark::Ground);
        }
    }

    /// An answer may rest on the entry with this number, where it may be copied.
    fn mark<R: Relation>(&mut self, journal: &Journal<R>, number: u32)
        requires { journal.now.given ≡ 0 }
        ensures { (t : ℕ) (gs : List ℕ) → AreMarks t journal.now.entries gs self.old
            → AreMarks t journal.now.entries (gs ++ number ∷ []) self.new }
    {
        let Some(entry) = journal.get(number as usize) else {
            return;
        };
        if !may_be_copied(&entry.event) {
            return;
        }
        self.count_in(number as usize, entry.size());
        self.set(number as usize);
    }

    /// An answer may rest on the entries with these numbers.
    pub fn mark_all<R: Relation>(&mut self, journal: &Journal<R>, numbers: &[u32])
        requires { journal.now.given ≡ 0 }
        ensures { (t : ℕ) (gs : List ℕ) → AreMarks t journal.now.entries gs self.old
            → AreMarks t journal.now.entries (gs ++ numbers.now) self.new }
    {
        'each: for number in numbers {
            self.mark(journal, *number);
        }
    }

    /// Whether the copies are half of a journal at most.
    pub fn are_few(&self) -> bool
        ensures { (t : ℕ) (ws : List Written) (gs : List ℕ) → AreMarks t ws gs self.now
            → result ≡ are_few (copies_with t ws gs) }
    {
        self.count <= MAX_COPIES && self.bytes <= MAX_COPIES_LEN
    }

    /// The same marks.
    pub fn copy(&self) -> Result<Marks, AllocError>
        ensures { (t : ℕ) (ws : List Written) (gs : List ℕ) → AreMarks t ws gs self.now
            → IfOk result (AreMarks t ws gs) }
    {
        let alloc = *self.marks.allocator();
        Ok(Marks {
            marks: Vec::from_slice(alloc, &self.marks)?,
            count: self.count,
            bytes: self.bytes,
        })
    }
}
