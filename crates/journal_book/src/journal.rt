//! A list of entries, to which more are added at its end.

ghost use Rattle.std.specs.Prelude.{ℕ, ◌≡◌, ◌≤◌, ◌<◌, ◌+◌, ◌-◌, ◌==◌, ◌↔◌, ◌⊎◌, ◌∷◌, ◌++◌, [], Some, true, length, map, MatchOption, IfOk, IfNone, IfSome, OnOk, OnErr, OnSome, slice_get, take, drop};
ghost use Rattle.journal_book.specs.Journals.{IsHere, Rise, is_among, kept_after};
ghost use Rattle.journal_book.specs.Views.{item_of};

use crate::entry::Entry;
use crate::kept::{KeptEntry, copy_named, keep_named, kept_at};
use crate::past::{MAX_GIVEN, make_past, pass_on};
use crate::segments::{
    MAX_SEGMENTS, SEGMENT_LEN, begin_segment, entry_at, put_entry, take_entry, take_first,
};
use passed_items::Passed;
use std::alloc::{AllocError, Global};
use std::marker::Model;
use transformers::Relation;

/// Entries in their order, to which more are added at the end, or which is cut to the first of
/// them. They stand in segments, whose places are made as they are needed: no entry is moved when
/// more come. The first segments may be given out: their entries are the journal's as before, but
/// stand in its memory no more, except for copies of those that are named still.
#[derive(Drop)]
pub struct Journal<R: Relation> {
    alloc: Global,
    /// the segments that were given out, made when the first one is
    past: Option<Passed<Vec<Entry<R>>>>,
    /// how many entries were given out
    given: usize,
    /// copies of some of these, in the order of their numbers
    kept: Vec<KeptEntry<R>>,
    segments: Vec<Vec<Entry<R>>>,
    /// how many entries the segments hold
    held: usize,
}

impl<R: Relation> Model for Journal<R> {
    ghost use Rattle.std.specs.Prelude.{◌≡◌, ◌≤◌, ◌-◌, ◌*◌, ◌^◌, ◌++◌, length, vec_len};
    ghost use Rattle.journal_book.specs.Journals.{JournalValue, Rise};
    ghost use Rattle.journal_book.specs.Keeping.{AreOf, numbers_in};
    ghost use Rattle.journal_book.specs.Past.{past_in};
    ghost use Rattle.journal_book.specs.Segments.{AreFilled, entries_in};

    ghost Value = { JournalValue };

    ghost view = { λ j. record {
      entries = past_in j.past ++ entries_in j.segments.items;
      given = j.given;
      kept = numbers_in j.kept.items;
      room = 1024 * vec_len j.segments - j.held;
    } };

    ghost invariant = { λ j. AreFilled j.segments.items j.held × (vec_len j.segments ≤ 2 ^ 53)
        × (j.given ≡ length (past_in j.past)) × (j.given ≤ 2 ^ 62)
        × Rise (numbers_in j.kept.items) × AreOf (past_in j.past) j.kept.items };
}

impl<R: Relation> Journal<R> {
    /// A journal with no entry.
    pub fn new(alloc: Global) -> Journal<R>
        ensures entries { result.entries ≡ [] }
        ensures given { result.given ≡ 0 }
        ensures kept { result.kept ≡ [] }
    {
        Journal {
            alloc,
            past: None,
            given: 0,
            kept: Vec::new(alloc),
            segments: Vec::new(alloc),
            held: 0,
        }
    }

    /// The number of entries, which is that of the next one.
    pub fn len(&self) -> usize
        ensures { result ≡ length self.now.entries }
    {
        self.given + self.held
    }

    /// How many of the first entries were given out.
    pub fn given(&self) -> usize
        ensures value { result ≡ self.now.given }
        ensures within { result ≤ length self.now.entries }
    {
        self.given
    }

    /// Whether there is none.
    pub fn is_empty(&self) -> bool
        ensures { result ≡ (length self.now.entries == 0) }
    {
        self.len() == 0
    }

    /// The entry with this number, counted from 0, where it wasn't given out or is kept.
    pub fn get(&self, number: usize) -> Option<&Entry<R>>
        ensures entry { MatchOption result
            (IsHere self.now.given self.now.kept number → length self.now.entries ≤ number) (λ e.
            slice_get self.now.entries number ≡ Some (item_of e.now)) }
        ensures here { OnSome result (IsHere self.now.given self.now.kept number) }
    {
        match number.checked_sub(self.given) {
            Some(place) => entry_at(&self.segments, place),
            None => kept_at(&self.kept, number),
        }
    }

    /// How many entries there are places for.
    fn room(&self) -> usize
        ensures { result ≡ self.now.room }
    {
        self.segments.len() * SEGMENT_LEN - self.held
    }

    /// Makes the places of one more segment.
    fn begin(&mut self) -> Result<(), AllocError>
        ensures same { self.new.entries ≡ self.old.entries }
        ensures given { self.new.given ≡ self.old.given }
        ensures kept { self.new.kept ≡ self.old.kept }
        ensures ok { OnOk result (self.new.room ≡ self.old.room + 1024) }
        ensures err { OnErr result (self.new.room ≡ self.old.room) }
    {
        if self.segments.len() >= MAX_SEGMENTS {
            return Err(AllocError);
        }
        begin_segment(self.alloc, &mut self.segments)
    }

    /// Makes room for n more entries, with which adding them takes no memory.
    pub fn make_room(&mut self, n: usize) -> Result<(), AllocError>
        ensures same { self.new.entries ≡ self.old.entries }
        ensures given { self.new.given ≡ self.old.given }
        ensures kept { self.new.kept ≡ self.old.kept }
        ensures ok { OnOk result (n ≤ self.new.room) }
        ensures room { self.old.room ≤ self.new.room }
    {
        'each: while self.room() < n {
            self.begin()?;
        }
        Ok(())
    }

    /// Adds an entry at the end.
    pub fn add(&mut self, entry: Entry<R>)
        requires { 0 < self.old.room }
        ensures entries { self.new.entries ≡ self.old.entries ++ item_of entry ∷ [] }
        ensures given { self.new.given ≡ self.old.given }
        ensures kept { self.new.kept ≡ self.old.kept }
        ensures room { self.new.room + 1 ≡ self.old.room }
    {
        put_entry(&mut self.segments, self.held, entry);
        self.held += 1;
    }

    /// Takes the last entry out.
    fn take_last(&mut self)
        requires { self.old.given < length self.old.entries }
        ensures entries { self.new.entries
            ≡ take (length self.old.entries - 1) self.old.entries }
        ensures given { self.new.given ≡ self.old.given }
        ensures kept { self.new.kept ≡ self.old.kept }
        ensures room { self.new.room ≡ self.old.room + 1 }
    {
        take_entry(&mut self.segments, self.held);
        self.held -= 1;
    }

    /// Keeps the first n entries, for one who takes back what added the others. None of these may
    /// have been given out.
    pub fn cut(&mut self, n: usize)
        requires { self.old.given ≤ n }
        ensures entries { self.new.entries ≡ take n self.old.entries }
        ensures given { self.new.given ≡ self.old.given }
        ensures kept { self.new.kept ≡ self.old.kept }
        ensures room { self.old.room ≤ self.new.room }
        ensures whole { n ≤ length self.old.entries
            → self.new.room + n ≡ self.old.room + length self.old.entries }
    {
        'each: while self.len() > n {
            self.take_last();
        }
    }

    /// Takes the first segment out, where it is full, and hands it to the caller. The entries stay
    /// the journal's, and keep their numbers; those that are named can be read still.
    pub fn give(&mut self, named: &[u32]) -> Result<Option<Vec<Entry<R>>>, AllocError>
        requires { Rise named.now }
        ensures entries { self.new.entries ≡ self.old.entries }
        ensures room { self.new.room ≡ self.old.room }
        ensures some { IfOk result (λ o. IfSome o (λ segment.
            (map item_of segment.items ≡ take 1024 (drop self.old.given self.old.entries))
            × (self.new.given ≡ self.old.given + 1024)
            × (self.new.given ≤ length self.new.entries))) }
        ensures kept { IfOk result (λ o.
            OnSome o (self.new.kept ≡ kept_after self.old.given self.old.kept named.now)) }
        ensures here { IfOk result (λ o. OnSome o ((n : ℕ) →
            IsHere self.new.given self.new.kept n ↔ ((self.new.given ≤ n)
            ⊎ (IsHere self.old.given self.old.kept n × (is_among named.now n ≡ true))))) }
        ensures none { IfOk result (λ o. IfNone o ((self.new.given ≡ self.old.given)
            × (self.new.kept ≡ self.old.kept)
            × (length self.old.entries < self.old.given + 1024))) }
        ensures err { OnErr result ((self.new.given ≡ self.old.given)
            × (self.new.kept ≡ self.old.kept)) }
    {
        let held = self.held;
        if held < SEGMENT_LEN {
            return Ok(None);
        }
        let given = self.given;
        if given > MAX_GIVEN {
            return Err(AllocError);
        }
        make_past(self.alloc, &mut self.past)?;
        let mut copies = copy_named(self.alloc, &self.segments[0], given, named)?;
        self.kept.append(&mut copies)?;
        keep_named(&mut self.kept, named);
        let (segment, left) = take_first(&mut self.segments, held);
        let segment = pass_on(&mut self.past, segment);
        self.given = given + SEGMENT_LEN;
        self.held = left;
        Ok(Some(segment))
    }

    /// A journal with entries equal to those that weren't given out.
    #[tactic(auto, using(crate::proofs::Filled::none_first))]
    pub fn copy(&self) -> Result<Journal<R>, AllocError>
        ensures entries { IfOk result (λ j. j.entries ≡ drop self.now.given self.now.entries) }
        ensures given { IfOk result (λ j. j.given ≡ 0) }
        ensures kept { IfOk result (λ j. j.kept ≡ []) }
    {
        let mut copy = Journal::new(self.alloc);
        let first = self.given();
        copy.make_room(self.len() - first)?;
        'each: for number in first..self.len() {
            if let Some(entry) = self.get(number) {
                copy.add(entry.copy()?);
            }
        }
        Ok(copy)
    }
}
