//! Which stored responses are carried over.

ghost use Rattle.std.specs.Prelude.{ℕ, ◌≡◌, ◌≤◌, ◌++◌, [], List, length, map, option_map, if◌then◌else◌, IfOk};
ghost use Rattle.limits.specs.declared.TheConstants.{MAX_ENTRIES};
ghost use Rattle.exchange_model.specs.Backing.{backing};
ghost use Rattle.exchange_model.specs.Rotating.{Backed, are_few, carried_numbers, copies_with, few_of};
ghost use Rattle.journal_book.specs.Entries.{Written};
ghost use Rattle.journal_copies.specs.Carrying.{GoesOn, IsChoice, backed_in, taken_as};
ghost use Rattle.journal_copies.specs.Marking.{AreMarks};
ghost use Rattle.journal_copies.specs.Tracing.{AreTraced};

use crate::marks::Marks;
use crate::traces::Traces;
use journal_book::Journal;
use resp_cache::{Pair, StoredResponse};
use std::alloc::{AllocError, Global};
use transformers::Relation;

/// A pair that is carried over, and the numbers of the entries that it rests on.
#[derive(Drop)]
pub struct Taken {
    pub pair: Pair,
    pub numbers: Vec<u32>,
}

/// The pairs that are carried over, and the marks of what is copied with them.
#[derive(Drop)]
pub struct Choice {
    pub marks: Marks,
    pub taken: Vec<Taken>,
}

/// What a stored response rests on, where each of its replies is one to a message.
fn backing_of(
    alloc: Global,
    traces: &Traces,
    stored: &StoredResponse,
) -> Result<Option<Vec<u32>>, AllocError>
    ensures { (ws : List Written) → AreTraced ws traces.now.replied.items
        → IfOk result (λ o. option_map (λ v. v.items) o ≡ backing ws stored.now) }
{
    let mut numbers = Vec::new(alloc);
    numbers.push(stored.opening())?;
    'each: for reply in stored.list() {
        let Some(sending) = traces.replied_to(*reply) else {
            return Ok(None);
        };
        numbers.push(sending)?;
        numbers.push(*reply)?;
    }
    Ok(Some(numbers))
}

/// Marks these entries, where the copies are few with theirs. On trial they are marked in any case.
fn mark_few<R: Relation>(
    journal: &Journal<R>,
    trial: &mut Marks,
    marks: &mut Marks,
    numbers: &[u32],
) -> bool
    requires { journal.now.given ≡ 0 }
    ensures few { (t : ℕ) (gs : List ℕ) → AreMarks t journal.now.entries gs trial.old
        → result ≡ are_few (copies_with t journal.now.entries (gs ++ numbers.now)) }
    ensures trial { (t : ℕ) (gs : List ℕ) → AreMarks t journal.now.entries gs trial.old
        → AreMarks t journal.now.entries (gs ++ numbers.now) trial.new }
    ensures marks { (t : ℕ) (gs : List ℕ) → AreMarks t journal.now.entries gs marks.old
        → AreMarks t journal.now.entries (gs ++ (if result then numbers.now else [])) marks.new }
{
    trial.mark_all(journal, numbers);
    if !trial.are_few() {
        return false;
    }
    marks.mark_all(journal, numbers);
    true
}

/// Takes a pair where it is fresh at this moment and each of its replies is one to a message, as
/// long as the copies are few; and tells whether that is so.
fn take<R: Relation>(
    alloc: Global,
    journal: &Journal<R>,
    moment: u64,
    traces: &Traces,
    trial: &mut Marks,
    choice: &mut Choice,
    pair: &Pair,
) -> Result<bool, AllocError>
    requires whole { journal.now.given ≡ 0 }
    requires traced { AreTraced journal.now.entries traces.now.replied.items }
    requires choice { IsChoice moment journal.now.entries trial.old choice.old }
    ensures { (bs : List Backed) → IfOk result (GoesOn moment journal.now.entries bs pair.now
        choice.old trial.new choice.new) }
{
    if !pair.stored.is_fresh(moment) {
        return Ok(true);
    }
    let Some(numbers) = backing_of(alloc, traces, &pair.stored)? else {
        return Ok(true);
    };
    let pair = pair.share()?;
    if !mark_few(journal, trial, &mut choice.marks, &numbers) {
        return Ok(false);
    }
    choice.taken.push(Taken { pair, numbers })?;
    Ok(true)
}

/// The first of these pairs that may be carried over, as long as the copies are few with those of
/// what they rest on.
pub fn chosen<R: Relation>(
    alloc: Global,
    journal: &Journal<R>,
    moment: u64,
    marks: Marks,
    pairs: &[Pair],
) -> Result<Choice, AllocError>
    requires few { length journal.now.entries ≤ MAX_ENTRIES }
    requires whole { journal.now.given ≡ 0 }
    requires marks { AreMarks moment journal.now.entries [] marks }
    ensures taken { IfOk result (λ c. map taken_as c.taken.items
        ≡ few_of moment journal.now.entries [] (backed_in moment journal.now.entries pairs.now)) }
    ensures marks { IfOk result (λ c. AreMarks moment journal.now.entries
        (carried_numbers (map taken_as c.taken.items)) c.marks) }
{
    let traces = Traces::of(alloc, journal)?;
    let mut trial = marks.copy()?;
    let mut choice = Choice {
        marks,
        taken: Vec::new(alloc),
    };
    'each: for pair in pairs {
        if !take(
            alloc,
            journal,
            moment,
            &traces,
            &mut trial,
            &mut choice,
            pair,
        )? {
            return Ok(choice);
        }
    }
    Ok(choice)
}
