//! Asks whose exchanges took too long.

ghost use Rattle.std.specs.Prelude.{◌≡◌, ◌≤◌, ◌+◌, ◌∷◌, ◌++◌, List, length, map, IfOk, OnOk};
ghost use Rattle.std.specs.List.{AllByRecursion};
ghost use Rattle.journal_book.specs.Entries.{Deed, Seals};
ghost use Rattle.exchange_model.specs.Calls.{told_late};
ghost use Rattle.exchange_model.specs.Entering.{answer_of};
ghost use Rattle.exchange_table.specs.Places.{RiseBy};
ghost use Rattle.exchange_table.specs.Tables.{opening_of};
ghost use Rattle.exchange_core.specs.Asked.{IsAskedIn};
ghost use Rattle.exchange_core.specs.Drafts.{IsDrafted};
ghost use Rattle.exchange_core.specs.Ending.{late_deeds, late_to, out_of_time};
ghost use Rattle.exchange_core.specs.Sound.{IsSound};
ghost use Rattle.exchange_core.specs.States.{state_of};
ghost use Rattle.exchange_core.specs.Reading.{IsReaderHere};

use crate::draft::Draft;
use crate::ending::{Telling, draft_tellings};
use crate::expiring::past_exchanges;
use crate::state::{State, start};
use ask_model::Cause;
use exchange_model::{Exchange, Reader};
use exchange_table::read_by;
use journal_book::{Entry, Event};
use reply_reading::Finding;
use std::alloc::{AllocError, Global};
use std::collections::VecDeque;
use transformers::Relation;

/// The reader is told that its exchange took too long, where that is one of these.
fn late_to(exchanges: &[Exchange], reader: &Reader) -> Option<Telling>
    requires { RiseBy opening_of exchanges.now }
    ensures { result ≡ late_to exchanges.now reader.now }
{
    let exchange = read_by(exchanges, reader)?;
    let named = exchange.sending.unwrap_or(reader.ask);
    Some(Telling {
        reader: *reader,
        finding: Finding::fault(Cause::Timeout, named),
        renewed: false,
    })
}

/// All who wait for one of these exchanges are told that it took too long.
fn out_of_time(
    alloc: Global,
    exchanges: &[Exchange],
    readers: &[Reader],
) -> Result<VecDeque<Telling>, AllocError>
    requires { RiseBy opening_of exchanges.now }
    ensures { IfOk result (λ v. v.items ≡ out_of_time exchanges.now readers.now) }
{
    let mut told = VecDeque::new(alloc);
    if exchanges.is_empty() {
        return Ok(told);
    }
    'each: for reader in readers {
        if let Some(telling) = late_to(exchanges, reader) {
            told.push_back(telling)?;
        }
    }
    Ok(told)
}

/// Drafts the answers to all who wait for these exchanges, which took too long.
pub fn draft_timeouts<R: Relation>(
    alloc: Global,
    draft: &mut Draft<R>,
    s: &State<R>,
    exchanges: &[Exchange],
    moment: u64,
) -> Result<(), AllocError>
    requires ordered { RiseBy opening_of exchanges.now }
    requires room { draft.old.next + length s.now.readers.items ≤ 4294967295 }
    requires asked { AllByRecursion (IsAskedIn s.now.journal.entries) s.now.readers.items }
    requires here { AllByRecursion (IsReaderHere s.now.journal.given s.now.journal.kept)
        s.now.readers.items }
    ensures { (ds : List Deed) → IsDrafted moment (state_of s.now) ds draft.old
        → OnOk result (IsDrafted moment (state_of s.now)
        (ds ++ map answer_of (told_late exchanges.now s.now.readers.items)) draft.new) }
{
    let told = out_of_time(alloc, exchanges, s.readers.as_slice())?;
    draft_tellings(draft, &s.journal, told, moment)
}

/// Drafts the answers to all who wait for exchanges that have been open for as long as they may.
fn draft_past<R: Relation>(
    alloc: Global,
    draft: &mut Draft<R>,
    s: &State<R>,
    moment: u64,
) -> Result<(), AllocError>
    requires sound { IsSound s.now }
    requires few { draft.old.next ≤ length s.now.journal.entries + 1 }
    ensures { (ds : List Deed) → IsDrafted moment (state_of s.now) ds draft.old
        → OnOk result (IsDrafted moment (state_of s.now)
        (ds ++ late_deeds moment (state_of s.now)) draft.new) }
{
    let past = past_exchanges(alloc, s.exchanges.as_slice(), moment)?;
    draft_timeouts(alloc, draft, s, &past, moment)
}

/// Drafts what a tick of a sealed core does.
pub fn draft_late<R: Relation>(
    alloc: Global,
    s: &State<R>,
    moment: u64,
) -> Result<Draft<R>, AllocError>
    requires { IsSound s.now }
    ensures { IfOk result (λ d. IsDrafted moment (state_of s.now)
        (late_deeds moment (state_of s.now)) d) }
{
    let mut draft = start(alloc, s);
    draft_past(alloc, &mut draft, s, moment)?;
    Ok(draft)
}

/// Drafts the seal, and what a tick of a sealed core does after it.
pub fn draft_sealing<R: Relation>(
    alloc: Global,
    s: &State<R>,
    moment: u64,
) -> Result<Draft<R>, AllocError>
    requires { IsSound s.now }
    ensures { IfOk result (λ d. IsDrafted moment (state_of s.now)
        (Seals ∷ late_deeds moment (state_of s.now)) d) }
{
    let mut draft = start(alloc, s);
    draft.enter(Entry {
        moment,
        event: Event::Sealed,
    })?;
    draft_past(alloc, &mut draft, s, moment)?;
    Ok(draft)
}
