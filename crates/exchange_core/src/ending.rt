//! Exchanges that end, for whatever reason, and all who wait for them.

ghost use Rattle.std.specs.Prelude.{true, false, ◌≡◌, ◌≤◌, ◌<◌, ◌+◌, ◌∷◌, ◌++◌, [], ℕ, List, Option, length, map, IfOk, OnOk};
ghost use Rattle.std.specs.List.{AllByRecursion};
ghost use Rattle.journal_book.specs.Entries.{Deed, Written};
ghost use Rattle.journal_book.specs.Views.{grounds_of};
ghost use Rattle.history_laws.specs.Progress.{Ending};
ghost use Rattle.exchange_model.specs.State.{State as CoreState};
ghost use Rattle.exchange_model.specs.Matters.{moment_in};
ghost use Rattle.exchange_progress.specs.Coming.{IsEnded, found_for, renews};
ghost use Rattle.exchange_core.specs.Answering.{given_of};
ghost use Rattle.exchange_core.specs.Asked.{IsAskIn};
ghost use Rattle.exchange_core.specs.Drafts.{IsDrafted};
ghost use Rattle.exchange_core.specs.Ending.{IsAnswerTo, IsTold, counted_moment, deed_of, first_moment, last_moment};
ghost use Rattle.exchange_core.specs.Judged.{TellsAll};
ghost use Rattle.exchange_core.specs.Matters.{readers_told};
ghost use Rattle.exchange_core.specs.Reading.{IsCountedHere, IsEndHere, IsReaderHere, IsTellingHere};
ghost use Rattle.journal_book.specs.Journals.{IsHere};

use crate::answer::Answer;
use crate::draft::Draft;
use crate::requests::request_of;
use ask_model::Cause;
use exchange_model::{Exchange, Reader};
use exchange_progress::Ended;
use exchange_table::Readers;
use journal_book::{Grounds, Journal};
use reply_reading::Finding;
use std::alloc::{AllocError, Global};
use std::collections::VecDeque;
use transformers::Relation;

/// Who is told what an exchange came to.
#[derive(Drop)]
pub struct Telling {
    pub reader: Reader,
    pub finding: Finding,
    /// it was renewed, and counts from the last of its replies
    pub renewed: bool,
}

/// What the reader is told of that.
fn finding_for(ended: &Ended, reader: &Reader) -> Result<Finding, AllocError>
    ensures { (n : ℕ) (how : Ending) (sending : Option ℕ) → IsEnded n ended.now how
        → IfOk result (λ f. f ≡ found_for how n sending reader.now) }
{
    match ended {
        Ended::Found(finding) => finding.copy(),
        Ended::Renewed(finding, _) => finding.copy(),
        Ended::Turned => Ok(Finding::fault(Cause::Busy, reader.ask)),
    }
}

/// Whether it ended with what was renewed.
fn is_renewed(ended: &Ended) -> bool
    ensures { (n : ℕ) (how : Ending) → IsEnded n ended.now how → result ≡ renews how }
{
    match ended {
        Ended::Renewed(_, _) => true,
        _ => false,
    }
}

/// All who wait for the exchange are told how it ended.
pub fn readers_told(
    alloc: Global,
    exchange: &Exchange,
    ended: &Ended,
    readers: &Readers,
) -> Result<VecDeque<Telling>, AllocError>
    ensures { (n : ℕ) (how : Ending) → IsEnded n ended.now how
        → IfOk result (λ v. v.items ≡ readers_told how n exchange.now readers.now.items) }
{
    let waiting = readers.of(exchange.opening);
    let renewed = is_renewed(ended);
    let mut told = VecDeque::new(alloc);
    'each: for reader in waiting {
        told.push_back(Telling {
            reader: *reader,
            finding: finding_for(ended, reader)?,
            renewed,
        })?;
    }
    Ok(told)
}

/// The moment from which it counts: that of its first reply, or this one, where its entry comes
/// now.
pub fn first_moment<R: Relation>(journal: &Journal<R>, grounds: &Grounds, moment: u64) -> u64
    requires { IsCountedHere journal.now.given journal.now.kept false (grounds_of grounds.now) }
    ensures { result ≡ first_moment journal.now.entries moment (grounds_of grounds.now) }
{
    let numbers = match grounds {
        Grounds::Live(numbers) => numbers,
        Grounds::Kept(numbers) => numbers,
        Grounds::Fault(_, _) => return moment,
    };
    match numbers.as_slice() {
        [first, ..] => moment_in(journal, *first, moment),
        [] => moment,
    }
}

/// The moment from which what was renewed counts: that of the last of its replies, or this one,
/// where the entry of that comes now.
pub fn last_moment<R: Relation>(journal: &Journal<R>, grounds: &Grounds, moment: u64) -> u64
    requires { IsCountedHere journal.now.given journal.now.kept true (grounds_of grounds.now) }
    ensures { result ≡ last_moment journal.now.entries moment (grounds_of grounds.now) }
{
    let Grounds::Live(numbers) = grounds else {
        return moment;
    };
    match numbers.as_slice().last() {
        Some(last) => moment_in(journal, *last, moment),
        None => moment,
    }
}

/// The moment from which what is told counts.
fn counted_moment<R: Relation>(journal: &Journal<R>, telling: &Telling, moment: u64) -> u64
    requires { IsCountedHere journal.now.given journal.now.kept telling.now.renewed
        telling.now.finding.grounds }
    ensures { result ≡ counted_moment journal.now.entries moment telling.now }
{
    let grounds = telling.finding.grounds();
    if telling.renewed {
        last_moment(journal, grounds, moment)
    } else {
        first_moment(journal, grounds, moment)
    }
}

/// The moment of the entry with this number, or this one, where that comes now.
fn moment_in<R: Relation>(journal: &Journal<R>, number: u32, moment: u64) -> u64
    requires { IsHere journal.now.given journal.now.kept number }
    ensures { result ≡ moment_in journal.now.entries moment number }
{
    match journal.get(number as usize) {
        Some(entry) => entry.moment,
        None => moment,
    }
}

/// The answer to the reader's ask, in the entry with this number.
fn answer_to<R: Relation>(
    journal: &Journal<R>,
    telling: Telling,
    number: u32,
    moment: u64,
) -> Result<Answer<R>, AllocError>
    requires asks { IsAskIn journal.now.entries telling.reader.ask }
    requires here { IsTellingHere journal.now.given journal.now.kept telling }
    ensures { IfOk result
        (λ a. IsAnswerTo journal.now.entries moment number telling (given_of a)) }
{
    let mapped = request_of(journal, telling.reader.ask)?;
    let heard = counted_moment(journal, &telling, moment);
    Ok(Answer {
        conn: telling.reader.conn,
        ask: telling.reader.ask,
        number,
        mapped,
        moment,
        heard,
        finding: telling.finding,
    })
}

/// The reader is told.
fn draft_telling<R: Relation>(
    draft: &mut Draft<R>,
    journal: &Journal<R>,
    telling: Telling,
    moment: u64,
) -> Result<(), AllocError>
    requires room { draft.old.next < 4294967295 }
    requires told { IsTold journal.now.entries draft.old.entries moment telling }
    requires here { IsTellingHere journal.now.given journal.now.kept telling }
    ensures drafted { (S : CoreState) (ds : List Deed) → S.entries ≡ journal.now.entries
        → IsDrafted moment S ds draft.old
        → OnOk result (IsDrafted moment S (ds ++ deed_of telling ∷ []) draft.new) }
    ensures next { OnOk result (draft.new.next ≡ draft.old.next + 1) }
    ensures grows { OnOk result
        ((w : Written) × (draft.new.entries ≡ draft.old.entries ++ w ∷ [])) }
{
    let answer = answer_to(journal, telling, draft.next(), moment)?;
    draft.answer(answer)?;
    Ok(())
}

/// All of these are told, in their order.
pub fn draft_tellings<R: Relation>(
    draft: &mut Draft<R>,
    journal: &Journal<R>,
    told: VecDeque<Telling>,
    moment: u64,
) -> Result<(), AllocError>
    requires room { draft.old.next + length told.items ≤ 4294967295 }
    requires told { AllByRecursion
        (IsTold journal.now.entries draft.old.entries moment) told.items }
    requires here { AllByRecursion (IsTellingHere journal.now.given journal.now.kept) told.items }
    ensures { (S : CoreState) (ds : List Deed) → S.entries ≡ journal.now.entries
        → IsDrafted moment S ds draft.old
        → OnOk result (IsDrafted moment S (ds ++ map deed_of told.items) draft.new) }
{
    let mut told = told;
    'each: while let Some(telling) = told.pop_front() {
        draft_telling(draft, journal, telling, moment)?;
    }
    Ok(())
}

/// What the one reader is told of that.
fn found_for(ended: Ended, reader: &Reader) -> Finding
    ensures { (n : ℕ) (how : Ending) (sending : Option ℕ) → IsEnded n ended how
        → result ≡ found_for how n sending reader.now }
{
    match ended {
        Ended::Found(finding) => finding,
        Ended::Renewed(finding, _) => finding,
        Ended::Turned => Finding::fault(Cause::Busy, reader.ask),
    }
}

/// All who wait for the exchange are told how it ended. Apart, so that one who waits alone needs no
/// room for it.
#[inline(never)]
fn tell_all<R: Relation>(
    alloc: Global,
    draft: &mut Draft<R>,
    journal: &Journal<R>,
    readers: &Readers,
    exchange: &Exchange,
    ended: Ended,
    moment: u64,
) -> Result<(), AllocError>
    requires room { draft.old.next + length readers.now.items ≤ 4294967295 }
    requires told { TellsAll journal.now.entries draft.old.entries moment exchange.now ended
        readers.now.items }
    requires ended { IsEndHere journal.now.given journal.now.kept ended }
    requires waiting { AllByRecursion (IsReaderHere journal.now.given journal.now.kept)
        readers.now.items }
    ensures { (S : CoreState) (ds : List Deed) (n : ℕ) (how : Ending) → IsEnded n ended how
        → S.entries ≡ journal.now.entries → IsDrafted moment S ds draft.old
        → OnOk result (IsDrafted moment S
        (ds ++ map deed_of (readers_told how n exchange.now readers.now.items)) draft.new) }
{
    let told = readers_told(alloc, exchange, &ended, readers)?;
    draft_tellings(draft, journal, told, moment)
}

/// All who wait for the exchange are told how it ended. One alone is given what was found.
pub fn tell_readers<R: Relation>(
    alloc: Global,
    draft: &mut Draft<R>,
    journal: &Journal<R>,
    readers: &Readers,
    exchange: &Exchange,
    ended: Ended,
    moment: u64,
) -> Result<(), AllocError>
    requires room { draft.old.next + length readers.now.items ≤ 4294967295 }
    requires told { TellsAll journal.now.entries draft.old.entries moment exchange.now ended
        readers.now.items }
    requires ended { IsEndHere journal.now.given journal.now.kept ended }
    requires waiting { AllByRecursion (IsReaderHere journal.now.given journal.now.kept)
        readers.now.items }
    ensures { (S : CoreState) (ds : List Deed) (n : ℕ) (how : Ending) → IsEnded n ended how
        → S.entries ≡ journal.now.entries → IsDrafted moment S ds draft.old
        → OnOk result (IsDrafted moment S
        (ds ++ map deed_of (readers_told how n exchange.now readers.now.items)) draft.new) }
{
    let [reader] = readers.of(exchange.opening) else {
        return tell_all(alloc, draft, journal, readers, exchange, ended, moment);
    };
    let telling = Telling {
        reader: *reader,
        renewed: is_renewed(&ended),
        finding: found_for(ended, reader),
    };
    draft_telling(draft, journal, telling, moment)
}
