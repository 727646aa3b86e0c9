//! Whether one journal justifies what all sessions noted.

ghost use Rattle.std.specs.Prelude.{ℕ, ◌≡◌, ◌≢◌, ◌↔◌, ◌==◌, ◌≤◌, ◌^◌, ◌++◌, not, true, if◌then◌else◌, None, Err, IfOk, IfSome, OnOk, IsTrue, length, map, sum_by};
ghost use Rattle.std.specs.List.{All};
ghost use Rattle.std.specs.Ordering.{nat_cmp};
ghost use Rattle.std.specs.BTreeSet.{contains};
ghost use Rattle.history_laws.specs.Justified.{Stands};
ghost use Rattle.journal_book.specs.Views.{item_of};
ghost use Rattle.gateway_desk.specs.Ledgers.{asks_of};
ghost use Rattle.gateway_desk.specs.Lines.{line_of};
ghost use Rattle.gateway_desk.specs.Running.{is_ask};
ghost use Rattle.gateway_desk.specs.Settled.{IsJustified, IsStranger, AreApart, IsRepeated, answered_by, answered_in, answered};

use crate::in_memory::get;
use crate::pass::{Note, Pass};
use crate::report::{Report, SettleFault};
use crate::shop::Shop;
use crate::standing::stranger;
use journal_book::{Entry, Event, Journal};
use std::alloc::{AllocError, Global};
use std::collections::BTreeSet;
use std::sync::ledger::Ledger;
use transformers::Relation;

/// The number of an ask by which the journal doesn't justify what some pass notes.
fn stranger_in<R: Relation, L: Ledger>(
    alloc: Global,
    journal: &Journal<R>,
    passes: &[Pass<R, L>],
) -> Result<Option<u32>, AllocError>
    requires whole { journal.now.given ≡ 0 }
    ensures none { IfOk result (λ o. o ≡ None
        → All (IsJustified journal.now.entries) passes.now) }
    ensures some { IfOk result (λ o. IfSome o
        (λ n. IsStranger journal.now.entries passes.now n)) }
{
    'each: for pass in passes {
        if let Some(number) = stranger(alloc, journal, pass)? {
            return Ok(Some(number));
        }
    }
    Ok(None)
}

/// Puts the ask of a note last, where its answer was given.
fn put_answered<R: Relation>(numbers: &mut Vec<u32>, note: &Note<R>) -> Result<(), AllocError>
    ensures { OnOk result (numbers.new.items
        ≡ numbers.old.items ++ answered_by (line_of note.now)) }
{
    match note {
        Note::Got(receipt) => {
            numbers.push(receipt.number)?;
            Ok(())
        }
        Note::Asked(_) | Note::Told(_) => Ok(()),
    }
}

/// Puts the asks last whose answers these notes have.
fn put_all_answered<R: Relation>(
    numbers: &mut Vec<u32>,
    notes: &[Note<R>],
) -> Result<(), AllocError>
    ensures { OnOk result (numbers.new.items
        ≡ numbers.old.items ++ answered_in (map line_of notes.now)) }
{
    'each: for note in notes {
        put_answered(numbers, note)?;
    }
    Ok(())
}

/// The asks whose answers the passes hold.
fn answered<R: Relation, L: Ledger>(
    alloc: Global,
    passes: &[Pass<R, L>],
) -> Result<Vec<u32>, AllocError>
    ensures { IfOk result (λ v. v.items ≡ answered passes.now) }
{
    let mut numbers = Vec::new(alloc);
    'each: for pass in passes {
        put_all_answered(&mut numbers, pass.notes())?;
    }
    Ok(numbers)
}

/// Whether the set hadn't this number yet, which it gets.
fn is_new(seen: &mut BTreeSet<u32>, number: u32) -> Result<bool, AllocError>
    ensures new { IfOk result (λ added. added ≡ not (contains nat_cmp seen.old number)) }
    ensures has { OnOk result ((k : ℕ) → contains nat_cmp seen.new k
        ≡ (if number == k then true else contains nat_cmp seen.old k)) }
{
    Ok(seen.insert(number)?)
}

/// The first number that is there a second time.
fn repeated(alloc: Global, numbers: &[u32]) -> Result<Option<u32>, AllocError>
    ensures none { IfOk result (λ o. o ≡ None → AreApart numbers.now) }
    ensures some { IfOk result (λ o. IfSome o (λ n. IsRepeated numbers.now n)) }
{
    let mut seen = BTreeSet::new(alloc);
    'each: for number in numbers {
        if !is_new(&mut seen, *number)? {
            return Ok(Some(*number));
        }
    }
    Ok(None)
}

fn is_ask<R: Relation>(entry: &Entry<R>) -> bool
    ensures { result ≡ is_ask (item_of entry.now) }
{
    match &entry.event {
        Event::Asked(_, _) => true,
        _ => false,
    }
}

/// How many asks the journal has.
fn count_asks<R: Relation>(journal: &Journal<R>) -> u64
    requires whole { journal.now.given ≡ 0 }
    ensures { result ≡ asks_of journal.now.entries }
{
    let mut asks: u64 = 0;
    'each: for number in 0..journal.len() {
        let Some(entry) = get(journal, number) else {
            unreachable!()
        };
        if is_ask(entry) {
            asks += 1;
        }
    }
    asks
}

/// How many asks the shares of the passes count. None above 2^64.
fn count_made<R: Relation, L: Ledger>(passes: &[Pass<R, L>]) -> Option<u64>
    ensures some { IfSome result (λ n. n ≡ sum_by (λ p. p.amount) passes.now) }
    ensures none { result ≡ None → 2 ^ 64 ≤ sum_by (λ p. p.amount) passes.now }
{
    let mut made = 0u64;
    'each: for pass in passes {
        made = made.checked_add(pass.made())?;
    }
    Some(made)
}

/// Whether the passes have made as many asks.
fn is_whole<R: Relation, L: Ledger>(passes: &[Pass<R, L>], asks: u64) -> bool
    ensures { IsTrue result ↔ (asks ≡ sum_by (λ p. p.amount) passes.now) }
{
    match count_made(passes) {
        Some(made) => asks == made,
        None => false,
    }
}

/// Whether the journal justifies all that the passes note, and has no ask but theirs.
pub(crate) fn settled<R: Relation, L: Ledger>(
    alloc: Global,
    journal: &Journal<R>,
    passes: &[Pass<R, L>],
) -> Result<Report, SettleFault>
    requires whole { journal.now.given ≡ 0 }
    ensures justified { OnOk result (All (IsJustified journal.now.entries) passes.now) }
    ensures apart { OnOk result (AreApart (answered passes.now)) }
    ensures whole { OnOk result (asks_of journal.now.entries
        ≡ sum_by (λ p. p.amount) passes.now) }
    ensures asks { IfOk result (λ r. r.asks ≡ asks_of journal.now.entries) }
    ensures answers { IfOk result (λ r. r.answers ≡ length (answered passes.now)) }
    ensures stranger { (n : ℕ) → result ≡ Err (SettleFault.Stranger n)
        → IsStranger journal.now.entries passes.now n }
    ensures repeated { (n : ℕ) → result ≡ Err (SettleFault.Repeated n)
        → IsRepeated (answered passes.now) n }
    ensures count { result ≡ Err SettleFault.Count
        → asks_of journal.now.entries ≢ sum_by (λ p. p.amount) passes.now }
{
    if let Some(number) = stranger_in(alloc, journal, passes)? {
        return Err(SettleFault::Stranger(number));
    }
    let numbers = answered(alloc, passes)?;
    if let Some(number) = repeated(alloc, &numbers)? {
        return Err(SettleFault::Repeated(number));
    }
    let asks = count_asks(journal);
    if !is_whole(passes, asks) {
        return Err(SettleFault::Count);
    }
    Ok(Report {
        asks,
        answers: numbers.len() as u64,
    })
}

/// Whether the journal of a shop justifies all that the passes note, and has no ask but theirs. An
/// Ok says that each answer which a pass was given or told stands in that one journal, at its
/// number, for its ask and on its grounds, which say what it tells, and that the asks that are
/// noted after it come after it; that no two answers to one ask were given; and that no pass which
/// asked is missing.
pub fn settle<R: Relation, L: Ledger>(
    alloc: Global,
    shop: Shop<R, L>,
    passes: Vec<Pass<R, L>>,
) -> Result<Report, SettleFault>
    ensures stands { OnOk result (Stands shop.core.state.entries) }
    ensures justified { OnOk result (All (IsJustified shop.core.state.entries) passes.items) }
    ensures apart { OnOk result (AreApart (answered passes.items)) }
    ensures whole { OnOk result (asks_of shop.core.state.entries
        ≡ sum_by (λ p. p.amount) passes.items) }
    ensures asks { IfOk result (λ r. r.asks ≡ asks_of shop.core.state.entries) }
    ensures answers { IfOk result (λ r. r.answers ≡ length (answered passes.items)) }
    ensures stranger { (n : ℕ) → result ≡ Err (SettleFault.Stranger n)
        → IsStranger shop.core.state.entries passes.items n }
    ensures repeated { (n : ℕ) → result ≡ Err (SettleFault.Repeated n)
        → IsRepeated (answered passes.items) n }
    ensures count { result ≡ Err SettleFault.Count
        → asks_of shop.core.state.entries ≢ sum_by (λ p. p.amount) passes.items }
{
    settled(alloc, shop.journal(), &passes)
}
