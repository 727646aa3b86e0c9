//! The turn from a sealed journal to the next one.

ghost use Rattle.std.specs.Prelude.{◌≡◌, ◌≤◌, ◌<◌, ◌+◌, [], None, Some, filter, length, map, not, if◌then◌else◌, sum_by, IfErr, IfOk, IfSome, OnOk};
ghost use Rattle.std.specs.List.{list_all};
ghost use Rattle.ask_model.specs.Sizes.{capped};
ghost use Rattle.limits.specs.declared.TheConstants.{LAST_MOMENT, MAX_ENTRIES};
ghost use Rattle.journal_book.specs.Entries.{entry_size};
ghost use Rattle.journal_copies.specs.Copying.{AreCounted};
ghost use Rattle.journal_copies.specs.Marking.{AreMarks};
ghost use Rattle.resp_cache.specs.Stores.{IsStore};
ghost use Rattle.endpoint_table.specs.Keeping.{is_any};
ghost use Rattle.exchange_model.specs.Hearing.{is_past, retired};
ghost use Rattle.exchange_model.specs.Rotating.{are_few, copied_entries, copies, fault_of, pair_at, taken, turned, Crowded};
ghost use Rattle.exchange_core.specs.Renewing.{AreAskable, ends_as_heard};
ghost use Rattle.exchange_core.specs.Rotating.{fault_in, IsRefused, IsTurned};
ghost use Rattle.exchange_core.specs.Sound.{IsSound};
ghost use Rattle.exchange_core.specs.States.{given_in, outgoing, seen, state_of};

use crate::due::is_past;
use crate::fault::RotateFault;
use crate::renewing::is_as_heard;
use crate::state::State;
use crate::storing::retire_all;
use endpoint_table::Keeping;
use exchange_model::Exchange;
use exchange_table::{Exchanges, Fetched, Readers, Stales};
use journal_book::Journal;
use journal_copies::{Begun, Copies, Marks, begin, remembered};
use limits::MAX_NUMBERED;
use observe_share::Watch;
use resp_cache::{Pair, Store};
use std::alloc::{AllocError, Global};
use std::collections::VecDeque;
use std::mem;
use transformers::Relation;

/// Whether all of them have been open for as long as they may.
fn are_past(exchanges: &[Exchange], moment: u64) -> bool
    ensures { result ≡ list_all (is_past moment) exchanges.now }
{
    exchanges.iter().all(|e| is_past(e, moment))
}

/// The first reason against a turn at this moment that is known without the copies.
fn fault<R: Relation>(s: &State<R>, moment: u64) -> Option<RotateFault>
    ensures some { IfSome result (λ fault. IsRefused moment (state_of s.now) fault) }
    ensures none { result ≡ None → fault_of moment (state_of s.now)
        ≡ (if not (are_few (copies moment s.now.journal.entries)) then Some Crowded else None) }
    ensures whole { result ≡ None → s.now.journal.given ≡ 0 }
{
    if !s.sealed {
        return Some(RotateFault::Unsealed);
    }
    if s.journal.given() > 0 {
        return Some(RotateFault::Given);
    }
    if !s.conns.is_empty() {
        return Some(RotateFault::Connected);
    }
    if !are_past(s.exchanges.as_slice(), moment) || !s.endpoints.are_over(moment) {
        return Some(RotateFault::Exchanging);
    }
    if s.issued > MAX_NUMBERED || s.opened > MAX_NUMBERED {
        return Some(RotateFault::Spent);
    }
    None
}

/// What is remembered at this moment, where there is no reason against a turn.
fn remembered_in<R: Relation>(
    alloc: Global,
    s: &State<R>,
    moment: u64,
) -> Result<Marks, RotateFault>
    requires sound { IsSound s.now }
    requires early { moment ≤ LAST_MOMENT }
    ensures refused { IfErr result (λ fault. IsRefused moment (state_of s.now) fault) }
    ensures none { OnOk result (fault_of moment (state_of s.now) ≡ None) }
    ensures whole { OnOk result (s.now.journal.given ≡ 0) }
    ensures marks { IfOk result (λ m. AreMarks moment s.now.journal.entries [] m) }
{
    if let Some(fault) = fault(s, moment) {
        return Err(fault);
    }
    let marks = remembered(alloc, &s.journal, moment)?;
    if !marks.are_few() {
        return Err(RotateFault::Crowded);
    }
    Ok(marks)
}

/// The first reason against a turn at this moment, want of memory included.
pub fn turn_fault<R: Relation>(alloc: Global, s: &State<R>, moment: u64) -> Option<RotateFault>
    requires sound { IsSound s.now }
    requires early { moment ≤ LAST_MOMENT }
    ensures refused { IfSome result (λ fault. IsRefused moment (state_of s.now) fault) }
    ensures none { result ≡ None → fault_of moment (state_of s.now) ≡ None }
{
    match remembered_in(alloc, s, moment) {
        Ok(_) => None,
        Err(fault) => Some(fault),
    }
}

/// The pairs to whose place no open exchange writes. What such a one came to isn't known.
fn unwritten<R: Relation>(s: &State<R>) -> Result<Vec<Pair>, AllocError>
    requires { s.now.journal.given ≡ 0 }
    ensures pairs { IfOk result (λ v. v.items
        ≡ retired s.now.journal.entries s.now.exchanges.exchanges s.now.store.pairs) }
    ensures store { IfOk result (λ v. IsStore v.items) }
{
    let mut store = s.store.copy()?;
    retire_all(&mut store, &s.journal, s.exchanges.as_slice());
    store.to_pairs()
}

/// Takes out the pairs that a 2.03 has renewed.
fn keep_heard<R: Relation>(journal: &Journal<R>, pairs: &mut Vec<Pair>)
    requires { journal.now.given ≡ 0 }
    ensures pairs { pairs.new.items ≡ filter (ends_as_heard journal.now.entries) pairs.old.items }
    ensures store { IsStore pairs.old.items → IsStore pairs.new.items }
{
    pairs.retain(
        |pair|
            requires { journal.now.given ≡ 0 }
        { is_as_heard(journal, &pair.stored) },
    );
}

/// What the next journal begins with, and the pairs that are carried over.
fn next_of<R: Relation>(
    alloc: Global,
    s: &State<R>,
    remembered: Marks,
    moment: u64,
) -> Result<Begun<R>, AllocError>
    requires few { length s.now.journal.entries ≤ MAX_ENTRIES }
    requires whole { s.now.journal.given ≡ 0 }
    requires askable { AreAskable s.now.journal.entries s.now.store.pairs }
    requires marks { AreMarks moment s.now.journal.entries [] remembered }
    ensures counted { IfOk result (λ b. AreCounted b.copies) }
    ensures copied { IfOk result (λ b. b.copies.journal.entries
        ≡ copied_entries moment (state_of s.now)) }
    ensures pairs { IfOk result (λ b. b.pairs.items
        ≡ map (pair_at b.copies.journal.entries) (taken moment (state_of s.now))) }
    ensures store { IfOk result (λ b. IsStore b.pairs.items) }
{
    let mut pairs = unwritten(s)?;
    keep_heard(&s.journal, &mut pairs);
    begin(alloc, &s.journal, moment, remembered, &pairs)
}

/// Goes on with the copies and the pairs that are carried over, and gives the old journal out.
fn turn<R: Relation>(
    alloc: Global,
    s: &mut State<R>,
    next: Copies<R>,
    store: Store,
    keeping: Keeping,
    moment: u64,
) -> Journal<R>
    requires counted { AreCounted next }
    requires copied { next.journal.entries ≡ copied_entries moment (state_of s.old) }
    requires stored { store.pairs
        ≡ map (pair_at next.journal.entries) (taken moment (state_of s.old)) }
    requires keeping { keeping ≡ map (is_any next.peers.items) s.old.endpoints.links }
    ensures state { state_of s.new ≡ turned moment (state_of s.old) }
    ensures given { result.entries ≡ s.old.journal.entries }
    ensures whole { result.given ≡ s.old.journal.given }
    ensures bytes { s.new.bytes ≡ capped (sum_by entry_size s.new.journal.entries) }
    ensures place { 0 < s.new.journal.room }
    ensures answers { given_in s.new ≡ [] }
    ensures sends { outgoing s.new ≡ [] }
{
    let Copies {
        journal,
        bytes,
        peers: _,
    } = next;
    s.endpoints.keep(keeping, moment);
    s.conns.clear();
    s.exchanges = Exchanges::new(alloc);
    s.fetched = Fetched::new(alloc);
    s.stales = Stales::new(alloc);
    s.readers = Readers::new(alloc);
    s.watches = Watch::new(alloc);
    s.store = store;
    s.answers.clear();
    s.sends.clear();
    s.sealed = false;
    s.bytes = bytes;
    s.moment = moment;
    mem::replace(&mut s.journal, journal)
}

/// Gives the journal out, and goes on with one that begins with copies of its entries.
pub fn rotate<R: Relation>(
    alloc: Global,
    s: &mut State<R>,
    moment: u64,
) -> Result<Journal<R>, RotateFault>
    requires sound { IsSound s.old }
    requires later { s.old.moment ≤ moment }
    requires early { moment ≤ LAST_MOMENT }
    ensures sound { IsSound s.new }
    ensures turned { IfOk result (λ given.
        IsTurned moment given.entries (seen s.old) (seen s.new)) }
    ensures refused { IfErr result (λ fault.
        (seen s.new ≡ seen s.old) × IsRefused moment (state_of s.old) fault) }
{
    let remembered = remembered_in(alloc, s, moment)?;
    let Begun { copies, pairs } = next_of(alloc, s, remembered, moment)?;
    let store = Store::from_pairs(alloc, pairs)?;
    let keeping = s.endpoints.prepare_keep(&copies.peers)?;
    Ok(turn(alloc, s, copies, store, keeping, moment))
}
