//! The room of a journal, and what of it is held free.

ghost use Rattle.std.specs.Prelude.{ℕ, ◌≡◌, ◌≤◌, ◌<◌, ◌+◌, ◌-◌, IsTrue, false, drop, length, count_by, sum_by, IfOk};
ghost use Rattle.limits.specs.declared.TheConstants.{MAX_ENTRIES, MAX_NUMBERED};
ghost use Rattle.journal_book.specs.Entries.{entry_size};
ghost use Rattle.exchange_model.specs.Room.{has_asked, fits};
ghost use Rattle.exchange_model.specs.Steps.{opens};
ghost use Rattle.exchange_table.specs.Places.{RiseBy};
ghost use Rattle.exchange_core.specs.Places.{id_of};
ghost use Rattle.exchange_core.specs.Room.{fits_by};
ghost use Rattle.exchange_core.specs.States.{state_of, with_draft};

use crate::draft::Draft;
use crate::state::State;
use exchange_model::Conn;
use journal_book::Journal;
use limits::{MAX_ANSWER_SIZE, MAX_ENTRIES, MAX_JOURNAL_LEN};
use std::alloc::{AllocError, Global};
use transformers::Relation;

/// How many connections wait for an answer.
fn pending_count(conns: &[Conn]) -> usize
    ensures { result ≡ count_by has_asked conns.now }
{
    conns.iter().filter(|x| x.pending.is_some()).count()
}

/// Whether so many entries that count so many bytes are within the limits, with what is held free
/// for so many connections, as many of which wait for an answer, and for the seal.
fn has_room(entries: u64, bytes: u64, conns: u64, pending: u64) -> bool
    ensures { result ≡ fits_by entries bytes conns pending }
{
    if entries > MAX_ENTRIES
        || conns > MAX_ENTRIES
        || pending > MAX_ENTRIES
        || bytes > MAX_JOURNAL_LEN
    {
        return false;
    }
    entries + conns + pending + 1 <= MAX_ENTRIES
        && bytes + 64 * conns + MAX_ANSWER_SIZE * pending + 64 <= MAX_JOURNAL_LEN
}

/// Whether that is so for the connections that wait among these. Where all of them could wait, they
/// aren't counted.
fn has_room_for(entries: u64, bytes: u64, count: u64, conns: &[Conn]) -> bool
    requires { length conns.now ≤ count }
    ensures { result ≡ fits_by entries bytes count (count_by has_asked conns.now) }
{
    if has_room(entries, bytes, count, count) {
        return true;
    }
    has_room(entries, bytes, count, pending_count(conns) as u64)
}

/// How many entries the journal has in memory.
fn held_len<R: Relation>(journal: &Journal<R>) -> usize
    ensures { result ≡ length journal.now.entries - journal.now.given }
{
    journal.len() - journal.given()
}

/// Whether so many entries more than there are in memory are within the limit.
pub fn has_entries<R: Relation>(s: &State<R>, more: usize) -> bool
    requires { s.now.journal.given ≤ length s.now.journal.entries }
    ensures fits { IsTrue result
        → length s.now.journal.entries + more ≤ s.now.journal.given + MAX_ENTRIES }
    ensures full { result ≡ false
        → s.now.journal.given + MAX_ENTRIES < length s.now.journal.entries + more }
{
    (held_len(&s.journal) as u64).saturating_add(more as u64) <= MAX_ENTRIES
}

/// Whether the journal takes what was drafted. What the draft does to the connections is looked at
/// only where that decides.
pub fn takes<R: Relation>(alloc: Global, s: &State<R>, draft: &Draft<R>) -> Result<bool, AllocError>
    requires unsealed { s.now.sealed ≡ false }
    requires count { s.now.bytes
        ≡ sum_by entry_size (drop s.now.journal.given s.now.journal.entries) }
    requires within { s.now.journal.given ≤ length s.now.journal.entries }
    requires numbered { s.now.journal.given ≤ MAX_NUMBERED + 1024 }
    requires ordered { RiseBy id_of s.now.conns.items }
    ensures { (t : ℕ) → IfOk result
        (λ b. b ≡ fits (with_draft t draft.now (state_of s.now))) }
{
    let entries = (held_len(&s.journal) as u64).saturating_add(draft.len() as u64);
    let bytes = s.bytes.saturating_add(draft.bytes());
    let count = s.conns.len() as u64;
    if has_room(entries, bytes, count, count) {
        return Ok(true);
    }
    if !has_room(entries, bytes, count, 0) {
        return Ok(false);
    }
    let mut conns = Vec::from_slice(alloc, &s.conns)?;
    draft.note(&mut conns, s.journal.len() as u32);
    let pending = pending_count(&conns) as u64;
    Ok(has_room(entries, bytes, count, pending))
}

/// Whether the journal takes one more connection.
pub fn takes_conn<R: Relation>(s: &State<R>) -> bool
    requires unsealed { s.now.sealed ≡ false }
    requires count { s.now.bytes
        ≡ sum_by entry_size (drop s.now.journal.given s.now.journal.entries) }
    requires within { s.now.journal.given ≤ length s.now.journal.entries }
    ensures { (t : ℕ) → result ≡ fits (opens t (state_of s.now)) }
{
    let conns = s.conns.as_slice();
    has_room_for(
        (held_len(&s.journal) as u64).saturating_add(1),
        s.bytes.saturating_add(64),
        (conns.len() as u64).saturating_add(1),
        conns,
    )
}
