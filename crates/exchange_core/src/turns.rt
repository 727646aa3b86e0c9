//! What endpoints send at a tick.

ghost use Rattle.std.specs.Prelude.{◌≡◌, ◌≤◌, ◌+◌, ◌++◌, List, length, if◌then◌else◌, OnOk};
ghost use Rattle.uri_map.specs.declared.peer.Peer.{Peer as PeerValue};
ghost use Rattle.journal_book.specs.Entries.{Deed};
ghost use Rattle.exchange_model.specs.State.{State as CoreState};
ghost use Rattle.exchange_model.specs.Entering.{sent_as};
ghost use Rattle.endpoint_table.specs.Turns.{deeds_of, going_of, turns_deeds, turns_going};
ghost use Rattle.exchange_core.specs.Drafts.{Drafts};
ghost use Rattle.exchange_core.specs.Turns.{AreTimed, IsTimedTurn};
ghost use Rattle.exchange_core.specs.Sending.{IsTimed, sent_first};

use crate::draft::Draft;
use endpoint_table::Turn;
use exchange_table::Exchanges;
use message_layer::{FirstSending, Ticking};
use std::alloc::AllocError;
use std::collections::VecDeque;
use transformers::Relation;
use uri_map::Peer;

/// Drafts a first sending.
fn draft_first<R: Relation>(
    draft: &mut Draft<R>,
    peer: Peer,
    next: &Option<FirstSending>,
    moment: u64,
) -> Result<(), AllocError>
    requires room { draft.old.next + length (sent_first peer next.now) ≤ 4294967295 }
    requires timed { IsTimed next.now }
    ensures drafts { (S : CoreState) (ds : List Deed) → Drafts moment S ds draft.old
        → OnOk result (Drafts moment S (ds ++ sent_first peer next.now) draft.new) }
    ensures answers { OnOk result (draft.new.answers ≡ draft.old.answers) }
    ensures next { OnOk result
        (draft.new.next ≡ draft.old.next + length (sent_first peer next.now)) }
{
    if let Some(first) = next {
        let timeout = first.message.timeout as u32;
        draft.send(moment, peer, &first.datagram, Some(timeout))?;
    }
    Ok(())
}

/// Drafts what a turn sends.
fn draft_turn<R: Relation>(
    draft: &mut Draft<R>,
    peer: Peer,
    turn: &Ticking,
    moment: u64,
) -> Result<(), AllocError>
    requires room { draft.old.next + length (deeds_of peer turn.now) ≤ 4294967295 }
    requires timed { IsTimedTurn turn.now }
    ensures drafts { (S : CoreState) (ds : List Deed) → Drafts moment S ds draft.old
        → OnOk result (Drafts moment S (ds ++ deeds_of peer turn.now) draft.new) }
    ensures answers { OnOk result (draft.new.answers ≡ draft.old.answers) }
    ensures next { OnOk result
        (draft.new.next ≡ draft.old.next + length (deeds_of peer turn.now)) }
{
    match turn {
        Ticking::Rests => {}
        Ticking::Copies(bytes) => draft.send(moment, peer, bytes, None)?,
        Ticking::GivesUp(_, next) => draft_first(draft, peer, next, moment)?,
    }
    Ok(())
}

/// Whether a turn sends a datagram. It sends one at most.
fn sends(turn: &Ticking) -> bool
    ensures { (p : PeerValue) → length (deeds_of p turn.now) ≡ (if result then 1 else 0) }
{
    match turn {
        Ticking::Rests | Ticking::GivesUp(_, None) => false,
        Ticking::Copies(_) | Ticking::GivesUp(_, Some(_)) => true,
    }
}

/// How many datagrams the turns send.
pub fn sends_count(turns: &VecDeque<Turn>) -> usize
    ensures { result ≡ length (turns_deeds turns.now.items) }
{
    let mut count = 0;
    'each: for place in 0..turns.len() {
        if sends(&turns[place].ticking) {
            count += 1;
        }
    }
    count
}

/// Drafts what the turns send, in order.
pub fn draft_turns<R: Relation>(
    draft: &mut Draft<R>,
    turns: &VecDeque<Turn>,
    moment: u64,
) -> Result<(), AllocError>
    requires timed { AreTimed turns.now.items }
    requires room { draft.old.next + length (turns_deeds turns.now.items) ≤ 4294967295 }
    ensures drafts { (S : CoreState) (ds : List Deed) → Drafts moment S ds draft.old
        → OnOk result (Drafts moment S (ds ++ turns_deeds turns.now.items) draft.new) }
    ensures answers { OnOk result (draft.new.answers ≡ draft.old.answers) }
{
    'each: for place in 0..turns.len() {
        let turn = &turns[place];
        draft_turn(draft, turn.peer, &turn.ticking, moment)?;
    }
    Ok(())
}

/// Notes what a turn sends first, where its first entry has this number; how many stand before what
/// is after it.
fn note_turn(exchanges: &mut Exchanges, peer: Peer, turn: &Ticking, number: u32) -> u32
    requires room { number + length (deeds_of peer turn.now) ≤ 4294967295 }
    ensures next { result ≡ number + length (deeds_of peer turn.now) }
    ensures going { exchanges.new.exchanges
        ≡ sent_as (going_of number turn.now) exchanges.old.exchanges }
{
    match turn {
        Ticking::Rests | Ticking::GivesUp(_, None) => number,
        Ticking::Copies(_) => number + 1,
        Ticking::GivesUp(_, Some(first)) => {
            exchanges.note_sending(&first.message.token, number);
            number + 1
        }
    }
}

/// Notes what the turns send first, where the first of their entries has this number. It takes no
/// memory.
pub fn note_turns(exchanges: &mut Exchanges, turns: &VecDeque<Turn>, number: u32)
    requires { number + length (turns_deeds turns.now.items) ≤ 4294967295 }
    ensures { exchanges.new.exchanges
        ≡ sent_as (turns_going number turns.now.items) exchanges.old.exchanges }
{
    let mut next = number;
    'each: for place in 0..turns.len() {
        let turn = &turns[place];
        next = note_turn(exchanges, turn.peer, &turn.ticking, next);
    }
}
