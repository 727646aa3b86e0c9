//! What a tick does, prepared before the core changes.

ghost use Rattle.std.specs.Prelude.{ℕ, ◌≡◌, ◌≤◌, ◌^◌, ◌+◌, ◌++◌, true, false, filter, length, sum_by, IfOk, OnOk};
ghost use Rattle.limits.specs.declared.TheConstants.{LAST_MOMENT};
ghost use Rattle.std.specs.List.{AllByRecursion};
ghost use Rattle.ask_model.specs.Sizes.{capped};
ghost use Rattle.journal_book.specs.Entries.{entry_size};
ghost use Rattle.message_layer.specs.Calls.{is_among};
ghost use Rattle.exchange_model.specs.Calls.{something_due};
ghost use Rattle.exchange_model.specs.Entering.{all_deeds, all_going, gone_tokens, sent_as, tick_deeds};
ghost use Rattle.exchange_model.specs.Matters.{IsDigested, left_by};
ghost use Rattle.exchange_model.specs.Hearing.{is_gone, timed_out, goes_on};
ghost use Rattle.endpoint_table.specs.Turns.{AreTurns, turns_deeds, turns_going};
ghost use Rattle.exchange_table.specs.Places.{RiseBy};
ghost use Rattle.exchange_table.specs.Tables.{opening_of};
ghost use Rattle.exchange_core.specs.Drafts.{IsDrafted};
ghost use Rattle.exchange_core.specs.Passing.{moved_on};
ghost use Rattle.exchange_core.specs.Places.{IsOrdered};
ghost use Rattle.exchange_core.specs.Sound.{IsSound};
ghost use Rattle.exchange_core.specs.States.{given_in, outgoing, state_of, HasPlaces, SeesSame};
ghost use Rattle.exchange_core.specs.Turns.{AreTimed};
ghost use Rattle.exchange_table.specs.Asks.{IsAskedHere};
ghost use Rattle.exchange_model.specs.Memory.{most_entries};

use crate::draft::Draft;
use crate::due::next_due;
use crate::expiring::{end_all, over_at, tokens_of};
use crate::state::{self, State, start};
use crate::storing::retire_all;
use crate::timeouts::draft_timeouts;
use crate::turns::{draft_turns, note_turns};
use crate::watching::{add_unwatched, drop_unwatched};
use coap_codec::Token;
use endpoint_table::Turn;
use exchange_model::Exchange;
use journal_book::{Entry, Event};
use std::alloc::{AllocError, Global};
use std::collections::VecDeque;
use transformers::Relation;

/// Drafts what a tick does that has something to do, and whose datagrams the journal could take.
pub fn draft_tick<R: Relation>(
    alloc: Global,
    s: &State<R>,
    over: &[Exchange],
    turns: &VecDeque<Turn>,
    moment: u64,
) -> Result<Draft<R>, AllocError>
    requires sound { IsSound s.now }
    requires unsealed { s.now.sealed ≡ false }
    requires later { s.now.moment ≤ moment }
    requires due { something_due moment (state_of s.now) ≡ true }
    requires few { length s.now.journal.entries + length (turns_deeds turns.now.items)
        ≤ most_entries }
    requires over { over.now ≡ timed_out moment (state_of s.now) }
    requires timed { AreTimed turns.now.items }
    requires deeds { turns_deeds turns.now.items
        ≡ all_deeds moment (is_gone moment (state_of s.now)) (state_of s.now).links }
    ensures { IfOk result (λ d. IsDrafted moment (state_of s.now)
        (tick_deeds moment (state_of s.now)) d) }
{
    let mut draft = start(alloc, s);
    draft.enter(Entry {
        moment,
        event: Event::Passed,
    })?;
    draft_turns(&mut draft, turns, moment)?;
    draft_timeouts(alloc, &mut draft, s, over, moment)?;
    Ok(draft)
}

/// The exchanges that end at this moment.
fn find_over<R: Relation>(
    alloc: Global,
    s: &mut State<R>,
    moment: u64,
) -> Result<Vec<Exchange>, AllocError>
    requires sound { IsSound s.old }
    requires early { moment ≤ LAST_MOMENT }
    ensures same { SeesSame s.old s.new }
    ensures over { IfOk result (λ v. v.items ≡ timed_out moment (state_of s.old)) }
{
    over_at(alloc, &s.exchanges, &mut s.endpoints, moment)
}

/// Prepares the tick of the links.
fn prepare_links<R: Relation>(
    s: &mut State<R>,
    moment: u64,
    gone: &[Token],
) -> Result<VecDeque<Turn>, AllocError>
    requires sound { IsSound s.old }
    requires early { moment ≤ LAST_MOMENT }
    requires gone { gone.now ≡ gone_tokens moment (state_of s.old) }
    ensures same { SeesSame s.old s.new }
    ensures ready { IfOk result (λ v.
        AreTurns moment gone.now s.new.endpoints.links s.new.endpoints.rooms v.items) }
    ensures timed { IfOk result (λ v. AreTimed v.items) }
    ensures deeds { IfOk result (λ v. turns_deeds v.items
        ≡ all_deeds moment (is_gone moment (state_of s.old)) (state_of s.old).links) }
    ensures going { IfOk result (λ v. (n : ℕ) → turns_going n v.items
        ≡ all_going moment (is_gone moment (state_of s.old)) n (state_of s.old).links) }
{
    s.endpoints.prepare_tick(moment, gone)
}

/// Whether a tick has something to do at this moment.
pub fn is_due<R: Relation>(s: &State<R>, moment: u64) -> bool
    requires { IsSound s.now }
    ensures { result ≡ something_due moment (state_of s.now) }
{
    match next_due(s) {
        Some(due) => due <= moment,
        None => false,
    }
}

/// What is prepared for a tick that has something to do.
#[derive(Drop)]
pub struct Passing {
    /// the exchanges that end
    pub over: Vec<Exchange>,
    /// their tokens, and those of what is observed no more
    pub gone: Vec<Token>,
    pub turns: VecDeque<Turn>,
}

/// Prepares a tick that has something to do.
pub fn prepare<R: Relation>(
    alloc: Global,
    s: &mut State<R>,
    moment: u64,
) -> Result<Passing, AllocError>
    requires sound { IsSound s.old }
    requires early { moment ≤ LAST_MOMENT }
    ensures same { SeesSame s.old s.new }
    ensures over { IfOk result (λ x. x.over.items ≡ timed_out moment (state_of s.old)) }
    ensures gone { IfOk result (λ x. x.gone.items ≡ gone_tokens moment (state_of s.old)) }
    ensures ready { IfOk result
        (λ x. AreTurns moment x.gone.items s.new.endpoints.links s.new.endpoints.rooms
        x.turns.items) }
    ensures timed { IfOk result (λ x. AreTimed x.turns.items) }
    ensures deeds { IfOk result (λ x. turns_deeds x.turns.items
        ≡ all_deeds moment (is_gone moment (state_of s.old)) (state_of s.old).links) }
    ensures going { IfOk result (λ x. (n : ℕ) → turns_going n x.turns.items
        ≡ all_going moment (is_gone moment (state_of s.old)) n (state_of s.old).links) }
{
    let over = find_over(alloc, s, moment)?;
    let mut gone = tokens_of(alloc, &over)?;
    add_unwatched(&mut gone, &s.watches, &s.journal, &over, moment)?;
    let turns = prepare_links(s, moment, &gone)?;
    Ok(Passing { over, gone, turns })
}

/// Does a tick as it was prepared and drafted.
pub fn pass<R: Relation>(s: &mut State<R>, passing: Passing, draft: Draft<R>, moment: u64)
    requires early { moment ≤ LAST_MOMENT }
    requires digested { AllByRecursion (IsDigested s.old.journal.entries)
        s.old.exchanges.exchanges }
    requires here { AllByRecursion (IsAskedHere s.old.journal.given s.old.journal.kept)
        s.old.exchanges.exchanges }
    requires over { passing.over.items ≡ timed_out moment (state_of s.old) }
    requires rising { RiseBy opening_of passing.over.items }
    requires numbers { length s.old.journal.entries + 1
        + length (turns_deeds passing.turns.items) ≤ 4294967295 }
    requires ready { AreTurns moment passing.gone.items
        s.old.endpoints.links s.old.endpoints.rooms passing.turns.items }
    requires places { HasPlaces s.old draft }
    requires few { length s.old.journal.entries + length draft.entries ≤ most_entries }
    requires ordered { IsOrdered (state_of s.old) }
    ensures state { state_of s.new ≡ moved_on moment (is_among passing.gone.items)
        passing.over.items (sent_as
        (turns_going (length s.old.journal.entries + 1) passing.turns.items)
        (left_by s.old.journal.entries passing.over.items
        (filter (goes_on moment (state_of s.old)) s.old.exchanges.exchanges)))
        draft (state_of s.old) }
    ensures bytes { s.new.bytes
        ≡ capped (s.old.bytes + capped (sum_by entry_size draft.entries)) }
    ensures held { length s.old.conns.items + 1 ≤ s.new.journal.room }
    ensures answers { given_in s.new ≡ given_in s.old ++ draft.answers }
    ensures sends { outgoing s.new ≡ outgoing s.old ++ draft.sends }
{
    let Passing { over, gone, turns } = passing;
    drop_unwatched(&mut s.watches, &s.journal, &over, moment);
    retire_all(&mut s.store, &s.journal, &over);
    end_all(&mut s.exchanges, &s.journal, &over);
    note_turns(&mut s.exchanges, &turns, s.journal.len() as u32 + 1);
    s.endpoints.tick(turns, moment, &gone);
    s.fetched.drop_all(&over);
    s.stales.drop_all(&over);
    let mut draft = draft;
    state::commit(s, &mut draft, moment);
}
