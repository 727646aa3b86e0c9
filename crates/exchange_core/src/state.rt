//! What a core keeps, and how what a step adds comes into it.

ghost use Rattle.std.specs.Prelude.{ℕ, ◌≡◌, ◌≤◌, ◌+◌, ◌++◌, [], length, true, sum_by, OnOk};
ghost use Rattle.ask_model.specs.Sizes.{capped};
ghost use Rattle.journal_book.specs.Entries.{entry_size};
ghost use Rattle.exchange_core.specs.Drafts.{Drafts};
ghost use Rattle.exchange_core.specs.Places.{IsOrdered};
ghost use Rattle.exchange_core.specs.States.{state_of, outgoing, given_in, with_draft, HasPlaces, SeesSame};
ghost use Rattle.exchange_model.specs.Memory.{most_entries};

use crate::answer::Answer;
use crate::draft::Draft;
use crate::outgoing::Datagram;
use endpoint_table::Endpoints;
use exchange_model::Conn;
use exchange_table::{Exchanges, Fetched, Readers, Stales};
use journal_book::Journal;
use observe_share::Watch;
use resp_cache::Store;
use std::alloc::{AllocError, Global};
use std::collections::VecDeque;
use transformers::Relation;

/// What a core keeps.
#[derive(Drop)]
pub struct State<R: Relation> {
    pub journal: Journal<R>,
    pub sealed: bool,
    /// what the entries count
    pub bytes: u64,
    /// that of the last entry, in milliseconds
    pub moment: u64,
    /// how many connections were opened
    pub opened: u32,
    /// how many tokens were issued
    pub issued: u32,
    pub conns: Vec<Conn>,
    pub exchanges: Exchanges,
    /// the pieces that they have fetched
    pub fetched: Fetched,
    /// what they ask about
    pub stales: Stales,
    /// who waits for an exchange, in the order of their asks
    pub readers: Readers,
    /// what is observed
    pub watches: Watch,
    /// the responses that may be served again
    pub store: Store,
    pub endpoints: Endpoints,
    /// the answers that aren't taken yet
    pub answers: Vec<Answer<R>>,
    /// the datagrams that aren't taken yet
    pub sends: VecDeque<Datagram>,
}

/// Nothing yet, after the entries that there are.
pub fn start<R: Relation>(alloc: Global, s: &State<R>) -> Draft<R>
    requires { length s.now.journal.entries ≤ most_entries }
    ensures drafts { (t : ℕ) → Drafts t (state_of s.now) [] result }
    ensures answers { result.answers ≡ [] }
{
    Draft::new(alloc, s.journal.len() as u32)
}

/// Nothing is drafted yet, after the entries that there are.
pub fn start_anew<R: Relation>(draft: &mut Draft<R>, s: &State<R>)
    requires { length s.now.journal.entries ≤ most_entries }
    ensures drafts { (t : ℕ) → Drafts t (state_of s.now) [] draft.new }
    ensures answers { draft.new.answers ≡ [] }
{
    draft.begin(s.journal.len() as u32);
}

/// Makes places for the entries, the datagrams and the answers of a draft. Behind the entries a
/// place is held for the Shut of each connection, and one for the Sealed.
pub fn make_places<R: Relation>(s: &mut State<R>, draft: &Draft<R>) -> Result<(), AllocError>
    ensures same { SeesSame s.old s.new }
    ensures endpoints { s.new.endpoints ≡ s.old.endpoints }
    ensures places { OnOk result (HasPlaces s.new draft.now) }
{
    let held = s.conns.len().saturating_add(1);
    s.journal.make_room(draft.len().saturating_add(held))?;
    s.answers.try_reserve(draft.answer_count())?;
    s.sends.reserve(draft.send_count())?;
    Ok(())
}

/// Adds what was drafted at this moment, for which there are places.
pub fn commit<R: Relation>(s: &mut State<R>, draft: &mut Draft<R>, moment: u64)
    requires places { HasPlaces s.old draft.old }
    requires few { length s.old.journal.entries + length draft.old.entries ≤ most_entries }
    requires ordered { IsOrdered (state_of s.old) }
    ensures state { state_of s.new ≡ with_draft moment draft.old (state_of s.old) }
    ensures bytes { s.new.bytes
        ≡ capped (s.old.bytes + capped (sum_by entry_size draft.old.entries)) }
    ensures held { length s.old.conns.items + 1 ≤ s.new.journal.room }
    ensures answers { given_in s.new ≡ given_in s.old ++ draft.old.answers }
    ensures sends { outgoing s.new ≡ outgoing s.old ++ draft.old.sends }
    ensures place { s.old.readers.room ≡ true → s.new.readers.room ≡ true }
{
    s.bytes = s.bytes.saturating_add(draft.bytes());
    s.moment = moment;
    draft.pour_entries(&mut s.journal, &mut s.conns, &mut s.readers);
    draft.pour_sends(&mut s.sends);
    draft.pour_answers(&mut s.answers);
}
