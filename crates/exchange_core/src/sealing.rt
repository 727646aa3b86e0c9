//! The seal of a journal.

ghost use Rattle.std.specs.Prelude.{◌≡◌, ◌<◌, ◌+◌};
ghost use Rattle.ask_model.specs.Sizes.{capped};
ghost use Rattle.exchange_model.specs.Steps.{seals};
ghost use Rattle.exchange_core.specs.States.{state_of, given_in, outgoing};

use crate::state::State;
use journal_book::{Entry, Event};
use transformers::Relation;

/// Writes the seal, whose place was held.
pub fn seal<R: Relation>(s: &mut State<R>, moment: u64)
    requires { 0 < s.old.journal.room }
    ensures state { state_of s.new ≡ seals moment (state_of s.old) }
    ensures room { s.new.journal.room + 1 ≡ s.old.journal.room }
    ensures bytes { s.new.bytes ≡ capped (s.old.bytes + 64) }
    ensures answers { given_in s.new ≡ given_in s.old }
    ensures sends { outgoing s.new ≡ outgoing s.old }
{
    s.journal.add(Entry {
        moment,
        event: Event::Sealed,
    });
    s.sealed = true;
    s.bytes = s.bytes.saturating_add(64);
    s.moment = moment;
}
