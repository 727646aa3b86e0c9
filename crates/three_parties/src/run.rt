//! Whole lists of turns.

ghost use Rattle.std.specs.Prelude.{◌≡◌, ℕ, List, map, Err, IfOk, OnOk};
ghost use Rattle.ask_model.specs.Views.{rules_of};
ghost use Rattle.history_laws.specs.Justified.{Stands};
ghost use Rattle.demo_origin.specs.Origins.{Sound, device, fresh};
ghost use Rattle.demo_origin.specs.declared.state.Held.{Held};
ghost use Rattle.gateway_model.specs.Emissions.{emissions};
ghost use Rattle.story_laws.specs.Reads.{AreNew};
ghost use Rattle.transformers.specs.Suits.{Suits};
ghost use Rattle.three_parties.specs.Flights.{going};
ghost use Rattle.three_parties.specs.Promises.{PostsOnceInTime};
ghost use Rattle.three_parties.specs.Reads.{GetsShowInTime, WholesShowInTime};
ghost use Rattle.three_parties.specs.Scenes.{TakesTurns};
ghost use Rattle.three_parties.specs.Stories.{IsRefused, IsStory, opening, scene};

use crate::laws::stories_keep_promises;
use crate::stage::Stage;
use crate::story::Story;
use crate::turn::Turn;
use ask_model::Settings;
use demo_origin::{Behaviour, Origin};
use gateway_world::WorldFault;
use std::alloc::Global;
use transformers::{Bank, Relation};

/// Takes all turns, one after another, and answers the first refusal of an input. The device is at
/// 192.0.2.1:5683, and sees the proxy at 198.51.100.1:5683.
///
/// The story is that of all its turns (`is`). Where the device is a new one, and the proxy looks at
/// its timers each second, each POST to it that was answered by success was executed exactly once,
/// as the message to which its reply came, no two of them by one execution; and what was answered
/// otherwise, or not at all, was executed at most once (`posts`). Each answer to a GET that rests on
/// one reply (`reads`), or on several (`wholes`), shows a state that the resource held between the
/// sending and the answer, and no less than what was confirmed before it was asked for; so does one
/// that rests on a notification, or on one and the pieces that were fetched after it. So it is of
/// each journal, also of an answer that rests on what the journal began with, as copies of one
/// before.
pub fn three_run<R: Relation, H: Behaviour>(
    alloc: Global,
    settings: Settings,
    bank: Bank<R>,
    origin: Origin<H>,
    turns: &[Turn<'_>],
) -> Result<Story<R, H>, WorldFault>
    requires suits { Suits R.holds R.takes (rules_of settings).routes bank }
    requires sound { Sound H.relation origin }
    ensures sound { IfOk result (λ s. Sound H.relation s.origin) }
    ensures stands { IfOk result (λ s. Stands s.journal.entries) }
    ensures is { IfOk result (λ s. IsStory R.holds R.takes H.relation (rules_of settings)
        (device origin) turns.now (emissions s.outputs.items) (map going s.flights.items)
        s.journal.entries (device s.origin) s.taken.items) }
    ensures full { result ≡ Err WorldFault.Backlog → IsRefused R.holds R.takes H.relation turns.now
        (opening (rules_of settings) (device origin)) }
    ensures posts { IfOk result (λ s. (block : ℕ) (resources : List Held)
        → device origin ≡ fresh block resources → PostsOnceInTime turns.now
        (emissions s.outputs.items) s.journal.entries (map going s.flights.items) s.taken.items) }
    ensures reads { IfOk result (λ s. (block : ℕ) (resources : List Held)
        → device origin ≡ fresh block resources → GetsShowInTime turns.now resources
        (emissions s.outputs.items) s.journal.entries (map going s.flights.items) s.taken.items) }
    ensures wholes { IfOk result (λ s. (block : ℕ) (resources : List Held)
        → device origin ≡ fresh block resources → AreNew resources
        → WholesShowInTime turns.now resources (emissions s.outputs.items) s.journal.entries
        (map going s.flights.items) s.taken.items) }
{
    // Its contract says what is promised of every story.
    stories_keep_promises::<R, H>();
    play(alloc, settings, bank, origin, turns)
}

/// Takes all turns, one after another.
fn play<R: Relation, H: Behaviour>(
    alloc: Global,
    settings: Settings,
    bank: Bank<R>,
    origin: Origin<H>,
    turns: &[Turn<'_>],
) -> Result<Story<R, H>, WorldFault>
    requires suits { Suits R.holds R.takes (rules_of settings).routes bank }
    requires sound { Sound H.relation origin }
    ensures sound { IfOk result (λ s. Sound H.relation s.origin) }
    ensures stands { IfOk result (λ s. Stands s.journal.entries) }
    ensures is { IfOk result (λ s. IsStory R.holds R.takes H.relation (rules_of settings)
        (device origin) turns.now (emissions s.outputs.items) (map going s.flights.items)
        s.journal.entries (device s.origin) s.taken.items) }
    ensures full { result ≡ Err WorldFault.Backlog → IsRefused R.holds R.takes H.relation turns.now
        (opening (rules_of settings) (device origin)) }
{
    let mut stage = Stage::new(alloc, settings, origin)?;
    stage.take_all(&bank, turns)?;
    let journal = stage.world.copy_journal()?;
    let Stage {
        origin,
        outputs,
        flights,
        taken,
        ..
    } = stage;
    Ok(Story {
        outputs,
        flights,
        journal,
        origin,
        taken,
    })
}

impl<R: Relation, H: Behaviour> Stage<R, H> {
    /// Takes all turns, one after another, and answers the first refusal of an input.
    fn take_all(&mut self, bank: &Bank<R>, turns: &[Turn<'_>]) -> Result<(), WorldFault>
        requires suits { Suits R.holds R.takes self.old.world.rules.routes bank.now }
        requires sound { Sound H.relation self.old.origin }
        ensures sound { Sound H.relation self.new.origin }
        ensures takes { OnOk result (TakesTurns R.holds R.takes H.relation turns.now
            (scene self.old) (scene self.new)) }
        ensures given { OnOk result (self.new.world.core.state.given
            ≡ self.old.world.core.state.given) }
        ensures full { result ≡ Err WorldFault.Backlog
            → IsRefused R.holds R.takes H.relation turns.now (scene self.old) }
    {
        'each: for turn in turns {
            self.take(bank, *turn)?;
        }
        Ok(())
    }
}
