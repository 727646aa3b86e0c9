//! Steps are taken.

ghost use Rattle.std.specs.Prelude.{◌≡◌, OnOk};
ghost use Rattle.demo_origin.specs.Origins.{Sound};
ghost use Rattle.story_runs.specs.Steps.{IsInput, TakesBoth, TakesEvent, TakesStep};
ghost use Rattle.three_parties.specs.Stories.{scene};
ghost use Rattle.transformers.specs.Suits.{Suits};

use crate::book::Step;
use command_line::{Event, StoryTurn};
use three_parties::{Behaviour, Happening, Input, Stage, Turn, When, WorldFault};
use transformers::{Bank, Relation};

/// The input that an event is, at that moment, with these random bits.
fn input_of(moment: u64, word: u64, event: &Event) -> Input<'_>
    ensures { IsInput moment word event.now result }
{
    let happening = match event {
        Event::Open => Happening::Open,
        Event::Bytes(connection, bytes) => Happening::Bytes(*connection, bytes),
        Event::Datagram(peer, bytes) => Happening::Datagram(*peer, bytes),
        Event::Tick => Happening::Tick,
        Event::Close(connection) => Happening::Close(*connection),
        Event::Rotate => Happening::Rotate,
    };
    Input {
        moment,
        word,
        happening,
    }
}

/// Takes what happens to the gateway.
fn take_event<R: Relation, H: Behaviour>(
    stage: &mut Stage<R, H>,
    bank: &Bank<R>,
    when: When,
    event: &Event,
) -> Result<(), WorldFault>
    requires suits { Suits R.holds R.takes stage.old.world.rules.routes bank.now }
    requires sound { Sound H.relation stage.old.origin }
    ensures sound { Sound H.relation stage.new.origin }
    ensures takes { OnOk result (TakesEvent R.holds R.takes H.relation when.moment when.word
        event.now (scene stage.old) (scene stage.new)) }
    ensures rules { OnOk result (stage.new.world.rules ≡ stage.old.world.rules) }
{
    stage.take(bank, Turn::Proxy(input_of(when.moment, when.word, event)))
}

/// Both look at their timers, the gateway first.
fn take_both<R: Relation, H: Behaviour>(
    stage: &mut Stage<R, H>,
    bank: &Bank<R>,
    when: When,
) -> Result<(), WorldFault>
    requires suits { Suits R.holds R.takes stage.old.world.rules.routes bank.now }
    requires sound { Sound H.relation stage.old.origin }
    ensures sound { Sound H.relation stage.new.origin }
    ensures takes { OnOk result (TakesBoth R.holds R.takes H.relation when.moment when.word
        (scene stage.old) (scene stage.new)) }
{
    take_event(stage, bank, when, &Event::Tick)?;
    stage.take(bank, Turn::Device(when.moment))
}

/// Takes the turns of a step.
pub fn take_step<R: Relation, H: Behaviour>(
    stage: &mut Stage<R, H>,
    bank: &Bank<R>,
    step: &Step,
) -> Result<(), WorldFault>
    requires suits { Suits R.holds R.takes stage.old.world.rules.routes bank.now }
    requires sound { Sound H.relation stage.old.origin }
    ensures sound { Sound H.relation stage.new.origin }
    ensures takes { OnOk result
        (TakesStep R.holds R.takes H.relation step.now (scene stage.old) (scene stage.new)) }
{
    let when = When {
        moment: step.moment,
        word: step.word,
    };
    match &step.turn {
        StoryTurn::Gateway(event) => take_event(stage, bank, when, event),
        StoryTurn::Device => stage.take(bank, Turn::Device(when.moment)),
        StoryTurn::Both => take_both(stage, bank, when),
        StoryTurn::Deliver(number) => stage.take(bank, Turn::Deliver(when, *number)),
    }
}
