//! Whole runs of inputs.

ghost use Rattle.std.specs.Prelude.{◌≡◌, [], Err, IfOk, OnOk};
ghost use Rattle.history_laws.specs.Justified.{Stands};
ghost use Rattle.history_claims.specs.Causes.{AreCaused};
ghost use Rattle.history_claims.specs.Once.{AreAskedOnce};
ghost use Rattle.history_claims.specs.Order.{AreInOrder};
ghost use Rattle.ask_model.specs.Views.{rules_of};
ghost use Rattle.gateway_model.specs.Emissions.{emissions, IsWhole};
ghost use Rattle.gateway_model.specs.Tellings.{AreMapped, IsMapped};
ghost use Rattle.gateway_world.specs.Asked.{AsksInRun};
ghost use Rattle.gateway_world.specs.Inputs.{IsRefusedAfter, RunsTo, TakesAll};
ghost use Rattle.gateway_world.specs.Journals.{AllLiveOnce, AreSent, AreTold, EachJournal, EachPart, all_entries};
ghost use Rattle.gateway_world.specs.Worlds.{IsAtRest, new_world};
ghost use Rattle.transformers.specs.Suits.{Suits};

use crate::fault::WorldFault;
use crate::state::World;
use ask_model::Settings;
use gateway_model::{Input, Output};
use history_claims::in_order;
use journal_book::Journal;
use std::alloc::Global;
use transformers::{Bank, Relation};

/// What a run gave out, and what happened in it: its journals are those that were given out, in
/// order, and this, the last one. A connection is open while one of them is added to.
#[derive(Drop)]
pub struct Run<R: Relation> {
    /// The outputs of each input, in order.
    pub outputs: Vec<Output<R>>,
    /// The last journal.
    pub journal: Journal<R>,
}

impl<R: Relation> World<R> {
    /// Takes all inputs, in order, and answers the first refusal of one.
    pub fn run(
        alloc: Global,
        settings: Settings,
        bank: &Bank<R>,
        inputs: &[Input<'_>],
    ) -> Result<Run<R>, WorldFault>
        requires suits { Suits R.holds R.takes (rules_of settings).routes bank.now }
        ensures takes { IfOk result (λ run. RunsTo R.holds R.takes (rules_of settings) inputs.now
            (emissions run.outputs.items) run.journal.entries) }
        ensures whole { IfOk result (λ run. IsWhole (emissions run.outputs.items)) }
        ensures stands { IfOk result (λ run. EachJournal Stands
            (emissions run.outputs.items) run.journal.entries) }
        ensures told { IfOk result (λ run. EachPart (AreTold R.holds R.takes)
            (emissions run.outputs.items) run.journal.entries) }
        ensures lives { IfOk result (λ run. AllLiveOnce
            (emissions run.outputs.items) run.journal.entries) }
        ensures mapped { IfOk result
            (λ run. EachJournal (AreMapped R.holds R.takes (rules_of settings))
            (emissions run.outputs.items) run.journal.entries) }
        ensures causes { IfOk result (λ run. EachJournal AreCaused
            (emissions run.outputs.items) run.journal.entries) }
        ensures once { IfOk result (λ run. EachJournal AreAskedOnce
            (emissions run.outputs.items) run.journal.entries) }
        ensures in_order { IfOk result (λ run. EachJournal AreInOrder
            (emissions run.outputs.items) run.journal.entries) }
        ensures asks { IfOk result (λ run. AsksInRun (IsMapped R.holds R.takes (rules_of settings))
            inputs.now (emissions run.outputs.items)
            (all_entries (emissions run.outputs.items) run.journal.entries)) }
        ensures sends { IfOk result (λ run. EachPart AreSent
            (emissions run.outputs.items) run.journal.entries) }
        ensures full { result ≡ Err WorldFault.Backlog
            → IsRefusedAfter R.holds R.takes inputs.now (new_world (rules_of settings)) }
    {
        // Its contract says in which order a journal that stands has messages go out.
        in_order();
        let mut world = World::new(alloc, settings)?;
        let mut outputs = Vec::new(alloc);
        world.take_all(bank, inputs, &mut outputs)?;
        let journal = world.copy_journal()?;
        Ok(Run { outputs, journal })
    }

    /// Takes all inputs, in order, and answers the first refusal of one.
    fn take_all(
        &mut self,
        bank: &Bank<R>,
        inputs: &[Input<'_>],
        outputs: &mut Vec<Output<R>>,
    ) -> Result<(), WorldFault>
        requires suits { Suits R.holds R.takes self.old.rules.routes bank.now }
        requires untold { outputs.old.items ≡ [] }
        requires rests { IsAtRest self.old }
        ensures takes { OnOk result (TakesAll R.holds R.takes inputs.now self.old
            (emissions outputs.new.items) self.new) }
        ensures whole { OnOk result (IsWhole (emissions outputs.new.items)) }
        ensures rests { OnOk result (IsAtRest self.new) }
        ensures given { OnOk result (self.new.core.state.given ≡ self.old.core.state.given) }
        ensures full { result ≡ Err WorldFault.Backlog
            → IsRefusedAfter R.holds R.takes inputs.now self.old }
    {
        'each: for input in inputs {
            let mut more = self.input(bank, *input)?;
            outputs.append(&mut more)?;
        }
        Ok(())
    }
}
