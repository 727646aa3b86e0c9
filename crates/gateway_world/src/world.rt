//! The proxy as one value: inputs in, outputs out.

ghost use Rattle.std.specs.Prelude.{◌≡◌, ◌↔◌, IsTrue, IfOk, OnOk, OnErr, IsErrOf};
ghost use Rattle.history_laws.specs.Justified.{Stands};
ghost use Rattle.ask_model.specs.Views.{rules_of};
ghost use Rattle.gateway_model.specs.Emissions.{emissions, IsWhole};

use crate::engine::{Context, Engine, Step};
use crate::fault::WorldFault;
use crate::state::World;
use crate::telling::gives_up;
use ask_model::Settings;
use exchange_core::Core;
use gateway_connections::Table;
use gateway_model::{Happening, Input, Output, When};
use history_claims::in_order;
use http_edge::Memory;
use journal_book::Journal;
use limits::LAST_MOMENT;
use std::alloc::{AllocError, Global};
use std::sync::Arc;
use transformers::{Bank, Relation};

impl<R: Relation> World<R> {
    ghost use Rattle.gateway_world.specs.Inputs.{Takes};
    ghost use Rattle.gateway_world.specs.Worlds.{IsAtRest, IsTooMuch, new_world, served_in};
    ghost use Rattle.transformers.specs.Suits.{Suits};

    /// A proxy to which nothing has happened.
    pub fn new(alloc: Global, settings: Settings) -> Result<World<R>, Memory>
        ensures is { IfOk result (λ w. w ≡ new_world (rules_of settings)) }
        ensures rests { IfOk result (λ w. IsAtRest w) }
    {
        let settings = Arc::new(alloc, settings)?;
        let engine = Engine {
            alloc,
            core: Core::new(alloc)?,
            table: Table::new(alloc),
        };
        Ok(World {
            settings,
            engine: Box::new(alloc, engine).map_err(AllocError::from)?,
            moment: 0,
        })
    }

    /// What happened. One reading of it is legal and at rest.
    pub fn journal(&self) -> &Journal<R>
        ensures entries { result.now.entries ≡ self.now.core.state.entries }
        ensures given { result.now.given ≡ self.now.core.state.given }
        ensures stands { Stands self.now.core.state.entries }
    {
        self.engine.core.journal()
    }

    /// A copy of the journal, where nothing of it was given out.
    pub fn copy_journal(&self) -> Result<Journal<R>, AllocError>
        requires { self.now.core.state.given ≡ 0 }
        ensures entries { IfOk result (λ journal.
            journal.entries ≡ self.now.core.state.entries) }
        ensures stands { Stands self.now.core.state.entries }
    {
        self.journal().copy()
    }

    /// The moment of the last input, in milliseconds: it never falls, and is at most 2^62.
    pub fn moment(&self) -> u64
        ensures { result ≡ self.now.moment }
    {
        self.moment
    }

    /// Takes an input and gives out what it leads to. An input for a connection that isn't open
    /// gives nothing. One that is refused changes nothing, and can be given again: so is one that
    /// would have a connection given up.
    pub fn input(&mut self, bank: &Bank<R>, input: Input<'_>) -> Result<Vec<Output<R>>, WorldFault>
        requires suits { Suits R.holds R.takes self.old.rules.routes bank.now }
        ensures takes { IfOk result (λ outputs. Takes R.holds R.takes input.entry self.old
            (emissions outputs.items) self.new) }
        ensures whole { IfOk result (λ outputs. IsWhole (emissions outputs.items)) }
        ensures given { IfOk result (λ outputs. self.new.core.state.given
            ≡ self.old.core.state.given) }
        ensures unchanged { OnErr result (self.new ≡ self.old) }
        ensures full { IsTooMuch input.entry.happening (served_in self.old)
            ↔ IsErrOf result WorldFault.Backlog }
        ensures rests { IsAtRest self.new }
    {
        // Its contract says in which order a journal that stands has messages go out.
        in_order();
        if self.is_too_much(input.happening) {
            return Err(WorldFault::Backlog);
        }
        let moment = self.moment.max(input.moment.min(LAST_MOMENT));
        let context = Context {
            when: When {
                moment,
                word: input.word,
            },
            settings: &self.settings,
        };
        let before = self.engine.core.snapshot()?;
        let engine: &mut Engine<R> = &mut *self.engine;
        // Its contract says that the core keeps to its history, before the input and after it.
        engine.core.journal();
        let mut outputs = Vec::new(engine.alloc);
        match engine.step(context, bank, input.happening, &mut outputs) {
            Ok(Step::Taken(_)) => {
                if gives_up(outputs.as_slice()) {
                    engine.core.restore(before);
                    engine.table.back();
                    return Err(WorldFault::Memory);
                }
                engine.core.journal();
                engine.table.mark();
                self.moment = moment;
                Ok(outputs)
            }
            Ok(Step::Refused) => Err(WorldFault::Memory),
            Err(Memory) => {
                engine.core.restore(before);
                engine.table.back();
                Err(WorldFault::Memory)
            }
        }
    }

    /// Whether more bytes come of a connection than may wait unread.
    pub fn is_too_much(&self, happening: Happening<'_>) -> bool
        ensures { IsTrue result ↔ IsTooMuch happening.entry (served_in self.now) }
    {
        let engine: &Engine<R> = &*self.engine;
        // Its contract says that the connections of the core are in order.
        engine.core.journal();
        match happening {
            Happening::Bytes(number, bytes) => {
                let reads = engine.core.is_idle(number);
                engine.table.passes_limit(number, reads, bytes.len())
            }
            _ => false,
        }
    }
}
