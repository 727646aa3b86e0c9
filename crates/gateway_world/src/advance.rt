//! What one needs who drives a world for good: inputs that aren't taken back, and what there is to
//! wait for.

ghost use Rattle.std.specs.Prelude.{◌≡◌, ◌≤◌, ◌↔◌, [], true, None, IfOk, IsTrue, OnErr, drop, sum_by};
ghost use Rattle.std.specs.Prelude.{vec_capacity, vec_len};
ghost use Rattle.journal_book.specs.Entries.{entry_size};
ghost use Rattle.exchange_core.specs.Due.{next_tick, IsNextTick};
ghost use Rattle.exchange_model.specs.Resting.{HasConn};
ghost use Rattle.gateway_model.specs.Emissions.{emissions};

use crate::engine::{Context, Engine, Step};
use crate::state::World;
use exchange_core::Core;
use gateway_model::{Input, Output, When};
use history_claims::in_order;
use http_edge::Memory;
use limits::{LAST_MOMENT, MAX_UNREAD};
use transformers::{Bank, Relation};

/// A world after an input, and what came of it.
#[derive(Drop)]
pub struct Advanced<R: Relation> {
    pub world: World<R>,
    pub step: Step,
}

impl<R: Relation> World<R> {
    ghost use Rattle.gateway_world.specs.Inputs.{Takes};
    ghost use Rattle.gateway_world.specs.Refusals.{IfTaken, IsRefused, MayBeRefused, opened_in};
    ghost use Rattle.gateway_world.specs.Openings.{IsCounted};
    ghost use Rattle.gateway_world.specs.Worlds.{IsAllAsked, IsTooMuch, memory_of, served_in};
    ghost use Rattle.transformers.specs.Suits.{Suits};

    /// The moment of the next tick that has something to do, if any has: none before it changes the
    /// core.
    pub fn next_due(&self) -> Option<u64>
        ensures is { result ≡ next_tick self.now.core.state }
        ensures exact { IsNextTick result self.now.core.state }
    {
        self.engine.core.next_due()
    }

    /// The core, to be looked at.
    pub fn core(&self) -> &Core<R>
        ensures { result.now ≡ self.now.core }
    {
        &self.engine.core
    }

    /// How many bytes the entries of the journal count that are in memory.
    pub fn bytes(&self) -> u64
        ensures { result
            ≡ sum_by entry_size (drop (memory_of self.now).given self.now.core.state.entries) }
    {
        self.engine.core.bytes()
    }

    /// Whether the connection is open and waits for no answer, so that what its bytes ask is asked.
    pub fn is_idle(&self, number: u32) -> bool
        ensures { IsTrue result ↔ HasConn self.now.core.state.conns number None }
    {
        self.engine.core.is_idle(number)
    }

    /// Whether the connection is open between two requests: it waits for no answer, and all that
    /// came of it was asked.
    pub fn is_between(&self, number: u32) -> bool
        ensures idle { result ≡ true → HasConn self.now.core.state.conns number None }
        ensures asked { result ≡ true → IsAllAsked number self.now }
    {
        let engine: &Engine<R> = &*self.engine;
        if engine.table.passes_limit(number, false, MAX_UNREAD) {
            return false;
        }
        engine.core.is_idle(number)
    }

    /// Takes an input for good, and puts what it leads to in place of what was in `outputs`.
    /// Nothing is copied to go back to, so that it costs what its steps cost. Where memory is
    /// refused to the core, or for a connection that opens, the world is as it was, and the input
    /// isn't taken; where it is for what a connection asks or is told, that connection is given up.
    /// Only where it is for a place among the outputs is the world gone, and then there are as many
    /// of them as there were places.
    pub fn advance(
        self,
        bank: &Bank<R>,
        input: Input<'_>,
        outputs: &mut Vec<Output<R>>,
    ) -> Result<Advanced<R>, Memory>
        requires suits { Suits R.holds R.takes self.rules.routes bank.now }
        requires room { IsTooMuch input.happening (served_in self) → ⊥ }
        ensures takes { IfOk result (λ a. IfTaken a.step
            (Takes R.holds R.takes input.entry self (emissions outputs.new.items) a.world)) }
        ensures stays { IfOk result (λ a. IsRefused a.step
            → (a.world ≡ self) × (outputs.new.items ≡ [])) }
        ensures refused { IfOk result (λ a. IsRefused a.step
            → MayBeRefused input.entry.happening) }
        ensures opened { IfOk result (λ a. IsCounted input.entry.happening (opened_in a.step)
            self.core a.world.core) }
        ensures places { vec_capacity outputs.old ≤ vec_capacity outputs.new }
        ensures full { OnErr result (vec_capacity outputs.old ≤ vec_len outputs.new) }
    {
        // Its contract says in which order a journal that stands has messages go out.
        in_order();
        let World {
            settings,
            engine,
            moment,
        } = self;
        let mut boxed = engine;
        let engine: &mut Engine<R> = &mut *boxed;
        // Its contract says that the core keeps to its history, before the input and after it.
        engine.core.journal();
        outputs.clear();
        let before = moment;
        let moment = before.max(input.moment.min(LAST_MOMENT));
        let context = Context {
            when: When {
                moment,
                word: input.word,
            },
            settings: &settings,
        };
        match engine.step(context, bank, input.happening, outputs)? {
            Step::Taken(opened) => {
                engine.core.journal();
                engine.table.mark();
                Ok(Advanced {
                    world: World {
                        settings,
                        engine: boxed,
                        moment,
                    },
                    step: Step::Taken(opened),
                })
            }
            Step::Refused => Ok(Advanced {
                world: World {
                    settings,
                    engine: boxed,
                    moment: before,
                },
                step: Step::Refused,
            }),
        }
    }
}
