//! What an input leads to, act by act.

ghost use Rattle.std.specs.Prelude.{◌≡◌, ◌≤◌, true, false, IfOk, OnErr, OnOk};
ghost use Rattle.std.specs.Prelude.{vec_capacity, vec_len};
ghost use Rattle.exchange_core.specs.Calls.{IsUnknown};
ghost use Rattle.gateway_model.specs.Emissions.{emissions};
ghost use Rattle.gateway_model.specs.Orders.{Delivers, IsInOrder};
ghost use Rattle.gateway_model.specs.Waiting.{AreServed, IsDrained};
ghost use Rattle.gateway_world.specs.Engines.{IsGivenBack, IsReady, IsShutting, IsUntouched};
ghost use Rattle.gateway_world.specs.Engines.{MayGoBack, OpensBy, terms_in};
ghost use Rattle.gateway_world.specs.Leading.{LeadsBy, RotatesBy, StepsBy, rules_in};
ghost use Rattle.gateway_world.specs.Refusals.{IfTaken, IsRefused, MayBeRefused};
ghost use Rattle.transformers.specs.Suits.{Suits};

use crate::telling::{tell_given_up, tell_turned};
use ask_model::Settings;
use exchange_core::{Core, OpenFault, RotateFault};
use gateway_connections::Table;
use gateway_model::{Happening, Output, When};
use http_edge::Memory;
use std::alloc::Global;
use std::sync::Arc;
use transformers::{Bank, Relation};
use uri_map::Peer;

/// What the acts of an input share: when it is, and the settings.
#[derive(Clone, Copy)]
pub struct Context<'a> {
    pub when: When,
    pub settings: &'a Arc<Settings>,
}

/// What came of what happened.
#[derive(Clone, Copy, Debug, PartialEq, Eq)]
pub enum Step {
    /// It was done, and this connection opened with it.
    Taken(Option<u32>),
    /// Memory was refused to the core before anything was done.
    Refused,
}

/// A core with the connections that it serves.
#[derive(Drop)]
pub struct Engine<R: Relation> {
    pub alloc: Global,
    pub core: Core<R>,
    pub table: Table,
}

impl<R: Relation> Engine<R> {
    /// Does what happens leads to, and answers the number of the connection that opens with it.
    /// Where memory is refused to the core at once nothing is done; where it runs out for what is
    /// given out it can go back to what it was.
    pub fn step(
        &mut self,
        context: Context<'_>,
        bank: &Bank<R>,
        happening: Happening<'_>,
        outputs: &mut Vec<Output<R>>,
    ) -> Result<Step, Memory>
        requires ready { IsReady self.old }
        requires drained { IsDrained self.old.core }
        requires suits { Suits R.holds R.takes (rules_in context).routes bank.now }
        ensures steps { IfOk result (λ s. IfTaken s
            (StepsBy (terms_in R.holds R.takes context.entry) context.entry.when happening.entry
            self.old outputs.old.items self.new outputs.new.items)) }
        ensures stays { IfOk result (λ s. IsRefused s
            → IsUntouched self.old outputs.old.items self.new outputs.new.items) }
        ensures refused { IfOk result (λ s. IsRefused s → MayBeRefused happening.entry) }
        ensures back { OnErr result (MayGoBack self.old self.new) }
        ensures may { OnOk result (IsGivenBack self.old (emissions outputs.old.items)
            self.new (emissions outputs.new.items)) }
        ensures drained { OnOk result (IsDrained self.new.core) }
        ensures opened { IfOk result (λ s. OpensBy happening.entry s self.old.core.state.opened
            (emissions outputs.old.items) (emissions outputs.new.items)) }
        ensures places { vec_capacity outputs.old ≤ vec_capacity outputs.new }
        ensures full { OnErr result (vec_capacity outputs.old ≤ vec_len outputs.new) }
    {
        match happening {
            Happening::Open => self.open(context, outputs),
            Happening::Bytes(number, bytes) => {
                self.bytes(context, bank, number, bytes, outputs)?;
                Ok(Step::Taken(None))
            }
            Happening::Datagram(peer, bytes) => {
                if self.heard(context, bank, peer, bytes, outputs)? {
                    Ok(Step::Taken(None))
                } else {
                    Ok(Step::Refused)
                }
            }
            Happening::Tick => {
                if self.tick(context, bank, outputs)? {
                    Ok(Step::Taken(None))
                } else {
                    Ok(Step::Refused)
                }
            }
            Happening::Close(number) => {
                self.close(context, number);
                Ok(Step::Taken(None))
            }
            Happening::Rotate => {
                if self.rotate(context, outputs)? {
                    Ok(Step::Taken(None))
                } else {
                    Ok(Step::Refused)
                }
            }
        }
    }

    /// Opens a connection, and answers its number; or turns the client away. Its place is made
    /// before, so that where memory is refused none opens.
    fn open(&mut self, context: Context<'_>, outputs: &mut Vec<Output<R>>) -> Result<Step, Memory>
        requires ready { IsReady self.old }
        requires drained { IsDrained self.old.core }
        ensures leads { IfOk result (λ s. IfTaken s
            (LeadsBy (terms_in R.holds R.takes context.entry)
            context.entry.when (IsInOrder Happening.Open)
            self.old outputs.old.items self.new outputs.new.items)) }
        ensures stays { IfOk result (λ s. IsRefused s
            → IsUntouched self.old outputs.old.items self.new outputs.new.items) }
        ensures back { MayGoBack self.old self.new }
        ensures drained { OnOk result (IsDrained self.new.core) }
        ensures opened { IfOk result (λ s. OpensBy Happening.Open s self.old.core.state.opened
            (emissions outputs.old.items) (emissions outputs.new.items)) }
        ensures places { vec_capacity outputs.old ≤ vec_capacity outputs.new }
        ensures full { OnErr result (vec_capacity outputs.old ≤ vec_len outputs.new) }
    {
        let Ok(spare) = self.table.make_room() else {
            return Ok(Step::Refused);
        };
        match self.core.open(context.when.moment) {
            Ok(number) => {
                self.table.insert(spare, number);
                Ok(Step::Taken(Some(number)))
            }
            Err(OpenFault::Full) => {
                tell_turned(outputs)?;
                Ok(Step::Taken(None))
            }
            Err(OpenFault::Sealed) => {
                tell_turned(outputs)?;
                Ok(Step::Taken(None))
            }
            Err(OpenFault::Memory) => Ok(Step::Refused),
        }
    }

    /// Takes bytes of the connection, and asks what they ask. Where memory is refused for them, it
    /// is given up.
    fn bytes(
        &mut self,
        context: Context<'_>,
        bank: &Bank<R>,
        number: u32,
        bytes: &[u8],
        outputs: &mut Vec<Output<R>>,
    ) -> Result<(), Memory>
        requires suits { Suits R.holds R.takes (rules_in context).routes bank.now }
        requires ready { IsReady self.old }
        requires drained { IsDrained self.old.core }
        ensures leads { OnOk result (LeadsBy (terms_in R.holds R.takes context.entry)
            context.entry.when (IsInOrder (Happening.Bytes number bytes.entry))
            self.old outputs.old.items self.new outputs.new.items) }
        ensures back { MayGoBack self.old self.new }
        ensures drained { OnOk result (IsDrained self.new.core) }
        ensures places { vec_capacity outputs.old ≤ vec_capacity outputs.new }
        ensures full { OnErr result (vec_capacity outputs.old ≤ vec_len outputs.new) }
    {
        match self.table.append(number, bytes) {
            Ok(_) => self.serve(context, bank, number, outputs),
            Err(Memory) => {
                if self.close(context, number) {
                    tell_given_up(number, outputs)
                } else {
                    Ok(())
                }
            }
        }
    }

    /// Takes a datagram, and gives out what it leads to. False where memory is refused to the core,
    /// and nothing is done.
    fn heard(
        &mut self,
        context: Context<'_>,
        bank: &Bank<R>,
        peer: Peer,
        bytes: &[u8],
        outputs: &mut Vec<Output<R>>,
    ) -> Result<bool, Memory>
        requires suits { Suits R.holds R.takes (rules_in context).routes bank.now }
        requires drained { IsDrained self.old.core }
        ensures leads { IfOk result (λ taken. taken ≡ true →
            (LeadsBy (terms_in R.holds R.takes context.entry)
            context.entry.when (IsInOrder (Happening.Datagram peer bytes.entry))
            self.old outputs.old.items self.new outputs.new.items)) }
        ensures stays { IfOk result (λ taken. taken ≡ false
            → IsUntouched self.old outputs.old.items self.new outputs.new.items) }
        ensures back { MayGoBack self.old self.new }
        ensures drained { OnOk result (IsDrained self.new.core) }
        ensures places { vec_capacity outputs.old ≤ vec_capacity outputs.new }
        ensures full { OnErr result (vec_capacity outputs.old ≤ vec_len outputs.new) }
    {
        match self
            .core
            .heard(context.when.moment, context.when.word, peer, bytes)
        {
            Ok(_) => {
                // Its contract says that the core keeps to its history.
                self.core.journal();
                self.deliver(context, bank, outputs)?;
                Ok(true)
            }
            Err(_) => Ok(false),
        }
    }

    /// Lets time go on, and gives out what that leads to. False where memory is refused to the
    /// core, and nothing is done.
    fn tick(
        &mut self,
        context: Context<'_>,
        bank: &Bank<R>,
        outputs: &mut Vec<Output<R>>,
    ) -> Result<bool, Memory>
        requires suits { Suits R.holds R.takes (rules_in context).routes bank.now }
        requires drained { IsDrained self.old.core }
        ensures leads { IfOk result (λ taken. taken ≡ true →
            (LeadsBy (terms_in R.holds R.takes context.entry)
            context.entry.when (IsInOrder Happening.Tick)
            self.old outputs.old.items self.new outputs.new.items)) }
        ensures stays { IfOk result (λ taken. taken ≡ false
            → IsUntouched self.old outputs.old.items self.new outputs.new.items) }
        ensures back { MayGoBack self.old self.new }
        ensures drained { OnOk result (IsDrained self.new.core) }
        ensures places { vec_capacity outputs.old ≤ vec_capacity outputs.new }
        ensures full { OnErr result (vec_capacity outputs.old ≤ vec_len outputs.new) }
    {
        match self.core.tick(context.when.moment) {
            Ok(_) => {
                // Its contract says that the core keeps to its history.
                self.core.journal();
                self.deliver(context, bank, outputs)?;
                Ok(true)
            }
            Err(_) => Ok(false),
        }
    }

    /// Gives the sealed journal out and goes on with a new one, or tells why not. The place for
    /// what is told is made before. False where memory is refused to the core, and nothing is done.
    fn rotate(&mut self, context: Context<'_>, outputs: &mut Vec<Output<R>>) -> Result<bool, Memory>
        requires drained { IsDrained self.old.core }
        ensures rotates { IfOk result (λ taken. taken ≡ true → (RotatesBy context.entry.when
            self.old outputs.old.items self.new outputs.new.items)) }
        ensures stays { IfOk result (λ taken. taken ≡ false
            → IsUntouched self.old outputs.old.items self.new outputs.new.items) }
        ensures drained { OnOk result (IsDrained self.new.core) }
        ensures unchanged { OnErr result (self.new ≡ self.old) }
        ensures places { vec_capacity outputs.old ≤ vec_capacity outputs.new }
        ensures full { OnErr result (vec_capacity outputs.old ≤ vec_len outputs.new) }
    {
        outputs.try_reserve(1)?;
        let output = match self.core.rotate(context.when.moment) {
            Ok(journal) => Output::Rotated(journal),
            Err(fault) => match fault {
                RotateFault::Memory => return Ok(false),
                _ => Output::Unrotated(fault),
            },
        };
        outputs.push_reserved(output);
        Ok(true)
    }

    /// Closes the connection. False where it isn't open.
    pub(crate) fn close(&mut self, context: Context<'_>, number: u32) -> bool
        ensures closed { result ≡ true → IsShutting context.entry.when number self.old self.new }
        ensures unknown { result ≡ false → (self.new ≡ self.old) × IsUnknown number self.old.core }
        ensures back { MayGoBack self.old self.new }
    {
        let closed = self.core.close(context.when.moment, number);
        if closed {
            self.table.remove(number);
        }
        closed
    }

    /// Gives out the datagrams and the answers of a step, the answers in the order of their asks,
    /// each followed by what its connection asks further.
    fn deliver(
        &mut self,
        context: Context<'_>,
        bank: &Bank<R>,
        outputs: &mut Vec<Output<R>>,
    ) -> Result<(), Memory>
        requires suits { Suits R.holds R.takes (rules_in context).routes bank.now }
        requires served { AreServed self.old.core }
        ensures leads { OnOk result (LeadsBy (terms_in R.holds R.takes context.entry)
            context.entry.when Delivers self.old outputs.old.items self.new outputs.new.items) }
        ensures back { MayGoBack self.old self.new }
        ensures drained { OnOk result (IsDrained self.new.core) }
        ensures places { vec_capacity outputs.old ≤ vec_capacity outputs.new }
        ensures full { OnErr result (vec_capacity outputs.old ≤ vec_len outputs.new) }
    {
        self.send_all(context, outputs)?;
        self.answer_all(context, bank, outputs)
    }
}
