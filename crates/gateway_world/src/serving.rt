//! How connections are served: what they ask is asked, and what that leads to is given out.

ghost use Rattle.std.specs.Prelude.{ℕ, ◌≡◌, ◌≤◌, List, [], Some, None, IfOk, OnErr, OnOk};
ghost use Rattle.std.specs.Prelude.{vec_capacity, vec_len};
ghost use Rattle.http_edge.specs.Edges.{item};
ghost use Rattle.exchange_model.specs.Resting.{HasConn};
ghost use Rattle.exchange_core.specs.Answering.{given_of};
ghost use Rattle.exchange_core.specs.Taking.{IsTaken};
ghost use Rattle.exchange_core.specs.Values.{CoreValue};
ghost use Rattle.gateway_connections.specs.Inlets.{Inlet};
ghost use Rattle.gateway_connections.specs.Reads.{ChangesAt, Continues};
ghost use Rattle.gateway_model.specs.Acts.{IsAllTold};
ghost use Rattle.gateway_model.specs.Orders.{AreFor, AreSends, HasTurns, IsTelling, ServesOut};
ghost use Rattle.gateway_model.specs.Unasked.{TakesItem, unasked_in};
ghost use Rattle.gateway_model.specs.Waiting.{AreServed, IsDrained, IsOpen};
ghost use Rattle.gateway_world.specs.Engines.{GoesOn, IsAskOf, IsGivenUp, IsSentOut, IsShut};
ghost use Rattle.gateway_world.specs.Engines.{KeepsWaiting, LeadsAfter, LetsGo, MayGoBack};
ghost use Rattle.gateway_world.specs.Engines.{ServesNext, terms_in, work_at};
ghost use Rattle.gateway_world.specs.Leading.{LeadsBy, rules_in};
ghost use Rattle.transformers.specs.Suits.{Suits};

use crate::engine::{Context, Engine};
use crate::telling::{answer_told, continue_told, tell_bytes, tell_closed, tell_given_up};
use exchange_core::{Answer, AskFault, Ticket};
use gateway_connections::Next;
use gateway_model::{Output, When};
use http_edge::{Incoming, Memory};
use http_mapping::{closes, map_request};
use std::sync::Arc;
use transformers::{Bank, Relation};

impl<R: Relation> Engine<R> {
    /// Gives out the datagrams that wait.
    pub(crate) fn send_all(
        &mut self,
        context: Context<'_>,
        outputs: &mut Vec<Output<R>>,
    ) -> Result<(), Memory>
        ensures leads { OnOk result (LeadsBy (terms_in R.holds R.takes context.entry)
            context.entry.when AreSends self.old outputs.old.items self.new outputs.new.items) }
        ensures back { MayGoBack self.old self.new }
        ensures sent { OnOk result (IsSentOut self.old.core self.new.core) }
        ensures table { self.new.table ≡ self.old.table }
        ensures places { vec_capacity outputs.old ≤ vec_capacity outputs.new }
        ensures full { OnErr result (vec_capacity outputs.old ≤ vec_len outputs.new) }
    {
        'each: while let Some(datagram) = self.core.take_send() {
            outputs.push(Output::Datagram(datagram))?;
        }
        Ok(())
    }

    /// Gives out the answers that wait, in the order of their asks.
    pub(crate) fn answer_all(
        &mut self,
        context: Context<'_>,
        bank: &Bank<R>,
        outputs: &mut Vec<Output<R>>,
    ) -> Result<(), Memory>
        requires suits { Suits R.holds R.takes (rules_in context).routes bank.now }
        requires served { AreServed self.old.core }
        requires sent { self.old.core.unsent ≡ [] }
        ensures leads { OnOk result (LeadsBy (terms_in R.holds R.takes context.entry)
            context.entry.when HasTurns self.old outputs.old.items self.new outputs.new.items) }
        ensures back { MayGoBack self.old self.new }
        ensures drained { OnOk result (IsDrained self.new.core) }
        ensures places { vec_capacity outputs.old ≤ vec_capacity outputs.new }
        ensures full { OnErr result (vec_capacity outputs.old ≤ vec_len outputs.new) }
    {
        'each: while let Some(answer) = self.core.take_first() {
            let number = answer.conn;
            self.tell(context, bank, answer, outputs)?;
            self.serve(context, bank, number, outputs)?;
        }
        Ok(())
    }

    /// Asks what the connection's bytes ask, until it waits for an answer or nothing can be asked.
    pub(crate) fn serve(
        &mut self,
        context: Context<'_>,
        bank: &Bank<R>,
        number: u32,
        outputs: &mut Vec<Output<R>>,
    ) -> Result<(), Memory>
        requires suits { Suits R.holds R.takes (rules_in context).routes bank.now }
        requires told { IsAllTold number self.old.core }
        ensures leads { OnOk result (LeadsBy (terms_in R.holds R.takes context.entry)
            context.entry.when (ServesOut number)
            self.old outputs.old.items self.new outputs.new.items) }
        ensures back { MayGoBack self.old self.new }
        ensures waits { OnOk result (KeepsWaiting self.old.core self.new.core) }
        ensures places { vec_capacity outputs.old ≤ vec_capacity outputs.new }
        ensures full { OnErr result (vec_capacity outputs.old ≤ vec_len outputs.new) }
    {
        'each: while self.serve_next(context, bank, number, outputs)? {}
        Ok(())
    }

    /// Asks what the connection's bytes ask next. False where that is nothing, or memory is refused
    /// for it and the connection is given up.
    fn serve_next(
        &mut self,
        context: Context<'_>,
        bank: &Bank<R>,
        number: u32,
        outputs: &mut Vec<Output<R>>,
    ) -> Result<bool, Memory>
        requires suits { Suits R.holds R.takes (rules_in context).routes bank.now }
        requires told { IsAllTold number self.old.core }
        ensures leads { IfOk result (λ more. LeadsBy (terms_in R.holds R.takes context.entry)
            context.entry.when (ServesNext more number)
            self.old outputs.old.items self.new outputs.new.items) }
        ensures back { MayGoBack self.old self.new }
        ensures waits { OnOk result (KeepsWaiting self.old.core self.new.core) }
        ensures goes_on { IfOk result (λ more. GoesOn more number self.old self.new) }
        ensures places { vec_capacity outputs.old ≤ vec_capacity outputs.new }
        ensures full { OnErr result (vec_capacity outputs.old ≤ vec_len outputs.new) }
    {
        if !self.core.is_idle(number) {
            return Ok(false);
        }
        match self.table.next(number) {
            Ok(Next::Request(incoming)) => {
                self.ask(context, bank, number, incoming, outputs)?;
                Ok(true)
            }
            Ok(Next::Continue) => {
                self.tell_continue(context, number, outputs)?;
                Ok(false)
            }
            Ok(Next::Nothing) => Ok(false),
            Err(Memory) => {
                self.give_up(context, number, outputs)?;
                Ok(false)
            }
        }
    }

    /// Tells the client, which waits with its body, to go on.
    fn tell_continue(
        &mut self,
        context: Context<'_>,
        number: u32,
        outputs: &mut Vec<Output<R>>,
    ) -> Result<(), Memory>
        requires idle { HasConn self.old.core.state.conns number None }
        requires told { IsAllTold number self.old.core }
        ensures leads { (xs : List Inlet)
            → ChangesAt Continues number xs self.old.table.current
            → OnOk result (LeadsAfter (terms_in R.holds R.takes context.entry) context.entry.when
            (ServesOut number) self.old.core xs outputs.old.items self.new outputs.new.items) }
        ensures back { MayGoBack self.old self.new }
        ensures waits { OnOk result (KeepsWaiting self.old.core self.new.core) }
        ensures places { vec_capacity outputs.old ≤ vec_capacity outputs.new }
        ensures full { OnErr result (vec_capacity outputs.old ≤ vec_len outputs.new) }
    {
        match continue_told(self.alloc) {
            Ok(bytes) => tell_bytes(number, bytes, outputs),
            Err(Memory) => self.give_up(context, number, outputs),
        }
    }

    /// Asks what was read of the connection's bytes, and gives out what that leads to. An ask that
    /// the sealed journal doesn't take closes the connection; one for which memory is refused gives
    /// it up.
    fn ask(
        &mut self,
        context: Context<'_>,
        bank: &Bank<R>,
        number: u32,
        incoming: Incoming,
        outputs: &mut Vec<Output<R>>,
    ) -> Result<(), Memory>
        requires suits { Suits R.holds R.takes (rules_in context).routes bank.now }
        requires idle { HasConn self.old.core.state.conns number None }
        requires told { IsAllTold number self.old.core }
        ensures leads { (xs : List Inlet)
            → TakesItem number (item incoming) (unasked_in xs) (unasked_in self.old.table.current)
            → OnOk result (LeadsAfter (terms_in R.holds R.takes context.entry) context.entry.when
            (AreFor number) self.old.core xs outputs.old.items self.new outputs.new.items) }
        ensures back { MayGoBack self.old self.new }
        ensures waits { OnOk result (KeepsWaiting self.old.core self.new.core) }
        ensures less { OnOk result (work_at number self.new ≤ work_at number self.old) }
        ensures places { vec_capacity outputs.old ≤ vec_capacity outputs.new }
        ensures full { OnErr result (vec_capacity outputs.old ≤ vec_len outputs.new) }
    {
        let Ok(mapped) = map_request(self.alloc, context.settings, bank, incoming) else {
            return self.give_up(context, number, outputs);
        };
        let Ok(mapped) = Arc::new(self.alloc, mapped) else {
            return self.give_up(context, number, outputs);
        };
        let When { moment, word } = context.when;
        match self.core.ask(moment, word, number, mapped) {
            Ok(ticket) => {
                self.send_all(context, outputs)?;
                self.give(context, bank, &ticket, outputs)
            }
            Err(AskFault::Sealed) => self.shut(context, number, outputs),
            Err(AskFault::Memory) => self.give_up(context, number, outputs),
            Err(AskFault::Unknown) => unreachable!(),
            Err(AskFault::Pending) => unreachable!(),
        }
    }

    /// Gives out the answer that the ask has already, if any.
    fn give(
        &mut self,
        context: Context<'_>,
        bank: &Bank<R>,
        ticket: &Ticket<R>,
        outputs: &mut Vec<Output<R>>,
    ) -> Result<(), Memory>
        requires suits { Suits R.holds R.takes (rules_in context).routes bank.now }
        requires of { IsAskOf ticket.now.conn ticket.now.number self.old.core.state.entries }
        requires conn { IsOpen ticket.now.conn self.old.core.state.conns }
        requires sent { self.old.core.unsent ≡ [] }
        ensures leads { OnOk result (LeadsBy (terms_in R.holds R.takes context.entry)
            context.entry.when (AreFor ticket.now.conn)
            self.old outputs.old.items self.new outputs.new.items) }
        ensures back { MayGoBack self.old self.new }
        ensures waits { OnOk result (LetsGo ticket.now.number self.old.core self.new.core) }
        ensures less { OnOk result
            (work_at ticket.now.conn self.new ≤ work_at ticket.now.conn self.old) }
        ensures places { vec_capacity outputs.old ≤ vec_capacity outputs.new }
        ensures full { OnErr result (vec_capacity outputs.old ≤ vec_len outputs.new) }
    {
        match self.core.take_answer(ticket) {
            Some(answer) => self.tell(context, bank, answer, outputs),
            None => Ok(()),
        }
    }

    /// Tells the answer, which was taken, and closes its connection where it is the last. Where
    /// memory is refused for it nobody is told it, and its connection is given up.
    fn tell(
        &mut self,
        context: Context<'_>,
        bank: &Bank<R>,
        answer: Answer<R>,
        outputs: &mut Vec<Output<R>>,
    ) -> Result<(), Memory>
        requires suits { Suits R.holds R.takes (rules_in context).routes bank.now }
        requires conn { IsOpen answer.conn self.old.core.state.conns }
        requires sent { self.old.core.unsent ≡ [] }
        ensures leads { (v : CoreValue)
            → IsTaken (Some (given_of answer)) answer.ask v self.old.core
            → OnOk result (LeadsAfter (terms_in R.holds R.takes context.entry) context.entry.when
            (IsTelling answer.conn answer.ask) v self.old.table.current outputs.old.items
            self.new outputs.new.items) }
        ensures back { MayGoBack self.old self.new }
        ensures waits { OnOk result (KeepsWaiting self.old.core self.new.core) }
        ensures less { OnOk result (work_at answer.conn self.new ≤ work_at answer.conn self.old) }
        ensures places { vec_capacity outputs.old ≤ vec_capacity outputs.new }
        ensures full { OnErr result (vec_capacity outputs.old ≤ vec_len outputs.new) }
    {
        let number = answer.conn;
        match answer_told(self.alloc, context, bank, &answer) {
            Ok(bytes) => {
                tell_bytes(number, bytes, outputs)?;
                if closes(answer.mapped.came()) {
                    self.shut(context, number, outputs)
                } else {
                    Ok(())
                }
            }
            Err(Memory) => self.give_up(context, answer.conn, outputs),
        }
    }

    /// Closes the connection by the proxy's own choice.
    fn shut(
        &mut self,
        context: Context<'_>,
        number: u32,
        outputs: &mut Vec<Output<R>>,
    ) -> Result<(), Memory>
        requires conn { IsOpen number self.old.core.state.conns }
        ensures shut { OnOk result (IsShut context.entry.when number
            self.old outputs.old.items self.new outputs.new.items) }
        ensures back { MayGoBack self.old self.new }
        ensures places { vec_capacity outputs.old ≤ vec_capacity outputs.new }
        ensures full { OnErr result (vec_capacity outputs.old ≤ vec_len outputs.new) }
    {
        if !self.close(context, number) {
            unreachable!();
        }
        tell_closed(number, outputs)
    }

    /// Closes the connection since memory is refused for it.
    fn give_up(
        &mut self,
        context: Context<'_>,
        number: u32,
        outputs: &mut Vec<Output<R>>,
    ) -> Result<(), Memory>
        requires conn { IsOpen number self.old.core.state.conns }
        ensures up { OnOk result (IsGivenUp context.entry.when number
            self.old outputs.old.items self.new outputs.new.items) }
        ensures back { MayGoBack self.old self.new }
        ensures places { vec_capacity outputs.old ≤ vec_capacity outputs.new }
        ensures full { OnErr result (vec_capacity outputs.old ≤ vec_len outputs.new) }
    {
        if !self.close(context, number) {
            unreachable!();
        }
        tell_given_up(number, outputs)
    }
}
