//! What lies under the lock of a desk.

ghost use Rattle.std.specs.Prelude.{◌≡◌, ◌≢◌, ◌⊎◌, ◌≤◌, ◌<◌, ◌++◌, ◌∷◌, [], length, take, Ok, Err, IfOk, IfErr, OnOk, OnErr, MatchResult, Some, None, is_some, not, option_map, sum_by, true, false};
ghost use Rattle.std.specs.Arc.{arc_value};
ghost use Rattle.std.specs.List.{All};
ghost use Rattle.journal_book.specs.Views.{ask_of};
ghost use Rattle.history_laws.specs.Justified.{Stands};
ghost use Rattle.exchange_model.specs.Rotating.{is_nearly_full};
ghost use Rattle.exchange_model.specs.Sealing.{ticks_in_room};
ghost use Rattle.exchange_core.specs.Answering.{given_of};
ghost use Rattle.exchange_core.specs.Calls.{now, IsOpened, IsAsked, IsClosed, IsUnknown, HearsSo};
ghost use Rattle.exchange_core.specs.Due.{next_tick, IsNextTick};
ghost use Rattle.exchange_core.specs.Rotating.{IsTurned};
ghost use Rattle.exchange_core.specs.Taking.{IsTaken, IsSent};
ghost use Rattle.exchange_core.specs.Values.{stepped};
ghost use Rattle.gateway_desk.specs.Ledgers.{asks_of};
ghost use Rattle.gateway_desk.specs.Lines.{made};
ghost use Rattle.gateway_desk.specs.Resting.{rest_time, rest_until, is_sooner};
ghost use Rattle.gateway_desk.specs.Sending.{AreUnsent};
ghost use Rattle.gateway_desk.specs.Settled.{IsJustified, AreApart, answered};
ghost use Rattle.gateway_desk.specs.Turning.{PassUntil, FillsUp, IsUnturned};

use crate::clock::Clock;
use crate::pass::{Pass, Stub};
use crate::report::Report;
use crate::shop::Shop;
use crate::turning::TurnFault;
use crate::wire::{Inbound, Unsent};
use ask_model::Mapped;
use exchange_core::{Answer, AskFault, OpenFault, Ticket};
use http_edge::Memory;
use journal_book::Journal;
use std::marker::Model;
use std::sync::Arc;
use std::sync::ledger::Ledger;
use transformers::Relation;
use uri_map::Peer;

/// A shop with its clock: each step is made at the clock's moment, with the clock's word.
#[derive(Drop)]
pub struct DeskState<R: Relation, C: Clock, L: Ledger> {
    shop: Shop<R, L>,
    clock: C,
    /// sessions wait no more
    shut: bool,
    /// until when the one who lets time go on rests, in milliseconds
    rests_until: u64,
}

/// What is left of a pass whose connection was closed. Closing it makes one, and nothing else.
#[derive(Drop)]
pub struct ClosedPass<R: Relation, L: Ledger> {
    pass: Pass<R, L>,
}

impl<R: Relation, L: Ledger> Model for ClosedPass<R, L> {
    ghost use Rattle.gateway_desk.specs.Held.{Held};

    ghost Value = { Held };

    ghost view = { λ c. c.pass };
}

impl<R: Relation, L: Ledger> ClosedPass<R, L> {
    /// The pass, with which `settle` tells whether what it notes is justified.
    pub fn into_pass(self) -> Pass<R, L>
        ensures lines { result.lines ≡ self.lines }
        ensures amount { result.amount ≡ self.amount }
    {
        let ClosedPass { pass } = self;
        pass
    }
}

/// The mark of a step under the lock: what bears one is made by that step, and by nothing else.
#[derive(Drop)]
struct Mark;

/// A datagram that was heard.
#[derive(Drop)]
pub struct Heard<'a> {
    pub peer: Peer,
    pub bytes: &'a [u8],
    mark: Mark,
}

/// Time went on.
#[derive(Drop)]
pub struct Ticked {
    pub clock_failed: bool,
    mark: Mark,
}

/// No datagram waits to be sent.
#[derive(Drop)]
pub struct AllSent {
    mark: Mark,
}

/// The connection of a pass that is lost was closed.
#[derive(Drop)]
pub struct ClosedStub {
    mark: Mark,
}

impl<R: Relation, C: Clock, L: Ledger> DeskState<R, C, L> {
    /// A shop, whose sessions wait.
    pub fn new(shop: Shop<R, L>, clock: C) -> DeskState<R, C, L>
        ensures { result.shop ≡ shop }
    {
        DeskState {
            shop,
            clock,
            shut: false,
            rests_until: 0,
        }
    }

    /// The shop.
    pub fn into_shop(self) -> Shop<R, L>
        ensures { result ≡ self.shop }
    {
        let DeskState {
            shop,
            clock: _,
            shut: _,
            rests_until: _,
        } = self;
        shop
    }

    /// What happened.
    pub fn journal(&self) -> &Journal<R>
        ensures entries { result.now.entries ≡ self.now.shop.core.state.entries }
        ensures stands { Stands result.now.entries }
    {
        self.shop.journal()
    }

    /// Lets sessions wait no more.
    pub fn shut(&mut self)
        ensures shut { self.new.shut ≡ true }
        ensures shop { self.new.shop ≡ self.old.shop }
    {
        self.shut = true;
    }

    /// Whether sessions wait no more.
    pub fn is_shut(&self) -> bool
        ensures { result ≡ self.now.shut }
    {
        self.shut
    }

    /// Opens a connection. Where sessions wait no more, the journal counts as sealed.
    pub fn open(&mut self) -> Result<Pass<R, L>, OpenFault>
        ensures opens { IfOk result (λ p. IsOpened (Ok p.conn)
            (now self.old.shop.core.state.moment (C.time self.new.clock))
            self.old.shop.core self.new.shop.core) }
        ensures lines { IfOk result (λ p. p.lines ≡ []) }
        ensures refused { IfErr result (λ fault. IsOpened (Err fault)
            (now self.old.shop.core.state.moment (C.time self.new.clock))
            self.old.shop.core self.new.shop.core
            ⊎ ((self.old.shop.left ≡ 0) ⊎ (self.old.shut ≡ true))) }
        ensures shut { self.old.shut ≡ true
            → (result ≡ Err OpenFault.Sealed) × (self.new.shop ≡ self.old.shop) }
    {
        if self.shut {
            return Err(OpenFault::Sealed);
        }
        let moment = self.clock.moment();
        self.shop.open(moment)
    }

    /// Asks on the connection of a pass.
    pub fn ask(
        &mut self,
        pass: &mut Pass<R, L>,
        mapped: Arc<Mapped<R>>,
    ) -> Result<Ticket<R>, AskFault>
        ensures ticket { IfOk result (λ t. (t.conn ≡ pass.old.conn)
            × (arc_value t.mapped ≡ arc_value mapped)) }
        ensures asks { IfOk result (λ k. IsAsked (Ok k.number)
            (now self.old.shop.core.state.moment (C.time self.new.clock))
            (C.drawn self.new.clock) pass.old.conn (ask_of (arc_value mapped))
            self.old.shop.core self.new.shop.core) }
        ensures lines { IfOk result (λ t. pass.new.lines ≡ pass.old.lines ++ made t.number ∷ []) }
        ensures places { IfOk result (λ t. 0 < pass.new.places) }
        ensures conn { pass.new.conn ≡ pass.old.conn }
        ensures none { OnErr result (pass.new.lines ≡ pass.old.lines) }
        ensures refused { IfErr result (λ fault. IsAsked (Err fault)
            (now self.old.shop.core.state.moment (C.time self.new.clock))
            (C.drawn self.new.clock) pass.old.conn (ask_of (arc_value mapped))
            self.old.shop.core self.new.shop.core
            ⊎ ((fault ≡ AskFault.Memory) × (self.new.shop ≡ self.old.shop))) }
    {
        let moment = self.clock.moment();
        let word = self.clock.word();
        self.shop.ask(moment, word, pass, mapped)
    }

    /// Takes a datagram, which lies at the front of this buffer.
    pub fn heard<'a>(&mut self, inbound: Inbound, buffer: &'a [u8]) -> Result<Heard<'a>, Memory>
        requires { inbound.count ≤ length buffer.now }
        ensures is { IfOk result (λ h. (h.peer ≡ inbound.peer)
            × (h.bytes.now ≡ take inbound.count buffer.now)) }
        ensures heard { OnOk result (HearsSo
            (now self.old.shop.core.state.moment (C.time self.new.clock))
            (C.drawn self.new.clock) inbound.peer (take inbound.count buffer.now)
            self.old.shop.core self.new.shop.core) }
        ensures memory { OnErr result (self.new.shop ≡ self.old.shop) }
    {
        let (peer, bytes) = inbound.open(buffer);
        let moment = self.clock.moment();
        let word = self.clock.word();
        self.shop.heard(moment, word, peer, bytes)?;
        Ok(Heard {
            peer,
            bytes,
            mark: Mark,
        })
    }

    /// Lets time go on.
    pub fn tick(&mut self) -> Result<Ticked, Memory>
        ensures clock { IfOk result (λ t. t.clock_failed ≡ false
            → C.count self.new.clock ≡ C.count self.old.clock) }
        ensures ticks { OnOk result (self.new.shop.core ≡ stepped (ticks_in_room
            (now self.old.shop.core.state.moment (C.time self.new.clock))
            self.old.shop.core.state) self.old.shop.core) }
        ensures memory { OnErr result (self.new.shop ≡ self.old.shop) }
    {
        let faults = self.clock.faults();
        let moment = self.clock.moment();
        self.shop.tick(moment)?;
        Ok(Ticked {
            clock_failed: self.clock.faults() != faults,
            mark: Mark,
        })
    }

    /// Takes the first datagram that isn't sent yet.
    pub fn take_send(&mut self) -> Result<Unsent, AllSent>
        ensures sent { MatchResult result
            (λ d. IsSent (Some d) self.old.shop.core self.new.shop.core)
            (λ _. IsSent None self.old.shop.core self.new.shop.core) }
        ensures unsent { AreUnsent self.old.shop.core.state.entries self.old.shop.core.unsent }
    {
        match self.shop.take_send() {
            Some(datagram) => Ok(Unsent::new(datagram)),
            None => Err(AllSent { mark: Mark }),
        }
    }

    /// Closes the connection of a pass, where it is open.
    pub fn close(&mut self, pass: Pass<R, L>) -> ClosedPass<R, L>
        ensures closes { IsClosed
            (now self.old.shop.core.state.moment (C.time self.new.clock)) pass.conn
            self.old.shop.core self.new.shop.core
            ⊎ ((self.new.shop ≡ self.old.shop) × IsUnknown pass.conn self.old.shop.core) }
        ensures conn { result.conn ≡ pass.conn }
        ensures lines { result.lines ≡ pass.lines }
        ensures amount { result.amount ≡ pass.amount }
    {
        let moment = self.clock.moment();
        self.shop.close(moment, pass.conn());
        ClosedPass { pass }
    }

    /// Closes the connection of a pass that is lost, where it is open.
    pub fn close_lost(&mut self, stub: Stub) -> ClosedStub
        ensures { IsClosed
            (now self.old.shop.core.state.moment (C.time self.new.clock)) stub
            self.old.shop.core self.new.shop.core
            ⊎ ((self.new.shop ≡ self.old.shop) × IsUnknown stub self.old.shop.core) }
    {
        let moment = self.clock.moment();
        self.shop.close(moment, stub.conn());
        ClosedStub { mark: Mark }
    }

    /// Takes the answer to a ticket.
    pub fn collect(&mut self, ticket: &Ticket<R>) -> Option<Answer<R>>
        ensures { IsTaken (option_map given_of result) ticket.now.number
            self.old.shop.core self.new.shop.core }
    {
        self.shop.take_answer(ticket)
    }

    /// Whether the one who lets time go on has to be woken, since there is something to do sooner.
    pub fn is_due_sooner(&self) -> bool
        ensures { result ≡ is_sooner (next_tick self.now.shop.core.state) self.now.rests_until }
    {
        match self.shop.next_due() {
            Some(due) => due < self.rests_until,
            None => false,
        }
    }

    /// How long the one who lets time go on rests, in milliseconds: until there is something to do,
    /// and so long at least; without end where nothing is open.
    pub fn rest(&mut self, least: u64) -> Option<u64>
        ensures rests { result ≡ rest_time (next_tick self.old.shop.core.state)
            (C.time self.new.clock) least }
        ensures until { self.new.rests_until ≡ rest_until (next_tick self.old.shop.core.state) }
        ensures exact { IsNextTick (next_tick self.old.shop.core.state) self.old.shop.core.state }
        ensures shop { self.new.shop ≡ self.old.shop }
    {
        let moment = self.clock.moment();
        match self.shop.next_due() {
            Some(due) => {
                self.rests_until = due;
                Some(due.saturating_sub(moment).max(least))
            }
            None => {
                self.rests_until = u64::MAX;
                None
            }
        }
    }

    /// Whether the journal is nearly full.
    pub fn is_nearly_full(&self) -> bool
        ensures { result ≡ is_nearly_full self.now.shop.core.state.entries }
    {
        self.shop.is_nearly_full()
    }

    /// Whether no tick has anything to do: no exchange is open and no message outstanding, or the
    /// journal is sealed and nobody waits.
    pub fn is_quiet(&self) -> bool
        ensures { result ≡ not (is_some (next_tick self.now.shop.core.state)) }
    {
        self.shop.next_due().is_none()
    }

    /// Brings the journal to its seal by connections that are opened and closed at once.
    pub fn fill_up(&mut self) -> Result<(), OpenFault>
        ensures fills { OnOk result (FillsUp (C.time self.new.clock)
            self.old.shop.core self.new.shop.core) }
        ensures refused { IfErr result (λ fault. (fault ≢ OpenFault.Sealed)
            × PassUntil fault (C.time self.new.clock) self.old.shop.core self.new.shop.core) }
        ensures left { self.new.shop.left ≡ self.old.shop.left }
    {
        let moment = self.clock.moment();
        self.shop.fill_up(moment)
    }

    /// Gives the sealed journal out, and goes on with the next one.
    pub fn turn_over(
        &mut self,
        passes: Vec<Pass<R, L>>,
    ) -> Result<(Journal<R>, Report), TurnFault<R, L>>
        ensures turned { IfOk result (λ given. IsTurned
            (now self.old.shop.core.state.moment (C.time self.new.clock)) given.0.entries
            self.old.shop.core self.new.shop.core) }
        ensures stands { IfOk result (λ given. Stands given.0.entries) }
        ensures justified { IfOk result (λ given. All (IsJustified given.0.entries) passes.items) }
        ensures apart { OnOk result (AreApart (answered passes.items)) }
        ensures whole { IfOk result (λ given. asks_of given.0.entries
            ≡ sum_by (λ p. p.amount) passes.items) }
        ensures asks { IfOk result (λ given. given.1.asks ≡ asks_of given.0.entries) }
        ensures answers { IfOk result (λ given. given.1.answers
            ≡ length (answered passes.items)) }
        ensures refused { IfErr result (λ fault. IsUnturned
            (now self.old.shop.core.state.moment (C.time self.new.clock)) self.old.shop.core
            passes.items fault.why) }
        ensures unchanged { OnErr result (self.new.shop ≡ self.old.shop) }
        ensures back { IfErr result (λ fault. fault.passes ≡ passes) }
    {
        let moment = self.clock.moment();
        self.shop.turn_over(passes, moment)
    }
}
