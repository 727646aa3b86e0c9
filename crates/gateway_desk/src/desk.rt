//! The desk: a shop that sessions share under one lock.

ghost use Rattle.std.specs.Prelude.{◌≡◌, ◌≢◌, ◌+◌, ◌≤◌, ◌<◌, ◌++◌, ◌∷◌, [], length, take, sum_by, IfOk, IfErr, IfSome, IsTrue, IsFalse, OnOk, OnErr};
ghost use Rattle.std.specs.Arc.{arc_value};
ghost use Rattle.std.specs.List.{All};
ghost use Rattle.history_laws.specs.Justified.{Stands};
ghost use Rattle.gateway_desk.specs.Ledgers.{asks_of};
ghost use Rattle.gateway_desk.specs.Lines.{Slip, made, got};
ghost use Rattle.gateway_desk.specs.Settled.{IsJustified, AreApart, answered};

use crate::bells::Bells;
use crate::clock::Clock;
use crate::desk_state::{AllSent, ClosedPass, ClosedStub, DeskState, Heard, Ticked};
use crate::pass::{Pass, Stub};
use crate::receipt::Receipt;
use crate::report::Report;
use crate::shop::Shop;
use crate::turning::TurnFault;
use crate::wire::{Inbound, Unsent};
use ask_model::Mapped;
use exchange_core::{AskFault, OpenFault, Ticket};
use http_edge::Memory;
use journal_book::Journal;
use std::alloc::Global;
use std::sync::atomic::{AtomicBool, Ordering};
use std::sync::ledger::Ledger;
use std::sync::{Arc, Condvar, Mutex, Wait};
use std::time::Duration;
use transformers::Relation;
use uri_map::Peer;

/// How long one rests at most who lets time go on, in milliseconds.
const LONGEST_REST: u64 = 60_000;

/// How long one rests at least who had no memory to let time go on, in milliseconds.
const PAUSE: u64 = 50;

/// A shop and its clock under one lock, which is held for one step at a time, and never from an ask
/// to its answer. Whenever it is free, one reading of the journal there is legal and at rest.
#[derive(Drop)]
pub struct LockedDesk<R: Relation, C: Clock, L: Ledger> {
    state: Mutex<DeskState<R, C, L>>,
    /// wake those who wait for an answer
    bells: Bells,
    /// wakes the one who lets time go on
    due: Condvar,
    /// The journal is nearly full: no connection is opened until it is turned over.
    closing: AtomicBool,
    /// wakes the one who turns it over
    full: Condvar,
    /// wakes those who wait until it is
    turned: Condvar,
}

impl<R: Relation, C: Clock, L: Ledger> LockedDesk<R, C, L> {
    /// A desk over a shop and a clock.
    pub fn new(alloc: Global, shop: Shop<R, L>, clock: C) -> Result<LockedDesk<R, C, L>, Memory> {
        Ok(LockedDesk {
            state: Mutex::new(DeskState::new(shop, clock)),
            bells: Bells::new(alloc)?,
            due: Condvar::new(),
            closing: AtomicBool::new(false),
            full: Condvar::new(),
            turned: Condvar::new(),
        })
    }

    /// The shop, once the threads that shared it have ended.
    pub fn into_shop(self) -> Shop<R, L> {
        let LockedDesk {
            state,
            bells: _,
            due: _,
            closing: _,
            full: _,
            turned: _,
        } = self;
        state.into_inner().into_shop()
    }

    /// Wakes the one who turns the journal over, once it is nearly full.
    fn look(&self, state: &DeskState<R, C, L>) {
        if state.is_nearly_full() && !self.closing.swap(true, Ordering::SeqCst) {
            self.full.notify_all();
        }
    }

    /// Whether the journal is nearly full, so that sessions end, each with the answer to its next
    /// request, and no connection is opened. It takes no lock.
    pub fn is_closing(&self) -> bool {
        self.closing.load(Ordering::SeqCst)
    }

    /// Opens a connection. A desk that was shut, or whose journal is nearly full, answers that its
    /// journal is sealed.
    pub fn open<W: Wait>(&self, rt: &W) -> Result<Pass<R, L>, OpenFault>
        ensures { IfOk result (λ p. p.lines ≡ []) }
    {
        let mut guard = self.state.lock(rt);
        if self.is_closing() {
            return Err(OpenFault::Sealed);
        }
        let state = &mut *guard;
        let pass = state.open();
        self.look(state);
        pass
    }

    /// Waits until the journal is turned over, where it is nearly full. False where the desk was
    /// shut.
    pub fn wait_turned<W: Wait>(&self, rt: &W) -> bool {
        let mut guard = self.state.lock(rt);
        for _ in rt.forever() {
            if guard.is_shut() {
                return false;
            }
            if !self.is_closing() {
                return true;
            }
            guard = self.turned.wait(rt, guard);
        }
        unreachable!()
    }

    /// Waits until the journal is nearly full. False where the desk was shut.
    pub fn wait_full<W: Wait>(&self, rt: &W) -> bool {
        let mut guard = self.state.lock(rt);
        for _ in rt.forever() {
            if guard.is_shut() {
                return false;
            }
            if self.is_closing() {
                return true;
            }
            guard = self.full.wait(rt, guard);
        }
        unreachable!()
    }

    /// Whether no exchange is open and no message outstanding, or the journal is sealed already.
    pub fn is_quiet<W: Wait>(&self, rt: &W) -> bool {
        let guard = self.state.lock(rt);
        guard.is_quiet()
    }

    /// Brings the journal to its seal by connections that are opened and closed at once. It is for
    /// a desk where nobody is connected, since 256 may be.
    pub fn fill_up<W: Wait>(&self, rt: &W) -> Result<(), OpenFault>
        ensures { IfErr result (λ fault. fault ≢ OpenFault.Sealed) }
    {
        let mut guard = self.state.lock(rt);
        guard.fill_up()
    }

    /// Gives the sealed journal out and goes on with the next one, where nobody is connected, no
    /// exchange is open, and the journal justifies all that the passes note and has no ask but
    /// theirs. Then connections are opened again. Else all passes are handed back.
    pub fn turn<W: Wait>(
        &self,
        rt: &W,
        passes: Vec<Pass<R, L>>,
    ) -> Result<(Journal<R>, Report), TurnFault<R, L>>
        ensures stands { IfOk result (λ given. Stands given.0.entries) }
        ensures justified { IfOk result (λ given. All (IsJustified given.0.entries) passes.items) }
        ensures apart { OnOk result (AreApart (answered passes.items)) }
        ensures whole { IfOk result (λ given. asks_of given.0.entries
            ≡ sum_by (λ p. p.amount) passes.items) }
        ensures asks { IfOk result (λ given. given.1.asks ≡ asks_of given.0.entries) }
        ensures answers { IfOk result (λ given. given.1.answers
            ≡ length (answered passes.items)) }
        ensures back { IfErr result (λ fault. fault.passes ≡ passes) }
    {
        let mut guard = self.state.lock(rt);
        let given = guard.turn_over(passes)?;
        self.closing.store(false, Ordering::SeqCst);
        self.turned.notify_all();
        self.due.notify_one();
        Ok(given)
    }

    /// Asks on the connection of a pass, and notes the ask there.
    pub fn ask<W: Wait>(
        &self,
        rt: &W,
        pass: &mut Pass<R, L>,
        mapped: Arc<Mapped<R>>,
    ) -> Result<Ticket<R>, AskFault>
        ensures ticket { IfOk result (λ t. (t.conn ≡ pass.old.conn)
            × (arc_value t.mapped ≡ arc_value mapped)) }
        ensures lines { IfOk result (λ t. pass.new.lines ≡ pass.old.lines ++ made t.number ∷ []) }
        ensures places { IfOk result (λ t. 0 < pass.new.places) }
        ensures conn { pass.new.conn ≡ pass.old.conn }
        ensures none { OnErr result (pass.new.lines ≡ pass.old.lines) }
    {
        let mut guard = self.state.lock(rt);
        let state = &mut *guard;
        let ticket = state.ask(pass, mapped);
        if state.is_due_sooner() {
            self.due.notify_one();
        }
        self.look(state);
        ticket
    }

    /// Waits for the answer to a ticket. None where the desk was shut. It takes no memory, and no
    /// work while it waits.
    pub fn answer<W: Wait>(&self, rt: &W, ticket: Ticket<R>) -> Option<Receipt<R>>
        ensures number { IfSome result (λ r. (r.number ≡ ticket.number)
            × (r.answer.ask ≡ ticket.number)) }
        ensures request { IfSome result (λ r. arc_value r.answer.mapped ≡ arc_value ticket.mapped) }
    {
        let bell = self.bells.of(ticket.conn);
        let mut guard = self.state.lock(rt);
        for _ in rt.forever() {
            let state = &mut *guard;
            if let Some(answer) = state.collect(&ticket) {
                return Some(Receipt::of(ticket, answer));
            }
            if state.is_shut() {
                return None;
            }
            guard = bell.wait(rt, guard);
        }
        unreachable!()
    }

    /// Waits for the answer to a ticket, and puts its receipt last into the pass. False where the
    /// desk was shut. It takes no memory, and no work while it waits.
    pub fn wait<W: Wait>(&self, rt: &W, pass: &mut Pass<R, L>, ticket: Ticket<R>) -> bool
        requires { 0 < pass.old.places }
        ensures kept { IsTrue result → (s : Slip) × (s.number ≡ ticket.number)
            × (s.given.ask ≡ ticket.number) × (s.given.mapping ≡ arc_value ticket.mapped)
            × (pass.new.lines ≡ pass.old.lines ++ got s ∷ []) }
        ensures same { IsFalse result → pass.new ≡ pass.old }
        ensures conn { pass.new.conn ≡ pass.old.conn }
    {
        match self.answer(rt, ticket) {
            Some(receipt) => {
                pass.keep(receipt);
                true
            }
            None => false,
        }
    }

    /// Takes a datagram that came in, which lies at the front of this buffer.
    pub fn heard<'a, W: Wait>(
        &self,
        rt: &W,
        inbound: Inbound,
        buffer: &'a [u8],
    ) -> Result<Heard<'a>, Memory>
        requires { inbound.count ≤ length buffer.now }
        ensures { IfOk result (λ h. (h.peer ≡ inbound.peer)
            × (h.bytes.now ≡ take inbound.count buffer.now)) }
    {
        let (heard, first) = {
            let mut guard = self.state.lock(rt);
            let state = &mut *guard;
            let from = state.journal().len();
            let heard = state.heard(inbound, buffer)?;
            if state.is_due_sooner() {
                self.due.notify_one();
            }
            self.look(state);
            (heard, self.bells.ring(state.journal(), from))
        };
        self.bells.wake(first);
        Ok(heard)
    }

    /// Lets time go on.
    pub fn tick<W: Wait>(&self, rt: &W) -> Result<Ticked, Memory> {
        let (ticked, first) = {
            let mut guard = self.state.lock(rt);
            let state = &mut *guard;
            let from = state.journal().len();
            let ticked = state.tick()?;
            self.look(state);
            (ticked, self.bells.ring(state.journal(), from))
        };
        self.bells.wake(first);
        Ok(ticked)
    }

    /// Rests until there is something to do for `tick`, or a minute at most; after a tick that
    /// memory was refused for, so that it is still due, at least for a pause. It takes no work
    /// while nothing is due. False where the desk was shut.
    pub fn rest<W: Wait + std::rt::Clock>(&self, rt: &W, was_refused: bool) -> bool {
        let least = if was_refused { PAUSE } else { 0 };
        let mut guard = self.state.lock(rt);
        let state = &mut *guard;
        if state.is_shut() {
            return false;
        }
        match state.rest(least) {
            Some(0) => {}
            Some(time) => {
                let time = Duration::from_millis(time.min(LONGEST_REST));
                let (_guard, _) = self.due.wait_timeout(rt, guard, time);
            }
            None => {
                let _guard = self.due.wait(rt, guard);
            }
        }
        true
    }

    /// Takes the first datagram that isn't sent yet.
    pub fn take_send<W: Wait>(&self, rt: &W) -> Result<Unsent, AllSent> {
        let mut guard = self.state.lock(rt);
        guard.take_send()
    }

    /// Closes the connection of a pass, where it is open.
    pub fn close<W: Wait>(&self, rt: &W, pass: Pass<R, L>) -> ClosedPass<R, L>
        ensures conn { result.conn ≡ pass.conn }
        ensures lines { result.lines ≡ pass.lines }
        ensures amount { result.amount ≡ pass.amount }
    {
        let mut guard = self.state.lock(rt);
        guard.close(pass)
    }

    /// Closes the connection of a pass that is lost, since no session could be started for it,
    /// where it is open.
    pub fn close_lost<W: Wait>(&self, rt: &W, stub: Stub) -> ClosedStub {
        let mut guard = self.state.lock(rt);
        guard.close_lost(stub)
    }

    /// Lets sessions wait no more, and nobody wait for a turn, for good.
    pub fn shut<W: Wait>(&self, rt: &W) {
        let mut guard = self.state.lock(rt);
        guard.shut();
        self.bells.ring_all();
        self.due.notify_all();
        self.full.notify_all();
        self.turned.notify_all();
    }

    /// Whether the desk was shut.
    pub fn is_shut<W: Wait>(&self, rt: &W) -> bool {
        let guard = self.state.lock(rt);
        guard.is_shut()
    }
}
