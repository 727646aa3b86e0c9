//! The core that sessions share, beside the book of their asks.

ghost use Rattle.std.specs.Prelude.{◌≡◌, ◌≢◌, ◌⊎◌, ◌+◌, ◌-◌, ◌<◌, ◌^◌, ◌++◌, ◌∷◌, [], Ok, Err, IfOk, IfErr, OnOk, OnErr, IsTrue, IsFalse, length, option_map, sum_by};
ghost use Rattle.std.specs.List.{All};
ghost use Rattle.std.specs.Arc.{arc_value};
ghost use Rattle.journal_book.specs.Views.{ask_of};
ghost use Rattle.history_laws.specs.Justified.{Stands};
ghost use Rattle.exchange_model.specs.Rotating.{is_nearly_full};
ghost use Rattle.exchange_model.specs.Keeping.{start};
ghost use Rattle.exchange_model.specs.Room.{KeptInRoom};
ghost use Rattle.exchange_model.specs.Sealing.{ticks_in_room};
ghost use Rattle.exchange_core.specs.Answering.{given_of};
ghost use Rattle.exchange_core.specs.Calls.{now, IsOpened, IsAsked, IsClosed, IsUnknown, HearsSo};
ghost use Rattle.exchange_core.specs.Due.{next_tick, IsNextTick};
ghost use Rattle.exchange_core.specs.Rotating.{IsTurned};
ghost use Rattle.exchange_core.specs.Serving.{AreBelow, AreOlder};
ghost use Rattle.exchange_core.specs.States.{core_of};
ghost use Rattle.exchange_core.specs.Taking.{IsTaken, IsSent};
ghost use Rattle.exchange_core.specs.Values.{outgoing_of, stepped};
ghost use Rattle.gateway_desk.specs.Ledgers.{asks_of};
ghost use Rattle.gateway_desk.specs.Lines.{made};
ghost use Rattle.gateway_desk.specs.Sending.{AreUnsent};
ghost use Rattle.gateway_desk.specs.Settled.{IsJustified, AreApart, answered};
ghost use Rattle.gateway_desk.specs.Turning.{PassesBy, PassUntil, FillsUp, IsUnturned};

use crate::pass::Pass;
use crate::report::Report;
use crate::settling::settled;
use crate::turning::{TurnFault, spend_all};
use ask_model::Mapped;
use exchange_core::{Answer, AskFault, Core, Datagram, OpenFault, Ticket};
use http_edge::Memory;
use journal_book::Journal;
use limits::{NEARLY_ALL_ENTRIES, NEARLY_ALL_LEN};
use std::alloc::Global;
use std::marker::Model;
use std::sync::Arc;
use std::sync::ledger::{Blank, Book, Ledger, Share};
use transformers::Relation;
use uri_map::Peer;

/// More connections than a journal has entries.
const MORE_THAN_FIT: u64 = 65_537;

/// A core, and the book of the ledger of asks. Its type keeps that the journal has as many asks as
/// the book counts, and so as many as the shares of all passes; and that what waits to be sent are
/// the last of the datagrams that the journal sends.
#[derive(Drop)]
pub struct Shop<R: Relation, L: Ledger> {
    alloc: Global,
    core: Core<R>,
    book: Book<L>,
    rest: Share<L>,
    /// how many more passes it gives
    left: u32,
}

impl<R: Relation, L: Ledger> Model for Shop<R, L> {
    ghost use Rattle.std.specs.Prelude.{◌≡◌};
    ghost use Rattle.gateway_desk.specs.Held.{ShopValue};
    ghost use Rattle.gateway_desk.specs.Ledgers.{asks_of};
    ghost use Rattle.gateway_desk.specs.Sending.{AreUnsent};

    ghost Value = { ShopValue };

    ghost view = { λ s. record { core = s.core; left = s.left } };

    ghost invariant = { λ s. (asks_of s.core.state.entries ≡ s.book.total)
        × AreUnsent s.core.state.entries s.core.unsent
        × (s.rest.amount ≡ 0) × (s.rest.parts ≡ s.left) × (s.core.state.given ≡ 0) };
}

impl<R: Relation, L: Ledger> Shop<R, L> {
    /// A shop to which nothing has happened.
    pub fn new(alloc: Global, blank: Blank) -> Result<Shop<R, L>, Memory>
        requires name { blank.name ≡ L.name }
        requires parts { (blank.parts ≡ L.parts) × (blank.parts ≡ 2 ^ 32 - 1) }
        ensures core { IfOk result (λ s. s.core ≡ core_of start [] []) }
        ensures left { IfOk result (λ s. s.left ≡ 2 ^ 32 - 1) }
    {
        let core = Core::new(alloc)?;
        let (book, rest) = blank.open::<L>();
        Ok(Shop {
            alloc,
            core,
            book,
            rest,
            left: 4294967295,
        })
    }

    /// What happened, from the beginning on. One reading of it is legal and at rest, and says what
    /// the core keeps.
    pub fn journal(&self) -> &Journal<R>
        ensures entries { result.now.entries ≡ self.now.core.state.entries }
        ensures given { result.now.given ≡ self.now.core.state.given }
        ensures whole { result.now.given ≡ 0 }
        ensures stands { Stands self.now.core.state.entries }
        ensures kept { KeptInRoom self.now.core.state }
    {
        self.core.journal()
    }

    /// Opens a connection. It is full where the core is, and where 2^32 - 1 passes were given.
    pub fn open(&mut self, moment: u64) -> Result<Pass<R, L>, OpenFault>
        ensures opens { IfOk result (λ p. IsOpened (Ok p.conn)
            (now self.old.core.state.moment moment) self.old.core self.new.core) }
        ensures above { IfOk result (λ p. AreBelow p.conn self.old.core.state.conns) }
        ensures lines { IfOk result (λ p. p.lines ≡ []) }
        ensures amount { IfOk result (λ p. p.amount ≡ 0) }
        ensures left { IfOk result (λ p. self.new.left + 1 ≡ self.old.left) }
        ensures none_left { self.old.left ≡ 0
            → (result ≡ Err OpenFault.Full) × (self.new ≡ self.old) }
        ensures refused { IfErr result (λ fault. IsOpened (Err fault)
            (now self.old.core.state.moment moment) self.old.core self.new.core
            ⊎ (self.old.left ≡ 0)) }
        ensures kept { OnErr result (self.new.left ≡ self.old.left) }
    {
        if self.left == 0 {
            return Err(OpenFault::Full);
        }
        let conn = self.core.open(moment)?;
        let share = self.rest.split_off(1, 0);
        self.left -= 1;
        Ok(Pass::new(self.alloc, conn, share))
    }

    /// Asks on the connection of a pass, and notes the ask there. It makes the places of the ask's
    /// note and of its receipt's.
    pub fn ask(
        &mut self,
        moment: u64,
        word: u64,
        pass: &mut Pass<R, L>,
        mapped: Arc<Mapped<R>>,
    ) -> Result<Ticket<R>, AskFault>
        ensures ticket { IfOk result (λ t. (t.conn ≡ pass.old.conn)
            × (arc_value t.mapped ≡ arc_value mapped)) }
        ensures asks { IfOk result (λ t. IsAsked (Ok t.number)
            (now self.old.core.state.moment moment) word pass.old.conn
            (ask_of (arc_value mapped)) self.old.core self.new.core) }
        ensures older { IfOk result (λ t. AreOlder t.number self.old.core.untaken) }
        ensures refused { IfErr result (λ fault. IsAsked (Err fault)
            (now self.old.core.state.moment moment) word pass.old.conn
            (ask_of (arc_value mapped)) self.old.core self.new.core
            ⊎ ((fault ≡ AskFault.Memory) × (self.new ≡ self.old))) }
        ensures lines { IfOk result (λ t. pass.new.lines ≡ pass.old.lines ++ made t.number ∷ []) }
        ensures amount { IfOk result (λ t. pass.new.amount ≡ pass.old.amount + 1) }
        ensures places { IfOk result (λ t. 0 < pass.new.places) }
        ensures conn { pass.new.conn ≡ pass.old.conn }
        ensures none { OnErr result (pass.new.lines ≡ pass.old.lines) }
        ensures left { self.new.left ≡ self.old.left }
    {
        if pass.make_places().is_err() {
            return Err(AskFault::Memory);
        }
        let ticket = self.core.ask(moment, word, pass.conn(), mapped)?;
        pass.count(&mut self.book, ticket.number);
        Ok(ticket)
    }

    /// Takes a datagram that came from this peer. The word is for the next message of an exchange
    /// that goes on by it.
    pub fn heard(&mut self, moment: u64, word: u64, peer: Peer, bytes: &[u8]) -> Result<(), Memory>
        ensures heard { OnOk result (HearsSo (now self.old.core.state.moment moment) word peer
            bytes.now self.old.core self.new.core) }
        ensures memory { OnErr result (self.new ≡ self.old) }
        ensures left { self.new.left ≡ self.old.left }
    {
        self.core.heard(moment, word, peer, bytes)?;
        Ok(())
    }

    /// Lets time go on: copies go out, messages that were sent in vain are given up, and asks are
    /// answered that waited too long.
    pub fn tick(&mut self, moment: u64) -> Result<(), Memory>
        ensures ticks { OnOk result (self.new.core
            ≡ stepped (ticks_in_room (now self.old.core.state.moment moment) self.old.core.state)
            self.old.core) }
        ensures memory { OnErr result (self.new ≡ self.old) }
        ensures left { self.new.left ≡ self.old.left }
    {
        self.core.tick(moment)?;
        Ok(())
    }

    /// Closes a connection. False where it isn't open.
    pub fn close(&mut self, moment: u64, conn: u32) -> bool
        ensures closed { IsTrue result
            → IsClosed (now self.old.core.state.moment moment) conn self.old.core self.new.core }
        ensures unknown { IsFalse result
            → (self.new ≡ self.old) × IsUnknown conn self.old.core }
        ensures left { self.new.left ≡ self.old.left }
    {
        self.core.close(moment, conn)
    }

    /// Takes the answer to an ask, which is given once, and stands in the journal with its grounds.
    pub fn take_answer(&mut self, ticket: &Ticket<R>) -> Option<Answer<R>>
        ensures taken { IsTaken (option_map given_of result) ticket.now.number
            self.old.core self.new.core }
        ensures left { self.new.left ≡ self.old.left }
    {
        self.core.take_answer(ticket)
    }

    /// Takes the first datagram that isn't sent yet.
    pub fn take_send(&mut self) -> Option<Datagram>
        ensures sent { IsSent (option_map outgoing_of result) self.old.core self.new.core }
        ensures unsent { AreUnsent self.old.core.state.entries self.old.core.unsent }
        ensures left { self.new.left ≡ self.old.left }
    {
        self.core.take_send()
    }

    /// The moment of the next tick that has something to do, if any has.
    pub fn next_due(&self) -> Option<u64>
        ensures is { result ≡ next_tick self.now.core.state }
        ensures exact { IsNextTick result self.now.core.state }
    {
        self.core.next_due()
    }

    /// Whether its journal is nearly full. What is left then takes two more requests of each of 256
    /// connections, with all copies of their messages.
    pub fn is_nearly_full(&self) -> bool
        ensures { result ≡ is_nearly_full self.now.core.state.entries }
    {
        let entries = self.core.journal().len() as u64;
        entries >= NEARLY_ALL_ENTRIES || self.core.bytes() >= NEARLY_ALL_LEN
    }

    /// Opens a connection and closes it at once. It costs nobody a pass.
    fn pass_by(&mut self, moment: u64) -> Result<(), OpenFault>
        ensures passes { OnOk result (PassesBy moment self.old.core self.new.core) }
        ensures refused { IfErr result (λ fault. IsOpened (Err fault)
            (now self.old.core.state.moment moment) self.old.core self.new.core) }
        ensures left { self.new.left ≡ self.old.left }
    {
        let number = self.core.open(moment)?;
        self.core.close(moment, number);
        Ok(())
    }

    /// Brings the journal to its seal by entries that cost nobody: connections are opened and
    /// closed at once. It is for a shop where nobody is connected. Where one isn't opened for
    /// another reason, those before it stay in the journal.
    pub fn fill_up(&mut self, moment: u64) -> Result<(), OpenFault>
        ensures fills { OnOk result (FillsUp moment self.old.core self.new.core) }
        ensures refused { IfErr result (λ fault. (fault ≢ OpenFault.Sealed)
            × PassUntil fault moment self.old.core self.new.core) }
        ensures left { self.new.left ≡ self.old.left }
    {
        'each: for _ in 0..MORE_THAN_FIT {
            match self.pass_by(moment) {
                Ok(()) => {}
                Err(OpenFault::Sealed) => return Ok(()),
                Err(fault) => return Err(fault),
            }
        }
        // each of them is an entry, and no journal has as many
        let _journal = self.journal();
        unreachable!()
    }

    /// Gives its sealed journal out, where nobody is connected, no exchange is open, and the
    /// journal justifies all that the passes note and has no ask but theirs; and goes on with one
    /// that begins with copies (`Core::rotate`). The passes are spent: what is settled next is the
    /// new journal's. What the core refuses comes first, want of memory excepted, and then what
    /// settling does. Where it is refused, all passes are handed back.
    pub fn turn_over(
        &mut self,
        passes: Vec<Pass<R, L>>,
        moment: u64,
    ) -> Result<(Journal<R>, Report), TurnFault<R, L>>
        ensures turned { IfOk result (λ given. IsTurned (now self.old.core.state.moment moment)
            given.0.entries self.old.core self.new.core) }
        ensures stands { IfOk result (λ given. Stands given.0.entries) }
        ensures justified { IfOk result (λ given. All (IsJustified given.0.entries) passes.items) }
        ensures apart { OnOk result (AreApart (answered passes.items)) }
        ensures whole { IfOk result (λ given. asks_of given.0.entries
            ≡ sum_by (λ p. p.amount) passes.items) }
        ensures asks { IfOk result (λ given. given.1.asks ≡ asks_of given.0.entries) }
        ensures answers { IfOk result (λ given. given.1.answers
            ≡ length (answered passes.items)) }
        ensures refused { IfErr result (λ fault. IsUnturned (now self.old.core.state.moment moment)
            self.old.core passes.items fault.why) }
        ensures unchanged { OnErr result (self.new ≡ self.old) }
        ensures back { IfErr result (λ fault. fault.passes ≡ passes) }
        ensures left { self.new.left ≡ self.old.left }
    {
        if let Some(fault) = self.core.turn_fault(moment) {
            return Err(TurnFault::rotate(fault, passes));
        }
        let report = match settled(self.alloc, self.core.journal(), &passes) {
            Ok(report) => report,
            Err(fault) => return Err(TurnFault::settle(fault, passes)),
        };
        match self.core.rotate(moment) {
            Ok(journal) => {
                spend_all(&mut self.book, passes);
                Ok((journal, report))
            }
            Err(fault) => Err(TurnFault::rotate(fault, passes)),
        }
    }
}
