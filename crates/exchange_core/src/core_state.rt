//! The core.

ghost use Rattle.std.specs.Prelude.{◌≡◌, ◌≤◌, ◌^◌, ◌↔◌, [], None, Err, IfErr, IfOk, IfSome, OnOk, OnErr, IsTrue, IsFalse, drop, length, option_map, min, map, sum_by};
ghost use Rattle.std.specs.Arc.{arc_value};
ghost use Rattle.journal_book.specs.Entries.{entry_size};
ghost use Rattle.journal_book.specs.Views.{ask_of, item_of};
ghost use Rattle.exchange_model.specs.Rotating.{fault_of};
ghost use Rattle.exchange_model.specs.Sealing.{ticks_in_room};
ghost use Rattle.std.specs.List.{reduce};
ghost use Rattle.history_laws.specs.Justified.{Stands};
ghost use Rattle.exchange_model.specs.Keeping.{start};
ghost use Rattle.exchange_model.specs.Room.{KeptInRoom};
ghost use Rattle.exchange_model.specs.Resting.{HasConn};
ghost use Rattle.exchange_core.specs.Serving.{IsFirstTaken, AreBelow, AreOlder};
ghost use Rattle.exchange_core.specs.Answering.{given_of};
ghost use Rattle.exchange_core.specs.Calls.{now, HearsSo, IsOpened, IsAsked, IsClosed, IsUnknown};
ghost use Rattle.exchange_core.specs.Due.{next_tick, IsNextTick};
ghost use Rattle.exchange_core.specs.Giving.{GivesNone, IsGivenOut};
ghost use Rattle.exchange_core.specs.Snapshots.{Grows, IsOf, MayRestore};
ghost use Rattle.exchange_core.specs.Values.{CoreValue, outgoing_of, stepped};
ghost use Rattle.exchange_core.specs.States.{core_of, number_in};
ghost use Rattle.exchange_core.specs.Rotating.{IsRefused, IsTurned};
ghost use Rattle.exchange_core.specs.Taking.{IsTaken, IsSent};

use crate::answer::{Answer, Ticket};
use crate::draft::Draft;
use crate::fault::{AskFault, OpenFault, RotateFault};
use crate::outgoing::Datagram;
use crate::snapshot::Snapshot;
use crate::state::State;
use crate::{asking, due, giving, hearing, opening, rotating, serving, snapshot, taking, ticking};
use ask_model::Mapped;
use endpoint_table::Endpoints;
use exchange_model::{Conn, Exchange};
use exchange_table::{Exchanges, Fetched, Readers, Stales};
use journal_book::{Entry, Journal};
use limits::LAST_MOMENT;
use observe_share::Watch;
use resp_cache::Store;
use std::alloc::{AllocError, Global};
use std::collections::VecDeque;
use std::marker::Model;
use std::sync::Arc;
use transformers::Relation;
use uri_map::Peer;

/// A proxy's journal, what is open, and what isn't taken yet. Its type keeps that one reading of
/// the journal is legal and at rest, that what is kept is what that reading says, and that room is
/// held free for what has to come.
pub struct Core<R: Relation> {
    alloc: Global,
    state: State<R>,
    /// the queues of what an ask or a datagram adds, which stay for the next
    draft: Draft<R>,
}

/// As derived; but written here, how all that it has is dropped is proved in this crate alone.
impl<R: Relation> Drop for Core<R> {
    fn drop(self) {
        let Core {
            alloc: _,
            state: _,
            draft: _,
        } = self;
    }
}

impl<R: Relation> Model for Core<R> {
    ghost use Rattle.exchange_core.specs.Values.{CoreValue};
    ghost use Rattle.exchange_core.specs.States.{seen};
    ghost use Rattle.exchange_core.specs.Sound.{IsSound};

    ghost Value = { CoreValue };

    ghost view = { λ c. seen c.state };

    ghost invariant = { λ c. IsSound c.state };
}

impl<R: Relation> Core<R> {
    /// A core with no entry. Its journal has the place of the Sealed; each step makes those of its
    /// entries.
    pub fn new(alloc: Global) -> Result<Core<R>, AllocError>
        ensures { IfOk result (λ c. c ≡ core_of start [] []) }
    {
        let endpoints = Endpoints::new(alloc)?;
        let mut journal = Journal::new(alloc);
        journal.make_room(1)?;
        Ok(Core {
            alloc,
            state: State {
                journal,
                sealed: false,
                bytes: 0,
                moment: 0,
                opened: 0,
                issued: 0,
                conns: Vec::new(alloc),
                exchanges: Exchanges::new(alloc),
                fetched: Fetched::new(alloc),
                stales: Stales::new(alloc),
                readers: Readers::new(alloc),
                watches: Watch::new(alloc),
                store: Store::new(alloc),
                endpoints,
                answers: Vec::new(alloc),
                sends: VecDeque::new(alloc),
            },
            draft: Draft::new(alloc, 0),
        })
    }

    /// The journal, one reading of which is legal and at rest, and says what the core keeps.
    pub fn journal(&self) -> &Journal<R>
        ensures entries { result.now.entries ≡ self.now.state.entries }
        ensures given { result.now.given ≡ self.now.state.given }
        ensures held { result.now.kept ≡ self.now.state.kept }
        ensures stands { Stands self.now.state.entries }
        ensures kept { KeptInRoom self.now.state }
    {
        &self.state.journal
    }

    /// The moment that counts at a call with this one, in milliseconds: none before the last, and
    /// none above 2^62.
    fn now(&self, moment: u64) -> u64
        ensures is { result ≡ now self.now.state.moment moment }
        ensures later { self.now.state.moment ≤ result }
        ensures early { result ≤ LAST_MOMENT }
    {
        self.state.moment.max(moment.min(LAST_MOMENT))
    }

    /// Opens a connection at this moment, under the next number. At most 256 are open; the first
    /// call that finds no room for it seals the journal.
    pub fn open(&mut self, moment: u64) -> Result<u32, OpenFault>
        ensures opens { IsOpened result (now self.old.state.moment moment) self.old self.new }
        ensures above { IfOk result (λ id. AreBelow id self.old.state.conns) }
    {
        let moment = self.now(moment);
        let id = opening::open(&mut self.state, moment)?;
        Ok(id)
    }

    /// Closes a connection at this moment, and tells whether it was open. It is answered nothing
    /// more; what it asked for goes on. It takes no memory.
    pub fn close(&mut self, moment: u64, conn: u32) -> bool
        ensures closed { IsTrue result
            → IsClosed (now self.old.state.moment moment) conn self.old self.new }
        ensures unknown { IsFalse result → (self.new ≡ self.old) × IsUnknown conn self.old }
    {
        let moment = self.now(moment);
        opening::close(&mut self.state, moment, conn)
    }

    /// Whether the connection is open and waits for no answer.
    pub fn is_idle(&self, conn: u32) -> bool
        ensures { IsTrue result ↔ HasConn self.now.state.conns conn None }
    {
        serving::is_idle(self.state.conns.as_slice(), conn)
    }

    /// Takes a request of a connection at this moment. A GET is answered by the response that is
    /// stored for it, while that is fresh, or joins the open exchange of an equal one, unless a
    /// write to its place has ended since that was opened (RFC 7252 section 5.6). Else the request
    /// begins an exchange, whose message goes out at once or waits for its turn at its endpoint
    /// (section 4.7), or it is answered at once: a refusal, or busy where 256 exchanges are open,
    /// 64 messages wait at the endpoint, or its message IDs are used up. The first call that finds
    /// no room for it seals the journal. The word is 64 random bits, for the token, the ID and the
    /// timeout.
    pub fn ask(
        &mut self,
        moment: u64,
        word: u64,
        conn: u32,
        mapped: Arc<Mapped<R>>,
    ) -> Result<Ticket<R>, AskFault>
        ensures asks { IsAsked (number_in result) (now self.old.state.moment moment) word conn
            (ask_of (arc_value mapped)) self.old self.new }
        ensures ticket { IfOk result (λ t. (t.conn ≡ conn)
            × (arc_value t.mapped ≡ arc_value mapped)) }
        ensures older { IfOk result (λ t. AreOlder t.number self.old.untaken) }
        ensures waits { result ≡ Err AskFault.Pending
            → HasConn self.old.state.conns conn None → ⊥ }
    {
        let moment = self.now(moment);
        asking::ask(
            self.alloc,
            &mut self.state,
            &mut self.draft,
            moment,
            word,
            conn,
            mapped,
        )
    }

    /// Takes a datagram that came from this endpoint at this moment (RFC 7252 sections 4.2 to 4.5
    /// and
    /// 5.3.2). The reply to a GET may be one piece of several: its exchange goes on then with a
    /// message that asks for the next one, under the next token, and ends with the last, or where
    /// that message finds no place (RFC 7959 section 2.4). The whole 2.05 that ends the exchange of
    /// a GET is stored, where no write outran that; and where a write ends, what is stored of its
    /// place goes (RFC 7252 sections 5.6, 5.9.2). The word is 64 random bits, for that token and
    /// its timeout.
    pub fn heard(
        &mut self,
        moment: u64,
        word: u64,
        peer: Peer,
        datagram: &[u8],
    ) -> Result<(), AllocError>
        ensures heard { OnOk result (HearsSo (now self.old.state.moment moment) word peer
            datagram.now self.old self.new) }
        ensures memory { OnErr result (self.new ≡ self.old) }
        ensures kept { KeptInRoom self.old.state }
    {
        let moment = self.now(moment);
        hearing::hear(
            self.alloc,
            &mut self.state,
            &mut self.draft,
            moment,
            word,
            peer,
            datagram,
        )
    }

    /// Does what is due at this moment (RFC 7252 sections 4.2 and 4.8.2): copies go out; messages
    /// that were sent five times in vain are given up, and the next ones go out; and asks are
    /// answered whose exchanges end with that, or were open for 93 seconds. Where writes end so,
    /// what is stored of their places goes. The first call that finds no room for it seals the
    /// journal. After the seal the asks alone are answered, for which room is held.
    pub fn tick(&mut self, moment: u64) -> Result<(), AllocError>
        ensures ticks { OnOk result (self.new
            ≡ stepped (ticks_in_room (now self.old.state.moment moment) self.old.state) self.old) }
        ensures memory { OnErr result (self.new ≡ self.old) }
        ensures kept { KeptInRoom self.old.state }
    {
        let moment = self.now(moment);
        ticking::tick(self.alloc, &mut self.state, moment)
    }

    /// Gives the sealed journal out at this moment, where nobody is connected and no exchange is
    /// open, and goes on with one that begins with copies: of the first sendings whose message IDs
    /// are in use (RFC 7252 section 4.4), of the messages that may still be repeated (section 4.5),
    /// and of what the responses rest on that stay stored. Numbers of tokens and connections go on.
    pub fn rotate(&mut self, moment: u64) -> Result<Journal<R>, RotateFault>
        ensures turned { IfOk result (λ given.
            IsTurned (now self.old.state.moment moment) given.entries self.old self.new) }
        ensures stands { IfOk result (λ given. Stands given.entries) }
        ensures refused { IfErr result (λ fault. (self.new ≡ self.old)
            × IsRefused (now self.old.state.moment moment) self.old.state fault) }
    {
        let moment = self.now(moment);
        rotating::rotate(self.alloc, &mut self.state, moment)
    }

    /// Gives the first 1,024 entries out that the journal has in memory, where it has as many: they
    /// stay entries of the history, under their numbers. What is looked up again of them is kept.
    /// Where the numbers of entries, tokens or connections are spent it gives none. It is refused
    /// for memory alone.
    pub fn give(&mut self) -> Result<Option<Vec<Entry<R>>>, AllocError>
        ensures given { IfOk result (λ o. IfSome o (λ segment.
            IsGivenOut (map item_of segment.items) self.old self.new)) }
        ensures none { IfOk result (λ o. o ≡ None → (self.new ≡ self.old)
            × GivesNone self.old.state) }
        ensures memory { OnErr result (self.new ≡ self.old) }
    {
        giving::give(self.alloc, &mut self.state)
    }

    /// The first reason against a turn of the journal at this moment, want of memory included.
    pub fn turn_fault(&self, moment: u64) -> Option<RotateFault>
        ensures refused { IfSome result (λ fault.
            IsRefused (now self.now.state.moment moment) self.now.state fault) }
        ensures none { result ≡ None
            → fault_of (now self.now.state.moment moment) self.now.state ≡ None }
    {
        let moment = self.now(moment);
        rotating::turn_fault(self.alloc, &self.state, moment)
    }

    /// How many bytes the entries count that the journal has in memory.
    pub fn bytes(&self) -> u64
        ensures { result
            ≡ sum_by entry_size (drop self.now.state.given self.now.state.entries) }
    {
        self.state.bytes
    }

    /// The connections that are open, in the order in which they were opened.
    pub fn conns(&self) -> &[Conn]
        ensures { result.now ≡ self.now.state.conns }
    {
        self.state.conns.as_slice()
    }

    /// The exchanges that are open, in the order in which they were opened.
    pub fn exchanges(&self) -> &[Exchange]
        ensures { result.now ≡ self.now.state.exchanges }
    {
        self.state.exchanges.as_slice()
    }

    /// How many responses are stored.
    pub fn stored_count(&self) -> usize
        ensures { result ≡ length self.now.state.store }
    {
        self.state.store.len()
    }

    /// The moment of the next tick that has something to do, if any has: none before it changes the
    /// core. After the seal, exchanges count that somebody waits for, and nothing else does.
    pub fn next_due(&self) -> Option<u64>
        ensures is { result ≡ next_tick self.now.state }
        ensures exact { IsNextTick result self.now.state }
    {
        due::next_tick(&self.state)
    }

    /// The first of the asks whose answers aren't taken yet.
    pub fn first_answered(&self) -> Option<u32>
        ensures { result ≡ reduce min (map (λ u. u.ask) self.now.untaken) }
    {
        taking::least_ask(self.state.answers.as_slice())
    }

    /// Takes the answer to an ask, which is given once. It takes no memory.
    pub fn take_answer(&mut self, ticket: &Ticket<R>) -> Option<Answer<R>>
        ensures { IsTaken (option_map given_of result) ticket.now.number self.old self.new }
    {
        taking::take_answer(&mut self.state.answers, ticket.number)
    }

    /// Takes the answer to the first of the asks whose answers aren't taken yet. It takes no
    /// memory.
    pub fn take_first(&mut self) -> Option<Answer<R>>
        ensures { IsFirstTaken (option_map given_of result) self.old self.new }
    {
        serving::take_first(&mut self.state.answers)
    }

    /// Takes the first datagram that wasn't taken. It takes no memory.
    pub fn take_send(&mut self) -> Option<Datagram>
        ensures { IsSent (option_map outgoing_of result) self.old self.new }
    {
        self.state.sends.pop_front()
    }

    /// What the core is.
    pub fn snapshot(&self) -> Result<Snapshot<R>, AllocError>
        ensures { IfOk result (λ s. IsOf s self.now) }
    {
        let now = snapshot::take_snapshot(self.alloc, &self.state)?;
        Ok(now)
    }

    /// Goes back to what the core was, where since then entries were only added, and none was given
    /// out. It takes no memory.
    pub fn restore(&mut self, snapshot: Snapshot<R>)
        requires { MayRestore snapshot self.old }
        ensures { (core : CoreValue) → IsOf snapshot core
            → Grows core.state.entries self.old.state.entries
            → self.old.state.given ≡ core.state.given → self.old.state.kept ≡ core.state.kept
            → self.new ≡ core }
    {
        snapshot::put_back(&mut self.state, snapshot);
    }
}
