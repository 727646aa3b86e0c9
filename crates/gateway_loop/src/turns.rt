//! The loop.

ghost use Rattle.std.specs.Prelude.{◌≡◌, [], IfOk};
ghost use Rattle.gateway_loop.specs.Sockets.{Are};
ghost use Rattle.transformers.specs.Suits.{Suits};

use crate::farewells::Farewells;
use crate::gateway::Gateway;
use crate::host::{Host, Sign};
use crate::leaving::Held;
use crate::patience::{GivenUp, Patience};
use crate::sockets::{Stream, Wire};
use crate::waiting::Waiting;
use gateway_world::When;
use http_edge::Memory;
use std::alloc::AllocError;
use transformers::{Bank, Relation};

/// How many clients are taken, and how many datagrams heard, at a sign of them, before others have
/// their turn.
pub(crate) const AT_ONCE: usize = 64;

/// How many signs are looked at in a turn.
const SIGNS: usize = 1024;

/// How long nobody is taken after the system gave no connection, and time doesn't go on after memory
/// was refused for it, in milliseconds.
pub(crate) const PAUSE: u64 = 50;

/// How many bytes are read at once.
const ROOM: usize = 8192;

/// The longest wait, in milliseconds.
const LONGEST: u64 = 60_000;

/// Why the loop goes on no more.
#[derive(Clone, Copy, Debug, PartialEq, Eq)]
pub enum Stop {
    /// The clock failed.
    Clock,
    /// Signs can't be waited for.
    Wait,
    /// Numbers are spent: nothing leaves memory any more, and it can hardly hold more.
    Spent,
}

/// The earlier of two moments, of those that there are.
fn sooner(a: Option<u64>, b: Option<u64>) -> Option<u64> {
    match (a, b) {
        (Some(a), Some(b)) => Some(a.min(b)),
        (Some(a), None) => Some(a),
        (None, b) => b,
    }
}

/// What the loop keeps beside its gateway.
#[derive(Drop)]
pub(crate) struct Rest {
    pub(crate) farewells: Farewells,
    pub(crate) buffer: Vec<u8>,
    /// The moment of the last turn.
    pub(crate) moment: u64,
    /// Before which moment time doesn't go on, since memory was refused for it.
    pub(crate) again: u64,
    /// The moment of the next tick that has something to do, as the last turn left it.
    due: Option<u64>,
    /// In how many turns time didn't go on though something was due, since datagrams came.
    pub(crate) put_off: u32,
    /// Datagrams may have come in.
    pub(crate) wire: bool,
    /// Clients may want connections, and nobody is taken before that moment.
    pub(crate) clients: bool,
    pub(crate) resumes: u64,
    /// No place could be made, and none got free since.
    pub(crate) full: bool,
    /// The next place is for one more client, if one is there.
    pub(crate) new_is_next: bool,
    /// Those whose streams wait for places, and those that were parked: who was first comes first.
    pub(crate) queue: Waiting,
    pub(crate) parked: Waiting,
    /// How long clients are borne with.
    pub(crate) patience: Patience,
    /// The moment at which connections are looked at again.
    pub(crate) sweeps: u64,
    /// The moment at which whoever drives the loop looks at it again, if that is known.
    looks: Option<u64>,
    /// How much of the history is held.
    pub(crate) held: Held,
    /// Numbers are spent: nothing of it leaves memory any more.
    pub(crate) spent: bool,
    /// Those that were given up in the last turn.
    pub(crate) given_up: Vec<GivenUp>,
}

/// The gateway as a loop, and what it has still to look at though no sign will tell of it again.
#[derive(Drop)]
pub struct Loop<R: Relation, S: Stream, W: Wire> {
    pub(crate) gateway: Gateway<R, S, W>,
    /// In a place of its own, so that who hands a loop on moves little.
    pub(crate) rest: Box<Rest>,
}

impl<R: Relation, S: Stream + Drop, W: Wire + Drop> Loop<R, S, W> {
    /// A loop that looks at everything first, bears so long with its clients, and holds so much of
    /// its history.
    pub fn new(
        gateway: Gateway<R, S, W>,
        patience: Patience,
        held: Held,
    ) -> Result<Loop<R, S, W>, AllocError>
        ensures { IfOk result (λ l. l.gateway ≡ gateway) }
    {
        let alloc = gateway.alloc();
        let rest = Rest {
            farewells: Farewells::new(alloc),
            buffer: vec![in alloc; 0u8; ROOM]?,
            moment: 0,
            again: 0,
            due: None,
            put_off: 0,
            wire: true,
            clients: true,
            resumes: 0,
            full: false,
            new_is_next: false,
            queue: Waiting::new(alloc),
            parked: Waiting::new(alloc),
            patience,
            sweeps: 0,
            looks: None,
            held,
            spent: false,
            given_up: Vec::new(alloc),
        };
        Ok(Loop {
            gateway,
            rest: Box::new(alloc, rest).map_err(AllocError::from)?,
        })
    }

    /// Waits until there may be something to do, and looks what moment it is then: a turn is due. Where
    /// it can't, the loop goes on no more, and may still be looked at.
    pub fn wait<H: Host<S>>(&mut self, host: &mut H) -> Result<(), Stop>
        ensures { self.new.gateway ≡ self.old.gateway }
    {
        if self.rest.spent && self.gateway.is_nearly_full() {
            return Err(Stop::Spent);
        }
        if !host.wait(self.longest_wait()) {
            return Err(Stop::Wait);
        }
        match host.moment() {
            Some(moment) => self.rest.moment = moment,
            None => return Err(Stop::Clock),
        }
        Ok(())
    }

    /// One turn: looks at the signs, and lets all go on that may have something to do. Only where
    /// memory is refused for a place among more outputs than any input gives out, the loop is gone.
    pub fn turn<H: Host<S>>(self, bank: &Bank<R>, host: &mut H) -> Result<Loop<R, S, W>, Memory>
        requires suits { Suits R.holds R.takes self.gateway.world.rules.routes bank.now }
        ensures rules { IfOk result (λ l. l.gateway.world.rules ≡ self.gateway.world.rules) }
    {
        let mut it = self;
        it.rest.given_up.clear();
        it.take_signs(host);
        let it = it.seat_all(bank, host)?;
        let it = it.hear_all(bank, host)?;
        let mut it = it.go_on(bank, host)?;
        it.gateway.let_go();
        it.rest.due = it.gateway.next_due();
        // Mostly that is all, and then the loop isn't handed on to whoever would only look.
        if it.is_over() {
            return Ok(it);
        }
        it.end_turn(bank, host)
    }

    /// Whether nothing else is due in this turn.
    fn is_over(&self) -> bool {
        !self.is_time(self.rest.due)
            && self.rest.moment < self.rest.sweeps
            && !self.rest.farewells.any_over(self.rest.moment)
    }

    /// Does what else is due.
    fn end_turn<H: Host<S>>(self, bank: &Bank<R>, host: &mut H) -> Result<Loop<R, S, W>, Memory>
        requires suits { Suits R.holds R.takes self.gateway.world.rules.routes bank.now }
        ensures rules { IfOk result (λ l. l.gateway.world.rules ≡ self.gateway.world.rules) }
    {
        let it = self.end_farewells(bank, host)?;
        let it = it.pass(bank, host)?;
        let mut it = it.sweep(bank, host)?;
        it.rest.due = it.gateway.next_due();
        Ok(it)
    }

    /// The loop waits no longer than until then, if anything, so that who drives it looks at it.
    pub fn look_again(&mut self, moment: Option<u64>)
        ensures { self.new.gateway ≡ self.old.gateway }
    {
        self.rest.looks = moment;
    }

    /// How long to wait: not at all where something is left to do, else until the next tick is due,
    /// a farewell is over, clients are taken again, connections are looked at, or the loop is.
    fn longest_wait(&self) -> Option<u64> {
        if self.rest.wire || self.gateway.have_turns() || self.has_waiting() {
            return Some(0);
        }
        let resumes = if self.wants_clients() {
            Some(self.rest.resumes)
        } else {
            None
        };
        let sweeps = if self.gateway.streams() > 0 {
            Some(self.rest.sweeps)
        } else {
            None
        };
        let due = self.rest.due.map(|due| due.max(self.rest.again));
        let until = sooner(due, self.rest.farewells.next_due());
        let until = sooner(until, sweeps);
        let until = sooner(until, self.rest.looks);
        let until = sooner(until, resumes)?;
        Some(until.saturating_sub(self.rest.moment).min(LONGEST))
    }

    /// Looks at the signs that there are.
    fn take_signs<H: Host<S>>(&mut self, host: &mut H)
        ensures { self.new.gateway.world ≡ self.old.gateway.world }
    {
        'each: for _ in 0..SIGNS {
            match host.sign() {
                Some(Sign::Clients) => self.rest.clients = true,
                Some(Sign::Wire) => self.rest.wire = true,
                Some(Sign::Ready(number)) => self.gateway.wake(number, false),
                Some(Sign::Ended(number)) => self.gateway.wake(number, true),
                None => return,
            }
        }
    }

    /// When an input of this turn is, with a word of its own.
    pub(crate) fn when<H: Host<S>>(&self, host: &mut H) -> When {
        When {
            moment: self.rest.moment,
            word: host.word(),
        }
    }
}
