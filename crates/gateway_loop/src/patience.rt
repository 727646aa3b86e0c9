//! Clients that stand still: how long the loop bears with them.

ghost use Rattle.std.specs.Prelude.{◌≡◌, IfOk};
ghost use Rattle.transformers.specs.Suits.{Suits};

use crate::gateway::Gateway;
use crate::host::Host;
use crate::sockets::{Stream, Wire};
use crate::turns::Loop;
use crate::waits::{On, Waits};
use http_edge::Memory;
use transformers::{Bank, Relation};

/// How often connections are looked at, in milliseconds.
pub(crate) const SWEEP: u64 = 1000;

/// How far behind the next number that of a stream that is parked may be. It gets another one then, so
/// that of the places between little is kept.
const FAR: u32 = 65_536;

/// How long clients are borne with, and how many.
#[derive(Clone, Copy, Debug, PartialEq, Eq)]
pub struct Patience {
    /// For how many milliseconds a client may stand still in a request, or with an answer.
    pub idle: u64,
    /// Within how many the head of a request has to be whole.
    pub head: u64,
    /// How many clients may be connected.
    pub connections: usize,
}

impl<R: Relation, S: Stream + Drop, W: Wire + Drop> Gateway<R, S, W> {
    /// Looks at the connection, at this moment.
    pub fn look(&mut self, number: u32, moment: u64)
        ensures { self.new ≡ self.old }
    {
        self.ends.clients.look(number, moment);
    }

    /// Keeps nothing more of connections that ended before all others, once they are many.
    pub fn forget(&mut self)
        ensures { self.new ≡ self.old }
    {
        self.ends.clients.forget();
    }

    /// Why the connection is borne with no more, if it isn't: its client has stood still in a request,
    /// or hasn't taken all that is left for it in time, or the head of its request isn't whole in time.
    pub fn overdue(&self, number: u32, moment: u64, patience: Patience) -> Option<Why> {
        let Waits { on, times, .. } = self.ends.clients.waits(number)?;
        let still = match on {
            On::Request => times.heading.is_some() && times.stood(moment) >= patience.idle,
            On::Rest => times.stood(moment) >= patience.idle && self.is_idle(number),
            On::Reader => times.waited(moment) >= patience.idle,
        };
        if still {
            Some(Why::Still)
        } else if times.headed(moment) >= patience.head {
            Some(Why::Heading)
        } else {
            None
        }
    }

    /// How readily the connection is closed for another one, where none can be parked: those first
    /// whose clients ended while they wait for answers, then those that have waited longest for the
    /// rest of a request, at least so many milliseconds.
    pub fn readiness(&self, number: u32, moment: u64, least: u64) -> Option<Readiness> {
        let waits = self.ends.clients.waits(number)?;
        let kind = self.kind_of(number, waits)?;
        let time = waits.times.waited(moment);
        if kind != Kind::Gone && time < least {
            return None;
        }
        Some(Readiness { kind, time })
    }

    fn kind_of(&self, number: u32, waits: Waits) -> Option<Kind> {
        let idle = self.is_idle(number);
        match waits.on {
            On::Rest if !idle && waits.ended => Some(Kind::Gone),
            On::Rest if idle => Some(Kind::Rest),
            _ => None,
        }
    }
}

/// Why a connection may be closed for another one.
#[derive(Clone, Copy, Debug, PartialEq, Eq)]
pub enum Kind {
    /// Its client ended, and its answer isn't there yet.
    Gone,
    /// It waits for the rest of a request.
    Rest,
}

/// How readily a connection is closed for another one.
#[derive(Clone, Copy, Debug, PartialEq, Eq)]
pub struct Readiness {
    kind: Kind,
    /// for how long it has waited so, in milliseconds
    time: u64,
}

/// A connection that was closed though its client said nothing of it, since others wait.
#[derive(Clone, Copy, Debug, PartialEq, Eq)]
pub struct GivenUp {
    pub number: u32,
    pub why: Why,
}

/// Why it was.
#[derive(Clone, Copy, Debug, PartialEq, Eq)]
pub enum Why {
    /// Its client stood still in a request, or before an answer.
    Still,
    /// One more came, and its client had left before its answer was there.
    Gone,
    /// One more came, and the rest of its request hadn't come for so many milliseconds.
    Idle(u64),
    /// The head of its request wasn't whole in time.
    Heading,
    /// One more came, and of all that were parked it had asked nothing for longest.
    Crowded,
}

impl Readiness {
    /// Why a connection is closed for another one.
    fn why(self) -> Why {
        match self.kind {
            Kind::Gone => Why::Gone,
            Kind::Rest => Why::Idle(self.time),
        }
    }

    /// Whether a connection is closed before the other one.
    fn is_before(self, other: Readiness) -> bool {
        match (self.kind, other.kind) {
            (Kind::Gone, Kind::Gone) | (Kind::Rest, Kind::Rest) => self.time > other.time,
            (Kind::Gone, Kind::Rest) => true,
            (Kind::Rest, Kind::Gone) => false,
        }
    }
}

impl<R: Relation, S: Stream + Drop, W: Wire + Drop> Loop<R, S, W> {
    /// Ends the connections whose clients stand still for too long. It looks once a second.
    pub(crate) fn sweep<H: Host<S>>(
        self,
        bank: &Bank<R>,
        host: &mut H,
    ) -> Result<Loop<R, S, W>, Memory>
        requires suits { Suits R.holds R.takes self.gateway.world.rules.routes bank.now }
        ensures rules { IfOk result (λ l. l.gateway.world.rules ≡ self.gateway.world.rules) }
    {
        let mut it = self;
        if it.rest.moment < it.rest.sweeps {
            return Ok(it);
        }
        it.rest.sweeps = it.rest.moment.saturating_add(SWEEP);
        it.rest.full = false;
        it.gateway.forget();
        it.forget_parked();
        'each: for number in it.gateway.first_number()..it.gateway.next_number() {
            it = it.look_at(bank, host, number)?;
        }
        Ok(it)
    }

    /// Looks at the connection, and ends it where its client stands still for too long.
    fn look_at<H: Host<S>>(
        self,
        bank: &Bank<R>,
        host: &mut H,
        number: u32,
    ) -> Result<Loop<R, S, W>, Memory>
        requires suits { Suits R.holds R.takes self.gateway.world.rules.routes bank.now }
        ensures rules { IfOk result (λ l. l.gateway.world.rules ≡ self.gateway.world.rules) }
    {
        let mut it = self;
        let moment = it.rest.moment;
        it.gateway.look(number, moment);
        if it.is_far(number) {
            return it.queue_up(bank, host, number);
        }
        match it.gateway.overdue(number, moment, it.rest.patience) {
            Some(why) => it.give_up(bank, host, number, why),
            None => Ok(it),
        }
    }

    /// Whether the stream of the connection is parked, and its number is far behind the next.
    fn is_far(&self, number: u32) -> bool {
        self.gateway.next_number().saturating_sub(number) > FAR && self.gateway.is_asleep(number)
    }

    /// Closes the connection, and keeps why until the next turn.
    pub(crate) fn give_up<H: Host<S>>(
        self,
        bank: &Bank<R>,
        host: &mut H,
        number: u32,
        why: Why,
    ) -> Result<Loop<R, S, W>, Memory>
        requires suits { Suits R.holds R.takes self.gateway.world.rules.routes bank.now }
        ensures rules { IfOk result (λ l. l.gateway.world.rules ≡ self.gateway.world.rules) }
    {
        let mut it = self.end(bank, host, number)?;
        let _ = it.rest.given_up.push(GivenUp { number, why });
        Ok(it)
    }

    /// Makes place for one more connection, where as many are open as may be: the one that has asked
    /// nothing for longest is parked, or, where all ask something, one is closed that may be.
    pub(crate) fn make_place<H: Host<S>>(
        self,
        bank: &Bank<R>,
        host: &mut H,
    ) -> Result<Loop<R, S, W>, Memory>
        requires suits { Suits R.holds R.takes self.gateway.world.rules.routes bank.now }
        ensures rules { IfOk result (λ l. l.gateway.world.rules ≡ self.gateway.world.rules) }
    {
        if self.gateway.has_place() {
            return Ok(self);
        }
        if let Some(number) = self.gateway.longest_idle() {
            return self.park(bank, host, number);
        }
        match self.readiest() {
            Some((number, readiness)) => self.give_up(bank, host, number, readiness.why()),
            None => Ok(self),
        }
    }

    /// Whether there is a place for one more connection, or one can be made.
    pub(crate) fn may_make_place(&self) -> bool {
        self.gateway.has_place()
            || self.gateway.longest_idle().is_some()
            || self.readiest().is_some()
    }

    /// The connection that is closed for another one, if one may be.
    fn readiest(&self) -> Option<(u32, Readiness)> {
        let moment = self.rest.moment;
        let mut found: Option<(u32, Readiness)> = None;
        'each: for conn in self.gateway.world.core().conns() {
            let least = self.rest.patience.idle;
            let Some(readiness) = self.gateway.readiness(conn.id, moment, least) else {
                continue 'each;
            };
            let is_first = match found {
                Some((_, most)) => readiness.is_before(most),
                None => true,
            };
            if is_first {
                found = Some((conn.id, readiness));
            }
        }
        found
    }
}
