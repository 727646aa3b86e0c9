//! Which connections have places in the world, and who waits for one.

ghost use Rattle.std.specs.Prelude.{◌≡◌, [], true, IfOk, IfSome};
ghost use Rattle.gateway_loop.specs.Gateways.{MayGoOn};
ghost use Rattle.gateway_loop.specs.Sockets.{Are};
ghost use Rattle.transformers.specs.Suits.{Suits};

use crate::gateway::Gateway;
use crate::host::{Accepted, Host};
use crate::patience::Why;
use crate::sockets::{Stream, Wire};
use crate::stage::Stage;
use crate::turns::{AT_ONCE, Loop, PAUSE};
use http_edge::Memory;
use transformers::{Bank, Relation};

/// How many connections a world takes.
const MOST_OPEN: usize = 256;

impl<R: Relation, S: Stream + Drop, W: Wire + Drop> Gateway<R, S, W> {
    /// How many clients are connected, also those whose streams have no place.
    pub fn streams(&self) -> usize {
        self.ends.clients.streams()
    }

    /// Whether the world has a place for one more connection.
    pub fn has_place(&self) -> bool {
        self.world.core().conns().len() < MOST_OPEN
    }

    /// Whether the stream of the connection is parked, and asks nothing.
    pub fn is_asleep(&self, number: u32) -> bool {
        let clients = &self.ends.clients;
        clients.stage(number) == Some(Stage::Parked)
            && !clients.is_queued(number)
            && !clients.has_head(number)
    }

    /// The stream of the connection waits for a place from now on. Answers whether it didn't yet.
    pub fn queue_up(&mut self, number: u32) -> bool
        ensures { self.new ≡ self.old }
    {
        self.ends.clients.queue_up(number)
    }

    /// Whether the connection is between two requests, of which one was answered since it has its
    /// place: so that others may have theirs before its next one.
    pub fn may_give_way(&self, number: u32) -> bool
        ensures { result ≡ true → MayGoOn number self.now }
    {
        self.ends.clients.had_turn(number) && self.is_between(number)
    }

    /// The connection that has asked nothing for longest, of those that may give their places away.
    pub fn longest_idle(&self) -> Option<u32>
        ensures { IfSome result (λ n. MayGoOn n self.now) }
    {
        let number = self.find_longest_idle()?;
        if self.is_between(number) {
            Some(number)
        } else {
            None
        }
    }

    /// The connection that has asked nothing for longest.
    fn find_longest_idle(&self) -> Option<u32> {
        let mut found: Option<(u32, u64)> = None;
        'each: for conn in self.world.core().conns() {
            let Some(since) = self.ends.clients.idle_since(conn.id) else {
                continue 'each;
            };
            let is_first = match found {
                Some((_, first)) => since < first,
                None => true,
            };
            if is_first && self.is_between(conn.id) {
                found = Some((conn.id, since));
            }
        }
        Some(found?.0)
    }
}

impl<R: Relation, S: Stream + Drop, W: Wire + Drop> Loop<R, S, W> {
    /// Parks the connection: its place is free, and its stream goes on as another one once it asks
    /// something.
    pub(crate) fn park<H: Host<S>>(
        self,
        bank: &Bank<R>,
        host: &mut H,
        number: u32,
    ) -> Result<Loop<R, S, W>, Memory>
        requires suits { Suits R.holds R.takes self.gateway.world.rules.routes bank.now }
        requires idle { MayGoOn number self.gateway }
        ensures rules { IfOk result (λ l. l.gateway.world.rules ≡ self.gateway.world.rules) }
    {
        let mut it = self;
        let when = it.when(host);
        it.gateway = it.gateway.park(bank, when, number)?;
        // What came of it already is looked at.
        it.gateway.line_up(number);
        it.rest.full = false;
        let _ = it.rest.parked.push(number);
        Ok(it)
    }

    /// The stream of the connection, which is parked, waits for a place. Where memory is refused for
    /// that, it ends.
    pub(crate) fn queue_up<H: Host<S>>(
        self,
        bank: &Bank<R>,
        host: &mut H,
        number: u32,
    ) -> Result<Loop<R, S, W>, Memory>
        requires suits { Suits R.holds R.takes self.gateway.world.rules.routes bank.now }
        ensures rules { IfOk result (λ l. l.gateway.world.rules ≡ self.gateway.world.rules) }
    {
        let mut it = self;
        if !it.gateway.queue_up(number) {
            return Ok(it);
        }
        match it.rest.queue.push(number) {
            Ok(()) => Ok(it),
            Err(_) => it.end(bank, host, number),
        }
    }

    /// Whether the connection gives its place to one who waits, before its next request.
    pub(crate) fn gives_way(&self, number: u32) -> bool
        ensures { result ≡ true → MayGoOn number self.now.gateway }
    {
        let waits = self.rest.queue.len() > 0 || (self.rest.clients && self.rest.full);
        waits && !self.gateway.has_place() && self.gateway.may_give_way(number)
    }

    /// Whether clients may want connections, and may be taken once others aren't waited for.
    pub(crate) fn wants_clients(&self) -> bool {
        let room = self.gateway.streams() < self.rest.patience.connections;
        self.rest.clients && !self.rest.full && (room || self.rest.parked.len() > 0)
    }

    /// Whether they are taken at this moment.
    fn takes_clients(&self) -> bool {
        self.wants_clients() && self.rest.moment >= self.rest.resumes
    }

    /// Whether one waits for a place who may get one.
    pub(crate) fn has_waiting(&self) -> bool {
        !self.rest.full && self.rest.queue.len() > 0
    }

    /// Whether there may be one for whom there is a place.
    fn may_seat(&self) -> bool {
        let waits = self.rest.queue.len() > 0 || self.takes_clients();
        !self.rest.full && waits
    }

    /// Gives places to those who wait for them, some of them: by turns to who waits longest of those
    /// whose streams were served before, and to one more client.
    pub(crate) fn seat_all<H: Host<S>>(
        self,
        bank: &Bank<R>,
        host: &mut H,
    ) -> Result<Loop<R, S, W>, Memory>
        requires suits { Suits R.holds R.takes self.gateway.world.rules.routes bank.now }
        ensures rules { IfOk result (λ l. l.gateway.world.rules ≡ self.gateway.world.rules) }
    {
        let mut it = self;
        'each: for _ in 0..AT_ONCE {
            if !it.may_seat() {
                return Ok(it);
            }
            if !it.may_make_place() {
                it.rest.full = true;
                return Ok(it);
            }
            it = it.seat_next(bank, host)?;
        }
        Ok(it)
    }

    /// Gives a place to the next who waits for one.
    fn seat_next<H: Host<S>>(self, bank: &Bank<R>, host: &mut H) -> Result<Loop<R, S, W>, Memory>
        requires suits { Suits R.holds R.takes self.gateway.world.rules.routes bank.now }
        ensures rules { IfOk result (λ l. l.gateway.world.rules ≡ self.gateway.world.rules) }
    {
        let mut it = self;
        let new = it.takes_clients() && (it.rest.new_is_next || it.rest.queue.len() == 0);
        it.rest.new_is_next = !new;
        if new {
            return it.take_next(bank, host);
        }
        match it.rest.queue.next() {
            Some(number) => it.seat(bank, host, number),
            None => Ok(it),
        }
    }

    /// Goes on with the stream of the connection, which was parked.
    fn seat<H: Host<S>>(
        self,
        bank: &Bank<R>,
        host: &mut H,
        number: u32,
    ) -> Result<Loop<R, S, W>, Memory>
        requires suits { Suits R.holds R.takes self.gateway.world.rules.routes bank.now }
        ensures rules { IfOk result (λ l. l.gateway.world.rules ≡ self.gateway.world.rules) }
    {
        if self.gateway.stage(number) != Some(Stage::Parked) {
            return Ok(self);
        }
        let mut it = self.make_place(bank, host)?;
        let when = it.when(host);
        it.gateway = it.gateway.resume(bank, when, number, host)?;
        Ok(it)
    }

    /// Takes the client that waits longest, if one is there.
    fn take_next<H: Host<S>>(self, bank: &Bank<R>, host: &mut H) -> Result<Loop<R, S, W>, Memory>
        requires suits { Suits R.holds R.takes self.gateway.world.rules.routes bank.now }
        ensures rules { IfOk result (λ l. l.gateway.world.rules ≡ self.gateway.world.rules) }
    {
        let mut it = self;
        match host.accept() {
            Accepted::Client(stream) => it.take_client(bank, host, stream),
            Accepted::Later => {
                it.rest.clients = false;
                Ok(it)
            }
            Accepted::Refused => {
                it.rest.resumes = it.rest.moment.saturating_add(PAUSE);
                it.let_one_go(bank, host)
            }
        }
    }

    /// Takes one, where its connection can be watched. Where as many are there as may be, one that was
    /// parked longest ends.
    fn take_client<H: Host<S>>(
        self,
        bank: &Bank<R>,
        host: &mut H,
        stream: S,
    ) -> Result<Loop<R, S, W>, Memory>
        requires suits { Suits R.holds R.takes self.gateway.world.rules.routes bank.now }
        requires written { Are (S.written stream) [] }
        requires gave { Are (S.gave stream) [] }
        ensures rules { IfOk result (λ l. l.gateway.world.rules ≡ self.gateway.world.rules) }
    {
        let it = self.make_place(bank, host)?;
        let mut it = it.make_room(bank, host)?;
        let mut stream = stream;
        let Ok(number) = u32::try_from(it.gateway.count()) else {
            return Ok(it);
        };
        if !host.watch(number, &mut stream) {
            return Ok(it);
        }
        let when = it.when(host);
        it.gateway = it.gateway.admit(bank, when, stream)?;
        it.gateway.line_up(number);
        Ok(it)
    }

    /// Makes room for one more client, where as many are connected as may be.
    fn make_room<H: Host<S>>(self, bank: &Bank<R>, host: &mut H) -> Result<Loop<R, S, W>, Memory>
        requires suits { Suits R.holds R.takes self.gateway.world.rules.routes bank.now }
        ensures rules { IfOk result (λ l. l.gateway.world.rules ≡ self.gateway.world.rules) }
    {
        if self.gateway.streams() < self.rest.patience.connections {
            return Ok(self);
        }
        self.let_one_go(bank, host)
    }

    /// Ends the stream that was parked longest, if one is and asks nothing.
    fn let_one_go<H: Host<S>>(self, bank: &Bank<R>, host: &mut H) -> Result<Loop<R, S, W>, Memory>
        requires suits { Suits R.holds R.takes self.gateway.world.rules.routes bank.now }
        ensures rules { IfOk result (λ l. l.gateway.world.rules ≡ self.gateway.world.rules) }
    {
        let mut it = self;
        match it.take_longest_parked() {
            Some(number) => it.give_up(bank, host, number, Why::Crowded),
            None => Ok(it),
        }
    }

    /// The stream that was parked longest, of those that ask nothing.
    fn take_longest_parked(&mut self) -> Option<u32>
        ensures { self.new.gateway ≡ self.old.gateway }
    {
        'each: for _ in 0..self.rest.parked.len() {
            let number = self.rest.parked.next()?;
            if self.gateway.is_asleep(number) {
                return Some(number);
            }
        }
        None
    }

    /// Keeps nothing of streams that were parked before the first that still is.
    pub(crate) fn forget_parked(&mut self)
        ensures { self.new.gateway ≡ self.old.gateway }
    {
        'each: for _ in 0..self.rest.parked.len() {
            match self.rest.parked.first() {
                Some(number) if !self.gateway.is_asleep(number) => {
                    self.rest.parked.next();
                }
                _ => return,
            }
        }
    }
}
