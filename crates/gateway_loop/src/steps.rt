//! Steps of the loop on connections.

ghost use Rattle.std.specs.Prelude.{◌≡◌, IfOk};
ghost use Rattle.transformers.specs.Suits.{Suits};

use crate::connections::Due;
use crate::host::Host;
use crate::sockets::{Stream, Wire};
use crate::turns::{AT_ONCE, Loop};
use http_edge::Memory;
use transformers::{Bank, Relation};

/// How many steps a connection has at once, before others have theirs.
const STEPS: usize = 8;

impl<R: Relation, S: Stream + Drop, W: Wire + Drop> Loop<R, S, W> {
    /// Lets those go on that are ready now: all, where all have their turns.
    pub(crate) fn go_on<H: Host<S>>(
        self,
        bank: &Bank<R>,
        host: &mut H,
    ) -> Result<Loop<R, S, W>, Memory>
        requires suits { Suits R.holds R.takes self.gateway.world.rules.routes bank.now }
        ensures rules { IfOk result (λ l. l.gateway.world.rules ≡ self.gateway.world.rules) }
    {
        let mut it = self;
        if it.gateway.take_everyone() {
            it = it.everyone_on(bank, host)?;
        }
        it.line_on(bank, host)
    }

    /// Lets each connection go on.
    fn everyone_on<H: Host<S>>(self, bank: &Bank<R>, host: &mut H) -> Result<Loop<R, S, W>, Memory>
        requires suits { Suits R.holds R.takes self.gateway.world.rules.routes bank.now }
        ensures rules { IfOk result (λ l. l.gateway.world.rules ≡ self.gateway.world.rules) }
    {
        let mut it = self;
        'each: for number in it.gateway.first_number()..it.gateway.next_number() {
            it = it.step(bank, host, number)?;
        }
        Ok(it)
    }

    /// Lets those go on that stand in the line now. Who comes to stand there meanwhile has the next
    /// turn.
    fn line_on<H: Host<S>>(self, bank: &Bank<R>, host: &mut H) -> Result<Loop<R, S, W>, Memory>
        requires suits { Suits R.holds R.takes self.gateway.world.rules.routes bank.now }
        ensures rules { IfOk result (λ l. l.gateway.world.rules ≡ self.gateway.world.rules) }
    {
        let mut it = self;
        'each: for _ in 0..it.gateway.in_line() {
            let Some(number) = it.gateway.next() else {
                return Ok(it);
            };
            it = it.step(bank, host, number)?;
        }
        Ok(it)
    }

    /// Lets a connection go on, for some steps; then others have their turn.
    fn step<H: Host<S>>(
        self,
        bank: &Bank<R>,
        host: &mut H,
        number: u32,
    ) -> Result<Loop<R, S, W>, Memory>
        requires suits { Suits R.holds R.takes self.gateway.world.rules.routes bank.now }
        ensures rules { IfOk result (λ l. l.gateway.world.rules ≡ self.gateway.world.rules) }
    {
        let mut it = self;
        'each: for _ in 0..STEPS {
            match it.gateway.serve(number, &mut it.rest.buffer) {
                Due::Nothing => {
                    // An answer that it was given in this step, and that is written, lined it up.
                    it.gateway.leave_line(number);
                    if it.rest.full && it.gateway.is_idle(number) {
                        it.rest.full = false;
                    }
                    return Ok(it);
                }
                Due::Place => return it.queue_up(bank, host, number),
                Due::Piece if it.gives_way(number) => return it.park(bank, host, number),
                Due::Piece => {
                    let when = it.when(host);
                    it.gateway = it.gateway.feed(bank, when, number)?;
                }
                Due::More => {}
                Due::Farewell => {
                    it.gateway.leave(number);
                    it.rest.full = false;
                    let moment = it.rest.moment;
                    if it.rest.farewells.push(number, moment).is_err() {
                        return it.end(bank, host, number);
                    }
                }
                Due::End => return it.end(bank, host, number),
            }
        }
        it.gateway.line_up(number);
        Ok(it)
    }

    /// The connection ends.
    pub(crate) fn end<H: Host<S>>(
        self,
        bank: &Bank<R>,
        host: &mut H,
        number: u32,
    ) -> Result<Loop<R, S, W>, Memory>
        requires suits { Suits R.holds R.takes self.gateway.world.rules.routes bank.now }
        ensures rules { IfOk result (λ l. l.gateway.world.rules ≡ self.gateway.world.rules) }
    {
        let mut it = self;
        it.rest.full = false;
        if it.gateway.has_left(number) {
            it.gateway.remove(number);
        } else {
            let when = it.when(host);
            it.gateway = it.gateway.end(bank, when, number)?;
        }
        it.forget_farewells();
        Ok(it)
    }

    /// Keeps nothing of the farewells before the first of a connection that is there.
    fn forget_farewells(&mut self)
        ensures { self.new.gateway ≡ self.old.gateway }
    {
        'each: for _ in 0..self.rest.farewells.len() {
            match self.rest.farewells.first() {
                Some(number) if self.gateway.stage(number).is_none() => {
                    self.rest.farewells.forget_first();
                }
                _ => return,
            }
        }
    }

    /// Ends the connections whose time to take leave is over, some of them.
    pub(crate) fn end_farewells<H: Host<S>>(
        self,
        bank: &Bank<R>,
        host: &mut H,
    ) -> Result<Loop<R, S, W>, Memory>
        requires suits { Suits R.holds R.takes self.gateway.world.rules.routes bank.now }
        ensures rules { IfOk result (λ l. l.gateway.world.rules ≡ self.gateway.world.rules) }
    {
        let mut it = self;
        let moment = it.rest.moment;
        'each: for _ in 0..AT_ONCE {
            let Some(number) = it.rest.farewells.next_over(moment) else {
                return Ok(it);
            };
            it = it.end(bank, host, number)?;
        }
        Ok(it)
    }
}
