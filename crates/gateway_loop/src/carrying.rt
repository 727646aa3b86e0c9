//! A client's stream goes on as another connection of the world: so others have places while it asks
//! nothing.

ghost use Rattle.std.specs.Prelude.{◌≡◌, true, IfOk};
ghost use Rattle.gateway_loop.specs.Gateways.{MayGoOn};
ghost use Rattle.transformers.specs.Suits.{Suits};

use crate::delivery::deliver;
use crate::gateway::{Ends, Gateway};
use crate::host::Host;
use crate::inputs::Passed;
use crate::leaving::take_in;
use crate::sockets::{Stream, Wire};
use gateway_world::{Advanced, Happening, Input, Step, When};
use http_edge::Memory;
use transformers::{Bank, Relation};

impl<R: Relation, S: Stream + Drop, W: Wire + Drop> Gateway<R, S, W> {
    /// Whether the connection is open between two requests, so that its stream may go on as another
    /// one: it waits for no answer, nothing is left to be written for it, and all that was an input
    /// was asked.
    pub fn is_between(&self, number: u32) -> bool
        ensures { result ≡ true → MayGoOn number self.now }
    {
        self.world.is_between(number) && self.ends.clients.is_written(number)
    }

    /// Closes the connection for the world between two requests: its stream is to go on as another.
    pub fn park(self, bank: &Bank<R>, when: When, number: u32) -> Result<Gateway<R, S, W>, Memory>
        requires suits { Suits R.holds R.takes self.world.rules.routes bank.now }
        requires idle { MayGoOn number self }
        ensures rules { IfOk result (λ g. g.world.rules ≡ self.world.rules) }
    {
        let mut it = self;
        it.stand_still(number);
        let Passed { gateway, taken: _ } = it.pass(bank, when, Happening::Close(number))?;
        Ok(gateway)
    }

    /// Nothing is asked of the connection meanwhile.
    fn stand_still(&mut self, number: u32)
        ensures { self.new ≡ self.old }
    {
        self.ends.clients.park(number);
    }

    /// Opens a connection for the stream of this one, which goes on as it. Where none opens, memory is
    /// refused, or there will be no signs of it, the stream ends.
    pub fn resume<H: Host<S>>(
        self,
        bank: &Bank<R>,
        when: When,
        number: u32,
        host: &mut H,
    ) -> Result<Gateway<R, S, W>, Memory>
        requires suits { Suits R.holds R.takes self.world.rules.routes bank.now }
        ensures rules { IfOk result (λ g. g.world.rules ≡ self.world.rules) }
    {
        let next = self.next_number();
        let Gateway { world, mut ends } = self;
        let Ends {
            clients,
            wire,
            outputs,
        } = &mut *ends;
        if !clients.carry(number, host, next) {
            return Ok(Gateway::of(world, ends));
        }
        let input = Input {
            moment: when.moment,
            word: when.word,
            happening: Happening::Open,
        };
        let Advanced { world, step } = take_in(world, bank, input, outputs)?;
        match step {
            Step::Taken(Some(opened)) => {
                deliver(outputs, clients, wire);
                clients.line_up(opened);
                Ok(Gateway::of(world, ends))
            }
            Step::Taken(None) => {
                clients.pop();
                deliver(outputs, clients, wire);
                Ok(Gateway::of(world, ends))
            }
            Step::Refused => {
                clients.pop();
                Ok(Gateway::of(world, ends))
            }
        }
    }
}
