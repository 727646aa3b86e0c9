//! What happens to a gateway: each is one input of its world, and what that gives out is given on.
//!
//! Where memory is refused, who wanted a connection is turned away, and time goes on later. Only
//! where there is no place among many outputs the gateway is gone, as its world is.

ghost use Rattle.std.specs.Prelude.{◌≡◌, [], IfOk};
ghost use Rattle.gateway_loop.specs.Gateways.{IsBare};
ghost use Rattle.gateway_loop.specs.Sockets.{Are};
ghost use Rattle.transformers.specs.Suits.{Suits};

use crate::delivery::deliver;
use crate::gateway::{Ends, Gateway};
use crate::leaving::take_in;
use crate::sockets::{Stream, Wire};
use gateway_world::{Advanced, Happening, Input, Step, When};
use http_edge::Memory;
use transformers::{Bank, Relation};

/// A gateway at which something was to happen.
#[derive(Drop)]
pub struct Passed<R: Relation, S: Stream, W: Wire> {
    pub gateway: Gateway<R, S, W>,
    /// It happened. Else memory was refused, and the gateway is as it was.
    pub taken: bool,
}

impl<R: Relation, S: Stream + Drop, W: Wire + Drop> Gateway<R, S, W> {
    /// Takes a client's connection, of which nothing was read or written, or turns it away.
    pub fn admit(self, bank: &Bank<R>, when: When, stream: S) -> Result<Gateway<R, S, W>, Memory>
        requires suits { Suits R.holds R.takes self.world.rules.routes bank.now }
        requires written { Are (S.written stream) [] }
        requires gave { Are (S.gave stream) [] }
        ensures rules { IfOk result (λ g. g.world.rules ≡ self.world.rules) }
    {
        let Gateway { world, mut ends } = self;
        let Ends {
            clients,
            wire,
            outputs,
        } = &mut *ends;
        match clients.push(stream) {
            Ok(()) => {}
            Err(_) => return Ok(Gateway::of(world, ends)),
        }
        let input = Input {
            moment: when.moment,
            word: when.word,
            happening: Happening::Open,
        };
        let Advanced { world, step } = take_in(world, bank, input, outputs)?;
        match step {
            Step::Taken(Some(_)) => {
                deliver(outputs, clients, wire);
                Ok(Gateway::of(world, ends))
            }
            Step::Taken(None) => {
                clients.pop();
                deliver(outputs, clients, wire);
                Ok(Gateway::of(world, ends))
            }
            Step::Refused => {
                clients.pop();
                Ok(Gateway::of(world, ends))
            }
        }
    }

    /// Lets time go on.
    pub fn tick(self, bank: &Bank<R>, when: When) -> Result<Passed<R, S, W>, Memory>
        requires suits { Suits R.holds R.takes self.world.rules.routes bank.now }
        ensures rules { IfOk result (λ p. p.gateway.world.rules ≡ self.world.rules) }
    {
        self.pass(bank, when, Happening::Tick)
    }

    /// The connection ends, with what is left for it: its client closed it, or it is given up.
    pub fn end(self, bank: &Bank<R>, when: When, number: u32) -> Result<Gateway<R, S, W>, Memory>
        requires suits { Suits R.holds R.takes self.world.rules.routes bank.now }
        ensures rules { IfOk result (λ g. g.world.rules ≡ self.world.rules) }
    {
        let mut it = self;
        it.remove(number);
        let Passed { gateway, taken: _ } = it.pass(bank, when, Happening::Close(number))?;
        Ok(gateway)
    }

    /// Lets something happen that brings nothing, and with which no connection opens.
    pub(crate) fn pass(
        self,
        bank: &Bank<R>,
        when: When,
        happening: Happening<'_>,
    ) -> Result<Passed<R, S, W>, Memory>
        requires suits { Suits R.holds R.takes self.world.rules.routes bank.now }
        requires bare { IsBare happening }
        ensures rules { IfOk result (λ p. p.gateway.world.rules ≡ self.world.rules) }
    {
        let Gateway { world, mut ends } = self;
        let Ends {
            clients,
            wire,
            outputs,
        } = &mut *ends;
        let input = Input {
            moment: when.moment,
            word: when.word,
            happening,
        };
        let Advanced { world, step } = take_in(world, bank, input, outputs)?;
        match step {
            Step::Taken(_) => {
                deliver(outputs, clients, wire);
                let gateway = Gateway::of(world, ends);
                Ok(Passed {
                    gateway,
                    taken: true,
                })
            }
            Step::Refused => {
                let gateway = Gateway::of(world, ends);
                Ok(Passed {
                    gateway,
                    taken: false,
                })
            }
        }
    }
}
