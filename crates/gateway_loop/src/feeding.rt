//! What was read of a connection becomes an input.

ghost use Rattle.std.specs.Prelude.{◌≡◌, IfOk};
ghost use Rattle.gateway_loop.specs.Gateways.{MayAsk};
ghost use Rattle.transformers.specs.Suits.{Suits};

use crate::delivery::deliver;
use crate::gateway::{Ends, Gateway};
use crate::sockets::{Stream, Wire};
use gateway_world::{Advanced, Happening, Input, Step, When};
use http_edge::Memory;
use transformers::{Bank, Relation};

impl<R: Relation, S: Stream + Drop, W: Wire + Drop> Gateway<R, S, W> {
    /// Makes the next piece of what was read of the connection an input, where nothing is left to be
    /// written for it and it waits for no answer. Where more would wait unread than may, the
    /// connection is given up.
    pub fn feed(self, bank: &Bank<R>, when: When, number: u32) -> Result<Gateway<R, S, W>, Memory>
        requires suits { Suits R.holds R.takes self.world.rules.routes bank.now }
        requires idle { MayAsk number self }
        ensures rules { IfOk result (λ g. g.world.rules ≡ self.world.rules) }
    {
        let Gateway { world, mut ends } = self;
        let inside: &mut Ends<R, S, W> = &mut *ends;
        let piece = inside.clients.piece(number);
        let count = piece.len();
        let input = Input {
            moment: when.moment,
            word: when.word,
            happening: Happening::Bytes(number, piece),
        };
        if world.is_too_much(input.happening) {
            let gateway = Gateway::of(world, ends);
            return gateway.end(bank, when, number);
        }
        let Advanced { world, step } = world.advance(bank, input, &mut inside.outputs)?;
        match step {
            Step::Taken(_) => {
                let Ends {
                    clients,
                    wire,
                    outputs,
                } = inside;
                clients.feed(number, count);
                deliver(outputs, clients, wire);
                Ok(Gateway::of(world, ends))
            }
            // What a connection brings is never refused: where memory is, that is given up.
            Step::Refused => unreachable!(),
        }
    }
}
