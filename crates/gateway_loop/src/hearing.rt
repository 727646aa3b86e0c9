//! A gateway hears what comes in at its wire.

ghost use Rattle.std.specs.Prelude.{◌≡◌, true, false, length, IfOk};
ghost use Rattle.transformers.specs.Suits.{Suits};

use crate::delivery::deliver;
use crate::gateway::{Ends, Gateway};
use crate::leaving::take_in;
use crate::sockets::{Received, Stream, Wire};
use gateway_world::{Advanced, Happening, Input, Step, When};
use http_edge::Memory;
use transformers::{Bank, Relation};

/// A gateway that listened at its wire.
#[derive(Drop)]
pub struct Listened<R: Relation, S: Stream, W: Wire> {
    pub gateway: Gateway<R, S, W>,
    /// A datagram was there.
    pub heard: bool,
}

impl<R: Relation, S: Stream + Drop, W: Wire + Drop> Gateway<R, S, W> {
    /// Hears the datagram that came in first, by way of the buffer, if one is there. Where memory is
    /// refused for it, it is lost, and nothing else changes.
    pub fn hear(
        self,
        bank: &Bank<R>,
        when: When,
        buffer: &mut [u8],
    ) -> Result<Listened<R, S, W>, Memory>
        requires suits { Suits R.holds R.takes self.world.rules.routes bank.now }
        ensures rules { IfOk result (λ x. x.gateway.world.rules ≡ self.world.rules) }
        ensures none { IfOk result (λ x. x.heard ≡ false → W.spent x.gateway.wire ≡ true) }
        ensures length { length buffer.new ≡ length buffer.old }
    {
        let Gateway { world, mut ends } = self;
        let Ends {
            clients,
            wire,
            outputs,
        } = &mut *ends;
        let (count, peer) = match wire.receive(buffer) {
            Received::From(count, peer) => (count, peer),
            Received::Later => {
                let gateway = Gateway::of(world, ends);
                return Ok(Listened {
                    gateway,
                    heard: false,
                });
            }
        };
        let input = Input {
            moment: when.moment,
            word: when.word,
            happening: Happening::Datagram(peer, &buffer[..count]),
        };
        let Advanced { world, step } = take_in(world, bank, input, outputs)?;
        match step {
            Step::Taken(_) => {
                deliver(outputs, clients, wire);
                let gateway = Gateway::of(world, ends);
                Ok(Listened {
                    gateway,
                    heard: true,
                })
            }
            Step::Refused => {
                let gateway = Gateway::of(world, ends);
                Ok(Listened {
                    gateway,
                    heard: true,
                })
            }
        }
    }
}
