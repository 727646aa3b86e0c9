//! What a world gives out goes to the connections and to the wire.

ghost use Rattle.std.specs.Prelude.{◌≡◌, ◌∷◌, []};
ghost use Rattle.gateway_model.specs.Emissions.{emission_of, emissions};
ghost use Rattle.gateway_model.specs.Going.{goes_by, goes_in};
ghost use Rattle.gateway_loop.specs.Delivery.{AreGiven, readied, readied_by};
ghost use Rattle.gateway_loop.specs.Places.{HaveTurns};
ghost use Rattle.gateway_loop.specs.Sockets.{Grown};
ghost use Rattle.gateway_loop.specs.Telling.{Tells};

use crate::clients::Clients;
use crate::sockets::{Stream, Wire};
use gateway_model::Output;
use transformers::Relation;

/// Gives all of it to those whom it is for, in order, and leaves its room. The connections among
/// them have their turns then.
pub fn deliver<R: Relation, S: Stream + Drop, W: Wire>(
    outputs: &mut Vec<Output<R>>,
    clients: &mut Clients<S>,
    wire: &mut W,
)
    ensures given { AreGiven (emissions outputs.old.items) clients.old.places clients.new.places }
    ensures turns { HaveTurns (readied (emissions outputs.old.items)) clients.old clients.new }
    ensures told { Tells (emissions outputs.old.items) clients.old.told clients.new.told }
    ensures wire { Grown (W.sent wire.old) (W.sent wire.new)
        (goes_in (emissions outputs.old.items)) }
    ensures quiet { Grown (W.heard wire.old) (W.heard wire.new) [] }
{
    'each: for output in outputs.drain(..) {
        deliver_one(output, clients, wire);
    }
}

/// Gives one to whom it is for.
fn deliver_one<R: Relation, S: Stream + Drop, W: Wire>(
    output: Output<R>,
    clients: &mut Clients<S>,
    wire: &mut W,
)
    ensures given { AreGiven (emission_of output ∷ []) clients.old.places clients.new.places }
    ensures turns { HaveTurns (readied_by (emission_of output)) clients.old clients.new }
    ensures told { Tells (emission_of output ∷ []) clients.old.told clients.new.told }
    ensures wire { Grown (W.sent wire.old) (W.sent wire.new) (goes_by (emission_of output)) }
    ensures quiet { Grown (W.heard wire.old) (W.heard wire.new) [] }
{
    match output {
        Output::Bytes(number, bytes) => {
            clients.give(number, bytes);
            clients.line_up(number);
        }
        Output::Datagram(datagram) => wire.send(datagram.peer, datagram.bytes.as_slice()),
        Output::Closed(number) => {
            clients.close(number);
            clients.line_up(number);
        }
        Output::GivenUp(number) => {
            clients.give_up(number);
            clients.line_up(number);
        }
        // What is told of the journal is taken before.
        Output::Turned | Output::Rotated(_) | Output::Unrotated(_) => {}
    }
}
