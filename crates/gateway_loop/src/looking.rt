//! What the loop shows to who looks at it or notes what it does. Nothing else changes by that.

ghost use Rattle.std.specs.Prelude.{◌≡◌, [], length, map};
ghost use Rattle.gateway_loop.specs.Telling.{forgotten, telling, told_in, Kept};

use crate::gateway::Gateway;
use crate::patience::GivenUp;
use crate::sockets::{Stream, Wire};
use crate::told::Told;
use crate::turns::Loop;
use exchange_core::Core;
use transformers::Relation;

impl<R: Relation, S: Stream + Drop, W: Wire + Drop> Gateway<R, S, W> {
    /// Keeps from now on what tells of the bytes that are given out, until it is forgotten.
    pub fn keep_told(&mut self)
        ensures { self.new ≡ record self.old
            { clients = record self.old.clients { told = Kept [] } } }
    {
        self.ends.clients.keep_told();
    }

    /// Forgets what tells of them so far.
    pub fn forget_told(&mut self)
        ensures { self.new ≡ record self.old
            { clients = record self.old.clients { told = forgotten self.old.clients.told } } }
    {
        self.ends.clients.forget_told();
    }
}

impl<R: Relation, S: Stream + Drop, W: Wire + Drop> Loop<R, S, W> {
    /// The core with its journal.
    pub fn core(&self) -> &Core<R>
        ensures { result.now ≡ self.now.gateway.world.core }
    {
        self.gateway.world.core()
    }

    /// The moment of the last turn.
    pub fn moment(&self) -> u64 {
        self.rest.moment
    }

    /// The wire.
    pub fn wire(&self) -> &W
        ensures { result.now ≡ self.now.gateway.wire }
    {
        &self.gateway.ends.wire
    }

    /// How many connections there were, and so the number of the next.
    pub fn count(&self) -> usize
        ensures { result ≡ length self.now.gateway.clients.places }
    {
        self.gateway.count()
    }

    /// The connections that were given up in the last turn, in their order.
    pub fn given_up(&self) -> &[GivenUp] {
        &self.rest.given_up
    }

    /// Keeps from now on what tells of the bytes that are given out, until it is forgotten.
    pub fn keep_told(&mut self)
        ensures { self.new.gateway ≡ record self.old.gateway
            { clients = record self.old.gateway.clients { told = Kept [] } } }
    {
        self.gateway.keep_told();
    }

    /// What tells of the bytes that were given out and isn't forgotten, in their order.
    pub fn told(&self) -> &[Told]
        ensures { map telling result.now ≡ told_in self.now.gateway.clients.told }
    {
        self.gateway.ends.clients.told()
    }

    /// Forgets it.
    pub fn forget_told(&mut self)
        ensures { self.new.gateway ≡ record self.old.gateway {
          clients =
              record self.old.gateway.clients { told = forgotten self.old.gateway.clients.told };
        } }
    {
        self.gateway.forget_told();
    }
}
