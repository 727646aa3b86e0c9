//! The gateway: one world, and the connections and the wire that it is driven by.

ghost use Rattle.std.specs.Prelude.{◌≡◌, [], length, IfOk};
ghost use Rattle.ask_model.specs.Views.{rules_of};
ghost use Rattle.exchange_core.specs.Due.{next_tick};
ghost use Rattle.gateway_loop.specs.Serving.{IsServing};
ghost use Rattle.gateway_loop.specs.Sockets.{Are};

use crate::clients::Clients;
use crate::sockets::{Stream, Wire};
use ask_model::Settings;
use gateway_world::{Output, World};
use http_edge::Memory;
use std::alloc::Global;
use std::marker::Model;
use transformers::Relation;

/// For how many outputs of an input there is room from the first on. A tick gives out the most: a
/// datagram to each of 512 endpoints, and to each of 256 connections two runs of bytes and its end.
const MOST_OUTPUTS: usize = 2048;

/// What a world is driven by, and to whom it gives out: the connections by their numbers, and the
/// wire.
#[derive(Drop)]
pub struct Ends<R: Relation, S: Stream, W: Wire> {
    pub(crate) clients: Clients<S>,
    pub(crate) wire: W,
    /// What an input gives out, until it is delivered.
    pub(crate) outputs: Vec<Output<R>>,
}

/// A world and its ends.
#[derive(Drop)]
pub struct Gateway<R: Relation, S: Stream, W: Wire> {
    pub(crate) world: World<R>,
    /// In a place of their own, so that who hands a gateway on moves little.
    pub(crate) ends: Box<Ends<R, S, W>>,
}

impl<R: Relation, S: Stream, W: Wire> Model for Gateway<R, S, W> {
    ghost use Rattle.gateway_loop.specs.Gateways.{GatewayValue};
    ghost use Rattle.gateway_loop.specs.Serving.{IsServing};

    ghost Value = { GatewayValue S W };

    ghost view = { λ g. record {
      world = g.world;
      clients = g.ends.value.clients;
      wire = g.ends.value.wire;
    } };

    ghost invariant = { λ g.
        IsServing R.holds R.takes S.written S.gave W.sent W.heard g.world
        g.ends.value.clients.places g.ends.value.wire g.ends.value.clients.told };
}

impl<R: Relation, S: Stream + Drop, W: Wire + Drop> Gateway<R, S, W> {
    /// A gateway to which nothing has happened, at a wire that wasn't used.
    pub fn new(alloc: Global, settings: Settings, wire: W) -> Result<Gateway<R, S, W>, Memory>
        requires sent { Are (W.sent wire) [] }
        requires heard { Are (W.heard wire) [] }
        ensures rules { IfOk result (λ g. g.world.rules ≡ rules_of settings) }
    {
        let mut outputs = Vec::new(alloc);
        outputs.try_reserve(MOST_OUTPUTS)?;
        let ends = Ends {
            clients: Clients::new(alloc),
            wire,
            outputs,
        };
        Ok(Gateway {
            world: World::new(alloc, settings)?,
            ends: Box::new(alloc, ends)?,
        })
    }

    /// The gateway of these.
    pub(crate) fn of(world: World<R>, ends: Box<Ends<R, S, W>>) -> Gateway<R, S, W>
        requires { IsServing R.holds R.takes S.written S.gave W.sent W.heard
            world ends.value.clients.places ends.value.wire ends.value.clients.told }
        ensures { result
            ≡ record { world = world; clients = ends.value.clients; wire = ends.value.wire } }
    {
        Gateway { world, ends }
    }

    /// Where memory is taken.
    pub(crate) fn alloc(&self) -> Global {
        self.ends.clients.alloc()
    }

    /// How many connections there were, and so the number of the next.
    pub fn count(&self) -> usize
        ensures { result ≡ length self.now.clients.places }
    {
        self.ends.clients.count()
    }

    /// The first number of which something is kept: all connections before it ended.
    pub fn first_number(&self) -> u32 {
        self.ends.clients.first()
    }

    /// The number of the next connection, or the last number that there is.
    pub fn next_number(&self) -> u32 {
        u32::try_from(self.ends.clients.count()).unwrap_or(u32::MAX)
    }

    /// Whether connections have their turns.
    pub fn have_turns(&self) -> bool {
        self.ends.clients.have_turns()
    }

    /// How many connections stand in the line of those that have their turns.
    pub fn in_line(&self) -> usize
        ensures { result ≡ length self.now.clients.line }
    {
        self.ends.clients.in_line()
    }

    /// The moment of the next tick that has something to do, if any has.
    pub fn next_due(&self) -> Option<u64>
        ensures { result ≡ next_tick self.now.world.core.state }
    {
        self.world.next_due()
    }

    /// What every gateway keeps. It does nothing.
    pub fn serves(&self)
        ensures { IsServing R.holds R.takes S.written S.gave W.sent W.heard
            self.now.world self.now.clients.places self.now.wire self.now.clients.told }
    {
        let _world = &self.world;
    }
}
