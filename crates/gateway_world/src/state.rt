//! What a proxy is.

use crate::engine::Engine;
use ask_model::Settings;
use std::marker::Model;
use std::sync::Arc;
use transformers::Relation;

/// A proxy with its history. Its type keeps that nothing is left which could be given out or asked,
/// that all that was asked was mapped by its settings, and that its connections are marked as they
/// are, so that an input can be taken back.
#[derive(Drop)]
pub struct World<R: Relation> {
    pub(crate) settings: Arc<Settings>,
    /// In a place of its own, so that who hands a world on moves little.
    pub(crate) engine: Box<Engine<R>>,
    pub(crate) moment: u64,
}

impl<R: Relation> Model for World<R> {
    ghost use Rattle.std.specs.Arc.{arc_value};
    ghost use Rattle.ask_model.specs.Views.{rules_of};
    ghost use Rattle.gateway_world.specs.Keeping.{IsKept};
    ghost use Rattle.gateway_world.specs.Worlds.{WorldValue, world_of};

    ghost Value = { WorldValue };

    ghost view = { λ w. world_of w.engine.value (rules_of (arc_value w.settings)) w.moment };

    ghost invariant = { λ w.
        IsKept R.holds R.takes (rules_of (arc_value w.settings)) w.moment w.engine.value };
}
