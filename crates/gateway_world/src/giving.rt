//! Entries of the journal that leave memory.

ghost use Rattle.std.specs.Prelude.{◌≡◌, None, map, IfOk, IfSome, OnErr};
ghost use Rattle.journal_book.specs.Views.{item_of};

use crate::engine::Engine;
use crate::state::World;
use journal_book::Entry;
use std::alloc::AllocError;
use transformers::Relation;

impl<R: Relation> World<R> {
    ghost use Rattle.exchange_core.specs.Giving.{GivesNone};
    ghost use Rattle.gateway_world.specs.Giving.{IsGivenOut};
    ghost use Rattle.gateway_world.specs.Worlds.{memory_of};

    /// How many of the first entries of the journal were given out.
    pub fn given(&self) -> usize
        ensures { result ≡ (memory_of self.now).given }
    {
        self.engine.core.journal().given()
    }

    /// Gives the first 1,024 entries of the journal out that are in memory, where it has as many and
    /// numbers are left: they stay entries of the history, under their numbers, and nothing else
    /// changes. It is refused for memory alone.
    pub fn give(&mut self) -> Result<Option<Vec<Entry<R>>>, AllocError>
        ensures given { IfOk result (λ o. IfSome o (λ segment.
            IsGivenOut (map item_of segment.items) self.old self.new)) }
        ensures none { IfOk result (λ o. o ≡ None → (self.new ≡ self.old)
            × GivesNone self.old.core.state) }
        ensures memory { OnErr result (self.new ≡ self.old) }
    {
        let engine: &mut Engine<R> = &mut *self.engine;
        engine.core.give()
    }
}
