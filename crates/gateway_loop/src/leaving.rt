//! The history goes on for as long as the gateway runs: its first entries leave memory, and nothing
//! waits for that.

ghost use Rattle.std.specs.Prelude.{◌≡◌, ◌-◌, length, IfOk, OnErr};
ghost use Rattle.gateway_model.specs.Emissions.{emissions};
ghost use Rattle.gateway_world.specs.Inputs.{Takes};
ghost use Rattle.gateway_world.specs.Worlds.{memory_of};
ghost use Rattle.gateway_loop.specs.Gateways.{BringsNoBytes, GivesNext, IsShorter, IsTriedAfter};
ghost use Rattle.transformers.specs.Suits.{Suits};

use crate::gateway::Gateway;
use crate::sockets::{Stream, Wire};
use crate::turns::Loop;
use gateway_world::{Advanced, Input, Output, Step, World};
use http_edge::Memory;
use journal_book::Entry;
use limits::{NEARLY_ALL_ENTRIES, NEARLY_ALL_LEN};
use std::alloc::AllocError;
use transformers::{Bank, Relation};

/// How many entries a segment has.
const SEGMENT: usize = 1024;

/// How many segments leave at most where memory is refused: all that can be held.
const ALL: usize = 64;

/// How much of its history a gateway holds. Where there is more, the first entries leave memory.
#[derive(Clone, Copy, Debug, PartialEq, Eq)]
pub struct Held {
    pub entries: usize,
    pub bytes: u64,
}

/// Entries that left memory, in the order of the history.
#[derive(Drop)]
pub struct Segment<R: Relation> {
    /// the number of the first of them
    pub first: usize,
    pub entries: Vec<Entry<R>>,
}

impl<R: Relation, S: Stream + Drop, W: Wire + Drop> Gateway<R, S, W> {
    /// How many entries are held: of those that there were, what didn't leave memory.
    fn held(&self) -> usize
        ensures { result ≡ length self.now.world.core.state.entries
            - (memory_of self.now.world).given }
    {
        self.world
            .journal()
            .len()
            .saturating_sub(self.world.given())
    }

    /// Whether more is held than may be.
    fn holds_more(&self, most: Held) -> bool {
        self.held() > most.entries || self.world.bytes() > most.bytes
    }

    /// Whether what is held takes hardly more.
    pub fn is_nearly_full(&self) -> bool {
        self.held() as u64 >= NEARLY_ALL_ENTRIES || self.world.bytes() >= NEARLY_ALL_LEN
    }

    /// The next segment leaves memory. None where too little is held for one, or numbers are spent.
    pub fn give(&mut self) -> Result<Option<Segment<R>>, AllocError>
        ensures gives { IfOk result (λ segment.
            GivesNext segment self.old.world self.new.world) }
        ensures unchanged { OnErr result (self.new.world ≡ self.old.world) }
        ensures clients { self.new.clients ≡ self.old.clients }
        ensures wire { self.new.wire ≡ self.old.wire }
    {
        let first = self.world.given();
        let Some(entries) = self.world.give()? else {
            return Ok(None);
        };
        Ok(Some(Segment { first, entries }))
    }

    /// Where memory was refused for a connection, so that it was given up, all segments leave, which
    /// nobody gets: so that there is some for others.
    pub(crate) fn let_go(&mut self)
        ensures shorter { IsShorter self.old.world self.new.world }
        ensures rules { self.new.world.rules ≡ self.old.world.rules }
        ensures clients { self.new.clients ≡ self.old.clients }
        ensures wire { self.new.wire ≡ self.old.wire }
    {
        if self.ends.clients.take_refused() {
            let_all_go(&mut self.world);
        }
    }
}

impl<R: Relation, S: Stream + Drop, W: Wire + Drop> Loop<R, S, W> {
    /// The next segment leaves memory, where more is held than may be. Whoever drives the loop takes
    /// some after each turn.
    pub fn take_segment(&mut self) -> Option<Segment<R>>
        ensures gives { GivesNext result self.old.gateway.world self.new.gateway.world }
        ensures rules { self.new.gateway.world.rules ≡ self.old.gateway.world.rules }
        ensures clients { self.new.gateway.clients ≡ self.old.gateway.clients }
        ensures wire { self.new.gateway.wire ≡ self.old.gateway.wire }
    {
        if !self.gateway.holds_more(self.rest.held) {
            return None;
        }
        match self.gateway.give() {
            Ok(Some(segment)) => Some(segment),
            Ok(None) => {
                self.rest.spent = self.gateway.held() >= SEGMENT;
                None
            }
            Err(_) => None,
        }
    }

    /// How many entries left memory, and so the number of the first that is held.
    pub fn given(&self) -> usize
        ensures { result ≡ (memory_of self.now.gateway.world).given }
    {
        self.gateway.world.given()
    }
}

/// Takes an input that brings no bytes of a connection. Where memory is refused for it, all segments
/// leave, which nobody gets, and it is tried once more.
pub(crate) fn take_in<R: Relation>(
    world: World<R>,
    bank: &Bank<R>,
    input: Input<'_>,
    outputs: &mut Vec<Output<R>>,
) -> Result<Advanced<R>, Memory>
    requires suits { Suits R.holds R.takes world.rules.routes bank.now }
    requires brings { BringsNoBytes input.happening }
    ensures tried { IfOk result (λ a. IsTriedAfter
        (λ w. Takes R.holds R.takes input.entry w (emissions outputs.new.items) a.world)
        input.entry.happening a.step world a.world) }
{
    let Advanced { world, step } = world.advance(bank, input, outputs)?;
    match step {
        Step::Taken(opened) => Ok(Advanced {
            world,
            step: Step::Taken(opened),
        }),
        Step::Refused => {
            let mut world = world;
            let_all_go(&mut world);
            world.advance(bank, input, outputs)
        }
    }
}

/// All segments leave memory, and nobody gets them.
fn let_all_go<R: Relation>(world: &mut World<R>)
    ensures { IsShorter world.old world.new }
{
    'each: for _ in 0..ALL {
        match world.give() {
            Ok(Some(_)) => {}
            Ok(None) => return,
            Err(_) => return,
        }
    }
}
