//! A story from its first line to its last.

ghost use Rattle.std.specs.Prelude.{◌≡◌, IfOk, OnOk};
ghost use Rattle.demo_origin.specs.Origins.{EachKeeps, Sound};
ghost use Rattle.device_server.specs.Kinds.{kinds};
ghost use Rattle.device_server.specs.Rows.{AreRows};
ghost use Rattle.route_bank.specs.Profiles.{profile_holds, profile_takes};
ghost use Rattle.story_runs.specs.Steps.{IsPlayed, TakesSteps};
ghost use Rattle.three_parties.specs.Stories.{scene};
ghost use Rattle.transformers.specs.Suits.{Suits};

use crate::book::{Book, Step, book_of};
use crate::settings::settings;
use crate::steps::take_step;
use crate::telling::{Before, tell_end, tell_step};
use crate::untold::Untold;
use demo_origin::{Call, CoapRequest, Origin, Resource, install};
use device_server::{Kinds, answer, resource_of};
use route_bank::Profile;
use std::alloc::Global;
use std::io::{Read, Write};
use three_parties::{Behaviour, Stage, WorldFault};
use transformers::{Bank, Relation};

/// The size exponent of the device's pieces: 1,024 bytes.
const BLOCK: u8 = 6;

/// Reads a story, plays it, and tells what happens.
pub fn tell_story<I: Read + Drop, W: Write>(
    alloc: Global,
    reader: I,
    writer: &mut W,
) -> Result<(), Untold> {
    tell_book(alloc, &book_of(alloc, reader)?, writer)
}

/// Makes the resources of a book, plays its steps, and tells what happens.
fn tell_book<W: Write>(alloc: Global, book: &Book, writer: &mut W) -> Result<(), Untold> {
    let mut all: Vec<Resource<Kinds>> = Vec::new(alloc);
    'each: for row in book.held.as_slice() {
        let kind = row.kind;
        let call: Call = Box::new(alloc, move |state: &[u8], request: &CoapRequest| {
            answer(alloc, kind, state, request)
        })?;
        let resource = resource_of(alloc, row, call)?;
        install(&mut all, resource)?;
    }
    let stage = play_book(alloc, book, all, writer)?;
    tell_end(alloc, writer, &stage)
}

/// Plays the steps of a book with a device of its resources, and tells of each what happens.
pub fn play_book<W: Write>(
    alloc: Global,
    book: &Book,
    all: Vec<Resource<Kinds>>,
    writer: &mut W,
) -> Result<Stage<Profile, Kinds>, Untold>
    requires rows { AreRows book.now.held.items all.items }
    requires keep { EachKeeps kinds all.items }
    ensures played { IfOk result (λ s.
        IsPlayed profile_holds profile_takes kinds book.now (scene s)) }
{
    let Ok(origin) = Origin::new(alloc, BLOCK, all) else {
        return Err(Untold::Memory);
    };
    let Ok(mut stage) = Stage::new(alloc, settings(alloc)?, origin) else {
        return Err(Untold::Memory);
    };
    let bank: Bank<Profile> = Bank::new(Vec::new(alloc));
    take_all(alloc, &mut stage, &bank, book.steps.as_slice(), writer)?;
    Ok(stage)
}

/// Takes steps, one after another, and tells of each what happens.
fn take_all<R: Relation, H: Behaviour, W: Write>(
    alloc: Global,
    stage: &mut Stage<R, H>,
    bank: &Bank<R>,
    steps: &[Step],
    writer: &mut W,
) -> Result<(), Untold>
    requires suits { Suits R.holds R.takes stage.old.world.rules.routes bank.now }
    requires sound { Sound H.relation stage.old.origin }
    ensures takes { OnOk result
        (TakesSteps R.holds R.takes H.relation steps.now (scene stage.old) (scene stage.new)) }
{
    'each: for step in steps {
        let before = Before::now(stage);
        match take_step(stage, bank, step) {
            Ok(()) => {}
            Err(WorldFault::Backlog) => return Err(Untold::Backlog(step.line)),
            Err(WorldFault::Memory) => return Err(Untold::Memory),
        }
        tell_step(alloc, writer, stage, before, step)?;
    }
    Ok(())
}
