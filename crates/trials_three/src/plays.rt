//! Stories that are played, and what came of them.

use crate::sample::{Counters, Nothing, resource, settings};
use demo_origin::{Call, CoapRequest, Handler, Origin, Resource, counter, install};
use std::alloc::{AllocError, Global};
use three_parties::{Flight, Output, Sent, Story, Turn, three_run};
use transformers::Bank;

/// What is to come of turns.
#[derive(Clone, Copy)]
pub struct Wanted {
    /// The datagrams that are sent, in order.
    pub flights: &'static [&'static [u8]],
    /// What connections are told, one after another.
    pub told: &'static str,
    /// By which datagrams requests are executed.
    pub executed: &'static [usize],
}

/// What came of them.
#[derive(Clone, Copy, Debug, PartialEq, Eq)]
pub enum Outcome {
    AsWanted,
    OtherDatagrams,
    OtherAnswers,
    OtherExecutions,
    Refused,
}

fn bytes_of(flight: &Flight) -> &[u8] {
    match &flight.sent {
        Sent::Proxy(datagram) => datagram.bytes.as_slice(),
        Sent::Device(datagram) => datagram.bytes.as_slice(),
    }
}

fn flies(story: &Story<Nothing, Counters>, wanted: &[&[u8]]) -> bool {
    if story.flights.len() != wanted.len() {
        return false;
    }
    'each: for (flight, bytes) in story.flights.iter().zip(wanted) {
        if bytes_of(flight) != *bytes {
            return false;
        }
    }
    true
}

/// All that connections are told.
fn told(alloc: Global, outputs: &[Output<Nothing>]) -> Result<Vec<u8>, AllocError> {
    let mut all = Vec::new(alloc);
    'each: for output in outputs {
        if let Output::Bytes(_, bytes) = output {
            all.extend_from_slice(bytes.as_slice())?;
        }
    }
    Ok(all)
}

fn executes(story: &Story<Nothing, Counters>, wanted: &[usize]) -> bool {
    if story.taken.len() != wanted.len() {
        return false;
    }
    'each: for (execution, number) in story.taken.iter().zip(wanted) {
        if execution.number != *number {
            return false;
        }
    }
    true
}

fn outcome_of(
    alloc: Global,
    story: &Story<Nothing, Counters>,
    wanted: Wanted,
) -> Result<Outcome, AllocError> {
    if !flies(story, wanted.flights) {
        return Ok(Outcome::OtherDatagrams);
    }
    if told(alloc, story.outputs.as_slice())?.as_slice() != wanted.told.as_bytes() {
        return Ok(Outcome::OtherAnswers);
    }
    if !executes(story, wanted.executed) {
        return Ok(Outcome::OtherExecutions);
    }
    Ok(Outcome::AsWanted)
}

/// Plays the turns with the counter `c`, and tells what came of them.
pub fn plays(alloc: Global, turns: &[Turn<'_>], wanted: Wanted) -> Result<Outcome, AllocError> {
    let mut all: Vec<Resource<Counters>> = Vec::new(alloc);
    let call: Call = Box::new(alloc, move |state: &[u8], request: &CoapRequest| {
        counter(alloc, state, request)
    })?;
    install(&mut all, resource(alloc, Handler::new(call))?)?;
    let Ok(origin) = Origin::new(alloc, 6, all) else {
        return Ok(Outcome::Refused);
    };
    match three_run(
        alloc,
        settings(alloc)?,
        Bank::new(Vec::new(alloc)),
        origin,
        turns,
    ) {
        Ok(story) => outcome_of(alloc, &story, wanted),
        Err(_) => Ok(Outcome::Refused),
    }
}
