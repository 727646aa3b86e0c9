//! Devices to try, one with counters and one with a cell, and what they do step by step.

ghost use Rattle.std.specs.Prelude.{◌<◌, IfOk};
ghost use Rattle.demo_origin.specs.Keeps.{KeepsRelation};

use crate::steps::{Step, fails_at};
use demo_origin::{
    Behaviour, Call, CoapRequest, Handler, Memory, Origin, Resource, Segments, cell, counter,
    install,
};
use message_layer::Bytes;
use std::alloc::{AllocError, Global};

/// Devices with counters.
pub struct Counters;

impl Behaviour for Counters {
    ghost use Rattle.demo_origin.specs.Kinds.{counters};

    ghost relation = { counters };
}

/// Devices with cells.
pub struct Cells;

impl Behaviour for Cells {
    ghost use Rattle.demo_origin.specs.Kinds.{cells};

    ghost relation = { cells };
}

/// The path of one segment.
fn path_of(alloc: Global, segment: &[u8]) -> Result<Segments, AllocError> {
    let mut path = Segments::new(alloc);
    path.push(segment)?;
    Ok(path)
}

fn state_of(alloc: Global, state: &[u8]) -> Result<Bytes, AllocError> {
    Bytes::new(alloc, Vec::from_slice(alloc, state)?)
}

/// A text that stays fresh for so many seconds.
fn resource<H: Behaviour>(
    alloc: Global,
    segment: &[u8],
    state: &[u8],
    max_age: u32,
    handler: Handler<H>,
) -> Result<Resource<H>, AllocError>
    requires { KeepsRelation H.relation handler }
    ensures { IfOk result (λ r. KeepsRelation H.relation r.handler) }
{
    Ok(Resource {
        path: path_of(alloc, segment)?,
        format: 0,
        max_age,
        state: state_of(alloc, state)?,
        handler,
    })
}

/// The paths of the counters, and their states at first.
static COUNTERS: [(&[u8], &[u8]); 3] = [(b"c", b""), (b"n", b"9"), (b"m", b"18446744073709551615")];

fn counters_at_first() -> &'static [(&'static [u8], &'static [u8])] {
    &COUNTERS
}

fn counters_once(alloc: Global, steps: &[Step]) -> Result<Option<usize>, Memory> {
    let mut all: Vec<Resource<Counters>> = Vec::new(alloc);
    'each: for (segment, state) in counters_at_first() {
        let call: Call = Box::new(alloc, move |state: &[u8], request: &CoapRequest| {
            counter(alloc, state, request)
        })?;
        let resource = resource(alloc, segment, state, 60, Handler::new(call))?;
        install(&mut all, resource)?;
    }
    let mut origin = Origin::new(alloc, 6, all)?;
    Ok(fails_at(&mut origin, steps))
}

fn cell_once(
    alloc: Global,
    block: u8,
    state: &[u8],
    steps: &[Step],
) -> Result<Option<usize>, Memory>
    requires { block < 7 }
{
    let mut all: Vec<Resource<Cells>> = Vec::new(alloc);
    let call: Call = Box::new(alloc, move |state: &[u8], request: &CoapRequest| {
        cell(alloc, state, request)
    })?;
    let resource = resource(alloc, b"s", state, 1, Handler::new(call))?;
    install(&mut all, resource)?;
    let mut origin = Origin::new(alloc, block, all)?;
    Ok(fails_at(&mut origin, steps))
}

/// The number of the first step that a device doesn't do with the counters c, which is empty, n, at
/// 9, and m, at the last number of 64 bits. It is begun once more where memory was refused.
pub fn counters_fail_at(alloc: Global, steps: &[Step]) -> Result<Option<usize>, Memory> {
    match counters_once(alloc, steps) {
        Err(_) => counters_once(alloc, steps),
        done => done,
    }
}

/// The same of a device with the cell s of that state, and with pieces of that size exponent.
pub fn cell_fails_at(
    alloc: Global,
    block: u8,
    state: &[u8],
    steps: &[Step],
) -> Result<Option<usize>, Memory>
    requires { block < 7 }
{
    match cell_once(alloc, block, state, steps) {
        Err(_) => cell_once(alloc, block, state, steps),
        done => done,
    }
}
