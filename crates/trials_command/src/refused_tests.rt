//! Inputs that are refused for want of memory are given again, and lead to what they would have led
//! to. Nothing is refused by itself: `rt try --test --fail-alloc N` refuses the Nth allocation.

ghost use Rattle.std.specs.Prelude.{◌≡◌};
ghost use Rattle.ask_model.specs.Views.{rules_of};
ghost use Rattle.transformers.specs.Suits.{Suits};

use crate::rows::{
    BOTH_LATE, COPIED, DOWNLOAD, EXPECT, FETCHED, JOINED, JSON, LARGEST, LAST, LIGHT, OBSERVED,
    OUTRUN, PIECES, PIPELINED, PUT, RENEWED, Row, UPLOAD,
};
use ask_model::Settings;
use command_line::{Line, LineFault, ReplayFault, demonstration, line_of};
use gateway_world::{Output, World, WorldFault};
use route_bank::{Profile, store_for};
use script_runs::{input_of, write_output};
use std::alloc::Global;
use transformers::{Bank, Relation, Stored};

/// Gives an input, and once more where memory was refused, which is counted.
fn give<R: Relation>(
    bank: &Bank<R>,
    world: &mut World<R>,
    line: &Line,
    refusals: &mut u64,
) -> Result<Vec<Output<R>>, WorldFault>
    requires { Suits R.holds R.takes world.old.rules.routes bank.now }
    ensures { world.new.rules ≡ world.old.rules }
{
    match world.input(bank, input_of(line)) {
        Err(WorldFault::Memory) => {
            *refusals = refusals.saturating_add(1);
            world.input(bank, input_of(line))
        }
        given => given,
    }
}

/// Prints what an input gives out.
fn print_all<R: Relation>(
    alloc: Global,
    out: &mut Vec<u8>,
    world: &World<R>,
    outputs: &[Output<R>],
) -> Result<(), ReplayFault> {
    for output in outputs {
        write_output(alloc, out, world, output)?;
    }
    Ok(())
}

/// Gives the input of a line, and prints what it gives out. The second time it has to be taken.
fn print_line<R: Relation>(
    alloc: Global,
    bank: &Bank<R>,
    world: &mut World<R>,
    out: &mut Vec<u8>,
    refusals: &mut u64,
    text: &str,
) -> Result<(), ReplayFault>
    requires { Suits R.holds R.takes world.old.rules.routes bank.now }
    ensures { world.new.rules ≡ world.old.rules }
{
    let line = line_of(alloc, text.as_bytes()).map_err(fault_of)?;
    let outputs = give(bank, world, &line, refusals).map_err(|_| ReplayFault::Line(0))?;
    print_all(alloc, out, world, &outputs)
}

/// The same of each line of a script, in a new world. What it prints.
fn print_lines<R: Relation>(
    alloc: Global,
    bank: &Bank<R>,
    settings: Settings,
    script: &str,
    refusals: &mut u64,
) -> Result<Vec<u8>, ReplayFault>
    requires { Suits R.holds R.takes (rules_of settings).routes bank.now }
{
    let Ok(mut world) = World::new(alloc, settings) else {
        return Err(ReplayFault::Memory);
    };
    let mut out = Vec::new(alloc);
    'each: for text in script.lines() {
        print_line(alloc, bank, &mut world, &mut out, refusals, text)?;
    }
    Ok(out)
}

/// What a script prints. Memory may be refused once; the inputs are counted that were refused for
/// want of it.
fn printed(alloc: Global, script: &str, refusals: &mut u64) -> Result<Vec<u8>, ReplayFault> {
    let settings = demonstration(alloc)?;
    let mut all: Vec<Stored<Profile>> = Vec::new(alloc);
    'each: for route in settings.routes.as_slice() {
        store_for!(alloc, all, route);
    }
    print_lines(alloc, &Bank::new(all), settings, script, refusals)
}

fn fault_of(fault: LineFault) -> ReplayFault {
    match fault {
        LineFault::Memory => ReplayFault::Memory,
        _ => ReplayFault::Line(0),
    }
}

/// How a run of a script ends.
#[derive(Clone, Copy, PartialEq, Eq)]
enum End {
    /// It prints what it has to, and no input was refused.
    Right,
    /// It prints what it has to, and an input was given again.
    Again,
    Wrong,
    /// The memory that was refused was the test's own.
    CutOff,
}

/// How a run of the script of this row ends.
fn end_of(alloc: Global, row: Row) -> End {
    let mut refusals = 0;
    match printed(alloc, row.script, &mut refusals) {
        Ok(out) if out.as_slice() != row.printed.as_bytes() => End::Wrong,
        Ok(_) if refusals == 0 => End::Right,
        Ok(_) => End::Again,
        // what is printed is kept in memory too
        Err(ReplayFault::Memory | ReplayFault::Device) => End::CutOff,
        Err(ReplayFault::Line(_)) => End::Wrong,
    }
}

/// Whether two runs of the script end well. One allocation is refused at most, so in one of them
/// none is: it answers no input with want of memory.
fn holds(alloc: Global, row: Row) -> bool {
    let (first, second) = (end_of(alloc, row), end_of(alloc, row));
    let is_right = first == End::Right || second == End::Right;
    is_right && first != End::Wrong && second != End::Wrong
}

/// Messages: one after the other, copied, late.
static MESSAGES: [Row; 6] = [LIGHT, PUT, PIPELINED, BOTH_LATE, LAST, COPIED];

/// Bodies: large, awaited, transformed, in pieces.
static BODIES: [Row; 6] = [LARGEST, DOWNLOAD, EXPECT, JSON, PIECES, UPLOAD];

/// Readers, and what is stored for them.
static READERS: [Row; 5] = [JOINED, OUTRUN, RENEWED, OBSERVED, FETCHED];

/// The tables, each handed out by a call that says nothing of it: what calls that is proved in less
/// time.
fn messages() -> &'static [Row] {
    &MESSAGES
}

fn bodies() -> &'static [Row] {
    &BODIES
}

fn readers() -> &'static [Row] {
    &READERS
}

/// Whether the row at that place of a table holds.
fn holds_at(alloc: Global, rows: &[Row], place: usize) -> bool {
    match rows.get(place) {
        Some(row) => holds(alloc, *row),
        None => false,
    }
}

#[test]
fn memory_refused_to_a_reply(rt: HostRuntime) {
    assert!(rt; holds_at(rt.alloc(), messages(), 0));
}

#[test]
fn memory_refused_to_a_change(rt: HostRuntime) {
    assert!(rt; holds_at(rt.alloc(), messages(), 1));
}

#[test]
fn memory_refused_to_a_large_body(rt: HostRuntime) {
    assert!(rt; holds_at(rt.alloc(), bodies(), 0));
}

#[test]
fn memory_refused_to_a_large_reply(rt: HostRuntime) {
    assert!(rt; holds_at(rt.alloc(), bodies(), 1));
}

#[test]
fn memory_refused_to_transformers(rt: HostRuntime) {
    assert!(rt; holds_at(rt.alloc(), bodies(), 3));
}

#[test]
fn memory_refused_to_pipelined_requests(rt: HostRuntime) {
    assert!(rt; holds_at(rt.alloc(), messages(), 2));
}

#[test]
fn memory_refused_to_a_tick(rt: HostRuntime) {
    assert!(rt; holds_at(rt.alloc(), messages(), 3));
}

#[test]
fn memory_refused_to_who_waits_to_go_on(rt: HostRuntime) {
    assert!(rt; holds_at(rt.alloc(), bodies(), 2));
}

#[test]
fn memory_refused_to_the_last_request(rt: HostRuntime) {
    assert!(rt; holds_at(rt.alloc(), messages(), 4));
}

#[test]
fn memory_refused_to_copies(rt: HostRuntime) {
    assert!(rt; holds_at(rt.alloc(), messages(), 5));
}

#[test]
fn memory_refused_to_pieces(rt: HostRuntime) {
    assert!(rt; holds_at(rt.alloc(), bodies(), 4));
}

#[test]
fn memory_refused_to_readers_and_the_store(rt: HostRuntime) {
    assert!(rt; holds_at(rt.alloc(), readers(), 0));
}

#[test]
fn memory_refused_to_what_a_write_outruns(rt: HostRuntime) {
    assert!(rt; holds_at(rt.alloc(), readers(), 1));
}

#[test]
fn memory_refused_to_a_body_in_pieces(rt: HostRuntime) {
    assert!(rt; holds_at(rt.alloc(), bodies(), 5));
}

#[test]
fn memory_refused_to_a_renewal(rt: HostRuntime) {
    assert!(rt; holds_at(rt.alloc(), readers(), 2));
}

#[test]
fn memory_refused_to_an_update(rt: HostRuntime) {
    assert!(rt; holds_at(rt.alloc(), readers(), 3));
}

#[test]
fn memory_refused_to_the_rest_of_an_update(rt: HostRuntime) {
    assert!(rt; holds_at(rt.alloc(), readers(), 4));
}
