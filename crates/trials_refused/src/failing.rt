//! Sessions in threads of which something fails once: a read or a write of a connection, the wire
//! that datagrams come by, or an allocation. An allocation isn't refused by itself: `rt try
//! --test --fail-alloc N` refuses the Nth.

ghost use Rattle.std.specs.Prelude.{◌≡◌, ◌-◌, ◌^◌};

use exchange_core::OpenFault;
use sessions::{Done, End};
use std::alloc::Global;
use std::marker::Brand;
use std::sync::Wait;
use std::sync::ledger::{Blank, Ledger};
use std::thread;
use std::thread::Threads;
use trials_clients::shared_settings;
use trials_desk::{
    Client, Counter, Device, Failing, Keeper, SOUND, Tape, Trial, apart, go_on, late, lost,
    new_desk, serve_plainly, twice,
};

/// What fails: the call of each connection that comes after so many, or the wire.
#[derive(Clone, Copy)]
struct Fails {
    call: u64,
    wire: Failing,
}

/// Nothing fails.
const NOTHING: Fails = Fails {
    call: u64::MAX,
    wire: SOUND,
};

/// How a session went.
#[derive(Clone, Copy, PartialEq, Eq)]
pub enum Went {
    /// As it was to.
    Right,
    /// It ended early, since something of it failed; what its client got is the beginning of what
    /// it was to get.
    CutOff,
    /// The same, since the desk was shut.
    Shut,
    Wrong,
}

/// The worse of two.
fn worse(one: Went, two: Went) -> Went {
    match (one, two) {
        (Went::Wrong, _) | (_, Went::Right) => one,
        (Went::Shut, Went::CutOff) => one,
        _ => two,
    }
}

/// How the session of a client went, which ended so. It says that a read or a write failed exactly
/// where one did.
pub fn outcome_of(client: &Client, tape: &Tape, end: End) -> Went {
    if end == client.end && tape.is_done() {
        Went::Right
    } else if tape.is_right() {
        early_by(end, tape.failed())
    } else {
        Went::Wrong
    }
}

/// How a session went that was cut off and ended so, where that is what failed of its connection.
fn early_by(end: End, failed: Option<End>) -> Went {
    match failed {
        Some(failed) if end == failed => Went::CutOff,
        None if end == End::Memory => Went::CutOff,
        None if end == End::Closed => Went::Shut,
        _ => Went::Wrong,
    }
}

/// Serves a client.
fn try_client<L: Ledger, W: Wait>(
    rt: &W,
    alloc: Global,
    device: &Device,
    desk: &Counter<L>,
    client: &'static Client,
    call: u64,
) -> Went {
    let Some(settings) = shared_settings(alloc) else {
        return Went::CutOff;
    };
    let pass = match desk.open(rt) {
        Ok(pass) => pass,
        Err(OpenFault::Memory) => return Went::CutOff,
        Err(_) => return Went::Shut,
    };
    let mut tape = Tape::failing(client, call);
    let mut gate = Keeper {
        device,
        held_at: client.held_at,
        noes: 0,
    };
    let Done { pass: _, end } = serve_plainly(
        rt, alloc, device, desk, &settings, &mut tape, &mut gate, pass,
    );
    outcome_of(client, &tape, end)
}

/// Serves clients one after the other.
fn try_all<L: Ledger, W: Wait>(
    rt: &W,
    alloc: Global,
    device: &Device,
    desk: &Counter<L>,
    clients: &'static [Client],
    call: u64,
) -> Went {
    let mut all = Went::Right;
    for client in clients {
        all = worse(all, try_client(rt, alloc, device, desk, client, call));
    }
    all
}

/// Serves the clients of a trial in two threads, and then shuts the desk.
fn try_both<L: Ledger + Send + Sync, W: Threads + Wait + Sync>(
    rt: &W,
    alloc: Global,
    device: &Device,
    desk: &Counter<L>,
    trial: &'static Trial,
    call: u64,
) -> (Went, Went) {
    let both = thread::join(
        rt,
        || try_all(rt, alloc, device, desk, trial.one, call),
        || try_all(rt, alloc, device, desk, trial.two, call),
    );
    desk.shut(rt);
    both
}

/// How the sessions of a trial went in each thread.
#[derive(Clone, Copy)]
struct Run {
    one: Went,
    two: Went,
    wire_failed: bool,
    /// whether the loop beside them waited for datagrams
    is_heard: bool,
}

/// How the trial goes, on a new desk.
fn run_trial<L: Ledger + Send + Sync, W: Threads + Wait + std::rt::Clock + Sync>(
    rt: &W,
    alloc: Global,
    blank: Blank,
    trial: &'static Trial,
    fails: Fails,
) -> Run
    requires name { blank.name ≡ L.name }
    requires parts { (blank.parts ≡ L.parts) × (blank.parts ≡ 2 ^ 32 - 1) }
{
    let device = Device::new(alloc, trial.manner, fails.wire);
    let Some(desk) = new_desk::<L>(alloc, blank, trial.step) else {
        return Run {
            one: Went::CutOff,
            two: Went::Right,
            wire_failed: false,
            is_heard: false,
        };
    };
    let ((one, two), _) = thread::join(
        rt,
        || try_both(rt, alloc, &device, &desk, trial, fails.call),
        || go_on(rt, alloc, &device, &desk),
    );
    Run {
        one,
        two,
        wire_failed: device.has_failed(),
        is_heard: device.is_heard(),
    }
}

fn goes<W: Threads + Wait + std::rt::Clock + Sync>(
    rt: &W,
    alloc: Global,
    trial: &'static Trial,
    fails: Fails,
) -> Run {
    run_trial::<Brand, W>(rt, alloc, Blank::new(4294967295), trial, fails)
}

/// Whether all of it went right.
fn is_right(run: &Run) -> bool {
    run.one == Went::Right && run.two == Went::Right
}

/// Whether it went as it may where one allocation is refused. One session is cut off at most, and
/// the other goes on, and so do the loops: the desk is shut early only where the loop that hears
/// couldn't begin.
fn is_cut_once(run: &Run) -> bool {
    match worse(run.one, run.two) {
        Went::Right => true,
        Went::CutOff => run.one == Went::Right || run.two == Went::Right,
        Went::Shut => !run.is_heard,
        Went::Wrong => false,
    }
}

/// Whether two runs of the trial go well. One allocation is refused at most, so one of them isn't
/// cut off.
fn holds<W: Threads + Wait + std::rt::Clock + Sync>(rt: &W, alloc: Global) -> bool {
    let first = goes(rt, alloc, apart(), NOTHING);
    let second = goes(rt, alloc, apart(), NOTHING);
    (is_right(&first) && is_cut_once(&second)) || (is_cut_once(&first) && is_right(&second))
}

/// What fails once, each time in a run of its own.
#[derive(Clone, Copy)]
enum Kind {
    /// A read or a write of a connection.
    Call,
    /// The wire, as a datagram comes.
    Received,
}

/// The one of that number fails.
fn fails_at(kind: Kind, number: u64) -> Fails {
    let mut fails = NOTHING;
    match kind {
        Kind::Call => fails.call = number,
        Kind::Received => fails.wire.received = number,
    }
    fails
}

/// Whether a trial may go so, of which such a one failed: a session ends where its connection
/// fails, and those that wait where no datagram can come any more.
fn may_go(kind: Kind, went: Went) -> bool {
    match kind {
        Kind::Call => went == Went::CutOff,
        Kind::Received => matches!(went, Went::Right | Went::Shut),
    }
}

/// More than a trial has of any.
const MANY: u64 = 30;

/// How many such fail, until a run has no more of them. None where a run goes wrong.
fn failures<W: Threads + Wait + std::rt::Clock + Sync>(
    rt: &W,
    alloc: Global,
    kind: Kind,
    trial: &'static Trial,
) -> Option<u64> {
    for number in 0..MANY {
        let run = goes(rt, alloc, trial, fails_at(kind, number));
        if is_right(&run) && !run.wire_failed {
            return Some(number);
        }
        if !may_go(kind, worse(run.one, run.two)) {
            return None;
        }
    }
    None
}

/// Whether so many such fail at least in the runs of each of four trials.
fn fail<W: Threads + Wait + std::rt::Clock + Sync>(
    rt: &W,
    alloc: Global,
    kind: Kind,
    [asks_twice, two_ask, asks_the_silent, loses_one]: [u64; 4],
) -> bool {
    failures(rt, alloc, kind, twice()) >= Some(asks_twice)
        && failures(rt, alloc, kind, apart()) >= Some(two_ask)
        && failures(rt, alloc, kind, late()) >= Some(asks_the_silent)
        && failures(rt, alloc, kind, lost()) >= Some(loses_one)
}

#[test]
fn memory_refused_to_threads(rt: HostRuntime) {
    assert!(rt; holds(&rt, rt.alloc()));
}

/// The first session reads four times, at last that nothing comes any more, and writes three times;
/// the others read twice and write once.
#[test]
fn each_read_and_write_fails_once(rt: HostRuntime) {
    assert!(rt; fail(&rt, rt.alloc(), Kind::Call, [7, 3, 3, 3]));
}

#[test]
fn each_receipt_fails_once(rt: HostRuntime) {
    assert!(rt; fail(&rt, rt.alloc(), Kind::Received, [2, 2, 0, 1]));
}
