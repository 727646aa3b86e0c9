//! Sessions in threads, over one desk.

ghost use Rattle.std.specs.Prelude.{◌≡◌, ◌-◌, ◌^◌};

use gateway_desk::{Note, Pass, Shop, settle};
use sessions::Done;
use std::alloc::Global;
use std::marker::Brand;
use std::sync::Wait;
use std::sync::ledger::{Blank, Ledger};
use std::thread;
use std::thread::Threads;
use trials_clients::{Nothing, shared_settings};
use trials_desk::{
    Client, Counter, Device, Keeper, Manner, SOUND, Tape, Trial, closed_at, crossed, go_on, held,
    late, leaver, lost, new_desk, serve_plainly, shut, stored, stranger, told,
};

/// More sessions than may be open at once, which are 256.
const SESSIONS: u32 = 300;

/// What sessions leave.
type Passes<L> = Vec<Pass<Nothing, L>>;

/// The pass of a new connection, which is told the answer that another was given last.
fn open_told<L: Ledger, W: Wait>(
    rt: &W,
    desk: &Counter<L>,
    other: Option<&Pass<Nothing, L>>,
) -> Option<Pass<Nothing, L>> {
    let mut pass = desk.open(rt).ok()?;
    if let Some(other) = other {
        if let Some(Note::Got(receipt)) = other.notes().last() {
            pass.told(receipt).ok()?;
        }
    }
    Some(pass)
}

/// Serves a client. What its session leaves is its pass, where its end and what the client got are
/// as wanted.
fn serve_client<L: Ledger, W: Wait>(
    rt: &W,
    alloc: Global,
    device: &Device,
    desk: &Counter<L>,
    client: &'static Client,
    pass: Pass<Nothing, L>,
) -> Option<Pass<Nothing, L>> {
    let settings = shared_settings(alloc)?;
    let mut tape = Tape::of(client);
    let mut gate = Keeper {
        device,
        held_at: client.held_at,
        noes: 0,
    };
    let done = serve_plainly(
        rt, alloc, device, desk, &settings, &mut tape, &mut gate, pass,
    );
    let Done { pass, end } = done;
    if end == client.end && tape.is_done() {
        Some(pass.into_pass())
    } else {
        None
    }
}

/// Serves clients one after the other. Each session is told what the one before was answered last.
fn serve_all<L: Ledger, W: Wait>(
    rt: &W,
    alloc: Global,
    device: &Device,
    desk: &Counter<L>,
    clients: &'static [Client],
) -> Option<Passes<L>> {
    let mut passes = Vec::new(alloc);
    for client in clients {
        let pass = open_told(rt, desk, passes.last())?;
        let pass = serve_client(rt, alloc, device, desk, client, pass)?;
        passes.push(pass).ok()?;
    }
    Some(passes)
}

/// All passes.
fn joined<L: Ledger>(one: Option<Passes<L>>, two: Option<Passes<L>>) -> Option<Passes<L>> {
    let (mut one, mut two) = (one?, two?);
    one.append(&mut two).ok()?;
    Some(one)
}

/// Serves the clients of a trial in two threads, and then shuts the desk.
fn serve_both<L: Ledger + Send + Sync, W: Threads + Wait + Sync>(
    rt: &W,
    alloc: Global,
    device: &Device,
    desk: &Counter<L>,
    trial: &'static Trial,
) -> Option<Passes<L>> {
    let (one, two) = thread::join(
        rt,
        || serve_all(rt, alloc, device, desk, trial.one),
        || serve_all(rt, alloc, device, desk, trial.two),
    );
    desk.shut(rt);
    joined(one, two)
}

/// Whether the trial goes as it says.
fn run<L: Ledger + Send + Sync, W: Threads + Wait + std::rt::Clock + Sync>(
    rt: &W,
    alloc: Global,
    blank: Blank,
    trial: &'static Trial,
) -> Option<bool>
    requires name { blank.name ≡ L.name }
    requires parts { (blank.parts ≡ L.parts) × (blank.parts ≡ 2 ^ 32 - 1) }
{
    let desk: Counter<L> = new_desk(alloc, blank, trial.step)?;
    let device = Device::new(alloc, trial.manner, SOUND);
    let (passes, _) = thread::join(
        rt,
        || serve_both(rt, alloc, &device, &desk, trial),
        || go_on(rt, alloc, &device, &desk),
    );
    let found = settle(alloc, desk.into_shop(), passes?);
    Some(found == Ok(trial.settled))
}

fn goes<W: Threads + Wait + std::rt::Clock + Sync>(
    rt: &W,
    alloc: Global,
    trial: &'static Trial,
) -> bool {
    run::<Brand, W>(rt, alloc, Blank::new(4294967295), trial) == Some(true)
}

/// Whether the sessions' connections were closed one after the other, each once, and then that
/// which was opened first.
fn are_closed_in_turn<L: Ledger>(shop: &Shop<Nothing, L>) -> bool {
    let mut closed: u32 = 0;
    let journal = shop.journal();
    'each: for number in 0..journal.len() {
        if let Some(conn) = closed_at(journal, number) {
            closed = closed.saturating_add(1);
            if conn != closed % (SESSIONS + 1) {
                return false;
            }
        }
    }
    closed == SESSIONS + 1
}

/// Serves more clients one after the other than may be open at once, while the first connection
/// stays open, and then a request on that one. A session has the pass of its own connection and no
/// other, and what closes one is a pass or its stub: so it can't close another's. That the desk
/// closes the connection of the pass that it is given is a clause below the lock, and seen here in
/// the journal too.
fn follow<L: Ledger, W: Wait>(rt: &W, alloc: Global, blank: Blank) -> Option<bool>
    requires name { blank.name ≡ L.name }
    requires parts { (blank.parts ≡ L.parts) × (blank.parts ≡ 2 ^ 32 - 1) }
{
    let desk: Counter<L> = new_desk(alloc, blank, 0)?;
    let device = Device::new(alloc, Manner::Silent, SOUND);
    let first = desk.open(rt).ok()?;
    for _ in 0..SESSIONS {
        let pass = desk.open(rt).ok()?;
        serve_client(rt, alloc, &device, &desk, leaver(), pass)?;
    }
    let first = serve_client(rt, alloc, &device, &desk, stranger(), first)?;
    Some(first.made() == 1 && are_closed_in_turn(&desk.into_shop()))
}

fn follow_each_other<W: Wait>(rt: &W, alloc: Global) -> bool {
    follow::<Brand, W>(rt, alloc, Blank::new(4294967295)) == Some(true)
}

#[test]
fn the_first_device_answers_last(rt: HostRuntime) {
    assert!(rt; goes(&rt, rt.alloc(), crossed()));
}

#[test]
fn who_is_told_of_a_write_reads_it(rt: HostRuntime) {
    assert!(rt; goes(&rt, rt.alloc(), told()));
}

#[test]
fn gates_and_clients_end_sessions(rt: HostRuntime) {
    assert!(rt; goes(&rt, rt.alloc(), held()));
}

#[test]
fn what_is_stored_is_served(rt: HostRuntime) {
    assert!(rt; goes(&rt, rt.alloc(), stored()));
}

#[test]
fn a_silent_device_is_given_up(rt: HostRuntime) {
    assert!(rt; goes(&rt, rt.alloc(), late()));
}

#[test]
fn a_lost_datagram_is_sent_again(rt: HostRuntime) {
    assert!(rt; goes(&rt, rt.alloc(), lost()));
}

#[test]
fn who_waits_is_woken_by_the_shutting(rt: HostRuntime) {
    assert!(rt; goes(&rt, rt.alloc(), shut()));
}

#[test]
fn a_session_ends_its_own_connection(rt: HostRuntime) {
    assert!(rt; follow_each_other(&rt, rt.alloc()));
}
