//! The threads of the gateway.

ghost use Rattle.std.specs.Prelude.{◌≡◌, ◌-◌, ◌^◌};

use crate::ports::Ports;
use crate::roll::Roll;
use crate::shared::Shared;
use crate::taking::take_connections;
use crate::turning::turn_journals;
use ask_model::Settings;
use gateway_desk::{LockedDesk, Shop};
use gateway_system::SystemClock;
use log::{Log, info};
use route_bank::Profile;
use server_faults::ServeFault;
use sessions::{tick_loop, udp_loop};
use std::alloc::Global;
use std::marker::Brand;
use std::net::TcpListener;
use std::random::RandomSource;
use std::rt::Clock;
use std::sync::ledger::{Blank, Ledger};
use std::sync::{Arc, Mutex, Wait};
use std::thread::{self, JoinHandle, Threads};
use std::time::{Duration, Instant};

/// How many asks and sessions the ledger of a shop has parts for.
const PARTS: u64 = 4294967295;

/// Runs the gateway on these sockets until the clock or the UDP socket fails. Each connection has a
/// thread of its own, which is cut off when the program ends. A client has `patience` for its next
/// request, as long for the rest of one, and as long to take an answer. Each time that the journal is
/// nearly full it is turned over.
pub fn run<W: Threads + Wait + Log + Clock + RandomSource + Copy + Drop + Send + Sync + 'static>(
    rt: W,
    alloc: Global,
    ports: Ports,
    settings: Settings,
    patience: Duration,
) -> ServeFault {
    let blank = Blank::new(PARTS);
    match run_with::<W, Brand>(rt, alloc, ports, settings, patience, blank) {
        Ok(()) => ServeFault::Stopped,
        Err(fault) => fault,
    }
}

/// Runs the gateway with a ledger of asks.
fn run_with<
    W: Threads + Wait + Log + Clock + RandomSource + Copy + Drop + Send + Sync + 'static,
    L: Ledger + Send + Sync + 'static,
>(
    rt: W,
    alloc: Global,
    ports: Ports,
    settings: Settings,
    patience: Duration,
    blank: Blank,
) -> Result<(), ServeFault>
    requires name { blank.name ≡ L.name }
    requires parts { (blank.parts ≡ L.parts) × (blank.parts ≡ 2 ^ 32 - 1) }
{
    let settings = Arc::new(alloc, settings)?;
    let desk: LockedDesk<Profile, SystemClock<W>, L> = desk_of(rt, alloc, blank)?;
    note_ports(&rt, &ports);
    let Ports { listener, devices } = ports;
    let shared = Shared {
        desk,
        devices,
        settings,
        patience,
        roll: Mutex::new(Roll::new(alloc)),
    };
    let shared = Arc::new(alloc, shared)?;
    let turns = start_threads(rt, alloc, listener, &shared)?;
    tick_loop(&rt, &shared.devices, &shared.desk, u64::MAX);
    turns.join(&rt);
    Ok(())
}

/// A desk that counts time from now, at which nothing was asked yet.
fn desk_of<W: Clock + RandomSource + Drop, L: Ledger>(
    rt: W,
    alloc: Global,
    blank: Blank,
) -> Result<LockedDesk<Profile, SystemClock<W>, L>, ServeFault>
    requires name { blank.name ≡ L.name }
    requires parts { (blank.parts ≡ L.parts) × (blank.parts ≡ 2 ^ 32 - 1) }
{
    let begin = match Instant::now(&rt) {
        Ok(begin) => begin,
        Err(error) => return Err(ServeFault::Clock(error)),
    };
    let shop = Shop::new(alloc, blank)?;
    Ok(LockedDesk::new(alloc, shop, SystemClock::new(rt, begin))?)
}

/// Notes where the gateway is found.
fn note_ports<W: Log>(rt: &W, ports: &Ports) {
    if let (Ok(listen), Ok(udp)) = (ports.listens_at(), ports.sends_from()) {
        info!(rt; target: "hcproxy", "takes connections at {listen}, sends from {udp}");
    }
}

/// Starts the threads of the UDP socket, of the listener, and of the turns of the journal, of which
/// this gives the last.
fn start_threads<
    W: Threads + Wait + Log + Clock + RandomSource + Copy + Drop + Send + Sync + 'static,
    L: Ledger + Send + Sync + 'static,
>(
    rt: W,
    alloc: Global,
    listener: TcpListener,
    shared: &Arc<Shared<W, L>>,
) -> Result<JoinHandle<()>, ServeFault> {
    let (hearing, taking) = (Arc::try_clone(shared)?, Arc::try_clone(shared)?);
    let turning = Arc::try_clone(shared)?;
    let hears = thread::spawn(&rt, move || {
        udp_loop(&rt, alloc, &hearing.devices, &hearing.desk, u64::MAX)
    });
    let takes = thread::spawn(&rt, move || take_connections(rt, alloc, &listener, &taking));
    if hears.is_err() || takes.is_err() {
        return Err(ServeFault::Thread);
    }
    match thread::spawn(&rt, move || turn_journals(&rt, &turning)) {
        Ok(turns) => Ok(turns),
        Err(_) => Err(ServeFault::Thread),
    }
}
