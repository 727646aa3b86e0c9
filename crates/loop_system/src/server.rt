//! The gateway on the system's sockets, in one thread.

ghost use Rattle.ask_model.specs.Views.{rules_of};
ghost use Rattle.route_bank.specs.Profiles.{profile_holds, profile_takes};
ghost use Rattle.transformers.specs.Suits.{Suits};

use crate::after::After;
use crate::archive::Archive;
use crate::client::Client;
use crate::devices::Devices;
use crate::glass::Glass;
use crate::host::{System, waker_of, watched};
use crate::outlet::Outlet;
use crate::ports::Ports;
use ask_model::Settings;
use gateway_loop::{Gateway, Held, Loop, Patience, Stop};
use gateway_window::{Options, Watch, show_all};
use http_edge::Memory;
use log::{Log, info, warn};
use mio::Poll;
use route_bank::{Profile, store_for};
use server_faults::ServeFault;
use std::alloc::Global;
use std::net::{Net, TcpListener};
use std::random::RandomSource;
use std::rt::Clock;
use std::sync::{Arc, Wait};
use std::thread::{self, Threads};
use transformers::{Bank, Stored};

/// Within how many milliseconds the head of a request has to be whole.
const LONGEST_HEAD: u64 = 60_000;

/// How many clients may be connected.
const MOST_CONNECTIONS: usize = 4096;

/// How many entries of its history the gateway holds.
const MOST_HELD: usize = 32_768;

/// Runs the gateway at these ports, as the options say, until the clock fails, signs can't be waited
/// for, memory is refused or the numbers of its history are spent.
///
/// What happens is given to the archive, entry by entry, by a thread of its own for which nothing
/// waits, within a second; and so is what is left as the gateway stops, unless memory is refused.
/// Where there is a window, those who look are served by threads too.
pub fn run<
    N: Net,
    W: Threads + Wait + Log + Clock + RandomSource + Copy + Drop + Send + Sync + 'static,
    A: Archive<Profile> + Drop + Send + 'static,
>(
    net: &N,
    rt: W,
    alloc: Global,
    ports: Ports,
    settings: Settings,
    options: Options,
    archive: A,
) -> ServeFault {
    match run_with_bank(net, rt, alloc, ports, settings, options, archive) {
        Ok(fault) | Err(fault) => fault,
    }
}

/// Runs the gateway with the transformers that the routes of the settings ask for: by which fault it
/// ended, or else didn't begin.
fn run_with_bank<
    N: Net,
    W: Threads + Wait + Log + Clock + RandomSource + Copy + Drop + Send + Sync + 'static,
    A: Archive<Profile> + Drop + Send + 'static,
>(
    net: &N,
    rt: W,
    alloc: Global,
    ports: Ports,
    settings: Settings,
    options: Options,
    archive: A,
) -> Result<ServeFault, ServeFault> {
    let mut all: Vec<Stored<Profile>> = Vec::new(alloc);
    'each: for route in settings.routes.as_slice() {
        store_for!(alloc, all, route);
    }
    run_on(
        net,
        rt,
        alloc,
        ports,
        settings,
        &Bank::new(all),
        options,
        archive,
    )
}

/// Runs the gateway with a bank that suits the settings.
fn run_on<
    N: Net,
    W: Threads + Wait + Log + Clock + RandomSource + Copy + Drop + Send + Sync + 'static,
    A: Archive<Profile> + Drop + Send + 'static,
>(
    net: &N,
    rt: W,
    alloc: Global,
    ports: Ports,
    settings: Settings,
    bank: &Bank<Profile>,
    options: Options,
    archive: A,
) -> Result<ServeFault, ServeFault>
    requires { Suits profile_holds profile_takes (rules_of settings).routes bank.now }
{
    note_ports(&rt, &ports);
    let Ports {
        mut listener,
        mut devices,
        window,
    } = ports;
    let poll = match watched(net, &mut listener, &mut devices.socket) {
        Ok(poll) => poll,
        Err(_) => return Err(ServeFault::Stopped),
    };
    let glass = glass_for(rt, alloc, &poll, window, options)?;
    let begin = match rt.monotonic() {
        Ok(begin) => begin,
        Err(error) => return Err(ServeFault::Clock(error)),
    };
    let mut host = System::new(rt, alloc, poll, listener, begin)?;
    let gateway: Gateway<Profile, Client, Devices> = Gateway::new(alloc, settings, devices)?;
    let it = Loop::new(gateway, patience_of(options), held_by(options))?;
    let outlet = Outlet::new(rt, alloc, archive)?;
    let after = After::new(alloc, outlet, seen(&glass), options.access);
    Ok(go_on(&rt, it, bank, &mut host, after))
}

/// How long clients are borne with.
fn patience_of(options: Options) -> Patience {
    Patience {
        idle: options.idle.saturating_mul(1000),
        head: LONGEST_HEAD,
        connections: MOST_CONNECTIONS,
    }
}

/// How much of its history it holds.
fn held_by(options: Options) -> Held {
    Held {
        entries: MOST_HELD,
        bytes: options.held,
    }
}

/// Notes where the gateway is found.
fn note_ports<W: Log>(rt: &W, ports: &Ports) {
    if let (Ok(listen), Ok(udp)) = (ports.listens_at(), ports.sends_from()) {
        info!(rt; target: "hcproxy", "takes connections at {listen}, sends from {udp}");
    }
    if let Some(shown) = ports.shows_at() {
        info!(rt; target: "hcproxy", "shows how it does at http://{shown}/");
    }
}

/// Through which the gateway is looked at, where there is a window.
fn glass_for<W: Threads + Wait + Clock + Copy + Drop + Send + Sync + 'static>(
    rt: W,
    alloc: Global,
    poll: &Poll,
    window: Option<TcpListener>,
    options: Options,
) -> Result<Option<Arc<Glass>>, ServeFault> {
    match window {
        Some(window) => Ok(Some(start_window(rt, alloc, poll, window, options)?)),
        None => Ok(None),
    }
}

/// The same, lent.
fn seen(glass: &Option<Arc<Glass>>) -> Option<&Glass> {
    match glass {
        Some(glass) => Some(glass),
        None => None,
    }
}

/// Starts the thread that takes those who look at the gateway, each of whom has one more.
fn start_window<W: Threads + Wait + Clock + Copy + Drop + Send + Sync + 'static>(
    rt: W,
    alloc: Global,
    poll: &Poll,
    window: TcpListener,
    options: Options,
) -> Result<Arc<Glass>, ServeFault> {
    let waker = match waker_of(poll) {
        Ok(waker) => waker,
        Err(_) => return Err(ServeFault::Stopped),
    };
    let watch = Watch::new(&rt, alloc)?;
    let glass = Arc::new(alloc, Glass::new(watch, options.payloads, waker))?;
    let theirs = Arc::try_clone(&glass)?;
    match thread::spawn(&rt, move || show_all(rt, alloc, &window, &theirs)) {
        Ok(_) => Ok(glass),
        Err(_) => Err(ServeFault::Thread),
    }
}

/// Turns until it can't go on, and tells why.
fn go_on<V: Threads + Wait + Log + Clock, W: Clock + RandomSource + Drop>(
    rt: &V,
    it: Loop<Profile, Client, Devices>,
    bank: &Bank<Profile>,
    host: &mut System<W>,
    after: After<'_>,
) -> ServeFault
    requires { Suits profile_holds profile_takes it.gateway.world.rules.routes bank.now }
{
    let mut it = it;
    let mut after = after;
    after.begin(&mut it);
    'each: for _ in 0..u64::MAX {
        if let Err(stop) = it.wait(host) {
            note_stop(rt, stop);
            after.end(rt, Some(&it));
            return ServeFault::Stopped;
        }
        it = match it.turn(bank, host) {
            Ok(it) => it,
            Err(Memory) => {
                after.end(rt, None);
                return ServeFault::Memory;
            }
        };
        after.look(rt, &mut it, &host.arrivals);
        host.arrivals.clear();
    }
    ServeFault::Stopped
}

/// Notes why the loop ends, where its end doesn't tell.
fn note_stop<V: Log>(rt: &V, stop: Stop) {
    if stop == Stop::Spent {
        warn!(rt; target: "hcproxy", "the journal takes nothing more: its numbers are spent");
    }
}
