//! The thread that takes connections.

use crate::shared::Shared;
use exchange_core::OpenFault;
use gateway_desk::Pass;
use gateway_system::Line;
use log::{Log, warn};
use route_bank::Profile;
use std::alloc::{AllocError, Global};
use std::net::{TcpListener, TcpStream};
use std::random::RandomSource;
use std::rt::Clock;
use std::sync::ledger::Ledger;
use std::sync::{Arc, Wait};
use std::thread::{self, Threads};
use std::time::Duration;

/// How long nothing is taken after a connection couldn't be, in milliseconds.
const PAUSE: u64 = 50;

/// Takes connections, and starts a session for each, until the desk is shut. Of some that are turned
/// away one after the other the first is noted.
pub fn take_connections<
    W: Threads + Wait + Log + Clock + RandomSource + Copy + Drop + Send + Sync + 'static,
    L: Ledger + Send + Sync + 'static,
>(rt: W, alloc: Global, listener: &TcpListener, shared: &Arc<Shared<W, L>>) {
    let mut turning_away = false;
    for stream in listener.incoming() {
        if shared.desk.is_shut(&rt) {
            return;
        }
        let Ok(stream) = stream else {
            thread::sleep(&rt, Duration::from_millis(PAUSE));
            continue;
        };
        let taken = take(rt, alloc, stream, shared);
        if let (Err(reason), false) = (taken, turning_away) {
            warn!(rt; target: "hcproxy", "a connection is turned away: {reason}");
        }
        turning_away = taken.is_err();
    }
}

/// Takes a connection, or tells why it is turned away.
fn take<
    W: Threads + Wait + Log + Clock + RandomSource + Copy + Drop + Send + Sync + 'static,
    L: Ledger + Send + Sync + 'static,
>(rt: W, alloc: Global, stream: TcpStream, shared: &Arc<Shared<W, L>>) -> Result<(), &'static str> {
    let pass = match pass_for(&rt, shared) {
        Ok(pass) => pass,
        Err(OpenFault::Full) => return Err("256 connections are open"),
        Err(OpenFault::Memory) => return Err("no memory for it"),
        Err(OpenFault::Sealed) => return Err("the gateway stops"),
    };
    if start_session(rt, alloc, stream, shared, pass) {
        Ok(())
    } else {
        Err("no thread or no memory for it")
    }
}

/// The pass of one more connection, which is counted before it is opened. While the journal is
/// turned over this waits; it is sealed for good where the desk is shut.
fn pass_for<W: Wait + Clock + RandomSource + Drop, L: Ledger>(
    rt: &W,
    shared: &Shared<W, L>,
) -> Result<Pass<Profile, L>, OpenFault> {
    for _ in rt.forever() {
        shared.roll.lock(rt).admit()?;
        let pass = shared.desk.open(rt);
        if pass.is_err() {
            shared.roll.lock(rt).leave(None, None);
        }
        match pass {
            Err(OpenFault::Sealed) if shared.desk.wait_turned(rt) => {}
            pass => return pass,
        }
    }
    unreachable!()
}

/// Starts a session in a thread of its own, and answers whether it could. Where it couldn't, the
/// connection is closed.
fn start_session<
    W: Threads + Wait + Log + Clock + RandomSource + Copy + Drop + Send + Sync + 'static,
    L: Ledger + Send + Sync + 'static,
>(
    rt: W,
    alloc: Global,
    stream: TcpStream,
    shared: &Arc<Shared<W, L>>,
    pass: Pass<Profile, L>,
) -> bool {
    let (number, stub) = (pass.conn(), pass.stub());
    let started = match (
        Arc::try_clone(shared),
        seated(&rt, alloc, stream, shared, number),
    ) {
        (Ok(mine), Ok(line)) => {
            thread::spawn(&rt, move || mine.serve_client(&rt, alloc, line, pass)).is_ok()
        }
        _ => false,
    };
    if !started {
        shared.desk.close_lost(&rt, stub);
        shared.roll.lock(&rt).leave(Some(number), None);
    }
    started
}

/// A connection that was taken, which may be closed while its session waits for a request.
fn seated<W: Wait + Clock + RandomSource + Drop, L: Ledger>(
    rt: &W,
    alloc: Global,
    stream: TcpStream,
    shared: &Shared<W, L>,
    number: u32,
) -> Result<Arc<Line>, AllocError> {
    let line = Arc::new(alloc, Line::new(stream))?;
    let theirs = Arc::try_clone(&line)?;
    shared.roll.lock(rt).sit(number, theirs);
    Ok(line)
}
