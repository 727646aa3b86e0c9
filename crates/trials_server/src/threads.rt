//! The gateway with a thread for each connection on sockets of this machine, with a device that goes
//! by rows.

use gateway_server::{Ports, run};
use log::Log;
use std::alloc::Global;
use std::net::{Net, SocketAddr, TcpListener, TcpStream};
use std::random::RandomSource;
use std::rt::Clock;
use std::sync::Wait;
use std::thread;
use std::thread::Threads;
use std::time::Duration;
use trials_clients::{IDLE, any_port, go, is_given_up, is_taken, settings};

/// How long clients have that don't stand still, in seconds.
pub const LONG: u64 = 60;

/// Starts a gateway whose clients have so many seconds, and answers where it takes connections.
pub fn start<
    W: Threads
        + Wait
        + Log
        + Clock
        + RandomSource
        + Net<Listener = TcpListener, Stream = TcpStream>
        + Copy
        + Drop
        + Send
        + Sync
        + 'static,
>(rt: W, alloc: Global, patience: u64) -> Option<SocketAddr> {
    let ports = Ports::bind(&rt, any_port(), any_port()).ok()?;
    let at = ports.listens_at().ok()?;
    let settings = settings(alloc).ok()?;
    let patience = Duration::from_secs(patience);
    let started = thread::spawn(&rt, move || {
        let _ = run(rt, alloc, ports, settings, patience);
    });
    started.is_ok().then_some(at)
}

#[test]
fn rows_go_over_sockets(rt: HostRuntime) {
    let gateway = start(rt, rt.alloc(), LONG);
    assert!(rt; gateway.is_some());
    if let Some(gateway) = gateway {
        assert!(rt; go(&rt, rt.alloc(), gateway) == Some(true));
    }
}

#[test]
fn a_request_that_stands_still_ends(rt: HostRuntime) {
    let gateway = start(rt, rt.alloc(), IDLE);
    assert!(rt; gateway.is_some());
    if let Some(gateway) = gateway {
        assert!(rt; is_given_up(&rt, gateway) == Some(true));
    }
}

#[test]
fn who_is_idle_makes_place(rt: HostRuntime) {
    let gateway = start(rt, rt.alloc(), IDLE);
    assert!(rt; gateway.is_some());
    if let Some(gateway) = gateway {
        assert!(rt; is_taken(&rt, rt.alloc(), gateway) == Some(true));
    }
}
