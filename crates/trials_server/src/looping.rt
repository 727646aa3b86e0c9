//! The loop on sockets of this machine: the same rows as the threads', and what its window shows.

use journal_book::Entry;
use log::Log;
use loop_system::{Archive, NoArchive, Options, Ports, run};
use route_bank::Profile;
use std::alloc::{AllocError, Global};
use std::net::{Net, TcpListener, TcpStream};
use std::random::RandomSource;
use std::rt::Clock;
use std::sync::atomic::{AtomicBool, AtomicUsize, Ordering};
use std::sync::{Arc, Wait};
use std::thread::{self, Threads};
use std::time::Duration;
use trials_clients::{
    IDLE, Shown, answers_all, any_port, go, is_counted, is_given_up, is_taken, settings,
    shows_journal,
};

/// Notes each answer, and gives up who stands still for a second.
fn hasty() -> Options {
    Options {
        access: true,
        idle: IDLE,
        ..Options::default()
    }
}

/// Counts the entries that it is given, and sees that each is the next.
#[derive(Drop)]
struct Counter {
    count: Arc<AtomicUsize>,
    wrong: Arc<AtomicBool>,
}

impl Counter {
    /// None came yet.
    fn new(alloc: Global) -> Result<Counter, AllocError> {
        Ok(Counter {
            count: Arc::new(alloc, AtomicUsize::new(0))?,
            wrong: Arc::new(alloc, AtomicBool::new(false))?,
        })
    }

    /// The same counter.
    fn shared(&self) -> Result<Counter, AllocError> {
        Ok(Counter {
            count: Arc::try_clone(&self.count)?,
            wrong: Arc::try_clone(&self.wrong)?,
        })
    }

    /// Whether so many came, each as the next, within some seconds.
    fn has<W: Clock>(&self, rt: &W, least: usize) -> bool {
        'each: for _ in 0..50 {
            if self.count.load(Ordering::SeqCst) >= least {
                return !self.wrong.load(Ordering::SeqCst);
            }
            thread::sleep(rt, Duration::from_millis(100));
        }
        false
    }
}

impl Archive<Profile> for Counter {
    fn keeps(&self) -> bool {
        true
    }

    fn keep(&mut self, first: usize, entries: &[Entry<Profile>]) {
        if first != self.count.load(Ordering::SeqCst) {
            self.wrong.store(true, Ordering::SeqCst);
        }
        self.count.fetch_add(entries.len(), Ordering::SeqCst);
    }
}

/// Starts the loop with these options, and answers where it takes connections and is looked at.
fn start_with<
    W: Threads
        + Wait
        + Log
        + Clock
        + RandomSource
        + Net<Listener = TcpListener, Stream = TcpStream>
        + Copy
        + Drop
        + Send
        + Sync
        + 'static,
    A: Archive<Profile> + Drop + Send + 'static,
>(rt: W, alloc: Global, options: Options, archive: A) -> Option<Shown> {
    let ports = Ports::bind(&rt, any_port(), any_port()).ok()?;
    let ports = ports.with_window(&rt, any_port()).ok()?;
    let shown = Shown {
        gateway: ports.listens_at().ok()?,
        window: ports.shows_at()?,
    };
    let settings = settings(alloc).ok()?;
    let started = thread::spawn(&rt, move || {
        let _ = run(&rt, rt, alloc, ports, settings, options, archive);
    });
    started.is_ok().then_some(shown)
}

/// Starts the loop, and answers where it takes connections and is looked at.
pub fn start_shown<
    W: Threads
        + Wait
        + Log
        + Clock
        + RandomSource
        + Net<Listener = TcpListener, Stream = TcpStream>
        + Copy
        + Drop
        + Send
        + Sync
        + 'static,
>(rt: W, alloc: Global) -> Option<Shown> {
    start_with(rt, alloc, Options::default(), NoArchive)
}

#[test]
fn rows_go_over_the_loop(rt: HostRuntime) {
    let shown = start_shown(rt, rt.alloc());
    assert!(rt; shown.is_some());
    if let Some(shown) = shown {
        assert!(rt; go(&rt, rt.alloc(), shown.gateway) == Some(true));
    }
}

#[test]
fn who_stands_still_makes_place_in_the_loop(rt: HostRuntime) {
    let shown = start_with(rt, rt.alloc(), hasty(), NoArchive);
    assert!(rt; shown.is_some());
    if let Some(shown) = shown {
        assert!(rt; is_given_up(&rt, shown.gateway) == Some(true));
        assert!(rt; is_taken(&rt, rt.alloc(), shown.gateway) == Some(true));
    }
}

#[test]
fn the_window_shows_the_loop(rt: HostRuntime) {
    let shown = start_shown(rt, rt.alloc());
    assert!(rt; shown.is_some());
    if let Some(shown) = shown {
        assert!(rt; answers_all(&rt, rt.alloc(), shown.window) == Some(true));
        assert!(rt; is_counted(&rt, rt.alloc(), shown) == Some(true));
        assert!(rt; shows_journal(&rt, rt.alloc(), shown) == Some(true));
    }
}

/// Whether what happens is kept, entry by entry: of each of two requests at least that it was asked and
/// answered.
fn is_kept<
    W: Threads
        + Wait
        + Log
        + Clock
        + RandomSource
        + Net<Listener = TcpListener, Stream = TcpStream>
        + Copy
        + Drop
        + Send
        + Sync
        + 'static,
>(rt: W, alloc: Global) -> Option<bool> {
    let counter = Counter::new(alloc).ok()?;
    let shown = start_with(rt, alloc, Options::default(), counter.shared().ok()?)?;
    let went = go(&rt, alloc, shown.gateway)?;
    Some(went && counter.has(&rt, 4))
}

#[test]
fn what_happens_is_kept(rt: HostRuntime) {
    assert!(rt; is_kept(rt, rt.alloc()) == Some(true));
}
