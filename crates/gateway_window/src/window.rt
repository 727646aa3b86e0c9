//! The window: a second port, where people and programs see how the gateway does. It changes
//! nothing, and a slow viewer holds up nobody.

ghost use Rattle.std.specs.Prelude.{◌≤◌, length, IfSome};

use crate::excerpts::{Found, found_about, found_from};
use crate::shown::Shown;
use crate::watch::{Watch, brief_status_of, moment, status_of};
use http_edge::{Edge, Incoming, Memory, answer_bytes};
use status_page::{Excerpt, Phase, Status, View, answer_of, view_of};
use std::alloc::Global;
use std::io::{Read, Write};
use std::net::{Shutdown, TcpListener, TcpStream};
use std::rt::Clock;
use std::sync::{Arc, Wait};
use std::thread::{self, Threads};
use std::time::Duration;

/// How many viewers are served at a time. Others wait in the socket.
const MOST_VIEWERS: u64 = 4;

/// How long a viewer is served at most, from when its connection was taken until it has read its
/// answer, in milliseconds.
const LONGEST_VIEW: u64 = 5_000;

/// How long to wait, in milliseconds, before looking again whether a viewer is gone, and after a
/// connection could not be taken.
const PAUSE: u64 = 10;

/// As many bytes as an edge has room for.
const ROOM: usize = 8192;

/// Takes viewers, each in a thread of its own, until the gateway stops.
pub fn show_all<
    W: Threads + Wait + Clock + Copy + Drop + Send + Sync + 'static,
    G: Shown + Drop + Send + Sync + 'static,
>(rt: W, alloc: Global, listener: &TcpListener, gateway: &Arc<G>) {
    let Some(watch) = gateway.watch() else { return };
    for stream in listener.incoming() {
        if gateway.phase(&rt) == Phase::Stopping {
            return;
        }
        match stream {
            Ok(stream) => {
                await_place(&rt, watch);
                show(rt, alloc, stream, gateway, watch);
            }
            Err(_) => thread::sleep(&rt, Duration::from_millis(PAUSE)),
        }
    }
}

/// Waits until one more may look.
fn await_place<W: Wait + Clock>(rt: &W, watch: &Watch) {
    for _ in rt.forever() {
        if watch.viewers() < MOST_VIEWERS {
            return;
        }
        thread::sleep(rt, Duration::from_millis(PAUSE));
    }
}

/// Starts a thread for a viewer. If that fails, the connection is closed.
fn show<
    W: Threads + Wait + Clock + Copy + Drop + Send + Sync + 'static,
    G: Shown + Drop + Send + Sync + 'static,
>(rt: W, alloc: Global, stream: TcpStream, gateway: &Arc<G>, watch: &Watch) {
    watch.add_viewer();
    let started = match Arc::try_clone(gateway) {
        Ok(mine) => thread::spawn(
            &rt,
            move || serve_view::<W, G>(&rt, alloc, &stream, &mine),
        ).is_ok(),
        Err(_) => false,
    };
    if !started {
        watch.remove_viewer();
    }
}

/// Answers one request, and closes the connection.
fn serve_view<W: Wait + Clock, G: Shown>(rt: &W, alloc: Global, stream: &TcpStream, gateway: &G) {
    let Some(watch) = gateway.watch() else { return };
    if let Some(begin) = moment(rt) {
        let view = Viewer { rt, stream, begin };
        if let Some(came) = view.read(alloc) {
            if let Ok(bytes) = answer(rt, alloc, gateway, watch, &came) {
                view.write(&bytes);
                view.end();
            }
        }
    }
    watch.remove_viewer();
}

/// The bytes of the answer to what came in. Figures are gathered only where they are shown, so that
/// everything else waits for nobody.
fn answer<W: Wait + Clock, G: Shown>(
    rt: &W,
    alloc: Global,
    gateway: &G,
    watch: &Watch,
    came: &Incoming,
) -> Result<Vec<u8>, Memory> {
    let found = match view_of(came) {
        Ok(View::Journal(from)) => found_from(rt, alloc, gateway, from)?,
        Ok(View::Request(number)) => found_about(rt, alloc, gateway, number)?,
        Ok(View::People | View::Metrics) => {
            let status = status_of(rt, alloc, gateway, watch)?;
            return bytes_of(alloc, came, &status, None);
        }
        Ok(View::Health) | Err(_) => Found::Nothing,
    };
    let mut status = brief_status_of(rt, alloc, gateway, watch);
    match &found {
        Found::Turning => {
            status.phase = Phase::Turning;
            bytes_of(alloc, came, &status, None)
        }
        Found::Nothing => bytes_of(alloc, came, &status, None),
        Found::Lines(excerpt) => bytes_of(alloc, came, &status, Some(excerpt)),
    }
}

/// The bytes of the answer where this is shown.
fn bytes_of(
    alloc: Global,
    came: &Incoming,
    status: &Status,
    excerpt: Option<&Excerpt>,
) -> Result<Vec<u8>, Memory> {
    let answer = answer_of(alloc, came, status, excerpt)?;
    answer_bytes(alloc, &answer)
}

/// A viewer, whose connection was taken at the moment `begin` (in milliseconds).
#[derive(Drop)]
struct Viewer<'a, W: Clock> {
    rt: &'a W,
    stream: &'a TcpStream,
    begin: u64,
}

impl<W: Clock> Viewer<'_, W> {
    /// How long it may still be served.
    fn left(&self) -> Option<Duration> {
        let gone = moment(self.rt)?.saturating_sub(self.begin);
        if gone < LONGEST_VIEW {
            Some(Duration::from_millis(LONGEST_VIEW - gone))
        } else {
            None
        }
    }

    /// How many bytes come next into the buffer. None at the end, or where none come in time.
    fn receive(&self, buffer: &mut [u8]) -> Option<usize>
        ensures { IfSome result (λ n. n ≤ length buffer.new) }
    {
        self.stream.set_read_timeout(Some(self.left()?)).ok()?;
        let mut stream = self.stream;
        match stream.read(buffer) {
            Ok(0) | Err(_) => None,
            Ok(count) => Some(count),
        }
    }

    /// Its request.
    fn read(&self, alloc: Global) -> Option<Incoming> {
        let mut edge = Edge::new(alloc).ok()?;
        let mut buffer = [0u8; ROOM];
        'each: for _ in 0..u64::MAX {
            if let Some(came) = edge.next().ok()? {
                return Some(came);
            }
            let room = ROOM - edge.unread();
            let count = self.receive(&mut buffer[..room])?;
            edge.feed(&buffer[..count]);
        }
        None
    }

    /// Writes its answer, as much of it as the viewer reads in time.
    fn write(&self, bytes: &[u8]) {
        let mut rest = bytes;
        'each: for _ in 0..bytes.len() {
            if rest.is_empty() {
                return;
            }
            let Some(count) = self.send(rest) else { return };
            rest = &rest[count..];
        }
    }

    /// Writes some of these bytes, in time, and gives how many.
    fn send(&self, bytes: &[u8]) -> Option<usize>
        ensures { IfSome result (λ n. n ≤ length bytes.now) }
    {
        self.stream.set_write_timeout(Some(self.left()?)).ok()?;
        let mut stream = self.stream;
        match stream.write(bytes) {
            Ok(0) | Err(_) => None,
            Ok(count) => Some(count),
        }
    }

    /// Ends the connection once the viewer has read what was written (RFC 9112 section 9.6).
    fn end(&self) {
        if self.stream.shutdown(Shutdown::Write).is_err() {
            return;
        }
        let mut rest = [0u8; 1024];
        'each: for _ in 0..u64::MAX {
            if self.receive(&mut rest).is_none() {
                return;
            }
        }
    }
}
