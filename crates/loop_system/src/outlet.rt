//! The history goes to the archive, by a thread of its own, for which nothing waits.

ghost use Rattle.std.specs.Prelude.{◌≡◌};

use crate::archive::Archive;
use crate::client::Client;
use crate::devices::Devices;
use gateway_loop::{Loop, Segment};
use journal_book::{Entry, Journal};
use limits::MAX_NUMBERED;
use log::{Log, warn};
use route_bank::Profile;
use rtrb::{Consumer, Producer, RingBuffer};
use server_faults::ServeFault;
use std::alloc::{AllocError, Global};
use std::rt::Clock;
use std::sync::Wait;
use std::thread::{self, JoinHandle, Threads};
use std::time::Duration;

/// How many segments leave memory after a turn, at most: more than a turn adds.
const LEAVING: usize = 8;

/// How many entries go to the thread at once, and how often so many in a turn.
const AT_ONCE: usize = 1024;

const GOES: usize = 4;

/// How many times so many may wait for it.
const WAITING: usize = 32;

/// How often what is new goes to it, in milliseconds.
const SPAN: u64 = 500;

/// How long it waits until it looks for more, in milliseconds.
const PAUSE: u64 = 100;

/// How often so long is waited for it as the loop ends: a minute.
const TRIES: usize = 600;

/// So many entries have all numbers but a tenth.
const NEARLY_SPENT: usize = MAX_NUMBERED as usize / 10 * 9;

/// Why entries are lost.
const SLOW: &str = "what writes it is too slow";

/// The way to the thread that has entries kept.
#[derive(Drop)]
struct Writer {
    entries: Producer<Segment<Profile>>,
    thread: JoinHandle<()>,
}

/// What of the history went to the archive.
#[derive(Drop)]
pub struct Outlet {
    alloc: Global,
    /// None where nothing is kept.
    writer: Option<Writer>,
    /// The number of the entry after the last that went there.
    next: usize,
    /// before which moment nothing that is held does
    again: u64,
    /// There was no room for entries that left memory, and that was noted.
    slow: bool,
    /// That numbers are nearly spent was noted.
    spent: bool,
}

impl Outlet {
    /// Starts the thread, where anything is to be kept.
    pub fn new<
        W: Threads + Wait + Clock + Copy + Drop + Send + Sync + 'static,
        A: Archive<Profile> + Drop + Send + 'static,
    >(rt: W, alloc: Global, archive: A) -> Result<Outlet, ServeFault> {
        let writer = if archive.keeps() {
            Some(start_writer(rt, alloc, archive)?)
        } else {
            None
        };
        Ok(Outlet {
            alloc,
            writer,
            next: 0,
            again: 0,
            slow: false,
            spent: false,
        })
    }

    /// Lets the first entries leave memory, where too many are held; and has what is new kept, once
    /// in a while.
    pub fn look<V: Log>(&mut self, rt: &V, it: &mut Loop<Profile, Client, Devices>)
        ensures { it.new.gateway.world.rules ≡ it.old.gateway.world.rules }
    {
        'each: for _ in 0..LEAVING {
            match it.take_segment() {
                Some(segment) => self.leave(rt, segment),
                None => break,
            }
        }
        self.note_numbers(rt, it);
        if it.moment() >= self.again {
            self.keep_new(rt, it);
        }
        let waits = self.writer.is_some() && self.next < it.core().journal().len();
        it.look_again(if waits { Some(self.again) } else { None });
    }

    /// Has entries kept that left memory, as far as they weren't before. Where there is no room for
    /// them on the way they are lost, and others come after them.
    fn leave<V: Log>(&mut self, rt: &V, segment: Segment<Profile>) {
        let Segment { first, mut entries } = segment;
        let known = self.next.saturating_sub(first);
        if self.writer.is_none() || known >= entries.len() {
            return;
        }
        entries.drain(..known);
        let first = first.saturating_add(known);
        if !self.send(rt, Segment { first, entries }) && !self.slow {
            self.slow = true;
            warn!(rt; target: "hcproxy", "the journal isn't written from entry {first} on: {SLOW}");
        }
    }

    /// Has entries kept that are held and new, some of them: the others in the next turn.
    fn keep_new<V: Log>(&mut self, rt: &V, it: &Loop<Profile, Client, Devices>) {
        'each: for _ in 0..GOES {
            let sent = match self.copied(it) {
                Some(segment) => self.send(rt, segment),
                None => false,
            };
            if !sent {
                self.again = it.moment().saturating_add(SPAN);
                return;
            }
        }
    }

    /// Copies of the next entries that are held, if there are any, and room for them on the way.
    fn copied(&mut self, it: &Loop<Profile, Client, Devices>) -> Option<Segment<Profile>> {
        let writer = self.writer.as_mut()?;
        if writer.entries.is_full() {
            return None;
        }
        let first = self.next.max(it.given());
        let entries = copies(self.alloc, it.core().journal(), first).ok()?;
        if entries.is_empty() {
            return None;
        }
        Some(Segment { first, entries })
    }

    /// Sends these to the thread. False where there is no room for them.
    fn send<V: Log>(&mut self, rt: &V, segment: Segment<Profile>) -> bool {
        let Some(writer) = &mut self.writer else {
            return false;
        };
        let (from, first) = (self.next, segment.first);
        let end = first.saturating_add(segment.entries.len());
        if writer.entries.push(segment).is_err() {
            return false;
        }
        self.next = end;
        self.slow = false;
        if first > from {
            let last = first - 1;
            warn!(rt; target: "hcproxy", "entries {from} to {last} of the journal aren't written");
        }
        true
    }

    /// Notes that numbers are nearly spent, once.
    fn note_numbers<V: Log>(&mut self, rt: &V, it: &Loop<Profile, Client, Devices>) {
        let given = it.given();
        if self.spent || given < NEARLY_SPENT {
            return;
        }
        self.spent = true;
        warn!(rt; target: "hcproxy", "the journal has {given} entries, and ends at {MAX_NUMBERED}");
    }

    /// The loop ends: has all kept that it holds, and waits until it is.
    pub fn end<V: Threads + Wait + Log + Clock>(
        &mut self,
        rt: &V,
        it: Option<&Loop<Profile, Client, Devices>>,
    ) {
        if let Some(it) = it {
            self.keep_rest(rt, it);
        }
        if let Some(Writer { entries, thread }) = self.writer.take() {
            drop(entries);
            thread.join(rt);
        }
    }

    /// Has all kept that is held, and waits a while where there is no room for it on the way.
    fn keep_rest<V: Log + Clock>(&mut self, rt: &V, it: &Loop<Profile, Client, Devices>) {
        let count = it.core().journal().len();
        'each: for _ in 0..TRIES {
            self.keep_new(rt, it);
            if self.writer.is_none() || self.next >= count {
                return;
            }
            thread::sleep(rt, Duration::from_millis(PAUSE));
        }
        let first = self.next;
        warn!(rt; target: "hcproxy", "the journal isn't written from entry {first} on: {SLOW}");
    }
}

/// Copies of some entries from this one on.
fn copies(
    alloc: Global,
    journal: &Journal<Profile>,
    first: usize,
) -> Result<Vec<Entry<Profile>>, AllocError> {
    let mut all = Vec::new(alloc);
    all.try_reserve(journal.len().saturating_sub(first).min(AT_ONCE))?;
    'each: for number in first..first.saturating_add(AT_ONCE) {
        match journal.get(number) {
            Some(entry) => all.push(entry.copy()?)?,
            None => return Ok(all),
        }
    }
    Ok(all)
}

/// Starts the thread that has entries kept.
fn start_writer<
    W: Threads + Wait + Clock + Copy + Drop + Send + Sync + 'static,
    A: Archive<Profile> + Drop + Send + 'static,
>(rt: W, alloc: Global, archive: A) -> Result<Writer, ServeFault> {
    let (entries, from) = RingBuffer::new(alloc, WAITING)?;
    match thread::spawn(&rt, move || keep_all(&rt, archive, from)) {
        Ok(thread) => Ok(Writer { entries, thread }),
        Err(_) => Err(ServeFault::Thread),
    }
}

/// Has kept what comes, until the other end is gone and nothing is left.
fn keep_all<W: Wait + Clock, A: Archive<Profile> + Drop>(
    rt: &W,
    archive: A,
    from: Consumer<Segment<Profile>>,
) {
    let mut archive = archive;
    let mut from = from;
    for _ in rt.forever() {
        let is_last = from.is_abandoned();
        match from.pop() {
            Ok(segment) => archive.keep(segment.first, segment.entries.as_slice()),
            Err(_) if is_last => return,
            Err(_) => thread::sleep(rt, Duration::from_millis(PAUSE)),
        }
    }
}
