//! What was answered since the gateway started.

ghost use Rattle.std.specs.Prelude.{◌≤◌, ◌<◌, length};

use crate::given::Given;
use ask_model::Cause;
use http_edge::Incoming;
use journal_book::Grounds;
use status_page::Classes;
use std::alloc::{AllocError, Global};
use uri_map::{Peer, is_same_peer};

/// For how many devices answers are counted. A further device takes the place of the one that was
/// last answered for longest ago.
pub const MOST_DEVICES: usize = 256;

/// How many bytes of a request's method and target are kept.
const LONGEST_REQUEST: usize = 160;

/// The causes of answers of the gateway's own.
pub const CAUSES: [Cause; 8] = [
    Cause::BadHttp,
    Cause::NoMap,
    Cause::Method,
    Cause::Media,
    Cause::Busy,
    Cause::Timeout,
    Cause::Reset,
    Cause::NotUnderstood,
];

/// The beginning of a request.
#[derive(Clone, Copy)]
pub struct Excerpt {
    bytes: [u8; LONGEST_REQUEST],
    count: usize,
    ghost within: { count ≤ 160 },
}

/// Writes as much of the text as there is room for, from `at` on, and gives where it ends.
fn put(bytes: &mut [u8], at: usize, text: &[u8]) -> usize
    requires { at ≤ length bytes.old }
    ensures { result ≤ length bytes.new }
{
    let count = text.len().min(bytes.len() - at);
    bytes[at..at + count].copy_from_slice(&text[..count]);
    at + count
}

impl Excerpt {
    /// The beginning of the method and the target, with a space between them.
    fn of(method: &[u8], target: &[u8]) -> Excerpt {
        let mut bytes = [0u8; LONGEST_REQUEST];
        let count = put(&mut bytes, 0, method);
        let count = put(&mut bytes, count, b" ");
        let count = put(&mut bytes, count, target);
        Excerpt { bytes, count }
    }

    /// Its bytes.
    pub fn as_slice(&self) -> &[u8] {
        &self.bytes[..self.count]
    }
}

/// The answers to requests for a device.
#[derive(Clone, Copy)]
pub struct Row {
    pub peer: Peer,
    pub answers: u64,
    /// how many of them say that it did not reply in time
    pub timeouts: u64,
    /// the status of the last one
    pub status: u16,
    /// when that was given, in milliseconds of the monotonic clock
    pub at: u64,
    /// the request that it answers
    pub request: Excerpt,
    /// the entry of that request, and how many journals were turned over before the one it is in
    pub ask: u32,
    pub turned: u64,
}

/// The answers so far.
#[derive(Drop)]
pub struct Tally {
    pub classes: Classes,
    /// how many gave a stored response
    pub kept: u64,
    /// how many were the gateway's own, in the order of `CAUSES`
    pub causes: [u64; 8],
    pub rows: Vec<Row>,
}

/// Counts a status in its class.
fn count_class(classes: &mut Classes, status: u16) {
    let class = match status {
        0..=199 => &mut classes.informational,
        200..=299 => &mut classes.success,
        300..=399 => &mut classes.redirection,
        400..=499 => &mut classes.client_error,
        _ => &mut classes.server_error,
    };
    *class = class.saturating_add(1);
}

/// The place of a cause among them.
fn place_of(cause: Cause) -> usize
    ensures { result < 8 }
{
    match cause {
        Cause::BadHttp => 0,
        Cause::NoMap => 1,
        Cause::Method => 2,
        Cause::Media => 3,
        Cause::Busy => 4,
        Cause::Timeout => 5,
        Cause::Reset => 6,
        Cause::NotUnderstood => 7,
    }
}

/// The cause of an answer of the gateway's own. If a device did reply, the cause is that its
/// response cannot be passed on.
fn cause_given(given: &Given<'_>) -> Option<Cause> {
    match given.grounds {
        Grounds::Fault(cause, _) => Some(*cause),
        Grounds::Live(_) | Grounds::Kept(_) => given.cause.map(|_| Cause::NotUnderstood),
    }
}

/// Puts a row in the place of the one that was last answered for longest ago.
fn put_for_oldest(rows: &mut [Row], new: Row) {
    let mut least = u64::MAX;
    'each: for row in rows.iter() {
        least = least.min(row.at);
    }
    'replace: for row in rows.iter_mut() {
        if row.at == least {
            *row = new;
            return;
        }
    }
}

impl Row {
    /// One more answer is given.
    fn add(&mut self, new: Row) {
        let (answers, timeouts) = (self.answers, self.timeouts);
        *self = new;
        self.answers = answers.saturating_add(new.answers);
        self.timeouts = timeouts.saturating_add(new.timeouts);
    }
}

impl Tally {
    /// Nothing was answered yet.
    pub fn new(alloc: Global) -> Result<Tally, AllocError> {
        Ok(Tally {
            classes: Classes::default(),
            kept: 0,
            causes: [0; 8],
            rows: Vec::with_capacity(alloc, MOST_DEVICES)?,
        })
    }

    /// Counts the answer to the request of entry `ask`, given at the moment `now` (in milliseconds)
    /// after `turned` journals were turned over.
    pub fn count(&mut self, given: &Given<'_>, ask: u32, now: u64, turned: u64) {
        count_class(&mut self.classes, given.status);
        let cause = cause_given(given);
        match (cause, given.grounds) {
            (Some(cause), _) => {
                let place = place_of(cause);
                self.causes[place] = self.causes[place].saturating_add(1);
            }
            (None, Grounds::Kept(_)) => self.kept = self.kept.saturating_add(1),
            (None, _) => {}
        }
        let (Some(peer), Incoming::Request(request)) = (given.peer, given.came) else {
            return;
        };
        self.add(Row {
            peer,
            answers: 1,
            timeouts: u64::from(cause == Some(Cause::Timeout)),
            status: given.status,
            at: now,
            request: Excerpt::of(&request.method, &request.target),
            ask,
            turned,
        });
    }

    /// Counts an answer to a request for a device.
    fn add(&mut self, new: Row) {
        'each: for row in self.rows.iter_mut() {
            if is_same_peer(&row.peer, &new.peer) {
                row.add(new);
                return;
            }
        }
        if self.rows.len() < MOST_DEVICES {
            let _ = self.rows.push(new);
        } else {
            put_for_oldest(&mut self.rows, new);
        }
    }

    /// A copy of what was counted so far. Its rows are put into this list, whose room is used.
    pub fn copy(&self, rows: Vec<Row>) -> Result<Tally, AllocError> {
        let mut rows = rows;
        rows.clear();
        rows.extend_from_slice(&self.rows)?;
        Ok(Tally {
            classes: self.classes,
            kept: self.kept,
            causes: self.causes,
            rows,
        })
    }
}
