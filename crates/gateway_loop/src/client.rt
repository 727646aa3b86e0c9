//! The connection of a client.

ghost use Rattle.std.specs.Prelude.{◌≡◌, ◌≢◌, ◌≤◌, ◌<◌, ◌+◌, ◌-◌, ◌++◌, [], true, false, OnOk};
ghost use Rattle.std.specs.Prelude.{drop, length, slice_index, IfSome, None};
ghost use Rattle.gateway_loop.specs.Clients.{kept, unserved, BeginsUnfed, Leaves, Reads, Writes};
ghost use Rattle.gateway_loop.specs.Telling.{head_len};

use crate::host::Host;
use crate::sockets::{Moved, Stream};
use crate::stage::Stage;
use crate::waits::{On, Times, Waits};
use memchr::memchr;
use std::alloc::{AllocError, Global};
use std::marker::Model;
use std::mem;

/// A client's connection: what was given out for it and isn't written yet, and what was read of it
/// and isn't an input yet.
#[derive(Drop)]
pub struct Client<S> {
    stream: S,
    /// What was given out, of which the first `gone` bytes are written.
    out: Vec<u8>,
    gone: usize,
    /// What was read, of which the first `fed` bytes were inputs.
    came: Vec<u8>,
    fed: usize,
    stage: Stage,
    /// A read may give something.
    readable: bool,
    /// The client sends no more, of which no further sign tells.
    ended: bool,
    /// A request was begun that isn't answered yet.
    begun: bool,
    /// For how long it has been so, and for how long its client has stood still.
    times: Times,
    /// At which of all that was given out it was given something last, or began.
    stamp: u64,
    /// It was answered since it has its place.
    had: bool,
    /// It is parked, and waits for a place.
    queued: bool,
}

/// How many bytes of a head are waited for before a request is begun with it.
const MOST_HEAD: usize = 8192;

/// What a client is told that waits with its body (RFC 9110 section 10.1.1): no answer yet.
const GO_ON: &[u8] = b"HTTP/1.1 100";

/// How far a call on a connection went.
#[derive(Clone, Copy, Debug, PartialEq, Eq)]
pub enum Flow {
    /// As far as was wanted.
    On,
    /// Not further now.
    Later,
    /// The connection ended.
    End,
    /// Memory was refused, and what was read is lost.
    Lost,
}

impl<S> Model for Client<S> {
    ghost use Rattle.std.specs.Prelude.{◌≤◌, drop, vec_len};
    ghost use Rattle.gateway_loop.specs.Clients.{ClientValue, is_leaving};

    ghost Value = { ClientValue S };

    ghost view = { λ c. record {
      stream = c.stream;
      left = drop c.gone c.out.items;
      unfed = drop c.fed c.came.items;
      leaving = is_leaving c.stage;
    } };

    ghost invariant = { λ c. (c.gone ≤ vec_len c.out) × (c.fed ≤ vec_len c.came) };
}

impl<S: Stream> Client<S> {
    /// A connection of which nothing was read, and for which nothing was given out.
    pub fn new(alloc: Global, stream: S, stamp: u64) -> Client<S>
        ensures { result ≡ unserved stream }
    {
        Client {
            stream,
            out: Vec::new(alloc),
            gone: 0,
            came: Vec::new(alloc),
            fed: 0,
            stage: Stage::Open,
            readable: true,
            ended: false,
            begun: false,
            times: Times::new(),
            stamp,
            had: false,
            queued: false,
        }
    }

    /// How far it is.
    pub fn stage(&self) -> Stage {
        self.stage
    }

    /// There was a sign: a read may give something; and its client may have ended.
    pub fn wake(&mut self, ended: bool)
        ensures { self.new ≡ self.old }
    {
        self.readable = true;
        self.ended = self.ended || ended;
    }

    /// Looks at it, at this moment.
    pub fn look(&mut self, moment: u64)
        ensures { self.new ≡ self.old }
    {
        let part = self.has_part();
        self.times.look(moment, part);
    }

    /// Whether the head of a request has begun, and isn't whole.
    fn has_part(&self) -> bool {
        self.fed < self.came.len() && !self.begun && !self.has_head()
    }

    /// Whether what was read and isn't an input yet has a whole head, or so many bytes that no more
    /// of one are waited for.
    pub fn has_head(&self) -> bool
        ensures short { result ≡ false → length self.now.unfed < MOST_HEAD }
        ensures none { result ≡ false → head_len false self.now.unfed ≡ length self.now.unfed }
    {
        let rest = &self.came[self.fed..];
        rest.len() >= MOST_HEAD || head_end(rest).is_some()
    }

    /// When it was given something last, if it has asked nothing since.
    pub fn idle_since(&self) -> Option<u64> {
        if self.is_written() && !self.has_head() {
            Some(self.stamp)
        } else {
            None
        }
    }

    /// Whether it was answered since it has its place.
    pub fn had_turn(&self) -> bool {
        self.had
    }

    /// It waits for a place from now on. Answers whether it didn't yet.
    pub fn queue_up(&mut self) -> bool
        ensures { self.new ≡ self.old }
    {
        !mem::replace(&mut self.queued, true)
    }

    /// Whether it waits for a place.
    pub fn is_queued(&self) -> bool {
        self.queued
    }

    /// What it waits for. Whether it waits for an answer isn't known here.
    pub fn waits(&self) -> Waits {
        Waits {
            on: if self.gone < self.out.len() {
                On::Reader
            } else if self.begun {
                On::Rest
            } else {
                On::Request
            },
            times: self.times,
            ended: self.ended,
        }
    }

    /// The proxy closes it.
    pub fn close(&mut self)
        ensures { self.new ≡ self.old }
    {
        if let Stage::Open = self.stage {
            self.stage = Stage::Closing;
        }
    }

    /// It takes leave: its client is told that nothing more is written, and what it sends is dropped.
    pub fn leave(&mut self)
        ensures { Leaves S.written S.gave self.old self.new }
    {
        self.stream.finish();
        self.came.clear();
        self.fed = 0;
        self.stage = Stage::Leaving;
    }

    /// Puts bytes after those that aren't written yet.
    pub fn give(&mut self, bytes: Vec<u8>, stamp: u64) -> Result<(), AllocError>
        ensures { OnOk result
            (self.new ≡ record self.old { left = self.old.left ++ bytes.items }) }
    {
        self.begun = bytes.as_slice().starts_with(GO_ON);
        self.had = self.had || !self.begun;
        self.stamp = stamp;
        self.times.change();
        if self.gone < self.out.len() {
            return self.out.extend_from_slice(bytes.as_slice());
        }
        self.out = bytes;
        self.gone = 0;
        Ok(())
    }

    /// Writes of what is left as much as the connection takes.
    pub fn flush(&mut self) -> Flow
        ensures writes { Writes S.written S.gave self.old self.new }
        ensures done { result ≡ Flow.On → self.new.left ≡ [] }
        ensures end { result ≡ Flow.End → S.over self.new.stream ≡ true }
    {
        if self.gone >= self.out.len() {
            return Flow::On;
        }
        match self.stream.write(&self.out[self.gone..]) {
            Moved::Bytes(0) => Flow::End,
            Moved::Bytes(n) => {
                self.gone += n;
                self.times.go_on();
                if self.gone < self.out.len() {
                    Flow::Later
                } else {
                    Flow::On
                }
            }
            Moved::Later => Flow::Later,
            Moved::End => Flow::End,
        }
    }

    /// Whether something was read that isn't an input yet.
    pub fn has_unfed(&self) -> bool {
        self.fed < self.came.len()
    }

    /// Whether it is open, and nothing is left to be written for it.
    pub fn is_written(&self) -> bool
        ensures { result ≡ true → self.now.left ≡ [] }
    {
        if self.gone < self.out.len() {
            return false;
        }
        self.stage == Stage::Open
    }

    /// Its stream is to go on as another connection, once it asks something.
    pub fn park(&mut self)
        ensures { self.new ≡ self.old }
    {
        if let Stage::Open = self.stage {
            self.stage = Stage::Parked;
        }
    }

    /// Its stream goes on as the connection with this number. False where there will be no signs of
    /// it.
    pub fn resume<H: Host<S>>(&mut self, host: &mut H, number: u32) -> bool
        ensures { self.new ≡ self.old }
    {
        if let Stage::Parked = self.stage {
            self.stage = Stage::Open;
        }
        self.readable = true;
        self.begun = false;
        self.had = false;
        self.queued = false;
        self.times.change();
        host.rename(number, &mut self.stream)
    }

    /// Reads once, by way of the buffer, if that may give something.
    pub fn read(&mut self, buffer: &mut [u8]) -> Flow
        requires { 0 < length buffer.old }
        ensures reads { result ≢ Flow.Lost → Reads S.written S.gave self.old self.new }
        ensures end { result ≡ Flow.End → S.over self.new.stream ≡ true }
        ensures length { length buffer.new ≡ length buffer.old }
    {
        if !self.readable {
            return Flow::Later;
        }
        match self.stream.read(buffer) {
            Moved::Bytes(0) => Flow::End,
            Moved::Bytes(n) => {
                // Fewer than fit: of the next there is a sign, but not of an end that came along.
                self.readable = n == buffer.len() || self.ended;
                self.times.go_on();
                match self.keep(&buffer[..n]) {
                    Ok(()) => Flow::On,
                    Err(_) => Flow::Lost,
                }
            }
            Moved::Later => {
                self.readable = false;
                Flow::Later
            }
            Moved::End => Flow::End,
        }
    }

    /// Keeps what came in after what isn't an input yet, or drops it where the connection leaves.
    fn keep(&mut self, bytes: &[u8]) -> Result<(), AllocError>
        ensures { OnOk result (self.new
            ≡ record self.old { unfed = kept self.old.leaving self.old.unfed bytes.now }) }
    {
        match self.stage {
            Stage::Leaving => Ok(()),
            _ => self.came.extend_from_slice(bytes),
        }
    }

    /// What is an input next: the first of the bytes that aren't yet.
    pub fn piece(&self) -> &[u8]
        ensures first { BeginsUnfed result.now self.now }
        ensures some { self.now.unfed ≢ [] → 0 < length result.now }
    {
        let rest = &self.came[self.fed..];
        &rest[..piece_len(rest)]
    }

    /// So many more bytes were an input.
    pub fn feed(&mut self, count: usize)
        requires { count ≤ length self.old.unfed }
        ensures { self.new ≡ record self.old { unfed = drop count self.old.unfed } }
    {
        if !self.begun {
            self.begun = true;
            self.times.change();
        }
        self.fed += count;
        if self.fed >= self.came.len() {
            self.came.clear();
            self.fed = 0;
        }
    }
}

/// How many of the bytes there are up to the end of the first empty line, or in all: so a piece ends
/// at most one head (RFC 9112 section 2.1).
pub(crate) fn piece_len(bytes: &[u8]) -> usize
    ensures fits { result ≤ length bytes.now }
    ensures some { 0 < length bytes.now → 0 < result }
    ensures head { result ≡ head_len false bytes.now }
{
    match head_end(bytes) {
        Some(end) => end,
        None => bytes.len(),
    }
}

/// Where the first empty line ends, if there is one.
fn head_end(bytes: &[u8]) -> Option<usize>
    ensures fits { IfSome result (λ n. n ≤ length bytes.now) }
    ensures some { IfSome result (λ n. 0 < n) }
    ensures head { IfSome result (λ n. n ≡ head_len false bytes.now) }
    ensures none { result ≡ None → head_len false bytes.now ≡ length bytes.now }
{
    let mut at = 0;
    'lines: while let Some(line) = memchr(b'\n', &bytes[at..]) {
        at = behind_crs(bytes, at + line + 1);
        if at < bytes.len() && bytes[at] == b'\n' {
            return Some(at + 1);
        }
    }
    None
}

/// Where what isn't CR begins, from the begin of a line on (RFC 9112 section 2.2).
fn behind_crs(bytes: &[u8], from: usize) -> usize
    requires { from ≤ length bytes.now }
    ensures from { from ≤ result }
    ensures fits { result ≤ length bytes.now }
    ensures empty { head_len true (drop from bytes.now)
        ≡ (result - from) + head_len true (drop result bytes.now) }
    ensures behind { result < length bytes.now → slice_index bytes.now result ≢ 13 }
{
    let mut at = from;
    'crs: while at < bytes.len() && bytes[at] == b'\r' {
        at += 1;
    }
    at
}
