//! A loop that stands still for long: what came meanwhile is heard before time goes on, so who asked
//! is told what the device answered, though no sign told of it yet.

use crate::fakes::{HELD, Hears, patience, reply_to};
use crate::signs::goes;
use gateway_loop::{Accepted, Gateway, Host, Loop, Moved, Received, Sign, Stream, Told, Wire};
use std::alloc::Global;
use std::cell::Cell;
use transformers::Bank;
use trials_clients::{Nothing, settings};
use uri_map::Peer;

/// How long a client may stand still, in milliseconds: longer than the run.
const IDLE: u64 = 3_600_000;

/// How many turns a run has, a millisecond each.
const TURNS: u32 = 20;

/// Before which turn the loop stands still, and until when: longer than an exchange may take.
const STOPPED: u64 = 10;

const LATER: u64 = 100_000;

const ASKS: &[u8] = b"GET /hc/coap://192.0.2.1/a HTTP/1.1\r\nHost: p\r\n\r\n";

/// How an answer begins.
const GETS: &[u8] = b"HTTP/1.1 200 OK\r\n";

/// What a client did, and what it was told.
#[derive(Drop)]
struct Guest {
    asked: Cell<bool>,
    answered: Cell<bool>,
    wrong: Cell<bool>,
}

/// Its connection.
struct Seat<'a> {
    guest: &'a Guest,
}

impl Drop for Seat<'_> {
    fn drop(self) {
        let Seat { guest: _ } = self;
    }
}

impl Stream for Seat<'_> {
    ghost use Rattle.std.specs.Prelude.{None, true};

    ghost written = { λ s. None };

    ghost gave = { λ s. None };

    ghost over = { λ s. true };

    fn read(&mut self, buffer: &mut [u8]) -> Moved {
        if self.guest.asked.get() || buffer.len() < ASKS.len() {
            return Moved::Later;
        }
        buffer[..ASKS.len()].copy_from_slice(ASKS);
        self.guest.asked.set(true);
        Moved::Bytes(ASKS.len())
    }

    fn write(&mut self, bytes: &[u8]) -> Moved {
        let first = !self.guest.answered.get();
        self.guest.answered.set(true);
        self.guest.wrong.set(!first || !bytes.starts_with(GETS));
        Moved::Bytes(bytes.len())
    }

    fn finish(&mut self) {
        self.guest.wrong.set(true);
    }
}

/// A device that answers at once.
#[derive(Drop)]
struct Device {
    alloc: Global,
    reply: Option<Vec<u8>>,
    from: Option<Peer>,
}

impl Wire for Device {
    ghost use Rattle.std.specs.Prelude.{None, true};

    ghost sent = { λ d. None };

    ghost heard = { λ d. None };

    ghost spent = { λ d. true };

    fn send(&mut self, peer: Peer, bytes: &[u8]) {
        self.reply = reply_to(self.alloc, bytes);
        self.from = Some(peer);
    }

    fn receive(&mut self, buffer: &mut [u8]) -> Received {
        let (Some(bytes), Some(peer)) = (self.reply.take(), self.from.take()) else {
            return Received::Later;
        };
        let count = bytes.len().min(buffer.len());
        buffer[..count].copy_from_slice(&bytes[..count]);
        Received::From(count, peer)
    }
}

/// Who connects the client, gives signs of it alone, and tells what moment it is.
#[derive(Drop)]
struct Door<'a> {
    guest: &'a Guest,
    taken: bool,
    signs: usize,
    moment: u64,
}

impl Hears for Door<'_> {
    fn hear_of(&mut self, _told: &[Told]) {}

    fn stop(&self) {}
}

impl<'a> Host<Seat<'a>> for Door<'a> {
    fn accept(&mut self) -> Accepted<Seat<'a>> {
        if self.taken {
            return Accepted::Later;
        }
        self.taken = true;
        Accepted::Client(Seat { guest: self.guest })
    }

    fn watch(&mut self, _number: u32, _stream: &mut Seat<'a>) -> bool {
        true
    }

    fn rename(&mut self, _number: u32, _stream: &mut Seat<'a>) -> bool {
        true
    }

    fn wait(&mut self, _most: Option<u64>) -> bool {
        self.signs = 0;
        self.moment = self.moment.saturating_add(1);
        true
    }

    fn sign(&mut self) -> Option<Sign> {
        let place = self.signs;
        self.signs = place.saturating_add(1);
        (place == 0).then_some(Sign::Ready(0))
    }

    fn moment(&mut self) -> Option<u64> {
        let late = self.moment >= STOPPED;
        Some(if late {
            LATER.saturating_add(self.moment)
        } else {
            self.moment
        })
    }

    fn word(&mut self) -> u64 {
        0
    }
}

/// Lets a loop serve the client. False where it stopped.
fn is_run<'a>(alloc: Global, host: &mut Door<'a>) -> bool {
    let Ok(settings) = settings(alloc) else {
        return false;
    };
    let bank: Bank<Nothing> = Bank::new(Vec::new(alloc));
    let device = Device {
        alloc,
        reply: None,
        from: None,
    };
    let Ok(gateway) = Gateway::new(alloc, settings, device) else {
        return false;
    };
    match Loop::new(gateway, patience(IDLE), HELD) {
        Ok(it) => goes(&bank, it, host, TURNS),
        Err(_) => false,
    }
}

/// Whether a client is told what its device answered before the loop stood still.
fn is_heard(alloc: Global) -> bool {
    let guest = Guest {
        asked: Cell::new(false),
        answered: Cell::new(false),
        wrong: Cell::new(false),
    };
    let mut host = Door {
        guest: &guest,
        taken: false,
        signs: 0,
        moment: 0,
    };
    is_run(alloc, &mut host) && guest.answered.get() && !guest.wrong.get()
}

#[test]
fn what_came_is_heard_before_time_goes_on(rt: HostRuntime) {
    assert!(rt; is_heard(rt.alloc()));
}
