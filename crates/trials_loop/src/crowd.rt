//! More clients than a world takes connections, each on one connection that it keeps and on which it
//! asks now and then: each is served, also where others send heads byte by byte.

use crate::chance::Dice;
use crate::fakes::{Devices, HELD, Hears, patience};
use crate::signs::goes;
use gateway_loop::{Accepted, Gateway, Host, Loop, Moved, Sign, Stream, Told};
use std::alloc::Global;
use std::cell::Cell;
use transformers::Bank;
use trials_clients::{Nothing, settings};

/// How many clients there are.
const CLIENTS: usize = 300;

/// How long the head of a request may come, in milliseconds.
const HEAD: u64 = 3000;

/// How many turns a run has, a millisecond each.
const TURNS: u32 = 9000;

/// How often each asks, and after how many milliseconds again.
const TIMES: usize = 3;

const PAUSE: u64 = 1500;

const ASKS: &[u8] = b"GET /hc/coap://192.0.2.1/a HTTP/1.1\r\nHost: p\r\n\r\n";

const GETS: &[u8] =
    b"HTTP/1.1 200 OK\r\nContent-Type: text/plain;charset=utf-8\r\nCache-Control: max-age=0\r\nContent-Length: 1\r\n\r\na";

/// A client that keeps its connection.
#[derive(Drop)]
struct Guest {
    /// It sends heads byte by byte, and never a whole one.
    slow: bool,
    number: Cell<u32>,
    /// When it asks next.
    next: Cell<u64>,
    asked: Cell<usize>,
    answered: Cell<usize>,
    wrong: Cell<bool>,
    gone: Cell<bool>,
}

impl Guest {
    fn new(slow: bool, next: u64) -> Guest {
        Guest {
            slow,
            number: Cell::new(0),
            next: Cell::new(next),
            asked: Cell::new(0),
            answered: Cell::new(0),
            wrong: Cell::new(false),
            gone: Cell::new(false),
        }
    }

    /// It was answered each time, and keeps its connection; or, where it is slow, that was closed.
    fn is_right(&self) -> bool {
        let right = !self.wrong.get() && self.asked.get() == self.answered.get();
        if self.slow {
            right && self.gone.get()
        } else {
            right && self.answered.get() == TIMES && !self.gone.get()
        }
    }
}

/// Its connection.
struct Seat<'a> {
    guest: &'a Guest,
    moment: &'a Cell<u64>,
    over: &'a Cell<bool>,
}

impl Drop for Seat<'_> {
    fn drop(self) {
        let Seat {
            guest,
            moment: _,
            over,
        } = self;
        if !over.get() {
            guest.gone.set(true);
        }
    }
}

impl Stream for Seat<'_> {
    ghost use Rattle.std.specs.Prelude.{None, true};

    ghost written = { λ s. None };

    ghost gave = { λ s. None };

    ghost over = { λ s. true };

    fn read(&mut self, buffer: &mut [u8]) -> Moved {
        let (guest, now) = (self.guest, self.moment.get());
        if guest.next.get() > now || buffer.len() < ASKS.len() {
            return Moved::Later;
        }
        if guest.slow {
            guest.next.set(now.saturating_add(100));
            buffer[0] = b'G';
            return Moved::Bytes(1);
        }
        if guest.asked.get() >= TIMES || guest.asked.get() > guest.answered.get() {
            return Moved::Later;
        }
        guest.asked.set(guest.asked.get().saturating_add(1));
        buffer[..ASKS.len()].copy_from_slice(ASKS);
        Moved::Bytes(ASKS.len())
    }

    fn write(&mut self, bytes: &[u8]) -> Moved {
        let guest = self.guest;
        if bytes != GETS || guest.asked.get() <= guest.answered.get() {
            guest.wrong.set(true);
        }
        guest.answered.set(guest.answered.get().saturating_add(1));
        guest.next.set(self.moment.get().saturating_add(PAUSE));
        Moved::Bytes(bytes.len())
    }

    fn finish(&mut self) {
        self.guest.wrong.set(true);
    }
}

/// Who connects the clients, and gives signs of the wire and of some of them in each turn.
#[derive(Drop)]
struct Door<'a> {
    dice: &'a Dice,
    guests: &'a [Guest],
    moment: &'a Cell<u64>,
    over: &'a Cell<bool>,
    taken: usize,
    signs: usize,
}

impl Hears for Door<'_> {
    fn hear_of(&mut self, _told: &[Told]) {}

    fn stop(&self) {
        self.over.set(true);
    }
}

impl<'a> Host<Seat<'a>> for Door<'a> {
    fn accept(&mut self) -> Accepted<Seat<'a>> {
        match self.guests.get(self.taken) {
            Some(guest) => {
                self.taken = self.taken.saturating_add(1);
                Accepted::Client(Seat {
                    guest,
                    moment: self.moment,
                    over: self.over,
                })
            }
            None => Accepted::Later,
        }
    }

    fn watch(&mut self, number: u32, stream: &mut Seat<'a>) -> bool {
        stream.guest.number.set(number);
        true
    }

    fn rename(&mut self, number: u32, stream: &mut Seat<'a>) -> bool {
        stream.guest.number.set(number);
        true
    }

    fn wait(&mut self, _most: Option<u64>) -> bool {
        self.signs = 0;
        self.moment.set(self.moment.get().saturating_add(1));
        true
    }

    fn sign(&mut self) -> Option<Sign> {
        let place = self.signs;
        self.signs = place.saturating_add(1);
        if place == 0 {
            return Some(Sign::Wire);
        }
        if place > 32 {
            return None;
        }
        let guest = self.guests.get(self.dice.below(self.guests.len()))?;
        Some(Sign::Ready(guest.number.get()))
    }

    fn moment(&mut self) -> Option<u64> {
        Some(self.moment.get())
    }

    fn word(&mut self) -> u64 {
        self.dice.bits()
    }
}

/// Lets a loop serve them. False where it stopped.
fn is_run<'a>(alloc: Global, dice: &'a Dice, host: &mut Door<'a>) -> bool {
    let Ok(settings) = settings(alloc) else {
        return false;
    };
    let bank: Bank<Nothing> = Bank::new(Vec::new(alloc));
    let Ok(gateway) = Gateway::new(alloc, settings, Devices::new(alloc, dice)) else {
        return false;
    };
    match Loop::new(gateway, patience(HEAD), HELD) {
        Ok(it) => goes(&bank, it, host, TURNS),
        Err(_) => false,
    }
}

/// Whether each of them is served, of whom the first so many send heads byte by byte.
fn is_each_served(alloc: Global, slow: usize) -> bool {
    let dice = Dice::new(0x9e37_79b9);
    let mut guests = Vec::new(alloc);
    'each: for place in 0..CLIENTS {
        if guests.push(Guest::new(place < slow, place as u64)).is_err() {
            return false;
        }
    }
    let (moment, over) = (Cell::new(0), Cell::new(false));
    let mut host = Door {
        dice: &dice,
        guests: guests.as_slice(),
        moment: &moment,
        over: &over,
        taken: 0,
        signs: 0,
    };
    is_run(alloc, &dice, &mut host) && guests.iter().all(Guest::is_right)
}

#[test]
fn more_than_a_world_takes_are_served(rt: HostRuntime) {
    assert!(rt; is_each_served(rt.alloc(), 0));
}

#[test]
fn heads_byte_by_byte_keep_nobody_out(rt: HostRuntime) {
    assert!(rt; is_each_served(rt.alloc(), 280));
}
