//! A connection that takes leave (RFC 9112 section 9.6): how long its client has, and that nothing is
//! waited for once that has left.

use crate::chance::Dice;
use crate::fakes::{Devices, HELD, Hears, patience};
use crate::signs::goes;
use gateway_loop::{Accepted, Gateway, Host, Loop, Moved, Sign, Stream, Told};
use std::alloc::Global;
use std::cell::Cell;
use transformers::Bank;
use trials_clients::{Nothing, settings};

/// How long a client may stand still, in milliseconds.
const IDLE: u64 = 3000;

/// How many turns a run has, a millisecond each.
const TURNS: u32 = 2500;

/// How long a client has for its last answer, in milliseconds.
const FAREWELL: u64 = 1000;

const ASKS: &[u8] = b"GET /hc/coap://192.0.2.1/a HTTP/1.1\r\nHost: p\r\nConnection: close\r\n\r\n";

/// A client that asks for the last time, and takes its answer; then it stays, or ends its side.
#[derive(Drop)]
pub struct Guest {
    stays: bool,
    asked: Cell<bool>,
    /// It was told that nothing more comes.
    told: Cell<bool>,
    /// Its connection is gone.
    gone: Cell<bool>,
}

impl Guest {
    fn new(stays: bool) -> Guest {
        Guest {
            stays,
            asked: Cell::new(false),
            told: Cell::new(false),
            gone: Cell::new(false),
        }
    }
}

/// Its connection.
pub struct Seat<'a> {
    guest: &'a Guest,
}

impl Drop for Seat<'_> {
    fn drop(self) {
        let Seat { guest } = self;
        guest.gone.set(true);
    }
}

impl Stream for Seat<'_> {
    ghost use Rattle.std.specs.Prelude.{None, true};

    ghost written = { λ s. None };

    ghost gave = { λ s. None };

    ghost over = { λ s. true };

    fn read(&mut self, buffer: &mut [u8]) -> Moved {
        let guest = self.guest;
        if guest.asked.get() {
            let done = guest.told.get() && !guest.stays;
            return if done { Moved::End } else { Moved::Later };
        }
        if buffer.len() < ASKS.len() {
            return Moved::Later;
        }
        buffer[..ASKS.len()].copy_from_slice(ASKS);
        guest.asked.set(true);
        Moved::Bytes(ASKS.len())
    }

    fn write(&mut self, bytes: &[u8]) -> Moved {
        Moved::Bytes(bytes.len())
    }

    fn finish(&mut self) {
        self.guest.told.set(true);
    }
}

/// Who connects the client and gives every sign of it in each turn, and looks when it is told that
/// nothing more comes, when its connection is gone, and whether the loop waits for a moment then.
#[derive(Drop)]
pub struct Door<'a> {
    guest: &'a Guest,
    taken: bool,
    signs: usize,
    moment: u64,
    told: Option<u64>,
    gone: Option<u64>,
    waits: bool,
}

impl<'a> Door<'a> {
    fn new(guest: &'a Guest) -> Door<'a> {
        Door {
            guest,
            taken: false,
            signs: 0,
            moment: 0,
            told: None,
            gone: None,
            waits: false,
        }
    }

    /// For how many milliseconds the client had its last answer before its connection was gone.
    fn leave(&self) -> Option<u64> {
        Some(self.gone?.saturating_sub(self.told?))
    }

    /// Looks at the client after a turn, before which the loop waits so long at most.
    fn look(&mut self, most: Option<u64>) {
        if self.told.is_none() && self.guest.told.get() {
            self.told = Some(self.moment);
        }
        if self.guest.gone.get() {
            self.waits = self.waits || most.is_some();
            if self.gone.is_none() {
                self.gone = Some(self.moment);
            }
        }
    }
}

impl Hears for Door<'_> {
    fn hear_of(&mut self, _told: &[Told]) {}

    fn stop(&self) {}
}

impl<'a> Host<Seat<'a>> for Door<'a> {
    fn accept(&mut self) -> Accepted<Seat<'a>> {
        if self.taken {
            return Accepted::Later;
        }
        self.taken = true;
        Accepted::Client(Seat { guest: self.guest })
    }

    fn watch(&mut self, _number: u32, _stream: &mut Seat<'a>) -> bool {
        true
    }

    fn rename(&mut self, _number: u32, _stream: &mut Seat<'a>) -> bool {
        true
    }

    fn wait(&mut self, most: Option<u64>) -> bool {
        self.look(most);
        self.signs = 0;
        self.moment = self.moment.saturating_add(1);
        true
    }

    fn sign(&mut self) -> Option<Sign> {
        let place = self.signs;
        self.signs = place.saturating_add(1);
        match place {
            0 => Some(Sign::Wire),
            1 => Some(Sign::Ready(0)),
            _ => None,
        }
    }

    fn moment(&mut self) -> Option<u64> {
        Some(self.moment)
    }

    fn word(&mut self) -> u64 {
        0
    }
}

/// Lets a loop serve the client. False where it stopped.
fn is_run<'a>(alloc: Global, dice: &'a Dice, host: &mut Door<'a>) -> bool {
    let Ok(settings) = settings(alloc) else {
        return false;
    };
    let bank: Bank<Nothing> = Bank::new(Vec::new(alloc));
    let Ok(gateway) = Gateway::new(alloc, settings, Devices::new(alloc, dice)) else {
        return false;
    };
    match Loop::new(gateway, patience(IDLE), HELD) {
        Ok(it) => goes(&bank, it, host, TURNS),
        Err(_) => false,
    }
}

/// Whether a client that ends its side is gone in the turn that takes leave of it, and no moment is
/// waited for after that.
fn is_forgotten(alloc: Global) -> bool {
    let (dice, guest) = (Dice::new(1), Guest::new(false));
    let mut host = Door::new(&guest);
    is_run(alloc, &dice, &mut host) && host.leave() == Some(0) && !host.waits
}

/// Whether a client that stays has its time, and no more.
fn is_borne_with(alloc: Global) -> bool {
    let (dice, guest) = (Dice::new(1), Guest::new(true));
    let mut host = Door::new(&guest);
    is_run(alloc, &dice, &mut host) && host.leave() == Some(FAREWELL)
}

#[test]
fn nothing_is_waited_for_once_a_client_left(rt: HostRuntime) {
    assert!(rt; is_forgotten(rt.alloc()));
}

#[test]
fn a_client_has_a_second_for_its_last_answer(rt: HostRuntime) {
    assert!(rt; is_borne_with(rt.alloc()));
}
