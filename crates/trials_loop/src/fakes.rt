//! Sockets in memory that give any signs in any order: connections, a wire to devices, and who
//! gives the signs.

use crate::chance::Dice;
use gateway_loop::{Accepted, Held, Host, Moved, Patience, Received, Sign, Stream, Told, Wire};
use std::alloc::Global;
use std::cell::Cell;
use std::collections::VecDeque;
use uri_map::Peer;

/// How much of its history a loop holds.
pub const HELD: Held = Held {
    entries: 32_768,
    bytes: 67_108_864,
};

/// Within which time, in milliseconds, a head has to be whole, and a client to go on.
pub fn patience(idle: u64) -> Patience {
    Patience {
        idle,
        head: idle,
        connections: 4096,
    }
}

/// What a client sends, and what it is to get.
#[derive(Drop)]
pub struct Talk {
    pub sends: &'static [u8],
    pub gets: &'static [u8],
    /// The proxy closes after that, and the client stays until it is let go; else the client ends.
    pub closes: bool,
    /// How many bytes it got, and whether one was wrong.
    pub count: Cell<usize>,
    pub wrong: Cell<bool>,
    /// It was told that no more comes.
    pub finished: Cell<bool>,
    /// Its connection is gone.
    pub gone: Cell<bool>,
    /// It was gone while the loop went on.
    pub let_go: Cell<bool>,
    /// The loop goes on no more.
    over: Cell<bool>,
}

impl Talk {
    pub fn new(sends: &'static [u8], gets: &'static [u8], closes: bool) -> Talk {
        Talk {
            sends,
            gets,
            closes,
            count: Cell::new(0),
            wrong: Cell::new(false),
            finished: Cell::new(false),
            gone: Cell::new(false),
            let_go: Cell::new(false),
            over: Cell::new(false),
        }
    }

    /// The loop goes on no more.
    pub fn stop(&self) {
        self.over.set(true);
    }

    /// It got all, and nothing else; was told so where the proxy closes; and is gone.
    pub fn is_served(&self) -> bool {
        !self.wrong.get()
            && self.count.get() == self.gets.len()
            && self.finished.get() == self.closes
            && self.gone.get()
    }
}

/// The connection of a client, which takes and gives a few bytes at a time, or nothing.
pub struct Tape<'a> {
    talk: &'a Talk,
    dice: &'a Dice,
    sent: usize,
}

impl Drop for Tape<'_> {
    fn drop(self) {
        let Tape {
            talk,
            dice: _,
            sent: _,
        } = self;
        talk.gone.set(true);
        talk.let_go.set(!talk.over.get());
    }
}

impl<'a> Tape<'a> {
    pub fn new(talk: &'a Talk, dice: &'a Dice) -> Tape<'a> {
        Tape {
            talk,
            dice,
            sent: 0,
        }
    }
}

impl Stream for Tape<'_> {
    ghost use Rattle.std.specs.Prelude.{None, true};

    ghost written = { λ t. None };

    ghost gave = { λ t. None };

    ghost over = { λ t. true };

    fn read(&mut self, buffer: &mut [u8]) -> Moved {
        let rest = self.talk.sends.get(self.sent..).unwrap_or(&[]);
        if rest.is_empty() {
            let done = !self.talk.closes && self.talk.count.get() >= self.talk.gets.len();
            return if done { Moved::End } else { Moved::Later };
        }
        let count = self.dice.below(rest.len() + 1).min(buffer.len());
        if count == 0 || count > rest.len() {
            return Moved::Later;
        }
        buffer[..count].copy_from_slice(&rest[..count]);
        self.sent = self.sent.saturating_add(count);
        Moved::Bytes(count)
    }

    fn write(&mut self, bytes: &[u8]) -> Moved {
        let count = self.dice.below(bytes.len().min(64) + 1);
        if count == 0 || count > bytes.len() {
            return Moved::Later;
        }
        let at = self.talk.count.get();
        let right = self.talk.gets.get(at..).unwrap_or(&[]);
        if self.talk.finished.get() || count > right.len() || right[..count] != bytes[..count] {
            self.talk.wrong.set(true);
        }
        self.talk.count.set(at.saturating_add(count));
        Moved::Bytes(count)
    }

    fn finish(&mut self) {
        self.talk.finished.set(true);
    }
}

/// A datagram on its way to the proxy.
#[derive(Drop)]
struct Letter {
    from: Peer,
    bytes: Vec<u8>,
}

/// Content-Format 0 and Max-Age 0 (RFC 7252 section 5.10).
const PLAIN: [u8; 2] = [0xc0, 0x20];

/// The same after Observe 1 (RFC 7641 section 2).
const OBSERVED: [u8; 4] = [0x61, 1, 0x60, 0x20];

/// Devices that answer a GET with the last letter of its path, some time later and in any order; of
/// what ends in `z` they say nothing, and of what ends in `w` they take who asks to observe it. Their
/// replies aren't stored, so that each says the same of its age.
#[derive(Drop)]
pub struct Devices<'a> {
    alloc: Global,
    dice: &'a Dice,
    mail: VecDeque<Letter>,
}

impl<'a> Devices<'a> {
    pub fn new(alloc: Global, dice: &'a Dice) -> Devices<'a> {
        Devices {
            alloc,
            dice,
            mail: VecDeque::new(alloc),
        }
    }
}

/// The reply to a CON with a token of 8 bytes: an ACK with 2.05 and Max-Age 0 (RFC 7252 section
/// 5.2.1).
pub fn reply_to(alloc: Global, request: &[u8]) -> Option<Vec<u8>> {
    let [0x48, 1, front @ ..] = request else {
        return None;
    };
    let last = *request.last()?;
    if last == b'z' {
        return None;
    }
    let mut bytes = Vec::new(alloc);
    bytes.extend_from_slice(&[0x68, 0x45]).ok()?;
    bytes.extend_from_slice(front.get(..10)?).ok()?;
    if last == b'w' {
        bytes.extend_from_slice(&OBSERVED).ok()?;
    } else {
        bytes.extend_from_slice(&PLAIN).ok()?;
    }
    bytes.extend_from_slice(&[0xff, last]).ok()?;
    Some(bytes)
}

impl Wire for Devices<'_> {
    ghost use Rattle.std.specs.Prelude.{None, true};

    ghost sent = { λ d. None };

    ghost heard = { λ d. None };

    ghost spent = { λ d. true };

    fn send(&mut self, peer: Peer, bytes: &[u8]) {
        if let Some(bytes) = reply_to(self.alloc, bytes) {
            let letter = Letter { from: peer, bytes };
            if self.dice.below(2) == 0 {
                let _ = self.mail.push_back(letter);
            } else {
                let _ = self.mail.push_front(letter);
            }
        }
    }

    fn receive(&mut self, buffer: &mut [u8]) -> Received {
        if self.dice.below(3) == 0 {
            return Received::Later;
        }
        let Some(letter) = self.mail.pop_front() else {
            return Received::Later;
        };
        let count = letter.bytes.len().min(buffer.len());
        buffer[..count].copy_from_slice(&letter.bytes[..count]);
        Received::From(count, letter.from)
    }
}

/// Who gives signs by chance: of sockets that are ready, of others, and of connections that there
/// never were.
#[derive(Drop)]
pub struct Chance<'a> {
    dice: &'a Dice,
    talks: &'a [Talk],
    taken: usize,
    signs: usize,
    moment: u64,
    /// of how many bytes it was told, and whether each told of began with a head
    told: usize,
    heads: bool,
}

impl<'a> Chance<'a> {
    pub fn new(dice: &'a Dice, talks: &'a [Talk]) -> Chance<'a> {
        Chance {
            dice,
            talks,
            taken: 0,
            signs: 0,
            moment: 0,
            told: 0,
            heads: true,
        }
    }

    /// Whether it was told of all bytes that clients got, and each time of a head.
    pub fn is_told_all(&self) -> bool {
        let mut got = 0usize;
        'each: for talk in self.talks {
            got = got.saturating_add(talk.count.get());
        }
        self.heads && self.told == got
    }
}

/// Who hears what the loop tells of.
pub trait Hears {
    /// It is told of what was given out in a turn.
    fn hear_of(&mut self, told: &[Told]);

    /// The loop goes on no more.
    fn stop(&self);
}

impl<'a> Hears for Chance<'a> {
    fn hear_of(&mut self, told: &[Told]) {
        'each: for one in told {
            let head = one.head.as_slice();
            self.told = self.told.saturating_add(one.count);
            self.heads &= head.starts_with(b"HTTP/1.1 200 ") && head.ends_with(b"\r\n\r\n");
        }
    }

    fn stop(&self) {
        for talk in self.talks {
            talk.stop();
        }
    }
}

impl<'a> Host<Tape<'a>> for Chance<'a> {
    fn accept(&mut self) -> Accepted<Tape<'a>> {
        match self.dice.below(4) {
            0 => Accepted::Later,
            1 => Accepted::Refused,
            _ => match self.talks.get(self.taken) {
                Some(talk) => {
                    self.taken = self.taken.saturating_add(1);
                    Accepted::Client(Tape::new(talk, self.dice))
                }
                None => Accepted::Later,
            },
        }
    }

    fn watch(&mut self, _number: u32, _stream: &mut Tape<'a>) -> bool {
        true
    }

    fn rename(&mut self, _number: u32, _stream: &mut Tape<'a>) -> bool {
        true
    }

    fn wait(&mut self, _most: Option<u64>) -> bool {
        self.signs = self.dice.below(8);
        self.moment = self.moment.saturating_add(1);
        true
    }

    fn sign(&mut self) -> Option<Sign> {
        if self.signs == 0 {
            return None;
        }
        self.signs -= 1;
        let number = (self.dice.bits() % 8) as u32;
        Some(match self.dice.below(8) {
            0 => Sign::Clients,
            1 => Sign::Wire,
            2..=4 => Sign::Ended(number),
            _ => Sign::Ready(number),
        })
    }

    fn moment(&mut self) -> Option<u64> {
        Some(self.moment)
    }

    fn word(&mut self) -> u64 {
        self.dice.bits()
    }
}
