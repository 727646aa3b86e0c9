//! Clients that ask the same again and again, each on one connection, and who gives signs of them.

use crate::chance::Dice;
use gateway_loop::{Accepted, Host, Moved, Sign, Stream};
use std::cell::Cell;

/// What a client sends time after time, and what it is to get each time.
#[derive(Drop)]
pub struct Caller {
    asks: &'static [u8],
    gets: &'static [u8],
    /// How often it asks.
    most: usize,
    /// Under which number it is watched, and how often that changed.
    number: Cell<u32>,
    renamed: Cell<usize>,
    /// How often it asked, and what of it is sent besides.
    asked: Cell<usize>,
    sent: Cell<usize>,
    /// How often it was answered, and what it got besides; and whether a byte was wrong.
    answered: Cell<usize>,
    got: Cell<usize>,
    wrong: Cell<bool>,
    /// It ended, and its connection is gone.
    ended: Cell<bool>,
    gone: Cell<bool>,
}

impl Caller {
    pub fn new(asks: &'static [u8], gets: &'static [u8], most: usize) -> Caller {
        Caller {
            asks,
            gets,
            most,
            number: Cell::new(0),
            renamed: Cell::new(0),
            asked: Cell::new(0),
            sent: Cell::new(0),
            answered: Cell::new(0),
            got: Cell::new(0),
            wrong: Cell::new(false),
            ended: Cell::new(false),
            gone: Cell::new(false),
        }
    }

    /// Its connection is gone.
    fn is_gone(&self) -> bool {
        self.gone.get()
    }

    /// It was answered as often as it asked.
    fn is_answered(&self) -> bool {
        self.answered.get() == self.asked.get()
    }

    /// It was answered as often as it asks, and got nothing else; its connection stayed the same, and
    /// is gone since it ended.
    pub fn is_served(&self) -> bool {
        !self.wrong.get()
            && self.answered.get() == self.most
            && self.got.get() == 0
            && self.renamed.get() == 0
            && self.ended.get()
            && self.gone.get()
    }
}

/// The connection of a client, which takes and gives a few bytes at a time, or nothing.
pub struct Line<'a> {
    caller: &'a Caller,
    dice: &'a Dice,
}

impl Drop for Line<'_> {
    fn drop(self) {
        let Line { caller, dice: _ } = self;
        caller.gone.set(true);
    }
}

impl Stream for Line<'_> {
    ghost use Rattle.std.specs.Prelude.{None, true};

    ghost written = { λ l. None };

    ghost gave = { λ l. None };

    ghost over = { λ l. true };

    fn read(&mut self, buffer: &mut [u8]) -> Moved {
        let caller = self.caller;
        if caller.sent.get() == 0 && caller.asked.get() >= caller.most {
            let done = caller.is_answered();
            caller.ended.set(done);
            return if done { Moved::End } else { Moved::Later };
        }
        let rest = caller.asks.get(caller.sent.get()..).unwrap_or(&[]);
        let count = self.dice.below(rest.len() + 1).min(buffer.len());
        if count == 0 || count > rest.len() {
            return Moved::Later;
        }
        buffer[..count].copy_from_slice(&rest[..count]);
        if count == rest.len() {
            caller.sent.set(0);
            caller.asked.set(caller.asked.get().saturating_add(1));
        } else {
            caller.sent.set(caller.sent.get().saturating_add(count));
        }
        Moved::Bytes(count)
    }

    fn write(&mut self, bytes: &[u8]) -> Moved {
        let caller = self.caller;
        let rest = caller.gets.get(caller.got.get()..).unwrap_or(&[]);
        let count = self.dice.below(bytes.len() + 1).min(rest.len());
        if count == 0 || count > bytes.len() {
            return Moved::Later;
        }
        if rest.len() < count || rest[..count] != bytes[..count] {
            caller.wrong.set(true);
        }
        if count >= rest.len() {
            caller.got.set(0);
            caller.answered.set(caller.answered.get().saturating_add(1));
        } else {
            caller.got.set(caller.got.get().saturating_add(count));
        }
        Moved::Bytes(count)
    }

    fn finish(&mut self) {
        self.caller.wrong.set(true);
    }
}

/// Who connects the callers, and gives signs of the wire and of each of them in every turn.
#[derive(Drop)]
pub struct Board<'a> {
    dice: &'a Dice,
    callers: &'a [Caller],
    taken: usize,
    signs: usize,
    moment: u64,
}

impl<'a> Board<'a> {
    pub fn new(dice: &'a Dice, callers: &'a [Caller]) -> Board<'a> {
        Board {
            dice,
            callers,
            taken: 0,
            signs: 0,
            moment: 0,
        }
    }

    /// Whether the connections of all callers are gone.
    pub fn is_left(&self) -> bool {
        self.callers.iter().all(Caller::is_gone)
    }
}

impl<'a> Host<Line<'a>> for Board<'a> {
    fn accept(&mut self) -> Accepted<Line<'a>> {
        match self.callers.get(self.taken) {
            Some(caller) => {
                self.taken = self.taken.saturating_add(1);
                let dice = self.dice;
                Accepted::Client(Line { caller, dice })
            }
            None => Accepted::Later,
        }
    }

    fn watch(&mut self, number: u32, stream: &mut Line<'a>) -> bool {
        stream.caller.number.set(number);
        true
    }

    fn rename(&mut self, number: u32, stream: &mut Line<'a>) -> bool {
        let caller = stream.caller;
        caller.number.set(number);
        caller.renamed.set(caller.renamed.get().saturating_add(1));
        true
    }

    fn wait(&mut self, _most: Option<u64>) -> bool {
        self.signs = 0;
        self.moment = self.moment.saturating_add(1);
        true
    }

    fn sign(&mut self) -> Option<Sign> {
        let place = self.signs;
        self.signs = place.saturating_add(1);
        if place == 0 {
            return Some(Sign::Wire);
        }
        let caller = self.callers.get(place - 1)?;
        Some(Sign::Ready(caller.number.get()))
    }

    fn moment(&mut self) -> Option<u64> {
        Some(self.moment)
    }

    fn word(&mut self) -> u64 {
        self.dice.bits()
    }
}
