//! The system's clock.

ghost use Rattle.std.specs.Prelude.{◌≡◌, ◌<◌, ◌≤◌};

use gateway_desk::Clock as DeskClock;
use random_words::Words;
use std::random::RandomSource;
use std::rt::Clock;
use std::time::Instant;

/// The system's clock and its random words.
#[derive(Drop)]
pub struct SystemClock<W: Clock + RandomSource + Drop> {
    rt: W,
    begin: Instant,
    words: Words,
    /// the moment that was read last
    last: u64,
    /// the word that was given last
    word: u64,
    faults: u64,
}

impl<W: Clock + RandomSource + Drop> SystemClock<W> {
    /// A clock that counts from this moment.
    pub fn new(rt: W, begin: Instant) -> SystemClock<W> {
        SystemClock {
            rt,
            begin,
            words: Words::new(),
            last: 0,
            word: 0,
            faults: 0,
        }
    }
}

impl<W: Clock + RandomSource + Drop> DeskClock for SystemClock<W> {
    ghost count = { λ c. c.faults };

    ghost time = { λ c. c.last };

    ghost drawn = { λ c. c.word };

    fn faults(&self) -> u64 {
        self.faults
    }

    fn moment(&mut self) -> u64 {
        match self.begin.elapsed(&self.rt) {
            Ok(gone) => self.last = u64::try_from(gone.as_millis()).unwrap_or(u64::MAX),
            Err(_) => self.faults = self.faults.saturating_add(1),
        }
        self.last
    }

    fn word(&mut self) -> u64 {
        match self.words.next(&self.rt) {
            Some(word) => self.word = word,
            None => {
                self.faults = self.faults.saturating_add(1);
                self.word = 0;
            }
        }
        self.word
    }
}
