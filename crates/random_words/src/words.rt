//! Random words, read many at once.

ghost use Rattle.std.specs.Prelude.{ℕ, List, [], ◌≡◌, ◌≤◌, length, drop, IsTrue, IsFalse};
ghost use Rattle.random_words.specs.Words.{Given, Next};

use std::marker::Model;
use std::random::RandomSource;

/// How many bytes the system gives at once.
const BYTES: usize = 256;

/// Words that weren't given yet.
#[derive(Drop)]
pub struct Words {
    bytes: [u8; BYTES],
    given: usize,
}

/// A contract sees the bytes that weren't given yet.
impl Model for Words {
    ghost Value = { List ℕ };

    ghost view = { λ w. drop w.given w.bytes };

    ghost invariant = { λ w. w.given ≤ 256 };
}

impl Words {
    /// None that wasn't given.
    pub fn new() -> Words
        ensures { result ≡ [] }
    {
        Words {
            bytes: [0u8; BYTES],
            given: BYTES,
        }
    }

    /// Has the system fill in all bytes anew. False where it gives none: then nothing is left.
    fn fill<W: RandomSource>(&mut self, rt: &W) -> bool
        ensures filled { IsTrue result → length self.new ≡ 256 }
        ensures none { IsFalse result → self.new ≡ [] }
    {
        self.given = BYTES;
        if rt.fill_bytes(&mut self.bytes).is_err() {
            return false;
        }
        self.given = 0;
        true
    }

    /// The next word of what is left.
    fn give(&mut self) -> u64
        requires { 8 ≤ length self.old }
        ensures { Given self.old self.new result }
    {
        let mut word = [0u8; 8];
        word.copy_from_slice(&self.bytes[self.given..self.given + 8]);
        self.given += 8;
        u64::from_le_bytes(word)
    }

    /// The next 64 random bits, each of which is given once; none where the system gives none.
    pub fn next<W: RandomSource>(&mut self, rt: &W) -> Option<u64>
        ensures { Next self.old self.new result }
    {
        if BYTES - self.given >= 8 {
            return Some(self.give());
        }
        if !self.fill(rt) {
            return None;
        }
        Some(self.give())
    }
}
