//! Numbers by chance, the same at each run.

use std::cell::Cell;

/// Where chance stands (Marsaglia's xorshift).
#[derive(Drop)]
pub struct Dice {
    state: Cell<u64>,
}

impl Dice {
    pub fn new(seed: u64) -> Dice {
        Dice {
            state: Cell::new(seed | 1),
        }
    }

    /// 64 bits.
    pub fn bits(&self) -> u64 {
        let mut x = self.state.get();
        x ^= x << 13;
        x ^= x >> 7;
        x ^= x << 17;
        self.state.set(x);
        x
    }

    /// A number below the bound, or 0.
    pub fn below(&self, bound: usize) -> usize {
        let bound = bound as u64;
        if bound == 0 {
            return 0;
        }
        (self.bits() % bound) as usize
    }
}
