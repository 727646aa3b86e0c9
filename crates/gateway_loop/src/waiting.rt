//! Who waits, by numbers: who came first is the first.

ghost use Rattle.std.specs.Prelude.{◌≡◌, ◌++◌, ◌∷◌, [], None, length, OnErr, OnOk};
ghost use Rattle.gateway_loop.specs.Places.{IsFirst, IsNext};

use std::alloc::{AllocError, Global};
use std::collections::VecDeque;
use std::marker::Model;

/// Numbers of connections, the first of those that wait first.
#[derive(Drop)]
pub struct Waiting {
    all: VecDeque<u32>,
}

impl Model for Waiting {
    ghost use Rattle.std.specs.Prelude.{List, ℕ};

    ghost Value = { List ℕ };

    ghost view = { λ w. w.all.items };
}

impl Waiting {
    /// Nobody waits.
    pub fn new(alloc: Global) -> Waiting
        ensures { result ≡ [] }
    {
        Waiting {
            all: VecDeque::new(alloc),
        }
    }

    /// One more waits, behind all others.
    pub fn push(&mut self, number: u32) -> Result<(), AllocError>
        ensures ok { OnOk result (self.new ≡ self.old ++ number ∷ []) }
        ensures unchanged { OnErr result (self.new ≡ self.old) }
    {
        self.all.push_back(number)?;
        Ok(())
    }

    /// How many wait.
    pub fn len(&self) -> usize
        ensures { result ≡ length self.now }
    {
        self.all.len()
    }

    /// Who waits longest.
    pub fn first(&self) -> Option<u32>
        ensures { IsFirst result self.now }
    {
        Some(*self.all.front()?)
    }

    /// Who waits longest, and waits no more.
    pub fn next(&mut self) -> Option<u32>
        ensures { IsNext result self.old self.new }
    {
        self.all.pop_front()
    }
}
