//! Connections that take leave: the client has a while to read its last answer, and what it sends is
//! dropped meanwhile (RFC 9112 section 9.6).

ghost use Rattle.std.specs.Prelude.{◌≡◌, ◌++◌, ◌∷◌, [], true, false, None, IfSome, OnOk};
ghost use Rattle.std.specs.Prelude.{drop, length};
ghost use Rattle.gateway_loop.specs.Farewells.{end_of, BeginsWith, IsOver, NoneIsOver};
ghost use Rattle.gateway_loop.specs.Farewells.{SomeIsOver};

use std::alloc::{AllocError, Global};
use std::collections::VecDeque;
use std::marker::Model;

/// How long the client has, in milliseconds.
pub const LONGEST_FAREWELL: u64 = 1000;

/// How many take leave at once.
pub const MOST_FAREWELLS: usize = 256;

/// One that takes leave, until this moment.
#[derive(Clone, Copy)]
pub struct Farewell {
    pub number: u32,
    pub until: u64,
}

/// All that take leave, the first of them first.
#[derive(Drop)]
pub struct Farewells {
    all: VecDeque<Farewell>,
}

impl Model for Farewells {
    ghost use Rattle.std.specs.Prelude.{List};
    ghost use Rattle.gateway_loop.specs.declared.farewells.Farewell.{Farewell as Leave};

    ghost Value = { List Leave };

    ghost view = { λ f. f.all.items };
}

impl Farewells {
    /// None takes leave.
    pub fn new(alloc: Global) -> Farewells
        ensures { result ≡ [] }
    {
        Farewells {
            all: VecDeque::new(alloc),
        }
    }

    /// The connection takes leave from this moment on.
    pub fn push(&mut self, number: u32, moment: u64) -> Result<(), AllocError>
        ensures { OnOk result (self.new
            ≡ self.old ++ record { number = number; until = end_of moment } ∷ []) }
    {
        self.all.push_back(Farewell {
            number,
            until: moment.saturating_add(LONGEST_FAREWELL),
        })?;
        Ok(())
    }

    /// The moment at which the first is over.
    pub fn next_due(&self) -> Option<u64> {
        Some(self.all.front()?.until)
    }

    /// How many take leave.
    pub fn len(&self) -> usize
        ensures { result ≡ length self.now }
    {
        self.all.len()
    }

    /// The number of the first.
    pub fn first(&self) -> Option<u32>
        ensures some { IfSome result (λ n. BeginsWith n self.now) }
        ensures none { result ≡ None → self.now ≡ [] }
    {
        Some(self.all.front()?.number)
    }

    /// The first is there no more.
    pub fn forget_first(&mut self)
        ensures { self.new ≡ drop 1 self.old }
    {
        self.all.pop_front();
    }

    /// Whether the time of one is over at this moment, or there are too many.
    pub fn any_over(&self, moment: u64) -> bool
        ensures none { result ≡ false → NoneIsOver moment self.now }
        ensures some { result ≡ true → SomeIsOver moment self.now }
    {
        match self.all.front() {
            Some(first) => first.until <= moment || self.all.len() > MOST_FAREWELLS,
            None => false,
        }
    }

    /// One that is over at this moment, or the first where there are too many.
    pub fn next_over(&mut self, moment: u64) -> Option<u32>
        ensures over { IfSome result (λ n. IsOver n moment self.old self.new) }
        ensures none { result ≡ None → NoneIsOver moment self.new }
    {
        if !self.any_over(moment) {
            return None;
        }
        Some(self.all.pop_front()?.number)
    }
}
