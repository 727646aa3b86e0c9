//! The line of the connections that have something to do.

ghost use Rattle.std.specs.Prelude.{◌≡◌, ◌<◌, ◌∷◌, [], false, length};
ghost use Rattle.gateway_loop.specs.Places.{HaveTurns};

use crate::clients::{Clients, place_of};
use crate::sockets::Stream;
use std::mem;

impl<S: Stream + Drop> Clients<S> {
    /// The connection has its turn after those before it. Where memory is refused for that, all have
    /// theirs.
    pub fn line_up(&mut self, number: u32)
        ensures places { self.new.places ≡ self.old.places }
        ensures line { HaveTurns (number ∷ []) self.old self.new }
        ensures told { self.new.told ≡ self.old.told }
    {
        if self.line.push_back(number).is_err() {
            self.everyone = true;
        }
    }

    /// Whether all have their turns. That is told once.
    pub fn take_everyone(&mut self) -> bool
        ensures is { result ≡ self.old.everyone }
        ensures once { self.new ≡ record self.old { everyone = false } }
    {
        mem::replace(&mut self.everyone, false)
    }

    /// Whether any have their turns.
    pub fn have_turns(&self) -> bool {
        self.everyone || !self.line.is_empty()
    }

    /// How many stand in the line.
    pub fn in_line(&self) -> usize
        ensures { result ≡ length self.now.line }
    {
        self.line.len()
    }

    /// Whose turn is next.
    pub fn next(&mut self) -> Option<u32>
        ensures places { self.new.places ≡ self.old.places }
        ensures told { self.new.told ≡ self.old.told }
    {
        self.line.pop_front()
    }

    /// The connection has nothing to do: where it stands in the line as the last, it does no more.
    pub fn leave_line(&mut self, number: u32)
        ensures places { self.new.places ≡ self.old.places }
        ensures told { self.new.told ≡ self.old.told }
    {
        let is_last = match self.line.back() {
            Some(last) => *last == number,
            None => false,
        };
        if is_last {
            self.line.pop_back();
        }
    }

    /// A sign tells that the connection may give or take bytes, or that its client sends no more.
    pub fn wake(&mut self, number: u32, ended: bool)
        ensures places { self.new.places ≡ self.old.places }
        ensures line { number < length self.old.places → HaveTurns (number ∷ []) self.old self.new }
        ensures told { self.new.told ≡ self.old.told }
    {
        if number as usize >= self.count() {
            return;
        }
        if let Some(place) = place_of(number, self.past, self.places.len()) {
            if let Some(client) = &mut self.places[place] {
                client.wake(ended);
            }
        }
        self.line_up(number);
    }
}
