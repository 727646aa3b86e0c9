//! The connections whose streams go on as others.

ghost use Rattle.std.specs.Prelude.{◌≡◌, ◌++◌, ◌∷◌, [], true, false, Some, slice_get};
ghost use Rattle.std.specs.Prelude.{IfSome, OnErr, OnOk};
ghost use Rattle.gateway_loop.specs.Places.{IsCarried, IsEmptied};

use crate::client::Client;
use crate::clients::{Clients, place_of};
use crate::host::Host;
use crate::sockets::Stream;
use std::alloc::AllocError;

impl<S: Stream + Drop> Clients<S> {
    /// Takes one that was served before, under the next number.
    pub fn push_back(&mut self, client: Client<S>) -> Result<(), AllocError>
        ensures ok { OnOk result (self.new
            ≡ record self.old { places = self.old.places ++ Some client ∷ [] }) }
        ensures unchanged { OnErr result (self.new ≡ self.old) }
    {
        self.places.push(Some(client))?;
        self.streams = self.streams.saturating_add(1);
        Ok(())
    }

    /// The stream of the connection is to go on as another one.
    pub fn park(&mut self, number: u32)
        ensures { self.new ≡ self.old }
    {
        let Some(place) = place_of(number, self.past, self.places.len()) else {
            return;
        };
        if let Some(client) = &mut self.places[place] {
            client.park();
        }
    }

    /// The stream of the connection waits for a place from now on. Answers whether it didn't yet.
    pub fn queue_up(&mut self, number: u32) -> bool
        ensures { self.new ≡ self.old }
    {
        let Some(place) = place_of(number, self.past, self.places.len()) else {
            return false;
        };
        match &mut self.places[place] {
            Some(client) => client.queue_up(),
            None => false,
        }
    }

    /// Whether it waits for one.
    pub fn is_queued(&self, number: u32) -> bool {
        match self.get(number) {
            Some(client) => client.is_queued(),
            None => false,
        }
    }

    /// Whether what was read of the connection, and isn't an input yet, has a whole head.
    pub fn has_head(&self, number: u32) -> bool {
        match self.get(number) {
            Some(client) => client.has_head(),
            None => false,
        }
    }

    /// When the connection was given something last, if it has asked nothing since.
    pub fn idle_since(&self, number: u32) -> Option<u64> {
        self.get(number)?.idle_since()
    }

    /// Whether the connection was answered since it has its place.
    pub fn had_turn(&self, number: u32) -> bool {
        match self.get(number) {
            Some(client) => client.had_turn(),
            None => false,
        }
    }

    /// The stream of the connection is to go on under the next number. False where it doesn't: it ends.
    pub fn carry<H: Host<S>>(&mut self, number: u32, host: &mut H, next: u32) -> bool
        ensures carried { result ≡ true → IsCarried number self.old.places self.new.places }
        ensures ended { result ≡ false → IsEmptied number self.old.places self.new.places }
        ensures line { self.new.line ≡ self.old.line }
        ensures everyone { self.new.everyone ≡ self.old.everyone }
        ensures told { self.new.told ≡ self.old.told }
    {
        let Some(mut client) = self.take(number) else {
            return false;
        };
        if !client.resume(host, next) {
            return false;
        }
        match self.push_back(client) {
            Ok(()) => true,
            Err(_) => false,
        }
    }

    /// Takes the connection out, if it is there.
    pub fn take(&mut self, number: u32) -> Option<Client<S>>
        ensures was { IfSome result (λ c. slice_get self.old.places number ≡ Some (Some c)) }
        ensures ends { IsEmptied number self.old.places self.new.places }
        ensures line { self.new.line ≡ self.old.line }
        ensures everyone { self.new.everyone ≡ self.old.everyone }
        ensures told { self.new.told ≡ self.old.told }
    {
        self.count_out(number);
        match place_of(number, self.past, self.places.len()) {
            Some(place) => self.places[place].take(),
            None => None,
        }
    }
}
