//! The connections by their numbers, and the line of those that have something to do.

ghost use Rattle.std.specs.Prelude.{◌≡◌, ◌≢◌, ◌⊎◌, ◌<◌, ◌≤◌, ◌+◌, ◌-◌, ◌++◌, ◌∷◌, [], true, None};
ghost use Rattle.std.specs.Prelude.{Some};
ghost use Rattle.std.specs.Prelude.{length, map, take, slice_get, IfSome, OnErr, OnOk};
ghost use Rattle.gateway_model.specs.Emissions.{Says};
ghost use Rattle.gateway_loop.specs.Clients.{unserved, Feeds, Gets, Leaves, Reads, Writes};
ghost use Rattle.gateway_loop.specs.Places.{empty_places, no_clients, EachChanges, HasUnfed};
ghost use Rattle.gateway_loop.specs.Places.{IsEmptied, IsGoneOr, IsNobody, IsPiece};
ghost use Rattle.gateway_loop.specs.Places.{IsWritten, OnlyAt};
ghost use Rattle.gateway_loop.specs.Telling.{forgotten, telling, told_in, Kept, Tells};

use crate::client::{Client, Flow};
use crate::sockets::Stream;
use crate::stage::Stage;
use crate::told::{Notes, Told};
use crate::waits::Waits;
use std::alloc::{AllocError, Global};
use std::collections::VecDeque;
use std::marker::Model;
use std::mem;

/// The connections. Each has the place of its number; one that ended leaves it empty, since no
/// number is given twice.
#[derive(Drop)]
pub struct Clients<S> {
    alloc: Global,
    /// How many places come before those below: they are empty, and nothing is kept of them.
    pub(crate) past: u32,
    pub(crate) places: Vec<Option<Client<S>>>,
    /// Those that may have something to do. One may stand there twice.
    pub(crate) line: VecDeque<u32>,
    /// All may have: memory was refused for the line.
    pub(crate) everyone: bool,
    /// How many are there.
    pub(crate) streams: usize,
    /// One was given up, since memory was refused.
    refused: bool,
    /// How often something was given out, or one came.
    stamp: u64,
    /// What was given out, for who notes it.
    notes: Notes,
}

impl<S> Model for Clients<S> {
    ghost use Rattle.std.specs.Prelude.{◌++◌};
    ghost use Rattle.gateway_loop.specs.Places.{empty_places, ClientsValue};

    ghost Value = { ClientsValue S };

    ghost view = { λ c. record {
      places = empty_places c.past ++ c.places.items;
      line = c.line.items;
      everyone = c.everyone;
      told = c.notes;
    } };
}

impl<S: Stream + Drop> Clients<S> {
    /// No connection.
    pub fn new(alloc: Global) -> Clients<S>
        ensures { result ≡ no_clients }
    {
        Clients {
            alloc,
            past: 0,
            places: Vec::new(alloc),
            line: VecDeque::new(alloc),
            everyone: false,
            streams: 0,
            refused: false,
            stamp: 0,
            notes: Notes::new(alloc),
        }
    }

    /// Keeps from now on what tells of the bytes that are given out, until it is forgotten.
    pub fn keep_told(&mut self)
        ensures { self.new ≡ record self.old { told = Kept [] } }
    {
        self.notes.begin();
    }

    /// What tells of the bytes that were given out and aren't forgotten, in their order.
    pub fn told(&self) -> &[Told]
        ensures { map telling result.now ≡ told_in self.now.told }
    {
        self.notes.all()
    }

    /// Forgets it.
    pub fn forget_told(&mut self)
        ensures { self.new ≡ record self.old { told = forgotten self.old.told } }
    {
        self.notes.forget();
    }

    /// Where memory is taken.
    pub(crate) fn alloc(&self) -> Global {
        self.alloc
    }

    /// How many there were in all, and so the number of the next.
    pub fn count(&self) -> usize
        ensures { result ≡ length self.now.places }
    {
        self.past as usize + self.places.len()
    }

    /// The first number of which something is kept: all before it ended.
    pub fn first(&self) -> u32 {
        self.past
    }

    /// Takes one of which nothing was read or written, under the next number.
    pub fn push(&mut self, stream: S) -> Result<(), AllocError>
        ensures ok { OnOk result (self.new
            ≡ record self.old { places = self.old.places ++ Some (unserved stream) ∷ [] }) }
        ensures unchanged { OnErr result (self.new ≡ self.old) }
    {
        let client = Client::new(self.alloc, stream, self.stamp);
        self.places.push(Some(client))?;
        self.streams = self.streams.saturating_add(1);
        Ok(())
    }

    /// How many are there.
    pub fn streams(&self) -> usize {
        self.streams
    }

    /// It is there no more, if it was.
    pub(crate) fn count_out(&mut self, number: u32)
        ensures { self.new ≡ self.old }
    {
        if self.stage(number).is_some() {
            self.streams = self.streams.saturating_sub(1);
        }
    }

    /// Takes the last place away again: the next number is that of this one.
    pub fn pop(&mut self)
        ensures { self.new ≡ record self.old
            { places = take (length self.old.places - 1) self.old.places } }
    {
        match self.places.pop() {
            Some(Some(_)) => self.streams = self.streams.saturating_sub(1),
            Some(None) => {}
            None => self.past = self.past.saturating_sub(1),
        }
    }

    /// The proxy closes the connection.
    pub fn close(&mut self, number: u32)
        ensures { self.new ≡ self.old }
    {
        let Some(place) = place_of(number, self.past, self.places.len()) else {
            return;
        };
        if let Some(client) = &mut self.places[place] {
            client.close();
        }
    }

    /// The connection is given up, since memory was refused: the proxy closes it.
    pub fn give_up(&mut self, number: u32)
        ensures { self.new ≡ self.old }
    {
        self.refused = true;
        self.close(number);
    }

    /// Whether one was given up. That is told once.
    pub fn take_refused(&mut self) -> bool
        ensures { self.new ≡ self.old }
    {
        mem::replace(&mut self.refused, false)
    }

    /// Bytes were given out for the connection. What tells of them is kept, where that is wanted.
    /// Where memory is refused to keep the bytes, the connection is gone.
    pub fn give(&mut self, number: u32, bytes: Vec<u8>)
        ensures gets { IsGoneOr number (Gets bytes.items) self.old.places self.new.places }
        ensures line { self.new.line ≡ self.old.line }
        ensures everyone { self.new.everyone ≡ self.old.everyone }
        ensures told { Tells (Says number bytes.items ∷ []) self.old.told self.new.told }
    {
        self.notes.add(number, bytes.as_slice());
        self.stamp = self.stamp.saturating_add(1);
        let Some(place) = place_of(number, self.past, self.places.len()) else {
            return;
        };
        let given = match &mut self.places[place] {
            Some(client) => client.give(bytes, self.stamp),
            None => return,
        };
        if given.is_err() {
            self.remove(number);
        }
    }

    /// Writes what is left for the connection, as much as it takes.
    pub fn flush(&mut self, number: u32) -> Flow
        ensures writes { EachChanges (OnlyAt number (Writes S.written S.gave))
            self.old.places self.new.places }
        ensures done { result ≡ Flow.On → IsWritten (slice_get self.new.places number) }
        ensures line { self.new.line ≡ self.old.line }
        ensures everyone { self.new.everyone ≡ self.old.everyone }
        ensures told { self.new.told ≡ self.old.told }
    {
        let Some(place) = place_of(number, self.past, self.places.len()) else {
            return Flow::Later;
        };
        match &mut self.places[place] {
            Some(client) => client.flush(),
            None => Flow::Later,
        }
    }

    /// Reads once of the connection, by way of the buffer. Where what was read is lost, so is the
    /// connection.
    pub fn read(&mut self, number: u32, buffer: &mut [u8]) -> Flow
        ensures reads { result ≢ Flow.Lost → EachChanges (OnlyAt number (Reads S.written S.gave))
            self.old.places self.new.places }
        ensures lost { result ≡ Flow.Lost
            → IsEmptied number self.old.places self.new.places }
        ensures line { self.new.line ≡ self.old.line }
        ensures everyone { self.new.everyone ≡ self.old.everyone }
        ensures told { self.new.told ≡ self.old.told }
        ensures length { length buffer.new ≡ length buffer.old }
    {
        let Some(place) = place_of(number, self.past, self.places.len()) else {
            return Flow::Later;
        };
        if buffer.is_empty() {
            return Flow::Later;
        }
        let flow = match &mut self.places[place] {
            Some(client) => client.read(buffer),
            None => return Flow::Later,
        };
        if let Flow::Lost = flow {
            self.remove(number);
        }
        flow
    }

    /// The connection takes leave.
    pub fn leave(&mut self, number: u32)
        ensures leaves { EachChanges (OnlyAt number (Leaves S.written S.gave))
            self.old.places self.new.places }
        ensures line { self.new.line ≡ self.old.line }
        ensures everyone { self.new.everyone ≡ self.old.everyone }
        ensures told { self.new.told ≡ self.old.told }
    {
        let Some(place) = place_of(number, self.past, self.places.len()) else {
            return;
        };
        if let Some(client) = &mut self.places[place] {
            client.leave();
        }
    }

    /// The connection with this number, if it is there.
    pub(crate) fn get(&self, number: u32) -> Option<&Client<S>>
        ensures some { IfSome result (λ c. slice_get self.now.places number ≡ Some (Some c.now)) }
        ensures none { result ≡ None → IsNobody (slice_get self.now.places number) }
    {
        let place = place_of(number, self.past, self.places.len())?;
        self.places[place].as_ref()
    }

    /// How far the connection is, if it is there.
    pub fn stage(&self, number: u32) -> Option<Stage>
        ensures { IsNobody (slice_get self.now.places number) → result ≡ None }
    {
        Some(self.get(number)?.stage())
    }

    /// Looks at the connection, at this moment.
    pub fn look(&mut self, number: u32, moment: u64)
        ensures { self.new ≡ self.old }
    {
        let Some(place) = place_of(number, self.past, self.places.len()) else {
            return;
        };
        if let Some(client) = &mut self.places[place] {
            client.look(moment);
        }
    }

    /// What the connection waits for, if it is there and doesn't take leave.
    pub fn waits(&self, number: u32) -> Option<Waits> {
        match self.get(number) {
            Some(client) if client.stage() != Stage::Leaving => Some(client.waits()),
            _ => None,
        }
    }

    /// Whether the connection is open, and nothing is left to be written for it.
    pub fn is_written(&self, number: u32) -> bool
        ensures { result ≡ true → IsWritten (slice_get self.now.places number) }
    {
        match self.get(number) {
            Some(client) => client.is_written(),
            None => false,
        }
    }

    /// Whether something was read of the connection that isn't an input yet.
    pub fn has_unfed(&self, number: u32) -> bool {
        match self.get(number) {
            Some(client) => client.has_unfed(),
            None => false,
        }
    }

    /// What is an input next of the connection.
    pub fn piece(&self, number: u32) -> &[u8]
        ensures { IsPiece (slice_get self.now.places number) result.now }
    {
        match self.get(number) {
            Some(client) => client.piece(),
            None => &[],
        }
    }

    /// So many bytes more of the connection were an input.
    pub fn feed(&mut self, number: u32, count: usize)
        requires { HasUnfed count (slice_get self.old.places number) }
        ensures feeds { EachChanges (OnlyAt number (Feeds count))
            self.old.places self.new.places }
        ensures line { self.new.line ≡ self.old.line }
        ensures everyone { self.new.everyone ≡ self.old.everyone }
        ensures told { self.new.told ≡ self.old.told }
    {
        let Some(place) = place_of(number, self.past, self.places.len()) else {
            return;
        };
        if let Some(client) = &mut self.places[place] {
            client.feed(count);
        }
    }

    /// The connection ends.
    pub fn remove(&mut self, number: u32)
        ensures ends { IsEmptied number self.old.places self.new.places }
        ensures line { self.new.line ≡ self.old.line }
        ensures everyone { self.new.everyone ≡ self.old.everyone }
        ensures told { self.new.told ≡ self.old.told }
    {
        self.count_out(number);
        if let Some(place) = place_of(number, self.past, self.places.len()) {
            self.places[place] = None;
        }
    }

    /// Keeps nothing more of the places before the first that isn't empty, once they are as many as
    /// the others.
    pub fn forget(&mut self)
        ensures { self.new ≡ self.old }
    {
        let empty = empty_before(&self.places);
        let kept = self.places.len() - empty;
        if empty < kept {
            return;
        }
        let Ok(past) = u32::try_from(self.past as usize + empty) else {
            return;
        };
        self.places.rotate_left(empty);
        self.places.truncate(kept);
        self.past = past;
    }
}

/// Which of so many places is that of the number, where so many others come before them.
pub(crate) fn place_of(number: u32, past: u32, count: usize) -> Option<usize>
    ensures some { IfSome result (λ p. (past + p ≡ number) × (p < count)) }
    ensures none { result ≡ None → (number < past) ⊎ (past + count ≤ number) }
{
    let place = number.checked_sub(past)? as usize;
    if place < count { Some(place) } else { None }
}

/// How many of the places come before the first that isn't empty.
fn empty_before<S>(places: &[Option<Client<S>>]) -> usize
    ensures fits { result ≤ length places.now }
    ensures empty { take result places.now ≡ empty_places result }
{
    let mut empty = 0;
    while empty < places.len() && places[empty].is_none() {
        empty += 1;
    }
    empty
}
