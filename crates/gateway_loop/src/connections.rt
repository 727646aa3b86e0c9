//! What a gateway does on one connection.

ghost use Rattle.std.specs.Prelude.{◌≡◌, ◌≢◌, ◌<◌, ◌∷◌, [], None, length, slice_get};
ghost use Rattle.gateway_loop.specs.Gateways.{MayAsk};
ghost use Rattle.exchange_model.specs.Resting.{HasConn};
ghost use Rattle.gateway_loop.specs.Places.{HaveTurns, IsNobody, IsWritten};

use crate::client::Flow;
use crate::gateway::Gateway;
use crate::sockets::{Stream, Wire};
use crate::stage::Stage;
use transformers::Relation;

/// What is to be done next on a connection.
#[derive(Clone, Copy, Debug, PartialEq, Eq)]
pub enum Due {
    /// Nothing before there is a sign, or an answer.
    Nothing,
    /// What was read is an input.
    Piece,
    /// What was read is none yet, or was dropped, and there may be more.
    More,
    /// Its stream asks something, and waits for a place.
    Place,
    /// It takes leave.
    Farewell,
    /// It ends.
    End,
}

impl<R: Relation, S: Stream + Drop, W: Wire + Drop> Gateway<R, S, W> {
    /// A sign tells that the connection may give or take bytes, or that its client sends no more.
    pub fn wake(&mut self, number: u32, ended: bool)
        ensures world { self.new.world ≡ self.old.world }
        ensures turns { number < length self.old.clients.places
            → HaveTurns (number ∷ []) self.old.clients self.new.clients }
    {
        self.ends.clients.wake(number, ended);
    }

    /// The connection may have something to do: it has its turn after those before it.
    pub fn line_up(&mut self, number: u32)
        ensures world { self.new.world ≡ self.old.world }
        ensures turns { HaveTurns (number ∷ []) self.old.clients self.new.clients }
    {
        self.ends.clients.line_up(number);
    }

    /// Whether all connections have their turns. That is told once.
    pub fn take_everyone(&mut self) -> bool
        ensures world { self.new.world ≡ self.old.world }
        ensures is { result ≡ self.old.clients.everyone }
    {
        self.ends.clients.take_everyone()
    }

    /// Whose turn is next.
    pub fn next(&mut self) -> Option<u32>
        ensures { self.new.world ≡ self.old.world }
    {
        self.ends.clients.next()
    }

    /// The connection has nothing to do: where it stands in the line as the last, it does no more.
    pub(crate) fn leave_line(&mut self, number: u32)
        ensures { self.new.world ≡ self.old.world }
    {
        self.ends.clients.leave_line(number);
    }

    /// How far the connection is, if it is there.
    pub fn stage(&self, number: u32) -> Option<Stage> {
        self.ends.clients.stage(number)
    }

    /// The connection takes leave.
    pub fn leave(&mut self, number: u32)
        ensures { self.new.world ≡ self.old.world }
    {
        self.ends.clients.leave(number);
    }

    /// Whether the connection takes leave, or is parked, and the world, which closed it before, has
    /// nothing more to do with it.
    pub(crate) fn has_left(&self, number: u32) -> bool {
        match self.ends.clients.stage(number) {
            Some(Stage::Leaving) | Some(Stage::Parked) => !self.world.is_idle(number),
            _ => false,
        }
    }

    /// Whether the connection waits for no answer, though it is open.
    pub fn is_idle(&self, number: u32) -> bool {
        self.world.is_idle(number)
    }

    /// The connection is there no more, with what is left for it.
    pub(crate) fn remove(&mut self, number: u32)
        ensures { self.new.world ≡ self.old.world }
    {
        self.ends.clients.remove(number);
    }

    /// Writes and reads on the connection, and answers what is to be done next. Nothing is asked of
    /// it and nothing read while something is left to be written for it, or an answer awaited. One
    /// that is parked is read until a head is whole. One of which nothing is there any more ends.
    pub fn serve(&mut self, number: u32, buffer: &mut [u8]) -> Due
        ensures world { self.new.world ≡ self.old.world }
        ensures hold { result ≡ Due.Piece → MayAsk number self.new }
        ensures gone { IsNobody (slice_get self.old.clients.places number)
            → HasConn self.old.world.core.state.conns number None → result ≡ Due.End }
        ensures length { length buffer.new ≡ length buffer.old }
    {
        if self.ends.clients.stage(number).is_none() {
            return self.end_of_nobody(number);
        }
        match self.ends.clients.flush(number) {
            Flow::On => {}
            Flow::Later => return Due::Nothing,
            Flow::End | Flow::Lost => return Due::End,
        }
        match self.ends.clients.stage(number) {
            Some(Stage::Open) => self.find_piece(number, buffer),
            Some(Stage::Parked) => self.find_head(number, buffer),
            Some(Stage::Closing) => Due::Farewell,
            Some(Stage::Leaving) => self.read_on(number, buffer),
            None => Due::Nothing,
        }
    }

    /// Whether the world has a connection of which nothing is there any more, since memory was refused
    /// to keep what was given out for it: it ends, once no answer is awaited.
    fn end_of_nobody(&self, number: u32) -> Due
        ensures ends { HasConn self.now.world.core.state.conns number None → result ≡ Due.End }
        ensures asks { result ≢ Due.Piece }
    {
        if self.world.is_idle(number) {
            Due::End
        } else {
            Due::Nothing
        }
    }

    /// Whether there is something to ask of the connection, for which nothing is left to be written:
    /// it is read where there is nothing.
    fn find_piece(&mut self, number: u32, buffer: &mut [u8]) -> Due
        requires { IsWritten (slice_get self.old.clients.places number) }
        ensures world { self.new.world ≡ self.old.world }
        ensures hold { result ≡ Due.Piece → MayAsk number self.new }
        ensures length { length buffer.new ≡ length buffer.old }
    {
        if !self.world.is_idle(number) {
            return Due::Nothing;
        }
        if self.is_ripe(number) {
            return Due::Piece;
        }
        match self.ends.clients.read(number, buffer) {
            Flow::On if self.is_ripe(number) => Due::Piece,
            Flow::On => Due::More,
            Flow::Later => Due::Nothing,
            Flow::End | Flow::Lost => Due::End,
        }
    }

    /// Whether what was read of the connection becomes an input: at the begin of a request only once
    /// its head is whole, so that until then the stream can go on as another connection.
    fn is_ripe(&self, number: u32) -> bool {
        let clients = &self.ends.clients;
        clients.has_unfed(number) && (clients.has_head(number) || !self.world.is_between(number))
    }

    /// Whether the stream of the connection, which is parked, asks something: it is read where it
    /// doesn't yet.
    fn find_head(&mut self, number: u32, buffer: &mut [u8]) -> Due
        ensures world { self.new.world ≡ self.old.world }
        ensures asks { result ≢ Due.Piece }
        ensures length { length buffer.new ≡ length buffer.old }
    {
        if self.ends.clients.is_queued(number) {
            return Due::Nothing;
        }
        if self.ends.clients.has_head(number) {
            return Due::Place;
        }
        self.read_on(number, buffer)
    }

    /// Reads what the client sends of which nothing is asked now: where it takes leave that is
    /// dropped.
    fn read_on(&mut self, number: u32, buffer: &mut [u8]) -> Due
        ensures world { self.new.world ≡ self.old.world }
        ensures asks { result ≢ Due.Piece }
        ensures length { length buffer.new ≡ length buffer.old }
    {
        match self.ends.clients.read(number, buffer) {
            Flow::On => Due::More,
            Flow::Later => Due::Nothing,
            Flow::End | Flow::Lost => Due::End,
        }
    }
}
