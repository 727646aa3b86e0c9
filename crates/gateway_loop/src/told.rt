//! What was given out to connections, for who notes it.

ghost use Rattle.std.specs.Prelude.{◌≡◌, ◌∷◌, ◌++◌, [], map, OnOk};
ghost use Rattle.gateway_model.specs.Emissions.{Says};
ghost use Rattle.gateway_loop.specs.Telling.{forgotten, telling, telling_of, told_in, Tells};
ghost use Rattle.gateway_loop.specs.Telling.{Kept, Off};

use crate::client::piece_len;
use std::alloc::{AllocError, Global};
use std::marker::Model;

/// Bytes that were given out at once: an answer, or that its client is to go on.
#[derive(Drop)]
pub struct Told {
    /// The number of the connection that they are for.
    pub number: u32,
    /// The bytes up to the end of the first empty line.
    pub head: Vec<u8>,
    /// How many bytes there are.
    pub count: usize,
}

/// What is kept of what was given out.
#[derive(Drop)]
enum State {
    /// Nothing is wanted.
    Off,
    /// Memory was refused for it: nothing is kept until it is looked at.
    Lost,
    /// These were given out since that was looked at, in this order.
    Kept(Vec<Told>),
}

/// What was given out since that was looked at, where that is wanted.
#[derive(Drop)]
pub struct Notes {
    alloc: Global,
    state: State,
}

impl Model for Notes {
    ghost use Rattle.gateway_loop.specs.Telling.{notes_of, NotesValue};

    ghost Value = { NotesValue };

    ghost view = { λ n. notes_of n.state };
}

impl Notes {
    /// None is wanted.
    pub fn new(alloc: Global) -> Notes
        ensures { result ≡ Off }
    {
        Notes {
            alloc,
            state: State::Off,
        }
    }

    /// They are wanted from now on.
    pub fn begin(&mut self)
        ensures { self.new ≡ Kept [] }
    {
        self.state = State::Kept(Vec::new(self.alloc));
    }

    /// These bytes are given out.
    pub fn add(&mut self, number: u32, bytes: &[u8])
        ensures { Tells (Says number bytes.now ∷ []) self.old self.new }
    {
        let State::Kept(all) = &mut self.state else {
            return;
        };
        if push_told(self.alloc, all, number, bytes).is_err() {
            self.state = State::Lost;
        }
    }

    /// Those that there are.
    pub fn all(&self) -> &[Told]
        ensures { map telling result.now ≡ told_in self.now }
    {
        match &self.state {
            State::Kept(all) => all,
            _ => &[],
        }
    }

    /// They were looked at.
    pub fn forget(&mut self)
        ensures { self.new ≡ forgotten self.old }
    {
        match &mut self.state {
            State::Off => {}
            State::Lost => self.state = State::Kept(Vec::new(self.alloc)),
            State::Kept(all) => all.clear(),
        }
    }
}

/// Keeps what tells of these bytes after what was kept.
fn push_told(
    alloc: Global,
    all: &mut Vec<Told>,
    number: u32,
    bytes: &[u8],
) -> Result<(), AllocError>
    ensures { OnOk result (map telling all.new.items
        ≡ map telling all.old.items ++ telling_of number bytes.now ∷ []) }
{
    let head = Vec::from_slice(alloc, &bytes[..piece_len(bytes)])?;
    all.push(Told {
        number,
        head,
        count: bytes.len(),
    })?;
    Ok(())
}
