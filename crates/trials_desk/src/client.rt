//! A client, its connection, its gate and the clock, in memory.

ghost use Rattle.std.specs.Prelude.{◌≡◌};
ghost use Rattle.sessions.specs.Devices.{Rises};

use crate::device::Device;
use gateway_desk::Clock;
use sessions::{End, Failed, Gate, Point, Stream};

/// A client: what it sends, piece by piece, where its session is held, and what becomes of it.
pub struct Client {
    pub sends: &'static [&'static [u8]],
    /// where its gate says no
    pub held_at: Option<Point>,
    /// whether it reads nothing any more
    pub is_gone: bool,
    pub gets: &'static [u8],
    pub end: End,
}

/// The connection of a client.
#[derive(Clone, Copy)]
pub struct Tape {
    /// what it sends yet
    sends: &'static [&'static [u8]],
    /// what it is to get yet
    gets: &'static [u8],
    is_gone: bool,
    /// whether it got what it wasn't to get
    is_wrong: bool,
    /// how many reads and writes go well before one fails
    left: u64,
    /// what its session is to end as, once one failed
    failed: Option<End>,
    faults: u64,
}

impl Tape {
    pub fn of(client: &'static Client) -> Tape {
        Tape::failing(client, u64::MAX)
    }

    /// One of which the read or write fails that comes after so many.
    pub fn failing(client: &'static Client, left: u64) -> Tape {
        Tape {
            sends: client.sends,
            gets: client.gets,
            is_gone: client.is_gone,
            is_wrong: false,
            left,
            failed: None,
            faults: 0,
        }
    }

    /// What its session is to end as, where a read or a write failed.
    pub fn failed(&self) -> Option<End> {
        self.failed
    }

    /// Whether the client got nothing but what it was to get, or a beginning of it.
    pub fn is_right(&self) -> bool {
        !self.is_wrong
    }

    /// Whether the client got all that it was to get, and nothing else.
    pub fn is_done(&self) -> bool {
        self.gets.is_empty() && !self.is_wrong && self.faults == u64::from(self.is_gone)
    }

    /// Whether the client gets bytes. Others than it is to get are wrong.
    fn gets(&mut self, bytes: &[u8]) -> bool
        ensures { self.new.faults ≡ self.old.faults }
    {
        if self.is_gone {
            return false;
        }
        let count = bytes.len();
        if count > self.gets.len() || &self.gets[..count] != bytes {
            self.is_wrong = true;
            return false;
        }
        self.gets = &self.gets[count..];
        true
    }

    /// A read or a write fails.
    fn fail(&mut self) -> Failed
        ensures { Rises self.old.faults self.new.faults }
    {
        self.faults = self.faults.saturating_add(1);
        Failed
    }
}

impl Stream for Tape {
    ghost use Rattle.std.specs.Prelude.{None};

    ghost count = { λ t. t.faults };

    ghost written = { λ t. None };

    ghost gave = { λ t. None };

    fn faults(&self) -> u64 {
        self.faults
    }

    fn read(&mut self, buffer: &mut [u8], _between: bool) -> Result<usize, Failed> {
        if self.left == 0 {
            self.failed = Some(End::ReadFault);
            return Err(self.fail());
        }
        self.left -= 1;
        let [piece, rest @ ..] = self.sends else {
            return Ok(0);
        };
        let count = piece.len().min(buffer.len());
        buffer[..count].copy_from_slice(&piece[..count]);
        self.sends = rest;
        Ok(count)
    }

    /// Where it is the write that fails, a half of the bytes goes out.
    fn write(&mut self, bytes: &[u8]) -> Result<(), Failed> {
        if self.left == 0 {
            self.failed = Some(End::WriteFault);
            self.gets(&bytes[..bytes.len() / 2]);
            return Err(self.fail());
        }
        self.left -= 1;
        if self.gets(bytes) {
            Ok(())
        } else {
            Err(self.fail())
        }
    }
}

/// A clock that goes on by so many milliseconds at each reading.
#[derive(Drop)]
pub struct Steps {
    /// what it read last
    pub at: u64,
    pub step: u64,
}

impl Clock for Steps {
    ghost count = { λ c. 0 };

    ghost time = { λ c. c.at };

    ghost drawn = { λ c. 0 };

    fn faults(&self) -> u64 {
        0
    }

    fn moment(&mut self) -> u64 {
        self.at = self.at.saturating_add(self.step);
        self.at
    }

    fn word(&mut self) -> u64 {
        0
    }
}

/// A gate that says no at one point, and tells the devices that a session was answered.
#[derive(Clone, Copy)]
pub struct Keeper<'a> {
    pub device: &'a Device,
    pub held_at: Option<Point>,
    pub noes: u64,
}

impl Gate for Keeper<'_> {
    ghost nays = { λ g. g.noes };

    fn noes(&self) -> u64 {
        self.noes
    }

    fn pass(&mut self, point: Point, _number: u32) -> bool {
        if point == Point::Answered {
            self.device.release();
        }
        if self.held_at == Some(point) {
            self.noes = self.noes.saturating_add(1);
            return false;
        }
        true
    }
}
