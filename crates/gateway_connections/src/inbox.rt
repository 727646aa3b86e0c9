//! The bytes of one connection that are not asked yet.

ghost use Rattle.std.specs.Prelude.{OnOk, OnErr};

use crate::reader::{Reader, closes};
use http_edge::{Incoming, Memory};
use limits::MAX_UNREAD;
use std::alloc::Global;
use std::marker::Model;

/// What the bytes of a connection ask next.
#[derive(Drop)]
pub enum Next {
    Request(Incoming),
    /// Nothing, but the client waits with its body for `100 Continue` (RFC 9110, section 10.1.1).
    Continue,
    Nothing,
}

/// What an inbox held: the bytes between two places, and everything else.
#[derive(Clone, Copy)]
pub struct Mark {
    start: usize,
    end: usize,
    unread: usize,
    told: bool,
    closing: bool,
}

/// What a connection that opens takes, made before it does.
#[derive(Drop)]
pub struct Spare {
    reader: Reader,
}

impl Model for Spare {
    ghost use Rattle.std.specs.Prelude.{◌≡◌, ⊤, [], false};
    ghost use Rattle.http_edge.specs.Edges.{is_told};
    ghost use Rattle.gateway_connections.specs.Readers.{IsInStep};

    ghost Value = { ⊤ };

    ghost view = { λ s. tt };

    ghost invariant = { λ s. IsInStep s.reader
        × (s.reader.bytes.items ≡ [])
        × (s.reader.start ≡ 0)
        × (is_told s.reader.edge ≡ false) };
}

impl Spare {
    /// With no bytes.
    pub(crate) fn new(alloc: Global) -> Result<Spare, Memory> {
        let reader = Reader::new(alloc)?;
        Ok(Spare { reader })
    }
}

/// The bytes of a connection that aren't asked yet. It can go back to what it held at its mark.
#[derive(Drop)]
pub struct Inbox {
    number: u32,
    reader: Reader,
    /// How many bytes count as unread; those of a request that has begun do not.
    unread: usize,
    /// The client was told to go on with the request that is next.
    told: bool,
    /// The last request was read.
    closing: bool,
    mark: Mark,
}

impl Model for Inbox {
    ghost use Rattle.std.specs.Prelude.{◌≡◌, ◌≤◌, true, vec_len};
    ghost use Rattle.http_edge.specs.Edges.{is_told};
    ghost use Rattle.gateway_connections.specs.Inlets.{IsSound};
    ghost use Rattle.gateway_connections.specs.Inboxes.{InboxValue, inlet_of, at_mark};
    ghost use Rattle.gateway_connections.specs.Readers.{IsInStep};

    ghost Value = { InboxValue };

    ghost view = { λ i. record {
      current = inlet_of i.number i.reader i.told i.closing i.unread;
      marked = at_mark i.number i.mark i.reader.bytes.items;
    } };

    ghost invariant = { λ i. IsInStep i.reader
        × IsSound (inlet_of i.number i.reader i.told i.closing i.unread)
        × (is_told i.reader.edge ≡ true → i.told ≡ true)
        × (i.mark.start ≤ i.mark.end)
        × (i.mark.end ≤ vec_len i.reader.bytes)
        × IsSound (at_mark i.number i.mark i.reader.bytes.items) };
}

impl Inbox {
    ghost use Rattle.std.specs.Prelude.{◌≡◌};
    ghost use Rattle.gateway_connections.specs.Inlets.{IsSound, fresh, extended, is_full};
    ghost use Rattle.gateway_connections.specs.Reads.{ReadsInlet};

    /// No bytes yet, which is its mark. It takes no memory.
    pub fn of(spare: Spare, number: u32) -> Inbox
        ensures current { result.current ≡ fresh number }
        ensures marked { result.marked ≡ fresh number }
        ensures sound { IsSound result.current }
    {
        Inbox {
            number,
            reader: spare.reader,
            unread: 0,
            told: false,
            closing: false,
            mark: Mark {
                start: 0,
                end: 0,
                unread: 0,
                told: false,
                closing: false,
            },
        }
    }

    /// The number of its connection.
    pub fn number(&self) -> u32
        ensures { result ≡ self.now.current.number }
    {
        self.number
    }

    /// Whether so many bytes more would be more than may wait unread (`MAX_UNREAD`). Bytes after
    /// the last request do not count.
    pub fn passes_limit(&self, reads: bool, more: usize) -> bool
        ensures { result ≡ is_full reads more self.now.current }
    {
        let unread = if reads {
            self.unread
        } else {
            self.reader.len()
        };
        !self.closing && (more > MAX_UNREAD || unread > MAX_UNREAD - more)
    }

    /// Puts the bytes after those that wait, unless the last request was read.
    pub fn append(&mut self, bytes: &[u8]) -> Result<(), Memory>
        ensures more { OnOk result (self.new.current ≡ extended bytes.now self.old.current) }
        ensures kept { OnErr result (self.new.current ≡ self.old.current) }
        ensures marked { self.new.marked ≡ self.old.marked }
        ensures sound { IsSound self.new.current }
    {
        if !self.closing {
            self.reader.append(bytes)?;
            self.unread += bytes.len();
        }
        Ok(())
    }

    /// What the bytes that wait ask next: nothing where there are none, and after the last request.
    pub fn next(&mut self) -> Result<Next, Memory>
        ensures reads { ReadsInlet result self.old.current self.new.current }
        ensures marked { self.new.marked ≡ self.old.marked }
        ensures sound { IsSound self.new.current }
    {
        if self.closing {
            return Ok(Next::Nothing);
        }
        if self.reader.len() == 0 {
            self.unread = 0;
            return Ok(Next::Nothing);
        }
        let found = self.reader.read();
        let left = self.reader.unread();
        self.unread = left;
        if let Some(incoming) = found? {
            self.told = false;
            self.closing = closes(&incoming);
            return Ok(Next::Request(incoming));
        }
        if self.reader.wants_continue() && !self.told {
            self.told = true;
            Ok(Next::Continue)
        } else {
            Ok(Next::Nothing)
        }
    }

    /// Marks what it holds.
    pub fn mark(&mut self)
        ensures current { self.new.current ≡ self.old.current }
        ensures marked { self.new.marked ≡ self.old.current }
    {
        self.reader.let_go();
        self.mark = Mark {
            start: self.reader.start,
            end: self.reader.bytes.len(),
            unread: self.unread,
            told: self.told,
            closing: self.closing,
        };
    }

    /// Goes back to what it held at the mark.
    pub fn back(&mut self)
        ensures current { self.new.current ≡ self.old.marked }
        ensures marked { self.new.marked ≡ self.old.marked }
    {
        self.reader.go_back(self.mark.start, self.mark.end);
        self.unread = self.mark.unread;
        self.told = self.mark.told;
        self.closing = self.mark.closing;
    }
}
