//! The bytes of a connection, and how far they were read.

ghost use Rattle.std.specs.Prelude.{◌≡◌, ◌≤◌, ◌<◌, ◌+◌, ◌-◌, ◌*◌, ◌++◌, ◌||◌, ◌↔◌, [], true, false};
ghost use Rattle.std.specs.Prelude.{take, drop, length, vec_len, IsTrue, IfOk, OnOk, OnErr, Ok, None};
ghost use Rattle.http_edge.specs.Edges.{item};
ghost use Rattle.http_edge.specs.Reading.{closes as is_last};

use http_edge::{Edge, Incoming, Memory};
use std::alloc::Global;

/// The bytes that came in and were not let go, and the edge that reads them.
#[derive(Drop)]
pub struct Reader {
    edge: Edge,
    pub bytes: Vec<u8>,
    /// The bytes before this place were asked.
    pub start: usize,
    /// The edge was given the bytes before this place.
    taken: usize,
    ghost order: { start ≤ taken },
    ghost within: { taken ≤ vec_len bytes },
}

impl Reader {
    ghost use Rattle.http_edge.specs.Edges.{Expects, IsUnread, LeavesBytes, is_told, unread_len};
    ghost use Rattle.gateway_connections.specs.Readers.{IsInStep, Rests, ReadsNext};
    ghost use Rattle.gateway_connections.specs.Readers.{text_of, unread_of};

    /// No bytes.
    pub fn new(alloc: Global) -> Result<Reader, Memory>
        ensures in_step { IfOk result IsInStep }
        ensures empty { IfOk result (λ r. r.bytes.items ≡ []) }
        ensures start { IfOk result (λ r. r.start ≡ 0) }
        ensures told { IfOk result (λ r. is_told r.edge ≡ false) }
    {
        Ok(Reader {
            edge: Edge::new(alloc)?,
            bytes: Vec::new(alloc),
            start: 0,
            taken: 0,
        })
    }

    /// Puts bytes after those that are there.
    pub fn append(&mut self, bytes: &[u8]) -> Result<(), Memory>
        ensures in_step { IsInStep self.old → IsInStep self.new }
        ensures more { OnOk result (self.new.bytes.items ≡ self.old.bytes.items ++ bytes.now) }
        ensures kept { OnErr result (self.new.bytes.items ≡ self.old.bytes.items) }
        ensures start { self.new.start ≡ self.old.start }
        ensures edge { self.new.edge ≡ self.old.edge }
    {
        self.bytes.extend_from_slice(bytes)?;
        Ok(())
    }

    /// How many bytes wait unread. What came in of the request begun is read.
    pub fn unread(&self) -> usize
        ensures len { result ≡ unread_of self.now }
        ensures counts { IsInStep self.now → IsUnread (text_of self.now) result }
        ensures exact { IsInStep self.now → Rests self.now → LeavesBytes (text_of self.now) result }
    {
        self.edge.unread() + (self.bytes.len() - self.taken)
    }

    /// How many bytes are not asked yet.
    pub fn len(&self) -> usize
        ensures { result ≡ length (text_of self.now) }
    {
        self.bytes.len() - self.start
    }

    /// Gives the edge what it has room for. False where it took nothing.
    fn refill(&mut self) -> bool
        ensures in_step { IsInStep self.old → IsInStep self.new }
        ensures bytes { self.new.bytes ≡ self.old.bytes }
        ensures start { self.new.start ≡ self.old.start }
        ensures less { result ≡ true →
            vec_len self.new.bytes - self.new.taken < vec_len self.old.bytes - self.old.taken }
        ensures rests { result ≡ false → unread_len self.old.edge < 8192 →
            self.old.edge.waits ≡ true → Rests self.new }
        ensures told { is_told self.new.edge ≡ is_told self.old.edge }
    {
        let n = self.edge.feed(&self.bytes[self.taken..]);
        self.taken += n;
        n > 0
    }

    /// The next request of what the edge was given. After the last one no bytes are left.
    fn next(&mut self) -> Result<Option<Incoming>, Memory>
        requires { IsInStep self.old }
        ensures in_step { IsInStep self.new }
        ensures bytes { self.new.bytes ≡ self.old.bytes }
        ensures reads { ReadsNext result (text_of self.old) self.new }
        ensures start { result ≡ Ok None → self.new.start ≡ self.old.start }
        ensures taken { result ≡ Ok None → self.new.taken ≡ self.old.taken }
        ensures room { result ≡ Ok None → unread_len self.new.edge < 8192 }
        ensures waits { result ≡ Ok None → self.new.edge.waits ≡ true }
        ensures told { is_told self.new.edge ≡ true → is_told self.old.edge ≡ true }
    {
        let found = self.edge.next()?;
        let Some(incoming) = &found else {
            return Ok(found);
        };
        if closes(incoming) {
            self.start = self.bytes.len();
            self.taken = self.start;
            self.edge.restart();
            return Ok(found);
        }
        self.start = self.taken - self.edge.unread();
        Ok(found)
    }

    /// The next request, or the refusal of what stands in its place. None where none is whole.
    pub fn read(&mut self) -> Result<Option<Incoming>, Memory>
        requires { IsInStep self.old }
        ensures in_step { IsInStep self.new }
        ensures bytes { self.new.bytes ≡ self.old.bytes }
        ensures reads { ReadsNext result (text_of self.old) self.new }
        ensures rests { result ≡ Ok None → Rests self.new }
        ensures told { is_told self.new.edge ≡ true → is_told self.old.edge ≡ true }
    {
        'each: loop {
            let found = self.next()?;
            if found.is_some() {
                return Ok(found);
            }
            if !self.refill() {
                return Ok(None);
            }
        }
    }

    /// The request begun waits for `100 Continue`, which wasn't asked since its head was read.
    pub fn wants_continue(&mut self) -> bool
        requires { IsInStep self.old }
        ensures in_step { IsInStep self.new }
        ensures bytes { self.new.bytes ≡ self.old.bytes }
        ensures text { text_of self.new ≡ text_of self.old }
        ensures asks { IsTrue result → Expects (text_of self.old) }
        ensures told { is_told self.new.edge ≡ (result || is_told self.old.edge) }
        ensures expects { Rests self.old →
            (is_told self.new.edge ≡ true ↔ Expects (text_of self.new)) }
        ensures rests { Rests self.old → Rests self.new }
    {
        self.edge.wants_continue()
    }

    /// Lets go of the bytes that were asked, once they are more than the others.
    pub fn let_go(&mut self)
        ensures in_step { IsInStep self.old → IsInStep self.new }
        ensures text { text_of self.new ≡ text_of self.old }
        ensures edge { self.new.edge ≡ self.old.edge }
        ensures few { 2 * self.new.start ≤ vec_len self.new.bytes }
    {
        if self.start > self.bytes.len() - self.start {
            drop_first(&mut self.bytes, self.start);
            self.taken -= self.start;
            self.start = 0;
        }
    }

    /// Removes the bytes from `end` on, and reads again from `start` on.
    pub fn go_back(&mut self, start: usize, end: usize)
        requires order { start ≤ end }
        requires within { end ≤ vec_len self.old.bytes }
        ensures in_step { IsInStep self.new }
        ensures bytes { self.new.bytes.items ≡ take end self.old.bytes.items }
        ensures start { self.new.start ≡ start }
        ensures told { is_told self.new.edge ≡ false }
    {
        self.bytes.truncate(end);
        self.start = start;
        self.taken = start;
        self.edge.restart();
    }
}

/// Whether nothing is read after it (RFC 9112, section 9.3).
pub fn closes(incoming: &Incoming) -> bool
    ensures { result ≡ is_last (item incoming.now) }
{
    match incoming {
        Incoming::Request(request) => request.close,
        Incoming::Bad(_) => true,
    }
}

/// Drops the first bytes. Where those are all, none is moved.
fn drop_first(bytes: &mut Vec<u8>, n: usize)
    requires { n ≤ vec_len bytes.old }
    ensures items { bytes.new.items ≡ drop n bytes.old.items }
    ensures len { vec_len bytes.new + n ≡ vec_len bytes.old }
{
    if n == bytes.len() {
        bytes.clear();
    } else {
        bytes.drain(..n);
    }
}
