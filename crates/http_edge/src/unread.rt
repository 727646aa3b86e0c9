//! The bytes of a connection that are not read yet.

ghost use Rattle.std.specs.Prelude.{◌≡◌, ◌≤◌, drop, vec_len, vec_capacity};

use crate::memory::Memory;
use std::alloc::Global;
use std::marker::Model;

/// At most 8,192 bytes, in room that is made once.
#[derive(Drop)]
pub struct Unread {
    bytes: Vec<u8>,
    start: usize,
}

impl Model for Unread {
    ghost use Rattle.std.specs.Prelude.{ℕ, List, ◌≤◌, drop, vec_len, vec_capacity};

    ghost Value = { List ℕ };

    ghost view = { λ u. drop u.start u.bytes.items };

    ghost invariant = { λ u.
        (u.start ≤ vec_len u.bytes) × (vec_len u.bytes ≤ 8192) × (8192 ≤ vec_capacity u.bytes) };
}

impl Unread {
    ghost use Rattle.std.specs.Prelude.{◌≡◌, ◌≤◌, ◌-◌, ◌++◌, [], length, take, drop, min, IfOk};

    /// How many bytes there is room for.
    pub const ROOM: usize = 8192;

    /// No bytes.
    pub fn new(alloc: Global) -> Result<Unread, Memory>
        ensures { IfOk result (λ u. u ≡ []) }
    {
        Ok(Unread {
            bytes: Vec::with_capacity(alloc, Unread::ROOM)?,
            start: 0,
        })
    }

    /// The same bytes.
    pub fn copy(&self, alloc: Global) -> Result<Unread, Memory>
        ensures { IfOk result (λ u. u ≡ self.now) }
    {
        let mut unread = Unread::new(alloc)?;
        unread.feed(self.as_slice());
        Ok(unread)
    }

    /// The bytes, in order.
    pub fn as_slice(&self) -> &[u8]
        ensures bytes { result.now ≡ self.now }
        ensures few { length result.now ≤ 8192 }
    {
        &self.bytes[self.start..]
    }

    /// Takes as many of the bytes as fit.
    pub fn feed(&mut self, bytes: &[u8]) -> usize
        ensures count { result ≡ min (length bytes.now) (8192 - length self.old) }
        ensures more { self.new ≡ self.old ++ take result bytes.now }
    {
        drop_first(&mut self.bytes, self.start);
        self.start = 0;
        let n = bytes.len().min(Unread::ROOM - self.bytes.len());
        if self.bytes.extend_from_slice(&bytes[..n]).is_err() {
            unreachable!()
        }
        n
    }

    /// Drops all bytes.
    pub fn clear(&mut self)
        ensures { self.new ≡ [] }
    {
        self.bytes.clear();
        self.start = 0;
    }

    /// Drops the first bytes, which were read.
    pub fn skip(&mut self, n: usize)
        requires { n ≤ length self.old }
        ensures { self.new ≡ drop n self.old }
    {
        self.start += n;
    }
}

/// Drops the first bytes. Where those are all, none is moved.
fn drop_first(bytes: &mut Vec<u8>, n: usize)
    requires { n ≤ vec_len bytes.old }
    ensures items { bytes.new.items ≡ drop n bytes.old.items }
    ensures room { vec_capacity bytes.new ≡ vec_capacity bytes.old }
{
    if n == bytes.len() {
        bytes.clear();
    } else {
        bytes.drain(..n);
    }
}
