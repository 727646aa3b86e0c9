//! What wakes a session when its answer is there.

ghost use Rattle.std.specs.Prelude.{◌≤◌, vec_len};

use journal_book::{Event, Journal};
use std::alloc::{AllocError, Global};
use std::sync::Condvar;
use transformers::Relation;

/// As many as connections may be open.
const BELLS: usize = 256;

/// The connection that the entry with this number answers.
fn answered_at<R: Relation>(journal: &Journal<R>, number: usize) -> Option<u32> {
    match &journal.get(number)?.event {
        Event::Answered { conn, .. } => Some(*conn),
        _ => None,
    }
}

/// One for each of 256 connections that follow each other: an answer wakes its own session, and
/// hardly another one.
#[derive(Drop)]
pub struct Bells {
    all: Vec<Condvar>,
    ghost enough: { 256 ≤ vec_len all },
}

impl Bells {
    /// Bells for all connections.
    pub fn new(alloc: Global) -> Result<Bells, AllocError> {
        let mut all = Vec::with_capacity(alloc, BELLS)?;
        'each: for _ in 0..BELLS {
            all.push(Condvar::new())?;
        }
        Ok(Bells::of_all(all))
    }

    /// These bells.
    fn of_all(all: Vec<Condvar>) -> Bells
        requires { 256 ≤ vec_len all }
    {
        Bells { all }
    }

    /// That of a connection.
    pub fn of(&self, conn: u32) -> &Condvar {
        &self.all[conn as usize % BELLS]
    }

    /// Wakes those who are answered by the entries from this number on, but for the first of them,
    /// and answers its connection: who is woken while the lock is held has to wait for it once
    /// more.
    pub fn ring<R: Relation>(&self, journal: &Journal<R>, from: usize) -> Option<u32> {
        let mut first = None;
        'each: for number in from..journal.len() {
            if let Some(conn) = answered_at(journal, number) {
                if first.is_none() {
                    first = Some(conn);
                } else {
                    self.of(conn).notify_all();
                }
            }
        }
        first
    }

    /// Wakes the one who waits on this connection.
    pub fn wake(&self, conn: Option<u32>) {
        if let Some(conn) = conn {
            self.of(conn).notify_all();
        }
    }

    /// Wakes all.
    pub fn ring_all(&self) {
        'each: for bell in &self.all {
            bell.notify_all();
        }
    }
}
