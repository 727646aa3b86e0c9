//! What a session keeps of its asks.

ghost use Rattle.std.specs.Prelude.{◌≡◌, ◌+◌, ◌<◌, ◌++◌, ◌∷◌, [], OnOk, OnErr};
ghost use Rattle.gateway_desk.specs.Lines.{slip_of, made, got, told};

use crate::receipt::Receipt;
use std::alloc::{AllocError, Global};
use std::marker::Model;
use std::sync::ledger::{Book, Ledger, Share};
use transformers::Relation;

/// What a session asked, was given, or was told that another session was given.
#[derive(Drop)]
pub enum Note<R: Relation> {
    /// the number of the ask's entry
    Asked(u32),
    Got(Receipt<R>),
    Told(Receipt<R>),
}

impl<R: Relation> Note<R> {
    ghost use Rattle.gateway_desk.specs.Lines.{line_of, is_made};

    /// Whether it is an ask.
    fn is_ask(&self) -> bool
        ensures { result ≡ is_made (line_of self.now) }
    {
        match self {
            Note::Asked(_) => true,
            Note::Got(_) | Note::Told(_) => false,
        }
    }
}

/// A session's connection, its share of the ledger of asks, and its notes in order.
#[derive(Drop)]
pub struct Pass<R: Relation, L: Ledger> {
    conn: u32,
    share: Share<L>,
    notes: Vec<Note<R>>,
    /// for so many more notes there is room
    places: usize,
}

impl<R: Relation, L: Ledger> Model for Pass<R, L> {
    ghost use Rattle.std.specs.Prelude.{◌≡◌, ◌+◌, ◌≤◌, map, count_by, vec_len, vec_capacity};
    ghost use Rattle.gateway_desk.specs.Held.{Held};
    ghost use Rattle.gateway_desk.specs.Lines.{line_of, is_made};

    ghost Value = { Held };

    ghost view = { λ p. record {
      conn = p.conn;
      lines = map line_of p.notes.items;
      amount = p.share.amount;
      places = p.places;
    } };

    ghost invariant = { λ p. (p.share.parts ≡ 1)
        × (p.share.amount ≡ count_by is_made (map line_of p.notes.items))
        × (p.places ≤ 2) × (vec_len p.notes + p.places ≤ vec_capacity p.notes) };
}

/// What closes the connection of a pass that is lost: a pass alone gives one, and of its own
/// connection.
#[derive(Drop)]
pub struct Stub {
    conn: u32,
}

impl Model for Stub {
    ghost use Rattle.std.specs.Prelude.{ℕ};

    ghost Value = { ℕ };

    ghost view = { λ s. s.conn };
}

impl Stub {
    /// The connection.
    pub(crate) fn conn(&self) -> u32
        ensures { result ≡ self.now }
    {
        self.conn
    }
}

impl<R: Relation, L: Ledger> Pass<R, L> {
    ghost use Rattle.std.specs.Prelude.{map, count_by};
    ghost use Rattle.gateway_desk.specs.Lines.{line_of, is_made};

    /// The pass of this connection, with a part of the ledger that counts nothing.
    pub(crate) fn new(alloc: Global, conn: u32, share: Share<L>) -> Pass<R, L>
        requires part { share.parts ≡ 1 }
        requires amount { share.amount ≡ 0 }
        ensures conn { result.conn ≡ conn }
        ensures lines { result.lines ≡ [] }
        ensures amount { result.amount ≡ 0 }
    {
        Pass {
            conn,
            share,
            notes: Vec::new(alloc),
            places: 0,
        }
    }

    /// The connection.
    pub fn conn(&self) -> u32
        ensures { result ≡ self.now.conn }
    {
        self.conn
    }

    /// What closes its connection, should the pass be lost.
    pub fn stub(&self) -> Stub
        ensures { result ≡ self.now.conn }
    {
        Stub { conn: self.conn }
    }

    /// Its notes, oldest first.
    pub fn notes(&self) -> &[Note<R>]
        ensures lines { map line_of result.now ≡ self.now.lines }
        ensures amount { self.now.amount ≡ count_by is_made self.now.lines }
    {
        self.notes.as_slice()
    }

    /// How many asks it notes, which are those that its share of the ledger counts.
    pub fn made(&self) -> u64
        ensures { result ≡ self.now.amount }
    {
        self.notes.iter().filter(|note| note.is_ask()).count() as u64
    }

    /// Makes the places of an ask and of its receipt.
    pub(crate) fn make_places(&mut self) -> Result<(), AllocError>
        ensures ok { OnOk result (self.new ≡ record self.old { places = 2 }) }
        ensures err { OnErr result (self.new ≡ self.old) }
        ensures conn { self.new.conn ≡ self.old.conn }
    {
        self.notes.reserve(2)?;
        self.places = 2;
        Ok(())
    }

    /// Notes an ask, which the book counts.
    pub(crate) fn count(&mut self, book: &mut Book<L>, number: u32)
        requires { 0 < self.old.places }
        ensures book { book.new.total ≡ book.old.total + 1 }
        ensures conn { self.new.conn ≡ self.old.conn }
        ensures lines { self.new.lines ≡ self.old.lines ++ made number ∷ [] }
        ensures amount { self.new.amount ≡ self.old.amount + 1 }
        ensures places { self.new.places + 1 ≡ self.old.places }
    {
        book.add(&mut self.share, 1);
        self.notes.push_reserved(Note::Asked(number));
        self.places -= 1;
    }

    /// Notes an answer that the session was given. Its place was made by the ask, so this takes no
    /// memory.
    pub fn keep(&mut self, receipt: Receipt<R>)
        requires { 0 < self.old.places }
        ensures lines { self.new.lines ≡ self.old.lines ++ got (slip_of receipt) ∷ [] }
        ensures conn { self.new.conn ≡ self.old.conn }
        ensures amount { self.new.amount ≡ self.old.amount }
        ensures places { self.new.places + 1 ≡ self.old.places }
    {
        self.notes.push_reserved(Note::Got(receipt));
        self.places -= 1;
    }

    /// Ends it: the book counts its asks no more.
    pub(crate) fn spend(self, book: &mut Book<L>)
        ensures { book.new.total + self.amount ≡ book.old.total }
    {
        let made = self.made();
        let Pass {
            conn: _,
            mut share,
            notes: _,
            places: _,
        } = self;
        book.sub(&mut share, made);
    }

    /// Notes an answer that another session was given.
    pub fn told(&mut self, receipt: &Receipt<R>) -> Result<(), AllocError>
        ensures ok { OnOk result (self.new.lines
            ≡ self.old.lines ++ told (slip_of receipt.now) ∷ []) }
        ensures err { OnErr result (self.new ≡ self.old) }
        ensures conn { self.new.conn ≡ self.old.conn }
        ensures amount { self.new.amount ≡ self.old.amount }
        ensures places { self.new.places ≡ self.old.places }
    {
        let copy = receipt.copy()?;
        self.notes.reserve(self.places + 1)?;
        self.notes.push_reserved(Note::Told(copy));
        Ok(())
    }
}
