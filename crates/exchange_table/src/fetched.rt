//! The pieces that open exchanges have fetched.

ghost use Rattle.std.specs.Prelude.{◌≡◌, ◌≤◌, ◌∷◌, ◌++◌, [], true, false, filter, vec_capacity, vec_len, IfOk, OnErr, OnOk};
ghost use Rattle.exchange_model.specs.Matters.{is_piece_of};
ghost use Rattle.exchange_model.specs.Hearing.{is_of_none};
ghost use Rattle.std.specs.List.{list_any};
ghost use Rattle.exchange_table.specs.Fetched.{AreOwned, is_not_of};
ghost use Rattle.exchange_table.specs.Places.{RiseBy};
ghost use Rattle.exchange_table.specs.Tables.{opening_of};

use crate::owners::{drop_owners, is_owner, note_owner, owner_place};
use crate::places::is_opened;
use exchange_model::{Exchange, Piece};
use std::alloc::{AllocError, Global};
use std::marker::Model;

/// The pieces that open exchanges have fetched, in the order of the entries in which they were
/// heard. One that goes in a single message has none here.
#[derive(Drop)]
pub struct Fetched {
    pieces: Vec<Piece>,
    /// the openings of the exchanges that they are of, in order
    owners: Vec<u32>,
}

impl Model for Fetched {
    ghost use Rattle.std.specs.Prelude.{vec_capacity, vec_len};
    ghost use Rattle.exchange_table.specs.Fetched.{AreOwned, FetchedValue};
    ghost use Rattle.exchange_table.specs.Tables.{has_room};

    ghost Value = { FetchedValue };

    ghost view = { λ t. record {
      pieces = t.pieces.items;
      room = has_room (vec_len t.pieces) (vec_capacity t.pieces)
          (vec_len t.owners) (vec_capacity t.owners);
    } };

    ghost invariant = { λ t. AreOwned t.pieces.items t.owners.items };
}

impl Fetched {
    /// Nothing was fetched.
    pub fn new(alloc: Global) -> Fetched
        ensures { result.pieces ≡ [] }
    {
        Fetched {
            pieces: Vec::new(alloc),
            owners: Vec::new(alloc),
        }
    }

    /// Makes room for one more, so that noting it takes no memory.
    pub fn make_room(&mut self) -> Result<(), AllocError>
        ensures same { self.new.pieces ≡ self.old.pieces }
        ensures room { OnOk result (self.new.room ≡ true) }
        ensures wanted { OnErr result (self.old.room ≡ false) }
    {
        self.pieces.try_reserve(1)?;
        self.owners.try_reserve(1)?;
        Ok(())
    }

    /// Notes that the exchange with this opening fetched a piece more, which was heard in the entry
    /// with this number.
    pub fn push_in_room(&mut self, opening: u32, number: u32)
        requires { self.old.room ≡ true }
        ensures { self.new.pieces
            ≡ self.old.pieces ++ record { opening = opening; number = number } ∷ [] }
    {
        note_owner(&mut self.owners, opening);
        self.pieces.push_reserved(Piece { opening, number });
    }

    /// All of them, in the order of their entries.
    pub fn as_slice(&self) -> &[Piece]
        ensures { result.now ≡ self.now.pieces }
    {
        &self.pieces
    }

    /// Among which those of the exchange with this opening are, in order: none, where it has none.
    pub fn among(&self, opening: u32) -> &[Piece]
        ensures { filter (is_piece_of opening) result.now
            ≡ filter (is_piece_of opening) self.now.pieces }
    {
        pieces_for(&self.pieces, &self.owners, opening)
    }

    /// Whether the exchange with this opening has fetched any.
    pub fn has_any_of(&self, opening: u32) -> bool
        ensures { result ≡ list_any (is_piece_of opening) self.now.pieces }
    {
        is_owner(&self.owners, opening)
    }

    /// Drops the pieces of the exchange with this opening. It takes no memory.
    pub fn drop_of(&mut self, opening: u32)
        ensures pieces { self.new.pieces ≡ filter (is_not_of opening) self.old.pieces }
        ensures room { self.old.room ≡ true → self.new.room ≡ true }
    {
        drop_owned(&mut self.pieces, &mut self.owners, opening);
    }

    /// Drops the pieces of these exchanges, which are in the order of their openings. It takes no
    /// memory.
    pub fn drop_all(&mut self, over: &[Exchange])
        requires { RiseBy opening_of over.now }
        ensures pieces { self.new.pieces ≡ filter (is_of_none over.now) self.old.pieces }
        ensures room { self.old.room ≡ true → self.new.room ≡ true }
    {
        drop_all_owned(&mut self.pieces, &mut self.owners, over);
    }

    /// The same pieces.
    pub fn copy(&self, alloc: Global) -> Result<Fetched, AllocError>
        ensures { IfOk result (λ t. t.pieces ≡ self.now.pieces) }
    {
        Ok(Fetched {
            pieces: Vec::from_slice(alloc, &self.pieces)?,
            owners: Vec::from_slice(alloc, &self.owners)?,
        })
    }
}

/// All pieces, where any is of the exchange with this opening, and else none.
fn pieces_for<'a>(pieces: &'a [Piece], owners: &[u32], opening: u32) -> &'a [Piece]
    requires { AreOwned pieces.now owners.now }
    ensures { filter (is_piece_of opening) result.now ≡ filter (is_piece_of opening) pieces.now }
{
    match owner_place(owners, opening) {
        Some(_) => pieces,
        None => &[],
    }
}

/// Drops the pieces of the exchange with this opening.
fn drop_pieces_of(pieces: &mut Vec<Piece>, opening: u32)
    ensures pieces { pieces.new.items ≡ filter (is_not_of opening) pieces.old.items }
    ensures fewer { vec_len pieces.new ≤ vec_len pieces.old }
    ensures capacity { vec_capacity pieces.new ≡ vec_capacity pieces.old }
{
    pieces.retain(|piece| piece.opening != opening);
}

/// Drops the pieces of the exchange with this opening, if it has any.
fn drop_owned(pieces: &mut Vec<Piece>, owners: &mut Vec<u32>, opening: u32)
    requires { AreOwned pieces.old.items owners.old.items }
    ensures pieces { pieces.new.items ≡ filter (is_not_of opening) pieces.old.items }
    ensures owned { AreOwned pieces.new.items owners.new.items }
    ensures fewer { (vec_len pieces.new ≤ vec_len pieces.old)
        × (vec_len owners.new ≤ vec_len owners.old) }
    ensures capacity { (vec_capacity pieces.new ≡ vec_capacity pieces.old)
        × (vec_capacity owners.new ≡ vec_capacity owners.old) }
{
    if let Some(place) = owner_place(owners.as_slice(), opening) {
        owners.remove(place);
        drop_pieces_of(pieces, opening);
    }
}

/// Drops the pieces of these exchanges.
fn drop_pieces_of_all(pieces: &mut Vec<Piece>, over: &[Exchange])
    requires { RiseBy opening_of over.now }
    ensures pieces { pieces.new.items ≡ filter (is_of_none over.now) pieces.old.items }
    ensures fewer { vec_len pieces.new ≤ vec_len pieces.old }
    ensures capacity { vec_capacity pieces.new ≡ vec_capacity pieces.old }
{
    pieces.retain(|piece| !is_opened(over, piece.opening));
}

/// Drops the pieces of these exchanges, if they have any.
fn drop_all_owned(pieces: &mut Vec<Piece>, owners: &mut Vec<u32>, over: &[Exchange])
    requires owned { AreOwned pieces.old.items owners.old.items }
    requires rising { RiseBy opening_of over.now }
    ensures pieces { pieces.new.items ≡ filter (is_of_none over.now) pieces.old.items }
    ensures owned { AreOwned pieces.new.items owners.new.items }
    ensures fewer { (vec_len pieces.new ≤ vec_len pieces.old)
        × (vec_len owners.new ≤ vec_len owners.old) }
    ensures capacity { (vec_capacity pieces.new ≡ vec_capacity pieces.old)
        × (vec_capacity owners.new ≡ vec_capacity owners.old) }
{
    let count = owners.len();
    drop_owners(owners, over);
    if owners.len() < count {
        drop_pieces_of_all(pieces, over);
    }
}
