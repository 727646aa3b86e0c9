//! Who waits for the open exchanges.

ghost use Rattle.std.specs.Prelude.{◌≡◌, ◌≤◌, ◌<◌, ◌∷◌, ◌++◌, [], true, false, filter, not, vec_capacity, vec_len, IfOk, OnErr, OnOk, Some};
ghost use Rattle.std.specs.List.{AllByRecursion};
ghost use Rattle.exchange_model.specs.declared.kept.Reader.{Reader as Row};
ghost use Rattle.exchange_table.specs.Groups.{AreGrouped};
ghost use Rattle.exchange_table.specs.Places.{IsOnlyAt, RiseBy};
ghost use Rattle.exchange_table.specs.Readers.{ask_in, has_ask, is_on, opening_read, reads};

use crate::groups::{group_of, put_last, reader_place, take_out};
use exchange_model::Reader;
use std::alloc::{AllocError, Global};
use std::marker::Model;

/// Who waits for the open exchanges, in the order of their asks.
#[derive(Drop)]
pub struct Readers {
    rows: Vec<Reader>,
    /// the same ones, those of each exchange together
    groups: Vec<Reader>,
}

impl Model for Readers {
    ghost use Rattle.std.specs.Prelude.{vec_capacity, vec_len};
    ghost use Rattle.exchange_table.specs.Groups.{AreGrouped};
    ghost use Rattle.exchange_table.specs.Readers.{ReadersValue, opening_read};
    ghost use Rattle.exchange_table.specs.Tables.{has_room};

    ghost Value = { ReadersValue };

    ghost view = { λ t. record {
      items = t.rows.items;
      room = has_room (vec_len t.rows) (vec_capacity t.rows)
          (vec_len t.groups) (vec_capacity t.groups);
    } };

    ghost invariant = { λ t. AreGrouped opening_read t.rows.items t.groups.items };
}

impl Readers {
    /// Nobody waits.
    pub fn new(alloc: Global) -> Readers
        ensures { result.items ≡ [] }
    {
        Readers {
            rows: Vec::new(alloc),
            groups: Vec::new(alloc),
        }
    }

    /// All of them, in order.
    pub fn as_slice(&self) -> &[Reader]
        ensures { result.now ≡ self.now.items }
    {
        &self.rows
    }

    /// Those who wait for the exchange with this opening, in order.
    pub fn of(&self, opening: u32) -> &[Reader]
        ensures { result.now ≡ filter (reads opening) self.now.items }
    {
        group_of(&self.groups, opening)
    }

    /// Makes room for one more, so that noting it takes no memory.
    pub fn make_room(&mut self) -> Result<(), AllocError>
        ensures same { self.new.items ≡ self.old.items }
        ensures room { OnOk result (self.new.room ≡ true) }
        ensures wanted { OnErr result (self.old.room ≡ false) }
    {
        self.rows.try_reserve(1)?;
        self.groups.try_reserve(1)?;
        Ok(())
    }

    /// Notes one more who waits.
    pub fn push_in_room(&mut self, reader: Reader)
        requires { self.old.room ≡ true }
        ensures { self.new.items ≡ self.old.items ++ reader ∷ [] }
    {
        put_last(&mut self.groups, reader);
        self.rows.push_reserved(reader);
    }

    /// Takes out who waits for the answer to this ask. It takes no memory.
    pub fn drop_ask(&mut self, ask: u32)
        requires { RiseBy ask_in self.old.items }
        ensures items { self.new.items ≡ filter (λ r. not (has_ask ask r)) self.old.items }
        ensures room { self.old.room ≡ true → self.new.room ≡ true }
    {
        remove(&mut self.rows, &mut self.groups, ask);
    }

    /// Takes out who waits on this connection, which waits for the answer to this ask, or for none.
    /// It takes no memory.
    pub fn drop_conn(&mut self, conn: u32, pending: Option<u32>)
        requires ordered { RiseBy ask_in self.old.items }
        requires waits { AllByRecursion (λ (r : Row). r.conn ≡ conn → pending ≡ Some r.ask)
            self.old.items }
        ensures { self.new.items ≡ filter (λ r. not (is_on conn r)) self.old.items }
    {
        remove_on(&mut self.rows, &mut self.groups, conn, pending);
    }

    /// The same ones.
    pub fn copy(&self, alloc: Global) -> Result<Readers, AllocError>
        ensures { IfOk result (λ t. t.items ≡ self.now.items) }
    {
        Ok(Readers {
            rows: Vec::from_slice(alloc, &self.rows)?,
            groups: Vec::from_slice(alloc, &self.groups)?,
        })
    }
}

/// Takes out the reader of this ask, who stands in this place.
fn remove_at(rows: &mut Vec<Reader>, groups: &mut Vec<Reader>, ask: u32, place: usize)
    requires grouped { AreGrouped opening_read rows.old.items groups.old.items }
    requires ordered { RiseBy ask_in rows.old.items }
    requires inside { place < vec_len rows.old }
    requires there { IsOnlyAt (has_ask ask) rows.old.items place }
    ensures rows { rows.new.items ≡ filter (λ r. not (has_ask ask r)) rows.old.items }
    ensures groups { AreGrouped opening_read rows.new.items groups.new.items }
    ensures fewer { (vec_len rows.new ≤ vec_len rows.old)
        × (vec_len groups.new ≤ vec_len groups.old) }
    ensures capacity { (vec_capacity rows.new ≡ vec_capacity rows.old)
        × (vec_capacity groups.new ≡ vec_capacity groups.old) }
{
    let reader = rows.remove(place);
    take_out(groups, reader.opening, ask, place);
}

/// Takes out the reader of this ask.
fn remove(rows: &mut Vec<Reader>, groups: &mut Vec<Reader>, ask: u32)
    requires grouped { AreGrouped opening_read rows.old.items groups.old.items }
    requires ordered { RiseBy ask_in rows.old.items }
    ensures rows { rows.new.items ≡ filter (λ r. not (has_ask ask r)) rows.old.items }
    ensures groups { AreGrouped opening_read rows.new.items groups.new.items }
    ensures fewer { (vec_len rows.new ≤ vec_len rows.old)
        × (vec_len groups.new ≤ vec_len groups.old) }
    ensures capacity { (vec_capacity rows.new ≡ vec_capacity rows.old)
        × (vec_capacity groups.new ≡ vec_capacity groups.old) }
{
    if let Some(place) = reader_place(rows.as_slice(), ask) {
        remove_at(rows, groups, ask, place);
    }
}

/// Takes out who waits on the connection, which waits for this.
fn remove_on(rows: &mut Vec<Reader>, groups: &mut Vec<Reader>, conn: u32, pending: Option<u32>)
    requires grouped { AreGrouped opening_read rows.old.items groups.old.items }
    requires ordered { RiseBy ask_in rows.old.items }
    requires waits { AllByRecursion (λ (r : Row). r.conn ≡ conn → pending ≡ Some r.ask)
        rows.old.items }
    ensures rows { rows.new.items ≡ filter (λ r. not (is_on conn r)) rows.old.items }
    ensures groups { AreGrouped opening_read rows.new.items groups.new.items }
{
    let Some(ask) = pending else {
        return;
    };
    let Some(place) = reader_place(rows.as_slice(), ask) else {
        return;
    };
    if rows[place].conn == conn {
        remove_at(rows, groups, ask, place);
    }
}
