//! The open connections, by their numbers.

ghost use Rattle.std.specs.Prelude.{◌≡◌, ◌≢◌, ◌<◌, ◌∷◌, ◌++◌, [], None, false, All, map, nat_lt};
ghost use Rattle.std.specs.Prelude.{IfSome, OnOk, OnErr, filter, not};
ghost use Rattle.gateway_connections.specs.Rows.{AreInOrder, HasNumber, IsClosed, current_of};
ghost use Rattle.gateway_connections.specs.Rows.{IsNoted, settled, put_back};

use crate::changed::Changed;
use crate::inbox::{Inbox, Next, Spare};
use crate::row::Row;
use http_edge::Memory;
use std::alloc::Global;
use std::marker::Model;

/// The open connections, and the bytes of each that aren't asked yet. It can go back to what it
/// held at its mark.
pub struct Table {
    alloc: Global,
    rows: Vec<Row>,
    changed: Changed,
}

/// As derived; but written here, how all that it has is dropped is proved in this crate alone.
impl Drop for Table {
    fn drop(self) {
        let Table {
            alloc: _,
            rows: _,
            changed: _,
        } = self;
    }
}

impl Model for Table {
    ghost use Rattle.std.specs.Prelude.{◌-◌, All, vec_capacity, vec_len};
    ghost use Rattle.gateway_connections.specs.Inlets.{TableValue};
    ghost use Rattle.gateway_connections.specs.Rows.{AreInOrder, IsNoted, IsWhole};
    ghost use Rattle.gateway_connections.specs.Rows.{current_of, marked_of};

    ghost Value = { TableValue };

    ghost view = { λ t. record {
      current = current_of t.rows.items;
      marked = marked_of t.rows.items;
      room = vec_capacity t.rows - vec_len t.rows;
    } };

    ghost invariant = { λ t. AreInOrder t.rows.items
        × All IsWhole t.rows.items
        × IsNoted t.changed t.rows.items };
}

impl Table {
    ghost use Rattle.gateway_connections.specs.Inlets.{AreKept, IsAbove, fresh, appended, without};
    ghost use Rattle.gateway_connections.specs.Inlets.{is_full_at};
    ghost use Rattle.gateway_connections.specs.Reads.{ReadsOf};

    /// No connection.
    pub fn new(alloc: Global) -> Table
        ensures current { result.current ≡ [] }
        ensures marked { result.marked ≡ [] }
    {
        Table {
            alloc,
            rows: Vec::new(alloc),
            changed: Changed::none(),
        }
    }

    /// What every table keeps. It does nothing.
    pub fn keeps(&self)
        ensures current { AreKept self.now.current }
        ensures marked { AreKept self.now.marked }
    {
        let _rows = &self.rows;
    }

    /// Makes all that the next connection that opens takes.
    pub fn make_room(&mut self) -> Result<Spare, Memory>
        ensures current { self.new.current ≡ self.old.current }
        ensures marked { self.new.marked ≡ self.old.marked }
        ensures room { OnOk result (0 < self.new.room) }
    {
        self.rows.try_reserve(1)?;
        Spare::new(self.alloc)
    }

    /// Opens a connection, which has a number above all others. It takes no memory.
    pub fn insert(&mut self, spare: Spare, number: u32)
        requires above { IsAbove number self.old }
        requires room { 0 < self.old.room }
        ensures opened { self.new.current ≡ self.old.current ++ fresh number ∷ [] }
        ensures marked { self.new.marked ≡ self.old.marked }
    {
        self.changed.note(self.rows.len());
        self.rows.push_reserved(Row {
            inbox: Inbox::of(spare, number),
            fresh: true,
            closed: false,
        });
    }

    /// Takes the connection out. It takes no memory.
    pub fn remove(&mut self, number: u32)
        ensures current { self.new.current ≡ without number self.old.current }
        ensures marked { self.new.marked ≡ self.old.marked }
    {
        if let Some(place) = place_of(&self.rows, number) {
            if self.rows[place].fresh {
                let _row = self.rows.remove(place);
            } else {
                self.rows[place].closed = true;
                self.changed.closed = true;
            }
        }
    }

    /// Whether so many bytes more of the connection would be too many: more than 1,048,576 in all
    /// that wait unread. Where its requests are read as they come in, what the request begun took
    /// doesn't count; where it waits for an answer, all that came counts.
    pub fn passes_limit(&self, number: u32, reads: bool, more: usize) -> bool
        ensures { result ≡ is_full_at number reads more self.now.current }
    {
        match place_of(&self.rows, number) {
            Some(place) => self.rows[place].inbox.passes_limit(reads, more),
            None => false,
        }
    }

    /// Puts bytes after those of the connection that wait. After its last request they are dropped.
    pub fn append(&mut self, number: u32, bytes: &[u8]) -> Result<(), Memory>
        ensures more { OnOk result (self.new.current
            ≡ appended number bytes.now self.old.current) }
        ensures unchanged { OnErr result (self.new.current ≡ self.old.current) }
        ensures marked { self.new.marked ≡ self.old.marked }
    {
        match place_of(&self.rows, number) {
            Some(place) => {
                self.changed.note(place);
                self.rows[place].inbox.append(bytes)
            }
            None => Ok(()),
        }
    }

    /// What the bytes of the connection ask next.
    pub fn next(&mut self, number: u32) -> Result<Next, Memory>
        ensures reads { ReadsOf number result self.old.current self.new.current }
        ensures marked { self.new.marked ≡ self.old.marked }
    {
        match place_of(&self.rows, number) {
            Some(place) => {
                self.changed.note(place);
                self.rows[place].inbox.next()
            }
            None => Ok(Next::Nothing),
        }
    }

    /// Marks the connections as they are, and lets the bytes go that were asked. It goes through
    /// those alone that may have changed, and through all only where one closed.
    pub fn mark(&mut self)
        ensures current { self.new.current ≡ self.old.current }
        ensures marked { self.new.marked ≡ self.old.current }
    {
        mark_changed(&mut self.rows, self.changed);
        drop_closed(&mut self.rows, self.changed.closed);
        self.changed = Changed::none();
    }

    /// Goes back to the connections at the mark. It takes no memory.
    pub fn back(&mut self)
        ensures current { self.new.current ≡ self.old.marked }
        ensures marked { self.new.marked ≡ self.old.marked }
    {
        self.rows.retain(|row| !row.fresh);
        back_all(&mut self.rows);
        self.changed = Changed::none();
    }
}

/// The place of the open connection of that number.
fn place_of(rows: &[Row], number: u32) -> Option<usize>
    requires { AreInOrder rows.now }
    ensures number { IfSome result (λ i. HasNumber rows.now i number) }
    ensures stays { IfSome result (λ i. IsClosed rows.now i false) }
    ensures none { result ≡ None → All (λ x. x.number ≢ number) (current_of rows.now) }
{
    let place = rows.partition_point(
        |row: &Row| -> bool
            ensures { result ≡ nat_lt row.now.inbox.current.number number }
        { row.inbox.number() < number },
    );
    let row = rows.get(place)?;
    if row.inbox.number() == number && !row.closed {
        Some(place)
    } else {
        None
    }
}

/// Marks each, where all at other places are as they were marked.
fn mark_changed(rows: &mut Vec<Row>, changed: Changed)
    requires { IsNoted changed rows.old.items }
    ensures { rows.new.items ≡ map settled rows.old.items }
{
    let end = changed.end.min(rows.len());
    'each: for place in changed.first..end {
        rows[place].mark();
    }
}

/// Lets those go that closed, where any did.
fn drop_closed(rows: &mut Vec<Row>, closed: bool)
    requires { closed ≡ false → All (λ (r : Row). r.closed ≡ false) rows.old.items }
    ensures { rows.new.items ≡ filter (λ (r : Row). not r.closed) rows.old.items }
{
    if closed {
        rows.retain(|row| !row.closed);
    }
}

/// Takes each back to the mark.
fn back_all(rows: &mut Vec<Row>)
    ensures { rows.new.items ≡ map put_back rows.old.items }
{
    'each: for place in 0..rows.len() {
        rows[place].back();
    }
}
