//! What entries do to the connections, and to those who wait.

ghost use Rattle.std.specs.Prelude.{◌≡◌, ◌==◌, ◌+◌, ◌≤◌, filter, length, map, not, true};
ghost use Rattle.std.specs.VecDeque.{deque_len};
ghost use Rattle.journal_book.specs.Views.{event_of, item_of};
ghost use Rattle.exchange_model.specs.Growing.{conns_with};
ghost use Rattle.exchange_model.specs.State.{conns_after, pend, readers_after};
ghost use Rattle.exchange_table.specs.Places.{RiseBy};
ghost use Rattle.exchange_table.specs.Readers.{ask_in};
ghost use Rattle.exchange_core.specs.Drafts.{AllKeep, KeepsConns};
ghost use Rattle.exchange_core.specs.Places.{id_of};

use crate::places::conn_place;
use exchange_model::Conn;
use exchange_table::Readers;
use journal_book::{Entry, Event};
use std::collections::VecDeque;
use transformers::Relation;

/// Sets what the connection with this number waits for.
fn set_pending(conns: &mut [Conn], id: u32, pending: Option<u32>)
    requires { RiseBy id_of conns.old }
    ensures { conns.new ≡ map (pend id pending) conns.old }
{
    if let Some(place) = conn_place(conns, id) {
        conns[place].pending = pending;
    }
}

/// What an entry with this number does to the connections, where it opens and shuts none.
pub fn note_conns<R: Relation>(conns: &mut Vec<Conn>, number: u32, event: &Event<R>)
    requires ordered { RiseBy id_of conns.old.items }
    requires keeps { KeepsConns (event_of event.now) }
    ensures conns { conns.new.items ≡ conns_after conns.old.items number (event_of event.now) }
    ensures ordered { RiseBy id_of conns.new.items }
{
    match event {
        Event::Opened(_) | Event::Shut(_) => {}
        Event::Asked(conn, _) => set_pending(conns, *conn, Some(number)),
        Event::Answered { conn, .. } => set_pending(conns, *conn, None),
        _ => {}
    }
}

/// What these entries do to the connections, the first of which has this number.
pub fn note_all<R: Relation>(conns: &mut Vec<Conn>, first: u32, entries: &VecDeque<Entry<R>>)
    requires ordered { RiseBy id_of conns.old.items }
    requires keep { AllKeep (map item_of entries.now.items) }
    requires few { first + deque_len entries.now ≤ 4294967295 }
    ensures { conns.new.items
        ≡ conns_with conns.old.items first (map item_of entries.now.items) }
{
    'each: for place in 0..entries.len() {
        note_conns(conns, first + place as u32, &entries[place].event);
    }
}

/// Takes out the connection with this number.
pub fn drop_conn(conns: &mut Vec<Conn>, id: u32)
    requires { RiseBy id_of conns.old.items }
    ensures { conns.new.items ≡ filter (λ x. not (x.id == id)) conns.old.items }
{
    if let Some(place) = conn_place(conns.as_slice(), id) {
        conns.remove(place);
    }
}

/// What an entry does to those who wait, where it shuts no connection.
pub fn note_readers<R: Relation>(readers: &mut Readers, event: &Event<R>)
    requires ordered { RiseBy ask_in readers.old.items }
    requires keeps { KeepsConns (event_of event.now) }
    ensures readers { readers.new.items ≡ readers_after readers.old.items (event_of event.now) }
    ensures ordered { RiseBy ask_in readers.new.items }
    ensures place { readers.old.room ≡ true → readers.new.room ≡ true }
{
    match event {
        Event::Shut(_) => {}
        Event::Answered { ask, .. } => readers.drop_ask(*ask),
        _ => {}
    }
}
