//! How what was drafted comes into what a core keeps.

ghost use Rattle.std.specs.Prelude.{◌≡◌, ◌≤◌, ◌<◌, ◌+◌, ◌∷◌, ◌++◌, [], map, length, true, vec_len, vec_capacity};
ghost use Rattle.std.specs.VecDeque.{deque_len, deque_capacity};
ghost use Rattle.journal_book.specs.Views.{event_of, item_of};
ghost use Rattle.exchange_model.specs.Growing.{conns_with};
ghost use Rattle.exchange_model.specs.State.{conns_after, readers_after};
ghost use Rattle.exchange_table.specs.Places.{RiseBy};
ghost use Rattle.exchange_table.specs.Readers.{ask_in};
ghost use Rattle.exchange_core.specs.Drafts.{AllKeep, KeepsConns};
ghost use Rattle.exchange_core.specs.Places.{id_of};
ghost use Rattle.exchange_core.specs.States.{readers_with};
ghost use Rattle.exchange_model.specs.Memory.{most_entries};

use crate::answer::Answer;
use crate::noting::{note_conns, note_readers};
use crate::outgoing::Datagram;
use exchange_model::Conn;
use exchange_table::Readers;
use journal_book::{Entry, Journal};
use std::collections::VecDeque;
use transformers::Relation;

/// Adds an entry, for which there is a place, and notes what it does to the connections, and to
/// those who wait.
fn add_entry<R: Relation>(
    journal: &mut Journal<R>,
    conns: &mut Vec<Conn>,
    readers: &mut Readers,
    entry: Entry<R>,
)
    requires room { 0 < journal.old.room }
    requires few { length journal.old.entries ≤ most_entries }
    requires conns { RiseBy id_of conns.old.items }
    requires readers { RiseBy ask_in readers.old.items }
    requires keeps { KeepsConns (event_of entry.event) }
    ensures entries { journal.new.entries ≡ journal.old.entries ++ item_of entry ∷ [] }
    ensures given { journal.new.given ≡ journal.old.given }
    ensures kept { journal.new.kept ≡ journal.old.kept }
    ensures room { journal.new.room + 1 ≡ journal.old.room }
    ensures conns { conns.new.items
        ≡ conns_after conns.old.items (length journal.old.entries) (event_of entry.event) }
    ensures readers { readers.new.items
        ≡ readers_after readers.old.items (event_of entry.event) }
    ensures conns_rise { RiseBy id_of conns.new.items }
    ensures readers_rise { RiseBy ask_in readers.new.items }
    ensures place { readers.old.room ≡ true → readers.new.room ≡ true }
{
    note_conns(conns, journal.len() as u32, &entry.event);
    note_readers(readers, &entry.event);
    journal.add(entry);
}

/// Adds entries, for which there are places, and notes what they do to the connections, and to
/// those who wait.
pub fn add_all<R: Relation>(
    journal: &mut Journal<R>,
    conns: &mut Vec<Conn>,
    readers: &mut Readers,
    entries: &mut VecDeque<Entry<R>>,
)
    requires room { deque_len entries.old ≤ journal.old.room }
    requires few { length journal.old.entries + deque_len entries.old ≤ most_entries }
    requires conns { RiseBy id_of conns.old.items }
    requires readers { RiseBy ask_in readers.old.items }
    requires keep { AllKeep (map item_of entries.old.items) }
    ensures entries { journal.new.entries ≡ journal.old.entries ++ map item_of entries.old.items }
    ensures given { journal.new.given ≡ journal.old.given }
    ensures kept { journal.new.kept ≡ journal.old.kept }
    ensures room { journal.new.room + deque_len entries.old ≡ journal.old.room }
    ensures conns { conns.new.items
        ≡ conns_with conns.old.items (length journal.old.entries) (map item_of entries.old.items) }
    ensures readers { readers.new.items
        ≡ readers_with readers.old.items (map item_of entries.old.items) }
    ensures place { readers.old.room ≡ true → readers.new.room ≡ true }
    ensures none { entries.new.items ≡ [] }
{
    'each: while let Some(entry) = entries.pop_front() {
        add_entry(journal, conns, readers, entry);
    }
}

/// Puts answers, for which there are places, after those that there are.
pub fn put_answers<R: Relation>(answers: &mut Vec<Answer<R>>, more: &mut VecDeque<Answer<R>>)
    requires { vec_len answers.old + deque_len more.old ≤ vec_capacity answers.old }
    ensures items { answers.new.items ≡ answers.old.items ++ more.old.items }
    ensures none { more.new.items ≡ [] }
{
    'each: while let Some(answer) = more.pop_front() {
        answers.push_reserved(answer);
    }
}

/// Puts datagrams, for which there are places, after those that there are.
pub fn put_sends(sends: &mut VecDeque<Datagram>, more: &mut VecDeque<Datagram>)
    requires { deque_len sends.old + deque_len more.old ≤ deque_capacity sends.old }
    ensures items { sends.new.items ≡ sends.old.items ++ more.old.items }
    ensures none { more.new.items ≡ [] }
{
    'each: while let Some(datagram) = more.pop_front() {
        sends.push_back_reserved(datagram);
    }
}
