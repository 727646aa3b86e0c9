//! What a step adds, built before anything changes.

ghost use Rattle.std.specs.Prelude.{◌≡◌, ◌+◌, ◌≤◌, ◌<◌, ◌^◌, ◌∷◌, ◌++◌, [], true, List, length, map, sum_by, vec_capacity, vec_len, OnOk};
ghost use Rattle.std.specs.VecDeque.{deque_capacity, deque_len};
ghost use Rattle.ask_model.specs.Sizes.{capped};
ghost use Rattle.journal_book.specs.Entries.{Deed, Sends, Answers, entry_size};
ghost use Rattle.journal_book.specs.Views.{event_of, item_of};
ghost use Rattle.exchange_model.specs.Growing.{conns_with};
ghost use Rattle.exchange_model.specs.State.{State};
ghost use Rattle.exchange_core.specs.Values.{outgoing_of};
ghost use Rattle.exchange_core.specs.Answering.{given_of, answer_entry};
ghost use Rattle.exchange_core.specs.Places.{id_of};
ghost use Rattle.exchange_table.specs.Places.{RiseBy};
ghost use Rattle.exchange_table.specs.Readers.{ask_in};
ghost use Rattle.exchange_core.specs.States.{readers_with};
ghost use Rattle.exchange_core.specs.Drafts.{AllKeep, Drafts, IsAlone, KeepsConns, empty_draft, draft_with, draft_sending, draft_answering};
ghost use Rattle.exchange_model.specs.Memory.{most_entries};

use crate::answer::Answer;
use crate::noting::note_all;
use crate::outgoing::Datagram;
use crate::pouring::{add_all, put_answers, put_sends};
use exchange_model::Conn;
use exchange_table::Readers;
use journal_book::{Entry, Event, Journal};
use message_layer::Bytes;
use std::alloc::{AllocError, Global};
use std::collections::VecDeque;
use std::marker::Model;
use std::sync::Arc;
use transformers::Relation;
use uri_map::Peer;

/// The entries that a step adds, in order, and the datagrams and the answers among them. Its type
/// keeps that none opens or shuts a connection.
#[derive(Drop)]
pub struct Draft<R: Relation> {
    alloc: Global,
    parts: Parts<R>,
    /// the number of the next entry
    next: u32,
    /// what the entries count
    bytes: u64,
}

/// The parts of a draft.
#[derive(Drop)]
struct Parts<R: Relation> {
    entries: VecDeque<Entry<R>>,
    sends: VecDeque<Datagram>,
    answers: VecDeque<Answer<R>>,
}

impl<R: Relation> Model for Draft<R> {
    ghost use Rattle.std.specs.Prelude.{◌≡◌, map, sum_by};
    ghost use Rattle.ask_model.specs.Sizes.{capped};
    ghost use Rattle.journal_book.specs.Entries.{entry_size};
    ghost use Rattle.journal_book.specs.Views.{item_of};
    ghost use Rattle.exchange_core.specs.Values.{outgoing_of};
    ghost use Rattle.exchange_core.specs.Answering.{given_of};
    ghost use Rattle.exchange_core.specs.Drafts.{AllKeep, DraftValue};

    ghost Value = { DraftValue };

    ghost view = { λ d. record {
      next = d.next;
      entries = map item_of d.parts.entries.items;
      sends = map outgoing_of d.parts.sends.items;
      answers = map given_of d.parts.answers.items;
    } };

    ghost invariant = { λ d. (d.bytes
        ≡ capped (sum_by entry_size (map item_of d.parts.entries.items)))
        × AllKeep (map item_of d.parts.entries.items) };
}

impl<R: Relation> Draft<R> {
    /// Nothing yet, where there are so many entries.
    pub fn new(alloc: Global, entries: u32) -> Draft<R>
        ensures { result ≡ empty_draft entries }
    {
        Draft {
            alloc,
            parts: Parts {
                entries: VecDeque::new(alloc),
                sends: VecDeque::new(alloc),
                answers: VecDeque::new(alloc),
            },
            next: entries,
            bytes: 0,
        }
    }

    /// How many entries there are, none of which opens or shuts a connection.
    pub fn len(&self) -> usize
        ensures len { result ≡ length self.now.entries }
        ensures small { result < 2 ^ 63 }
        ensures keep { AllKeep self.now.entries }
    {
        self.parts.entries.len()
    }

    /// What they count. A count above 64 bits stays at the largest.
    pub fn bytes(&self) -> u64
        ensures { result ≡ capped (sum_by entry_size self.now.entries) }
    {
        self.bytes
    }

    /// The number of the next entry.
    pub fn next(&self) -> u32
        ensures { result ≡ self.now.next }
    {
        self.next
    }

    /// Does to connections what the entries do, the first of which has this number.
    pub fn note(&self, conns: &mut Vec<Conn>, first: u32)
        requires ordered { RiseBy id_of conns.old.items }
        requires few { first + length self.now.entries ≤ 4294967295 }
        ensures { conns.new.items ≡ conns_with conns.old.items first self.now.entries }
    {
        note_all(conns, first, &self.parts.entries);
    }

    /// How many datagrams go out.
    pub fn send_count(&self) -> usize
        ensures { result ≡ length self.now.sends }
    {
        self.parts.sends.len()
    }

    /// How many asks are answered.
    pub fn answer_count(&self) -> usize
        ensures { result ≡ length self.now.answers }
    {
        self.parts.answers.len()
    }

    /// Nothing yet, where there are so many entries. What was drafted before is let go; its queues
    /// stay.
    pub fn begin(&mut self, entries: u32)
        ensures { self.new ≡ empty_draft entries }
    {
        self.parts.entries.clear();
        self.parts.sends.clear();
        self.parts.answers.clear();
        self.next = entries;
        self.bytes = 0;
    }

    /// Adds the entries, for which there are places, and notes what they do to the connections, and
    /// to those who wait.
    pub fn pour_entries(
        &mut self,
        journal: &mut Journal<R>,
        conns: &mut Vec<Conn>,
        readers: &mut Readers,
    )
        requires room { length self.old.entries ≤ journal.old.room }
        requires few { length journal.old.entries + length self.old.entries ≤ most_entries }
        requires conns { RiseBy id_of conns.old.items }
        requires readers { RiseBy ask_in readers.old.items }
        ensures entries { journal.new.entries ≡ journal.old.entries ++ self.old.entries }
        ensures given { journal.new.given ≡ journal.old.given }
        ensures kept { journal.new.kept ≡ journal.old.kept }
        ensures room { journal.new.room + length self.old.entries ≡ journal.old.room }
        ensures conns { conns.new.items
            ≡ conns_with conns.old.items (length journal.old.entries) self.old.entries }
        ensures readers { readers.new.items ≡ readers_with readers.old.items self.old.entries }
        ensures place { readers.old.room ≡ true → readers.new.room ≡ true }
        ensures sends { self.new.sends ≡ self.old.sends }
        ensures answers { self.new.answers ≡ self.old.answers }
    {
        add_all(journal, conns, readers, &mut self.parts.entries);
        self.bytes = 0;
    }

    /// Puts the datagrams, for which there are places, after those that there are.
    pub fn pour_sends(&mut self, sends: &mut VecDeque<Datagram>)
        requires { deque_len sends.old + length self.old.sends ≤ deque_capacity sends.old }
        ensures sends { map outgoing_of sends.new.items
            ≡ map outgoing_of sends.old.items ++ self.old.sends }
        ensures answers { self.new.answers ≡ self.old.answers }
    {
        put_sends(sends, &mut self.parts.sends);
    }

    /// Puts the answers, for which there are places, after those that there are.
    pub fn pour_answers(&mut self, answers: &mut Vec<Answer<R>>)
        requires { vec_len answers.old + length self.old.answers ≤ vec_capacity answers.old }
        ensures { map given_of answers.new.items
            ≡ map given_of answers.old.items ++ self.old.answers }
    {
        put_answers(answers, &mut self.parts.answers);
    }

    /// An entry more, which neither sends nor answers.
    pub fn enter(&mut self, entry: Entry<R>) -> Result<(), AllocError>
        requires next { self.old.next < 4294967295 }
        requires keeps { KeepsConns (event_of entry.event) }
        ensures drafts { (S : State) (ds : List Deed) → IsAlone (event_of entry.event)
            → Drafts entry.moment S ds self.old
            → OnOk result (Drafts entry.moment S (ds ++ event_of entry.event ∷ []) self.new) }
        ensures answers { OnOk result (self.new.answers ≡ self.old.answers) }
        ensures next { OnOk result (self.new.next ≡ self.old.next + 1) }
    {
        self.add(entry)?;
        Ok(())
    }

    /// An entry more.
    fn add(&mut self, entry: Entry<R>) -> Result<(), AllocError>
        requires next { self.old.next < 4294967295 }
        requires keeps { KeepsConns (event_of entry.event) }
        ensures { OnOk result (self.new ≡ draft_with (item_of entry) self.old) }
    {
        let size = entry.size();
        self.parts.entries.reserve(1)?;
        self.parts.entries.push_back_reserved(entry);
        self.bytes = self.bytes.saturating_add(size);
        self.next += 1;
        Ok(())
    }

    /// The datagram goes out to the endpoint: an entry more, which shares its bytes.
    pub fn send(
        &mut self,
        moment: u64,
        peer: Peer,
        bytes: &Bytes,
        timeout: Option<u32>,
    ) -> Result<(), AllocError>
        requires { self.old.next < 4294967295 }
        ensures drafts { (S : State) (ds : List Deed) → Drafts moment S ds self.old
            → OnOk result (Drafts moment S (ds ++ Sends peer bytes.now timeout ∷ []) self.new) }
        ensures answers { OnOk result (self.new.answers ≡ self.old.answers) }
        ensures next { OnOk result (self.new.next ≡ self.old.next + 1) }
    {
        self.add_sending(moment, peer, bytes, timeout)?;
        Ok(())
    }

    /// An entry of a datagram that goes out more.
    fn add_sending(
        &mut self,
        moment: u64,
        peer: Peer,
        bytes: &Bytes,
        timeout: Option<u32>,
    ) -> Result<(), AllocError>
        requires { self.old.next < 4294967295 }
        ensures { OnOk result (self.new ≡ draft_sending moment peer bytes.now timeout self.old) }
    {
        let kept = Arc::try_clone(bytes.shared())?;
        let bytes = Arc::try_clone(&kept)?;
        self.add(Entry {
            moment,
            event: Event::Sent {
                peer,
                bytes: kept,
                timeout,
            },
        })?;
        self.parts.sends.reserve(1)?;
        self.parts
            .sends
            .push_back_reserved(Datagram { peer, bytes });
        Ok(())
    }

    /// An ask is answered: an entry more.
    pub fn answer(&mut self, answer: Answer<R>) -> Result<(), AllocError>
        requires { self.old.next < 4294967295 }
        ensures drafts { (S : State) (ds : List Deed) → answer.number ≡ self.old.next
            → Drafts answer.moment S ds self.old
            → OnOk result (Drafts answer.moment S
            (ds ++ Answers answer.conn answer.ask answer.finding.grounds ∷ []) self.new) }
        ensures answers { OnOk result (self.new.answers
            ≡ self.old.answers ++ given_of answer ∷ []) }
        ensures entries { OnOk result (self.new.entries
            ≡ self.old.entries ++ answer_entry (given_of answer) ∷ []) }
        ensures next { OnOk result (self.new.next ≡ self.old.next + 1) }
    {
        self.add_answer(answer)?;
        Ok(())
    }

    /// An entry of an answer more.
    fn add_answer(&mut self, answer: Answer<R>) -> Result<(), AllocError>
        requires { self.old.next < 4294967295 }
        ensures { OnOk result (self.new ≡ draft_answering (given_of answer) self.old) }
    {
        let grounds = answer.finding.grounds().copy()?;
        self.add(Entry {
            moment: answer.moment,
            event: Event::Answered {
                conn: answer.conn,
                ask: answer.ask,
                grounds,
            },
        })?;
        self.parts.answers.reserve(1)?;
        self.parts.answers.push_back_reserved(answer);
        Ok(())
    }
}
