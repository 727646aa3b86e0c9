//! The copies of a journal.

ghost use Rattle.std.specs.Prelude.{ℕ, ◌≡◌, ◌≤◌, ◌<◌, ◌∷◌, ◌++◌, [], List, length, IfOk, OnOk};
ghost use Rattle.std.specs.Option.{option_to_list};
ghost use Rattle.limits.specs.declared.TheConstants.{MAX_ENTRIES};
ghost use Rattle.exchange_model.specs.Rotating.{copies_with};
ghost use Rattle.journal_book.specs.Views.{event_of, item_of};
ghost use Rattle.journal_copies.specs.Copying.{AreCounted, copied_by, peer_of};
ghost use Rattle.journal_copies.specs.Marking.{AreMarks};

use crate::marks::Marks;
use journal_book::{Done, Entry, Event, Journal, Mark};
use std::alloc::{AllocError, Global};
use transformers::Relation;
use uri_map::Peer;

/// A journal that begins with copies, and has a place for one more entry.
#[derive(Drop)]
pub struct Copies<R: Relation> {
    pub journal: Journal<R>,
    /// what they count
    pub bytes: u64,
    /// of which endpoints they are, one for each copy
    pub peers: Vec<Peer>,
}

/// The peer of what was sent or heard.
fn peer_in<R: Relation>(event: &Event<R>) -> Option<Peer>
    ensures { result ≡ peer_of (event_of event.now) }
{
    match event {
        Event::Carried { done, .. } => match done {
            Done::Sent { peer, .. } | Done::Heard { peer, .. } => Some(*peer),
            Done::Asked(_, _) => None,
        },
        _ => None,
    }
}

/// Adds the peer of what was sent or heard.
fn push_peer<R: Relation>(peers: &mut Vec<Peer>, event: &Event<R>) -> Result<(), AllocError>
    ensures { OnOk result (peers.new.items
        ≡ peers.old.items ++ option_to_list (peer_of (event_of event.now))) }
{
    if let Some(peer) = peer_in(event) {
        peers.push(peer)?;
    }
    Ok(())
}

impl<R: Relation> Copies<R> {
    /// None yet.
    fn new(alloc: Global) -> Result<Copies<R>, AllocError>
        ensures none { IfOk result (λ c. c.journal.entries ≡ []) }
        ensures counted { IfOk result (λ c. AreCounted c) }
    {
        let mut journal = Journal::new(alloc);
        journal.make_room(1)?;
        Ok(Copies {
            journal,
            bytes: 0,
            peers: Vec::new(alloc),
        })
    }

    /// Adds a copy, and makes the place of the next entry.
    fn push(&mut self, copy: Entry<R>) -> Result<(), AllocError>
        requires { AreCounted self.old }
        ensures entries { OnOk result (self.new.journal.entries
            ≡ self.old.journal.entries ++ item_of copy ∷ []) }
        ensures counted { OnOk result (AreCounted self.new) }
    {
        self.journal.make_room(2)?;
        push_peer(&mut self.peers, &copy.event)?;
        self.bytes = self.bytes.saturating_add(copy.size());
        self.journal.add(copy);
        Ok(())
    }

    /// Adds a copy of the entry, which has this number in its journal, where it is marked.
    fn add(&mut self, entry: &Entry<R>, number: u32, mark: Option<Mark>) -> Result<(), AllocError>
        requires { AreCounted self.old }
        ensures entries { OnOk result (self.new.journal.entries
            ≡ self.old.journal.entries ++ copied_by mark number (item_of entry.now)) }
        ensures counted { OnOk result (AreCounted self.new) }
    {
        let Some(mark) = mark else {
            return Ok(());
        };
        if let Some(copy) = entry.carried(number, mark)? {
            self.push(copy)?;
        }
        Ok(())
    }
}

/// The copies of the entries that are marked.
pub fn copies_of<R: Relation>(
    alloc: Global,
    journal: &Journal<R>,
    marks: &Marks,
) -> Result<Copies<R>, AllocError>
    requires few { length journal.now.entries ≤ MAX_ENTRIES }
    requires whole { journal.now.given ≡ 0 }
    ensures entries { (t : ℕ) (gs : List ℕ) → AreMarks t journal.now.entries gs marks.now
        → IfOk result (λ c. c.journal.entries ≡ copies_with t journal.now.entries gs) }
    ensures counted { IfOk result (λ c. AreCounted c) }
{
    let mut copies = Copies::new(alloc)?;
    'each: for number in 0..journal.len() {
        let Some(entry) = journal.get(number) else {
            unreachable!()
        };
        copies.add(entry, number as u32, marks.get(number))?;
    }
    Ok(copies)
}
