//! What entries count against the limit of a journal.

ghost use Rattle.std.specs.Prelude.{◌≡◌};
ghost use Rattle.ask_model.specs.Sizes.{capped};
ghost use Rattle.journal_book.specs.Entries.{grounds_size, done_size, deed_size, entry_size};
ghost use Rattle.journal_book.specs.Views.{grounds_of, plain_done, event_of, item_of};

use crate::entry::{Done, Entry, Event, Grounds};
use ask_model::incoming_size;
use transformers::Relation;

impl Grounds {
    /// Four bytes for each number.
    pub fn size(&self) -> u64
        ensures { result ≡ capped (grounds_size (grounds_of self.now)) }
    {
        match self {
            Grounds::Live(numbers) | Grounds::Kept(numbers) => {
                (numbers.as_slice().len() as u64).saturating_mul(4)
            }
            Grounds::Fault(_, _) => 4,
        }
    }
}

impl<R: Relation> Done<R> {
    /// The bytes of its byte strings.
    fn size(&self) -> u64
        ensures { result ≡ capped (done_size (plain_done self.now)) }
    {
        match self {
            Done::Asked(_, mapped) => incoming_size(mapped.came()),
            Done::Sent { bytes, .. } => bytes.len() as u64,
            Done::Heard { bytes, .. } => bytes.len() as u64,
        }
    }
}

impl<R: Relation> Event<R> {
    /// The bytes of its byte strings and numbers.
    fn size(&self) -> u64
        ensures { result ≡ capped (deed_size (event_of self.now)) }
    {
        match self {
            Event::Asked(_, mapped) => incoming_size(mapped.came()),
            Event::Sent { bytes, .. } => bytes.len() as u64,
            Event::Heard { bytes, .. } => bytes.len() as u64,
            Event::Answered { grounds, .. } => grounds.size(),
            Event::Carried { done, .. } => done.size(),
            Event::Opened(_) | Event::Passed | Event::Shut(_) | Event::Sealed => 0,
        }
    }
}

impl<R: Relation> Entry<R> {
    /// What it counts: 64 bytes, its byte strings, and 4 bytes for each number of its grounds. A
    /// count above 64 bits stays at the largest.
    pub fn size(&self) -> u64
        ensures { result ≡ capped (entry_size (item_of self.now)) }
    {
        self.event.size().saturating_add(64)
    }
}
