//! To which message each reply came.

ghost use Rattle.std.specs.Prelude.{ℕ, ◌≡◌, ◌≤◌, [], List, length, get_or, IfOk, None};
ghost use Rattle.limits.specs.declared.TheConstants.{MAX_ENTRIES};
ghost use Rattle.exchange_model.specs.Backing.{replied_to};
ghost use Rattle.journal_book.specs.Entries.{Written, done_of};
ghost use Rattle.journal_book.specs.Views.{event_of, item_of};
ghost use Rattle.journal_copies.specs.Tracing.{AreTraced, Awaits, Traced};

use crate::line::{Line, line_in};
use crate::remembering::{first_in, heard_in};
use journal_book::{Event, Journal};
use std::alloc::{AllocError, Global};
use std::collections::HashMap;
use transformers::Relation;

/// The first sendings under whose token nothing was heard since, the last one of each endpoint and
/// token.
#[derive(Drop)]
struct Unanswered {
    sendings: HashMap<Line, u32>,
}

/// For each entry that heard a reply, in which one the message was sent to which it is the first.
#[derive(Drop)]
pub struct Traces {
    replied: Vec<Option<u32>>,
}

impl Unanswered {
    /// None was sent.
    fn new(alloc: Global) -> Unanswered
        ensures { Awaits result.sendings [] }
    {
        Unanswered {
            sendings: HashMap::new(alloc),
        }
    }

    /// Takes up what happened next, and tells the message to which it is a reply.
    fn note<R: Relation>(
        &mut self,
        event: &Event<R>,
        number: u32,
    ) -> Result<Option<u32>, AllocError>
        ensures { (ws : List Written) → Awaits self.old.sendings ws
            → IfOk result (Traced number (done_of (event_of event.now)) ws self.new.sendings) }
    {
        if let Some(first) = first_in(event) {
            let line = line_in(first.peer, first.bytes.as_slice());
            self.sendings.insert(line, number)?;
            return Ok(None);
        }
        match heard_in(event) {
            Some(heard) => {
                let line = line_in(heard.peer, heard.bytes.as_slice());
                Ok(self.sendings.remove(&line))
            }
            None => Ok(None),
        }
    }
}

impl Traces {
    /// The traces of a journal.
    pub fn of<R: Relation>(alloc: Global, journal: &Journal<R>) -> Result<Traces, AllocError>
        requires few { length journal.now.entries ≤ MAX_ENTRIES }
        requires whole { journal.now.given ≡ 0 }
        ensures { IfOk result (λ x. AreTraced journal.now.entries x.replied.items) }
    {
        let mut unanswered = Unanswered::new(alloc);
        let mut replied = Vec::new(alloc);
        'each: for number in 0..journal.len() {
            let Some(entry) = journal.get(number) else {
                unreachable!()
            };
            replied.push(unanswered.note(&entry.event, number as u32)?)?;
        }
        Ok(Traces { replied })
    }

    /// The message to which what was heard in this entry is the first reply.
    pub fn replied_to(&self, number: u32) -> Option<u32>
        ensures { result ≡ get_or self.now.replied.items number None }
    {
        match self.replied.get(number as usize) {
            Some(sending) => *sending,
            None => None,
        }
    }
}
