//! The entries of a journal.

ghost use Rattle.std.specs.Prelude.{◌≡◌, IfOk, option_map};
ghost use Rattle.journal_book.specs.Entries.{carried_as, done_of};
ghost use Rattle.journal_book.specs.Views.{event_of, grounds_of, item_of, mark_of, plain_done};

use crate::numbers::Numbers;
use ask_model::{Cause, Mapped};
use coap_codec::Bytes;
use std::alloc::{AllocError, AllocFailed};
use std::sync::Arc;
use transformers::Relation;
use uri_map::Peer;

/// What an answer rests on.
#[derive(Debug, Drop)]
pub enum Grounds {
    /// replies that were just heard, by the numbers of their entries
    Live(Numbers),
    /// the replies of a stored response
    Kept(Numbers),
    /// why the proxy answers by itself, and the entry that this names
    Fault(Cause, u32),
}

impl Grounds {
    /// Equal grounds.
    pub fn copy(&self) -> Result<Grounds, AllocError>
        ensures { IfOk result (λ g. grounds_of g ≡ grounds_of self.now) }
    {
        match self {
            Grounds::Live(numbers) => Ok(Grounds::Live(numbers.copy()?)),
            Grounds::Kept(numbers) => Ok(Grounds::Kept(numbers.copy()?)),
            Grounds::Fault(cause, number) => Ok(Grounds::Fault(*cause, *number)),
        }
    }
}

/// What a copy is for.
#[derive(Clone, Copy)]
pub enum Mark {
    /// an answer may rest on it
    Ground,
    /// it tells tokens, message IDs and repeats
    Past,
}

/// What was done, of what may be copied into the journal after this one.
#[derive(Drop)]
pub enum Done<R: Relation> {
    /// a request came in on a connection
    Asked(u32, Arc<Mapped<R>>),
    /// a datagram was sent; a first sending bears its first timeout in milliseconds
    Sent {
        peer: Peer,
        bytes: Arc<Bytes>,
        timeout: Option<u32>,
    },
    /// a datagram came in
    Heard {
        peer: Peer,
        bytes: Bytes,
    },
}

impl<R: Relation> Done<R> {
    /// An equal value; requests and the bytes of what was sent are shared.
    pub fn copy(&self) -> Result<Done<R>, AllocError>
        ensures { IfOk result (λ done. plain_done done ≡ plain_done self.now) }
    {
        match self {
            Done::Asked(conn, mapped) => Ok(Done::Asked(*conn, Arc::try_clone(mapped)?)),
            Done::Sent {
                peer,
                bytes,
                timeout,
            } => Ok(Done::Sent {
                peer: *peer,
                bytes: Arc::try_clone(bytes)?,
                timeout: *timeout,
            }),
            Done::Heard { peer, bytes } => Ok(Done::Heard {
                peer: *peer,
                bytes: bytes.copy()?,
            }),
        }
    }
}

/// What happened. A connection and an ask go by the numbers of their entries.
#[derive(Drop)]
pub enum Event<R: Relation> {
    /// a connection was opened
    Opened(u32),
    /// a request came in on a connection
    Asked(u32, Arc<Mapped<R>>),
    /// a datagram was sent; a first sending bears its first timeout in milliseconds
    Sent {
        peer: Peer,
        bytes: Arc<Bytes>,
        timeout: Option<u32>,
    },
    /// a datagram came in
    Heard {
        peer: Peer,
        bytes: Bytes,
    },
    /// time passed, and something was due
    Passed,
    /// an ask of a connection was answered
    Answered {
        conn: u32,
        ask: u32,
        grounds: Grounds,
    },
    /// a connection was closed
    Shut(u32),
    /// the journal takes nothing more but answers and closings
    Sealed,
    /// a copy from the journal before this one, in which its entry has the number
    Carried {
        number: u32,
        mark: Mark,
        done: Done<R>,
    },
}

impl<R: Relation> Event<R> {
    /// An equal event; requests and the bytes of what was sent are shared.
    pub fn copy(&self) -> Result<Event<R>, AllocError>
        ensures { IfOk result (λ e. event_of e ≡ event_of self.now) }
    {
        match self {
            Event::Opened(conn) => Ok(Event::Opened(*conn)),
            Event::Asked(conn, mapped) => Ok(Event::Asked(*conn, Arc::try_clone(mapped)?)),
            Event::Sent {
                peer,
                bytes,
                timeout,
            } => Ok(Event::Sent {
                peer: *peer,
                bytes: Arc::try_clone(bytes)?,
                timeout: *timeout,
            }),
            Event::Heard { peer, bytes } => Ok(Event::Heard {
                peer: *peer,
                bytes: bytes.copy()?,
            }),
            Event::Passed => Ok(Event::Passed),
            Event::Answered { conn, ask, grounds } => Ok(Event::Answered {
                conn: *conn,
                ask: *ask,
                grounds: grounds.copy()?,
            }),
            Event::Shut(conn) => Ok(Event::Shut(*conn)),
            Event::Sealed => Ok(Event::Sealed),
            Event::Carried { number, mark, done } => Ok(Event::Carried {
                number: *number,
                mark: *mark,
                done: done.copy()?,
            }),
        }
    }

    /// What was done, where it may be copied; of a copy what it carries. Requests and the bytes of
    /// what was sent are shared.
    fn done(&self) -> Result<Option<Done<R>>, AllocError>
        ensures { IfOk result (λ done. option_map plain_done done ≡ done_of (event_of self.now)) }
    {
        match self {
            Event::Asked(conn, mapped) => Ok(Some(Done::Asked(*conn, Arc::try_clone(mapped)?))),
            Event::Sent {
                peer,
                bytes,
                timeout,
            } => Ok(Some(Done::Sent {
                peer: *peer,
                bytes: Arc::try_clone(bytes)?,
                timeout: *timeout,
            })),
            Event::Heard { peer, bytes } => Ok(Some(Done::Heard {
                peer: *peer,
                bytes: bytes.copy()?,
            })),
            Event::Carried { done, .. } => Ok(Some(done.copy()?)),
            Event::Opened(_)
            | Event::Passed
            | Event::Answered { .. }
            | Event::Shut(_)
            | Event::Sealed => Ok(None),
        }
    }
}

/// An entry: what happened, and at which moment in milliseconds.
#[derive(Drop)]
pub struct Entry<R: Relation> {
    pub moment: u64,
    pub event: Event<R>,
}

impl<R: Relation> Entry<R> {
    /// An equal entry.
    pub fn copy(&self) -> Result<Entry<R>, AllocError>
        ensures { IfOk result (λ e. item_of e ≡ item_of self.now) }
    {
        Ok(Entry {
            moment: self.moment,
            event: self.event.copy()?,
        })
    }

    /// The copy that the journal after this one has of it, where it may be copied: what was asked,
    /// sent or heard, with the number that it has in this journal and its moment. A copy is copied
    /// with what it carries. Requests and the bytes of what was sent are shared.
    pub fn carried(&self, number: u32, mark: Mark) -> Result<Option<Entry<R>>, AllocError>
        ensures { IfOk result (λ copy. option_map item_of copy
            ≡ carried_as number (mark_of mark) (item_of self.now)) }
    {
        match self.event.done()? {
            Some(done) => Ok(Some(Entry {
                moment: self.moment,
                event: Event::Carried { number, mark, done },
            })),
            None => Ok(None),
        }
    }
}
