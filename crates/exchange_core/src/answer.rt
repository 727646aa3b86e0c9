//! What an ask is given: a ticket, and then its answer.

ghost use Rattle.std.specs.Prelude.{◌≡◌, IfOk};
ghost use Rattle.exchange_core.specs.Answering.{given_of};

use ask_model::Mapped;
use reply_reading::Finding;
use std::alloc::AllocError;
use std::sync::Arc;
use transformers::Relation;

/// What an ask is known by until its answer is taken.
#[derive(Drop)]
pub struct Ticket<R: Relation> {
    pub conn: u32,
    /// the number of the ask's entry
    pub number: u32,
    pub mapped: Arc<Mapped<R>>,
}

/// The answer to an ask.
#[derive(Drop)]
pub struct Answer<R: Relation> {
    /// the connection that asked
    pub conn: u32,
    /// the number of the ask's entry
    pub ask: u32,
    /// the number of the answer's own entry
    pub number: u32,
    pub mapped: Arc<Mapped<R>>,
    /// when it was given, in milliseconds
    pub moment: u64,
    /// when the first reply that it rests on was heard; where there is none, when it was given
    pub heard: u64,
    pub finding: Finding,
}

impl<R: Relation> Answer<R> {
    /// An equal answer, which shares the request.
    pub fn copy(&self) -> Result<Answer<R>, AllocError>
        ensures { IfOk result (λ a. given_of a ≡ given_of self.now) }
    {
        Ok(Answer {
            conn: self.conn,
            ask: self.ask,
            number: self.number,
            mapped: Arc::try_clone(&self.mapped)?,
            moment: self.moment,
            heard: self.heard,
            finding: self.finding.copy()?,
        })
    }
}
