//! The answer to an ask, as the session that asked keeps it.

ghost use Rattle.std.specs.Prelude.{◌≡◌, IfOk};
ghost use Rattle.std.specs.Arc.{arc_value};
ghost use Rattle.exchange_core.specs.Answering.{given_of};
ghost use Rattle.gateway_desk.specs.Lines.{slip_of};

use exchange_core::{Answer, Ticket};
use std::alloc::AllocError;
use transformers::Relation;

/// The answer to an ask.
#[derive(Drop)]
pub struct Receipt<R: Relation> {
    /// the number of the ask's entry
    pub number: u32,
    pub answer: Answer<R>,
}

impl<R: Relation> Receipt<R> {
    /// That of a ticket: its number and its request, and the answer.
    pub(crate) fn of(ticket: Ticket<R>, answer: Answer<R>) -> Receipt<R>
        ensures number { result.number ≡ ticket.number }
        ensures given { given_of result.answer
            ≡ record (given_of answer) { mapping = arc_value ticket.mapped } }
    {
        Receipt {
            number: ticket.number,
            answer: Answer {
                conn: answer.conn,
                ask: answer.ask,
                number: answer.number,
                mapped: ticket.mapped,
                moment: answer.moment,
                heard: answer.heard,
                finding: answer.finding,
            },
        }
    }

    /// An equal receipt, which shares the request.
    pub fn copy(&self) -> Result<Receipt<R>, AllocError>
        ensures { IfOk result (λ r. slip_of r ≡ slip_of self.now) }
    {
        Ok(Receipt {
            number: self.number,
            answer: self.answer.copy()?,
        })
    }
}
