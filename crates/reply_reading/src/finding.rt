//! What an ask comes to, and why.

ghost use Rattle.std.specs.Prelude.{◌≡◌, map, IfOk, Some, slice_get};
ghost use Rattle.std.specs.Arc.{arc_value};
ghost use Rattle.coap_codec.specs.Spelling.{content};
ghost use Rattle.journal_book.specs.Entries.{Live, Kept, Fault};
ghost use Rattle.journal_book.specs.Views.{grounds_of};
ghost use Rattle.history_laws.specs.Responses.{response_of};
ghost use Rattle.reply_reading.specs.Findings.{Tells, Fails, Fits, told_of, joined_all};

use crate::response::{join_pieces, response_of};
use ask_model::Cause;
use coap_codec::Message;
use journal_book::{Grounds, Numbers};
use resp_cache::Response;
use std::alloc::{AllocError, Global};
use std::marker::Model;
use std::sync::Arc;

/// What an ask came to.
#[derive(Drop)]
pub enum Outcome {
    /// a response, which all who are told it share
    Whole(Arc<Response>),
    /// an error of the proxy's own, and why
    Fault(Cause),
}

/// What an ask came to, with its grounds. Its type keeps that they fit.
pub struct Finding {
    outcome: Outcome,
    grounds: Grounds,
}

/// As derived; but written here, how all that it has is dropped is proved in this crate alone.
impl Drop for Finding {
    fn drop(self) {
        let Finding {
            outcome: _,
            grounds: _,
        } = self;
    }
}

impl Model for Finding {
    ghost use Rattle.journal_book.specs.Views.{grounds_of};
    ghost use Rattle.reply_reading.specs.Findings.{Found, Fits, told_of};

    ghost Value = { Found };

    ghost view = { λ f. record { told = told_of f.outcome; grounds = grounds_of f.grounds } };

    ghost invariant = { λ f. Fits (told_of f.outcome) (grounds_of f.grounds) };
}

impl Finding {
    /// An error of the proxy's own, which names an entry.
    pub fn fault(cause: Cause, number: u32) -> Finding
        ensures { result ≡ record { told = Fails cause; grounds = Fault cause number } }
    {
        Finding {
            outcome: Outcome::Fault(cause),
            grounds: Grounds::Fault(cause, number),
        }
    }

    /// A response that rests on the replies in these entries.
    pub fn whole(response: Arc<Response>, replies: Numbers) -> Finding
        ensures { result ≡ record { told = Tells (arc_value response); grounds = Live replies } }
    {
        Finding {
            outcome: Outcome::Whole(response),
            grounds: Grounds::Live(replies),
        }
    }

    /// A response that is stored, which rests on the replies in these entries.
    pub fn kept(response: Arc<Response>, replies: Numbers) -> Finding
        ensures { result ≡ record { told = Tells (arc_value response); grounds = Kept replies } }
    {
        Finding {
            outcome: Outcome::Whole(response),
            grounds: Grounds::Kept(replies),
        }
    }

    /// An equal value, which shares the response.
    pub fn copy(&self) -> Result<Finding, AllocError>
        ensures { IfOk result (λ f. f ≡ self.now) }
    {
        Ok(Finding {
            outcome: copy_outcome(&self.outcome)?,
            grounds: self.grounds.copy()?,
        })
    }

    /// What the ask came to.
    pub fn outcome(&self) -> &Outcome
        ensures told { told_of result.now ≡ self.now.told }
        ensures fits { Fits self.now.told self.now.grounds }
    {
        &self.outcome
    }

    /// What that rests on.
    pub fn grounds(&self) -> &Grounds
        ensures grounds { grounds_of result.now ≡ self.now.grounds }
        ensures fits { Fits self.now.told self.now.grounds }
    {
        &self.grounds
    }
}

/// An equal outcome, which shares the response.
fn copy_outcome(outcome: &Outcome) -> Result<Outcome, AllocError>
    ensures { IfOk result (λ o. told_of o ≡ told_of outcome.now) }
{
    match outcome {
        Outcome::Whole(response) => Ok(Outcome::Whole(Arc::try_clone(response)?)),
        Outcome::Fault(cause) => Ok(Outcome::Fault(*cause)),
    }
}

/// What the replies to a request other than a GET make known, which these entries bear (RFC 7959
/// section
/// 2.3): the response that the last of them is, whose payload isn't copied. That it is the answer,
/// and that by each before it a piece of the body was taken, is for the caller to judge.
pub fn answer_of(alloc: Global, replies: Numbers, last: Message) -> Result<Finding, AllocError>
    ensures { IfOk result (λ f. f ≡ record {
      told = Tells (response_of (content last));
      grounds = Live replies;
    }) }
{
    let response = response_of(alloc, last)?;
    Ok(Finding::whole(Arc::new(alloc, response)?, replies))
}

/// What the pieces of a representation make known, which these entries bear (RFC 7959 section 2.4):
/// one response, of which the last piece is given and those before it, in order. That they are the
/// pieces of one representation, and all, is for the caller to judge.
pub fn fetched_of(
    alloc: Global,
    replies: Numbers,
    earlier: Vec<Message>,
    last: Message,
) -> Result<Finding, AllocError>
    ensures { IfOk result (λ f. f ≡ record {
      told = Tells (joined_all (map content earlier.items) (content last));
      grounds = Live replies;
    }) }
{
    match earlier.first() {
        None => answer_of(alloc, replies, last),
        Some(first) => joined_of(alloc, replies, first, &earlier, last),
    }
}

/// The same, where some pieces came before the last: the first of them is named too.
#[inline(never)]
fn joined_of(
    alloc: Global,
    replies: Numbers,
    first: &Message,
    earlier: &[Message],
    last: Message,
) -> Result<Finding, AllocError>
    requires { Some first.now ≡ slice_get earlier.now 0 }
    ensures { IfOk result (λ f. f ≡ record {
      told = Tells (joined_all (map content earlier.now) (content last));
      grounds = Live replies;
    }) }
{
    let response = join_pieces(alloc, first, earlier, last)?;
    Ok(Finding::whole(Arc::new(alloc, response)?, replies))
}
