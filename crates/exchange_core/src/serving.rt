//! What a caller that serves connections asks of a core.

ghost use Rattle.std.specs.Prelude.{ℕ, ◌⊎◌, Option, None, Some, IsTrue, IsFalse, map, option_map};
ghost use Rattle.exchange_model.specs.Resting.{HasConn};
ghost use Rattle.exchange_core.specs.Answering.{given_of};
ghost use Rattle.exchange_core.specs.Places.{id_of};
ghost use Rattle.exchange_table.specs.Places.{RiseBy};
ghost use Rattle.exchange_core.specs.Serving.{IsFirstOf};

use crate::answer::Answer;
use crate::asking::check_idle;
use crate::taking::{least_ask, take_answer};
use exchange_model::Conn;
use transformers::Relation;

/// Whether the connection is open and waits for no answer.
pub fn is_idle(conns: &[Conn], id: u32) -> bool
    requires { RiseBy id_of conns.now }
    ensures idle { IsTrue result → HasConn conns.now id None }
    ensures other { IsFalse result → ((p : Option ℕ) → HasConn conns.now id p → ⊥)
        ⊎ ((k : ℕ) × HasConn conns.now id (Some k)) }
{
    match check_idle(conns, id) {
        Ok(()) => true,
        Err(_) => false,
    }
}

/// Takes out the answer to the first of their asks.
pub fn take_first<R: Relation>(answers: &mut Vec<Answer<R>>) -> Option<Answer<R>>
    ensures { IsFirstOf (option_map given_of result) (map given_of answers.old.items)
        (map given_of answers.new.items) }
{
    let Some(ask) = least_ask(answers.as_slice()) else {
        return None;
    };
    take_answer(answers, ask)
}
