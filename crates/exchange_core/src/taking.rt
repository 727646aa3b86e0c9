//! What isn't taken yet: answers and datagrams.

ghost use Rattle.std.specs.Prelude.{◌≡◌, ◌∷◌, ◌++◌, ◌==◌, ◌≢◌, ◌≤◌, [], None, not, filter, map, option_map, slice_get, Some, All, min, IfSome};
ghost use Rattle.std.specs.List.{Contains, reduce};
ghost use Rattle.exchange_core.specs.Answering.{given_of};
ghost use Rattle.exchange_core.specs.Values.{outgoing_of};
ghost use Rattle.exchange_core.specs.States.{given_in, outgoing, state_of};

use crate::answer::Answer;
use crate::outgoing::Datagram;
use crate::state::State;
use std::collections::VecDeque;
use transformers::Relation;

/// The place of the answer to the ask.
fn answer_place<R: Relation>(answers: &[Answer<R>], ask: u32) -> Option<usize>
    ensures some { IfSome result (λ i.
        option_map (λ a. a.ask) (slice_get answers.now i) ≡ Some ask) }
    ensures none { result ≡ None → All (λ a. a.ask ≢ ask) answers.now }
{
    'each: for place in 0..answers.len() {
        if answers[place].ask == ask {
            return Some(place);
        }
    }
    None
}

/// Takes out the answer to the ask.
pub fn take_answer<R: Relation>(answers: &mut Vec<Answer<R>>, ask: u32) -> Option<Answer<R>>
    ensures some { IfSome result (λ a. (a.ask ≡ ask)
        × Contains (map given_of answers.old.items) (given_of a)) }
    ensures none { result ≡ None → All (λ g. g.ask ≢ ask) (map given_of answers.old.items) }
    ensures others { map given_of answers.new.items
        ≡ filter (λ g. not (g.ask == ask)) (map given_of answers.old.items) }
{
    let Some(place) = answer_place(answers, ask) else {
        return None;
    };
    let answer = answers.remove(place);
    answers.retain(|a| a.ask != ask);
    Some(answer)
}

/// The lesser of two asks, where there are two.
fn lesser(least: Option<u32>, ask: u32) -> u32
    ensures first { least ≡ None → result ≡ ask }
    ensures other { IfSome least (λ d. result ≡ min d ask) }
{
    match least {
        Some(d) => d.min(ask),
        None => ask,
    }
}

/// The least of their asks.
pub fn least_ask<R: Relation>(answers: &[Answer<R>]) -> Option<u32>
    ensures { result ≡ reduce min (map (λ a. a.ask) answers.now) }
{
    let mut least: Option<u32> = None;
    'each: for answer in answers {
        least = Some(lesser(least, answer.ask));
    }
    least
}
