//! What an exchange comes to by a reply.

ghost use Rattle.std.specs.Prelude.{◌≡◌, ◌≤◌, ◌∷◌, ◌++◌, List, [], filter, IfOk, IfSome, IfNone};
ghost use Rattle.std.specs.List.{AllByRecursion};
ghost use Rattle.coap_codec.specs.Spelling.{content};
ghost use Rattle.history_laws.specs.Progress.{Reply, Ends, NotUnderstood, Whole, anew, answered, fetched, fetched_whole};
ghost use Rattle.history_laws.specs.Responses.{response_of};
ghost use Rattle.exchange_model.specs.Growing.{IsFewTimes};
ghost use Rattle.exchange_model.specs.Steps.{reply_at};
ghost use Rattle.exchange_model.specs.Matters.{fetched_in, is_piece_of};
ghost use Rattle.exchange_progress.specs.Coming.{AsksSayable, IsComing, comes_by};
ghost use Rattle.exchange_progress.specs.Pieces.{IsPieceHere};

use crate::fetching::{Earlier, fetched_in};
use ask_model::Cause;
use blockwise::{Answered, BlockFault, Pieces, Step, Upload};
use coap_codec::{Block, Message, is_forwardable};
use exchange_model::{Exchange, Piece, Work};
use journal_book::{Journal, Numbers};
use reply_reading::{Finding, answer_of, fetched_of, is_tellable};
use std::alloc::{AllocError, Global};
use transformers::Relation;

/// How often what is fetched is begun anew where the device changes it meanwhile.
const MAX_RESTARTS: u8 = 3;

/// How an exchange goes on.
#[derive(Drop)]
pub struct Onward {
    /// how far it has come
    pub work: Work,
    /// the block that its next message is for: none where it begins anew
    pub block: Option<Block>,
}

/// How an exchange ends by a message.
#[derive(Drop)]
pub enum Ended {
    /// with this, of which all are told who wait for it
    Found(Finding),
    /// with this, as what it asked about is valid still: it came first of the exchange with this
    /// opening
    Renewed(Finding, u32),
    /// there was no place for its next message
    Turned,
}

/// What an exchange comes to by a reply.
#[derive(Drop)]
pub enum Coming {
    Goes(Onward),
    Ends(Ended),
}

/// It isn't understood.
fn not_understood(number: u32) -> Coming
    ensures coming { IsComing number result (Ends NotUnderstood) }
    ensures sayable { AsksSayable result }
{
    Coming::Ends(Ended::Found(Finding::fault(Cause::NotUnderstood, number)))
}

/// The device has changed what is fetched: it is begun anew, three times at most.
fn begin_anew(restarts: u8, number: u32) -> Coming
    requires { restarts ≤ 3 }
    ensures coming { IsComing number result (anew restarts) }
    ensures sayable { AsksSayable result }
{
    if restarts == MAX_RESTARTS {
        return not_understood(number);
    }
    Coming::Goes(Onward {
        work: Work::Fetches {
            restarts: restarts + 1,
            pieces: Pieces::none(),
        },
        block: None,
    })
}

/// The numbers, and one more at the end.
fn with_last(alloc: Global, numbers: Vec<u32>, number: u32) -> Result<Numbers, AllocError>
    ensures { IfOk result (λ n. n ≡ numbers.items ++ number ∷ []) }
{
    if numbers.is_empty() {
        return Numbers::from_slice(alloc, &[number]);
    }
    let mut numbers = numbers;
    numbers.push(number)?;
    Numbers::from_slice(alloc, &numbers)
}

/// The piece is the last: all of them are one response.
fn join<R: Relation>(
    alloc: Global,
    journal: &Journal<R>,
    pieces: &[Piece],
    opening: u32,
    number: u32,
    m: Message,
) -> Result<Coming, AllocError>
    requires { AllByRecursion (IsPieceHere journal.now.given journal.now.kept)
        (filter (is_piece_of opening) pieces.now) }
    ensures coming { IfOk result (λ x. IsComing number x (Ends (fetched_whole
        (fetched_in journal.now.entries opening pieces.now ++ reply_at number (content m) ∷ [])))) }
    ensures sayable { IfOk result AsksSayable }
{
    let Earlier { numbers, messages } = fetched_in(alloc, journal, pieces, opening)?;
    let numbers = with_last(alloc, numbers, number)?;
    let finding = fetched_of(alloc, numbers, messages, m)?;
    Ok(Coming::Ends(Ended::Found(finding)))
}

/// The last reply answers the request, of which the body has gone.
fn answer<R: Relation>(
    alloc: Global,
    journal: &Journal<R>,
    pieces: &[Piece],
    opening: u32,
    number: u32,
    m: Message,
) -> Result<Coming, AllocError>
    requires { AllByRecursion (IsPieceHere journal.now.given journal.now.kept)
        (filter (is_piece_of opening) pieces.now) }
    ensures coming { IfOk result (λ x. IsComing number x (Ends (Whole (response_of (content m))
        (fetched_in journal.now.entries opening pieces.now ++ reply_at number (content m) ∷ [])))) }
    ensures sayable { IfOk result AsksSayable }
{
    let Earlier { numbers, .. } = fetched_in(alloc, journal, pieces, opening)?;
    let numbers = with_last(alloc, numbers, number)?;
    let finding = answer_of(alloc, numbers, m)?;
    Ok(Coming::Ends(Ended::Found(finding)))
}

/// What a GET comes to by a piece of what it fetches, which the entry with this number bears: none
/// where it is the last.
pub fn fetch(restarts: u8, pieces: &Pieces, number: u32, m: &Message) -> Option<Coming>
    requires { restarts ≤ 3 }
    ensures coming { (got : List Reply) → IfSome result (λ x. IsComing number x
        (fetched restarts pieces.now got (reply_at number (content m.now)))) }
    ensures last { (got : List Reply) → IfNone result
        (fetched restarts pieces.now got (reply_at number (content m.now))
        ≡ Ends (fetched_whole (got ++ reply_at number (content m.now) ∷ []))) }
    ensures sayable { IfSome result AsksSayable }
{
    if !is_tellable(m) {
        return Some(not_understood(number));
    }
    match pieces.judge(m) {
        Ok(Step::Next(block)) => {
            let mut known = pieces.copy();
            known.advance(m);
            Some(Coming::Goes(Onward {
                work: Work::Fetches {
                    restarts,
                    pieces: known,
                },
                block: Some(block),
            }))
        }
        Ok(Step::Last) => None,
        Err(BlockFault::Changed) => Some(begin_anew(restarts, number)),
        Err(_) => Some(not_understood(number)),
    }
}

/// What any other request comes to by the answer to a piece of its body, which the entry with this
/// number bears: none where it is the answer to the request.
fn give(upload: &Upload, number: u32, m: &Message) -> Option<Coming>
    ensures coming { (got : List Reply) → IfSome result (λ x. IsComing number x
        (answered upload.now got (reply_at number (content m.now)))) }
    ensures last { (got : List Reply) → IfNone result
        (answered upload.now got (reply_at number (content m.now))
        ≡ Ends (Whole (response_of (content m.now))
        (got ++ reply_at number (content m.now) ∷ []))) }
    ensures sayable { IfSome result AsksSayable }
{
    if !is_forwardable(&m.options) {
        return Some(not_understood(number));
    }
    match upload.judge(m) {
        Answered::Next => {
            let mut known = upload.copy();
            known.advance(m);
            let block = known.next_block();
            Some(Coming::Goes(Onward {
                work: Work::Gives(known),
                block,
            }))
        }
        Answered::Last => None,
        Answered::Wrong => Some(not_understood(number)),
    }
}

/// What the exchange comes to by the reply, which the entry with this number bears.
pub fn comes_to<R: Relation>(
    alloc: Global,
    journal: &Journal<R>,
    pieces: &[Piece],
    exchange: &Exchange,
    number: u32,
    m: Message,
) -> Result<Coming, AllocError>
    requires few { IsFewTimes exchange.now.work }
    requires here { AllByRecursion (IsPieceHere journal.now.given journal.now.kept)
        (filter (is_piece_of exchange.now.opening) pieces.now) }
    ensures coming { IfOk result (λ x. IsComing number x
        (comes_by journal.now.entries pieces.now exchange.now number (content m))) }
    ensures sayable { IfOk result AsksSayable }
{
    match &exchange.work {
        Work::Fetches {
            restarts,
            pieces: known,
        } => match fetch(*restarts, known, number, &m) {
            Some(coming) => Ok(coming),
            None => join(alloc, journal, pieces, exchange.opening, number, m),
        },
        Work::Gives(upload) => match give(upload, number, &m) {
            Some(coming) => Ok(coming),
            None => answer(alloc, journal, pieces, exchange.opening, number, m),
        },
    }
}
