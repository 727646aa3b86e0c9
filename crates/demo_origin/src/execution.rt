//! What a request does to a resource.

ghost use Rattle.std.specs.Prelude.{◌≡◌, ◌≢◌, ◌<◌, length, slice_get, IfOk, IfSome, OnOk, OnErr, []};
ghost use Rattle.coap_codec.specs.Spelling.{content, entries};
ghost use Rattle.coap_codec.specs.Values.{values};
ghost use Rattle.demo_origin.specs.Values.{seen};
ghost use Rattle.demo_origin.specs.Requests.{CanChange, asked};
ghost use Rattle.demo_origin.specs.Answers.{Answers, Declines, Reads, ReadsPart, Shows, Validates, shown_part};
ghost use Rattle.demo_origin.specs.Blocks.{BeginsIn, IsSized, named_by, part_of};
ghost use Rattle.demo_origin.specs.Hearing.{is_change, reply_of, stated, taken_from, Changes};
ghost use Rattle.demo_origin.specs.Observing.{wish_of};

use crate::answer::{Asker, answer};
use crate::blocks::{Part, named_in, part_of, piece_of};
use crate::fault::Memory;
use crate::judge::number_in;
use crate::observers::{Wish, enlist, is_granted, leave, wish_in};
use crate::reading::{described, renewed};
use crate::request::{CoapRequest, Method};
use crate::segments::Segments;
use crate::state::{Held, State};
use crate::tags::is_valid;
use crate::telling::answer_and_tell;
use coap_codec::{Block, Message, number};
use message_layer::Bytes;
use std::alloc::Global;
use std::mem::replace;

/// The code 2.03.
const VALID: u8 = 67;

/// The code 2.05.
const CONTENT: u8 = 69;

/// The code 4.00.
const BAD_REQUEST: u8 = 128;

/// A request that was executed: of which resource, by which method, with which answer, and the
/// states before and after.
#[derive(Drop)]
pub struct Taken {
    pub path: Segments,
    pub method: Method,
    pub code: u8,
    pub before: Bytes,
    pub after: Bytes,
}

/// What came of a request: the reply and the new state.
#[derive(Drop)]
pub struct Outcome {
    pub code: u8,
    pub payload: Vec<u8>,
    pub changed: bool,
    pub after: Bytes,
}

/// What the handler is asked.
pub(crate) fn request_of(
    alloc: Global,
    m: &mut Message,
    method: Method,
) -> Result<CoapRequest, Memory>
    ensures { IfOk result (λ r. r ≡ asked method (content m.old)) }
{
    let body = Bytes::new(alloc, replace(&mut m.payload, Vec::new(alloc)))?;
    let query = Segments::of(alloc, m, number::URI_QUERY)?;
    Ok(CoapRequest {
        method,
        query,
        format: number_in(m, number::CONTENT_FORMAT),
        accept: number_in(m, number::ACCEPT),
        body,
    })
}

/// Answers a request by a code alone.
pub(crate) fn refuse(alloc: Global, s: &mut State, to: Asker, code: u8) -> Result<(), Memory>
    requires { code ≢ 0 }
    ensures ok { OnOk result (Answers to code [] [] (seen s.old) (seen s.new)) }
    ensures err { OnErr result (seen s.new ≡ seen s.old) }
{
    answer(alloc, s, to, code, Vec::new(alloc), Vec::new(alloc))
}

/// Answers a GET of the resource of that number by a code alone.
pub(crate) fn decline(
    alloc: Global,
    s: &mut State,
    to: Asker,
    place: usize,
    wish: Wish,
    code: u8,
) -> Result<(), Memory>
    requires { code ≢ 0 }
    ensures ok { OnOk result (Declines to place wish code (seen s.old) (seen s.new)) }
    ensures err { OnErr result (seen s.new ≡ seen s.old) }
{
    refuse(alloc, s, to, code)?;
    leave(&mut s.observers, wish, &to.peer, place, &to.token);
    Ok(())
}

/// The bytes of a piece, or of all.
fn shown_part(b: Option<Block>, state: &[u8]) -> &[u8]
    requires { IfSome b (BeginsIn (length state.now)) }
    ensures { result.now ≡ shown_part b state.now }
{
    match b {
        None => state,
        Some(b) => piece_of(b, state),
    }
}

/// Answers a GET by the state of the resource of that number, or a piece of it.
fn show(
    alloc: Global,
    s: &mut State,
    to: Asker,
    place: usize,
    wish: Wish,
    b: Option<Block>,
) -> Result<(), Memory>
    requires place { place < length s.old.resources.items }
    requires begins { IfSome (slice_get s.old.resources.items place)
        (λ h. IfSome b (BeginsIn (length h.state))) }
    ensures ok { OnOk result (IfSome (slice_get s.old.resources.items place)
        (λ h. Shows to place wish h b (seen s.old) (seen s.new))) }
    ensures err { OnErr result (seen s.new ≡ seen s.old) }
{
    s.observers.reserve(1)?;
    let held = &s.resources[place];
    let version = held.version;
    let observed = is_granted(wish, &s.observers, &to.peer, place, &to.token);
    let payload = Vec::from_slice(alloc, shown_part(b, held.state.as_slice()))?;
    let options = described(alloc, held, observed, b)?;
    answer(alloc, s, to, CONTENT, options, payload)?;
    enlist(&mut s.observers, wish, to.peer, place, to.token, version);
    Ok(())
}

/// Answers a GET by what its Block2 asks for of the resource of that number.
fn show_part(
    alloc: Global,
    s: &mut State,
    to: Asker,
    place: usize,
    wish: Wish,
    named: Option<Block>,
) -> Result<(), Memory>
    requires place { place < length s.old.resources.items }
    requires sized { IsSized named }
    ensures ok { OnOk result (IfSome (slice_get s.old.resources.items place)
        (λ h. ReadsPart to place wish h (part_of named s.old.block.szx (length h.state))
        (seen s.old) (seen s.new))) }
    ensures err { OnErr result (seen s.new ≡ seen s.old) }
{
    match part_of(named, s.block, s.resources[place].state.as_slice().len()) {
        Part::Whole => show(alloc, s, to, place, wish, None),
        Part::Piece(b) => show(alloc, s, to, place, wish, Some(b)),
        Part::Past => decline(alloc, s, to, place, wish, BAD_REQUEST),
    }
}

/// Answers a GET by 2.03: the state of the resource of that number is the one that its client has.
fn validate(alloc: Global, s: &mut State, to: Asker, place: usize, wish: Wish) -> Result<(), Memory>
    requires { place < length s.old.resources.items }
    ensures ok { OnOk result (IfSome (slice_get s.old.resources.items place)
        (λ h. Validates to place wish h (seen s.old) (seen s.new))) }
    ensures err { OnErr result (seen s.new ≡ seen s.old) }
{
    s.observers.reserve(1)?;
    let held = &s.resources[place];
    let version = held.version;
    let observed = is_granted(wish, &s.observers, &to.peer, place, &to.token);
    let options = renewed(alloc, held, observed)?;
    answer(alloc, s, to, VALID, options, Vec::new(alloc))?;
    enlist(&mut s.observers, wish, to.peer, place, to.token, version);
    Ok(())
}

/// Answers a GET of the resource of that number: by 2.03 where one of its ETags is that of the
/// state, and else by what its Block2 asks for.
pub(crate) fn read(
    alloc: Global,
    s: &mut State,
    to: Asker,
    place: usize,
    m: &Message,
) -> Result<(), Memory>
    requires { place < length s.old.resources.items }
    ensures ok { OnOk result (let options = entries m.now.options.items in
        Reads to place (wish_of (values 6 options)) (values 4 options)
        (named_by (values 23 options)) (slice_get s.old.resources.items place)
        (seen s.old) (seen s.new)) }
    ensures err { OnErr result (seen s.new ≡ seen s.old) }
{
    let named = named_in(m, number::BLOCK2);
    let wish = wish_in(m);
    if is_valid(m, named, s.resources[place].version) {
        validate(alloc, s, to, place, wish)
    } else {
        show_part(alloc, s, to, place, wish, named)
    }
}

fn is_change(before: &Bytes, outcome: &Outcome) -> bool
    ensures { result ≡ is_change before.now outcome.now.after (reply_of outcome.now) }
{
    outcome.changed || before.as_slice() != outcome.after.as_slice()
}

fn taken_of(held: &Held, method: Method, outcome: &Outcome) -> Result<Taken, Memory>
    ensures { IfOk result (λ t. t ≡ taken_from held.now method outcome.now.code outcome.now.after) }
{
    Ok(Taken {
        path: held.path.copy()?,
        method,
        code: outcome.code,
        before: held.state.share()?,
        after: outcome.after.share()?,
    })
}

/// What a resource held before a change.
#[derive(Drop)]
struct Before {
    state: Bytes,
    version: u64,
}

/// The resource has that state now.
fn change(held: &mut Held, changed: bool, after: Bytes) -> Before
    requires { CanChange held.old }
    ensures new { held.new ≡ stated held.old changed after }
    ensures state { result.state ≡ held.old.state }
    ensures version { result.version ≡ held.old.version }
{
    let version = held.version;
    let state = replace(&mut held.state, after);
    if changed {
        held.version += 1;
    }
    Before { state, version }
}

/// The resource has the state of before again.
fn restore(held: &mut Held, before: Before)
    ensures { held.new ≡ record held.old { state = before.state; version = before.version } }
{
    held.state = before.state;
    held.version = before.version;
}

/// Answers a request by what came of it, changes the resource, and tells its observers.
pub(crate) fn execute(
    alloc: Global,
    s: &mut State,
    to: Asker,
    place: usize,
    method: Method,
    outcome: Outcome,
) -> Result<Taken, Memory>
    requires place { place < length s.old.resources.items }
    requires version { IfSome (slice_get s.old.resources.items place) CanChange }
    requires code { outcome.code ≢ 0 }
    ensures ok { IfOk result (λ taken.
        Changes to place method (slice_get s.old.resources.items place)
        outcome.after (reply_of outcome) (seen s.old) (seen s.new) taken) }
    ensures err { OnErr result (seen s.new ≡ seen s.old) }
{
    let held = &s.resources[place];
    let taken = taken_of(held, method, &outcome)?;
    let changed = is_change(&held.state, &outcome);
    let before = change(&mut s.resources[place], changed, outcome.after);
    match answer_and_tell(alloc, s, to, outcome.code, outcome.payload) {
        Ok(()) => Ok(taken),
        Err(e) => {
            restore(&mut s.resources[place], before);
            Err(e)
        }
    }
}
