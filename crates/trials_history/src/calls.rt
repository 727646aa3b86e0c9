//! Calls of a core that pass on nothing of what it promises: a trial over them is proved in less time.

use crate::sample::{Nothing, light, numbered, server, shared, too_large};
use ask_model::{Cause, Mapped};
use exchange_core::{Answer, AskFault, Core, OpenFault, Outcome, RotateFault, Ticket};
use journal_book::{Event, Grounds, Mark};
use std::alloc::Global;
use std::sync::Arc;

pub fn new_core(alloc: Global) -> Option<Core<Nothing>> {
    Core::new(alloc).ok()
}

pub fn open(core: &mut Core<Nothing>, moment: u64) -> Result<u32, OpenFault> {
    core.open(moment)
}

pub fn close(core: &mut Core<Nothing>, moment: u64, conn: u32) -> bool {
    core.close(moment, conn)
}

/// Whether the connection is open and waits for no answer.
pub fn is_idle(core: &Core<Nothing>, conn: u32) -> bool {
    core.is_idle(conn)
}

/// Asks for the light, with this random word.
pub fn ask(
    core: &mut Core<Nothing>,
    alloc: Global,
    moment: u64,
    word: u64,
    conn: u32,
) -> Result<Ticket<Nothing>, AskFault> {
    let mapped = shared(alloc, light(alloc)?)?;
    core.ask(moment, word, conn, mapped)
}

/// Asks at the moment 0 for what has this number, with the word 0.
pub fn ask_number(
    core: &mut Core<Nothing>,
    alloc: Global,
    conn: u32,
    number: u32,
) -> Result<Ticket<Nothing>, AskFault> {
    let mapped = shared(alloc, numbered(alloc, number)?)?;
    ask_for(core, conn, mapped)
}

/// Asks this at the moment 0.
pub fn ask_for(
    core: &mut Core<Nothing>,
    conn: u32,
    mapped: Arc<Mapped<Nothing>>,
) -> Result<Ticket<Nothing>, AskFault> {
    ask_at(core, 0, conn, mapped)
}

/// Asks this, with the word 0.
pub fn ask_at(
    core: &mut Core<Nothing>,
    moment: u64,
    conn: u32,
    mapped: Arc<Mapped<Nothing>>,
) -> Result<Ticket<Nothing>, AskFault> {
    core.ask(moment, 0, conn, mapped)
}

/// Asks what is refused for its size.
pub fn ask_too_much(
    core: &mut Core<Nothing>,
    alloc: Global,
    moment: u64,
    conn: u32,
) -> Result<Ticket<Nothing>, AskFault> {
    let mapped = shared(alloc, too_large(alloc)?)?;
    core.ask(moment, 0, conn, mapped)
}

/// Hands in a datagram from the server's host, and tells whether memory sufficed.
pub fn hear(core: &mut Core<Nothing>, moment: u64, port: u16, bytes: &[u8]) -> bool {
    core.heard(moment, 0, server(port), bytes).is_ok()
}

pub fn tick(core: &mut Core<Nothing>, moment: u64) -> bool {
    core.tick(moment).is_ok()
}

/// Turns the journal over, and tells how many entries the one that is given out has.
pub fn rotate(core: &mut Core<Nothing>, moment: u64) -> Result<usize, RotateFault> {
    let given = core.rotate(moment)?;
    Ok(given.len())
}

/// Of which number the entry with this number is a copy that is remembered alone.
pub fn past_of(core: &Core<Nothing>, number: usize) -> Option<u32> {
    let entry = core.journal().get(number)?;
    match &entry.event {
        Event::Carried { number, mark, .. } => matches!(mark, Mark::Past).then_some(*number),
        _ => None,
    }
}

/// Of which number the entry with this number is a copy that an answer may rest on.
pub fn ground_of(core: &Core<Nothing>, number: usize) -> Option<u32> {
    let entry = core.journal().get(number)?;
    match &entry.event {
        Event::Carried { number, mark, .. } => matches!(mark, Mark::Ground).then_some(*number),
        _ => None,
    }
}

/// Whether the entry with this number is an answer from the store, which rests on these.
pub fn keeps(core: &Core<Nothing>, number: usize, wanted: &[u32]) -> bool {
    let Some(entry) = core.journal().get(number) else {
        return false;
    };
    match &entry.event {
        Event::Answered { grounds, .. } => match grounds {
            Grounds::Kept(list) => list.as_slice() == wanted,
            _ => false,
        },
        _ => false,
    }
}

/// How many responses are stored.
pub fn stored(core: &Core<Nothing>) -> usize {
    core.stored_count()
}

/// When the core has to be given a tick.
pub fn next_due(core: &Core<Nothing>) -> Option<u64> {
    core.next_due()
}

/// Closes the connection, and goes back to what was before that; tells whether both were done.
pub fn close_and_go_back(core: &mut Core<Nothing>, conn: u32) -> bool {
    let Ok(before) = core.snapshot() else {
        return false;
    };
    let closed = core.close(0, conn);
    if closed {
        core.restore(before);
    }
    closed
}

/// The ask whose answer waits first.
pub fn first_answered(core: &Core<Nothing>) -> Option<u32> {
    core.first_answered()
}

pub fn take_answer(core: &mut Core<Nothing>, ticket: &Ticket<Nothing>) -> Option<Answer<Nothing>> {
    core.take_answer(ticket)
}

/// The answer to the first of the asks whose answers aren't taken yet.
pub fn take_first(core: &mut Core<Nothing>) -> Option<Answer<Nothing>> {
    core.take_first()
}

/// The bytes of the datagram that goes out next.
pub fn next_sent(core: &mut Core<Nothing>, alloc: Global) -> Option<Vec<u8>> {
    let sent = core.take_send()?;
    Vec::from_slice(alloc, sent.bytes.as_slice()).ok()
}

/// The number of entries.
pub fn entries(core: &Core<Nothing>) -> usize {
    core.journal().len()
}

/// When the entry with this number was written.
pub fn moment_of(core: &Core<Nothing>, number: usize) -> Option<u64> {
    let entry = core.journal().get(number)?;
    Some(entry.moment)
}

/// Whether the entry with this number sends these bytes, with this timeout.
pub fn sends(core: &Core<Nothing>, number: usize, wanted: &[u8], wait: Option<u32>) -> bool {
    let Some(entry) = core.journal().get(number) else {
        return false;
    };
    match &entry.event {
        Event::Sent { bytes, timeout, .. } => bytes.as_slice() == wanted && *timeout == wait,
        _ => false,
    }
}

/// The connection and the ask that the entry with this number answers.
pub fn answered(core: &Core<Nothing>, number: usize) -> Option<(u32, u32)> {
    let entry = core.journal().get(number)?;
    match &entry.event {
        Event::Answered { conn, ask, .. } => Some((*conn, *ask)),
        _ => None,
    }
}

/// The cause that an answer names.
pub fn cause_of(answer: &Answer<Nothing>) -> Option<Cause> {
    match answer.finding.outcome() {
        Outcome::Fault(cause) => Some(*cause),
        Outcome::Whole(_) => None,
    }
}

/// Whether an answer is a response with this code and this body.
pub fn responds(answer: &Answer<Nothing>, code: u8, body: &[u8]) -> bool {
    match answer.finding.outcome() {
        Outcome::Whole(response) => response.code == code && response.body.as_slice() == body,
        Outcome::Fault(_) => false,
    }
}
