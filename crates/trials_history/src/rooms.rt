//! How many bytes a journal takes, seen from both sides of its limit.
//!
//! It takes 256 MiB. An entry counts 64 bytes and its byte strings, of an ask those of its request, and 4 for each
//! number of an answer's grounds. Held free are 64 bytes for the closing of each connection, 90,000 for the answer
//! of each ask that waits, and 64 for the seal. A script of so many bytes would have twice as many digits; here
//! all asks but the last share one request of 2 MiB.

use crate::calls::{ask, ask_for, entries, new_core, open};
use crate::sample::{Nothing, shared, sized};
use exchange_core::{AskFault, Core};
use std::alloc::Global;
use std::sync::Arc;

/// The longest request that is asked.
const LONGEST: usize = 2_097_152;

/// How many of those are asked. Each is refused and so answered at once: two entries, and the number of its cause.
const MANY: u32 = 127;

/// What the last request counts that is taken then: 268,435,456 bytes without the 64 of the opening, the 64 that are
/// held for the closing and the 64 for the seal, 127 times 2,097,152 + 132, and its own 132.
const LAST: usize = 2_080_064;

/// A core with one connection, after those asks.
fn nearly_full(alloc: Global) -> Option<Core<Nothing>> {
    let mut core = new_core(alloc)?;
    let conn = open(&mut core, 0).ok()?;
    let mapped = shared(alloc, sized(alloc, LONGEST).ok()?).ok()?;
    for _ in 0..MANY {
        ask_for(&mut core, conn, Arc::try_clone(&mapped).ok()?).ok()?;
    }
    Some(core)
}

/// Asks what counts so many bytes and is refused, and tells the fault; none where it is taken.
fn fault_of(core: &mut Core<Nothing>, alloc: Global, size: usize) -> Option<AskFault> {
    let Ok(mapped) = sized(alloc, size) else {
        return Some(AskFault::Memory);
    };
    let Ok(mapped) = shared(alloc, mapped) else {
        return Some(AskFault::Memory);
    };
    ask_for(core, 0, mapped).err()
}

/// The fault of an ask of so many bytes in a core that is nearly full, and how many entries there are then.
fn last_of(alloc: Global, size: usize) -> Option<(Option<AskFault>, usize)> {
    let mut core = nearly_full(alloc)?;
    let fault = fault_of(&mut core, alloc, size);
    Some((fault, entries(&core)))
}

/// The fault of a GET of the light that comes where the journal has so many bytes left.
fn get_of(alloc: Global, left: usize) -> Option<(Option<AskFault>, usize)> {
    let mut core = nearly_full(alloc)?;
    if fault_of(&mut core, alloc, LAST.saturating_sub(left)).is_some() {
        return None;
    }
    let fault = ask(&mut core, alloc, 0, 0, 0).err();
    Some((fault, entries(&core)))
}

#[test]
fn a_journal_takes_256_mebibytes(rt: HostRuntime) {
    // an opening, and an ask and its answer 128 times
    assert!(rt; last_of(rt.alloc(), LAST) == Some((None, 257)));
    // one byte more: the last ask leaves the seal alone
    assert!(rt; last_of(rt.alloc(), LAST + 1) == Some((Some(AskFault::Sealed), 256)));
}

#[test]
fn the_answer_of_who_waits_is_held_free(rt: HostRuntime) {
    // the ask counts 64 + 33 bytes, its message 64 + 33, and 90,000 are held for its answer
    assert!(rt; get_of(rt.alloc(), 90_194) == Some((None, 259)));
    assert!(rt; get_of(rt.alloc(), 90_193) == Some((Some(AskFault::Sealed), 258)));
}
