//! A turn of the journal where memory is refused: each call that is refused for want of it is made
//! once more, and until then nothing has changed. Nothing is refused by itself: `rt try --test
//! --fail-alloc N` refuses the Nth allocation.

use crate::calls::{
    ask, ask_for, close, entries, ground_of, hear, keeps, new_core, open, rotate, stored,
};
use crate::sample::{Nothing, shared, sized};
use ask_model::Mapped;
use exchange_core::{AskFault, Core, OpenFault, RotateFault};
use std::alloc::Global;
use std::sync::Arc;

/// The datagrams that carry the first ask and the next one after the turn.
const REQUEST: &[u8] = b"\x48\x01\0\0\0\0\0\0\0\0\0\0\x3d\0s.example.com\x85light";

const NEXT: &[u8] = b"\x48\x01\0\x01\0\0\0\x01\0\0\0\0\x3d\0s.example.com\x85light";

/// The response to the first ask, in a CON of its own, and the ACK that it gets.
const RESPONSE: &[u8] = b"\x48\x45\x12\x34\0\0\0\0\0\0\0\0\xffon";

const ACK: &[u8] = b"\x60\0\x12\x34";

/// The longest request that is asked, and more of them than a journal takes.
const LONGEST: usize = 2_097_152;

const MANY: u32 = 200;

/// The entries of the journal that is given out: six of the first ask, an ask and an answer 127
/// times, the seal, and the closing of the connection.
const GIVEN: usize = 262;

/// A core, and how many of its calls were refused for want of memory.
#[derive(Drop)]
struct Run {
    alloc: Global,
    core: Core<Nothing>,
    refusals: u64,
}

impl Run {
    fn new(alloc: Global) -> Option<Run> {
        let (core, refusals) = match new_core(alloc) {
            Some(core) => (core, 0),
            None => (new_core(alloc)?, 1),
        };
        Some(Run {
            alloc,
            core,
            refusals,
        })
    }

    /// How many entries there are, and how many responses are stored.
    fn counts(&self) -> (usize, usize) {
        (entries(&self.core), stored(&self.core))
    }

    /// A call was refused for want of memory, and left as many of both as there were.
    fn refused(&mut self, before: (usize, usize)) -> Option<()> {
        self.refusals = self.refusals.saturating_add(1);
        (self.counts() == before).then_some(())
    }

    fn open(&mut self) -> Option<u32> {
        let before = self.counts();
        match open(&mut self.core, 1000) {
            Err(OpenFault::Memory) => {
                self.refused(before)?;
                open(&mut self.core, 1000).ok()
            }
            given => given.ok(),
        }
    }

    /// A connection asks for the light.
    fn ask(&mut self, moment: u64, conn: u32) -> Option<()> {
        let before = self.counts();
        let mut asked = ask(&mut self.core, self.alloc, moment, 0, conn);
        if matches!(asked, Err(AskFault::Memory)) {
            self.refused(before)?;
            asked = ask(&mut self.core, self.alloc, moment, 0, conn);
        }
        asked.is_ok().then_some(())
    }

    fn hear(&mut self, moment: u64) -> Option<()> {
        let before = self.counts();
        if !hear(&mut self.core, moment, 5683, RESPONSE) {
            self.refused(before)?;
            return hear(&mut self.core, moment, 5683, RESPONSE).then_some(());
        }
        Some(())
    }

    /// Asks what is refused for its target, and tells whether it was taken.
    fn fill(&mut self, mapped: &Arc<Mapped<Nothing>>) -> Option<bool> {
        let before = self.counts();
        let mut asked = ask_for(&mut self.core, 0, Arc::try_clone(mapped).ok()?);
        if matches!(asked, Err(AskFault::Memory)) {
            self.refused(before)?;
            asked = ask_for(&mut self.core, 0, Arc::try_clone(mapped).ok()?);
        }
        match asked {
            Ok(_) => Some(true),
            Err(AskFault::Sealed) => Some(false),
            Err(_) => None,
        }
    }

    /// Asks until the journal is sealed.
    fn fill_up(&mut self, mapped: &Arc<Mapped<Nothing>>) -> Option<()> {
        for _ in 0..MANY {
            if !self.fill(mapped)? {
                return Some(());
            }
        }
        None
    }

    /// Turns the journal over, and tells how many entries the one that is given out has.
    fn rotate(&mut self) -> Option<usize> {
        let before = self.counts();
        match rotate(&mut self.core, 1000) {
            Err(RotateFault::Memory) => {
                self.refused(before)?;
                rotate(&mut self.core, 1000).ok()
            }
            given => given.ok(),
        }
    }

    /// Whether this datagram goes out next.
    fn sends(&mut self, wanted: &[u8]) -> Option<()> {
        let sent = self.core.take_send()?;
        (sent.bytes.as_slice() == wanted).then_some(())
    }
}

fn one_long(alloc: Global) -> Option<Arc<Mapped<Nothing>>> {
    shared(alloc, sized(alloc, LONGEST).ok()?).ok()
}

/// What fills a journal.
fn long(alloc: Global) -> Option<Arc<Mapped<Nothing>>> {
    match one_long(alloc) {
        Some(mapped) => Some(mapped),
        None => one_long(alloc),
    }
}

/// The ask, its message and the response are copied.
fn copied(core: &Core<Nothing>) -> bool {
    ground_of(core, 0) == Some(1) && ground_of(core, 1) == Some(2) && ground_of(core, 2) == Some(3)
}

/// One ask is served, the journal is filled up and turned over, and the next ask is answered by
/// what is stored, for a minute. Then one is sent. How many calls were refused?
fn turned(alloc: Global) -> Option<u64> {
    let mut run = Run::new(alloc)?;
    let conn = run.open()?;
    run.ask(1000, conn)?;
    run.sends(REQUEST)?;
    run.hear(1000)?;
    run.sends(ACK)?;
    let mapped = long(alloc)?;
    run.fill_up(&mapped)?;
    if !close(&mut run.core, 1000, conn) {
        return None;
    }
    let given = run.rotate()?;
    let next = run.open()?;
    run.ask(1000, next)?;
    // the answer stands behind three copies, the opening and the ask
    let kept = copied(&run.core) && keeps(&run.core, 5, &[2]);
    run.ask(61_000, next)?;
    run.sends(NEXT)?;
    (kept && given == GIVEN).then_some(run.refusals)
}

/// Whether two runs go so. One allocation is refused at most, so in one of them none is: it wants
/// for no memory.
fn holds(alloc: Global) -> bool {
    let (first, second) = (turned(alloc), turned(alloc));
    (first == Some(0) && second.is_some()) || (first.is_some() && second == Some(0))
}

#[test]
fn memory_refused_to_a_turn(rt: HostRuntime) {
    assert!(rt; holds(rt.alloc()));
}
