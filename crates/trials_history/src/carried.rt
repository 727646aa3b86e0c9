//! What is stored goes on where a sealed journal is turned over.

use crate::calls::{
    ask_at, ask_for, close, entries, ground_of, hear, keeps, moment_of, new_core, next_sent, open,
    past_of, responds, rotate, stored, take_first,
};
use crate::sample::{
    Nothing, erasing, light, numbered, shared, sized, watched_light, watched_number,
};
use ask_model::Mapped;
use exchange_core::{AskFault, Core};
use std::alloc::{AllocError, Global};
use std::sync::Arc;

/// The longest request that is asked, and more of them than a journal takes.
static LONGEST: usize = 2_097_152;

static MANY: u32 = 200;

/// The first ask for the light, and the next one.
static FIRST: &[u8] = b"\x48\x01\0\0\0\0\0\0\0\0\0\0\x3d\0s.example.com\x85light";

static SECOND: &[u8] = b"\x48\x01\0\x01\0\0\0\x01\0\0\0\0\x3d\0s.example.com\x85light";

/// A response to the first, in a CON of its own and fresh for a minute, and its ACK.
static MINUTE: &[u8] = b"\x48\x45\x12\x34\0\0\0\0\0\0\0\0\xffon";

static ACK: &[u8] = b"\x60\0\x12\x34";

/// A response to the first in its ACK, with a Max-Age of 1,000 seconds.
static LASTING: &[u8] = b"\x68\x45\0\0\0\0\0\0\0\0\0\0\xd2\x01\x03\xe8\xffon";

/// A core, an open connection of it, and a long request, which fills journals.
#[derive(Drop)]
struct Run {
    alloc: Global,
    core: Core<Nothing>,
    conn: u32,
    long: Arc<Mapped<Nothing>>,
}

impl Run {
    fn new(alloc: Global) -> Option<Run> {
        let mut core = new_core(alloc)?;
        let conn = open(&mut core, 0).ok()?;
        let long = shared(alloc, sized(alloc, LONGEST).ok()?).ok()?;
        Some(Run {
            alloc,
            core,
            conn,
            long,
        })
    }

    /// The connection asks this.
    fn ask(&mut self, moment: u64, mapped: Result<Mapped<Nothing>, AllocError>) -> Option<()> {
        let mapped = shared(self.alloc, mapped.ok()?).ok()?;
        ask_at(&mut self.core, moment, self.conn, mapped).ok()?;
        Some(())
    }

    /// This datagram goes out next.
    fn sends(&mut self, wanted: &[u8]) -> Option<()> {
        let sent = next_sent(&mut self.core, self.alloc)?;
        (sent.as_slice() == wanted).then_some(())
    }

    fn hears(&mut self, moment: u64, bytes: &[u8]) -> Option<()> {
        hear(&mut self.core, moment, 5683, bytes).then_some(())
    }

    /// The last entry is an answer from the store, which rests on this one.
    fn served(&self, reply: u32) -> Option<()> {
        let last = entries(&self.core).checked_sub(1)?;
        keeps(&self.core, last, &[reply]).then_some(())
    }

    /// The connection is closed, and another one opened.
    fn reconnect(&mut self, moment: u64) -> Option<()> {
        if !close(&mut self.core, moment, self.conn) {
            return None;
        }
        self.conn = open(&mut self.core, moment).ok()?;
        Some(())
    }

    /// The connection asks what is refused for its target, until the journal is sealed.
    fn fill_up(&mut self) -> Option<()> {
        for _ in 0..MANY {
            let long = Arc::try_clone(&self.long).ok()?;
            match ask_for(&mut self.core, self.conn, long) {
                Ok(_) => {}
                Err(AskFault::Sealed) => return Some(()),
                Err(_) => return None,
            }
        }
        None
    }

    /// The journal is filled up and turned over, and the next one begins with so many copies.
    fn turn(&mut self, moment: u64, copies: usize) -> Option<()> {
        self.fill_up()?;
        if !close(&mut self.core, 0, self.conn) {
            return None;
        }
        rotate(&mut self.core, moment).ok()?;
        if entries(&self.core) != copies {
            return None;
        }
        self.conn = open(&mut self.core, moment).ok()?;
        Some(())
    }
}

/// From this entry on there are copies of these three, on which an answer may rest.
fn are_grounds(core: &Core<Nothing>, first: usize, wanted: [u32; 3]) -> Option<()> {
    let [asked, sent, heard] = wanted;
    (ground_of(core, first) == Some(asked)
        && ground_of(core, first.checked_add(1)?) == Some(sent)
        && ground_of(core, first.checked_add(2)?) == Some(heard)).then_some(())
}

/// The ask, its message and the response keep their moments.
fn keep_moments(core: &Core<Nothing>) -> Option<()> {
    (moment_of(core, 0) == Some(0)
        && moment_of(core, 1) == Some(0)
        && moment_of(core, 2) == Some(600)).then_some(())
}

/// The first answer that waits is the response that was heard then.
fn tells(core: &mut Core<Nothing>, moment: u64, heard: u64) -> Option<()> {
    let answer = take_first(core)?;
    (answer.moment == moment && answer.heard == heard && responds(&answer, 0x45, b"on")).then_some(
        (),
    )
}

/// A response is carried over in its last fresh millisecond. Its journal has the opening, the ask,
/// the message, the response, the ACK and the answer.
fn lasts_a_minute(alloc: Global) -> Option<()> {
    let mut run = Run::new(alloc)?;
    run.ask(0, light(alloc))?;
    run.sends(FIRST)?;
    run.hears(600, MINUTE)?;
    run.sends(ACK)?;
    run.turn(60_599, 3)?;
    are_grounds(&run.core, 0, [1, 2, 3])?;
    keep_moments(&run.core)?;
    run.ask(60_599, light(alloc))?;
    run.served(2)?;
    tells(&mut run.core, 60_599, 600)?;
    // the CON that was copied comes again
    run.hears(60_599, MINUTE)?;
    run.sends(ACK)?;
    // and then it isn't fresh any more
    run.ask(60_600, light(alloc))?;
    run.sends(SECOND)
}

#[test]
fn what_is_fresh_goes_on(rt: HostRuntime) {
    assert!(rt; lasts_a_minute(rt.alloc()).is_some());
}

/// The message that erases the light, as the second, and that it is done.
static ERASE: &[u8] = b"\x48\x04\0\x01\0\0\0\x01\0\0\0\0\x3d\0s.example.com\x85light";

static ERASED: &[u8] = b"\x68\x42\0\x01\0\0\0\x01\0\0\0\0";

/// The third message asks for the light.
static THIRD: &[u8] = b"\x48\x01\0\x02\0\0\0\x02\0\0\0\0\x3d\0s.example.com\x85light";

/// A second turn carries the response over again, and an answer rests on the copy of the copy. A
/// write takes it out.
fn goes_on_twice(alloc: Global) -> Option<()> {
    let mut run = Run::new(alloc)?;
    run.ask(0, light(alloc))?;
    run.sends(FIRST)?;
    run.hears(600, LASTING)?;
    run.turn(1000, 3)?;
    are_grounds(&run.core, 0, [1, 2, 3])?;
    run.turn(2000, 3)?;
    are_grounds(&run.core, 0, [0, 1, 2])?;
    keep_moments(&run.core)?;
    run.ask(2000, light(alloc))?;
    run.served(2)?;
    run.ask(3000, erasing(alloc))?;
    run.sends(ERASE)?;
    run.hears(3000, ERASED)?;
    run.ask(3000, light(alloc))?;
    run.sends(THIRD)
}

#[test]
fn what_went_on_goes_on_again(rt: HostRuntime) {
    assert!(rt; goes_on_twice(rt.alloc()).is_some());
}

/// The second message asks for what has the number 1, and the response lasts too.
static NUMBER: &[u8] = b"\x48\x01\0\x01\0\0\0\x01\0\0\0\0\x3d\0s.example.com\x811";

static OTHER: &[u8] = b"\x68\x45\0\x01\0\0\0\x01\0\0\0\0\xd2\x01\x03\xe8\xffon";

/// The third message erases the light. The fourth one asks for it.
static ERASE_THEN: &[u8] = b"\x48\x04\0\x02\0\0\0\x02\0\0\0\0\x3d\0s.example.com\x85light";

static FOURTH: &[u8] = b"\x48\x01\0\x03\0\0\0\x03\0\0\0\0\x3d\0s.example.com\x85light";

/// The light and what has the number 1 are stored. The light is written to then, and no reply
/// comes. The client leaves, and the turn is made when the exchange is 93 seconds old.
fn one_is_written_to(alloc: Global) -> Option<()> {
    let mut run = Run::new(alloc)?;
    run.ask(0, light(alloc))?;
    run.sends(FIRST)?;
    run.hears(600, LASTING)?;
    run.ask(700, numbered(alloc, 1))?;
    run.sends(NUMBER)?;
    run.hears(800, OTHER)?;
    run.ask(900, erasing(alloc))?;
    run.sends(ERASE_THEN)?;
    run.reconnect(900)?;
    // the first sending for the light, the grounds of the other one, and the one that erases
    run.turn(93_900, 5)?;
    are_grounds(&run.core, 1, [5, 6, 7])?;
    (past_of(&run.core, 0) == Some(2) && past_of(&run.core, 4) == Some(10)).then_some(())?;
    (stored(&run.core) == 1).then_some(())?;
    run.ask(93_900, numbered(alloc, 1))?;
    run.served(3)?;
    run.ask(93_900, light(alloc))?;
    run.sends(FOURTH)
}

#[test]
fn what_was_written_to_stays_behind(rt: HostRuntime) {
    assert!(rt; one_is_written_to(rt.alloc()).is_some());
}

/// The first message observes the light, and its reply has Observe 5 and a Max-Age of 1,000
/// seconds. Then a NON tells of a change.
static WATCH: &[u8] = b"\x48\x01\0\0\0\0\0\0\0\0\0\0\x3d\0s.example.com\x30\x55light";

static WATCHED: &[u8] = b"\x68\x45\0\0\0\0\0\0\0\0\0\0\x61\x05\x82\x03\xe8\xffon";

static TOLD: &[u8] = b"\x58\x45\x12\x34\0\0\0\0\0\0\0\0\x61\x06\x82\x03\xe8\xffoff";

/// The second message observes what has the number 1.
static WATCH_NUMBER: &[u8] = b"\x48\x01\0\x01\0\0\0\x01\0\0\0\0\x3d\0s.example.com\x30\x511";

static WATCHED_NUMBER: &[u8] = b"\x68\x45\0\x01\0\0\0\x01\0\0\0\0\x61\x05\x82\x03\xe8\xffon";

/// The third one observes the light anew.
static WATCH_AGAIN: &[u8] = b"\x48\x01\0\x02\0\0\0\x02\0\0\0\0\x3d\0s.example.com\x30\x55light";

/// Both are observed, and a change of the light is told. What is stored of it rests on that, and is
/// served until the turn.
fn one_was_told(alloc: Global) -> Option<()> {
    let mut run = Run::new(alloc)?;
    run.ask(0, watched_light(alloc))?;
    run.sends(WATCH)?;
    run.hears(600, WATCHED)?;
    run.ask(700, watched_number(alloc, 1))?;
    run.sends(WATCH_NUMBER)?;
    run.hears(800, WATCHED_NUMBER)?;
    run.hears(900, TOLD)?;
    run.ask(900, watched_light(alloc))?;
    run.served(9)?;
    // the first sending for the light, the grounds of the other one, and what was told
    run.turn(1000, 5)?;
    are_grounds(&run.core, 1, [5, 6, 7])?;
    (past_of(&run.core, 0) == Some(2) && past_of(&run.core, 4) == Some(9)).then_some(())?;
    run.ask(1000, watched_number(alloc, 1))?;
    run.served(3)?;
    run.ask(1000, watched_light(alloc))?;
    run.sends(WATCH_AGAIN)
}

#[test]
fn what_a_device_told_stays_behind(rt: HostRuntime) {
    assert!(rt; one_was_told(rt.alloc()).is_some());
}
