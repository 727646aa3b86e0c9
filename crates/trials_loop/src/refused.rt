//! Memory is refused to a loop once: one client at most is cut off, and the loop goes on. Nothing is
//! refused by itself: `rt try --test --fail-alloc N` refuses the Nth allocation.

ghost use Rattle.std.specs.Prelude.{◌≡◌, [], IfSome};

use crate::chance::Dice;
use crate::fakes::{Devices, HELD, Hears, Talk, Tape, patience};
use crate::signs::goes;
use gateway_loop::{Accepted, Gateway, Host, Loop, Sign, Told};
use std::alloc::Global;
use transformers::Bank;
use trials_clients::{Nothing, settings};

/// How many turns a run has, each a millisecond later: what is lost once goes out again within three
/// seconds, and a farewell takes less.
const TURNS: u32 = 10_000;

/// How long a client may stand still, in milliseconds: longer than a run.
const IDLE: u64 = 60_000;

/// What the first and the last client send, and what they are to get.
const ASKS: &[u8] =
    b"GET /hc/coap://192.0.2.1/a HTTP/1.1\r\nHost: p\r\n\r\nGET /hc/coap://192.0.2.2/b HTTP/1.1\r\nHost: p\r\n\r\n";

const GETS: &[u8] =
    b"HTTP/1.1 200 OK\r\nContent-Type: text/plain;charset=utf-8\r\nCache-Control: max-age=0\r\nContent-Length: 1\r\n\r\naHTTP/1.1 200 OK\r\nContent-Type: text/plain;charset=utf-8\r\nCache-Control: max-age=0\r\nContent-Length: 1\r\n\r\nb";

/// What the second sends, whose connection the proxy closes, and what it is to get.
const ASKS_LAST: &[u8] =
    b"GET /hc/coap://192.0.2.1/c HTTP/1.1\r\nHost: p\r\nConnection: close\r\n\r\n";

const GETS_LAST: &[u8] =
    b"HTTP/1.1 200 OK\r\nContent-Type: text/plain;charset=utf-8\r\nCache-Control: max-age=0\r\nConnection: close\r\nContent-Length: 1\r\n\r\nc";

/// Who connects two clients, and one more when they are gone, and gives signs of all in each turn.
#[derive(Drop)]
struct Door<'a> {
    dice: &'a Dice,
    talks: &'a [Talk],
    taken: usize,
    signs: u32,
    moment: u64,
}

impl<'a> Door<'a> {
    /// Who comes next, once it may.
    fn next(&self) -> Option<&'a Talk> {
        let talks = self.talks;
        let next = talks.get(self.taken)?;
        let waits = self.taken > 1 && talks.iter().take(2).any(|talk| !talk.gone.get());
        (!waits).then_some(next)
    }
}

impl<'a> Hears for Door<'a> {
    fn hear_of(&mut self, _told: &[Told]) {}

    fn stop(&self) {
        for talk in self.talks {
            talk.stop();
        }
    }
}

impl<'a> Host<Tape<'a>> for Door<'a> {
    fn accept(&mut self) -> Accepted<Tape<'a>> {
        match self.next() {
            Some(talk) => {
                self.taken = self.taken.saturating_add(1);
                Accepted::Client(Tape::new(talk, self.dice))
            }
            None => Accepted::Later,
        }
    }

    fn watch(&mut self, _number: u32, _stream: &mut Tape<'a>) -> bool {
        true
    }

    fn rename(&mut self, _number: u32, _stream: &mut Tape<'a>) -> bool {
        true
    }

    fn wait(&mut self, _most: Option<u64>) -> bool {
        self.signs = 0;
        self.moment = self.moment.saturating_add(1);
        true
    }

    fn sign(&mut self) -> Option<Sign> {
        let place = self.signs;
        self.signs = place.saturating_add(1);
        match place {
            0 => Some(Sign::Clients),
            1 => Some(Sign::Wire),
            2..=4 => Some(Sign::Ready(place - 2)),
            _ => None,
        }
    }

    fn moment(&mut self) -> Option<u64> {
        Some(self.moment)
    }

    fn word(&mut self) -> u64 {
        self.dice.bits()
    }
}

/// How many of these clients were cut off, each with a beginning of what it was to get. None where
/// one wasn't let go, or got something else.
fn cut_off(talks: &[Talk]) -> Option<u32> {
    let mut count: u32 = 0;
    for talk in talks {
        if !talk.let_go.get() || talk.wrong.get() {
            return None;
        }
        if !talk.is_served() {
            count = count.saturating_add(1);
        }
    }
    Some(count)
}

/// How a run goes.
#[derive(Clone, Copy, PartialEq, Eq)]
enum Went {
    /// Each client is served.
    Right,
    /// One is cut off, or the memory was refused that the trial wants for itself.
    CutOff,
    Wrong,
}

/// A loop over settings and devices of the trials. None where it can't be made.
fn new_loop<'a>(alloc: Global, dice: &'a Dice) -> Option<Loop<Nothing, Tape<'a>, Devices<'a>>>
    ensures { IfSome result (λ l. l.gateway.world.rules.routes ≡ []) }
{
    let settings = settings(alloc).ok()?;
    let gateway = Gateway::new(alloc, settings, Devices::new(alloc, dice)).ok()?;
    Loop::new(gateway, patience(IDLE), HELD).ok()
}

/// How a run goes, of which memory may be refused once.
fn run(alloc: Global) -> Went {
    let dice = Dice::new(0x9e37_79b9);
    let talks = [
        Talk::new(ASKS, GETS, false),
        Talk::new(ASKS_LAST, GETS_LAST, true),
        Talk::new(ASKS, GETS, false),
    ];
    let mut host = Door {
        dice: &dice,
        talks: &talks,
        taken: 0,
        signs: 0,
        moment: 0,
    };
    let bank: Bank<Nothing> = Bank::new(Vec::new(alloc));
    let Some(it) = new_loop(alloc, &dice) else {
        return Went::CutOff;
    };
    if !goes(&bank, it, &mut host, TURNS) {
        return Went::Wrong;
    }
    match cut_off(&talks) {
        Some(0) => Went::Right,
        Some(1) => Went::CutOff,
        _ => Went::Wrong,
    }
}

/// Whether two runs go well. One allocation is refused at most, so in one of them nobody is cut off.
fn hold(alloc: Global) -> bool {
    let (first, second) = (run(alloc), run(alloc));
    let is_right = first == Went::Right || second == Went::Right;
    is_right && first != Went::Wrong && second != Went::Wrong
}

#[test]
fn memory_refused_to_a_loop(rt: HostRuntime) {
    assert!(rt; hold(rt.alloc()));
}
