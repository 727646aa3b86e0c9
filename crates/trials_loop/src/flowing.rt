//! Entries leave memory while clients ask on, and nobody sees it.

ghost use Rattle.std.specs.Prelude.{◌≡◌, [], IfOk, IfSome};
ghost use Rattle.ask_model.specs.Views.{rules_of};
ghost use Rattle.transformers.specs.Suits.{Suits};

use crate::callers::{Board, Caller, Line};
use crate::chance::Dice;
use crate::fakes::{Devices, HELD, patience};
use ask_model::Settings;
use gateway_loop::{Gateway, Held, Host, Loop, Stream, Wire};
use std::alloc::{AllocError, Global};
use transformers::{Bank, Relation};
use trials_clients::{Nothing, settings};
use uri_map::Text;

/// How long a client may stand still, in milliseconds: as many turns.
const IDLE: u64 = 3000;

/// How many turns a run has at most.
const MOST: u32 = 300_000;

/// How often each client asks: so that the history is some times as long as what is held.
const TIMES: usize = 300;

/// As little of its history as a loop can hold.
const LITTLE: Held = Held {
    entries: 0,
    bytes: 0,
};

/// How many segments leave after a turn, at most.
const LEAVING: usize = 8;

/// Two requests at a time.
const ASKS_A: &[u8] =
    b"GET /hc/coap://192.0.2.1/a HTTP/1.1\r\nHost: p\r\n\r\nGET /hc/coap://192.0.2.2/b HTTP/1.1\r\nHost: p\r\n\r\n";

const ASKS_C: &[u8] =
    b"GET /hc/coap://192.0.2.3/c HTTP/1.1\r\nHost: p\r\n\r\nGET /hc/coap://192.0.2.4/d HTTP/1.1\r\nHost: p\r\n\r\n";

const GETS_A: &[u8] =
    b"HTTP/1.1 200 OK\r\nContent-Type: text/plain;charset=utf-8\r\nCache-Control: max-age=0\r\nContent-Length: 1\r\n\r\naHTTP/1.1 200 OK\r\nContent-Type: text/plain;charset=utf-8\r\nCache-Control: max-age=0\r\nContent-Length: 1\r\n\r\nb";

const GETS_C: &[u8] =
    b"HTTP/1.1 200 OK\r\nContent-Type: text/plain;charset=utf-8\r\nCache-Control: max-age=0\r\nContent-Length: 1\r\n\r\ncHTTP/1.1 200 OK\r\nContent-Type: text/plain;charset=utf-8\r\nCache-Control: max-age=0\r\nContent-Length: 1\r\n\r\nd";

/// A request of a resource that is observed, beside one of another device.
const ASKS_W: &[u8] =
    b"GET /hc/coap://s.example.com/w HTTP/1.1\r\nHost: p\r\n\r\nGET /hc/coap://192.0.2.2/b HTTP/1.1\r\nHost: p\r\n\r\n";

const GETS_W: &[u8] =
    b"HTTP/1.1 200 OK\r\nContent-Type: text/plain;charset=utf-8\r\nCache-Control: max-age=0\r\nContent-Length: 1\r\n\r\nwHTTP/1.1 200 OK\r\nContent-Type: text/plain;charset=utf-8\r\nCache-Control: max-age=0\r\nContent-Length: 1\r\n\r\nb";

/// What a run came to.
#[derive(Clone, Copy, PartialEq, Eq)]
struct Outcome {
    /// Each client was served.
    served: bool,
    /// how many entries the history has, and where chance stands
    entries: usize,
    bits: u64,
    /// how many of them left memory, each once and in order
    left: usize,
}

/// The loop waits, and turns once. None where it stopped.
fn turned<R: Relation, S: Stream + Drop, W: Wire + Drop, H: Host<S>>(
    bank: &Bank<R>,
    it: Loop<R, S, W>,
    host: &mut H,
) -> Option<Loop<R, S, W>>
    requires { Suits R.holds R.takes it.gateway.world.rules.routes bank.now }
    ensures { IfSome result (λ l. l.gateway.world.rules ≡ it.gateway.world.rules) }
{
    let mut it = it;
    if it.wait(host).is_err() {
        return None;
    }
    it.turn(bank, host).ok()
}

/// Lets segments leave that may. Answers how many entries left, of which so many had before. None
/// where one came twice or is missing.
fn leave<R: Relation, S: Stream + Drop, W: Wire + Drop>(
    it: &mut Loop<R, S, W>,
    left: usize,
) -> Option<usize>
    ensures { it.new.gateway.world.rules ≡ it.old.gateway.world.rules }
{
    let mut left = left;
    'each: for _ in 0..LEAVING {
        let Some(segment) = it.take_segment() else {
            return Some(left);
        };
        if segment.first != left || segment.entries.len() != 1024 {
            return None;
        }
        left = left.saturating_add(1024);
    }
    Some(left)
}

/// Lets the loop turn until each client has ended. Answers how many entries the history has, and how
/// many left. None where the loop stopped.
fn goes<'a, R: Relation, W: Wire + Drop>(
    bank: &Bank<R>,
    it: Loop<R, Line<'a>, W>,
    host: &mut Board<'a>,
) -> Option<(usize, usize)>
    requires { Suits R.holds R.takes it.gateway.world.rules.routes bank.now }
{
    let mut it = it;
    let mut left = 0usize;
    'each: for _ in 0..MOST {
        it = turned(bank, it, host)?;
        left = leave(&mut it, left)?;
        if host.is_left() {
            return Some((it.core().journal().len(), left));
        }
    }
    None
}

/// The settings of the trials, by which what s.example.com has is observed.
fn observing(alloc: Global) -> Result<Settings, AllocError>
    ensures { IfOk result (λ s. (rules_of s).routes ≡ []) }
{
    let mut settings = settings(alloc)?;
    settings
        .observed
        .push(Text::copy_of(alloc, "s.example.com")?)?;
    Ok(settings)
}

/// Lets a loop that holds so much of its history serve clients until each has ended. Answers how many
/// entries the history has, and how many left.
fn gone<'a>(
    alloc: Global,
    held: Held,
    dice: &'a Dice,
    host: &mut Board<'a>,
) -> Option<(usize, usize)> {
    let Ok(settings) = observing(alloc) else {
        return None;
    };
    let bank: Bank<Nothing> = Bank::new(Vec::new(alloc));
    let Ok(gateway) = Gateway::new(alloc, settings, Devices::new(alloc, dice)) else {
        return None;
    };
    match Loop::new(gateway, patience(IDLE), held) {
        Ok(it) => goes(&bank, it, host),
        Err(_) => None,
    }
}

/// What comes of it in a run by chance.
fn played(alloc: Global, held: Held) -> Option<Outcome> {
    let dice = Dice::new(0x9e37_79b9);
    let callers = [
        Caller::new(ASKS_A, GETS_A, TIMES),
        Caller::new(ASKS_C, GETS_C, TIMES),
        Caller::new(ASKS_W, GETS_W, TIMES),
    ];
    let mut host = Board::new(&dice, &callers);
    let went = gone(alloc, held, &dice, &mut host);
    let served = callers.iter().all(Caller::is_served);
    let (entries, left) = went?;
    Some(Outcome {
        served,
        entries,
        bits: dice.bits(),
        left,
    })
}

/// Whether each client is served, and all goes the same, whether all entries are held or all segments
/// leave that can.
fn is_unseen(alloc: Global) -> bool {
    let (Some(all), Some(few)) = (played(alloc, HELD), played(alloc, LITTLE)) else {
        return false;
    };
    let left = all.left == 0 && few.left <= few.entries && few.entries - few.left < 1024;
    left && all.served
        && few
            == Outcome {
                left: few.left,
                ..all
            }
}

#[test]
fn nobody_sees_entries_leave(rt: HostRuntime) {
    assert!(rt; is_unseen(rt.alloc()));
}
