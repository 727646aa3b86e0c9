//! Whatever signs come, each client gets the answers to what it asked, and no other bytes.

ghost use Rattle.transformers.specs.Suits.{Suits};

use crate::chance::Dice;
use crate::fakes::{Chance, Devices, HELD, Hears, Talk, patience};
use gateway_loop::{Gateway, Host, Loop, Stream, Wire};
use std::alloc::Global;
use transformers::{Bank, Relation};
use trials_clients::{Nothing, settings};

/// How long a client may stand still, in milliseconds: as many turns.
const IDLE: u64 = 3000;

/// How many turns a run has.
const TURNS: u32 = 2000;

/// How many it has where a client stands still.
const LONG: u32 = 6000;

const ASKS_A: &[u8] =
    b"GET /hc/coap://192.0.2.1/a HTTP/1.1\r\nHost: p\r\n\r\nGET /hc/coap://192.0.2.2/b HTTP/1.1\r\nHost: p\r\n\r\n";

const ASKS_C: &[u8] =
    b"GET /hc/coap://192.0.2.1/c HTTP/1.1\r\nHost: p\r\n\r\nGET /hc/coap://192.0.2.1/d HTTP/1.1\r\nHost: p\r\nConnection: close\r\n\r\n";

const ASKS_E: &[u8] =
    b"GET /hc/coap://192.0.2.3/e HTTP/1.1\r\nHost: p\r\nConnection: close\r\n\r\nGET /hc/coap://192.0.2.3/f HTTP/1.1\r\nHost: p\r\n\r\n";

const GETS_A: &[u8] =
    b"HTTP/1.1 200 OK\r\nContent-Type: text/plain;charset=utf-8\r\nCache-Control: max-age=0\r\nContent-Length: 1\r\n\r\naHTTP/1.1 200 OK\r\nContent-Type: text/plain;charset=utf-8\r\nCache-Control: max-age=0\r\nContent-Length: 1\r\n\r\nb";

const GETS_C: &[u8] =
    b"HTTP/1.1 200 OK\r\nContent-Type: text/plain;charset=utf-8\r\nCache-Control: max-age=0\r\nContent-Length: 1\r\n\r\ncHTTP/1.1 200 OK\r\nContent-Type: text/plain;charset=utf-8\r\nCache-Control: max-age=0\r\nConnection: close\r\nContent-Length: 1\r\n\r\nd";

const GETS_E: &[u8] =
    b"HTTP/1.1 200 OK\r\nContent-Type: text/plain;charset=utf-8\r\nCache-Control: max-age=0\r\nConnection: close\r\nContent-Length: 1\r\n\r\ne";

/// A request that is begun.
const HALF: &[u8] = b"GET /hc/coap://192.0.2.1/";

const ASKS_G: &[u8] = b"GET /hc/coap://192.0.2.1/g HTTP/1.1\r\nHost: p\r\n\r\n";

const GETS_G: &[u8] =
    b"HTTP/1.1 200 OK\r\nContent-Type: text/plain;charset=utf-8\r\nCache-Control: max-age=0\r\nContent-Length: 1\r\n\r\ng";

/// Runs the loop by chance. False where it stopped, or where what it tells of isn't what clients
/// got.
fn is_run(alloc: Global, seed: u64, talks: &[Talk], turns: u32) -> bool {
    let dice = Dice::new(seed);
    let mut host = Chance::new(&dice, talks);
    let Ok(settings) = settings(alloc) else {
        return false;
    };
    let bank: Bank<Nothing> = Bank::new(Vec::new(alloc));
    let Ok(gateway) = Gateway::new(alloc, settings, Devices::new(alloc, &dice)) else {
        return false;
    };
    match Loop::new(gateway, patience(IDLE), HELD) {
        Ok(it) => goes(&bank, it, &mut host, turns) && host.is_told_all(),
        Err(_) => false,
    }
}

/// Lets the loop turn, and hears what it tells of. False where it stopped.
pub fn goes<R: Relation, S: Stream + Drop, W: Wire + Drop, H: Host<S> + Hears>(
    bank: &Bank<R>,
    it: Loop<R, S, W>,
    host: &mut H,
    turns: u32,
) -> bool
    requires { Suits R.holds R.takes it.gateway.world.rules.routes bank.now }
{
    let mut it = it;
    it.keep_told();
    'each: for _ in 0..turns {
        if it.wait(host).is_err() {
            return false;
        }
        it = match it.turn(bank, host) {
            Ok(it) => it,
            Err(_) => return false,
        };
        host.hear_of(it.told());
        it.forget_told();
    }
    host.stop();
    true
}

/// Whether each client is served, in a run by chance.
fn is_each_served(alloc: Global, seed: u64) -> bool {
    let talks = [
        Talk::new(ASKS_A, GETS_A, false),
        Talk::new(ASKS_C, GETS_C, true),
        Talk::new(ASKS_A, GETS_A, false),
        Talk::new(ASKS_E, GETS_E, true),
    ];
    is_run(alloc, seed, &talks, TURNS) && talks.iter().all(Talk::is_served)
}

#[test]
fn any_signs_in_any_order(rt: HostRuntime) {
    'each: for seed in 1..25u64 {
        assert!(rt;
            is_each_served(rt.alloc(), seed * 0x9e37_79b9),
            "run {seed}"
        );
    }
}

/// Whether a client that stops within a request is let go, and one that was answered isn't, in a
/// run by chance.
fn is_let_go(alloc: Global, seed: u64) -> bool {
    let talks = [Talk::new(HALF, b"", true), Talk::new(ASKS_G, GETS_G, true)];
    is_run(alloc, seed, &talks, LONG)
        && talks[0].let_go.get()
        && !talks[1].let_go.get()
        && !talks[1].wrong.get()
        && talks[1].count.get() == GETS_G.len()
}

#[test]
fn who_stands_still_is_let_go(rt: HostRuntime) {
    'each: for seed in 1..4u64 {
        assert!(rt; is_let_go(rt.alloc(), seed * 0x9e37_79b9), "run {seed}");
    }
}
