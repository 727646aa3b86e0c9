//! A session that has its desk for itself, of which memory is refused for one step: one of its own,
//! which ends it, or a datagram or a tick that comes while it waits, which don't. Nothing is
//! refused by itself: `rt try --test --fail-alloc N` refuses the Nth allocation.

ghost use Rattle.std.specs.Prelude.{◌≡◌, ◌-◌, ◌^◌};

use crate::failing::{Went, outcome_of};
use gateway_desk::{Shop, Wire};
use limits::MAX_DATAGRAM_LEN;
use sessions::{Done, Gate, Point};
use std::alloc::Global;
use std::marker::Brand;
use std::sync::Wait;
use std::sync::ledger::{Blank, Ledger};
use trials_clients::{Nothing, shared_settings};
use trials_desk::{
    Client, Counter, Device, Manner, SOUND, Tape, closed_at, new_desk, serve_plainly, twice,
};

/// More turns than a session waits, also where a datagram is lost.
const TURNS: u32 = 8;

/// More datagrams than come or go in a turn.
const MANY: u32 = 8;

/// By how many milliseconds the clock goes on at each reading.
const STEP: u64 = 3_000;

/// A gate that lets time go on while its session waits, sends what is due, and hands in what comes.
#[derive(Drop)]
struct Meanwhile<'a, L: Ledger, W: Wait> {
    rt: &'a W,
    device: &'a Device,
    desk: &'a Counter<L>,
    /// whether memory was refused for a datagram or a tick
    is_refused: bool,
}

impl<L: Ledger, W: Wait> Meanwhile<'_, L, W> {
    fn send_all(&self) {
        for _ in 0..MANY {
            match self.desk.take_send(self.rt) {
                Ok(datagram) => datagram.send(self.device),
                Err(_) => return,
            }
        }
    }

    /// Whether memory was refused for one.
    fn hear_all(&self) -> bool {
        let mut buffer = [0u8; MAX_DATAGRAM_LEN + 1];
        let mut is_refused = false;
        for _ in 0..MANY {
            let Ok(Some(inbound)) = self.device.receive(&mut buffer) else {
                return is_refused;
            };
            is_refused = self.desk.heard(self.rt, inbound, &buffer).is_err() || is_refused;
        }
        is_refused
    }

    fn turn(&mut self) {
        let no_tick = self.desk.tick(self.rt).is_err();
        self.send_all();
        self.is_refused = self.hear_all() || no_tick || self.is_refused;
    }
}

impl<L: Ledger, W: Wait> Gate for Meanwhile<'_, L, W> {
    ghost nays = { λ g. 0 };

    fn noes(&self) -> u64 {
        0
    }

    fn pass(&mut self, point: Point, _number: u32) -> bool {
        if point == Point::Asked {
            for _ in 0..TURNS {
                self.turn();
            }
        }
        true
    }
}

/// Whether the last entry of the journal is that the first connection was closed.
fn is_closed_last<L: Ledger>(desk: Counter<L>) -> bool {
    let shop: Shop<Nothing, L> = desk.into_shop();
    let journal = shop.journal();
    match journal.len().checked_sub(1) {
        Some(last) => closed_at(journal, last) == Some(0),
        None => false,
    }
}

/// How the session of a client goes. It goes as it was to where what was refused is a datagram or a
/// tick. None where the memory was refused that the trial wants for itself.
fn serve_meanwhile<L: Ledger, W: Wait>(
    rt: &W,
    alloc: Global,
    desk: &Counter<L>,
    client: &'static Client,
) -> Option<Went> {
    let device = Device::new(alloc, Manner::Prompt, SOUND);
    let settings = shared_settings(alloc)?;
    let pass = desk.open(rt).ok()?;
    let mut tape = Tape::of(client);
    let mut gate = Meanwhile {
        rt,
        device: &device,
        desk,
        is_refused: false,
    };
    let Done { pass: _, end } = serve_plainly(
        rt, alloc, &device, desk, &settings, &mut tape, &mut gate, pass,
    );
    match outcome_of(client, &tape, end) {
        Went::CutOff if gate.is_refused => Some(Went::Wrong),
        went => Some(went),
    }
}

/// The same, where the connection is closed at the end in any case.
fn run<L: Ledger, W: Wait>(
    rt: &W,
    alloc: Global,
    blank: Blank,
    client: &'static Client,
) -> Option<Went>
    requires name { blank.name ≡ L.name }
    requires parts { (blank.parts ≡ L.parts) × (blank.parts ≡ 2 ^ 32 - 1) }
{
    let desk: Counter<L> = new_desk(alloc, blank, STEP)?;
    let went = serve_meanwhile(rt, alloc, &desk, client)?;
    if is_closed_last(desk) {
        Some(went)
    } else {
        Some(Went::Wrong)
    }
}

/// The same, of a client that puts a body that it is asked for, and gets what it put.
fn goes<W: Wait>(rt: &W, alloc: Global) -> Option<Went> {
    let client = twice().one.first()?;
    run::<Brand, W>(rt, alloc, Blank::new(4294967295), client)
}

/// Whether a session may go so, of which memory was refused for one step at most.
fn may_go(went: Option<Went>) -> bool {
    matches!(went, None | Some(Went::Right | Went::CutOff))
}

/// Whether two sessions go well. One allocation is refused at most, so one of them isn't cut off.
fn hold<W: Wait>(rt: &W, alloc: Global) -> bool {
    let (first, second) = (goes(rt, alloc), goes(rt, alloc));
    let is_right = first == Some(Went::Right) || second == Some(Went::Right);
    is_right && may_go(first) && may_go(second)
}

#[test]
fn memory_refused_to_a_session_or_beside_it(rt: HostRuntime) {
    assert!(rt; hold(&rt, rt.alloc()));
}
