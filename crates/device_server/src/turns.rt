//! The turns of a device: it waits, hears, looks at its timers, and sends.

ghost use Rattle.std.specs.Prelude.{◌≡◌, ◌⊎◌, ◌≤◌, ◌-◌, ◌<◌, ◌+◌, min, length, Some, IfOk, IfSome, OnErr};
ghost use Rattle.demo_origin.specs.Origins.{Sound, device};
ghost use Rattle.device_server.specs.Turns.{Grown, GrownByOne, HearsCame, LooksAt, received, missed, Fails, GoesOn, GoesThrough};
ghost use Rattle.device_server.specs.Sending.{emptied};

use crate::clock::Clock;
use crate::wire::{Failed, Wire};
use demo_origin::{Behaviour, Origin};
use uri_map::Peer;

/// The longest datagram that is taken, and one byte more, by which a longer one shows.
const BUFFER_LEN: usize = 2049;

/// How long a wait lasts at most, in milliseconds.
const LONGEST_WAIT: u64 = 1000;

/// Whether there was memory for what a turn had to do.
#[derive(Clone, Copy, Debug, PartialEq, Eq)]
pub struct Turned {
    /// For what came. Without it that counts as lost.
    pub hears: bool,
    /// For what was due. Without it that is done in a later turn.
    pub looks: bool,
}

/// How many turns a device was served for, and in how many of them there was no memory for all
/// that was to be done.
#[derive(Clone, Copy, Debug, PartialEq, Eq)]
pub struct Served {
    pub turns: u64,
    pub missed: u64,
}

/// How long to wait for a datagram: until the next copy is due.
fn wait_until(due: Option<u64>, moment: u64) -> u64
    ensures within { result ≤ LONGEST_WAIT }
    ensures due { IfSome due (λ due. result ≡ min (due - moment) LONGEST_WAIT) }
{
    match due {
        Some(due) => due.saturating_sub(moment).min(LONGEST_WAIT),
        None => LONGEST_WAIT,
    }
}

/// Sends all that the device gives to be sent.
fn send_all<H: Behaviour, L: Wire>(origin: &mut Origin<H>, wire: &mut L)
    requires { Sound H.relation origin.old }
    ensures sound { Sound H.relation origin.new }
    ensures gives { device origin.new ≡ emptied (device origin.old) }
    ensures sends { Grown (L.sent wire.old) (L.sent wire.new) (device origin.old).out }
    ensures quiet { L.came wire.new ≡ L.came wire.old }
    ensures working { L.failed wire.new ≡ L.failed wire.old }
{
    'each: while let Some(datagram) = origin.take_send() {
        wire.send(datagram.peer, datagram.bytes.as_slice());
    }
}

/// Hears the datagram that was received, if there was one, and answers whether there was memory.
fn hear<H: Behaviour>(
    origin: &mut Origin<H>,
    moment: u64,
    came: Option<(usize, Peer)>,
    buffer: &[u8],
) -> bool
    requires sound { Sound H.relation origin.old }
    requires fits { IfSome came (λ r. r.0 ≤ length buffer.now) }
    ensures sound { Sound H.relation origin.new }
    ensures hears { HearsCame H.relation moment (received buffer.now came) result
        (device origin.old) (device origin.new) }
{
    match came {
        Some((count, peer)) => match origin.heard(moment, peer, &buffer[..count]) {
            Ok(_taken) => true,
            Err(_) => false,
        },
        None => true,
    }
}

/// Looks at the timers, and answers whether there was memory.
fn look<H: Behaviour>(origin: &mut Origin<H>, moment: u64) -> bool
    requires { Sound H.relation origin.old }
    ensures sound { Sound H.relation origin.new }
    ensures looks { LooksAt moment result (device origin.old) (device origin.new) }
{
    match origin.tick(moment) {
        Ok(()) => true,
        Err(_) => false,
    }
}

/// Hears a datagram, where one comes before the next copy is due, and sends what there is to send.
/// What finds no memory counts as lost.
pub fn turn<H: Behaviour, L: Wire, C: Clock>(
    origin: &mut Origin<H>,
    wire: &mut L,
    clock: &mut C,
    buffer: &mut [u8],
) -> Result<Turned, Failed>
    requires { Sound H.relation origin.old }
    ensures sound { Sound H.relation origin.new }
    ensures length { length buffer.new ≡ length buffer.old }
    ensures goes_on { IfOk result (λ turned. GoesOn H.relation turned
        (device origin.old) (device origin.new) (C.told clock.old) (C.told clock.new)
        (L.came wire.old) (L.came wire.new) (L.sent wire.old) (L.sent wire.new)) }
    ensures same { OnErr result (device origin.new ≡ device origin.old) }
    ensures quiet { OnErr result (L.sent wire.new ≡ L.sent wire.old) }
    ensures late { OnErr result (GrownByOne (C.told clock.old) (C.told clock.new)) }
    ensures lost { OnErr result (GrownByOne (L.came wire.old) (L.came wire.new)) }
    ensures fails { OnErr result (Fails (C.failed clock.new) (L.failed wire.new)) }
{
    let begun = clock.moment()?;
    let wait = wait_until(origin.next_due(), begun);
    let came = wire.receive(buffer, wait)?;
    let moment = clock.moment()?;
    let hears = hear(origin, moment, came, buffer);
    let looks = look(origin, moment);
    send_all(origin, wire);
    Ok(Turned { hears, looks })
}

fn with_missed(before: u64, turned: Turned) -> u64
    requires { before < u64.MAX }
    ensures { result ≡ before + missed turned }
{
    if turned.hears && turned.looks {
        before
    } else {
        before + 1
    }
}

/// Serves the device for so many turns, or until the wire or the clock fails.
pub fn serve<H: Behaviour, L: Wire, C: Clock>(
    origin: &mut Origin<H>,
    wire: &mut L,
    clock: &mut C,
    turns: u64,
) -> Served
    requires { Sound H.relation origin.old }
    ensures sound { Sound H.relation origin.new }
    ensures turns { result.turns ≤ turns }
    ensures ends { (result.turns ≡ turns) ⊎ Fails (C.failed clock.new) (L.failed wire.new) }
    ensures goes { GoesThrough H.relation turns result
        (device origin.old) (device origin.new) (C.told clock.old) (C.told clock.new)
        (L.came wire.old) (L.came wire.new) (L.sent wire.old) (L.sent wire.new) }
{
    let mut buffer = [0u8; BUFFER_LEN];
    let mut missed = 0;
    'each: for number in 0..turns {
        match turn(origin, wire, clock, &mut buffer) {
            Ok(turned) => missed = with_missed(missed, turned),
            Err(Failed) => {
                return Served {
                    turns: number,
                    missed,
                };
            }
        }
    }
    Served { turns, missed }
}
