//! What happens to a device, step by step, and what it does.

ghost use Rattle.demo_origin.specs.Origins.{Sound};

use demo_origin::{Behaviour, Origin};
use std::net::{IpAddr, Ipv4Addr};
use uri_map::Peer;

/// A step. Peers are told apart by their ports.
#[derive(Clone, Copy)]
pub enum Step {
    /// This datagram comes at that moment from that port, and a handler is asked.
    Executes(u64, u16, &'static [u8]),
    /// It comes, and none is asked.
    Hears(u64, u16, &'static [u8]),
    /// It comes from so many ports, from 0 on, and each is answered.
    Answers(u64, u16, &'static [u8]),
    /// The next datagram that goes out is this one, to that port.
    Sends(u16, &'static [u8]),
    /// Nothing goes out.
    Quiet,
    /// The device looks at its timers at that moment.
    Ticks(u64),
    /// The next copy, or the end of an observer, is due at that moment, or none is.
    Due(Option<u64>),
}

/// What the device did with a datagram.
#[derive(Clone, Copy, PartialEq, Eq)]
enum Did {
    /// A handler was asked.
    Executed,
    /// None was.
    Nothing,
    /// It ran out of memory.
    NoMemory,
}

/// Who asks: 198.51.100.1 at that port.
fn peer(port: u16) -> Peer {
    Peer {
        address: IpAddr::V4(Ipv4Addr::new(198, 51, 100, 1)),
        port,
    }
}

/// What it does with a datagram.
fn hears_once<H: Behaviour>(origin: &mut Origin<H>, moment: u64, port: u16, datagram: &[u8]) -> Did
    requires { Sound H.relation origin.old }
    ensures { Sound H.relation origin.new }
{
    match origin.heard(moment, peer(port), datagram) {
        Ok(Some(_)) => Did::Executed,
        Ok(None) => Did::Nothing,
        Err(_) => Did::NoMemory,
    }
}

/// What it does with a datagram, which comes once more where memory was refused.
fn hears<H: Behaviour>(origin: &mut Origin<H>, moment: u64, port: u16, datagram: &[u8]) -> Did
    requires { Sound H.relation origin.old }
    ensures { Sound H.relation origin.new }
{
    match hears_once(origin, moment, port, datagram) {
        Did::NoMemory => hears_once(origin, moment, port, datagram),
        did => did,
    }
}

/// Whether the next datagram that it sends is this one, and goes to that port.
fn sends<H: Behaviour>(origin: &mut Origin<H>, port: u16, datagram: &[u8]) -> bool
    requires { Sound H.relation origin.old }
    ensures { Sound H.relation origin.new }
{
    match origin.take_send() {
        Some(sent) => sent.peer == peer(port) && sent.bytes.as_slice() == datagram,
        None => false,
    }
}

/// Whether it has nothing to send.
fn is_quiet<H: Behaviour>(origin: &mut Origin<H>) -> bool
    requires { Sound H.relation origin.old }
    ensures { Sound H.relation origin.new }
{
    origin.take_send().is_none()
}

/// Whether it looks at its timers, once more where memory was refused.
fn ticks<H: Behaviour>(origin: &mut Origin<H>, moment: u64) -> bool
    requires { Sound H.relation origin.old }
    ensures { Sound H.relation origin.new }
{
    origin.tick(moment).is_ok() || origin.tick(moment).is_ok()
}

/// Whether it answers that datagram, and asks no handler.
fn shows<H: Behaviour>(origin: &mut Origin<H>, moment: u64, port: u16, datagram: &[u8]) -> bool
    requires { Sound H.relation origin.old }
    ensures { Sound H.relation origin.new }
{
    hears(origin, moment, port, datagram) == Did::Nothing && !is_quiet(origin)
}

/// Whether it answers that datagram of so many ports, from 0 on.
fn answers<H: Behaviour>(origin: &mut Origin<H>, moment: u64, count: u16, datagram: &[u8]) -> bool
    requires { Sound H.relation origin.old }
    ensures { Sound H.relation origin.new }
{
    'each: for port in 0..count {
        if !shows(origin, moment, port, datagram) {
            return false;
        }
    }
    true
}

fn does<H: Behaviour>(origin: &mut Origin<H>, step: Step) -> bool
    requires { Sound H.relation origin.old }
    ensures { Sound H.relation origin.new }
{
    match step {
        Step::Executes(moment, port, datagram) => {
            hears(origin, moment, port, datagram) == Did::Executed
        }
        Step::Hears(moment, port, datagram) => {
            hears(origin, moment, port, datagram) == Did::Nothing
        }
        Step::Answers(moment, count, datagram) => answers(origin, moment, count, datagram),
        Step::Sends(port, datagram) => sends(origin, port, datagram),
        Step::Quiet => is_quiet(origin),
        Step::Ticks(moment) => ticks(origin, moment),
        Step::Due(due) => origin.next_due() == due,
    }
}

/// The number of the first step that the device doesn't do.
pub fn fails_at<H: Behaviour>(origin: &mut Origin<H>, steps: &[Step]) -> Option<usize>
    requires { Sound H.relation origin.old }
    ensures { Sound H.relation origin.new }
{
    'each: for number in 0..steps.len() {
        if !does(origin, steps[number]) {
            return Some(number);
        }
    }
    None
}
