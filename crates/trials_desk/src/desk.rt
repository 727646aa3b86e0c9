//! A desk, what goes on beside its sessions, and how one of them is served.

ghost use Rattle.std.specs.Prelude.{◌≡◌, ◌-◌, ◌^◌, []};
ghost use Rattle.std.specs.Arc.{arc_value};
ghost use Rattle.ask_model.specs.Views.{rules_of};

use crate::client::{Steps, Tape};
use crate::device::Device;
use ask_model::Settings;
use gateway_desk::{LockedDesk, Pass, Shop};
use journal_book::{Event, Journal};
use sessions::{Done, Gate, Gateway, serve, tick_loop, udp_loop};
use std::alloc::Global;
use std::sync::ledger::{Blank, Ledger};
use std::sync::{Arc, Wait};
use std::thread;
use std::thread::Threads;
use transformers::Bank;
use trials_clients::Nothing;

/// Turns within which all is done.
const TURNS: u64 = 1_000_000;

/// A desk that sessions of these trials share.
pub type Counter<L> = LockedDesk<Nothing, Steps, L>;

/// A desk over a new shop.
pub fn new_desk<L: Ledger>(alloc: Global, blank: Blank, step: u64) -> Option<Counter<L>>
    requires name { blank.name ≡ L.name }
    requires parts { (blank.parts ≡ L.parts) × (blank.parts ≡ 2 ^ 32 - 1) }
{
    let shop: Shop<Nothing, L> = Shop::new(alloc, blank).ok()?;
    LockedDesk::new(alloc, shop, Steps { at: 0, step }).ok()
}

/// Serves a connection under settings without routes, so that no bank of transformers is needed.
pub fn serve_plainly<L: Ledger, G: Gate, W: Wait>(
    rt: &W,
    alloc: Global,
    device: &Device,
    desk: &Counter<L>,
    settings: &Arc<Settings>,
    tape: &mut Tape,
    gate: &mut G,
    pass: Pass<Nothing, L>,
) -> Done<Nothing, L>
    requires { (rules_of (arc_value settings.now)).routes ≡ [] }
{
    let bank: Bank<Nothing> = Bank::new(Vec::new(alloc));
    let gateway = Gateway {
        alloc,
        wire: device,
        desk,
        settings,
        bank: &bank,
    };
    serve(rt, &gateway, tape, gate, pass)
}

/// Lets time go on, and hands in what the devices send.
pub fn go_on<L: Ledger + Send + Sync, W: Threads + Wait + std::rt::Clock + Sync>(
    rt: &W,
    alloc: Global,
    device: &Device,
    desk: &Counter<L>,
) {
    thread::join(
        rt,
        || tick_loop(rt, device, desk, TURNS),
        || udp_loop(rt, alloc, device, desk, TURNS),
    );
}

/// The connection that the entry with this number closes.
pub fn closed_at(journal: &Journal<Nothing>, number: usize) -> Option<u32> {
    match &journal.get(number)?.event {
        Event::Shut(conn) => Some(*conn),
        _ => None,
    }
}
