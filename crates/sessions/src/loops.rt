//! The loops beside the sessions.

ghost use Rattle.std.specs.Prelude.{◌<◌, length};
ghost use Rattle.limits.specs.declared.TheConstants.{MAX_DATAGRAM_LEN};

use gateway_desk::{Clock, LockedDesk, Wire};
use limits::MAX_DATAGRAM_LEN;
use std::alloc::Global;
use std::sync::Wait;
use std::sync::ledger::Ledger;
use transformers::Relation;

/// Sends what waits to be sent. Nothing is sent under the lock.
pub fn send_due<R: Relation, C: Clock, L: Ledger, N: Wire, W: Wait>(
    rt: &W,
    wire: &N,
    desk: &LockedDesk<R, C, L>,
) {
    for _ in rt.forever() {
        match desk.take_send(rt) {
            Ok(datagram) => {
                datagram.send(wire);
            }
            Err(_) => return,
        }
    }
}

/// Hands in the datagrams that are heard, in so many turns or until the wire fails. Each turn waits
/// for a datagram, hands it in, and sends what is then due. At its end it shuts the desk.
pub fn udp_loop<R: Relation, C: Clock, L: Ledger, N: Wire, W: Wait>(
    rt: &W,
    alloc: Global,
    wire: &N,
    desk: &LockedDesk<R, C, L>,
    turns: u64,
) {
    if let Ok(mut buffer) = vec![in alloc; 0u8; MAX_DATAGRAM_LEN + 1] {
        hear_all(rt, wire, desk, &mut buffer, turns);
    }
    desk.shut(rt);
}

/// The turns of the UDP loop, with a buffer for one datagram. They end where the desk was shut.
fn hear_all<R: Relation, C: Clock, L: Ledger, N: Wire, W: Wait>(
    rt: &W,
    wire: &N,
    desk: &LockedDesk<R, C, L>,
    buffer: &mut [u8],
    turns: u64,
)
    requires { MAX_DATAGRAM_LEN < length buffer.old }
{
    for _ in 0..turns {
        if desk.is_shut(rt) {
            return;
        }
        match wire.receive(buffer) {
            Ok(Some(inbound)) => {
                // a datagram that memory was refused for is lost, as any may be on its way
                let _ = desk.heard(rt, inbound, buffer);
                send_due(rt, wire, desk);
            }
            Ok(None) => {}
            Err(_) => return,
        }
    }
}

/// Lets time go on, in so many turns or until the clock fails. Each turn does what is due and rests
/// until something is due again; if it had no memory for it, it rests for a pause. At its end it
/// shuts the desk.
pub fn tick_loop<R: Relation, C: Clock, L: Ledger, N: Wire, W: Wait + std::rt::Clock>(
    rt: &W,
    wire: &N,
    desk: &LockedDesk<R, C, L>,
    turns: u64,
) {
    for _ in 0..turns {
        let was_refused = match desk.tick(rt) {
            Ok(ticked) if ticked.clock_failed => break,
            Ok(_) => false,
            Err(_) => true,
        };
        send_due(rt, wire, desk);
        if !desk.rest(rt, was_refused) {
            break;
        }
    }
    desk.shut(rt);
}
