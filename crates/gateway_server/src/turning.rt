//! The thread that turns the journal over.

use crate::shared::Shared;
use exchange_core::RotateFault;
use gateway_desk::{Report, SettleFault, TurnFault, TurnReason};
use gateway_system::moment;
use log::{Log, info, warn};
use std::random::RandomSource;
use std::rt::Clock;
use std::sync::Wait;
use std::sync::ledger::Ledger;
use std::thread;
use std::time::Duration;

/// How long it is waited until those who are connected are looked at again, in milliseconds.
const LOOK: u64 = 5;

/// How often they are looked at until it is noted that somebody is connected yet: for ten seconds.
const LONGEST_LOOKS: u64 = 2_000;

/// How long it is waited until a turn that was refused is tried again, in milliseconds.
const PAUSE: u64 = 100;

/// Turns the journal over each time it is nearly full, until the desk is shut. The sessions end,
/// each with the answer to its next request, and those that wait for one for a while; then the
/// journal is filled up to its seal and settled, and the next one begins. What comes meanwhile waits
/// in the sockets. At its end this shuts the desk.
pub fn turn_journals<W: Wait + Log + Clock + RandomSource + Drop, L: Ledger, V: Wait + Log + Clock>(
    rt: &V,
    shared: &Shared<W, L>,
) {
    let mut number: u64 = 1;
    for _ in rt.forever() {
        if !turn_one(rt, shared, number) {
            break;
        }
        number = number.saturating_add(1);
    }
    shared.desk.shut(rt);
}

/// Turns the journal with this number over, once it is nearly full. False where it isn't any more.
fn turn_one<W: Clock + RandomSource + Drop, L: Ledger, V: Wait + Log + Clock>(
    rt: &V,
    shared: &Shared<W, L>,
    number: u64,
) -> bool {
    if !shared.desk.wait_full(rt) {
        return false;
    }
    let begin = moment(rt).unwrap_or(0);
    info!(rt; target: "hcproxy", "journal {number} is nearly full: connections are closed");
    if !await_end(rt, shared, number) {
        return false;
    }
    let Some(Report { asks, answers: _ }) = turn(rt, shared) else {
        return false;
    };
    let time = moment(rt).unwrap_or(0).saturating_sub(begin);
    info!(
        rt;
        target: "hcproxy",
        "journal {number} is turned over after {time} ms: {asks} requests"
    );
    true
}

/// Waits until nobody is connected and no exchange is open, and notes it where that takes long.
/// False where the desk was shut.
fn await_end<W: Clock + RandomSource + Drop, L: Ledger, V: Wait + Log + Clock>(
    rt: &V,
    shared: &Shared<W, L>,
    number: u64,
) -> bool {
    let mut looks: u64 = 0;
    for _ in rt.forever() {
        if shared.desk.is_shut(rt) {
            return false;
        }
        let now = moment(rt).unwrap_or(0);
        let is_left = shared.roll.lock(rt).is_left(now);
        if is_left && shared.desk.is_quiet(rt) {
            return true;
        }
        if looks == LONGEST_LOOKS {
            warn!(
                rt;
                target: "hcproxy",
                "journal {number} isn't turned over yet: what is in hand is waited for"
            );
        }
        looks = looks.saturating_add(1);
        thread::sleep(rt, Duration::from_millis(LOOK));
    }
    unreachable!()
}

/// Turns the journal over, as soon as it may be. None where it can't be any more, which is noted.
fn turn<W: Clock + RandomSource + Drop, L: Ledger, V: Wait + Log + Clock>(
    rt: &V,
    shared: &Shared<W, L>,
) -> Option<Report> {
    for _ in rt.forever() {
        if shared.desk.is_shut(rt) {
            return None;
        }
        match try_turn(rt, shared) {
            Ok(report) => return Some(report),
            Err(Some(why)) if is_final(why) => {
                warn!(rt; target: "hcproxy", "the journal isn't turned over: {why}");
                return None;
            }
            Err(_) => thread::sleep(rt, Duration::from_millis(PAUSE)),
        }
    }
    unreachable!()
}

/// Brings the journal to its seal and turns it over. No reason is given where it isn't sealed, since
/// memory is wanted.
fn try_turn<W: Clock + RandomSource + Drop, L: Ledger, V: Wait>(
    rt: &V,
    shared: &Shared<W, L>,
) -> Result<Report, Option<TurnReason>> {
    if shared.desk.fill_up(rt).is_err() {
        return Err(None);
    }
    let passes = shared.roll.lock(rt).take_passes();
    match shared.desk.turn(rt, passes) {
        Ok((_journal, report)) => Ok(report),
        Err(TurnFault { why, passes }) => {
            shared.roll.lock(rt).put_back(passes);
            Err(Some(why))
        }
    }
}

/// Whether a turn that is refused so stays refused.
fn is_final(why: TurnReason) -> bool {
    match why {
        TurnReason::Rotate(fault) => fault == RotateFault::Spent,
        TurnReason::Settle(fault) => fault != SettleFault::Memory,
    }
}
