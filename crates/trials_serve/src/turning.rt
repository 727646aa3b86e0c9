//! Journals that are turned over, one after the other.

ghost use Rattle.std.specs.Prelude.{◌≡◌, ◌-◌, ◌^◌, ◌<◌, IfSome};

use crate::settling::ask;
use exchange_core::RotateFault;
use gateway_desk::{Pass, Report, SettleFault, TurnFault, TurnReason};
use journal_book::{Event, Journal};
use std::alloc::Global;
use std::marker::Brand;
use std::sync::Wait;
use std::sync::ledger::{Blank, Ledger};
use trials_clients::Nothing;
use trials_desk::{Counter, new_desk};

/// How many journals are turned over.
const TURNS: u32 = 3;

/// The pass of a session that asked, was answered and has ended.
fn ended<L: Ledger, W: Wait>(rt: &W, alloc: Global, desk: &Counter<L>) -> Option<Pass<Nothing, L>> {
    let mut pass = desk.open(rt).ok()?;
    let ticket = ask(rt, alloc, desk, &mut pass)?;
    if !desk.wait(rt, &mut pass, ticket) {
        return None;
    }
    Some(desk.close(rt, pass).into_pass())
}

/// No pass, or one.
fn passes_of<L: Ledger>(
    alloc: Global,
    pass: Option<Pass<Nothing, L>>,
) -> Option<Vec<Pass<Nothing, L>>> {
    let mut passes = Vec::new(alloc);
    if let Some(pass) = pass {
        passes.push(pass).ok()?;
    }
    Some(passes)
}

/// The passes that are handed back where the journal isn't turned over, for this reason.
fn handed_back<L: Ledger, W: Wait>(
    rt: &W,
    desk: &Counter<L>,
    passes: Vec<Pass<Nothing, L>>,
    why: TurnReason,
) -> Option<Vec<Pass<Nothing, L>>> {
    match desk.turn(rt, passes) {
        Ok(_) => None,
        Err(fault) => {
            let TurnFault { why: is, passes } = fault;
            (is == why).then_some(passes)
        }
    }
}

/// The number of the connection that was opened last.
fn last_opened(journal: &Journal<Nothing>) -> Option<u32> {
    let mut last = None;
    'each: for number in 0..journal.len() {
        if let Event::Opened(conn) = &journal.get(number)?.event {
            last = Some(*conn);
        }
    }
    last
}

/// Whether two sessions' passes settle a journal, in which one alone isn't enough, and connections
/// go on by number after it.
fn turn_two<L: Ledger, W: Wait>(
    rt: &W,
    alloc: Global,
    desk: &Counter<L>,
    before: Option<u32>,
) -> Option<u32> {
    let one = ended(rt, alloc, desk)?;
    let two = ended(rt, alloc, desk)?;
    if Some(one.conn()) <= before {
        return None;
    }
    let unsealed = TurnReason::Rotate(RotateFault::Unsealed);
    let passes = handed_back(rt, desk, passes_of(alloc, Some(one))?, unsealed)?;
    desk.fill_up(rt).ok()?;
    let count = TurnReason::Settle(SettleFault::Count);
    let mut passes = handed_back(rt, desk, passes, count)?;
    if passes.len() != 1 {
        return None;
    }
    passes.push(two).ok()?;
    let (journal, report) = desk.turn(rt, passes).ok()?;
    let settled = Report {
        asks: 2,
        answers: 2,
    };
    if report == settled {
        last_opened(&journal)
    } else {
        None
    }
}

/// Whether the desk isn't turned over while a connection is open.
fn is_kept_open<L: Ledger, W: Wait>(rt: &W, alloc: Global, desk: &Counter<L>) -> Option<bool> {
    let pass = desk.open(rt).ok()?;
    desk.fill_up(rt).ok()?;
    let connected = TurnReason::Rotate(RotateFault::Connected);
    let passes = handed_back(rt, desk, passes_of(alloc, None)?, connected)?;
    desk.close(rt, pass);
    Some(passes.is_empty() && desk.turn(rt, passes).is_ok())
}

/// Several turns of one desk, and then one that is refused at first.
fn run<L: Ledger, W: Wait>(rt: &W, alloc: Global, blank: Blank) -> Option<bool>
    requires name { blank.name ≡ L.name }
    requires parts { (blank.parts ≡ L.parts) × (blank.parts ≡ 2 ^ 32 - 1) }
{
    let desk: Counter<L> = new_desk(alloc, blank, 1)?;
    let mut last = None;
    for _ in 0..TURNS {
        last = Some(turn_two(rt, alloc, &desk, last)?);
    }
    is_kept_open(rt, alloc, &desk)
}

fn goes<W: Wait>(rt: &W, alloc: Global) -> bool {
    run::<Brand, W>(rt, alloc, Blank::new(4294967295)) == Some(true)
}

#[test]
fn all_passes_settle_a_journal_that_is_turned_over(rt: HostRuntime) {
    assert!(rt; goes(&rt, rt.alloc()));
}
