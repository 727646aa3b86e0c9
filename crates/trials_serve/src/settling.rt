//! What settling refuses.

ghost use Rattle.std.specs.Prelude.{◌≡◌, ◌-◌, ◌^◌, ◌<◌, IfSome};

use ask_model::Mapped;
use exchange_core::Ticket;
use gateway_desk::{Pass, Receipt, SettleFault, settle};
use http_edge::{BadKind, Incoming};
use http_mapping::map_request;
use std::alloc::Global;
use std::marker::Brand;
use std::sync::ledger::{Blank, Ledger};
use std::sync::{Arc, Wait};
use transformers::Bank;
use trials_clients::{Nothing, shared_settings};
use trials_desk::{Counter, new_desk};

/// What a session did wrong.
#[derive(Clone, Copy, PartialEq, Eq)]
enum Wrong {
    /// It kept the same receipt for two asks.
    KeptTwice,
    /// Its pass is missing.
    Missing,
    /// It was told an answer that another shop gave.
    ToldAnother,
}

/// A request that is refused, and so answered at once.
fn refused(alloc: Global) -> Option<Arc<Mapped<Nothing>>> {
    let settings = shared_settings(alloc)?;
    let bank: Bank<Nothing> = Bank::new(Vec::new(alloc));
    match map_request(alloc, &settings, &bank, Incoming::Bad(BadKind::Syntax)) {
        Ok(mapped) => Arc::new(alloc, mapped).ok(),
        Err(_) => None,
    }
}

/// Asks on the connection of a pass.
pub fn ask<L: Ledger, W: Wait>(
    rt: &W,
    alloc: Global,
    desk: &Counter<L>,
    pass: &mut Pass<Nothing, L>,
) -> Option<Ticket<Nothing>>
    ensures { IfSome result (λ t. 0 < pass.new.places) }
{
    let mapped = refused(alloc)?;
    desk.ask(rt, pass, mapped).ok()
}

/// The receipt of an ask, which the pass doesn't keep.
fn take<L: Ledger, W: Wait>(
    rt: &W,
    alloc: Global,
    desk: &Counter<L>,
    pass: &mut Pass<Nothing, L>,
) -> Option<Receipt<Nothing>> {
    let ticket = ask(rt, alloc, desk, pass)?;
    desk.answer(rt, ticket)
}

/// Asks, and keeps this receipt.
fn ask_and_keep<L: Ledger, W: Wait>(
    rt: &W,
    alloc: Global,
    desk: &Counter<L>,
    pass: &mut Pass<Nothing, L>,
    kept: Receipt<Nothing>,
) -> bool {
    let asked = ask(rt, alloc, desk, pass).is_some();
    if asked {
        pass.keep(kept);
    }
    asked
}

/// The pass of a session that keeps one receipt for two asks.
fn keep_twice<L: Ledger, W: Wait>(
    rt: &W,
    alloc: Global,
    desk: &Counter<L>,
) -> Option<Pass<Nothing, L>> {
    let mut pass = desk.open(rt).ok()?;
    let receipt = take(rt, alloc, desk, &mut pass)?;
    let copy = receipt.copy().ok()?;
    let kept = ask_and_keep(rt, alloc, desk, &mut pass, copy)
        && ask_and_keep(rt, alloc, desk, &mut pass, receipt);
    kept.then_some(pass)
}

/// The pass of a session that is told an answer.
fn told<L: Ledger, W: Wait>(
    rt: &W,
    desk: &Counter<L>,
    answer: &Receipt<Nothing>,
) -> Option<Pass<Nothing, L>> {
    let mut pass = desk.open(rt).ok()?;
    pass.told(answer).ok()?;
    Some(pass)
}

/// What a session leaves.
fn leave<L: Ledger, W: Wait>(
    rt: &W,
    alloc: Global,
    desk: &Counter<L>,
    wrong: Wrong,
    other: &Receipt<Nothing>,
) -> Option<Pass<Nothing, L>> {
    if wrong == Wrong::ToldAnother {
        return told(rt, desk, other);
    }
    let pass = keep_twice(rt, alloc, desk);
    pass.filter(|_| wrong == Wrong::KeptTwice)
}

/// Why what was left isn't settled.
fn settled<L: Ledger>(
    alloc: Global,
    desk: Counter<L>,
    pass: Option<Pass<Nothing, L>>,
) -> Option<SettleFault> {
    let mut passes = Vec::new(alloc);
    if let Some(pass) = pass {
        passes.push(pass).ok()?;
    }
    settle(alloc, desk.into_shop(), passes).err()
}

fn run_wrong<L: Ledger, W: Wait>(
    rt: &W,
    alloc: Global,
    blank: Blank,
    wrong: Wrong,
    other: &Receipt<Nothing>,
) -> Option<SettleFault>
    requires name { blank.name ≡ L.name }
    requires parts { (blank.parts ≡ L.parts) × (blank.parts ≡ 2 ^ 32 - 1) }
{
    let desk: Counter<L> = new_desk(alloc, blank, 0)?;
    let pass = leave(rt, alloc, &desk, wrong, other);
    settled(alloc, desk, pass)
}

/// An answer that a shop gave.
fn run_other<L: Ledger, W: Wait>(rt: &W, alloc: Global, blank: Blank) -> Option<Receipt<Nothing>>
    requires name { blank.name ≡ L.name }
    requires parts { (blank.parts ≡ L.parts) × (blank.parts ≡ 2 ^ 32 - 1) }
{
    let desk: Counter<L> = new_desk(alloc, blank, 0)?;
    let mut pass = desk.open(rt).ok()?;
    take(rt, alloc, &desk, &mut pass)
}

fn other_receipt<W: Wait>(rt: &W, alloc: Global) -> Option<Receipt<Nothing>> {
    run_other::<Brand, W>(rt, alloc, Blank::new(4294967295))
}

fn settled_so<W: Wait>(
    rt: &W,
    alloc: Global,
    wrong: Wrong,
    other: &Receipt<Nothing>,
) -> Option<SettleFault> {
    run_wrong::<Brand, W>(rt, alloc, Blank::new(4294967295), wrong, other)
}

/// Whether settling refuses what a session does so.
fn is_refused<W: Wait>(rt: &W, alloc: Global, wrong: Wrong, fault: SettleFault) -> bool {
    match other_receipt(rt, alloc) {
        Some(other) => settled_so(rt, alloc, wrong, &other) == Some(fault),
        None => false,
    }
}

#[test]
fn what_isnt_justified_is_refused(rt: HostRuntime) {
    let alloc = rt.alloc();
    assert!(rt; is_refused(&rt, alloc, Wrong::KeptTwice, SettleFault::Repeated(1)));
    assert!(rt; is_refused(&rt, alloc, Wrong::Missing, SettleFault::Count));
    assert!(rt; is_refused(&rt, alloc, Wrong::ToldAnother, SettleFault::Stranger(1)));
}
