//! How many watches may stand.

use crate::samples::{token, watched};
use crate::telling::check;
use observe_share::{Notice, Watch, WatchFault};
use std::alloc::Global;

/// Registers a watch under the token that ends so.
fn register(watch: &mut Watch, alloc: Global, last: u8) -> Result<(), WatchFault> {
    match watched(alloc, "t", last, 0) {
        Ok(registration) => watch.register(registration),
        Err(_) => Err(WatchFault::Memory),
    }
}

/// Registers watches under the tokens that end in 0 to 63.
fn fill(watch: &mut Watch, alloc: Global) -> Result<(), WatchFault> {
    for last in 0..64u8 {
        register(watch, alloc, last)?;
    }
    Ok(())
}

fn is_under(watch: &Watch, last: u8) -> bool {
    watch.under(&token(last)).is_some()
}

#[test]
fn the_sixty_fifth_is_refused(rt: HostRuntime) {
    let alloc = rt.alloc();
    let mut watch = Watch::new(alloc);
    check(&rt, "at first", watch.is_empty());
    check(&rt, "64", fill(&mut watch, alloc) == Ok(()));
    check(
        &rt,
        "one more",
        register(&mut watch, alloc, 64) == Err(WatchFault::Full),
    );
    check(&rt, "they stand", watch.len() == 64);
    check(&rt, "the last", is_under(&watch, 63));
    check(&rt, "the refused", !is_under(&watch, 64));
}

/// Registers a watch under the token that ends so, where room was made before.
fn registers_in_room(watch: &mut Watch, alloc: Global, last: u8) -> bool {
    let Ok(registration) = watched(alloc, "t", last, 0) else {
        return false;
    };
    if watch.len() >= 64 || watch.make_room().is_err() {
        return false;
    }
    watch.register_in_room(registration);
    true
}

/// A notification with this number counts at 20.
fn counts(watch: &Watch, version: u32) -> bool {
    watch
        .counting(&token(1), Notice::Update(version), 20)
        .is_some()
}

#[test]
fn a_look_changes_nothing(rt: HostRuntime) {
    let alloc = rt.alloc();
    let mut watch = Watch::new(alloc);
    check(&rt, "in room", registers_in_room(&mut watch, alloc, 1));
    check(&rt, "a newer one", counts(&watch, 1));
    check(
        &rt,
        "the same again",
        counts(&watch, 1) && !counts(&watch, 0),
    );
}

fn fault_is(alloc: Global, fault: WatchFault, words: &str) -> bool {
    match format!(in alloc; "{fault}") {
        Ok(text) => text.as_str() == words,
        Err(_) => false,
    }
}

#[test]
fn faults_are_told(rt: HostRuntime) {
    let alloc = rt.alloc();
    check(
        &rt,
        "full",
        fault_is(alloc, WatchFault::Full, "64 resources are watched"),
    );
    check(
        &rt,
        "memory",
        fault_is(alloc, WatchFault::Memory, "out of memory"),
    );
}
