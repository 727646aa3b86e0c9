//! A call that memory was refused is made once more; until then the watches are as before. With any
//! one allocation of a run refused, it goes as it would have gone.

use crate::samples::{reading, target, token, watched};
use crate::telling::check;
use observe_share::{Notice, Notified, Registration, Watch, WatchFault};
use std::alloc::Global;
use uri_map::Target;

fn one_target(alloc: Global, segment: &str) -> Option<Target> {
    match target(alloc, segment) {
        Ok(target) => Some(target),
        Err(_) => target(alloc, segment).ok(),
    }
}

fn one_watched(alloc: Global, segment: &str, last: u8) -> Option<Registration> {
    let registration = match watched(alloc, segment, last, 0) {
        Ok(registration) => registration,
        Err(_) => watched(alloc, segment, last, 0).ok()?,
    };
    match registration.share() {
        Ok(shared) => Some(shared),
        Err(_) => registration.share().ok(),
    }
}

/// Registers the watch, of which nothing stays where memory is refused.
fn registers(watch: &mut Watch, alloc: Global, segment: &str, last: u8) -> Option<()> {
    let before = watch.len();
    match watch.register(one_watched(alloc, segment, last)?) {
        Ok(()) => Some(()),
        Err(WatchFault::Memory) if watch.len() == before && watch.under(&token(last)).is_none() => {
            watch.register(one_watched(alloc, segment, last)?).ok()
        }
        Err(_) => None,
    }
}

fn copied(watch: &Watch) -> Option<Watch> {
    match watch.copy() {
        Ok(copy) => Some(copy),
        Err(_) => watch.copy().ok(),
    }
}

/// Watches of six targets, of which one is retired, one is forgotten, and one ends.
fn three_of_six(alloc: Global) -> Option<Watch> {
    let mut watch = Watch::new(alloc);
    for last in 0..4u8 {
        registers(&mut watch, alloc, "t", last)?;
    }
    registers(&mut watch, alloc, "u", 4)?;
    registers(&mut watch, alloc, "v", 5)?;
    watch.retire(&reading(&one_target(alloc, "u")?));
    watch.forget(&reading(&one_target(alloc, "v")?));
    match watch.notified(&token(0), Notice::Other(None), 20) {
        Notified::Ended(_) => Some(watch),
        _ => None,
    }
}

#[test]
fn memory_refused_once(rt: HostRuntime) {
    let watch = three_of_six(rt.alloc()).expect(&rt, "watches");
    let copy = copied(&watch).expect(&rt, "a copy");
    check(&rt, "the watches", watch.len() == 3);
    check(&rt, "the copy", copy.len() == 3);
    check(&rt, "what is due", copy.next_due() == Some(120_000));
}
