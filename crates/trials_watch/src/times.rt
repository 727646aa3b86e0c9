//! How long a watch stands, and what else ends it.

use crate::samples::{reading, target, watched};
use crate::telling::check;
use observe_share::Watch;
use std::alloc::Global;

/// Watches of two targets, asked for at 0.
fn two_watches(alloc: Global) -> Option<Watch> {
    let mut watch = Watch::new(alloc);
    watch.register(watched(alloc, "t", 7, 0).ok()?).ok()?;
    watch.register(watched(alloc, "u", 8, 0).ok()?).ok()?;
    Some(watch)
}

/// So many watches end at this moment, and the next is due then.
fn ends(watch: &mut Watch, moment: u64, count: usize, due: Option<u64>) -> bool {
    watch.idle(moment) == count && watch.next_due() == due
}

/// The key of this segment was asked for at this moment.
fn touch(watch: &mut Watch, alloc: Global, segment: &str, moment: u64) -> Option<()> {
    let target = target(alloc, segment).ok()?;
    watch.touched(&reading(&target), moment);
    Some(())
}

#[test]
fn a_watch_stands_for_two_minutes(rt: HostRuntime) {
    let alloc = rt.alloc();
    let mut watch = two_watches(alloc).expect(&rt, "memory");
    check(
        &rt,
        "touched",
        touch(&mut watch, alloc, "u", 5000).is_some(),
    );
    check(&rt, 0, watch.next_due() == Some(120_000));
    let idle = watch.has_idle(120_000) && !watch.has_idle(119_999);
    check(&rt, "one is idle", idle);
    check(&rt, 119_999, ends(&mut watch, 119_999, 0, Some(120_000)));
    check(&rt, 120_000, ends(&mut watch, 120_000, 1, Some(125_000)));
    check(&rt, 125_000, ends(&mut watch, 125_000, 1, None));
}

#[test]
fn a_watch_of_the_last_moments_is_never_due(rt: HostRuntime) {
    let alloc = rt.alloc();
    let mut watch = two_watches(alloc).expect(&rt, "memory");
    let t = touch(&mut watch, alloc, "t", u64::MAX);
    let u = touch(&mut watch, alloc, "u", u64::MAX - 120_000);
    check(&rt, "touched", t.is_some() && u.is_some());
    check(&rt, "the first", watch.next_due() == Some(u64::MAX));
    check(&rt, "the last", ends(&mut watch, u64::MAX, 1, None));
}

fn forget(watch: &mut Watch, alloc: Global, segment: &str) -> Option<()> {
    let target = target(alloc, segment).ok()?;
    watch.forget(&reading(&target));
    Some(())
}

fn retire(watch: &mut Watch, alloc: Global, segment: &str) -> Option<()> {
    let written = target(alloc, segment).ok()?;
    watch.retire(&reading(&written));
    Some(())
}

#[test]
fn a_write_and_an_ask_end_watches(rt: HostRuntime) {
    let alloc = rt.alloc();
    let mut watch = two_watches(alloc).expect(&rt, "memory");
    let before = watch.copy().expect(&rt, "memory");
    check(&rt, "an ask", forget(&mut watch, alloc, "t").is_some());
    check(&rt, "one is left", watch.len() == 1);
    check(&rt, "a write", retire(&mut watch, alloc, "u").is_some());
    check(&rt, "none is left", watch.is_empty());
    check(&rt, "the copy", before.len() == 2);
}

/// How many watches a request for this segment is compared with.
fn count_among(watch: &Watch, alloc: Global, segment: &str) -> Option<usize> {
    let target = target(alloc, segment).ok()?;
    Some(watch.among(&reading(&target)).len())
}

#[test]
fn a_request_for_what_is_not_watched_is_compared_with_none(rt: HostRuntime) {
    let alloc = rt.alloc();
    let mut watch = Watch::new(alloc);
    check(&rt, "no watch", count_among(&watch, alloc, "t") == Some(0));
    watch = two_watches(alloc).expect(&rt, "memory");
    check(&rt, "watched", count_among(&watch, alloc, "t") == Some(2));
    check(&rt, "another", count_among(&watch, alloc, "v") == Some(0));
    check(&rt, "a write", retire(&mut watch, alloc, "t").is_some());
    check(&rt, "no more", count_among(&watch, alloc, "t") == Some(0));
    check(&rt, "the other", count_among(&watch, alloc, "u") == Some(1));
}
