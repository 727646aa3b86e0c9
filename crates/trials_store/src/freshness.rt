//! Until when a response is served.

use crate::samples::{key, reading, response, target, uses};
use crate::telling::check;
use cache_key::{Lookup, Reading};
use resp_cache::Store;
use std::alloc::{AllocError, Global};

/// A store with a response under the key with the Accept 0.
fn store_of(alloc: Global, heard: u64, max_age: Option<u32>) -> Result<Store, AllocError> {
    let mut store = Store::new(alloc);
    store.put(key(alloc, 0)?, response(alloc, heard, max_age)?)?;
    Ok(store)
}

/// Whether it is served at this moment as what is fresh, or else is there as what is stale.
fn is_fresh(store: &mut Store, reading: &Reading<'_>, moment: u64) -> Option<bool> {
    match (
        uses(store, reading, moment),
        store.stale(&Lookup::of(reading), moment).is_some(),
    ) {
        (true, false) => Some(true),
        (false, true) => Some(false),
        _ => None,
    }
}

/// When a response was heard, its Max-Age, and moments with whether it is fresh then.
type Row = (u64, Option<u32>, &'static [(u64, bool)]);

static ROWS: [Row; 3] = [
    (1000, Some(1), &[(1999, true), (2000, false)]),
    // Without Max-Age it is a minute.
    (0, None, &[(59_999, true), (60_000, false)]),
    // The last moments count.
    (u64::MAX - 1, Some(u32::MAX), &[(0, true), (u64::MAX, true)]),
];

fn ages(store: &mut Store, reading: &Reading<'_>, moments: &[(u64, bool)]) -> bool {
    for (moment, fresh) in moments {
        if is_fresh(store, reading, *moment) != Some(*fresh) {
            return false;
        }
    }
    true
}

fn is_row(alloc: Global, row: &Row) -> Result<bool, AllocError> {
    let light = target(alloc, "light")?;
    let mut store = store_of(alloc, row.0, row.1)?;
    Ok(ages(&mut store, &reading(&light, Some(0)), row.2))
}

#[test]
fn a_response_ages(rt: HostRuntime) {
    for row in &ROWS {
        check(&rt, row.1, is_row(rt.alloc(), row) == Ok(true));
    }
}

/// Puts what is never fresh. Nothing is let go.
fn puts_never(store: &mut Store, alloc: Global) -> Result<bool, AllocError> {
    let gone = store.put(key(alloc, 0)?, response(alloc, 10, Some(0))?)?;
    Ok(gone.is_none())
}

#[test]
fn max_age_0_takes_the_pair_out(rt: HostRuntime) {
    let alloc = rt.alloc();
    let mut store = store_of(alloc, 0, None).expect(&rt, "memory");
    check(
        &rt,
        "nothing goes",
        puts_never(&mut store, alloc) == Ok(true),
    );
    check(&rt, "nothing stays", store.is_empty());
}

#[test]
fn another_accept_is_not_served(rt: HostRuntime) {
    let alloc = rt.alloc();
    let store = store_of(alloc, 0, None).expect(&rt, "memory");
    let light = target(alloc, "light").expect(&rt, "memory");
    assert!(rt;
        store
            .fresh(&Lookup::of(&reading(&light, None)), 1)
            .is_none()
    );
}
