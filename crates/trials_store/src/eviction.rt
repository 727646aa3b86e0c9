//! What goes where one too many is put.

use crate::samples::{is_missing, is_served, key, puts, response};
use crate::telling::check;
use resp_cache::Store;
use std::alloc::{AllocError, Global};

/// Puts responses under the Accepts from 0 to 255.
fn fill(store: &mut Store, alloc: Global) -> Result<(), AllocError> {
    for accept in 0..256u16 {
        puts(store, alloc, accept)?;
    }
    Ok(())
}

/// Puts one more, and says whether the pair of this key goes.
fn lets_go(store: &mut Store, alloc: Global, accept: u16) -> Result<bool, AllocError> {
    let expected = key(alloc, accept)?;
    match store.put(key(alloc, 256)?, response(alloc, 0, None)?)? {
        Some(pair) => Ok(pair.key.is_same(&expected)),
        None => Ok(false),
    }
}

#[test]
fn the_first_of_257_goes(rt: HostRuntime) {
    let alloc = rt.alloc();
    let mut store = Store::new(alloc);
    check(&rt, "all are put", fill(&mut store, alloc).is_ok());
    check(&rt, "at first", store.len() == 256);
    check(&rt, "the first", lets_go(&mut store, alloc, 0) == Ok(true));
    check(&rt, "at last", store.len() == 256);
    check(&rt, "0 is gone", is_missing(&mut store, alloc, 0));
    check(&rt, "1 stays", is_served(&mut store, alloc, 1));
}

#[test]
fn what_was_read_again_stays(rt: HostRuntime) {
    let alloc = rt.alloc();
    let mut store = Store::new(alloc);
    check(&rt, "all are put", fill(&mut store, alloc).is_ok());
    check(&rt, "it is read", is_served(&mut store, alloc, 0));
    check(&rt, "the next", lets_go(&mut store, alloc, 1) == Ok(true));
    check(&rt, "it stays", is_served(&mut store, alloc, 0));
}

#[test]
fn a_key_that_is_put_again_lets_nothing_go(rt: HostRuntime) {
    let alloc = rt.alloc();
    let mut store = Store::new(alloc);
    check(&rt, "all are put", fill(&mut store, alloc).is_ok());
    check(&rt, "again", puts(&mut store, alloc, 7) == Ok(true));
    check(&rt, "no more", store.len() == 256);
}
