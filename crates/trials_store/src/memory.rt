//! A call that memory was refused is made once more; until then the store is as before. With any
//! one allocation of a run refused, it goes as it would have gone.

use crate::samples::{key, reading, response, target, uses};
use crate::telling::check;
use cache_key::{Key, Reading};
use resp_cache::{Store, StoredResponse};
use std::alloc::{AllocError, Global};
use uri_map::Target;

fn one_key(alloc: Global, accept: u16) -> Option<Key> {
    match key(alloc, accept) {
        Ok(key) => Some(key),
        Err(_) => key(alloc, accept).ok(),
    }
}

fn one_response(alloc: Global) -> Option<StoredResponse> {
    match response(alloc, 0, None) {
        Ok(response) => Some(response),
        Err(_) => response(alloc, 0, None).ok(),
    }
}

fn put(store: &mut Store, key: &Key, response: &StoredResponse) -> Result<(), AllocError> {
    store.put(key.share()?, response.share()?)?;
    Ok(())
}

/// What is put, and how it is read.
#[derive(Drop)]
struct Row<'a> {
    key: Key,
    reading: Reading<'a>,
}

fn row_of(alloc: Global, light: &Target, accept: u16) -> Option<Row<'_>> {
    Some(Row {
        key: one_key(alloc, accept)?,
        reading: reading(light, Some(accept)),
    })
}

/// Puts the response under the key. Nothing of it stays where memory is refused.
fn puts(store: &mut Store, row: &Row<'_>, response: &StoredResponse) -> bool {
    let before = store.len();
    if put(store, &row.key, response).is_ok() {
        return true;
    }
    store.len() == before && !uses(store, &row.reading, 1) && put(store, &row.key, response).is_ok()
}

/// The key is served, until its place is written.
fn leaves(store: &mut Store, row: &Row<'_>) -> bool {
    let served = uses(store, &row.reading, 1);
    store.retire(&row.reading);
    served && store.is_empty()
}

fn one_target(alloc: Global) -> Option<Target> {
    match target(alloc, "light") {
        Ok(light) => Some(light),
        Err(_) => target(alloc, "light").ok(),
    }
}

fn copied(store: &Store) -> Option<Store> {
    match store.copy() {
        Ok(copy) => Some(copy),
        Err(_) => store.copy().ok(),
    }
}

#[test]
fn memory_refused_once(rt: HostRuntime) {
    let alloc = rt.alloc();
    let light = one_target(alloc).expect(&rt, "a target");
    let first = row_of(alloc, &light, 0).expect(&rt, "a key");
    let second = row_of(alloc, &light, 1).expect(&rt, "a key");
    let response = one_response(alloc).expect(&rt, "a response");
    let mut store = Store::new(alloc);
    check(&rt, 0, puts(&mut store, &first, &response));
    check(&rt, 1, puts(&mut store, &second, &response));
    check(&rt, "0 again", puts(&mut store, &first, &response));
    let copy = copied(&store).expect(&rt, "a copy");
    check(&rt, "both", copy.len() == 2);
    check(&rt, "what stays", leaves(&mut store, &second));
}
