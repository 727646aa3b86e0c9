//! Each call once.

use crate::samples::{is_missing, is_served, key, key_of, puts, reading, response, target};
use crate::telling::check;
use cache_key::{Digests, Key, Lookup};
use resp_cache::{Pair, Store, StoredResponse, the_last_used_stay};
use std::alloc::{AllocError, Global};
use uri_map::Target;

/// A store with a response of `light`, and one of `door` used after it.
fn two_places(alloc: Global) -> Result<Store, AllocError> {
    let mut store = Store::new(alloc);
    puts(&mut store, alloc, 0)?;
    let door = key_of(alloc, "door", None)?;
    store.put(door, response(alloc, 0, None)?)?;
    Ok(store)
}

/// The response `on`, heard at 40, which rests on the entry 3.
fn is_told(stored: &StoredResponse) -> bool {
    stored.heard() == 40
        && stored.list() == [3].as_slice()
        && stored.response().body.as_slice() == b"on".as_slice()
        && stored.shared().code == 69
}

/// It is fresh for nine seconds from then.
fn is_fresh_for_nine(stored: &StoredResponse) -> bool {
    stored.is_fresh(9039) && !stored.is_fresh(9040) && !stored.is_never_fresh()
}

#[test]
fn what_is_stored_is_told(rt: HostRuntime) {
    let stored = response(rt.alloc(), 40, Some(9)).expect(&rt, "memory");
    let shared = stored.share().expect(&rt, "memory");
    check(&rt, "what was stored", is_told(&shared));
    check(&rt, "until when", is_fresh_for_nine(&shared));
}

fn retire(store: &mut Store, target: &Target) {
    store.retire(&reading(target, None));
}

#[test]
fn a_write_takes_its_place_alone(rt: HostRuntime) {
    let alloc = rt.alloc();
    let door = target(alloc, "door").expect(&rt, "memory");
    let mut store = two_places(alloc).expect(&rt, "memory");
    retire(&mut store, &door);
    check(&rt, "one is left", store.len() == 1);
    check(&rt, "the other", is_served(&mut store, alloc, 0));
}

#[test]
fn a_copy_stands_by_itself(rt: HostRuntime) {
    let alloc = rt.alloc();
    let light = target(alloc, "light").expect(&rt, "memory");
    let mut store = two_places(alloc).expect(&rt, "memory");
    let mut copy = store.copy().expect(&rt, "memory");
    retire(&mut store, &light);
    check(&rt, "the copy's length", copy.len() == 2);
    check(&rt, "in the copy", is_served(&mut copy, alloc, 0));
    check(&rt, "in the store", is_missing(&mut store, alloc, 0));
}

/// What is shared is the pair again, heard at 5.
fn is_shared(pair: &Pair) -> bool {
    match pair.share() {
        Ok(shared) => shared.key.is_same(&pair.key) && shared.stored.heard() == 5,
        Err(AllocError) => false,
    }
}

#[test]
fn a_pair_is_shared(rt: HostRuntime) {
    let pair = Pair {
        key: key(rt.alloc(), 0).expect(&rt, "memory"),
        stored: response(rt.alloc(), 5, None).expect(&rt, "memory"),
    };
    assert!(rt; is_shared(&pair));
    the_last_used_stay();
}

/// Puts a response under the key, where room was made before.
fn puts_in_room(store: &mut Store, alloc: Global, segment: &str) -> Result<bool, AllocError> {
    let key = key_of(alloc, segment, None)?;
    let stored = response(alloc, 0, None)?;
    store.make_room()?;
    Ok(store.put_in_room(key, stored).is_none())
}

/// It is there until it is taken out, and a look leaves all as it was.
fn is_taken_out(store: &mut Store, alloc: Global, segment: &str) -> Result<bool, AllocError> {
    let target = target(alloc, segment)?;
    let sought = Lookup::of(&reading(&target, None));
    let fresh = store.fresh(&sought, 59_999).is_some();
    let stale = store.fresh(&sought, 60_000).is_none();
    store.take_out(&key_of(alloc, segment, None)?);
    Ok(fresh && stale && store.fresh(&sought, 0).is_none())
}

/// What is looked for is taken out.
fn is_outdated(store: &mut Store, alloc: Global) -> Result<bool, AllocError> {
    let light = target(alloc, "light")?;
    let sought = Lookup::of(&reading(&light, Some(0)));
    store.outdate(&sought);
    Ok(store.fresh(&sought, 0).is_none())
}

#[test]
fn what_is_outdated_goes_alone(rt: HostRuntime) {
    let alloc = rt.alloc();
    let mut store = two_places(alloc).expect(&rt, "memory");
    check(&rt, "it goes", is_outdated(&mut store, alloc) == Ok(true));
    check(&rt, "one is left", store.len() == 1);
    check(&rt, "once more", is_outdated(&mut store, alloc) == Ok(true));
    check(&rt, "one still", store.len() == 1);
}

/// The key of what is looked for is that of its reading, also where the digests are known.
fn is_key_sought(alloc: Global) -> Result<bool, AllocError> {
    let light = target(alloc, "light")?;
    let reading = reading(&light, Some(0));
    let digests = Digests::of(&reading.peer, reading.target, reading.accept);
    let sought = Lookup::with(&reading, digests);
    let made = Key::of_sought(alloc, &sought)?;
    let other = key(alloc, 1)?;
    Ok(
        made.is_same(&key(alloc, 0)?)
            && made.is_sought(&sought)
            && made.digests().key == sought.digests().key
            && !made.is_same(&other),
    )
}

#[test]
fn a_key_is_made_of_what_is_looked_for(rt: HostRuntime) {
    check(&rt, "the key", is_key_sought(rt.alloc()) == Ok(true));
}

#[test]
fn put_in_room_and_taken_out(rt: HostRuntime) {
    let alloc = rt.alloc();
    let mut store = two_places(alloc).expect(&rt, "memory");
    check(
        &rt,
        "put",
        puts_in_room(&mut store, alloc, "lock") == Ok(true),
    );
    check(&rt, "three", store.len() == 3);
    check(
        &rt,
        "taken out",
        is_taken_out(&mut store, alloc, "lock") == Ok(true),
    );
    check(&rt, "two", store.len() == 2);
}
