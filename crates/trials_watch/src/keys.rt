//! Keys and places.

use crate::samples::{device, key, target};
use crate::telling::check;
use cache_key::{
    Key, Place, keys_in_order, keys_match_requests, keys_told_apart, places_in_order,
    places_told_apart,
};
use std::alloc::{AllocError, Global};
use std::cmp::Ordering;

#[test]
fn a_key_is_shared(rt: HostRuntime) {
    let first = key(rt.alloc(), "t").expect(&rt, "memory");
    let second = first.share().expect(&rt, "memory");
    assert!(rt; first.is_same(&second));
}

#[test]
fn another_format_is_another_key_of_the_place(rt: HostRuntime) {
    let alloc = rt.alloc();
    let target = target(alloc, "t").expect(&rt, "memory");
    let any = Key::of(alloc, device(), &target, None).expect(&rt, "memory");
    let text = Key::of(alloc, device(), &target, Some(0)).expect(&rt, "memory");
    check(&rt, "the keys", !any.is_same(&text));
    check(&rt, "the place", any.place().is_same(text.place()));
    keys_told_apart();
    keys_match_requests();
}

/// The place of a target of the device.
fn place(alloc: Global, segment: &str) -> Result<Place, AllocError> {
    Place::of(device(), &target(alloc, segment)?)
}

#[test]
fn another_path_is_another_place(rt: HostRuntime) {
    let read = place(rt.alloc(), "t").expect(&rt, "memory");
    let written = place(rt.alloc(), "u").expect(&rt, "memory");
    let copy = read.copy().expect(&rt, "memory");
    check(&rt, "a copy", read.is_same(&copy));
    check(&rt, "another", !read.is_same(&written));
    places_told_apart();
}

#[test]
fn keys_of_a_place_stand_together(rt: HostRuntime) {
    let alloc = rt.alloc();
    let target = target(alloc, "t").expect(&rt, "memory");
    let any = Key::of(alloc, device(), &target, None).expect(&rt, "memory");
    let text = Key::of(alloc, device(), &target, Some(0)).expect(&rt, "memory");
    let next = key(alloc, "u").expect(&rt, "memory");
    check(
        &rt,
        "none before any",
        any.total_cmp(&text) == Ordering::Less,
    );
    check(
        &rt,
        "the next place",
        text.total_cmp(&next) == Ordering::Less,
    );
    let places = next.place().total_cmp(any.place());
    check(&rt, "its place", places == Ordering::Greater);
    keys_in_order();
    places_in_order();
}
