//! The order of addresses, hosts and texts.

ghost use Rattle.std.specs.Prelude.{◌≡◌};
ghost use Rattle.cache_key.specs.Order.{address_cmp, host_cmp, texts_cmp};

use std::cmp::Ordering;
use std::net::IpAddr;
use uri_map::{Host, Text};

/// IPv4 addresses before IPv6 ones, and those of a kind by their parts.
pub fn cmp_addresses(a: &IpAddr, b: &IpAddr) -> Ordering
    ensures { result ≡ address_cmp a.now b.now }
{
    match (a, b) {
        (IpAddr::V4(a), IpAddr::V4(b)) => a.octets().cmp(&b.octets()),
        (IpAddr::V4(_), IpAddr::V6(_)) => Ordering::Less,
        (IpAddr::V6(_), IpAddr::V4(_)) => Ordering::Greater,
        (IpAddr::V6(a), IpAddr::V6(b)) => a.segments().cmp(&b.segments()),
    }
}

/// Names before IPv4 addresses, and these before IPv6 ones.
pub fn cmp_hosts(a: &Host, b: &Host) -> Ordering
    ensures { result ≡ host_cmp a.now b.now }
{
    match (a, b) {
        (Host::Name(a), Host::Name(b)) => a.as_bytes().cmp(b.as_bytes()),
        (Host::V4(a), Host::V4(b)) => a.octets().cmp(&b.octets()),
        (Host::V6(a), Host::V6(b)) => a.segments().cmp(&b.segments()),
        (Host::Name(_), _) | (Host::V4(_), Host::V6(_)) => Ordering::Less,
        _ => Ordering::Greater,
    }
}

/// By the first text that differs; a list before those that it begins.
#[tactic(auto, using(crate::proofs::Ordered::longer_after))]
pub fn cmp_texts(a: &[Text], b: &[Text]) -> Ordering
    ensures { result ≡ texts_cmp a.now b.now }
{
    match (a, b) {
        ([], []) => Ordering::Equal,
        ([], [_, ..]) => Ordering::Less,
        ([_, ..], []) => Ordering::Greater,
        ([x, xs @ ..], [y, ys @ ..]) => match x.as_bytes().cmp(y.as_bytes()) {
            Ordering::Equal => cmp_texts(xs, ys),
            order => order,
        },
    }
}
