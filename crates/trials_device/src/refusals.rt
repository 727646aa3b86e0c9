//! Datagrams that are refused or rejected.

use crate::devices::counters_fail_at;
use crate::steps::Step::{self, Executes, Hears, Quiet, Sends};

static REFUSED: [Step; 16] = [
    // GET of x: 4.04
    Hears(0, 5000, &[0x42, 0x01, 0x00, 0x08, 0xab, 0xcd, 0xb1, 0x78]),
    Sends(5000, &[0x62, 0x84, 0x00, 0x08, 0xab, 0xcd]),
    // Proxy-Uri, in a CON and in a NON: 4.02, and silence
    Hears(0, 5000, &[0x40, 0x01, 0x00, 0x09, 0xd1, 0x16, 0x78]),
    Sends(5000, &[0x60, 0x82, 0x00, 0x09]),
    Hears(0, 5000, &[0x50, 0x01, 0x00, 0x0a, 0xd1, 0x16, 0x78]),
    Quiet,
    // a ping, a CON with an undefined token length, and a response in a CON: RST
    Hears(0, 5000, &[0x40, 0, 0x01, 0x02]),
    Sends(5000, &[0x70, 0, 0x01, 0x02]),
    Hears(0, 5000, &[0x49, 0x01, 0x01, 0x03]),
    Sends(5000, &[0x70, 0, 0x01, 0x03]),
    Hears(0, 5000, &[0x40, 0x45, 0x01, 0x04]),
    Sends(5000, &[0x70, 0, 0x01, 0x04]),
    // an RST, an ACK and three bytes: silence
    Hears(0, 5000, &[0x70, 0, 0x01, 0x05]),
    Hears(0, 5000, &[0x60, 0, 0x01, 0x06]),
    Hears(0, 5000, &[0x40, 0, 0x01]),
    Quiet,
];

fn refused() -> &'static [Step] {
    &REFUSED
}

#[test]
fn nothing_is_executed(rt: HostRuntime) {
    assert_eq!(rt; counters_fail_at(rt.alloc(), refused()), Ok(None));
}

static UNASKED: [Step; 19] = [
    // a response in a NON, and a code of class 1: RST
    Hears(0, 5000, &[0x50, 0x45, 0x01, 0x01]),
    Sends(5000, &[0x70, 0, 0x01, 0x01]),
    Hears(0, 5000, &[0x50, 0x20, 0x01, 0x02]),
    Sends(5000, &[0x70, 0, 0x01, 0x02]),
    // an empty NON: silence
    Hears(0, 5000, &[0x50, 0, 0x01, 0x03]),
    Quiet,
    // they are remembered: a NON gets nothing again, nor does a POST of c with the ID of the empty
    // one
    Hears(0, 5000, &[0x50, 0x45, 0x01, 0x01]),
    Quiet,
    Hears(0, 5000, &[0x40, 0x02, 0x01, 0x03, 0xb1, 0x63]),
    Quiet,
    // a ping, and a POST with its ID, for 247 s: the same RST
    Hears(0, 5000, &[0x40, 0, 0x01, 0x04]),
    Sends(5000, &[0x70, 0, 0x01, 0x04]),
    Hears(246_999, 5000, &[0x40, 0x02, 0x01, 0x04, 0xb1, 0x63]),
    Sends(5000, &[0x70, 0, 0x01, 0x04]),
    Executes(247_000, 5000, &[0x40, 0x02, 0x01, 0x04, 0xb1, 0x63]),
    Sends(5000, &[0x60, 0x44, 0x01, 0x04, 0xff, 0x31]),
    // Proxy-Uri in a NON is met by silence, and so is a POST with its ID
    Hears(247_000, 5000, &[0x50, 0x01, 0x01, 0x05, 0xd1, 0x16, 0x78]),
    Hears(247_000, 5000, &[0x40, 0x02, 0x01, 0x05, 0xb1, 0x63]),
    Quiet,
];

fn unasked() -> &'static [Step] {
    &UNASKED
}

#[test]
fn what_is_no_request_is_remembered(rt: HostRuntime) {
    assert_eq!(rt; counters_fail_at(rt.alloc(), unasked()), Ok(None));
}
