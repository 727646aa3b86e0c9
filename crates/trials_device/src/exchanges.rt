//! Exchanges with counters and a cell.

use crate::devices::{cell_fails_at, counters_fail_at};
use crate::steps::Step::{self, Executes, Hears, Quiet, Sends, Ticks};

/// POST of c, as CON 5 with token abcd.
const POST: &[u8] = &[0x42, 0x02, 0x00, 0x05, 0xab, 0xcd, 0xb1, 0x63];

/// 2.04 with the new state.
const COUNTED: &[u8] = &[0x62, 0x44, 0x00, 0x05, 0xab, 0xcd, 0xff, 0x31];

static REPEATED: [Step; 14] = [
    Executes(0, 5000, POST),
    Sends(5000, COUNTED),
    Hears(1000, 5000, POST),
    Sends(5000, COUNTED),
    // GET of c, as CON 7: ETag 1, Content-Format 0, Max-Age 60
    Hears(
        2000,
        5000,
        &[0x42, 0x01, 0x00, 0x07, 0xab, 0xcd, 0xb1, 0x63],
    ),
    Sends(
        5000,
        &[
            0x62, 0x45, 0x00, 0x07, 0xab, 0xcd, 0x48, 0, 0, 0, 0, 0, 0, 0, 1, 0x80, 0x21, 0x3c,
            0xff, 0x31,
        ],
    ),
    // the same ID of another peer is another message
    Executes(246_999, 5001, POST),
    Sends(5001, &[0x62, 0x44, 0x00, 0x05, 0xab, 0xcd, 0xff, 0x32]),
    Hears(246_999, 5000, POST),
    Sends(5000, COUNTED),
    // after 247 s the ID stands for a new message
    Ticks(247_000),
    Executes(247_000, 5000, POST),
    Sends(5000, &[0x62, 0x44, 0x00, 0x05, 0xab, 0xcd, 0xff, 0x33]),
    Quiet,
];

fn repeated() -> &'static [Step] {
    &REPEATED
}

#[test]
fn a_repeated_post_is_executed_once(rt: HostRuntime) {
    assert_eq!(rt; counters_fail_at(rt.alloc(), repeated()), Ok(None));
}

static PUT: [Step; 19] = [
    // PUT of s as NON 9, which is answered by a NON of the device's own ID
    Executes(
        0,
        5000,
        &[0x50, 0x03, 0x00, 0x09, 0xb1, 0x73, 0xff, 0x6f, 0x6e],
    ),
    Sends(5000, &[0x50, 0x44, 0x00, 0x00]),
    Hears(
        10,
        5000,
        &[0x50, 0x03, 0x00, 0x09, 0xb1, 0x73, 0xff, 0x6f, 0x6e],
    ),
    Quiet,
    // GET as NON 10, with an Accept that suits: ETag 1, Content-Format 0, Max-Age 1
    Hears(20, 5000, &[0x50, 0x01, 0x00, 0x0a, 0xb1, 0x73, 0x60]),
    Sends(
        5000,
        &[
            0x50, 0x45, 0x00, 0x01, 0x48, 0, 0, 0, 0, 0, 0, 0, 1, 0x80, 0x21, 0x01, 0xff, 0x6f,
            0x6e,
        ],
    ),
    // an Accept of 42: 4.06
    Hears(30, 5000, &[0x40, 0x01, 0x00, 0x0b, 0xb1, 0x73, 0x61, 0x2a]),
    Sends(5000, &[0x60, 0x86, 0x00, 0x0b]),
    // DELETE, and then the state is empty, of version 2
    Executes(40, 5000, &[0x40, 0x04, 0x00, 0x0c, 0xb1, 0x73]),
    Sends(5000, &[0x60, 0x42, 0x00, 0x0c]),
    Hears(50, 5000, &[0x40, 0x01, 0x00, 0x0d, 0xb1, 0x73]),
    Sends(
        5000,
        &[
            0x60, 0x45, 0x00, 0x0d, 0x48, 0, 0, 0, 0, 0, 0, 0, 2, 0x80, 0x21, 0x01,
        ],
    ),
    // POST: the handler says 4.05; a method that no handler is asked for: 4.05 too
    Executes(60, 5000, &[0x40, 0x02, 0x00, 0x0e, 0xb1, 0x73]),
    Sends(5000, &[0x60, 0x85, 0x00, 0x0e]),
    Hears(70, 5000, &[0x40, 0x05, 0x00, 0x0f, 0xb1, 0x73]),
    Sends(5000, &[0x60, 0x85, 0x00, 0x0f]),
    // a path of two segments, the first of which is s: 4.04
    Hears(80, 5000, &[0x40, 0x01, 0x00, 0x10, 0xb1, 0x73, 0x01, 0x73]),
    Sends(5000, &[0x60, 0x84, 0x00, 0x10]),
    Quiet,
];

fn put() -> &'static [Step] {
    &PUT
}

#[test]
fn a_cell_keeps_what_is_put(rt: HostRuntime) {
    assert_eq!(rt; cell_fails_at(rt.alloc(), 6, b"", put()), Ok(None));
}

static COUNTS: [Step; 5] = [
    // after 9 comes 10
    Executes(0, 5000, &[0x42, 0x02, 0x00, 0x05, 0xab, 0xcd, 0xb1, 0x6e]),
    Sends(
        5000,
        &[0x62, 0x44, 0x00, 0x05, 0xab, 0xcd, 0xff, 0x31, 0x30],
    ),
    // at the last number of 64 bits: 5.00
    Executes(0, 5000, &[0x40, 0x02, 0x00, 0x06, 0xb1, 0x6d]),
    Sends(5000, &[0x60, 0xa0, 0x00, 0x06]),
    Quiet,
];

fn counts() -> &'static [Step] {
    &COUNTS
}

#[test]
fn a_counter_counts_in_decimal(rt: HostRuntime) {
    assert_eq!(rt; counters_fail_at(rt.alloc(), counts()), Ok(None));
}
