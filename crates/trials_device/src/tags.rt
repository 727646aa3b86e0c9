//! GETs that name a state by its ETag (RFC 7252, section 5.10.6.2).

use crate::devices::{cell_fails_at, counters_fail_at};
use crate::steps::Step::{self, Executes, Hears, Quiet, Sends};

/// POST of c, as CON 5 and 6 with token abcd.
const FIRST_POST: &[u8] = &[0x42, 0x02, 0x00, 0x05, 0xab, 0xcd, 0xb1, 0x63];

const SECOND_POST: &[u8] = &[0x42, 0x02, 0x00, 0x06, 0xab, 0xcd, 0xb1, 0x63];

/// 2.04 with the new text.
const FIRST_COUNT: &[u8] = &[0x62, 0x44, 0x00, 0x05, 0xab, 0xcd, 0xff, 0x31];

const SECOND_COUNT: &[u8] = &[0x62, 0x44, 0x00, 0x06, 0xab, 0xcd, 0xff, 0x32];

static NAMED: [Step; 15] = [
    Executes(0, 5000, FIRST_POST),
    Sends(5000, FIRST_COUNT),
    // GET of c with ETag 1, as CON 7: 2.03 with ETag 1 and Max-Age 60 alone
    Hears(
        10,
        5000,
        &[
            0x42, 0x01, 0x00, 0x07, 0xab, 0xcd, 0x48, 0, 0, 0, 0, 0, 0, 0, 1, 0x71, 0x63,
        ],
    ),
    Sends(
        5000,
        &[
            0x62, 0x43, 0x00, 0x07, 0xab, 0xcd, 0x48, 0, 0, 0, 0, 0, 0, 0, 1, 0xa1, 0x3c,
        ],
    ),
    // the second of two ETags
    Hears(
        20,
        5000,
        &[
            0x42, 0x01, 0x00, 0x08, 0xab, 0xcd, 0x41, 0x07, 0x08, 0, 0, 0, 0, 0, 0, 0, 1, 0x71,
            0x63,
        ],
    ),
    Sends(
        5000,
        &[
            0x62, 0x43, 0x00, 0x08, 0xab, 0xcd, 0x48, 0, 0, 0, 0, 0, 0, 0, 1, 0xa1, 0x3c,
        ],
    ),
    // the number of the version in one byte is another ETag: 2.05
    Hears(
        30,
        5000,
        &[0x42, 0x01, 0x00, 0x09, 0xab, 0xcd, 0x41, 0x01, 0x71, 0x63],
    ),
    Sends(
        5000,
        &[
            0x62, 0x45, 0x00, 0x09, 0xab, 0xcd, 0x48, 0, 0, 0, 0, 0, 0, 0, 1, 0x80, 0x21, 0x3c,
            0xff, 0x31,
        ],
    ),
    Executes(40, 5000, SECOND_POST),
    Sends(5000, SECOND_COUNT),
    // ETag 1 is that of the state before: 2.05 with ETag 2
    Hears(
        50,
        5000,
        &[
            0x42, 0x01, 0x00, 0x0a, 0xab, 0xcd, 0x48, 0, 0, 0, 0, 0, 0, 0, 1, 0x71, 0x63,
        ],
    ),
    Sends(
        5000,
        &[
            0x62, 0x45, 0x00, 0x0a, 0xab, 0xcd, 0x48, 0, 0, 0, 0, 0, 0, 0, 2, 0x80, 0x21, 0x3c,
            0xff, 0x32,
        ],
    ),
    // a NON: 2.03 in a NON of the device's own ID
    Hears(
        60,
        5000,
        &[
            0x50, 0x01, 0x00, 0x0b, 0x48, 0, 0, 0, 0, 0, 0, 0, 2, 0x71, 0x63,
        ],
    ),
    Sends(
        5000,
        &[
            0x50, 0x43, 0x00, 0x00, 0x48, 0, 0, 0, 0, 0, 0, 0, 2, 0xa1, 0x3c,
        ],
    ),
    Quiet,
];

fn named() -> &'static [Step] {
    &NAMED
}

#[test]
fn who_names_the_state_gets_none(rt: HostRuntime) {
    assert_eq!(rt; counters_fail_at(rt.alloc(), named()), Ok(None));
}

static OBSERVED: [Step; 10] = [
    // GET of c with ETag 0 and Observe 0: 2.03 with ETag 0, Observe 0 and Max-Age 60
    Hears(
        0,
        2,
        &[
            0x42, 0x01, 0x00, 0x07, 0xab, 0xcd, 0x48, 0, 0, 0, 0, 0, 0, 0, 0, 0x20, 0x51, 0x63,
        ],
    ),
    Sends(
        2,
        &[
            0x62, 0x43, 0x00, 0x07, 0xab, 0xcd, 0x48, 0, 0, 0, 0, 0, 0, 0, 0, 0x20, 0x81, 0x3c,
        ],
    ),
    // the change is told, under ID 0
    Executes(10, 1, FIRST_POST),
    Sends(1, FIRST_COUNT),
    Sends(
        2,
        &[
            0x42, 0x45, 0x00, 0x00, 0xab, 0xcd, 0x48, 0, 0, 0, 0, 0, 0, 0, 1, 0x21, 0x01, 0x60,
            0x21, 0x3c, 0xff, 0x31,
        ],
    ),
    // ETag 1 and Observe 1: 2.03, and the next change isn't told
    Hears(
        20,
        2,
        &[
            0x42, 0x01, 0x00, 0x08, 0xab, 0xcd, 0x48, 0, 0, 0, 0, 0, 0, 0, 1, 0x21, 0x01, 0x51,
            0x63,
        ],
    ),
    Sends(
        2,
        &[
            0x62, 0x43, 0x00, 0x08, 0xab, 0xcd, 0x48, 0, 0, 0, 0, 0, 0, 0, 1, 0xa1, 0x3c,
        ],
    ),
    Executes(30, 1, SECOND_POST),
    Sends(1, SECOND_COUNT),
    Quiet,
];

fn observed() -> &'static [Step] {
    &OBSERVED
}

#[test]
fn who_names_the_state_may_observe_it(rt: HostRuntime) {
    assert_eq!(rt; counters_fail_at(rt.alloc(), observed()), Ok(None));
}

static IN_PIECES: [Step; 9] = [
    // GET of s with ETag 0: 2.03 with ETag 0 and Max-Age 1, though the state is longer than a block
    Hears(
        0,
        5000,
        &[
            0x40, 0x01, 0x00, 0x01, 0x48, 0, 0, 0, 0, 0, 0, 0, 0, 0x71, 0x73,
        ],
    ),
    Sends(
        5000,
        &[
            0x60, 0x43, 0x00, 0x01, 0x48, 0, 0, 0, 0, 0, 0, 0, 0, 0xa1, 0x01,
        ],
    ),
    // with Block2 0/0/16 the same
    Hears(
        0,
        5000,
        &[
            0x40, 0x01, 0x00, 0x02, 0x48, 0, 0, 0, 0, 0, 0, 0, 0, 0x71, 0x73, 0xc0,
        ],
    ),
    Sends(
        5000,
        &[
            0x60, 0x43, 0x00, 0x02, 0x48, 0, 0, 0, 0, 0, 0, 0, 0, 0xa1, 0x01,
        ],
    ),
    // with Block2 2/0/16: the last piece
    Hears(
        0,
        5000,
        &[
            0x40, 0x01, 0x00, 0x03, 0x48, 0, 0, 0, 0, 0, 0, 0, 0, 0x71, 0x73, 0xc1, 0x20,
        ],
    ),
    Sends(
        5000,
        &[
            0x60, 0x45, 0x00, 0x03, 0x48, 0, 0, 0, 0, 0, 0, 0, 0, 0x80, 0x21, 0x01, 0x91, 0x20,
            0xff, 0x30, 0x31,
        ],
    ),
    // with Block2 3/0/16, past the end: 4.00
    Hears(
        0,
        5000,
        &[
            0x40, 0x01, 0x00, 0x04, 0x48, 0, 0, 0, 0, 0, 0, 0, 0, 0x71, 0x73, 0xc1, 0x30,
        ],
    ),
    Sends(5000, &[0x60, 0x80, 0x00, 0x04]),
    Quiet,
];

fn in_pieces() -> &'static [Step] {
    &IN_PIECES
}

#[test]
fn who_asks_for_a_later_piece_gets_it(rt: HostRuntime) {
    let state = b"0123456789abcdef0123456789abcdef01";
    assert_eq!(rt; cell_fails_at(rt.alloc(), 0, state, in_pieces()), Ok(None));
}
