//! Observers of a counter: who is told of what, and when (RFC 7641).

use crate::devices::counters_fail_at;
use crate::steps::Step::{self, Answers, Due, Executes, Hears, Quiet, Sends, Ticks};

/// POST of c, as NON 5 and so on.
const FIRST_POST: &[u8] = &[0x50, 0x02, 0x00, 0x05, 0xb1, 0x63];

const SECOND_POST: &[u8] = &[0x50, 0x02, 0x00, 0x06, 0xb1, 0x63];

const THIRD_POST: &[u8] = &[0x50, 0x02, 0x00, 0x07, 0xb1, 0x63];

const FOURTH_POST: &[u8] = &[0x50, 0x02, 0x00, 0x08, 0xb1, 0x63];

/// 2.04 with the new text, as a NON of the device's own ID.
const FIRST_COUNT: &[u8] = &[0x50, 0x44, 0x00, 0x00, 0xff, 0x31];

const SECOND_COUNT: &[u8] = &[0x50, 0x44, 0x00, 0x01, 0xff, 0x32];

const THIRD_COUNT: &[u8] = &[0x50, 0x44, 0x00, 0x02, 0xff, 0x33];

const FOURTH_COUNT: &[u8] = &[0x50, 0x44, 0x00, 0x03, 0xff, 0x34];

/// GET of c with Observe 0, as CON 7 with token abcd.
const OBSERVE: &[u8] = &[0x42, 0x01, 0x00, 0x07, 0xab, 0xcd, 0x60, 0x51, 0x63];

/// Its answer before any change: ETag 0, Observe 0, Content-Format 0, Max-Age 60.
const OBSERVED: &[u8] = &[
    0x62, 0x45, 0x00, 0x07, 0xab, 0xcd, 0x48, 0, 0, 0, 0, 0, 0, 0, 0, 0x20, 0x60, 0x21, 0x3c,
];

/// GET of c with Observe 1, as CON 8 with token abcd.
const STOP: &[u8] = &[0x42, 0x01, 0x00, 0x08, 0xab, 0xcd, 0x61, 0x01, 0x51, 0x63];

/// Notifications with token abcd: the versions 1, 2 and 4, under the IDs 0 to 2.
const FIRST_NOTICE: &[u8] = &[
    0x42, 0x45, 0x00, 0x00, 0xab, 0xcd, 0x48, 0, 0, 0, 0, 0, 0, 0, 1, 0x21, 0x01, 0x60, 0x21, 0x3c,
    0xff, 0x31,
];

const SECOND_NOTICE: &[u8] = &[
    0x42, 0x45, 0x00, 0x01, 0xab, 0xcd, 0x48, 0, 0, 0, 0, 0, 0, 0, 2, 0x21, 0x02, 0x60, 0x21, 0x3c,
    0xff, 0x32,
];

const FOURTH_NOTICE: &[u8] = &[
    0x42, 0x45, 0x00, 0x02, 0xab, 0xcd, 0x48, 0, 0, 0, 0, 0, 0, 0, 4, 0x21, 0x04, 0x60, 0x21, 0x3c,
    0xff, 0x34,
];

static REJECTED: [Step; 17] = [
    Executes(0, 1, FIRST_POST),
    Sends(1, FIRST_COUNT),
    Hears(10, 2, OBSERVE),
    Sends(
        2,
        &[
            0x62, 0x45, 0x00, 0x07, 0xab, 0xcd, 0x48, 0, 0, 0, 0, 0, 0, 0, 1, 0x21, 0x01, 0x60,
            0x21, 0x3c, 0xff, 0x31,
        ],
    ),
    // the answer goes out before the notification
    Executes(20, 1, SECOND_POST),
    Sends(1, SECOND_COUNT),
    Sends(
        2,
        &[
            0x42, 0x45, 0x00, 0x00, 0xab, 0xcd, 0x48, 0, 0, 0, 0, 0, 0, 0, 2, 0x21, 0x02, 0x60,
            0x21, 0x3c, 0xff, 0x32,
        ],
    ),
    Due(Some(2020)),
    // an RST of another peer, or with another ID, is ignored, and that of the observer ends it
    Hears(30, 1, &[0x70, 0, 0, 0]),
    Hears(30, 2, &[0x70, 0, 0, 1]),
    Due(Some(2020)),
    Hears(40, 2, &[0x70, 0, 0, 0]),
    Due(None),
    Executes(50, 1, THIRD_POST),
    Sends(1, THIRD_COUNT),
    Ticks(3000),
    Quiet,
];

fn rejected() -> &'static [Step] {
    &REJECTED
}

#[test]
fn an_observer_is_told_until_it_rejects(rt: HostRuntime) {
    assert_eq!(rt; counters_fail_at(rt.alloc(), rejected()), Ok(None));
}

static IN_VAIN: [Step; 23] = [
    Hears(0, 2, OBSERVE),
    Sends(2, OBSERVED),
    Executes(0, 1, FIRST_POST),
    Sends(1, FIRST_COUNT),
    Sends(2, FIRST_NOTICE),
    // the timeout of 2 s doubles with each copy
    Ticks(1999),
    Quiet,
    Ticks(2000),
    Sends(2, FIRST_NOTICE),
    Ticks(5999),
    Quiet,
    Ticks(6000),
    Sends(2, FIRST_NOTICE),
    Ticks(14_000),
    Sends(2, FIRST_NOTICE),
    Ticks(30_000),
    Sends(2, FIRST_NOTICE),
    Due(Some(62_000)),
    // five times in vain: it is an observer no more
    Ticks(62_000),
    Due(None),
    Executes(62_001, 1, SECOND_POST),
    Sends(1, SECOND_COUNT),
    Quiet,
];

fn in_vain() -> &'static [Step] {
    &IN_VAIN
}

#[test]
fn a_notification_is_sent_five_times(rt: HostRuntime) {
    assert_eq!(rt; counters_fail_at(rt.alloc(), in_vain()), Ok(None));
}

static NEWER: [Step; 21] = [
    Hears(0, 2, OBSERVE),
    Sends(2, OBSERVED),
    Executes(0, 1, FIRST_POST),
    Sends(1, FIRST_COUNT),
    Sends(2, FIRST_NOTICE),
    // nothing more goes out while one is outstanding; the copy has the newer state and another ID
    Executes(1000, 1, SECOND_POST),
    Sends(1, SECOND_COUNT),
    Quiet,
    Ticks(2000),
    Sends(2, SECOND_NOTICE),
    Due(Some(6000)),
    // of two changes the newer is told, once the ACK came
    Executes(3000, 1, THIRD_POST),
    Sends(1, THIRD_COUNT),
    Executes(3000, 1, FOURTH_POST),
    Sends(1, FOURTH_COUNT),
    Quiet,
    Hears(3500, 2, &[0x60, 0, 0, 1]),
    Sends(2, FOURTH_NOTICE),
    Due(Some(5500)),
    Hears(4000, 2, &[0x60, 0, 0, 2]),
    Due(None),
];

fn newer() -> &'static [Step] {
    &NEWER
}

#[test]
fn a_newer_state_goes_in_place_of_an_older(rt: HostRuntime) {
    assert_eq!(rt; counters_fail_at(rt.alloc(), newer()), Ok(None));
}

static TAKEN_BACK: [Step; 14] = [
    // 16 are registered; the 17th is answered without Observe
    Answers(0, 16, OBSERVE),
    Hears(0, 17, OBSERVE),
    Sends(
        17,
        &[
            0x62, 0x45, 0x00, 0x07, 0xab, 0xcd, 0x48, 0, 0, 0, 0, 0, 0, 0, 0, 0x80, 0x21, 0x3c,
        ],
    ),
    // the first takes its registration back, after which there is a place
    Hears(0, 0, STOP),
    Sends(
        0,
        &[
            0x62, 0x45, 0x00, 0x08, 0xab, 0xcd, 0x48, 0, 0, 0, 0, 0, 0, 0, 0, 0x80, 0x21, 0x3c,
        ],
    ),
    Hears(0, 18, OBSERVE),
    Sends(18, OBSERVED),
    // the second is the first that is told then
    Executes(0, 30, FIRST_POST),
    Sends(30, FIRST_COUNT),
    Sends(1, FIRST_NOTICE),
    Sends(2, FIRST_NOTICE),
    Sends(3, FIRST_NOTICE),
    Sends(4, FIRST_NOTICE),
    Sends(5, FIRST_NOTICE),
];

fn taken_back() -> &'static [Step] {
    &TAKEN_BACK
}

#[test]
fn a_registration_is_taken_back(rt: HostRuntime) {
    assert_eq!(rt; counters_fail_at(rt.alloc(), taken_back()), Ok(None));
}

static CONFIRMED: [Step; 19] = [
    Hears(0, 2, OBSERVE),
    Sends(2, OBSERVED),
    // answers to the observer's NONs, and notifications, take their IDs from one counter
    Executes(0, 2, FIRST_POST),
    Sends(2, FIRST_COUNT),
    Sends(
        2,
        &[
            0x42, 0x45, 0x00, 0x01, 0xab, 0xcd, 0x48, 0, 0, 0, 0, 0, 0, 0, 1, 0x21, 0x01, 0x60,
            0x21, 0x3c, 0xff, 0x31,
        ],
    ),
    // another change is confirmed while that isn't acknowledged: whatever the observer is shown
    // from then on is of version 2
    Executes(1000, 1, FIRST_POST),
    Sends(1, &[0x50, 0x44, 0x00, 0x00, 0xff, 0x32]),
    Hears(1100, 2, &[0x42, 0x01, 0x00, 0x09, 0xab, 0xce, 0xb1, 0x63]),
    Sends(
        2,
        &[
            0x62, 0x45, 0x00, 0x09, 0xab, 0xce, 0x48, 0, 0, 0, 0, 0, 0, 0, 2, 0x80, 0x21, 0x3c,
            0xff, 0x32,
        ],
    ),
    Due(Some(2000)),
    // Observe 1 ends the copies too
    Hears(1200, 2, STOP),
    Sends(
        2,
        &[
            0x62, 0x45, 0x00, 0x08, 0xab, 0xcd, 0x48, 0, 0, 0, 0, 0, 0, 0, 2, 0x80, 0x21, 0x3c,
            0xff, 0x32,
        ],
    ),
    Due(None),
    Ticks(5000),
    Quiet,
    // registered anew, as CON 10, it is told under a greater number than before
    Hears(
        6000,
        2,
        &[0x42, 0x01, 0x00, 0x0a, 0xab, 0xcd, 0x60, 0x51, 0x63],
    ),
    Sends(
        2,
        &[
            0x62, 0x45, 0x00, 0x0a, 0xab, 0xcd, 0x48, 0, 0, 0, 0, 0, 0, 0, 2, 0x21, 0x02, 0x60,
            0x21, 0x3c, 0xff, 0x32,
        ],
    ),
    Due(None),
    Quiet,
];

fn confirmed() -> &'static [Step] {
    &CONFIRMED
}

#[test]
fn an_observer_is_shown_no_state_of_before(rt: HostRuntime) {
    assert_eq!(rt; counters_fail_at(rt.alloc(), confirmed()), Ok(None));
}

static REFUSED: [Step; 14] = [
    Hears(0, 2, OBSERVE),
    Sends(2, OBSERVED),
    // Observe 1 with Block2 1/0/16, which is past the end: 4.00, and the observer isn't told
    Hears(
        0,
        2,
        &[
            0x42, 0x01, 0x00, 0x08, 0xab, 0xcd, 0x61, 0x01, 0x51, 0x63, 0xc1, 0x10,
        ],
    ),
    Sends(2, &[0x62, 0x80, 0x00, 0x08, 0xab, 0xcd]),
    Executes(10, 1, FIRST_POST),
    Sends(1, FIRST_COUNT),
    Quiet,
    // registered anew, and Observe 1 with an Accept of 42: 4.06, and the same
    Hears(
        20,
        2,
        &[0x42, 0x01, 0x00, 0x09, 0xab, 0xcd, 0x60, 0x51, 0x63],
    ),
    Sends(
        2,
        &[
            0x62, 0x45, 0x00, 0x09, 0xab, 0xcd, 0x48, 0, 0, 0, 0, 0, 0, 0, 1, 0x21, 0x01, 0x60,
            0x21, 0x3c, 0xff, 0x31,
        ],
    ),
    Hears(
        30,
        2,
        &[
            0x42, 0x01, 0x00, 0x0a, 0xab, 0xcd, 0x61, 0x01, 0x51, 0x63, 0x61, 0x2a,
        ],
    ),
    Sends(2, &[0x62, 0x86, 0x00, 0x0a, 0xab, 0xcd]),
    Executes(40, 1, SECOND_POST),
    Sends(1, SECOND_COUNT),
    Quiet,
];

fn refused() -> &'static [Step] {
    &REFUSED
}

#[test]
fn a_refused_get_takes_a_registration_back(rt: HostRuntime) {
    assert_eq!(rt; counters_fail_at(rt.alloc(), refused()), Ok(None));
}
