//! Which of two numbers is the newer (RFC 7641, section 3.4), worked out by hand.

use crate::telling::check;
use observe_share::{newer, newest_wins};

/// A number and when it came, another and when that came, and whether that is newer.
type Row = (u32, u64, u32, u64, bool);

static ROWS: [Row; 9] = [
    // They go round.
    (16_777_215, 0, 0, 1, true),
    (0, 0, 16_777_215, 1, false),
    // Half of the numbers is too far.
    (0, 0, 8_388_607, 1, true),
    (0, 0, 8_388_608, 1, false),
    (8_388_608, 0, 0, 1, false),
    (8_388_609, 0, 0, 1, true),
    // An equal number counts after 128 s.
    (5, 0, 5, 128_000, false),
    (5, 0, 5, 128_001, true),
    (5, u64::MAX, 5, 0, false),
];

fn is_row(&(first, came, second, later, is): &Row) -> bool {
    newer(first, came, second, later) == is
}

#[test]
fn numbers_are_told_apart(rt: HostRuntime) {
    for row in &ROWS {
        check(&rt, row, is_row(row));
    }
    newest_wins();
}
