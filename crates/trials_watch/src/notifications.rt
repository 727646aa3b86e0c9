//! A watch from its registration to its end.

use crate::samples::{reading, target, token, watched};
use crate::telling::check;
use observe_share::{Notice, Notified, Watch};
use std::alloc::Global;

/// What the watches said to a notice.
#[derive(Clone, Copy, PartialEq, Eq)]
enum Said {
    Unknown,
    Older,
    Updated,
    /// The watch that ended held this number.
    Ended(u32),
}

/// The last byte of a token, what comes under it and when, and what is said.
type Row = (u8, Notice, u64, Said);

/// What comes to one watch, under the token that ends in 7, whose number is the last but one.
struct Series {
    name: &'static str,
    /// Its resource was written before.
    written: bool,
    rows: &'static [Row],
    /// The number and the moment that the watch holds at last; none where it ended.
    newest: Option<(u32, u64)>,
}

static SERIES: [Series; 4] = [
    Series {
        name: "numbers that come late change nothing",
        written: false,
        rows: &[
            (7, Notice::Update(16_777_215), 1000, Said::Updated),
            (7, Notice::Update(0), 2000, Said::Updated),
            (7, Notice::Update(16_777_215), 3000, Said::Older),
        ],
        newest: Some((0, 2000)),
    },
    Series {
        name: "other tokens are unknown",
        written: false,
        rows: &[(8, Notice::Other(None), 1000, Said::Unknown)],
        newest: Some((16_777_214, 10)),
    },
    Series {
        name: "what has no number ends the watch",
        written: false,
        rows: &[
            (7, Notice::Other(Some(16_777_213)), 1000, Said::Older),
            (7, Notice::Other(None), 2000, Said::Ended(16_777_214)),
        ],
        newest: None,
    },
    Series {
        name: "what comes after a write is unknown",
        written: true,
        rows: &[(7, Notice::Update(1), 5020, Said::Unknown)],
        newest: None,
    },
];

fn hears(watch: &mut Watch, last: u8, notice: Notice, moment: u64) -> Said {
    match watch.notified(&token(last), notice, moment) {
        Notified::Unknown => Said::Unknown,
        Notified::Older => Said::Older,
        Notified::Updated => Said::Updated,
        Notified::Ended(registration) => Said::Ended(registration.version),
    }
}

fn is_told(watch: &mut Watch, rows: &[Row]) -> bool {
    for &(last, notice, moment, wanted) in rows {
        if hears(watch, last, notice, moment) != wanted {
            return false;
        }
    }
    true
}

/// The number and the moment that the watch holds.
fn newest(watch: &Watch) -> Option<(u32, u64)> {
    let registration = watch.under(&token(7))?;
    Some((registration.version, registration.moment))
}

/// The resource `t` is written.
fn write(watch: &mut Watch, alloc: Global) -> Option<()> {
    let written = target(alloc, "t").ok()?;
    watch.retire(&reading(&written));
    Some(())
}

/// One watch, whose resource may have been written.
fn one_watch(alloc: Global, written: bool) -> Option<Watch> {
    let mut watch = Watch::new(alloc);
    watch
        .register(watched(alloc, "t", 7, 16_777_214).ok()?)
        .ok()?;
    if written {
        write(&mut watch, alloc)?;
    }
    Some(watch)
}

fn is_series(alloc: Global, series: &Series) -> bool {
    match one_watch(alloc, series.written) {
        Some(mut watch) => {
            is_told(&mut watch, series.rows)
                && newest(&watch) == series.newest
                && watch.is_empty() == series.newest.is_none()
        }
        None => false,
    }
}

#[test]
fn a_watch_is_told(rt: HostRuntime) {
    for series in &SERIES {
        check(&rt, series.name, is_series(rt.alloc(), series));
    }
}
