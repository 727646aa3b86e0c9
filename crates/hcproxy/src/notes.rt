//! Notes on standard error, each with its time.

ghost use Rattle.std.specs.Prelude.{Some, true, []};

use jiff::Timestamp;
use libc::net::{POLLOUT, poll};
use libc::types::pollfd;
use log::kv::Source;
use log::span::Spans;
use log::{Level, Line, Log, Logged, Metadata, Record};
use std::fmt::{self, Display, Formatter};
use std::rt::Clock;

/// The descriptor of standard error.
const STANDARD_ERROR: i32 = 2;

/// Writes notes to standard error, each after its time. What can't be written is dropped, and so is what
/// had to wait for a reader.
#[derive(Clone, Copy, Debug, Drop)]
pub struct Notes<R>(pub R);

/// Whether nothing more can be written to standard error until somebody reads. Where that can't be told, it
/// isn't so. A pipe that isn't full has room for four lines.
fn is_full() -> bool {
    let mut asked = [pollfd {
        fd: STANDARD_ERROR,
        events: POLLOUT,
        revents: 0,
    }];
    poll(&mut asked, 0) == 0
}

/// The runtime whose notes have their time.
pub fn noted<R: Copy>(rt: R) -> Logged<R, Notes<R>> {
    Logged::new(rt, Level::Info, Notes(rt))
}

impl<R: Eprint + Clock> Log for Notes<R> {
    ghost enables = { λ _ _ _. Some true };

    ghost target_of = { λ _. Some [] };

    fn enabled(&self, _metadata: &Metadata<'_>) -> bool {
        true
    }

    fn log<D: Display, K: Source, S: Spans>(&self, record: &Record<'_, D, K, S>) {
        if is_full() {
            return;
        }
        let line = Line::new(record);
        let _ = match Timestamp::now(&self.0) {
            Ok(time) => self.0.eprintln(Timed { time, line }),
            Err(_) => self.0.eprintln(line),
        };
    }

    fn flush(&self) {}

    fn target(&self) -> &str {
        ""
    }
}

/// A line after its time, in UTC to the millisecond (RFC 3339).
#[derive(Drop)]
struct Timed<D> {
    time: Timestamp,
    line: D,
}

impl<D: Display> Display for Timed<D> {
    fn fmt<W: fmt::Write>(&self, f: &mut Formatter<W>) -> fmt::Result {
        write!(f, "{:.3} {}", self.time, self.line)
    }
}
