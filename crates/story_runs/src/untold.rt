//! Why a story isn't told to its end.

use command_line::{Reason, ReplayFault, Report, StoryFault};
use proxy_settings::FileFault;
use std::alloc::{AllocError, AllocFailed};
use std::io;

/// Why a story isn't told to its end.
#[derive(Clone, Copy)]
pub enum Untold {
    /// The line of that number, from 1, is none of a story.
    Line(u64, StoryFault),
    /// The line of that number isn't UTF-8.
    NotText(u64),
    /// The line of that number brings more bytes than may wait.
    Backlog(u64),
    /// The file can't be read to its end.
    Unread(io::Error),
    /// What is told can't be written.
    Unwritten,
    Memory,
}

impl Untold {
    /// How the program tells it of a file of that name.
    pub fn report(self, name: &str) -> Report<'_> {
        match self {
            Untold::Line(line, fault) => refused(line, Reason::Story(fault)),
            Untold::NotText(line) => refused(line, Reason::NotText),
            Untold::Backlog(line) => refused(line, Reason::Backlog),
            Untold::Unread(error) => Report::file(name, FileFault::Unread(error)),
            Untold::Unwritten => Report::unprinted(),
            Untold::Memory => Report::memory(),
        }
    }
}

/// The line of that number is refused.
fn refused(line: u64, reason: Reason) -> Report<'static> {
    Report::replay(ReplayFault::Line(line), Some(reason))
}

/// A failed write is told as such.
pub(crate) fn written(outcome: io::Result<()>) -> Result<(), Untold> {
    outcome.map_err(|_| Untold::Unwritten)
}

impl From<AllocError> for Untold {
    fn from(_e: AllocError) -> Untold {
        Untold::Memory
    }
}

impl<T: Drop> From<AllocFailed<T>> for Untold {
    fn from(_e: AllocFailed<T>) -> Untold {
        Untold::Memory
    }
}
