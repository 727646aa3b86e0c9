//! A second port of a server, where people and programs see how it does: what was answered, how
//! much there is of everything, and the journal. And the access log: one line for each answer that a
//! client was given.
//!
//! The gateway tells the window what it asks through one trait (`Shown`). It changes nothing, and a
//! slow viewer holds up nobody: what is shown is copied from the gateway in one go, and everything
//! else is done in threads of its own. One contract on the lines: bytes that came from a client stand
//! in one as they are only where they are printable ASCII other than a quote or a backslash; all
//! others are escaped.
#![tactic(auto)]

mod excerpts;
mod figures;
mod given;
mod line;
mod options;
mod shown;
mod tally;
mod watch;
mod window;

pub use figures::Figures;
pub use given::{Given, Heading, heading_of};
pub use journal_extracts::{Extract, Numbered};
pub use journal_lines::Payloads;
pub use line::Line;
pub use options::Options;
pub use shown::Shown;
pub use status_page::Phase;
pub use watch::Watch;
pub use window::show_all;
