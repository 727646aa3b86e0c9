//! Runs of scripts: each line is an input of a world; what comes out is printed, and then the
//! journal.
//!
//! The one contract: a run goes by the rules of its settings, from its first line to its last.
#![tactic(auto)]

mod inputs;
mod lines;
mod runs;

pub use inputs::input_of;
pub use lines::write_output;
pub use runs::{Script, replay};
