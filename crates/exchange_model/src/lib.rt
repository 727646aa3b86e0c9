//! What the core of the proxy keeps, and what each entry of its history does to it.
//!
//! One `State` says all that a core keeps beside its journal: the connections and exchanges that
//! are open, a link of the message layer for each endpoint, and how many connections were opened
//! and tokens issued. Each kind of entry has one function, from a state to the state after it;
//! where its premise holds, the entry may follow, and the state after it says what the longer
//! history says. A call is made of these, and keeps the journal legal and at rest. A call that
//! doesn't fit seals the journal instead.
//!
//! The definitions stand in `specs/`, to be read in this order: `State`, `Watching`, `Steps`,
//! `Matters`, `Hearing`, `Reads`, `Laws`; `Resting`, `Calls`, `Keeping`, `Entering`; `Room`,
//! `Sealing`; `Growing`, `Due`, `Backing`, `Rotating`, `Carried`; and `Worked`, of runs of it.
#![tactic(auto)]

mod growing;
mod in_memory;
mod kept;
mod laws;
mod sealing;

pub use kept::{Conn, Exchange, Piece, Reader, Stale, Work};
