//! The open exchanges, in the order of their openings.
//!
//! One contract: a table is the list of its exchanges, whatever stands behind it. An exchange is
//! found by the token of its latest message through an index of its own, so that tokens needn't
//! rise as openings do: an exchange of several messages has a new token for each. Those that a GET
//! may join, that a notification outdates or that a write outruns are found by digests of their
//! keys and places, through the marks. Beside the exchanges stand the pieces that those of several
//! messages have fetched, what those ask about that ask whether something is valid still, and who
//! waits for them.
//!
//! The definitions stand in `specs/`, to be read in this order: `Places`, `Tables`,
//! `Outrunning`, `Fetched`, `Stales`, `Groups`, `Readers`, `Marks`, `Joining`.
#![tactic(auto)]

mod exchanges;
mod fetched;
mod groups;
mod index;
mod joining;
mod keyed;
mod marks;
mod outrunning;
mod owners;
mod places;
mod readers;
mod rows;
mod stales;

pub use exchanges::Exchanges;
pub use fetched::Fetched;
pub use outrunning::asked;
pub use readers::Readers;
pub use rows::read_by;
pub use stales::Stales;
