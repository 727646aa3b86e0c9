//! How far an open exchange comes by a reply.
//!
//! One contract: `comes_to` says that the exchange ends, with what its readers are told and on what
//! grounds, or goes on: with which pieces, and with which block its next message asks for or sends
//! (RFC 7959 sections 2.4 and 2.5). It takes in one message alone; the pieces before it are read
//! from the journal once all have come. The core stands on it.
//!
//! The definitions stand in `specs/Coming`.
#![tactic(auto)]

mod coming;
mod fetching;
mod notice;

pub use coming::{Coming, Ended, Onward, comes_to};
pub use notice::{comes_first, notice_of};
