//! The core of the proxy, over a link of the message layer for each endpoint.
//!
//! One contract: each call leaves just what the function of `exchange_model` for it leaves of the
//! core's state before, or seals the journal where there is no room for that, or changes nothing;
//! so of every core one reading of its journal is legal and at rest. What a call adds to the
//! journal is to be taken after it: answers by their asks, and datagrams in order.
#![tactic(auto)]

mod acting;
mod answer;
mod asking;
mod beginning;
mod changing;
mod core_state;
mod draft;
mod due;
mod ending;
mod ends;
mod expiring;
mod fault;
mod giving;
mod hearing;
mod joining;
mod matter;
mod notifying;
mod noting;
mod numbering;
mod opening;
mod outgoing;
mod passing;
mod places;
mod pouring;
mod recalling;
mod refusing;
mod renewing;
mod requests;
mod room;
mod rotating;
mod sealing;
mod sending;
mod serving;
mod snapshot;
mod state;
mod storing;
mod taking;
mod ticking;
mod timeouts;
mod turns;
mod updates;
mod watching;
mod wording;

pub use answer::{Answer, Ticket};
pub use core_state::Core;
pub use fault::{AskFault, OpenFault, RotateFault};
pub use outgoing::Datagram;
pub use reply_reading::{Finding, Outcome, Response};
pub use snapshot::Snapshot;
