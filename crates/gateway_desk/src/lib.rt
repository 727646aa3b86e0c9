//! The core that sessions share: under one lock, with the ledger of what they ask.
//!
//! One contract: a desk gives a session the answer to its own ask, and once; at the end `settle`
//! tells whether one journal justifies all that the sessions were given, and `turn` that of a
//! journal that is full, which it gives out, and goes on with the next one. Whenever the lock is
//! free, one reading of its journal is legal and at rest, since the type of the core that lies
//! there keeps it. The crate `sessions` stands on it.
#![tactic(auto)]

mod bells;
mod clock;
mod desk;
mod desk_state;
mod in_memory;
mod pass;
mod receipt;
mod replies;
mod report;
mod same;
mod settling;
mod shop;
mod shown;
mod standing;
mod turning;
mod wire;

pub use clock::Clock;
pub use desk::LockedDesk;
pub use desk_state::{AllSent, ClosedPass, ClosedStub, Heard, Ticked};
pub use pass::{Note, Pass, Stub};
pub use receipt::Receipt;
pub use report::{Report, SettleFault};
pub use settling::settle;
pub use shop::Shop;
pub use turning::{TurnFault, TurnReason};
pub use wire::{Failed, Inbound, Outbound, Unsent, Wire};
