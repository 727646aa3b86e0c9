//! The gateway as one loop over sockets that don't wait: what `gateway_world` promises from bytes to
//! bytes is what goes over them.
//!
//! Its one contract: what was written to a connection, and what of it is left, is what one world
//! gave out for it; what was read of it is what was an input of this world, and what isn't yet.
//! Nothing is promised of when a socket is ready, so the loop bears any signs in any order.
#![tactic(auto)]

mod carrying;
mod client;
mod clients;
mod connections;
mod delivery;
mod farewells;
mod feeding;
mod gateway;
mod hearing;
mod host;
mod inputs;
mod leaving;
mod line;
mod looking;
mod parking;
mod patience;
mod places;
mod sockets;
mod stage;
mod steps;
mod timely;
mod told;
mod turns;
mod waiting;
mod waits;

pub use gateway::Gateway;
pub use host::{Accepted, Host, Sign};
pub use leaving::{Held, Segment};
pub use patience::{GivenUp, Patience, Why};
pub use sockets::{Moved, Received, Stream, Wire};
pub use told::Told;
pub use turns::{Loop, Stop};
