//! Proxy, network and device together, turn by turn.
//!
//! A list of turns says what happens: an input to the proxy, a tick of the device, and each
//! datagram that the network delivers, as often and as late as it likes, up to 100 seconds after it
//! was sent. What was told, sent and executed is the story of these turns, by the contracts of
//! `gateway_world` and `demo_origin` alone.
#![tactic(auto)]

mod flight;
mod laws;
mod run;
mod stage;
mod story;
mod turn;

pub use demo_origin::{Behaviour, Origin, Taken};
pub use flight::{Flight, Sent, device_peer, proxy_peer};
pub use gateway_world::{Happening, Input, Output, When, WorldFault};
pub use laws::stories_keep_promises;
pub use run::three_run;
pub use stage::Stage;
pub use story::{Execution, Story};
pub use turn::Turn;

/// How long after it looked at its timers the proxy does so again at the latest, in milliseconds,
/// so that its copies are late by no more.
pub const LONGEST_PAUSE: u64 = 1000;
