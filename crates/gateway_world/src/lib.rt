//! From the bytes of HTTP connections and of CoAP datagrams to the bytes of datagrams and of
//! answers.
//!
//! Its one contract: an input leads to acts, one after the other, each of them one step of the core
//! or of the connections with what it gives out, in the order that `gateway_model` tells; all that
//! is promised of inputs and of runs follows from these. The one input without acts gives the
//! sealed journal out, after which the world goes on with a new one.
#![tactic(auto)]

mod advance;
mod engine;
mod fault;
mod giving;
mod laws;
mod run;
mod serving;
mod state;
mod telling;
mod world;

pub use advance::Advanced;
pub use engine::Step;
pub use fault::WorldFault;
pub use gateway_model::{Datagram, Happening, Input, Output, RotateFault, When};
pub use laws::worlds_keep_promises;
pub use run::Run;
pub use state::World;
