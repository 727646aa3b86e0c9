//! What an HTTP request asks of a device, and the HTTP response that tells the answer (RFC 8075
//! sections 5 to 7).
//!
//! One contract: `map_request` gives a request the one meaning that `Maps` allows, and `render`
//! gives the bytes of an HTTP response that tells the answer as `Means` says, field by field. The
//! proxy's inputs and outputs (`gateway_world`) stand on it, and its sessions.
#![tactic(auto)]

mod applying;
mod fields;
mod lines;
mod location;
mod mapping;
mod rendering;
mod sending;
mod showing;
mod typing;

pub use fields::closes;
pub use mapping::map_request;
pub use rendering::render;
