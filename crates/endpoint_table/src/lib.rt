//! The endpoints, each with its link.
//!
//! One contract: a table is the list of its endpoints with the states of their links, in the order
//! in which they were first asked for something, whatever stands behind it. Who calls it names an
//! endpoint and no place. What needs memory is prepared, and then done by a call that takes none.
//! At a tick only those endpoints are asked at which something is due.
//!
//! The definitions stand in `specs/`, to be read in this order: `Places`, `Tables`,
//! `Dues`, `GivenUps`, `Turns`, `Keeping`.
#![tactic(auto)]

mod dues;
mod endpoint;
mod endpoints;
mod given_up;
mod hints;
mod keeping;
mod rows;
mod turns;

pub use endpoints::Endpoints;
pub use given_up::{GivenUp, find_given_up};
pub use keeping::Keeping;
pub use turns::Turn;
