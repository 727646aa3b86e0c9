//! What trials of sessions share: clients, devices, gates and a clock in memory, and a desk for
//! them. Trials alone stand on this crate.
#![tactic(auto)]

mod client;
mod desk;
mod device;
mod rows;

pub use client::{Client, Keeper, Steps, Tape};
pub use desk::{Counter, closed_at, go_on, new_desk, serve_plainly};
pub use device::{Device, Failing, Manner, SOUND};
pub use rows::{
    Trial, apart, crossed, held, late, leaver, lost, shut, stored, stranger, told, twice,
};
