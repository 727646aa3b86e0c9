//! A demonstration device: a CoAP server (RFC 7252) over resources whose state handlers change.
//!
//! The one contract: while a message is remembered it is executed at most once, and a repeated one
//! gets the same answer again; what a handler made of a state keeps the relation that it stands
//! beside, and 5.00 takes its place only where it needn't take the request; a GET is answered with
//! the state as it stands, or told that it names it by an ETag. Want of memory executes nothing.
//! Whoever wants a device to try a proxy with, or the other end of its promise, stands on it.
#![tactic(auto)]

mod answer;
mod arrival;
mod behaviour;
mod blocks;
mod body;
mod draft;
mod execution;
mod fault;
mod handler;
mod judge;
mod kinds;
mod laws;
mod notice;
mod observers;
mod origin;
mod processing;
mod reading;
mod rejection;
mod request;
mod resource;
mod segments;
mod state;
mod tags;
mod telling;
mod uploads;

pub use answer::Asker;
pub use arrival::Arrival;
pub use behaviour::Behaviour;
pub use blocks::{BlockSize, Part};
pub use body::Body;
pub use execution::{Outcome, Taken};
pub use fault::{Memory, Refused};
pub use handler::{Boxed, Call, Handler};
pub use judge::Judged;
pub use kinds::{cell, counter};
pub use laws::{
    answered_alike, answers_are_made, executed_once, executions_tell, last_piece_executes,
    observers_told, only_observers_told, registrations_are_asked, states_are_told, tags_tell,
    versions_tell,
};
pub use observers::Wish;
pub use origin::Origin;
pub use request::{CoapRequest, Method, Reply};
pub use resource::{Resource, install};
pub use segments::{Segment, Segments};
pub use state::{Client, Datagram, Held, Notification, Observer, Remembered, Upload};
pub use uploads::Joined;
