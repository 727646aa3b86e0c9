//! The transformers of the gateway: between which forms it has one, and how the bank of those that
//! routes ask for is made.
//!
//! The one contract: what a transformer makes of a body is what the relation `Profile` says for its
//! pair of forms. The program stands on it: its bank suits the routes of its settings.
#![tactic(auto)]

mod kind;
mod making;
mod profile;

pub use kind::{Kind, kind_between};
pub use making::transform;
pub use profile::Profile;
pub use transformers::{Call, Stored, store};
