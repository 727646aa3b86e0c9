//! What a link of the message layer does keeps a history legal.
#![tactic(auto)]

mod laws;

pub use laws::{
    copy_follows, elsewhere_agrees, next_follows, pass_agrees, queued_agrees, says_agrees,
    silent_agrees, unchanged_by,
};
