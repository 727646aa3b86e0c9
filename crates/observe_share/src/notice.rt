//! What comes under a token that is watched.

use crate::registration::Registration;

/// A CON or NON response under a token, which is no repeat. Numbers are values of the Observe
/// option (RFC 7641, section 2).
#[derive(Clone, Copy, Debug, PartialEq, Eq)]
pub enum Notice {
    /// It tells a state of the resource, under this number.
    Update(u32),
    /// It tells that there will be no more, or is of no use; its number, should it have one.
    Other(Option<u32>),
}

/// What a notice is to the watches.
#[derive(Drop)]
pub enum Notified {
    /// The token is none of theirs.
    Unknown,
    /// One that came before it is newer, or equal.
    Older,
    /// It counts, and the watch goes on.
    Updated,
    /// It counts, and ended this watch.
    Ended(Registration),
}
