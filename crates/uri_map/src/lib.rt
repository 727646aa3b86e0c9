//! Which resource of a CoAP server a request target of the proxy names (RFC 8075 section 5.3), and
//! back: the target's parts (RFC 7252 section 6.4), the options that carry them, the peer that
//! serves them, and the text under which the proxy hosts them.
//!
//! The one contract: `target_of` is the partial function `target_at` of `specs/`, which splits
//! whole texts and gives the first fault. Mapping requests stands on it. What `hosting_of` writes
//! for a target is read as that target (`hosted_is_read`).
#![tactic(auto)]

mod address;
mod authority;
mod directory;
mod escapes;
mod fault;
mod hosting;
mod laws;
mod marks;
mod options;
mod parts;
mod peer;
mod plain;
mod reading;
mod room;
mod short;
mod target;
mod text;
mod utf8;

pub use directory::{Directory, Listed, peer_of};
pub use fault::UriFault;
pub use hosting::hosting_of;
pub use laws::{addresses_read, hosted_is_read, options_fit};
pub use options::options_of;
pub use parts::path_and_query;
pub use peer::{Peer, is_same_peer, peer_at};
pub use reading::target_of;
pub use target::{Host, Target};
pub use text::{Text, Texts};
