//! What the response to a GET is kept under (RFC 7252, section 5.6), and the place that a write
//! changes (section 5.9.2).
//!
//! The one contract: two keys, and two places, pass for the same exactly where they are equal, so
//! that definitions may speak of equal ones. Both have a total order besides, for indexes
//! (`keys_in_order`). Two GETs have one key exactly where a response to one
//! may answer the other: they ask the same server with equal options (`keys_match_requests`). The
//! watches (`observe_share`) and the store of responses (`resp_cache`) stand on it. A key is made
//! where something is kept under it, and its copies share it; what is only looked for is a
//! `Reading`, which takes no memory. Where many keys are looked through for one, it is made a
//! `Lookup`: by its digests nearly all others are told apart, without a look at their texts.
#![tactic(auto)]

mod digest;
mod key;
mod laws;
mod lookup;
mod order;
mod place;
mod reading;

pub use digest::Digests;
pub use key::Key;
pub use laws::{
    keys_in_order, keys_match_requests, keys_told_apart, places_in_order, places_told_apart,
};
pub use lookup::Lookup;
pub use place::Place;
pub use reading::Reading;
