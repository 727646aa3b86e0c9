//! Responses that may be served again (RFC 7252, section 5.6).
//!
//! The one contract: the store is a list of at most 256 pairs of a key and a response, the last
//! used first. A response is served for its key alone, and only while it is fresh. What is served
//! or put comes to the front, and where one too many is put the last one goes. So what was used
//! last stays while fewer than 256 other keys are used after it (`the_last_used_stay`).
//!
//! A response is made once: the store, its copies and all who are given it share it. Clauses speak
//! of that list, and of whether there is room for one more pair, and not of how the pairs are
//! found. What is looked for is a `Reading`, so that no key is made for it. What can fail is done
//! before: a look (`Store::fresh`) changes nothing, room is made, and then `put_in_room`, `touch`,
//! `take_out` and `retire` can't fail.
#![tactic(auto)]

mod filling;
mod laws;
mod names;
mod pair;
mod response;
mod ring;
mod search;
mod store;
mod stored;
mod table;
mod values;

pub use laws::the_last_used_stay;
pub use pair::Pair;
pub use response::{Location, Response};
pub use store::Store;
pub use stored::StoredResponse;
pub use values::Values;
