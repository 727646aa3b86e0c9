//! The bytes of the connections, as far as they aren't asked.
//!
//! The contract: of each connection a `Table` gives the requests that its bytes spell, one by one
//! and in order (RFC 9112); it says when a client is to be told to go on with a body (RFC 9110,
//! section 10.1.1), and after the last request of a connection it keeps no bytes. It can go back to
//! what it held at its mark, which takes no memory.
//!
//! It knows nothing of what a request means, nor who waits for an answer. `gateway_model` stands on
//! it.
#![tactic(auto)]

mod changed;
mod inbox;
mod reader;
mod row;
mod table;

pub use http_edge::{Incoming, Memory};
pub use inbox::{Next, Spare};
pub use table::Table;
