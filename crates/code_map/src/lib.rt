//! What HTTP's methods are in CoAP, and CoAP's response codes in HTTP (RFC 7252 section 10.2,
//! RFC 8075 section 7).
//!
//! One contract: each answer is a row of a table, read for every code and every method. Nothing
//! here allocates. Mapping requests and rendering answers rest on it.
#![tactic(auto)]

mod laws;
mod method;
mod status;

pub use laws::{
    names_are_exact, unrecognised_client_error, unrecognised_server_error, unrecognised_success,
};
pub use method::{Method, method_of};
pub use status::{Status, is_passed_on, phrase_of, status_of};
