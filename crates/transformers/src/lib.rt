//! Transformers: closures that turn bytes of one form into bytes of another, each stored beside the
//! relation that its answers keep; and three of them as plain functions (CBOR to JSON, JSON to
//! CBOR, bytes to hexadecimal).
//!
//! The one contract: a `Bank` answers with bytes only where the relation holds of input and output,
//! and refuses content only where the relation does not take the input. Mapping requests and
//! rendering answers stand on it.
#![tactic(auto)]

mod apply_fault;
mod bank;
mod from_cbor;
mod from_json;
mod head;
mod item;
mod laws;
mod number;
mod octets;
mod places;
mod readable;
mod refused;
mod relation;
mod stored;
mod taken;
mod text;
mod write;

pub use apply_fault::ApplyFault;
pub use bank::{Bank, store};
pub use from_cbor::cbor_json;
pub use from_json::json_cbor;
pub use laws::{none_shorter, one_output, shortest_unique, taken_in_profile, through_json};
pub use octets::octets_hex;
pub use refused::Refused;
pub use relation::Relation;
pub use stored::{Call, Stored};
