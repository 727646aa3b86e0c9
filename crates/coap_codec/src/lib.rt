//! Messages of CoAP as bytes, and bytes as messages (RFC 7252, section 3).
//!
//! The one contract of this crate is the relation `Spells` of a message and its bytes, which
//! goes by the fields and by the list of options, and knows no order of reading. `decode`
//! answers a message exactly where the bytes spell it, and else the first fault of the bytes,
//! in front of which all is spelled; `encode` gives the bytes that spell the message. A message
//! has one spelling, and bytes spell one message.
//!
//! The table of options stands here too, with what the bits of an option's number say, and which
//! options of a response are recognised. Whoever sends or receives messages of CoAP stands on
//! this crate.
#![tactic(auto)]

mod block;
mod bytes;
mod fault;
mod laws;
mod message;
pub mod number;
mod opt;
mod options;
mod reading;
mod recognition;
mod token;
mod uint;
mod values;
mod writing;

pub use block::{Block, block_of, block_to};
pub use bytes::Bytes;
pub use fault::CodecFault;
pub use laws::{
    encoded_is_read, fault_is_read, fault_stays, spelled_is_read, spelled_once, spelled_or_faulty,
    spells_one,
};
pub use message::{Message, MsgType};
pub use opt::Opt;
pub use options::{
    Occurrence, OptionDefinition, OptionName, definition, is_allowed_in_response, is_critical,
    is_unsafe, no_cache_key,
};
pub use reading::decode;
pub use recognition::{is_defined, is_forwardable, is_processable, is_rejected};
pub use token::Token;
pub use uint::{MAX_UINT_LEN, uint_of, uint_to};
pub use values::{first_of, values_of};
pub use writing::{
    MAX_VALUE_LEN, append_head, append_option, append_payload, encode, is_encodable,
};
