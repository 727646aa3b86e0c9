//! What a request that came in asks of a CoAP server.
//!
//! A request has one meaning under given settings: the CoAP request that it maps to (RFC 8075
//! section 5), or the proxy's own refusal with its cause. One contract: the meaning of a `Mapped`
//! is the mapping of its request. The journal, the laws of histories and the core stand on it.
#![tactic(auto)]

mod cause;
mod comparing;
mod mapped;
mod meaning;
mod request;
mod settings;
mod size;
mod validating;
mod writing;

pub use cause::Cause;
pub use mapped::Mapped;
pub use meaning::{Meaning, Payload};
pub use settings::Settings;
pub use size::incoming_size;
