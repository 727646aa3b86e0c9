//! What a request means.

use crate::cause::Cause;
use coap_codec::Bytes;
use code_map::{Method, Status};
use uri_map::{Peer, Target};

/// The body of a CoAP request.
#[derive(Drop)]
pub enum Payload {
    Empty,
    /// that of the HTTP request, which isn't copied
    Same,
    /// another one
    Changed(Bytes),
}

/// What a request means (RFC 8075 section 5).
#[derive(Drop)]
pub enum Meaning {
    /// a request to a CoAP server
    Ask {
        method: Method,
        target: Target,
        peer: Peer,
        /// the Content-Format that is wanted
        accept: Option<u16>,
        /// the Content-Format of the payload
        format: Option<u16>,
        payload: Payload,
    },
    /// an answer of the proxy's own
    Refuse(Cause, Status),
}
