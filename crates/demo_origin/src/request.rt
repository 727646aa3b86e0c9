//! What a handler is asked, and what it replies.

use crate::segments::Segments;
use message_layer::Bytes;

/// The methods that handlers are asked for (RFC 7252, section 5.8). A GET is answered without them.
#[derive(Clone, Copy, PartialEq, Eq)]
pub enum Method {
    Post,
    Put,
    Delete,
}

/// A request as a handler sees it.
#[derive(Drop)]
pub struct CoapRequest {
    pub method: Method,
    /// The values of the Uri-Query options.
    pub query: Segments,
    /// The Content-Format of the body.
    pub format: Option<u16>,
    /// The format that is wanted of the answer.
    pub accept: Option<u16>,
    pub body: Bytes,
}

/// What a handler replies.
#[derive(Drop)]
pub struct Reply {
    /// The code as 32 * c + dd, of class 2, 4 or 5.
    pub code: u8,
    pub payload: Vec<u8>,
    /// The request counts as a change, even to an equal state.
    pub changed: bool,
}
