//! What is done with media types that CoAP doesn't know.

/// How far media types without a content format of their own are taken. By default none is.
#[derive(Clone, Copy, Debug, Default, PartialEq, Eq)]
pub struct Policy {
    /// A media type without a format is sent as the nearest one (RFC 8075 section 6.3).
    pub loose: bool,
    /// `application/coap-payload` is taken by its number (RFC 8075 section 6.2).
    pub pass: bool,
}
