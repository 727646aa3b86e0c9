//! What a connection brings.

use crate::memory::Memory;
use http_header::HeaderMap;
use std::error::Error;
use std::fmt;

/// Why the bytes that stand where a request should begin are refused, and with which status.
#[derive(Clone, Copy, Debug, PartialEq, Eq)]
pub enum BadKind {
    /// The bytes or the framing are no request's: 400.
    Syntax,
    /// The body is above 65,536 bytes: 413.
    Large,
    /// A transfer coding other than `chunked`: 501.
    Coding,
}

impl BadKind {
    ghost use Rattle.std.specs.Prelude.{◌≡◌};
    ghost use Rattle.http_edge.specs.Kinds.{status_of};

    /// The status code of the answer (RFC 9110, section 15).
    pub fn status(self) -> u16
        ensures { result ≡ status_of self }
    {
        match self {
            BadKind::Syntax => 400,
            BadKind::Large => 413,
            BadKind::Coding => 501,
        }
    }
}

impl fmt::Display for BadKind {
    fn fmt<W: fmt::Write>(&self, f: &mut fmt::Formatter<W>) -> fmt::Result {
        f.write_str(match self {
            BadKind::Syntax => "not an HTTP request",
            BadKind::Large => "a body above 65536 bytes",
            BadKind::Coding => "a transfer coding other than chunked",
        })
    }
}

impl Error for BadKind {}

/// The version that a request line states (RFC 9112, section 2.3).
#[derive(Clone, Copy, Debug, PartialEq, Eq)]
pub enum Version {
    Http10,
    Http11,
}

/// A request with its whole body.
#[derive(Drop)]
pub struct Request {
    /// As written.
    pub method: Vec<u8>,
    /// As written, in whatever form (RFC 9112, section 3.2).
    pub target: Vec<u8>,
    pub version: Version,
    /// The head's fields; trailers are dropped.
    pub fields: HeaderMap,
    /// At most 65,536 bytes, without chunk lines and trailers.
    pub body: Vec<u8>,
    /// Whether the connection is closed after the answer (RFC 9112 section 9.3).
    pub close: bool,
}

impl Request {
    ghost use Rattle.std.specs.Prelude.{◌≡◌, IfOk};
    ghost use Rattle.http_edge.specs.Requests.{content};

    /// An equal request.
    pub fn copy(&self) -> Result<Request, Memory>
        ensures { IfOk result (λ r. content r ≡ content self.now) }
    {
        Ok(Request {
            method: self.method.clone()?,
            target: self.target.clone()?,
            version: self.version,
            fields: self.fields.clone()?,
            body: self.body.clone()?,
            close: self.close,
        })
    }
}

/// The next thing on a connection.
#[derive(Drop)]
pub enum Incoming {
    Request(Request),
    /// After it nothing more is read.
    Bad(BadKind),
}
