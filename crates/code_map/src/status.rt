//! The statuses of answers.

ghost use Rattle.std.specs.Prelude.{◌≡◌, ◌≤◌, ◌<◌, false};
ghost use Rattle.code_map.specs.Statuses.{number_of, phrase_of as phrase};
ghost use Rattle.code_map.specs.Codes.{status_of as status, passed_on};

use std::fmt;

/// The status of an HTTP answer: a number with its phrase.
#[derive(Clone, Copy, Debug, PartialEq, Eq)]
pub enum Status {
    /// 200
    Okay,
    /// 201
    Created,
    /// 204, which has no body.
    NoContent,
    /// 400
    BadRequest,
    /// 403
    Forbidden,
    /// 404
    NotFound,
    /// 4.05 of a CoAP server. It becomes a 400 with a phrase of its own, since a 405 needs an Allow
    /// field and CoAP has none (RFC 8075 section 7).
    MethodNotAllowed,
    /// 406
    NotAcceptable,
    /// 412
    PreconditionFailed,
    /// 413
    ContentTooLarge,
    /// 414
    UriTooLong,
    /// 415
    UnsupportedMediaType,
    /// 500
    InternalServerError,
    /// 501
    NotImplemented,
    /// 502
    BadGateway,
    /// 503
    ServiceUnavailable,
    /// 504
    GatewayTimeout,
}

impl Status {
    /// The status code (RFC 9110 section 15).
    pub const fn number(self) -> u16
        ensures number { result ≡ number_of self }
        ensures digits { (100 ≤ result) × (result < 600) }
    {
        match self {
            Status::Okay => 200,
            Status::Created => 201,
            Status::NoContent => 204,
            Status::BadRequest | Status::MethodNotAllowed => 400,
            Status::Forbidden => 403,
            Status::NotFound => 404,
            Status::NotAcceptable => 406,
            Status::PreconditionFailed => 412,
            Status::ContentTooLarge => 413,
            Status::UriTooLong => 414,
            Status::UnsupportedMediaType => 415,
            Status::InternalServerError => 500,
            Status::NotImplemented => 501,
            Status::BadGateway => 502,
            Status::ServiceUnavailable => 503,
            Status::GatewayTimeout => 504,
        }
    }
}

/// Prints number and phrase, as in a status line.
impl fmt::Display for Status {
    ghost use Rattle.std.specs.Prelude.{Some};
    ghost use Rattle.code_map.specs.Statuses.{shown};

    ghost output = { λ status. Some (shown status) };

    fn fmt<W: fmt::Write>(&self, f: &mut fmt::Formatter<W>) -> fmt::Result {
        write!(f, "{} {}", self.number(), phrase_of(*self))
    }
}

/// The reason phrase (RFC 9112 section 4).
pub const fn phrase_of(status: Status) -> &'static str
    ensures { result.now ≡ phrase status }
{
    match status {
        Status::Okay => "OK",
        Status::Created => "Created",
        Status::NoContent => "No Content",
        Status::BadRequest => "Bad Request",
        Status::Forbidden => "Forbidden",
        Status::NotFound => "Not Found",
        Status::MethodNotAllowed => "CoAP server returned 4.05",
        Status::NotAcceptable => "Not Acceptable",
        Status::PreconditionFailed => "Precondition Failed",
        Status::ContentTooLarge => "Content Too Large",
        Status::UriTooLong => "URI Too Long",
        Status::UnsupportedMediaType => "Unsupported Media Type",
        Status::InternalServerError => "Internal Server Error",
        Status::NotImplemented => "Not Implemented",
        Status::BadGateway => "Bad Gateway",
        Status::ServiceUnavailable => "Service Unavailable",
        Status::GatewayTimeout => "Gateway Timeout",
    }
}

/// The status that a CoAP response code gives (RFC 8075 section 7). `has_body` says whether the
/// response has a payload.
pub const fn status_of(code: u8, has_body: bool) -> Status
    ensures table { result ≡ status code has_body }
    ensures own { passed_on code ≡ false → result ≡ Status.BadGateway }
{
    match (code / 32, code % 32) {
        (2, 1) => Status::Created,
        (2, 5) => Status::Okay,
        (2, 3 | 31) => Status::BadGateway,
        (2, _) => {
            if has_body {
                Status::Okay
            } else {
                Status::NoContent
            }
        }
        (4, 1 | 3) => Status::Forbidden,
        (4, 2) => Status::InternalServerError,
        (4, 4) => Status::NotFound,
        (4, 5) => Status::MethodNotAllowed,
        (4, 6) => Status::NotAcceptable,
        (4, 8) => Status::BadGateway,
        (4, 12) => Status::PreconditionFailed,
        (4, 13) => Status::ContentTooLarge,
        (4, 15) => Status::UnsupportedMediaType,
        (4, _) => Status::BadRequest,
        (5, 1) => Status::NotImplemented,
        (5, 2 | 5) => Status::BadGateway,
        (5, 3) => Status::ServiceUnavailable,
        (5, 4) => Status::GatewayTimeout,
        (5, _) => Status::InternalServerError,
        _ => Status::BadGateway,
    }
}

/// Whether a client gets the answer with this code. Every other code ends in the proxy's own 502:
/// the classes that are no answers, and what only the proxy can have asked for (2.03, 2.31, 4.08).
pub const fn is_passed_on(code: u8) -> bool
    ensures { result ≡ passed_on code }
{
    match (code / 32, code % 32) {
        (2, 3 | 31) | (4, 8) => false,
        (2 | 4 | 5, _) => true,
        _ => false,
    }
}
