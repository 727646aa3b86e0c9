//! Why the proxy answers by itself.

use std::fmt::{self, Display, Formatter, Write};

/// Why an answer is the proxy's own error and no response of a CoAP server.
#[derive(Clone, Copy, Debug, PartialEq, Eq)]
pub enum Cause {
    /// what came in is no request that the proxy takes (RFC 9112)
    BadHttp,
    /// the target names no CoAP resource that the proxy reaches (RFC 8075 section 5.3)
    NoMap,
    /// CoAP has no such method, or none that keeps the request's conditions (RFC 8075 section 5.1)
    Method,
    /// the body's media type, or each one that the client accepts, has no Content-Format
    Media,
    /// as many exchanges are open as the proxy holds
    Busy,
    /// no reply came in time (RFC 7252 section 4.8.2)
    Timeout,
    /// the server rejected the request by a Reset message (RFC 7252 section 4.2)
    Reset,
    /// the server's reply can't be passed on
    NotUnderstood,
}

impl Display for Cause {
    ghost use Rattle.std.specs.Prelude.{Some};
    ghost use Rattle.ask_model.specs.Causes.{cause_text};

    ghost output = { λ cause. Some (cause_text cause) };

    fn fmt<W: Write>(&self, f: &mut Formatter<W>) -> Result<(), fmt::Error> {
        f.write_str(match self {
            Cause::BadHttp => "bad-http",
            Cause::NoMap => "no-map",
            Cause::Method => "method",
            Cause::Media => "media",
            Cause::Busy => "busy",
            Cause::Timeout => "timeout",
            Cause::Reset => "reset",
            Cause::NotUnderstood => "not-understood",
        })
    }
}
