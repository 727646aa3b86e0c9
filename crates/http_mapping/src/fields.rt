//! What the head of an answer goes by.

ghost use Rattle.std.specs.Prelude.{◌≡◌};
ghost use Rattle.std.specs.Str.{is_utf8};
ghost use Rattle.http_mapping.specs.Means.{content_type, is_read, closes as closing, is_head as head, seconds_left as left_of};
ghost use Rattle.ask_model.specs.Views.{came_of};
ghost use Rattle.http_mapping.specs.Writes.{type_of};

use code_map::{Method, method_of};
use http_edge::Incoming;
use reply_reading::Response;
use std::str;

/// The code 2.05, Content.
pub const CONTENT: u8 = 69;

/// The code 5.03, Service Unavailable.
pub const UNAVAILABLE: u8 = 163;

/// The least code of an error, 4.00.
const ERROR: u8 = 128;

/// The content format of UTF-8 text.
const TEXT: u16 = 0;

/// The status that has no body.
pub const NO_CONTENT: u16 = 204;

/// The seconds that a response is fresh where it doesn't say (RFC 7252, section 5.10.5).
const DEFAULT_MAX_AGE: u32 = 60;

/// The format whose media type is that of the body: the one that the response says, and that of
/// text for an error's text of which it says none (RFC 7252, section 5.5.2).
pub fn format_shown(response: &Response) -> Option<u16>
    ensures { content_type response.now ≡ type_of result }
{
    let body = response.body.as_slice();
    if body.is_empty() {
        return None;
    }
    match response.format {
        Some(format) => Some(format),
        None if response.code >= ERROR && is_text(body) => Some(TEXT),
        None => None,
    }
}

/// Whether the bytes are UTF-8.
pub fn is_text(bytes: &[u8]) -> bool
    ensures { result ≡ is_utf8 bytes.now }
{
    match str::from_utf8(bytes) {
        Ok(_) => true,
        Err(_) => false,
    }
}

/// The whole seconds for which a response of that age, in milliseconds, stays fresh.
pub fn seconds_left(response: &Response, age: u64) -> u64
    ensures { result ≡ left_of response.now age }
{
    let fresh = 1000 * u64::from(response.max_age.unwrap_or(DEFAULT_MAX_AGE));
    fresh.saturating_sub(age) / 1000
}

/// Whether a representation was asked for, by GET or HEAD.
pub fn is_read(came: &Incoming) -> bool
    ensures { result ≡ is_read (came_of came.now) }
{
    match came {
        Incoming::Request(request) => {
            matches!(method_of(&request.method), Some(Method::Get | Method::Head))
        }
        Incoming::Bad(_) => false,
    }
}

/// Whether a HEAD was asked.
pub fn is_head(came: &Incoming) -> bool
    ensures { result ≡ head (came_of came.now) }
{
    match came {
        Incoming::Request(request) => method_of(&request.method) == Some(Method::Head),
        Incoming::Bad(_) => false,
    }
}
/// Whether the connection is closed after the answer to what was read.
pub fn closes(incoming: &Incoming) -> bool
    ensures { result ≡ closing (came_of incoming.now) }
{
    match incoming {
        Incoming::Request(request) => request.close,
        Incoming::Bad(_) => true,
    }
}
