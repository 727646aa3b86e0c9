//! The response that a message is, or that pieces are together.

ghost use Rattle.std.specs.Prelude.{◌≡◌, ◌++◌, map, IfOk, Some, option_map, slice_get};
ghost use Rattle.coap_codec.specs.Spelling.{content};
ghost use Rattle.coap_codec.specs.Values.{uint};
ghost use Rattle.coap_codec.specs.Recognition.{value_of, values_of};
ghost use Rattle.blockwise.specs.Joins.{payloads};
ghost use Rattle.history_laws.specs.Observing.{version};
ghost use Rattle.history_laws.specs.Responses.{response_of};
ghost use Rattle.reply_reading.specs.Findings.{joined_all};

use crate::reading::value_of;
use coap_codec::{Bytes, Message, is_defined, number, uint_of};
use resp_cache::{Location, Response, Values};
use std::alloc::{AllocError, Global};

/// Its Content-Format.
pub(crate) fn format_of(m: &Message) -> Option<u16>
    ensures { result ≡ option_map uint (value_of 12 (content m.now)) }
{
    match value_of(m, number::CONTENT_FORMAT) {
        Some(value) => Some(uint_of(value) as u16),
        None => None,
    }
}

/// Its Max-Age, in seconds.
pub(crate) fn max_age_of(m: &Message) -> Option<u32>
    ensures { result ≡ option_map uint (value_of 14 (content m.now)) }
{
    match value_of(m, number::MAX_AGE) {
        Some(value) => Some(uint_of(value)),
        None => None,
    }
}

/// The number by which notifications are ordered: its Observe (RFC 7641 section 3.4).
pub fn version_of(m: &Message) -> Option<u32>
    ensures { result ≡ version (content m.now) }
{
    match value_of(m, number::OBSERVE) {
        Some(value) => Some(uint_of(value)),
        None => None,
    }
}

/// Its ETag.
fn etag_of(alloc: Global, m: &Message) -> Result<Option<Bytes>, AllocError>
    ensures { IfOk result (λ etag. etag ≡ value_of 4 (content m.now)) }
{
    match value_of(m, number::ETAG) {
        Some(value) => Ok(Some(Bytes::from_slice(alloc, value)?)),
        None => Ok(None),
    }
}

/// Copies of the values of its Location options that are defined, in order.
fn location_of(alloc: Global, m: &Message) -> Result<Location, AllocError>
    ensures path { IfOk result (λ l. l.path ≡ values_of 8 (content m.now)) }
    ensures query { IfOk result (λ l. l.query ≡ values_of 20 (content m.now)) }
{
    let mut path = Vec::new(alloc);
    let mut query = Vec::new(alloc);
    'each: for o in &m.options {
        if o.number == number::LOCATION_PATH && is_defined(o) {
            path.push(Bytes::from_slice(alloc, &o.value)?)?;
        }
        if o.number == number::LOCATION_QUERY && is_defined(o) {
            query.push(Bytes::from_slice(alloc, &o.value)?)?;
        }
    }
    Ok(Location {
        path: Values::of(path),
        query: Values::of(query),
    })
}

/// Its payload.
fn body_of(m: Message) -> Bytes
    ensures { result ≡ m.payload.items }
{
    Bytes::of(m.payload)
}

/// What the message says as a response. Its payload becomes the body and isn't copied.
pub fn response_of(alloc: Global, m: Message) -> Result<Response, AllocError>
    ensures { IfOk result (λ r. r ≡ response_of (content m)) }
{
    let etag = etag_of(alloc, &m)?;
    let location = location_of(alloc, &m)?;
    Ok(Response {
        code: m.code,
        format: format_of(&m),
        etag,
        max_age: max_age_of(&m),
        location,
        body: body_of(m),
    })
}

/// How many bytes the payloads have. A count above the largest stays there.
fn size_of(earlier: &[Message], last: &[u8]) -> usize {
    let mut size = last.len();
    for m in earlier {
        size = size.saturating_add(m.payload.len());
    }
    size
}

/// The payloads in one, each copied once into the room that is reserved for all.
fn join(alloc: Global, earlier: &[Message], last: &[u8]) -> Result<Vec<u8>, AllocError>
    ensures { IfOk result (λ v. v.items ≡ payloads (map content earlier.now) ++ last.now) }
{
    let mut body = Vec::with_capacity(alloc, size_of(earlier, last))?;
    'each: for m in earlier {
        body.extend_from_slice(&m.payload)?;
    }
    body.extend_from_slice(last)?;
    Ok(body)
}

/// What the pieces of a representation say together, of which the last is given and those before
/// it, in order, beginning with the first.
pub fn join_pieces(
    alloc: Global,
    first: &Message,
    earlier: &[Message],
    last: Message,
) -> Result<Response, AllocError>
    requires { Some first.now ≡ slice_get earlier.now 0 }
    ensures { IfOk result (λ r. r ≡ joined_all (map content earlier.now) (content last)) }
{
    let body = join(alloc, earlier, &last.payload)?;
    let mut response = response_of(alloc, last)?;
    response.max_age = max_age_of(first);
    response.body = Bytes::of(body);
    Ok(response)
}
