//! Responses that a 2.03 renews (RFC 7252 section 5.9.1.3).

ghost use Rattle.std.specs.Prelude.{◌≡◌, IfOk};
ghost use Rattle.coap_codec.specs.Spelling.{content};
ghost use Rattle.coap_codec.specs.Recognition.{value_of};
ghost use Rattle.history_laws.specs.Responses.{confirms, first_some, has_tag, renewed_response};

use crate::reading::value_of;
use crate::response::{format_of, max_age_of};
use coap_codec::{Bytes, Message, is_forwardable, number};
use resp_cache::{Location, Response, Values};
use std::alloc::{AllocError, Global};

/// 2.03 Valid (RFC 7252 section 5.9.1.3).
const VALID: u8 = 67;

/// Whether this is its ETag.
fn has_tag(tag: &Bytes, m: &Message) -> bool
    ensures { result ≡ has_tag tag.now (value_of 4 (content m.now)) }
{
    match value_of(m, number::ETAG) {
        Some(value) => value == tag.as_slice(),
        None => false,
    }
}

/// Whether the message says that what has this ETag is valid still.
pub fn confirms(tag: &Option<Bytes>, m: &Message) -> bool
    ensures { result ≡ confirms tag.now (content m.now) }
{
    let Some(tag) = tag else {
        return false;
    };
    is_forwardable(&m.options) && m.code == VALID && has_tag(tag, m)
}

/// An equal list.
fn copy_values(alloc: Global, values: &Values) -> Result<Values, AllocError>
    ensures { IfOk result (λ v. v ≡ values.now) }
{
    let mut copies = Vec::new(alloc);
    'each: for value in values.as_slice() {
        copies.push(value.copy()?)?;
    }
    Ok(Values::of(copies))
}

/// An equal ETag.
fn copy_tag(tag: &Option<Bytes>) -> Result<Option<Bytes>, AllocError>
    ensures { IfOk result (λ t. t ≡ tag.now) }
{
    match tag {
        Some(tag) => Ok(Some(tag.copy()?)),
        None => Ok(None),
    }
}

/// Its format, or else the other one.
fn first_some(format: Option<u16>, other: Option<u16>) -> Option<u16>
    ensures { result ≡ first_some format other }
{
    match format {
        Some(format) => Some(format),
        None => other,
    }
}

/// The response as the message renews it.
pub fn renewed(alloc: Global, response: &Response, m: &Message) -> Result<Response, AllocError>
    ensures { IfOk result (λ r. r ≡ renewed_response response.now (content m.now)) }
{
    let location = Location {
        path: copy_values(alloc, &response.location.path)?,
        query: copy_values(alloc, &response.location.query)?,
    };
    Ok(Response {
        code: response.code,
        format: first_some(format_of(m), response.format),
        etag: copy_tag(&response.etag)?,
        max_age: max_age_of(m),
        location,
        body: response.body.copy()?,
    })
}
