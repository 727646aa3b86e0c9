//! The fields of a head, as a map. All their values lie in one piece of memory.

ghost use Rattle.std.specs.Prelude.{◌≡◌, ◌≤◌, length, IfOk, OnOk, All, map};
ghost use Rattle.httparse.specs.Grammar.{IsToken};
ghost use Rattle.httparse.specs.Spans.{IsHeaderWithin, header_bytes};
ghost use Rattle.http_header.specs.HeaderMap.{append};
ghost use Rattle.http_header.specs.FieldValue.{plain_value, IsFieldValue};
ghost use Rattle.http_header.specs.Token.{lowercase};
ghost use Rattle.http_edge.specs.Requests.{fields_from, values_in, AreFields};

use crate::memory::Memory;
use bytes::Bytes;
use http_header::{HeaderMap, HeaderName, HeaderNameError, HeaderValue};
use httparse::spans::HeaderSpan;
use std::alloc::Global;

/// The fields, in order.
pub fn fields_of(alloc: Global, unread: &[u8], spans: &[HeaderSpan]) -> Result<HeaderMap, Memory>
    requires within { All (IsHeaderWithin (length unread.now)) spans.now }
    requires fields { AreFields unread.now spans.now }
    ensures { IfOk result (λ m. m ≡ fields_from (map (header_bytes unread.now) spans.now)) }
{
    let mut fields = HeaderMap::new(alloc);
    if fields.reserve(spans.len()).is_err() {
        return Err(Memory);
    }
    let mut values = values_of(alloc, unread, spans)?;
    'each: for span in spans {
        let value = values.split_to(span.value.of(unread).len())?;
        add_field(alloc, &mut fields, span.name.of(unread), value)?;
    }
    Ok(fields)
}

/// Adds a field after the others.
fn add_field(alloc: Global, fields: &mut HeaderMap, name: &[u8], value: Bytes) -> Result<(), Memory>
    requires name { IsToken name.now }
    requires len { length name.now ≤ 8192 }
    requires value { IsFieldValue value }
    ensures { OnOk result (fields.new
        ≡ append fields.old (lowercase name.now) (plain_value value)) }
{
    let name = match HeaderName::from_bytes(alloc, name) {
        Ok(name) => name,
        Err(HeaderNameError::Invalid) => unreachable!(),
        Err(HeaderNameError::OutOfMemory) => return Err(Memory),
    };
    match fields.append(name, HeaderValue::from_known_valid(value)) {
        Ok(_) => Ok(()),
        Err(_) => Err(Memory),
    }
}

/// The values of the fields, one after the other.
fn values_of(alloc: Global, unread: &[u8], spans: &[HeaderSpan]) -> Result<Bytes, Memory>
    requires within { All (IsHeaderWithin (length unread.now)) spans.now }
    ensures { IfOk result (λ b. b ≡ values_in (map (header_bytes unread.now) spans.now)) }
{
    let mut values = Vec::with_capacity(alloc, room_for(unread, spans))?;
    'each: for span in spans {
        values.extend_from_slice(span.value.of(unread))?;
    }
    Ok(Bytes::from_vec(values)?)
}

/// How many bytes they have.
fn room_for(unread: &[u8], spans: &[HeaderSpan]) -> usize
    requires within { All (IsHeaderWithin (length unread.now)) spans.now }
{
    let mut room = 0usize;
    'each: for span in spans {
        room = room.saturating_add(span.value.of(unread).len());
    }
    room
}
