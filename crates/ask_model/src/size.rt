//! What a request counts.

ghost use Rattle.std.specs.Prelude.{◌≡◌, sum_by};
ghost use Rattle.http_header.specs.HeaderMap.{pairs};
ghost use Rattle.http_edge.specs.Requests.{content};
ghost use Rattle.ask_model.specs.Views.{came_of};
ghost use Rattle.ask_model.specs.Requests.{Whole};
ghost use Rattle.ask_model.specs.Sizes.{field_size, came_size, capped};

use http_edge::{Incoming, Request};
use http_header::HeaderMap;

/// The bytes of the field lines.
fn fields_size(fields: &HeaderMap) -> u64
    ensures { result ≡ capped (sum_by field_size (pairs fields.now)) }
{
    let mut total = 0u64;
    'each: for (name, value) in fields.iter() {
        total = total.saturating_add(name.as_bytes().len() as u64);
        total = total.saturating_add(value.as_bytes().len() as u64);
    }
    total
}

/// The bytes of a request.
fn request_size(request: &Request) -> u64
    ensures { result ≡ capped (came_size (Whole (content request.now))) }
{
    let head = (request.method.len() as u64).saturating_add(request.target.len() as u64);
    let fields = head.saturating_add(fields_size(&request.fields));
    fields.saturating_add(request.body.len() as u64)
}

/// The bytes of what came in: method, target, field lines and body. A count above 64 bits stays at
/// the largest.
pub fn incoming_size(came: &Incoming) -> u64
    ensures { result ≡ capped (came_size (came_of came.now)) }
{
    match came {
        Incoming::Request(request) => request_size(request),
        Incoming::Bad(_) => 0,
    }
}
