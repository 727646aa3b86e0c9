//! A request target taken apart, with nothing decoded.

ghost use Rattle.std.specs.Prelude.{◌≡◌, nat_lt, length, drop, Some, None, if◌then◌else◌};
ghost use Rattle.uri_map.specs.Steps.{Reads, option_view};
ghost use Rattle.uri_map.specs.Splitting as split;

use crate::fault::UriFault;
use crate::marks::{Mark, cut_at, index_of};

/// What stands after the base.
pub(crate) fn behind_base<'a>(base: &[u8], text: &'a [u8]) -> Result<&'a [u8], UriFault>
    ensures { Reads (λ x. x.now) result (split.behind_base base.now text.now) }
{
    if text.starts_with(base) {
        Ok(&text[base.len()..])
    } else {
        Err(UriFault::OtherBase)
    }
}

/// Whether the text is `coap`, in upper or lower case.
fn is_coap(scheme: &[u8]) -> bool
    ensures { result ≡ split.is_coap scheme.now }
{
    scheme.eq_ignore_ascii_case(b"coap")
}

/// What stands after the scheme `coap` and `://`, or all where no scheme is written.
pub(crate) fn behind_scheme(text: &[u8]) -> Result<&[u8], UriFault>
    ensures { Reads (λ x. x.now) result (split.behind_scheme text.now) }
{
    let (front, rest) = cut_at(Mark::Authority, text);
    if !front.ends_with(b":") || !rest.starts_with(b"//") {
        return Ok(text);
    }
    if is_coap(&front[..front.len() - 1]) {
        Ok(&rest[2..])
    } else {
        Err(UriFault::Scheme)
    }
}

/// What follows the first byte of a path; none where the path is empty or `/` alone.
fn behind_slash(path: &[u8]) -> Option<&[u8]>
    ensures { option_view result ≡ (if nat_lt 1 (length path.now) then Some (drop 1 path.now)
        else None) }
{
    if path.len() > 1 {
        Some(&path[1..])
    } else {
        None
    }
}

/// The path after its first `/`, and what follows the first `?`, of what follows an authority.
pub(crate) fn path_and_query_of(text: &[u8]) -> (Option<&[u8]>, Option<&[u8]>)
    ensures path { option_view result.0 ≡ split.written_path text.now }
    ensures query { option_view result.1 ≡ split.written_query text.now }
{
    let end = index_of(Mark::Byte(b'?'), text);
    let path = behind_slash(&text[..end]);
    if end < text.len() {
        (path, Some(&text[end + 1..]))
    } else {
        (path, None)
    }
}

/// Whether the text begins with a letter.
fn is_scheme(text: &[u8]) -> bool
    ensures { result ≡ split.is_scheme text.now }
{
    match text {
        [] => false,
        [first, ..] => first.is_ascii_alphabetic(),
    }
}

/// The path and query of a request target: what follows the authority in absolute form, and
/// otherwise all (RFC 9112, section 3.2).
pub fn path_and_query(text: &[u8]) -> &[u8]
    ensures { result.now ≡ split.origin_form text.now }
{
    let (scheme, rest) = cut_at(Mark::Scheme, text);
    if is_scheme(scheme) && rest.starts_with(b"://") {
        let (_, behind) = cut_at(Mark::Authority, &rest[3..]);
        behind
    } else {
        text
    }
}
