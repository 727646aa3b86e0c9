//! How a body is framed, and which heads are refused (RFC 9112, sections 3.2 and 6).

ghost use Rattle.std.specs.Prelude.{◌≡◌, ◌++◌, ◌∷◌, [], ℕ, List, length, All, map};
ghost use Rattle.httparse.specs.Spans.{IsHeaderWithin, header_bytes};
ghost use Rattle.http_edge.specs.Lists.{named};
ghost use Rattle.http_edge.specs.Lists as spec;
ghost use Rattle.http_edge.specs.Framing.{framing_of, sized_at, Finds, IsFound};
ghost use Rattle.http_edge.specs.Framing as frames;

use crate::lists::{has_member, is_named};
use crate::request::BadKind;
use httparse::spans::HeaderSpan;
use limits::MAX_BODY_LEN;

/// How many bytes a body has, or why its head is refused.
#[derive(Clone, Copy, Debug, PartialEq, Eq)]
pub enum Framing {
    Sized(usize),
    Chunked,
    Refused(BadKind),
}

/// The values of one name, as far as they matter.
#[derive(Clone, Copy)]
pub enum Values<'a> {
    Nothing,
    One(&'a [u8]),
    More,
}

/// What the fields of a head say of its message.
#[derive(Clone, Copy)]
pub struct Found<'a> {
    hosts: Values<'a>,
    codings: Values<'a>,
    lengths: Values<'a>,
    /// A Connection field lists `close`.
    pub closes: bool,
    /// An Expect field lists `100-continue`.
    pub expects: bool,
}

/// What the fields say, in one pass.
pub fn found_in<'a>(buf: &'a [u8], spans: &[HeaderSpan]) -> Found<'a>
    requires { All (IsHeaderWithin (length buf.now)) spans.now }
    ensures { IsFound result (map (header_bytes buf.now) spans.now) }
{
    let mut found = Found {
        hosts: Values::Nothing,
        codings: Values::Nothing,
        lengths: Values::Nothing,
        closes: false,
        expects: false,
    };
    'each: for span in spans {
        found = with_field(found, span.name.of(buf), span.value.of(buf));
    }
    found
}

/// What the fields say with one more after them.
fn with_field<'a>(found: Found<'a>, name: &[u8], value: &'a [u8]) -> Found<'a>
    ensures { (fields : List (List ℕ × List ℕ)) → IsFound found.entry fields
        → IsFound result (fields ++ (name.now, value.now) ∷ []) }
{
    Found {
        hosts: with_value(found.hosts, b"host", name, value),
        codings: with_value(found.codings, b"transfer-encoding", name, value),
        lengths: with_value(found.lengths, b"content-length", name, value),
        closes: found.closes || field_lists(b"connection", b"close", name, value),
        expects: found.expects || field_lists(b"expect", b"100-continue", name, value),
    }
}

/// The values of the fields of the name wanted, with one more field after them.
fn with_value<'a>(values: Values<'a>, wanted: &[u8], name: &[u8], value: &'a [u8]) -> Values<'a>
    ensures { (fields : List (List ℕ × List ℕ)) → Finds values.entry (named wanted.now fields)
        → Finds result (named wanted.now (fields ++ (name.now, value.now) ∷ [])) }
{
    if !is_named(name, wanted) {
        return values;
    }
    match values {
        Values::Nothing => Values::One(value),
        _ => Values::More,
    }
}

/// The field has the name wanted and lists the member.
fn field_lists(wanted: &[u8], member: &[u8], name: &[u8], value: &[u8]) -> bool
    ensures { result ≡ spec.field_lists wanted.now member.now (name.now, value.now) }
{
    is_named(name, wanted) && has_member(value, member)
}

/// The framing by a Content-Length with that value.
fn length_at(digits: &[u8]) -> Framing
    ensures { result ≡ sized_at digits.now }
{
    if digits.is_empty() {
        return Framing::Refused(BadKind::Syntax);
    }
    let mut n: usize = 0;
    'each: for &digit in digits {
        if !digit.is_ascii_digit() {
            return Framing::Refused(BadKind::Syntax);
        }
        n = (10 * n + usize::from(digit - b'0')).min(65537);
    }
    if n > MAX_BODY_LEN {
        return Framing::Refused(BadKind::Large);
    }
    Framing::Sized(n)
}

/// The framing of a head of HTTP/1.`minor` by what its fields say.
#[tactic(auto, unfolding(crate::specs::Framing::framing_of))]
pub fn framing_by(found: &Found<'_>, minor: u8) -> Framing
    ensures { (fields : List (List ℕ × List ℕ)) → IsFound found.now fields
        → result ≡ framing_of minor fields }
{
    if minor == 1 && !matches!(found.hosts, Values::One(_)) {
        return Framing::Refused(BadKind::Syntax);
    }
    let lengths = found.lengths;
    match found.codings {
        Values::Nothing => sized_by(lengths),
        _ if minor == 0 || !matches!(lengths, Values::Nothing) => Framing::Refused(BadKind::Syntax),
        Values::One(coding) if is_named(coding, b"chunked") => Framing::Chunked,
        _ => Framing::Refused(BadKind::Coding),
    }
}

/// The framing by the values of Content-Length.
fn sized_by(lengths: Values<'_>) -> Framing
    ensures { (vs : List (List ℕ)) → Finds lengths.entry vs → result ≡ frames.sized_by vs }
{
    match lengths {
        Values::Nothing => Framing::Sized(0),
        Values::One(digits) => length_at(digits),
        Values::More => Framing::Refused(BadKind::Syntax),
    }
}
