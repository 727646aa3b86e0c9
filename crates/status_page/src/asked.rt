//! What a request is for.

ghost use Rattle.std.specs.Prelude.{◌≡◌, ◌≤◌, ◌<◌, length};
ghost use Rattle.std.specs.List.{position_or_len};
ghost use Rattle.http_edge.specs.Edges.{item};
ghost use Rattle.code_map.specs.Methods.{method_named};
ghost use Rattle.status_page.specs.Views.{asks_head, decimal_in, first_in, is_mark, journal_at, journal_by, named_in, number_in, view_asked, view_at as page_at, view_by, views};

use code_map::{Method, method_of};
use http_edge::{BadKind, Incoming};
use uri_map::path_and_query;

/// A page.
#[derive(Clone, Copy, Debug, PartialEq, Eq)]
pub enum View {
    /// `/`: how it does, for people.
    People,
    /// `/health`: whether it takes requests.
    Health,
    /// `/metrics`: figures, in the text form that Prometheus reads.
    Metrics,
    /// `/journal?from=N`: the lines of the journal, from entry N on.
    Journal(u32),
    /// `/journal/N`: what became of the request that entry N is, or that was answered by it.
    Request(u32),
}

/// Why there is no page for what came in.
#[derive(Clone, Copy, Debug, PartialEq, Eq)]
pub enum Refusal {
    /// It is no request.
    Bad(BadKind),
    /// It isn't a GET or a HEAD.
    Method,
    /// No page has the path.
    Path,
}

/// The page with this path, of those that have one alone.
fn view_named(path: &[u8]) -> Option<View>
    ensures { result ≡ named_in views path.now }
{
    match path {
        b"/" => Some(View::People),
        b"/health" => Some(View::Health),
        b"/metrics" => Some(View::Metrics),
        _ => None,
    }
}

/// Where a query begins, or the length.
fn query_start(text: &[u8]) -> usize
    ensures value { result ≡ position_or_len is_mark text.now }
    ensures within { result ≤ length text.now }
{
    'each: for (i, b) in text.iter().enumerate() {
        if *b == b'?' {
            return i;
        }
    }
    text.len()
}

/// The number that decimal digits write.
fn decimal_of(digits: &[u8]) -> Option<u32>
    requires { length digits.now < 10 }
    ensures { result ≡ decimal_in digits.now }
{
    let mut number = 0;
    'each: for digit in digits {
        if !digit.is_ascii_digit() {
            return None;
        }
        number = 10 * number + u32::from(*digit - b'0');
    }
    Some(number)
}

/// The number of an entry.
fn number_in(digits: &[u8]) -> Option<u32>
    ensures { result ≡ number_in digits.now }
{
    if digits.is_empty() || digits.len() > 9 {
        return None;
    }
    decimal_of(digits)
}

/// From which entry on the journal is read.
fn first_in(query: &[u8]) -> Option<u32>
    ensures { result ≡ first_in query.now }
{
    if query.is_empty() {
        Some(0)
    } else if query.starts_with(b"?from=") {
        number_in(&query[6..])
    } else {
        None
    }
}

/// The page of the journal with this query, where this stands after `/journal`.
fn journal_by(rest: &[u8], query: &[u8]) -> Option<View>
    ensures { result ≡ journal_by rest.now query.now }
{
    match rest {
        [] => Some(View::Journal(first_in(query)?)),
        [b'/', digits @ ..] => Some(View::Request(number_in(digits)?)),
        _ => None,
    }
}

/// The page of the journal with this path and query.
fn journal_at(path: &[u8], query: &[u8]) -> Option<View>
    ensures { result ≡ journal_at path.now query.now }
{
    if path.starts_with(b"/journal") {
        journal_by(&path[8..], query)
    } else {
        None
    }
}

/// The page with this path and query.
fn view_at(text: &[u8]) -> Option<View>
    ensures { result ≡ page_at text.now }
{
    let (path, query) = text.split_at(query_start(text));
    match view_named(path) {
        Some(view) => Some(view),
        None => journal_at(path, query),
    }
}

/// The page that is read by this method at this path and query.
fn view_by(method: Option<Method>, text: &[u8]) -> Result<View, Refusal>
    ensures { result ≡ view_by method text.now }
{
    match method {
        Some(Method::Get | Method::Head) => match view_at(text) {
            Some(view) => Ok(view),
            None => Err(Refusal::Path),
        },
        _ => Err(Refusal::Method),
    }
}

/// The page that is asked for, or why there is none.
pub fn view_of(came: &Incoming) -> Result<View, Refusal>
    ensures { result ≡ view_asked (item came.now) }
{
    match came {
        Incoming::Request(request) => {
            view_by(method_of(&request.method), path_and_query(&request.target))
        },
        Incoming::Bad(kind) => Err(Refusal::Bad(*kind)),
    }
}

/// Whether the answer is to have no body.
pub(crate) fn is_head(came: &Incoming) -> bool
    ensures { result ≡ asks_head (item came.now) }
{
    match came {
        Incoming::Request(request) => matches!(method_of(&request.method), Some(Method::Head)),
        Incoming::Bad(_) => false,
    }
}
