//! Handlers of a demonstration device: cells and counters.

ghost use Rattle.std.specs.Prelude.{◌≡◌, ◌≤◌, ◌∷◌, [], length, Some, IfOk, IsErrOf, IsOkUnless};
ghost use Rattle.demo_origin.specs.Values.{replied};
ghost use Rattle.demo_origin.specs.Keeps.{Fits};
ghost use Rattle.demo_origin.specs.Kinds.{counted, counted_from, Counts, IsCell, IsTakenByCell, IsCounter, IsTakenByCounter};

use crate::fault::Refused;
use crate::request::{CoapRequest, Method, Reply};
use limits::MAX_BODY_LEN;
use std::alloc::Global;

/// The code 2.02.
const DELETED: u8 = 66;

/// The code 2.04.
const CHANGED: u8 = 68;

/// The code 4.05.
const METHOD_NOT_ALLOWED: u8 = 133;

/// The code 5.00.
const INTERNAL_SERVER_ERROR: u8 = 160;

fn reply(alloc: Global, code: u8, payload: &[u8], changed: bool) -> Result<Reply, Refused>
    ensures ok { IfOk result (λ r.
        replied r ≡ record { code = code; payload = payload.now; changed = changed }) }
    ensures memory { IsOkUnless result Refused.Memory }
{
    Ok(Reply {
        code,
        payload: Vec::from_slice(alloc, payload)?,
        changed,
    })
}

/// A cell: PUT sets its state (2.04), DELETE empties it (2.02), and POST is answered 4.05. It takes
/// no state above 65,536 bytes.
pub fn cell(alloc: Global, state: &[u8], request: &CoapRequest) -> Result<(Vec<u8>, Reply), Refused>
    ensures does { Fits (IsCell state.now request.now) result }
    ensures takes { IsErrOf result Refused.Content → ¬ IsTakenByCell state.now request.now }
{
    let body = request.body.as_slice();
    if body.len() > MAX_BODY_LEN || state.len() > MAX_BODY_LEN {
        return Err(Refused::Content);
    }
    match request.method {
        Method::Put => {
            let reply = reply(alloc, CHANGED, b"", true)?;
            Ok((Vec::from_slice(alloc, body)?, reply))
        }
        Method::Delete => {
            let reply = reply(alloc, DELETED, b"", true)?;
            Ok((Vec::new(alloc), reply))
        }
        Method::Post => {
            let reply = reply(alloc, METHOD_NOT_ALLOWED, b"", false)?;
            Ok((Vec::from_slice(alloc, state)?, reply))
        }
    }
}

/// The number of one digit more.
fn with_digit(n: u64, c: u8) -> Option<u64>
    ensures { result ≡ counted_from n (c ∷ []) }
{
    if c < b'0' || c > b'9' {
        return None;
    }
    let digit = u64::from(c - b'0');
    if n > (u64::MAX - digit) / 10 {
        return None;
    }
    Some(10 * n + digit)
}

/// The number in a counter's state.
fn counted(state: &[u8]) -> Option<u64>
    ensures { result ≡ counted state.now }
{
    let mut n = 0;
    'each: for c in state {
        let Some(more) = with_digit(n, *c) else {
            return None;
        };
        n = more;
    }
    Some(n)
}

/// The state and the reply after one more.
fn count_on(alloc: Global, n: u64, state: &[u8]) -> Result<(Vec<u8>, Reply), Refused>
    requires { length state.now ≤ MAX_BODY_LEN }
    ensures does { Fits (Counts (Some n) state.now) result }
    ensures memory { IsOkUnless result Refused.Memory }
{
    if n == u64::MAX {
        let reply = reply(alloc, INTERNAL_SERVER_ERROR, b"", false)?;
        return Ok((Vec::from_slice(alloc, state)?, reply));
    }
    let text = format!(in alloc; "{}", n + 1)?;
    let reply = reply(alloc, CHANGED, text.as_bytes(), true)?;
    Ok((Vec::from_slice(alloc, text.as_bytes())?, reply))
}

/// A counter: its state is a number in decimal digits, and empty for 0. POST adds one, and answers
/// 2.04 with the new text, or 5.00 at the last number of 64 bits; the others are answered 4.05. It
/// takes no other state.
pub fn counter(
    alloc: Global,
    state: &[u8],
    request: &CoapRequest,
) -> Result<(Vec<u8>, Reply), Refused>
    ensures does { Fits (IsCounter state.now request.now) result }
    ensures takes { IsErrOf result Refused.Content
        → ¬ IsTakenByCounter state.now request.now }
{
    if state.len() > MAX_BODY_LEN {
        return Err(Refused::Content);
    }
    if request.method != Method::Post {
        let reply = reply(alloc, METHOD_NOT_ALLOWED, b"", false)?;
        return Ok((Vec::from_slice(alloc, state)?, reply));
    }
    match counted(state) {
        Some(n) => count_on(alloc, n, state),
        None => Err(Refused::Content),
    }
}
