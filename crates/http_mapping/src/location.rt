//! Where a created resource is hosted (RFC 8075, section 5.3; RFC 9110, section 10.2.2).

ghost use Rattle.std.specs.Prelude.{◌≡◌, IfOk, option_map, is_ok, true};
ghost use Rattle.std.specs.List.{list_all};
ghost use Rattle.std.specs.Str.{is_utf8};
ghost use Rattle.uri_map.specs.Naming.{target_at};
ghost use Rattle.http_mapping.specs.Located as spec;

use crate::fields::is_text;
use ask_model::{Mapped, Meaning};
use coap_codec::Bytes;
use http_edge::Memory;
use reply_reading::Response;
use std::alloc::Global;
use std::str::from_utf8;
use transformers::Relation;
use uri_map::{Target, Text, Texts, UriFault, hosting_of, target_of};

/// The code 2.01, Created.
const CREATED: u8 = 65;

/// The value of Location: the target under which the proxy hosts what was created, where the
/// response says where that is and the proxy can be asked for it.
pub fn location_of<R: Relation>(
    alloc: Global,
    mapped: &Mapped<R>,
    response: &Response,
) -> Result<Option<Vec<u8>>, Memory>
    ensures { IfOk result (λ o.
        option_map (λ v. v.items) o ≡ spec.located mapped.now.rules mapped.now.sense response.now) }
{
    match mapped.meaning() {
        Meaning::Ask { target, .. } if response.code == CREATED => {
            let base = mapped.settings().base.as_bytes();
            let path = segments(response.location.path.as_slice());
            let query = response.location.query.as_slice();
            hosted_beside(alloc, base, target, path, query)
        }
        _ => Ok(None),
    }
}

/// The segments that a response names: a single empty one counts as none.
fn segments(path: &[Bytes]) -> &[Bytes]
    ensures { result.now ≡ spec.segments path.now }
{
    match path {
        [only] if only.as_slice().is_empty() => &[],
        _ => path,
    }
}

/// Where the path and the query are hosted at the host and port that were asked, if they name
/// anything and the proxy takes what they name.
fn hosted_beside(
    alloc: Global,
    base: &[u8],
    asked: &Target,
    path: &[Bytes],
    query: &[Bytes],
) -> Result<Option<Vec<u8>>, Memory>
    ensures { IfOk result (λ o.
        option_map (λ v. v.items) o ≡ spec.beside base.now asked.now path.now query.now) }
{
    if path.is_empty() && query.is_empty() {
        return Ok(None);
    }
    if !are_texts(path) || !are_texts(query) {
        return Ok(None);
    }
    let target = Target {
        host: asked.host.copy()?,
        port: asked.port,
        path: texts_of(alloc, path)?,
        query: texts_of(alloc, query)?,
    };
    hosted(alloc, base, &target)
}

/// The text under which the target is hosted, if the proxy takes that text.
fn hosted(alloc: Global, base: &[u8], target: &Target) -> Result<Option<Vec<u8>>, Memory>
    ensures { IfOk result (λ o. option_map (λ v. v.items) o ≡ spec.hosted base.now target.now) }
{
    let text = hosting_of(alloc, base, target)?;
    if is_taken(alloc, base, &text)? {
        Ok(Some(text))
    } else {
        Ok(None)
    }
}

/// Whether the text names a target below the base.
fn is_taken(alloc: Global, base: &[u8], text: &[u8]) -> Result<bool, Memory>
    ensures { IfOk result (λ b. b ≡ is_ok (target_at base.now text.now)) }
{
    match target_of(alloc, base, text) {
        Ok(_) => Ok(true),
        Err(UriFault::Memory) => Err(Memory),
        Err(_) => Ok(false),
    }
}

/// Whether each value is UTF-8.
fn are_texts(values: &[Bytes]) -> bool
    ensures { result ≡ list_all is_utf8 values.now }
{
    values.iter().all(|value| is_text(value.as_slice()))
}

/// The values as texts.
fn texts_of(alloc: Global, values: &[Bytes]) -> Result<Texts, Memory>
    requires { list_all is_utf8 values.now ≡ true }
    ensures { IfOk result (λ t. t ≡ values.now) }
{
    let mut texts = Texts::new(alloc);
    'each: for value in values {
        texts.push(text_of(alloc, value)?)?;
    }
    Ok(texts)
}

/// A value as a text.
fn text_of(alloc: Global, value: &Bytes) -> Result<Text, Memory>
    requires { is_utf8 value.now ≡ true }
    ensures { IfOk result (λ t. t ≡ value.now) }
{
    match from_utf8(value.as_slice()) {
        Ok(text) => Ok(Text::copy_of(alloc, text)?),
        Err(_) => unreachable!(),
    }
}
