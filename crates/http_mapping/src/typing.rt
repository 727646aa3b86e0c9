//! What a request's fields say of its body, and of the answer that it takes (RFC 8075, section 6).

ghost use Rattle.std.specs.Prelude.{◌≡◌, ◌≢◌, ◌∷◌, ◌++◌, codes, Some, Ok, Err, OnOk, IfOk, IfErr, option_map, if◌then◌else◌};
ghost use Rattle.http_header.specs.Token.{lowercase};
ghost use Rattle.http_edge.specs.Lists.{has_other as has_other_member};
ghost use Rattle.http_edge.specs.Requests.{content};
ghost use Rattle.media_map.specs.Formats.{format_at};
ghost use Rattle.ask_model.specs.Views.{rules_of};
ghost use Rattle.ask_model.specs.Maps.{first_value as first_value_of, one_value as one_value_of, is_coded as coded, typing_of as typing_for, typing_by, typing_stated, accepted_of};
ghost use Rattle.http_mapping.specs.Typings.{typing_shown, IsAlong};

use ask_model::Settings;
use http_edge::{Memory, Request, has_other};
use http_header::{ACCEPT, HeaderName};
use media_map::{Form, MediaFault, Policy, Wanted, accept_of, format_of, route_of};
use std::alloc::Global;

/// What is known of a body's format.
#[derive(Clone, Copy)]
pub enum Typing<'a> {
    /// None is stated.
    Untyped,
    /// It has this one.
    Typed(u16),
    /// It is transformed from its media type to this one.
    Routed(&'a Form, u16),
    /// It has a media type that no format stands for.
    Untypable,
}

/// The first value of the fields of that name.
fn first_value<'a>(request: &'a Request, name: &'static str) -> Option<&'a [u8]>
    requires { lowercase name.now ≡ name.now }
    ensures { option_map (λ v. v.now) result ≡ first_value_of name.now (content request.now) }
{
    let value = request.fields.get(name)?;
    Some(value.as_bytes())
}

/// Whether a Content-Encoding names a coding.
fn names_coding(value: &[u8]) -> bool
    ensures { result ≡ has_other_member value.now (codes "identity") }
{
    has_other(value, "identity".as_bytes())
}

/// Whether the body is in a content coding (RFC 9110, section 8.4).
fn is_coded(request: &Request) -> bool
    ensures { result ≡ coded (content request.now) }
{
    'each: for value in request.fields.get_all("content-encoding") {
        if names_coding(value.as_bytes()) {
            return true;
        }
    }
    false
}

/// The format that a Content-Type states by itself.
fn stated(value: &[u8], policy: Policy) -> Typing<'static>
    ensures { typing_shown result ≡ typing_stated (format_at policy value.now) }
{
    match format_of(value, policy) {
        Ok(Some(format)) => Typing::Typed(format),
        Ok(None) | Err(_) => Typing::Untypable,
    }
}

/// What a Content-Type says: the first route from it goes before its own format.
fn typing_said<'a>(value: &[u8], settings: &'a Settings) -> Typing<'a>
    ensures says { typing_shown result ≡ typing_by (rules_of settings.now) (Some value.now) }
    ensures along { IsAlong settings.now.routes (typing_shown result) }
{
    match route_of(value, &settings.routes) {
        Some((from, Form::Format(format))) => Typing::Routed(from, *format),
        _ => stated(value, settings.policy),
    }
}

/// What is known of the format of a body that goes to a server. An empty body has none; one with a
/// content coding has none that CoAP knows.
pub fn typing_of<'a>(request: &Request, settings: &'a Settings, body: &[u8]) -> Typing<'a>
    ensures says { typing_shown result
        ≡ typing_for (rules_of settings.now) (content request.now) body.now }
    ensures along { IsAlong settings.now.routes (typing_shown result) }
{
    if body.is_empty() {
        return Typing::Untyped;
    }
    if is_coded(request) {
        return Typing::Untypable;
    }
    match first_value(request, "content-type") {
        Some(value) => typing_said(value, settings),
        None => Typing::Untyped,
    }
}

/// Puts a value last, with a comma before it where one stands there.
fn put_value(all: &mut Vec<u8>, begun: bool, value: &[u8]) -> Result<(), Memory>
    ensures { OnOk result (all.new.items
        ≡ all.old.items ++ (if begun then 44 ∷ value.now else value.now)) }
{
    if begun {
        all.push(b',')?;
    }
    all.extend_from_slice(value)?;
    Ok(())
}

/// The values of all fields of that name, with a comma between each two (RFC 9110, section 5.3).
fn one_value(alloc: Global, request: &Request, name: &HeaderName) -> Result<Vec<u8>, Memory>
    ensures { IfOk result (λ v. v.items ≡ one_value_of name.now (content request.now)) }
{
    let mut all = Vec::new(alloc);
    let mut begun = false;
    'each: for value in request.fields.get_all(name) {
        put_value(&mut all, begun, value.as_bytes())?;
        begun = true;
    }
    Ok(all)
}

/// The format and media type that a request wants, if its Accept asks for some. A fault other than
/// `Memory` says that nothing that it accepts can be had.
pub fn wanted_by(
    alloc: Global,
    request: &Request,
    settings: &Settings,
) -> Result<Option<Wanted>, MediaFault>
    ensures wanted { IfOk result (λ o.
        accepted_of (rules_of settings.now) (content request.now) ≡ Ok o) }
    ensures fault { IfErr result (λ e. e ≢ MediaFault.Memory
        → accepted_of (rules_of settings.now) (content request.now) ≡ Err e) }
{
    match one_value(alloc, request, &ACCEPT) {
        Ok(value) => accept_of(alloc, &value, settings.policy, &settings.routes),
        Err(Memory) => Err(MediaFault::Memory),
    }
}
