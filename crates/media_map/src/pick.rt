//! What a media range can be had as.

ghost use Rattle.std.specs.Prelude.{◌≡◌, IfOk};
ghost use Rattle.std.specs.Option.{option_map};
ghost use Rattle.media_map.specs.Accepting.{is_itself as itself, is_called as called, is_from, route_to, route_at, routed, wanted_of};
ghost use Rattle.std.specs.List.{find};
ghost use Rattle.media_map.specs.declared.form.Form.{Form};
ghost use Rattle.media_map.specs.Views.{named_of};
ghost use Rattle.media_map.specs.Picking.{wanted_by};

use crate::form::{Form, Media};
use crate::formats::{is_other_text, known_format, media_of, payload_format};
use crate::media_type::MediaType;
use crate::policy::Policy;
use crate::routes::Routes;
use crate::text::{cut, is_same, trim};
use crate::wanted::Wanted;
use std::alloc::{AllocError, Global};

// Whether the parameters that matter fit.
#[tactic(auto, unfolding(crate::specs::Accepting::is_itself))]
fn is_itself(media: &MediaType<'_>) -> bool
    ensures { result ≡ itself (named_of media.now) }
{
    if is_other_text(media) {
        return false;
    }
    !is_same(media.essence, b"application/coap-payload") || payload_format(media).is_some()
}

// Whether the text's type and subtype are those of the media type.
#[tactic(auto, unfolding(crate::specs::Accepting::is_called))]
fn is_called(text: &[u8], media: &MediaType<'_>) -> bool
    ensures { result ≡ called text.now (named_of media.now) }
{
    is_same(trim(&text[..cut(text, b';', false)]), media.essence)
}

/// What an element asks for.
#[derive(Clone, Copy)]
pub enum Pick<'a> {
    /// A format that is transformed to this media type.
    Route(u16, &'a Media),
    /// A format as it is.
    Plain(u16),
}

impl Pick<'_> {
    /// What is asked for, in memory of its own.
    pub fn to_wanted(self, alloc: Global) -> Result<Wanted, AllocError>
        ensures { IfOk result (λ w. w ≡ wanted_by self.entry) }
    {
        match self {
            Pick::Route(format, media) => Ok(Wanted {
                format,
                media: media.copy()?,
            }),
            Pick::Plain(format) => Ok(Wanted {
                format,
                media: media_of(alloc, format)?,
            }),
        }
    }
}

// What the route from the one form to the other gives for the media type.
fn pick_of<'a>(from: &Form, to: &'a Form, media: &MediaType<'_>) -> Option<Pick<'a>>
    ensures { option_map wanted_by result ≡ route_to (named_of media.now) from.now to.now }
{
    match (from, to) {
        (Form::Format(format), Form::Media(name)) if is_called(name.as_str().as_bytes(), media) => {
            Some(Pick::Route(*format, name))
        }
        _ => None,
    }
}

fn first_route<'a>(routes: &'a [(Form, Form)], media: &MediaType<'_>) -> Option<Pick<'a>>
    ensures { option_map wanted_by result ≡ routed routes.now (named_of media.now) }
{
    'each: for route in routes {
        let pick = pick_of(&route.0, &route.1, media);
        if pick.is_some() {
            return pick;
        }
    }
    None
}

/// What the media range asks for: the first route that leads to it, else its own format.
#[tactic(auto, unfolding(crate::specs::Accepting::wanted_of))]
pub fn pick_for<'a>(
    policy: Policy,
    routes: &'a [(Form, Form)],
    media: &MediaType<'_>,
) -> Option<Pick<'a>>
    ensures { option_map wanted_by result ≡ wanted_of policy routes.now (named_of media.now) }
{
    if !is_itself(media) {
        return None;
    }
    let route = first_route(routes, media);
    if route.is_some() {
        return route;
    }
    if let Some(format) = known_format(media) {
        return Some(Pick::Plain(format));
    }
    match payload_format(media) {
        Some(format) if policy.pass => Some(Pick::Plain(format)),
        _ => None,
    }
}

// Whether the route leads from the media type to a format.
fn is_upward(from: &Form, to: &Form, media: &MediaType<'_>) -> bool
    ensures { result ≡ is_from (named_of media.now) from.now to.now }
{
    match (from, to) {
        (Form::Media(name), Form::Format(_)) => is_called(name.as_str().as_bytes(), media),
        _ => false,
    }
}

fn first_upward<'a>(routes: &'a [(Form, Form)], media: &MediaType<'_>) -> Option<&'a (Form, Form)>
    ensures { option_map (λ r. r.now) result
        ≡ find (λ (pair : Form × Form). is_from (named_of media.now) pair.0 pair.1) routes.now }
{
    'each: for route in routes {
        if is_upward(&route.0, &route.1, media) {
            return Some(route);
        }
    }
    None
}

/// The first route from the media type of a Content-Type to a content format, if there is one. A
/// body of that type is transformed along it, and sent in that format.
#[tactic(auto, unfolding(crate::specs::Accepting::route_at))]
pub fn route_of<'a>(content_type: &[u8], routes: &'a Routes) -> Option<&'a (Form, Form)>
    ensures { option_map (λ r. r.now) result ≡ route_at routes.now content_type.now }
{
    let media = MediaType::parse(content_type)?;
    if is_itself(&media) {
        first_upward(routes.as_slice(), &media)
    } else {
        None
    }
}
