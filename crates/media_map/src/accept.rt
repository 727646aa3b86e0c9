//! The elements of an Accept field and the choice among them (RFC 9110 section 12.5.1).

ghost use Rattle.std.specs.Prelude.{◌≡◌, ◌≢◌, IfOk, IfErr, IsErrOf, Ok, Err, Some, false};
ghost use Rattle.std.specs.Option.{option_map};
ghost use Rattle.media_map.specs.Texts.{pieces};
ghost use Rattle.media_map.specs.Accepting.{element_at, is_range as range, choice_of, accept_at};
ghost use Rattle.media_map.specs.Views.{named_of};
ghost use Rattle.media_map.specs.Tallying.{element_of, choice_by, seen_by, chosen, with_element, with_piece, seen_from, nothing, told, answered};
ghost use Rattle.media_map.specs.declared.wanted.Wanted.{Wanted};

use crate::fault::MediaFault;
use crate::form::Form;
use crate::formats::payload_format;
use crate::media_type::MediaType;
use crate::pick::{Pick, pick_for};
use crate::policy::Policy;
use crate::routes::Routes;
use crate::text::{cut, next_piece};
use crate::wanted::Wanted;
use crate::weight::weight_for;
use std::alloc::Global;

/// A media range with its weight.
#[derive(Clone, Copy)]
struct Element<'a> {
    media: MediaType<'a>,
    /// In thousandths.
    weight: u16,
}

impl<'a> Element<'a> {
    #[tactic(auto, unfolding(crate::specs::Accepting::element_at))]
    fn parse(text: &'a [u8]) -> Option<Element<'a>>
        ensures { option_map element_of result ≡ element_at text.now }
    {
        let media = MediaType::parse(text)?;
        let weight = weight_for(&media)?;
        Some(Element { media, weight })
    }
}

// Whether the subtype is a star.
#[tactic(auto, unfolding(crate::specs::Accepting::is_range, crate::specs::MediaTypes::slash_in))]
fn is_range(media: &MediaType<'_>) -> bool
    ensures { result ≡ range (named_of media.now) }
{
    let slash = cut(media.essence, b'/', false);
    slash < media.essence.len() && &media.essence[slash + 1..] == b"*".as_slice()
}

/// An element that can be had.
#[derive(Clone, Copy)]
struct Choice<'a> {
    /// In thousandths.
    weight: u16,
    pick: Pick<'a>,
}

#[tactic(auto, unfolding(crate::specs::Accepting::choice_of))]
fn choice_for<'a>(
    policy: Policy,
    routes: &'a [(Form, Form)],
    element: &Element<'_>,
) -> Option<Choice<'a>>
    ensures { option_map choice_by result ≡ choice_of policy routes.now (element_of element.now) }
{
    if element.weight == 0 {
        return None;
    }
    let pick = pick_for(policy, routes, &element.media)?;
    Some(Choice {
        weight: element.weight,
        pick,
    })
}

// The first of the greater weight.
fn better_of<'a>(best: Option<Choice<'a>>, other: Option<Choice<'a>>) -> Option<Choice<'a>>
    ensures { option_map choice_by result
        ≡ chosen (option_map choice_by best.entry) (option_map choice_by other.entry) }
{
    match (best, other) {
        (Some(best), Some(other)) if best.weight < other.weight => Some(other),
        (Some(best), _) => Some(best),
        (None, other) => other,
    }
}

/// What is known of the elements so far.
#[derive(Clone, Copy)]
struct Tally<'a> {
    /// There is one.
    elements: bool,
    /// One takes anything.
    anything: bool,
    /// One names a format by its number.
    payload: bool,
    best: Option<Choice<'a>>,
}

impl<'a> Tally<'a> {
    #[tactic(auto, unfolding(crate::specs::Accepting::is_payload))]
    fn with(self, policy: Policy, routes: &'a [(Form, Form)], element: &Element<'_>) -> Tally<'a>
        ensures { seen_by result
            ≡ with_element policy routes.now (seen_by self.entry) (element_of element.now) }
    {
        let wanted = element.weight > 0;
        Tally {
            elements: true,
            anything: self.anything || wanted && is_range(&element.media),
            payload: self.payload || wanted && payload_format(&element.media).is_some(),
            best: better_of(self.best, choice_for(policy, routes, element)),
        }
    }

    #[tactic(auto, unfolding(crate::specs::Tallying::with_piece))]
    fn with_text(self, policy: Policy, routes: &'a [(Form, Form)], text: &[u8]) -> Tally<'a>
        ensures { seen_by result ≡ with_piece policy routes.now (seen_by self.entry) text.now }
    {
        match Element::parse(text) {
            Some(element) => self.with(policy, routes, &element),
            None => self,
        }
    }
}

fn tally_of<'a>(value: &[u8], policy: Policy, routes: &'a [(Form, Form)]) -> Tally<'a>
    ensures { seen_by result ≡ seen_from policy routes.now nothing (pieces false 44 value.now) }
{
    let empty = Tally {
        elements: false,
        anything: false,
        payload: false,
        best: None,
    };
    let (first, mut rest) = next_piece(value, b',', false);
    let mut tally = empty.with_text(policy, routes, first);
    'each: while !rest.is_empty() {
        let (piece, after) = next_piece(&rest[1..], b',', false);
        tally = tally.with_text(policy, routes, piece);
        rest = after;
    }
    tally
}

// What is asked for, without the memory that it takes.
fn decide<'a>(
    accept: &[u8],
    policy: Policy,
    routes: &'a [(Form, Form)],
) -> Result<Option<Pick<'a>>, MediaFault>
    ensures wanted { answered result ≡ accept_at policy routes.now accept.now }
    ensures fault { IfErr result (λ e. e ≢ MediaFault.Memory) }
{
    answer(tally_of(accept, policy, routes))
}

fn answer(tally: Tally<'_>) -> Result<Option<Pick<'_>>, MediaFault>
    ensures told { answered result ≡ told (seen_by tally.entry) }
    ensures fault { IfErr result (λ e. e ≢ MediaFault.Memory) }
{
    if !tally.elements || tally.anything {
        return Ok(None);
    }
    match tally.best {
        Some(best) => Ok(Some(best.pick)),
        None if tally.payload => Err(MediaFault::PassThrough),
        None => Err(MediaFault::Unmapped),
    }
}

/// What an Accept asks for, if anything. `accept` is all its fields joined by commas, empty if
/// there is none. Malformed elements do not count, and if one accepts any type nothing is asked
/// for. If no element can be had, the Accept is refused: with `PassThrough` if one names
/// `application/coap-payload`, and otherwise with `Unmapped` (RFC 9110 section 12.5.1).
pub fn accept_of(
    alloc: Global,
    accept: &[u8],
    policy: Policy,
    routes: &Routes,
) -> Result<Option<Wanted>, MediaFault>
    ensures wanted { IfOk result (λ o. accept_at policy routes.now accept.now ≡ Ok o) }
    ensures fault { IfErr result (λ e. e ≢ MediaFault.Memory
        → accept_at policy routes.now accept.now ≡ Err e) }
    ensures memory { IsErrOf result MediaFault.Memory
        → (w : Wanted) × (accept_at policy routes.now accept.now ≡ Ok (Some w)) }
{
    if let [] = accept {
        return Ok(None);
    }
    match decide(accept, policy, routes.as_slice())? {
        Some(pick) => Ok(Some(pick.to_wanted(alloc)?)),
        None => Ok(None),
    }
}
