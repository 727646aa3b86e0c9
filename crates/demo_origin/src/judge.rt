//! What a request is answered by.

ghost use Rattle.std.specs.Prelude.{◌≡◌, ◌<◌, ◌==◌, List, IfOk, IfSome, if◌then◌else◌, count_by, length, Some, slice_get};
ghost use Rattle.demo_origin.specs.declared.state.Held.{Held};
ghost use Rattle.demo_origin.specs.declared.judge.Judged.TheVariants as Judged;
ghost use Rattle.std.specs.List.{list_all, position, find};
ghost use Rattle.std.specs.Option.{option_map};
ghost use Rattle.std.specs.Cmp.Lexicographic.{pointwise};
ghost use Rattle.coap_codec.specs.Spelling.{content, entry, entries};
ghost use Rattle.coap_codec.specs.Values.{values};
ghost use Rattle.demo_origin.specs.Requests.{is_recognised, has_number, is_once, is_understood, number_in, is_at, suits, confirms, asked_for, judged_method, unsuited, judged_held, judged_at, judged, HasVersion, IsThere};

use crate::blocks::is_block;
use crate::fault::Memory;
use crate::request::Method;
use crate::segments::Segments;
use crate::state::Held;
use coap_codec::{Message, MsgType, Opt, first_of, is_critical, number, uint_of};
use std::alloc::Global;

/// What is done with a request.
#[derive(Clone, Copy)]
pub enum Judged {
    /// It is rejected in silence.
    Dropped,
    /// It is answered by this code alone.
    Refused(u8),
    /// A GET of the resource of that number wants another format.
    NotAcceptable(usize),
    /// The state of the resource of that number is read.
    Read(usize),
    /// The handler of the resource of that number is asked.
    Asked(usize, Method),
}

fn is_recognised(o: &Opt) -> bool
    ensures { result ≡ is_recognised (entry o.now) }
{
    let len = o.value.len();
    !is_critical(o.number)
        || (o.number == number::URI_PATH && len <= 255)
        || (o.number == number::URI_QUERY && len <= 255)
        || (o.number == number::URI_HOST && 1 <= len && len <= 255)
        || (o.number == number::URI_PORT && len <= 2)
        || (o.number == number::ACCEPT && len <= 2)
        || (o.number == number::BLOCK2 && is_block(&o.value))
        || (o.number == number::BLOCK1 && is_block(&o.value))
}

fn all_recognised(options: &[Opt]) -> bool
    ensures { result ≡ list_all (λ o. is_recognised (entry o)) options.now }
{
    'each: for o in options {
        if !is_recognised(o) {
            return false;
        }
    }
    true
}

fn is_once(options: &[Opt], number: u16) -> bool
    ensures { result ≡ is_once number (entries options.now) }
{
    options.iter().filter(|o| o.number == number).count() <= 1
}

/// Whether each critical option is recognised (RFC 7252 section 5.4.1).
#[tactic(auto, using(crate::proofs::Entries::all_entries))]
fn is_understood(options: &[Opt]) -> bool
    ensures { result ≡ is_understood (entries options.now) }
{
    all_recognised(options)
        && is_once(options, number::URI_HOST)
        && is_once(options, number::URI_PORT)
        && is_once(options, number::ACCEPT)
        && is_once(options, number::BLOCK2)
        && is_once(options, number::BLOCK1)
}

/// The number that the first option of that kind stands for.
pub(crate) fn number_in(m: &Message, number: u16) -> Option<u16>
    ensures { result ≡ number_in (values number (entries m.now.options.items)) }
{
    let value = first_of(m, number)?;
    if value.len() > 2 {
        return None;
    }
    Some(uint_of(value) as u16)
}

fn place_of(resources: &[Held], path: &Segments) -> Option<usize>
    ensures { result ≡ position (is_at path.now) resources.now }
{
    resources.iter().position(|r| r.path == *path)
}

fn suits(accept: Option<u16>, format: u16) -> bool
    ensures { result ≡ suits accept format }
{
    match accept {
        None => true,
        Some(n) => n == format,
    }
}

fn asked_for(place: usize, version: u64, method: Method) -> Judged
    ensures is { result ≡ asked_for place version method }
    ensures there { (all : List Held) → HasVersion all place version → IsThere all result }
{
    if version == u64::MAX {
        Judged::Refused(160)
    } else {
        Judged::Asked(place, method)
    }
}

fn judged_method(code: u8, place: usize, version: u64) -> Judged
    ensures is { result ≡ judged_method code place version }
    ensures there { (all : List Held) → HasVersion all place version → IsThere all result }
{
    match code {
        1 => Judged::Read(place),
        2 => asked_for(place, version, Method::Post),
        3 => asked_for(place, version, Method::Put),
        4 => asked_for(place, version, Method::Delete),
        _ => Judged::Refused(133),
    }
}

fn unrecognised(kind: MsgType) -> Judged
    ensures is { result ≡ (if confirms kind then Judged.Refused 130 else Judged.Dropped) }
    ensures there { (all : List Held) → IsThere all result }
{
    match kind {
        MsgType::Con => Judged::Refused(130),
        _ => Judged::Dropped,
    }
}

fn unsuited(code: u8, place: usize) -> Judged
    ensures is { result ≡ unsuited code place }
    ensures there { (all : List Held) → IsThere all result }
{
    if code == 1 {
        Judged::NotAcceptable(place)
    } else {
        Judged::Refused(134)
    }
}

fn judged_held(m: &Message, place: usize, resources: &[Held]) -> Judged
    ensures is { result ≡ judged_held (content m.now) place (slice_get resources.now place) }
    ensures there { IsThere resources.now result }
{
    let Some(held) = resources.get(place) else {
        return Judged::Refused(132);
    };
    if suits(number_in(m, number::ACCEPT), held.format) {
        judged_method(m.code, place, held.version)
    } else {
        unsuited(m.code, place)
    }
}

/// What is done with the request.
pub(crate) fn judge(alloc: Global, m: &Message, resources: &[Held]) -> Result<Judged, Memory>
    ensures is { IfOk result (λ j. j ≡ judged (content m.now) resources.now) }
    ensures there { IfOk result (λ j. IsThere resources.now j) }
{
    if !is_understood(&m.options) {
        return Ok(unrecognised(m.kind));
    }
    let path = Segments::of(alloc, m, number::URI_PATH)?;
    let Some(place) = place_of(resources, &path) else {
        return Ok(Judged::Refused(132));
    };
    Ok(judged_held(m, place, resources))
}
