ghost use Rattle.std.specs.Prelude.{◌≡◌, ℕ, [], Some, None, IfOk, OnOk, IsSome, string_bytes};
ghost use Rattle.std.specs.Option.{option_map};
ghost use Rattle.serde_json.specs.Data.{Data, Members, no_members, number, negative as below_zero, put};
ghost use Rattle.serde_json.specs.Written.{compact_text};
ghost use Rattle.transformers.specs.Item.{body_at, denoted, inner_of, item_at, key_at, many_at, negative_of, next_item, next_member, put_new, simple_at, simple_data, text_at};
ghost use Rattle.transformers.specs.Told.{AreSoundMembers, Hold, Holds, TellsItem, TellsItems, TellsMembers};
ghost use Rattle.transformers.specs.declared.head.Major.TheVariants.{Negative, Text};
ghost use Rattle.transformers.specs.declared.refused.Refused.TheVariants.{Content, Memory};

use crate::head::{Major, head};
use crate::refused::Refused;
use crate::taken::is_taken;
use crate::text::{
    Pieces, put_comma, put_negative, put_pieces, put_quoted, put_simple, put_unsigned,
};
use std::alloc::Global;
use std::str;

// How many arrays and maps may stand within each other.
pub(crate) const DEEPEST: u8 = 32;

// A text of so many bytes, and what follows.
#[tactic(auto, unfolding(crate::specs::Item::text_at))]
pub(crate) fn text(length: u64, bytes: &[u8]) -> Option<(&str, &[u8])>
    ensures { option_map (λ x. (x.0.now, x.1.now)) result ≡ text_at length bytes.now }
{
    if length > bytes.len() as u64 {
        return None;
    }
    let (text, rest) = bytes.split_at(length as usize);
    match str::from_utf8(text) {
        Ok(text) => Some((text, rest)),
        Err(_) => None,
    }
}

// A key: an item that is a text.
#[tactic(auto, unfolding(crate::specs::Item::key_at))]
pub(crate) fn key(bytes: &[u8]) -> Option<(&str, &[u8])>
    ensures { option_map (λ x. (x.0.now, x.1.now)) result ≡ key_at bytes.now }
{
    match head(bytes)? {
        (Major::Text, length, rest) => text(length, rest),
        _ => None,
    }
}

// -1 - n, where it isn't below -2^63.
#[tactic(auto, unfolding(crate::specs::Item::negative_of))]
pub(crate) fn negative(n: u64) -> Option<i64>
    ensures { option_map (λ z. number (below_zero z)) result ≡ negative_of n }
{
    if n < 1 << 63 {
        Some(-1 - n as i64)
    } else {
        None
    }
}

// False, true or null.
#[tactic(auto, unfolding(crate::specs::Item::simple_at))]
pub(crate) fn simple(bytes: &[u8]) -> Option<(Option<bool>, &[u8])>
    ensures { option_map (λ x. (simple_data x.0, x.1.now)) result ≡ simple_at bytes.now }
{
    match bytes {
        [0xf4, rest @ ..] => Some((Some(false), rest)),
        [0xf5, rest @ ..] => Some((Some(true), rest)),
        [0xf6, rest @ ..] => Some((None, rest)),
        _ => None,
    }
}

// Writes a number below zero.
#[tactic(auto, unfolding(crate::specs::Item::negative_of))]
fn put_below_zero<'b>(
    argument: u64,
    bytes: &'b [u8],
    out: &mut Vec<u8>,
) -> Result<&'b [u8], Refused>
    ensures ok { IfOk result (λ rest. TellsItem (body_at None Negative argument bytes.now)
        rest.now out.old.items out.new.items) }
    ensures content { result ≡ Err Content → body_at None Negative argument bytes.now ≡ None }
{
    if argument >= 1 << 63 {
        return Err(Refused::Content);
    }
    put_negative(out, argument)?;
    Ok(bytes)
}

// Writes a text of so many bytes.
fn put_text<'b>(argument: u64, bytes: &'b [u8], out: &mut Vec<u8>) -> Result<&'b [u8], Refused>
    ensures ok { IfOk result (λ rest. TellsItem (body_at None Text argument bytes.now)
        rest.now out.old.items out.new.items) }
    ensures content { result ≡ Err Content → body_at None Text argument bytes.now ≡ None }
{
    let Some((text, rest)) = text(argument, bytes) else {
        return Err(Refused::Content);
    };
    put_quoted(out, text)?;
    Ok(rest)
}

// One more member, unless its key is there.
fn add_member(found: &mut Pieces, key: String, piece: Vec<u8>) -> Result<(), Refused>
    ensures ok { OnOk result ((ms : Members) → (d : Data) → Hold found.old.entries ms
        → piece.items ≡ compact_text d
        → (put_new (string_bytes key) d ms ≡ Some (put (string_bytes key) d ms))
        × Hold found.new.entries (put (string_bytes key) d ms)) }
    ensures content { result ≡ Err Content → (ms : Members) → (d : Data)
        → Hold found.old.entries ms → put_new (string_bytes key) d ms ≡ None }
{
    match found.insert(key, piece) {
        Ok(None) => Ok(()),
        Ok(Some(_)) => Err(Refused::Content),
        Err(_) => Err(Refused::Memory),
    }
}

// Writes the text of the item at the front, with at most so many arrays and maps within each other.
#[cycle(item)]
fn item<'b>(
    alloc: Global,
    levels: u8,
    bytes: &'b [u8],
    out: &mut Vec<u8>,
) -> Result<&'b [u8], Refused>
    ensures ok { IfOk result (λ rest.
        TellsItem (item_at levels bytes.now) rest.now out.old.items out.new.items) }
    ensures content { result ≡ Err Content → item_at levels bytes.now ≡ None }
{
    if let Some((value, rest)) = simple(bytes) {
        put_simple(out, value)?;
        return Ok(rest);
    }
    let Some((major, argument, rest)) = head(bytes) else {
        return Err(Refused::Content);
    };
    body(alloc, levels, major, argument, rest, out)
}

// Writes the text of what follows the head of an item.
#[cycle(item)]
fn body<'b>(
    alloc: Global,
    levels: u8,
    major: Major,
    argument: u64,
    bytes: &'b [u8],
    out: &mut Vec<u8>,
) -> Result<&'b [u8], Refused>
    ensures ok { IfOk result (λ rest. TellsItem (body_at (inner_of levels) major argument bytes.now)
        rest.now out.old.items out.new.items) }
    ensures content { result ≡ Err Content
        → body_at (inner_of levels) major argument bytes.now ≡ None }
{
    match major {
        Major::Unsigned => {
            put_unsigned(out, argument)?;
            Ok(bytes)
        }
        Major::Negative => put_below_zero(argument, bytes, out),
        Major::Text => put_text(argument, bytes, out),
        Major::Array if levels > 0 => items(alloc, levels - 1, argument, bytes, out),
        Major::Map if levels > 0 => members(alloc, levels - 1, argument, bytes, out),
        Major::Array | Major::Map => Err(Refused::Content),
    }
}

// Writes the items of an array.
#[cycle(item)]
fn items<'b>(
    alloc: Global,
    levels: u8,
    count: u64,
    bytes: &'b [u8],
    out: &mut Vec<u8>,
) -> Result<&'b [u8], Refused>
    ensures ok { IfOk result (λ rest.
        TellsItems (many_at (next_item (item_at levels)) count [] bytes.now)
        rest.now out.old.items out.new.items) }
    ensures content { result ≡ Err Content
        → many_at (next_item (item_at levels)) count [] bytes.now ≡ None }
{
    out.push(b'[')?;
    let mut rest = bytes;
    'each: for i in 0..count {
        put_comma(out, i > 0)?;
        rest = item(alloc, levels, rest, out)?;
    }
    out.push(b']')?;
    Ok(rest)
}

// Writes the members of a map, in the order of their keys.
#[cycle(item)]
fn members<'b>(
    alloc: Global,
    levels: u8,
    count: u64,
    bytes: &'b [u8],
    out: &mut Vec<u8>,
) -> Result<&'b [u8], Refused>
    ensures ok { IfOk result (λ rest.
        TellsMembers (many_at (next_member (item_at levels)) count no_members bytes.now)
        rest.now out.old.items out.new.items) }
    ensures content { result ≡ Err Content
        → many_at (next_member (item_at levels)) count no_members bytes.now ≡ None }
{
    if count == 1 {
        return only_member(alloc, levels, bytes, out);
    }
    let mut found = Pieces::new(alloc);
    let mut rest = bytes;
    'each: for _ in 0..count {
        rest = member(alloc, levels, rest, &mut found)?;
    }
    out.push(b'{')?;
    put_pieces(out, &found)?;
    Ok(rest)
}

// Writes an object of one member.
#[cycle(item)]
fn only_member<'b>(
    alloc: Global,
    levels: u8,
    bytes: &'b [u8],
    out: &mut Vec<u8>,
) -> Result<&'b [u8], Refused>
    ensures ok { IfOk result (λ rest.
        TellsMembers (next_member (item_at levels) no_members bytes.now)
        rest.now out.old.items out.new.items) }
    ensures content { result ≡ Err Content
        → next_member (item_at levels) no_members bytes.now ≡ None }
{
    let Some((name, rest)) = key(bytes) else {
        return Err(Refused::Content);
    };
    out.push(b'{')?;
    put_quoted(out, name)?;
    out.push(b':')?;
    let rest = item(alloc, levels, rest, out)?;
    out.push(b'}')?;
    Ok(rest)
}

// One more member of a map, and what follows.
#[cycle(item)]
fn member<'b>(
    alloc: Global,
    levels: u8,
    bytes: &'b [u8],
    found: &mut Pieces,
) -> Result<&'b [u8], Refused>
    ensures ok { IfOk result (λ rest. (ms : Members) → AreSoundMembers ms
        → Hold found.old.entries ms
        → Holds (next_member (item_at levels) ms bytes.now) rest.now found.new.entries) }
    ensures content { result ≡ Err Content → (ms : Members) → Hold found.old.entries ms
        → next_member (item_at levels) ms bytes.now ≡ None }
{
    let Some((name, rest)) = key(bytes) else {
        return Err(Refused::Content);
    };
    let mut piece = Vec::new(alloc);
    let rest = item(alloc, levels, rest, &mut piece)?;
    let name = String::from_str(alloc, name)?;
    add_member(found, name, piece)?;
    Ok(rest)
}

// The text of one item with nothing after it. A fault of the input is told before want of memory.
pub(crate) fn text_of(alloc: Global, bytes: &[u8]) -> Result<Vec<u8>, Refused>
    ensures ok { IfOk result (λ v. TellsItem (item_at 32 bytes.now) [] [] v.items) }
    ensures content { result ≡ Err Content → denoted bytes.now ≡ None }
    ensures memory { result ≡ Err Memory → IsSome (denoted bytes.now) }
{
    match whole(alloc, bytes) {
        Ok(text) => Ok(text),
        Err(Refused::Content) => Err(Refused::Content),
        Err(Refused::Memory) => {
            if is_taken(bytes) {
                Err(Refused::Memory)
            } else {
                Err(Refused::Content)
            }
        }
    }
}

// The text of the value that one item denotes, with nothing after it.
#[tactic(auto, unfolding(crate::specs::Item::denoted))]
fn whole(alloc: Global, bytes: &[u8]) -> Result<Vec<u8>, Refused>
    ensures ok { IfOk result (λ v. TellsItem (item_at 32 bytes.now) [] [] v.items) }
    ensures content { result ≡ Err Content → denoted bytes.now ≡ None }
{
    let mut out = Vec::new(alloc);
    match item(alloc, DEEPEST, bytes, &mut out)? {
        [] => Ok(out),
        _ => Err(Refused::Content),
    }
}
