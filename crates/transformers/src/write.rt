ghost use Rattle.std.specs.Prelude.{◌≡◌, ◌≢◌, ◌++◌, ◌*◌, Some, Err, OnOk, IsSome, IsTrue, IsUtf8};
ghost use Rattle.json.specs.Json.{number};
ghost use Rattle.json.specs.Value.{items_view, members_view, value_view};
ghost use Rattle.serde_json.specs.Data.{Members, no_members, string};
ghost use Rattle.serde_json.specs.Read.{of_items, of_json, of_members};
ghost use Rattle.transformers.specs.Item.{simple_data};
ghost use Rattle.transformers.specs.Puts.{ArePlaced, HasKeys, PutsFront, PutsItem, PutsItems, PutsMember, PutsMembers, RefusesItem, RefusesItems, RefusesMembers};
ghost use Rattle.transformers.specs.Shortest.{eight_bytes, four_bytes, number_of, shortest, shortest_head, text_bytes, two_bytes};
ghost use Rattle.transformers.specs.declared.refused.Refused.TheVariants.{Content};

use crate::head::Major;
use crate::number::{Number, number_in};
use crate::places::{Places, places_of};
use crate::readable::are_known;
use crate::refused::Refused;
use json::Value;
use std::alloc::{AllocError, Global};

// The number of a major type, in the three high bits of a byte.
fn major_bits(major: Major) -> u8
    ensures { result ≡ 32 * number_of major }
{
    match major {
        Major::Unsigned => 0x00,
        Major::Negative => 0x20,
        Major::Text => 0x60,
        Major::Array => 0x80,
        Major::Map => 0xa0,
    }
}

// A number in two bytes, the highest first.
fn put_two(out: &mut Vec<u8>, n: u16) -> Result<(), AllocError>
    ensures { OnOk result (out.new.items ≡ out.old.items ++ two_bytes n) }
{
    out.push((n / 256) as u8)?;
    out.push((n % 256) as u8)?;
    Ok(())
}

// A number in four bytes.
#[tactic(auto, unfolding(crate::specs::Shortest::four_bytes))]
fn put_four(out: &mut Vec<u8>, n: u32) -> Result<(), AllocError>
    ensures { OnOk result (out.new.items ≡ out.old.items ++ four_bytes n) }
{
    put_two(out, (n / 65536) as u16)?;
    put_two(out, (n % 65536) as u16)
}

// A number in eight bytes.
#[tactic(auto, unfolding(crate::specs::Shortest::eight_bytes))]
fn put_eight(out: &mut Vec<u8>, n: u64) -> Result<(), AllocError>
    ensures { OnOk result (out.new.items ≡ out.old.items ++ eight_bytes n) }
{
    put_four(out, (n / 4294967296) as u32)?;
    put_four(out, (n % 4294967296) as u32)
}

// The shortest head with this argument.
#[tactic(auto, unfolding(crate::specs::Shortest::shortest_head))]
fn put_head(out: &mut Vec<u8>, major: Major, n: u64) -> Result<(), AllocError>
    ensures { OnOk result (out.new.items ≡ out.old.items ++ shortest_head major n) }
{
    let first = major_bits(major);
    if n < 24 {
        out.push(first + n as u8)?;
    } else if n < 256 {
        out.push(first + 24)?;
        out.push(n as u8)?;
    } else if n < 65536 {
        out.push(first + 25)?;
        put_two(out, n as u16)?;
    } else if n < 4294967296 {
        out.push(first + 26)?;
        put_four(out, n as u32)?;
    } else {
        out.push(first + 27)?;
        put_eight(out, n)?;
    }
    Ok(())
}

#[tactic(auto, unfolding(crate::specs::Shortest::text_bytes))]
fn put_text(out: &mut Vec<u8>, text: &str) -> Result<(), AllocError>
    ensures ok { OnOk result (out.new.items ≡ out.old.items ++ text_bytes text.now) }
    ensures utf8 { IsUtf8 text.now }
{
    let bytes = text.as_bytes();
    put_head(out, Major::Text, bytes.len() as u64)?;
    out.extend_from_slice(bytes)?;
    Ok(())
}

// A number that is whole.
fn put_number(out: &mut Vec<u8>, levels: u8, text: &str) -> Result<(), Refused>
    ensures ok { OnOk result (PutsItem levels (of_json (number text.now))
        out.old.items out.new.items) }
    ensures content { result ≡ Err Content → RefusesItem levels (of_json (number text.now)) }
{
    match number_in(text) {
        Some(Number::Unsigned(n)) => Ok(put_head(out, Major::Unsigned, n)?),
        Some(Number::Negative(n)) => Ok(put_head(out, Major::Negative, n)?),
        Some(Number::Float(_)) | None => Err(Refused::Content),
    }
}

// Null, false or true.
fn put_word(out: &mut Vec<u8>, levels: u8, simple: Option<bool>) -> Result<(), Refused>
    ensures ok { OnOk result (PutsItem levels (Some (simple_data simple))
        out.old.items out.new.items) }
    ensures content { result ≢ Err Content }
{
    match simple {
        None => out.push(0xf6)?,
        Some(false) => out.push(0xf4)?,
        Some(true) => out.push(0xf5)?,
    }
    Ok(())
}

fn put_string(out: &mut Vec<u8>, levels: u8, text: &str) -> Result<(), Refused>
    ensures ok { OnOk result (PutsItem levels (Some (string text.now))
        out.old.items out.new.items) }
    ensures content { result ≢ Err Content }
{
    Ok(put_text(out, text)?)
}

// The value as an item, with at most so many arrays and objects within each other. It may be known
// that its numbers are in range.
#[cycle(put)]
pub(crate) fn put(
    alloc: Global,
    out: &mut Vec<u8>,
    levels: u8,
    known: bool,
    value: &Value<'_>,
) -> Result<(), Refused>
    requires { IsTrue known → IsSome (of_json (value_view value.now)) }
    ensures ok { OnOk result (PutsItem levels (of_json (value_view value.now))
        out.old.items out.new.items) }
    ensures content { result ≡ Err Content
        → RefusesItem levels (of_json (value_view value.now)) }
{
    match value {
        Value::Null => put_word(out, levels, None),
        Value::Bool(b) => put_word(out, levels, Some(*b)),
        Value::Number(text) => put_number(out, levels, text),
        Value::String(text) => put_string(out, levels, text),
        Value::Array(items) if levels > 0 => put_items(alloc, out, levels - 1, known, items),
        Value::Object(members) if levels > 0 => {
            put_members(alloc, out, levels - 1, known, members)
        }
        Value::Array(_) | Value::Object(_) => Err(Refused::Content),
    }
}

#[cycle(put)]
fn put_items(
    alloc: Global,
    out: &mut Vec<u8>,
    levels: u8,
    known: bool,
    items: &Vec<Value<'_>>,
) -> Result<(), Refused>
    requires { IsTrue known → IsSome (of_items (items_view items.now.items)) }
    ensures ok { OnOk result (PutsItems levels (of_items (items_view items.now.items))
        out.old.items out.new.items) }
    ensures content { result ≡ Err Content
        → RefusesItems levels (of_items (items_view items.now.items)) }
{
    put_head(out, Major::Array, items.len() as u64)?;
    'each: for item in items {
        put(alloc, out, levels, known, item)?;
    }
    Ok(())
}

// A member: its key, and its value.
#[cycle(put)]
fn put_member(
    alloc: Global,
    out: &mut Vec<u8>,
    levels: u8,
    known: bool,
    key: &str,
    value: &Value<'_>,
) -> Result<(), Refused>
    requires { IsTrue known → IsSome (of_json (value_view value.now)) }
    ensures ok { OnOk result (PutsMember key.now levels (of_json (value_view value.now))
        out.old.items out.new.items) }
    ensures content { result ≡ Err Content
        → RefusesItem levels (of_json (value_view value.now)) }
{
    put_text(out, key)?;
    put(alloc, out, levels, known, value)
}

// An object: of equal keys the last counts. The numbers of the others have to be in range too.
#[cycle(put)]
fn put_members<'a>(
    alloc: Global,
    out: &mut Vec<u8>,
    levels: u8,
    known: bool,
    members: &Vec<(&'a str, Value<'a>)>,
) -> Result<(), Refused>
    requires { IsTrue known → IsSome (of_members (members_view members.now.items) no_members) }
    ensures ok { OnOk result (PutsMembers levels
        (of_members (members_view members.now.items) no_members)
        out.old.items out.new.items) }
    ensures content { result ≡ Err Content
        → RefusesMembers levels (of_members (members_view members.now.items) no_members) }
{
    if members.len() == 1 {
        put_head(out, Major::Map, 1)?;
        let only = &members[0];
        return put_member(alloc, out, levels, known, only.0, &only.1);
    }
    if !are_known(known, members) {
        return Err(Refused::Content);
    }
    let places = places_of(alloc, members)?;
    put_head(out, Major::Map, places.len() as u64)?;
    put_placed(alloc, out, levels, members, &places)
}

// The members that count, in the order of their keys.
#[cycle(put)]
fn put_placed<'a>(
    alloc: Global,
    out: &mut Vec<u8>,
    levels: u8,
    members: &Vec<(&'a str, Value<'a>)>,
    places: &Places<'a>,
) -> Result<(), Refused>
    requires { (ms : Members) × ArePlaced members.now.items places.now.entries ms × HasKeys ms }
    ensures ok { OnOk result ((ms : Members) → ArePlaced members.now.items places.now.entries ms
        → HasKeys ms → PutsFront levels ms out.old.items out.new.items) }
    ensures content { result ≡ Err Content → (ms : Members)
        → ArePlaced members.now.items places.now.entries ms → HasKeys ms
        → RefusesMembers levels (Some ms) }
{
    let mut left = places.iter();
    'each: while let Some((key, place)) = left.next() {
        put_member(alloc, out, levels, true, *key, &members[*place].1)?;
    }
    Ok(())
}
