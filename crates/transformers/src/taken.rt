//! Whether a CBOR input is taken, found without allocating: for when there is no memory to build
//! its value.
ghost use Rattle.std.specs.Prelude.{◌≡◌, ℕ, List, [], Some, is_some};
ghost use Rattle.std.specs.Option.{option_map};
ghost use Rattle.serde_json.specs.Data.{Members, no_members};
ghost use Rattle.serde_json.specs.Find.{get_member};
ghost use Rattle.transformers.specs.Item.{body_at, denoted, inner_of, item_at, many_at, next_item, next_member};
ghost use Rattle.transformers.specs.Passing.{IsBehind};

use crate::head::{Major, head};
use crate::item::{DEEPEST, key, negative, simple, text};

// What stands after the item at the front. Equal keys pass where they aren't compared.
#[cycle(behind)]
fn behind(compared: bool, levels: u8, bytes: &[u8]) -> Option<&[u8]>
    ensures { IsBehind compared (item_at levels bytes.now) (option_map (λ r. r.now) result) }
{
    if let Some((_, rest)) = simple(bytes) {
        return Some(rest);
    }
    let (major, argument, rest) = head(bytes)?;
    behind_head(compared, levels, major, argument, rest)
}

// What stands after an item whose head was read.
#[cycle(behind)]
fn behind_head(
    compared: bool,
    levels: u8,
    major: Major,
    argument: u64,
    bytes: &[u8],
) -> Option<&[u8]>
    ensures { IsBehind compared (body_at (inner_of levels) major argument bytes.now)
        (option_map (λ r. r.now) result) }
{
    match major {
        Major::Unsigned => Some(bytes),
        Major::Negative => {
            negative(argument)?;
            Some(bytes)
        }
        Major::Text => {
            let (_, rest) = text(argument, bytes)?;
            Some(rest)
        }
        Major::Array if levels > 0 => behind_items(compared, levels - 1, argument, bytes),
        Major::Map if levels > 0 => behind_members(compared, levels - 1, argument, bytes),
        Major::Array | Major::Map => None,
    }
}

// What stands after so many items of an array.
#[cycle(behind)]
fn behind_items(compared: bool, levels: u8, count: u64, bytes: &[u8]) -> Option<&[u8]>
    ensures { IsBehind compared (many_at (next_item (item_at levels)) count [] bytes.now)
        (option_map (λ r. r.now) result) }
{
    let mut rest = bytes;
    'each: for _ in 0..count {
        rest = behind(compared, levels, rest)?;
    }
    Some(rest)
}

// What stands after so many members of a map.
#[cycle(behind)]
fn behind_members(compared: bool, levels: u8, count: u64, bytes: &[u8]) -> Option<&[u8]>
    ensures { IsBehind compared (many_at (next_member (item_at levels)) count no_members bytes.now)
        (option_map (λ r. r.now) result) }
{
    let mut rest = bytes;
    'each: for seen in 0..count {
        let (name, value) = key(rest)?;
        if compared && is_among(levels, name, seen, bytes) {
            return None;
        }
        rest = behind(compared, levels, value)?;
    }
    Some(rest)
}

// Whether one of the first members of a map has this key.
#[cycle(behind)]
fn is_among(levels: u8, name: &str, count: u64, bytes: &[u8]) -> bool
    ensures { (x : Members × List ℕ)
        → many_at (next_member (item_at levels)) count no_members bytes.now ≡ Some x
        → result ≡ is_some (get_member name.now x.0) }
{
    let mut rest = bytes;
    let mut found = false;
    'each: for _ in 0..count {
        let Some((other, value)) = key(rest) else {
            return false;
        };
        let Some(next) = behind(false, levels, value) else {
            return false;
        };
        if other == name {
            found = true;
        }
        rest = next;
    }
    found
}

// Whether an input is one item with nothing after it. Takes time quadratic in the number of members
// of a map.
pub(crate) fn is_taken(bytes: &[u8]) -> bool
    ensures { result ≡ is_some (denoted bytes.now) }
{
    match behind(true, DEEPEST, bytes) {
        Some(rest) => rest.is_empty(),
        None => false,
    }
}
