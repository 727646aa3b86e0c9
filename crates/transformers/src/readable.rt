//! Whether a JSON value stands for one of `serde_json`: whether its numbers are in range.
ghost use Rattle.std.specs.Prelude.{◌≡◌, is_some, IsSome, IsTrue};
ghost use Rattle.json.specs.Value.{items_view, members_view, value_view};
ghost use Rattle.serde_json.specs.Data.{Members, no_members};
ghost use Rattle.serde_json.specs.Read.{of_items, of_json, of_members};

use crate::number::number_in;
use json::Value;

#[cycle(is_readable)]
fn is_readable(value: &Value<'_>) -> bool
    ensures { result ≡ is_some (of_json (value_view value.now)) }
{
    match value {
        Value::Null | Value::Bool(_) | Value::String(_) => true,
        Value::Number(text) => number_in(text).is_some(),
        Value::Array(items) => are_readable(items),
        Value::Object(members) => members_are_readable(members),
    }
}

#[cycle(is_readable)]
fn are_readable(items: &Vec<Value<'_>>) -> bool
    ensures { result ≡ is_some (of_items (items_view items.now.items)) }
{
    'each: for item in items {
        if !is_readable(item) {
            return false;
        }
    }
    true
}

#[cycle(is_readable)]
fn members_are_readable(members: &Vec<(&str, Value<'_>)>) -> bool
    ensures { (found : Members)
        → result ≡ is_some (of_members (members_view members.now.items) found) }
{
    'each: for member in members {
        if !is_readable(&member.1) {
            return false;
        }
    }
    true
}

/// Whether the numbers of an object's members are in range, where that isn't known.
pub(crate) fn are_known(known: bool, members: &Vec<(&str, Value<'_>)>) -> bool
    requires { IsTrue known → IsSome (of_members (members_view members.now.items) no_members) }
    ensures { result ≡ is_some (of_members (members_view members.now.items) no_members) }
{
    if known {
        true
    } else {
        members_are_readable(members)
    }
}
