ghost use Rattle.std.specs.Prelude.{◌≡◌, [], None, Err, IfOk};
ghost use Rattle.json.specs.Value.{value_view};
ghost use Rattle.serde_json.specs.Read.{of_json, read};
ghost use Rattle.transformers.specs.Keeps.{Fits};
ghost use Rattle.transformers.specs.Kinds.{JsonToCbor, TakesJson};
ghost use Rattle.transformers.specs.Puts.{PutsItem, RefusesItem};
ghost use Rattle.transformers.specs.declared.refused.Refused.TheVariants.{Content};

use crate::item::DEEPEST;
use crate::refused::Refused;
use crate::write::put;
use json::{Error, Reader, Scratch, Value};
use std::alloc::Global;
use std::str;

// How many arrays and objects `serde_json` reads within one another.
const DEEPEST_READ: usize = 127;

// The value of a text. Its texts are borrowed, and its numbers may be out of range.
fn value_of<'a>(
    alloc: Global,
    text: &'a str,
    scratch: &'a mut Scratch,
) -> Result<Value<'a>, Refused>
    ensures is { IfOk result (λ v. of_json (value_view v) ≡ read text.now) }
    ensures content { result ≡ Err Content → read text.now ≡ None }
{
    let mut reader = Reader::new(text, scratch)?;
    let value = match Value::read(alloc, &mut reader, DEEPEST_READ) {
        Ok(value) => value,
        Err(Error::Invalid) => return Err(Refused::Content),
        Err(_) => return Err(Refused::Memory),
    };
    if let Some(_more) = reader.next() {
        return Err(Refused::Content);
    }
    Ok(value)
}

// The item for the value of a text.
fn cbor_of(alloc: Global, text: &str) -> Result<Vec<u8>, Refused>
    ensures ok { IfOk result (λ v. PutsItem 32 (read text.now) [] v.items) }
    ensures content { result ≡ Err Content → RefusesItem 32 (read text.now) }
{
    let mut scratch = Scratch::new(alloc);
    let value = value_of(alloc, text, &mut scratch)?;
    let mut out = Vec::new(alloc);
    put(alloc, &mut out, DEEPEST, false, &value)?;
    Ok(out)
}

/// A CBOR item (RFC 8949) for the value of a JSON text (RFC 8259), with the shortest heads and with
/// keys in the order of their bytes.
///
/// Refused are what `serde_json` refuses, numbers that are not whole or not from `-2^63` to `2^64 -
/// 1` (`-0` and `1e2` are not whole), and more than 32 arrays and objects within one another. Of
/// equal keys the last counts. Where memory runs out, that may be told before a fault of the
/// content.
pub fn json_cbor(alloc: Global, input: &[u8]) -> Result<Vec<u8>, Refused>
    ensures fits { Fits (JsonToCbor input.now) (TakesJson input.now) result }
{
    match str::from_utf8(input) {
        Ok(text) => cbor_of(alloc, text),
        Err(_) => Err(Refused::Content),
    }
}
