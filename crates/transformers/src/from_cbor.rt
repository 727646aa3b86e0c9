ghost use Rattle.std.specs.Prelude.{◌≡◌, ◌↔◌, Err};
ghost use Rattle.transformers.specs.Keeps.{Fits};
ghost use Rattle.transformers.specs.Kinds.{CborToJson, TakesCbor};
ghost use Rattle.transformers.specs.declared.refused.Refused.TheVariants.{Content, Memory};

use crate::item::text_of;
use crate::refused::Refused;
use std::alloc::Global;

/// JSON (RFC 8259) for the value of a CBOR item (RFC 8949), compact, with keys in the order of
/// their bytes.
///
/// The input is one item with nothing after it: whole numbers from `-2^63` to `2^64 - 1`, text,
/// arrays, maps with distinct text keys, false, true and null, with at most 32 arrays and maps
/// within one another. Heads may be of any length. Everything else is refused, and that is told
/// even where memory runs out.
pub fn cbor_json(alloc: Global, input: &[u8]) -> Result<Vec<u8>, Refused>
    ensures fits { Fits (CborToJson input.now) (TakesCbor input.now) result }
    ensures refused { (result ≡ Err Content) ↔ (¬ TakesCbor input.now) }
    ensures memory { result ≡ Err Memory → TakesCbor input.now }
{
    text_of(alloc, input)
}
