ghost use Rattle.transformers.specs.Keeps.{Fits};
ghost use Rattle.transformers.specs.Kinds.{OctetsToHex, TakesOctets};

use crate::refused::Refused;
use std::alloc::Global;

/// The hexadecimal digits of the bytes, two for each, in lower case. Takes all bytes.
pub fn octets_hex(alloc: Global, input: &[u8]) -> Result<Vec<u8>, Refused>
    ensures fits { Fits (OctetsToHex input.now) (TakesOctets input.now) result }
{
    Ok(hex::encode(alloc, input)?.into_bytes())
}
