//! Values of options that are numbers.

ghost use Rattle.std.specs.Prelude.{◌≡◌, ◌≤◌, ◌<◌, ◌^◌, length, IfOk, IsOkUnless};
ghost use Rattle.coap_codec.specs.Values.{uint, IsShortest};

use crate::fault::CodecFault;
use std::alloc::Global;

/// The most bytes of a value that is a number.
pub const MAX_UINT_LEN: usize = 4;

/// The number that a value of at most four bytes stands for, in network byte order (RFC 7252,
/// section 3.2). Zeros may lead; the empty value is 0.
pub fn uint_of(value: &[u8]) -> u32
    requires { length value.now ≤ 4 }
    ensures value { result ≡ uint value.now }
    ensures small { result < 256 ^ length value.now }
{
    let mut n = 0u32;
    'each: for b in value {
        n = 256 * n + u32::from(*b);
    }
    n
}

/// The shortest value that stands for the number: no zero leads, and 0 is the empty value.
pub fn uint_to(alloc: Global, n: u32) -> Result<Vec<u8>, CodecFault>
    ensures value { IfOk result (λ v. uint v.items ≡ n) }
    ensures shortest { IfOk result (λ v. IsShortest v.items) }
    ensures len { IfOk result (λ v. length v.items ≤ 4) }
    ensures memory { IsOkUnless result CodecFault.Memory }
{
    let bytes = n.to_be_bytes();
    let zeros = if n == 0 {
        4
    } else if n < 0x100 {
        3
    } else if n < 0x1_0000 {
        2
    } else if n < 0x100_0000 {
        1
    } else {
        0
    };
    Ok(Vec::from_slice(alloc, &bytes[zeros..])?)
}
