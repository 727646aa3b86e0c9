//! Whether escaped bytes are UTF-8 (RFC 3629), without decoding them into memory.

ghost use Rattle.std.specs.Prelude.{◌≡◌, ◌∷◌, take, drop, true, false, IsUtf8};
ghost use Rattle.std.specs.Str.{is_utf8 as utf8, continuation_len};
ghost use Rattle.percent_encoding.specs.Percent.{percent_decode as decoded};
ghost use Rattle.percent_encoding.specs.Iter.{decoded_bytes};

use percent_encoding::{PercentDecode, percent_decode};
use std::str::from_utf8;

/// Whether the byte begins a character, and the bytes after it, which are taken, complete it.
fn ends_char(first: u8, bytes: &mut PercentDecode<'_>) -> bool
    ensures good { result ≡ true
        → IsUtf8 (first ∷ take (continuation_len first) (decoded_bytes bytes.old))
        × (decoded_bytes bytes.new ≡ drop (continuation_len first) (decoded_bytes bytes.old)) }
    ensures bad { result ≡ false
        → ¬ (IsUtf8 (first ∷ take (continuation_len first) (decoded_bytes bytes.old))) }
{
    if first < 0x80 {
        return true;
    }
    let Some(second) = bytes.next() else {
        return false;
    };
    if first < 0xe0 {
        return from_utf8(&[first, second]).is_ok();
    }
    let Some(third) = bytes.next() else {
        return false;
    };
    if first < 0xf0 {
        return from_utf8(&[first, second, third]).is_ok();
    }
    let Some(fourth) = bytes.next() else {
        return false;
    };
    from_utf8(&[first, second, third, fourth]).is_ok()
}

/// Whether the bytes that the text stands for are UTF-8.
pub(crate) fn is_utf8(text: &[u8]) -> bool
    ensures { result ≡ utf8 (decoded text.now) }
{
    let mut bytes = percent_decode(text);
    'each: while let Some(first) = bytes.next() {
        if !ends_char(first, &mut bytes) {
            return false;
        }
    }
    true
}

/// Whether the bytes are UTF-8.
pub(crate) fn is_text(bytes: &[u8]) -> bool
    ensures { result ≡ utf8 bytes.now }
{
    match from_utf8(bytes) {
        Ok(_) => true,
        Err(_) => false,
    }
}
