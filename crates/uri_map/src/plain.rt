//! Plain texts, which stand for themselves: most are.

ghost use Rattle.std.specs.Prelude.{◌≡◌, true};
ghost use Rattle.uri_map.specs.Scanning.{IsPlain};

/// Whether the text is ASCII with no `%`. Then nothing in it is to be decoded.
pub(crate) fn is_plain(text: &[u8]) -> bool
    ensures { result ≡ true → IsPlain text.now }
{
    'each: for b in text {
        if *b >= 0x80 || *b == b'%' {
            return false;
        }
    }
    true
}
