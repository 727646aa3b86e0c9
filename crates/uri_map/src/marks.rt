//! Where a text is cut: at its first byte of a kind.

ghost use Rattle.std.specs.Prelude.{◌≡◌, ◌≤◌, length};
ghost use Rattle.std.specs.List.{position_or_len, before_first};
ghost use Rattle.uri_map.specs.Marks.{ends};
ghost use Rattle.uri_map.specs.Splitting.{from_first};

/// A kind of bytes at which a part of a target ends.
#[derive(Clone, Copy)]
pub(crate) enum Mark {
    /// This byte.
    Byte(u8),
    /// `/` or `?`, which end an authority.
    Authority,
    /// All but hexadecimal digits and `:`, of which an address in brackets is made.
    Address,
    /// All but letters, digits, `+`, `-` and `.`, of which a scheme is made.
    Scheme,
}

impl Mark {
    fn ends(self, b: u8) -> bool
        ensures { result ≡ ends self b }
    {
        match self {
            Mark::Byte(end) => b == end,
            Mark::Authority => b == b'/' || b == b'?',
            Mark::Address => !(b.is_ascii_hexdigit() || b == b':'),
            Mark::Scheme => !(b.is_ascii_alphanumeric() || b == b'+' || b == b'-' || b == b'.'),
        }
    }
}

/// The index of the first byte of the kind, or the length.
pub(crate) fn index_of(mark: Mark, text: &[u8]) -> usize
    ensures value { result ≡ position_or_len (ends mark) text.now }
    ensures within { result ≤ length text.now }
{
    'each: for (i, b) in text.iter().enumerate() {
        if mark.ends(*b) {
            return i;
        }
    }
    text.len()
}

/// The text before the first byte of the kind, and from there on.
pub(crate) fn cut_at(mark: Mark, text: &[u8]) -> (&[u8], &[u8])
    ensures front { result.0.now ≡ before_first (ends mark) text.now }
    ensures rest { result.1.now ≡ from_first (ends mark) text.now }
{
    text.split_at(index_of(mark, text))
}
