//! The token of a message.

use std::marker::Model;

/// A token of at most eight bytes, which a request and its responses share (RFC 7252, section
/// 5.3.1). The cells after its bytes are zeros.
#[derive(Clone, Copy, Debug)]
pub struct Token {
    bytes: [u8; 8],
    len: u8,
}

impl Model for Token {
    ghost use Rattle.std.specs.Prelude.{ℕ, List, ◌++◌, ◌-◌, ◌≡◌, ◌≤◌, length, take, drop, replicate};
    ghost use Rattle.coap_codec.specs.Tokens.{padded, len_of};

    ghost Value = { List ℕ };

    ghost view = { λ t. take t.len t.bytes };

    ghost invariant = { λ t.
        (t.len ≤ 8) × (length t.bytes ≡ 8) × (drop t.len t.bytes ≡ replicate (8 - t.len) 0) };

    ghost inverse = { λ xs. record { bytes = xs ++ replicate (8 - length xs) 0; len = length xs } };

    ghost inverse_ok = { λ t h i. record {
      bytes = padded t.bytes t.len h.0 h.1 h.2 i;
      len = len_of t.bytes t.len h.0 h.1 i;
    } };
}

impl Token {
    ghost use Rattle.std.specs.Prelude.{◌≡◌, ◌≤◌, ◌↔◌, [], length, IsTrue};

    /// The most bytes that a token has.
    pub const LIMIT: usize = 8;

    /// The token with these bytes.
    pub fn new(bytes: &[u8]) -> Token
        requires { length bytes.now ≤ 8 }
        ensures { result ≡ bytes.now }
    {
        let mut all = [0; 8];
        all[..bytes.len()].copy_from_slice(bytes);
        Token {
            bytes: all,
            len: bytes.len() as u8,
        }
    }

    /// Its bytes.
    pub fn as_slice(&self) -> &[u8]
        ensures bytes { result.now ≡ self.now }
        ensures short { length result.now ≤ 8 }
    {
        &self.bytes[..self.len as usize]
    }

    /// How many bytes it has.
    pub fn len(&self) -> usize
        ensures length { result ≡ length self.now }
        ensures short { result ≤ 8 }
    {
        self.len as usize
    }

    /// Whether it has none.
    pub fn is_empty(&self) -> bool
        ensures { IsTrue result ↔ (self.now ≡ []) }
    {
        self.len == 0
    }
}

impl PartialEq for Token {
    ghost use Rattle.std.specs.Prelude.{◌==◌};
    ghost use Rattle.std.specs.Cmp.Lexicographic.{pointwise, nat_list_eq_equiv};
    ghost use Rattle.std.specs.Cmp.{partial_equiv_from_equiv};

    ghost eq = { pointwise ◌==◌ };

    ghost laws = { partial_equiv_from_equiv nat_list_eq_equiv };

    fn eq(&self, other: &Token) -> bool {
        self.as_slice() == other.as_slice()
    }
}

impl Eq for Token {
    ghost use Rattle.std.specs.Cmp.Lexicographic.{nat_list_eq_equiv};

    ghost laws = { nat_list_eq_equiv };
}
