//! The tokens that requests are sent under.

ghost use Rattle.std.specs.Prelude.{◌≡◌, ◌/◌, ◌^◌, drop, length};
ghost use Rattle.history_laws.specs.Numbering.{token_number};

use coap_codec::Token;

/// A token: how many were issued before it, and then the high 32 bits of the word.
pub fn token_of(issued: u32, word: u64) -> Token
    ensures size { length result ≡ 8 }
    ensures number { token_number result ≡ issued }
    ensures word { token_number (drop 4 result) ≡ word / 2 ^ 32 }
{
    let number = u64::from(issued) * 4_294_967_296 + (word >> 32);
    Token::new(&number.to_be_bytes())
}
