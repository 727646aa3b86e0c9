//! What a response says of its piece.

ghost use Rattle.std.specs.Prelude.{◌≡◌, ◌≤◌, ◌<◌, ◌^◌, true, IfSome, length};
ghost use Rattle.std.specs.Option.{option_map};
ghost use Rattle.coap_codec.specs.Spelling.{content};
ghost use Rattle.coap_codec.specs.Recognition.{is_final, value_of};
ghost use Rattle.blockwise.specs.Reading.{IsDefined, block_in, is_alone, names_piece, answers_piece};

use coap_codec::{Block, Message, block_of, is_defined, number};

/// Whether its code ends a request.
pub fn is_final(m: &Message) -> bool
    ensures { result ≡ is_final (content m.now) }
{
    let class = m.code / 32;
    (class == 2 || class == 4 || class == 5) && m.code != 67 && m.code != 95 && m.code != 136
}

/// The value of the first option of this number that is defined.
pub fn value_of(m: &Message, number: u16) -> Option<&[u8]>
    ensures value { option_map (λ v. v.now) result ≡ value_of number (content m.now) }
    ensures defined { IfSome result (λ v. IsDefined number v.now) }
{
    'each: for o in &m.options {
        if o.number == number && is_defined(o) {
            return Some(&o.value);
        }
    }
    None
}

/// Its Block1.
pub fn block1_in(m: &Message) -> Option<Block>
    ensures value { result ≡ block_in 27 (content m.now) }
    ensures num { IfSome result (λ b. b.num < 2 ^ 20) }
    ensures szx { IfSome result (λ b. b.szx < 7) }
{
    match value_of(m, number::BLOCK1) {
        Some(value) => block_of(value),
        None => None,
    }
}

/// Its Block2.
pub fn block2_in(m: &Message) -> Option<Block>
    ensures value { result ≡ block_in 23 (content m.now) }
    ensures num { IfSome result (λ b. b.num < 2 ^ 20) }
    ensures szx { IfSome result (λ b. b.szx < 7) }
{
    match value_of(m, number::BLOCK2) {
        Some(value) => block_of(value),
        None => None,
    }
}

/// Whether nothing stands before it or after it: no Block option, or the only block.
pub fn is_alone(block: Option<Block>) -> bool
    ensures { result ≡ is_alone block }
{
    match block {
        Some(block) => block.num == 0 && !block.more,
        None => true,
    }
}

/// Whether it names the piece of this number, or none.
fn names_piece(num: u32, block: Option<Block>) -> bool
    ensures { result ≡ names_piece num block }
{
    match block {
        Some(block) => block.num == num,
        None => true,
    }
}

/// Whether the message answers the piece of this number, and all of that answer is here (RFC 7959
/// section 2.3). A body that is sent whole is piece 0.
pub fn answers_piece(num: u32, m: &Message) -> bool
    ensures { result ≡ answers_piece num (content m.now) }
{
    names_piece(num, block1_in(m)) && is_alone(block2_in(m))
}
