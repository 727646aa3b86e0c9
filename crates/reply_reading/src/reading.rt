//! What a message is as the reply to a request (RFC 7252 section 5.9).

ghost use Rattle.std.specs.Prelude.{◌≡◌, true, IfSome, option_map};
ghost use Rattle.coap_codec.specs.Spelling.{content};
ghost use Rattle.coap_codec.specs.Recognition.{is_defined, is_final, value_of};
ghost use Rattle.history_laws.specs.Responses.{is_tellable};

use coap_codec::{Message, is_defined, is_forwardable};

/// Whether its code ends a request.
pub fn is_final(m: &Message) -> bool
    ensures { result ≡ is_final (content m.now) }
{
    let class = m.code / 32;
    (class == 2 || class == 4 || class == 5) && m.code != 67 && m.code != 95 && m.code != 136
}

/// The value of the first option of this number that is defined.
pub fn value_of(m: &Message, number: u16) -> Option<&[u8]>
    ensures value { option_map (λ v. v.now) result ≡ value_of number (content m.now) }
    ensures defined { IfSome result (λ v.
        is_defined (record { number = number; value = v.now }) ≡ true) }
{
    'each: for o in &m.options {
        if o.number == number && is_defined(o) {
            return Some(&o.value);
        }
    }
    None
}

/// Whether a reader may be told what it says: its options may be passed over, and its code ends a
/// request.
pub fn is_tellable(m: &Message) -> bool
    ensures { result ≡ is_tellable (content m.now) }
{
    is_forwardable(&m.options) && is_final(m)
}
