//! Whether a response can be used.

ghost use Rattle.std.specs.Prelude.{◌≡◌};
ghost use Rattle.coap_codec.specs.Spelling.{content};
ghost use Rattle.message_layer.specs.Options.{fitness_of};

use coap_codec::{Message, is_forwardable, is_rejected};

/// What a response is good for.
#[derive(Clone, Copy, Debug, PartialEq, Eq)]
pub enum Fitness {
    /// It can't be processed (RFC 7252 section 4.2): a CON or NON of it is answered by RST.
    Rejected,
    /// It can be processed, but its meaning may not be passed on.
    NotUnderstood,
    /// It can be passed on. Options of it that are not recognised are to be ignored.
    Fits,
}

/// What the response is good for, by its code and its options.
pub fn judge(m: &Message) -> Fitness
    ensures { result ≡ fitness_of (content m.now) }
{
    if is_rejected(m) {
        return Fitness::Rejected;
    }
    if m.code / 32 == 3 || !is_forwardable(&m.options) {
        return Fitness::NotUnderstood;
    }
    Fitness::Fits
}
