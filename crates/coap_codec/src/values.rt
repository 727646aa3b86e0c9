//! The values of a message's options.

ghost use Rattle.std.specs.Prelude.{◌≡◌, List, ℕ, [], ◌∷◌, map, IfSome, IfNone, IfOk, IsOkUnless};
ghost use Rattle.coap_codec.specs.Spelling.{entries};
ghost use Rattle.coap_codec.specs.Values.{values};

use crate::fault::CodecFault;
use crate::message::Message;
use std::alloc::Global;

/// The values of the message's options of that number, in order.
pub fn values_of<'a>(
    alloc: Global,
    m: &'a Message,
    number: u16,
) -> Result<Vec<&'a [u8]>, CodecFault>
    ensures ok { IfOk result (λ v.
        map (λ x. x.now) v.items ≡ values number (entries m.now.options.items)) }
    ensures memory { IsOkUnless result CodecFault.Memory }
{
    let mut values = Vec::new(alloc);
    'each: for o in &m.options {
        if o.number == number {
            values.push(o.value.as_slice())?;
        }
    }
    Ok(values)
}

/// The value of the message's first option of that number, without memory.
pub fn first_of(m: &Message, number: u16) -> Option<&[u8]>
    ensures found { IfSome result (λ v.
        (others : List (List ℕ)) × (values number (entries m.now.options.items) ≡ v.now ∷ others)) }
    ensures none { IfNone result (values number (entries m.now.options.items) ≡ []) }
{
    'each: for option in &m.options {
        if option.number == number {
            return Some(&option.value);
        }
    }
    None
}
