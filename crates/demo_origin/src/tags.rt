//! Whether a GET names the state as it stands by an ETag.

ghost use Rattle.std.specs.Prelude.{◌≡◌};
ghost use Rattle.coap_codec.specs.Spelling.{entries};
ghost use Rattle.coap_codec.specs.Values.{values};
ghost use Rattle.demo_origin.specs.Tags.{has_tag, is_opening, is_tag, is_valid};

use coap_codec::{Block, Message, number};

fn is_tag(value: &[u8], version: u64) -> bool
    ensures { result ≡ is_tag version value.now }
{
    let tag = version.to_be_bytes();
    value == tag.as_slice()
}

fn has_tag(m: &Message, version: u64) -> bool
    ensures { result ≡ has_tag version (values 4 (entries m.now.options.items)) }
{
    'each: for o in &m.options {
        if o.number == number::ETAG && is_tag(&o.value, version) {
            return true;
        }
    }
    false
}

fn is_opening(named: Option<Block>) -> bool
    ensures { result ≡ is_opening named }
{
    match named {
        None => true,
        Some(b) => b.num == 0,
    }
}

/// Whether one of the ETags is that of the version (RFC 7252, section 5.10.6.2), and no later piece
/// is asked for.
pub(crate) fn is_valid(m: &Message, named: Option<Block>, version: u64) -> bool
    ensures { result ≡ is_valid (values 4 (entries m.now.options.items)) named version }
{
    is_opening(named) && has_tag(m, version)
}
