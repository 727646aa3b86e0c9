ghost use Rattle.std.specs.Prelude.{◌≡◌, ◌/◌, ◌%◌};
ghost use Rattle.std.specs.Option.{option_map};
ghost use Rattle.transformers.specs.Item.{argument_at, byte_at, eight_at, four_at, head_at, major_of, two_at};

/// The major types of CBOR that are taken (RFC 8949 section 3.1).
#[derive(Clone, Copy)]
pub enum Major {
    Unsigned,
    Negative,
    Text,
    Array,
    Map,
}

// The number in the first byte, and what follows.
fn byte(bytes: &[u8]) -> Option<(u8, &[u8])>
    ensures { option_map (λ x. (x.0, x.1.now)) result ≡ byte_at bytes.now }
{
    match bytes {
        [] => None,
        [first, rest @ ..] => Some((*first, rest)),
    }
}

// The number in two bytes, the highest first.
#[tactic(auto, unfolding(crate::specs::Item::two_at))]
fn two(bytes: &[u8]) -> Option<(u16, &[u8])>
    ensures { option_map (λ x. (x.0, x.1.now)) result ≡ two_at bytes.now }
{
    let (high, rest) = byte(bytes)?;
    let (low, rest) = byte(rest)?;
    Some((256 * u16::from(high) + u16::from(low), rest))
}

// The number in four bytes.
#[tactic(auto, unfolding(crate::specs::Item::four_at))]
fn four(bytes: &[u8]) -> Option<(u32, &[u8])>
    ensures { option_map (λ x. (x.0, x.1.now)) result ≡ four_at bytes.now }
{
    let (high, rest) = two(bytes)?;
    let (low, rest) = two(rest)?;
    Some((65536 * u32::from(high) + u32::from(low), rest))
}

// The number in eight bytes.
#[tactic(auto, unfolding(crate::specs::Item::eight_at))]
fn eight(bytes: &[u8]) -> Option<(u64, &[u8])>
    ensures { option_map (λ x. (x.0, x.1.now)) result ≡ eight_at bytes.now }
{
    let (high, rest) = four(bytes)?;
    let (low, rest) = four(rest)?;
    Some((4294967296 * u64::from(high) + u64::from(low), rest))
}

// The argument that the additional information says.
#[tactic(auto, unfolding(crate::specs::Item::argument_at))]
fn argument(information: u8, bytes: &[u8]) -> Option<(u64, &[u8])>
    ensures { option_map (λ x. (x.0, x.1.now)) result ≡ argument_at information bytes.now }
{
    match information {
        0..=23 => Some((u64::from(information), bytes)),
        24 => {
            let (n, rest) = byte(bytes)?;
            Some((u64::from(n), rest))
        }
        25 => {
            let (n, rest) = two(bytes)?;
            Some((u64::from(n), rest))
        }
        26 => {
            let (n, rest) = four(bytes)?;
            Some((u64::from(n), rest))
        }
        27 => eight(bytes),
        _ => None,
    }
}

#[tactic(auto, unfolding(crate::specs::Item::major_of))]
fn major_type(n: u8) -> Option<Major>
    ensures { result ≡ major_of n }
{
    match n {
        0 => Some(Major::Unsigned),
        1 => Some(Major::Negative),
        3 => Some(Major::Text),
        4 => Some(Major::Array),
        5 => Some(Major::Map),
        _ => None,
    }
}

// The head of an item: its major type and its argument, and what follows.
#[tactic(auto, unfolding(crate::specs::Item::head_at))]
pub(crate) fn head(bytes: &[u8]) -> Option<(Major, u64, &[u8])>
    ensures { option_map (λ x. (x.0, x.1, x.2.now)) result ≡ head_at bytes.now }
{
    let (first, rest) = byte(bytes)?;
    let major = major_type(first / 32)?;
    let (argument, rest) = argument(first % 32, rest)?;
    Some((major, argument, rest))
}
