//! Weights of media ranges (RFC 9110 section 12.4.2).

ghost use Rattle.std.specs.Prelude.{◌≡◌, ◌*◌, ◌-◌, ◌≤◌, IfSome, Some, None, if◌then◌else◌};
ghost use Rattle.media_map.specs.Accepting.{decimals, is_digit, weight_at, weight_of};
ghost use Rattle.media_map.specs.Views.{named_of};

use crate::media_type::MediaType;

/// The weight in thousandths, if it is well formed.
#[tactic(auto, unfolding(crate::specs::Accepting::weight_of))]
pub fn weight_for(media: &MediaType<'_>) -> Option<u16>
    ensures { result ≡ weight_of (named_of media.now) }
{
    match media.parameter(b"q") {
        None => Some(1000),
        Some(text) => weight_in(text),
    }
}

#[tactic(auto, unfolding(crate::specs::Accepting::weight_at))]
fn weight_in(text: &[u8]) -> Option<u16>
    ensures { result ≡ weight_at text.now }
{
    match text {
        [b'0', rest @ ..] => thousandths_behind_dot(rest),
        [b'1', rest @ ..] => match thousandths_behind_dot(rest) {
            Some(0) => Some(1000),
            _ => None,
        },
        _ => None,
    }
}

fn thousandths_behind_dot(text: &[u8]) -> Option<u16>
    ensures { result ≡ decimals text.now }
{
    match text {
        [] => Some(0),
        [b'.'] => Some(0),
        [b'.', a] => digit(*a, 100),
        [b'.', a, b] => Some(digit(*a, 100)? + digit(*b, 10)?),
        [b'.', a, b, c] => Some(digit(*a, 100)? + digit(*b, 10)? + digit(*c, 1)?),
        _ => None,
    }
}

fn digit(byte: u8, worth: u16) -> Option<u16>
    requires { worth ≤ 100 }
    ensures digit { result ≡ (if is_digit byte then Some (worth * (byte - 48)) else None) }
    ensures bound { IfSome result (λ n. n ≤ 900) }
{
    if byte.is_ascii_digit() {
        Some(worth * u16::from(byte - b'0'))
    } else {
        None
    }
}
