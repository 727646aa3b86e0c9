//! What the values of parameters stand for.

ghost use Rattle.std.specs.Prelude.{◌≡◌, ◌<◌, true, false, IfSome, length};
ghost use Rattle.std.specs.Option.{option_map};
ghost use Rattle.media_map.specs.MediaTypes.{same, unquoted, bytes_from, bytes_with};
ghost use Rattle.media_map.specs.Views.{bytes_of, bytes_before};

/// The value of a parameter, or what is left of it: a token, or a quoted string, in which a quoted
/// pair stands for the byte that it quotes (RFC 9110 sections 5.6.4 and 5.6.6).
#[derive(Clone, Copy)]
pub struct Value<'a> {
    quoted: bool,
    text: &'a [u8],
}

/// The first byte, and the others.
fn first_plain(text: &[u8]) -> Option<(u8, &[u8])>
    ensures bytes { text.now ≡ bytes_with false (option_map (λ x. (x.0, x.1.now)) result) }
    ensures shorter { IfSome result (λ x. length x.1.now < length text.now) }
{
    match text {
        [] => None,
        [byte, rest @ ..] => Some((*byte, rest)),
    }
}

/// The first byte that what is left of a quoted string stands for, and what is left after it.
fn first_quoted(text: &[u8]) -> Option<(u8, &[u8])>
    ensures bytes { bytes_from true text.now
        ≡ bytes_with true (option_map (λ x. (x.0, x.1.now)) result) }
    ensures shorter { IfSome result (λ x. length x.1.now < length text.now) }
{
    match text {
        [] | [b'"', ..] | [b'\\'] => None,
        [b'\\', byte, rest @ ..] => Some((*byte, rest)),
        [byte, rest @ ..] => Some((*byte, rest)),
    }
}

impl<'a> Value<'a> {
    /// The value that is written so.
    #[tactic(auto, unfolding(crate::specs::MediaTypes::unquoted))]
    pub fn of(text: &'a [u8]) -> Value<'a>
        ensures { bytes_of result ≡ unquoted text.now }
    {
        match text {
            [b'"', text @ ..] => Value { quoted: true, text },
            _ => Value {
                quoted: false,
                text,
            },
        }
    }

    /// The first byte that it stands for, and what is left after it.
    pub fn first(&self) -> Option<(u8, Value<'a>)>
        ensures bytes { bytes_of self.now ≡ bytes_before result }
        ensures shorter { IfSome result (λ x. length x.1.text.now < length self.now.text.now) }
    {
        let (byte, text) = if self.quoted {
            first_quoted(self.text)?
        } else {
            first_plain(self.text)?
        };
        Some((
            byte,
            Value {
                quoted: self.quoted,
                text,
            },
        ))
    }

    /// Whether it stands for this text, in upper or lower case.
    pub fn says(&self, text: &[u8]) -> bool
        ensures { result ≡ same (bytes_of self.now) text.now }
    {
        let mut rest = *self;
        'each: for byte in text {
            match rest.first() {
                Some((other, after)) if other.eq_ignore_ascii_case(byte) => rest = after,
                _ => return false,
            }
        }
        rest.first().is_none()
    }
}
