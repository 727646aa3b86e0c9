//! Media types as a Content-Type or an Accept writes them (RFC 9110 section 8.3.1).

ghost use Rattle.std.specs.Prelude.{◌≡◌, if◌then◌else◌, true};
ghost use Rattle.std.specs.Option.{option_map};
ghost use Rattle.media_map.specs.MediaTypes.{slash_in, equals_in, is_essence, is_pair, is_parameter, media_at, has_name, value_of, value_in};
ghost use Rattle.media_map.specs.Texts.{behind};
ghost use Rattle.media_map.specs.Views.{named_of};
ghost use Rattle.std.specs.List.{list_all};

use crate::text::{cut, is_quoted, is_same, is_token_text, next_piece, trim};

/// A media type in the text that it was read from.
#[derive(Clone, Copy)]
pub struct MediaType<'a> {
    /// `type/subtype`
    pub essence: &'a [u8],
    /// What stands after it: nothing, or a semicolon and parameters.
    pub parameters: &'a [u8],
}

impl<'a> MediaType<'a> {
    /// The media type that the text is, if it is one.
    pub fn parse(text: &'a [u8]) -> Option<MediaType<'a>>
        ensures { option_map named_of result ≡ media_at text.now }
    {
        let (first, parameters) = next_piece(text, b';', true);
        let essence = trim(first);
        if is_essence_text(essence) && are_parameters(parameters) {
            Some(MediaType {
                essence,
                parameters,
            })
        } else {
            None
        }
    }

    /// The value of the first parameter of this name, as it is written.
    pub fn parameter(&self, name: &[u8]) -> Option<&'a [u8]>
        ensures { option_map (λ v. v.now) result
            ≡ value_in name.now (named_of self.now).parameters }
    {
        let mut rest = self.parameters;
        'each: while !rest.is_empty() {
            let (piece, after) = next_piece(&rest[1..], b';', true);
            if let Some(value) = value_if(trim(piece), name) {
                return Some(value);
            }
            rest = after;
        }
        None
    }
}

#[tactic(auto, unfolding(crate::specs::MediaTypes::is_essence, crate::specs::MediaTypes::slash_in))]
fn is_essence_text(text: &[u8]) -> bool
    ensures { result ≡ is_essence text.now }
{
    let slash = cut(text, b'/', false);
    slash < text.len() && is_token_text(&text[..slash]) && is_token_text(&text[slash + 1..])
}

#[tactic(auto, unfolding(crate::specs::MediaTypes::is_pair, crate::specs::MediaTypes::equals_in))]
fn is_pair_text(text: &[u8]) -> bool
    ensures { result ≡ is_pair text.now }
{
    let equals = cut(text, b'=', false);
    if equals == text.len() {
        return false;
    }
    let value = &text[equals + 1..];
    is_token_text(&text[..equals]) && (is_token_text(value) || is_quoted(value))
}

#[tactic(auto, unfolding(crate::specs::MediaTypes::is_parameter))]
fn is_parameter_text(piece: &[u8]) -> bool
    ensures { result ≡ is_parameter piece.now }
{
    let text = trim(piece);
    text.is_empty() || is_pair_text(text)
}

fn are_parameters(text: &[u8]) -> bool
    ensures { result ≡ list_all is_parameter (behind true 59 text.now) }
{
    let mut rest = text;
    'each: while !rest.is_empty() {
        let (piece, after) = next_piece(&rest[1..], b';', true);
        if !is_parameter_text(piece) {
            return false;
        }
        rest = after;
    }
    true
}

// The value of the parameter, if it has the name.
#[tactic(auto, unfolding(crate::specs::MediaTypes::has_name, crate::specs::MediaTypes::value_of, crate::specs::MediaTypes::equals_in))]
fn value_if<'a>(text: &'a [u8], name: &[u8]) -> Option<&'a [u8]>
    ensures { option_map (λ v. v.now) result
        ≡ (if has_name name.now text.now then Some (value_of text.now) else None) }
{
    let equals = cut(text, b'=', false);
    if equals < text.len() && is_same(&text[..equals], name) {
        Some(&text[equals + 1..])
    } else {
        None
    }
}
