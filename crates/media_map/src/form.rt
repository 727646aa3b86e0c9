//! What a body is in: a CoAP content format or a media type.

ghost use Rattle.std.specs.Prelude.{◌≡◌, ◌↔◌, IsTrue, IfOk, string_bytes};

use std::alloc::{AllocError, Global};
use std::fmt;
use std::marker::Model;

/// The text of a media type, as `application/json`. Contracts see its bytes.
#[derive(Debug, Drop)]
pub struct Media {
    text: String,
}

impl Model for Media {
    ghost use Rattle.std.specs.Prelude.{List, ℕ, string_bytes};

    ghost Value = { List ℕ };

    ghost view = { λ m. string_bytes m.text };
}

impl Media {
    /// The media type of this text, which is taken as it is.
    pub fn new(text: String) -> Media
        ensures { result ≡ string_bytes text }
    {
        Media { text }
    }

    /// The media type of a copy of this text.
    pub fn from_str(alloc: Global, text: &str) -> Result<Media, AllocError>
        ensures { IfOk result (λ m. m ≡ text.now) }
    {
        let text = String::from_str(alloc, text)?;
        Ok(Media { text })
    }

    /// The text as it was given.
    pub fn as_str(&self) -> &str
        ensures { result.now ≡ self.now }
    {
        self.text.as_str()
    }

    /// An equal value.
    pub fn copy(&self) -> Result<Media, AllocError>
        ensures { IfOk result (λ m. m ≡ self.now) }
    {
        let text = self.text.clone()?;
        Ok(Media { text })
    }
}

impl fmt::Display for Media {
    ghost use Rattle.std.specs.Prelude.{Some};

    ghost output = { λ m. Some m };

    fn fmt<W: fmt::Write>(&self, f: &mut fmt::Formatter<W>) -> fmt::Result {
        f.write_str(self.as_str())
    }
}

impl PartialEq for Media {
    ghost use Rattle.std.specs.Prelude.{◌==◌};
    ghost use Rattle.std.specs.Cmp.Lexicographic.{pointwise, nat_list_eq_equiv};
    ghost use Rattle.std.specs.Cmp.{partial_equiv_from_equiv};

    ghost eq = { pointwise ◌==◌ };

    ghost laws = { partial_equiv_from_equiv nat_list_eq_equiv };

    fn eq(&self, other: &Media) -> bool {
        self.as_str() == other.as_str()
    }
}

impl Eq for Media {
    ghost use Rattle.std.specs.Cmp.Lexicographic.{nat_list_eq_equiv};

    ghost laws = { nat_list_eq_equiv };
}

/// What a body is in.
#[derive(Debug, PartialEq, Eq, Drop)]
pub enum Form {
    /// A CoAP content format, by its number (RFC 7252 section 12.3).
    Format(u16),
    /// An HTTP media type (RFC 9110 section 8.3.1).
    Media(Media),
}

impl Form {
    /// Whether the two are equal.
    pub fn is_same(&self, other: &Form) -> bool
        ensures { IsTrue result ↔ (self.now ≡ other.now) }
    {
        self == other
    }

    /// An equal value.
    pub fn copy(&self) -> Result<Form, AllocError>
        ensures { IfOk result (λ f. f ≡ self.now) }
    {
        match self {
            Form::Format(number) => Ok(Form::Format(*number)),
            Form::Media(media) => Ok(Form::Media(media.copy()?)),
        }
    }
}
