//! Texts that contracts see as their bytes.

use crate::short::ShortText;
use std::alloc::{AllocError, AllocFailed, Global};
use std::marker::Model;

/// Where the bytes of a text are.
#[derive(Debug, Drop)]
enum Held {
    Short(ShortText),
    Long(String),
}

/// A text in UTF-8, such as the value of a Uri-Host, Uri-Path or Uri-Query. Contracts see its
/// bytes. A short one takes no memory.
#[derive(Debug, Drop)]
pub struct Text {
    held: Held,
}

impl Model for Text {
    ghost use Rattle.std.specs.Prelude.{ℕ, List};
    ghost use Rattle.uri_map.specs.Texts.{held_bytes};

    ghost Value = { List ℕ };

    ghost view = { λ t. held_bytes t.held };
}

impl Text {
    ghost use Rattle.std.specs.Prelude.{◌≡◌, length, IfOk, IsUtf8};
    ghost use Rattle.std.specs.String.{string_bytes};

    /// The text with these bytes.
    pub fn copy_of(alloc: Global, text: &str) -> Result<Text, AllocError>
        ensures { IfOk result (λ t. t ≡ text.now) }
    {
        if text.len() <= ShortText::ROOM {
            let short = ShortText::of(text);
            return Ok(Text {
                held: Held::Short(short),
            });
        }
        let long = String::from_str(alloc, text)?;
        Ok(Text {
            held: Held::Long(long),
        })
    }

    /// The text that a string is.
    pub fn of(text: String) -> Text
        ensures { result ≡ string_bytes text }
    {
        Text {
            held: Held::Long(text),
        }
    }

    /// A copy of the text.
    pub fn copy(&self) -> Result<Text, AllocError>
        ensures { IfOk result (λ t. t ≡ self.now) }
    {
        match &self.held {
            Held::Short(short) => Ok(Text {
                held: Held::Short(short.copy()),
            }),
            Held::Long(long) => Ok(Text {
                held: Held::Long(long.clone()?),
            }),
        }
    }

    /// The text.
    pub fn as_str(&self) -> &str
        ensures value { result.now ≡ self.now }
        ensures utf8 { IsUtf8 self.now }
    {
        match &self.held {
            Held::Short(short) => short.as_str(),
            Held::Long(long) => long.as_str(),
        }
    }

    /// Its bytes.
    pub fn as_bytes(&self) -> &[u8]
        ensures { result.now ≡ self.now }
    {
        match &self.held {
            Held::Short(short) => short.as_slice(),
            Held::Long(long) => long.as_bytes(),
        }
    }

    /// How many bytes it has.
    pub fn len(&self) -> usize
        ensures { result ≡ length self.now }
    {
        self.as_bytes().len()
    }
}

impl PartialEq for Text {
    ghost use Rattle.std.specs.Prelude.{◌==◌};
    ghost use Rattle.std.specs.Cmp.Lexicographic.{pointwise, nat_list_eq_equiv};
    ghost use Rattle.std.specs.Cmp.{partial_equiv_from_equiv};

    ghost eq = { pointwise ◌==◌ };

    ghost laws = { partial_equiv_from_equiv nat_list_eq_equiv };

    fn eq(&self, other: &Text) -> bool {
        self.as_bytes() == other.as_bytes()
    }
}

impl Eq for Text {
    ghost use Rattle.std.specs.Cmp.Lexicographic.{nat_list_eq_equiv};

    ghost laws = { nat_list_eq_equiv };
}

/// Texts in order: the segments of a path, or the arguments of a query. Contracts see their bytes.
#[derive(Debug, Drop)]
pub struct Texts {
    items: Vec<Text>,
}

impl Model for Texts {
    ghost use Rattle.std.specs.Prelude.{ℕ, List};

    ghost Value = { List (List ℕ) };

    ghost view = { λ t. t.items.items };
}

impl Texts {
    ghost use Rattle.std.specs.Prelude.{◌≡◌, ◌==◌, [], ◌∷◌, ◌++◌, length, IfOk, OnOk, OnErr};

    /// No texts.
    pub fn new(alloc: Global) -> Texts
        ensures { result ≡ [] }
    {
        Texts {
            items: Vec::new(alloc),
        }
    }

    /// Puts a text last.
    pub fn push(&mut self, text: Text) -> Result<(), AllocFailed<Text>>
        ensures ok { OnOk result (self.new ≡ self.old ++ text ∷ []) }
        ensures err { OnErr result (self.new ≡ self.old) }
    {
        self.items.push(text)
    }

    /// The texts.
    pub fn as_slice(&self) -> &[Text]
        ensures { result.now ≡ self.now }
    {
        self.items.as_slice()
    }

    /// How many there are.
    pub fn len(&self) -> usize
        ensures { result ≡ length self.now }
    {
        self.items.len()
    }

    /// Whether there is none.
    pub fn is_empty(&self) -> bool
        ensures { result ≡ (length self.now == 0) }
    {
        self.items.is_empty()
    }

    /// A copy of the texts.
    pub fn copy(&self) -> Result<Texts, AllocError>
        ensures { IfOk result (λ t. t ≡ self.now) }
    {
        let mut items = Vec::new(*self.items.allocator());
        'each: for text in &self.items {
            items.push(text.copy()?)?;
        }
        Ok(Texts { items })
    }
}

impl PartialEq for Texts {
    ghost use Rattle.std.specs.Prelude.{◌==◌};
    ghost use Rattle.std.specs.Cmp.Lexicographic.{pointwise, nat_list_eq_equiv, lists_equiv};
    ghost use Rattle.std.specs.Cmp.{partial_equiv_from_equiv};

    ghost eq = { pointwise (pointwise ◌==◌) };

    ghost laws = { partial_equiv_from_equiv (lists_equiv nat_list_eq_equiv) };

    fn eq(&self, other: &Texts) -> bool {
        self.as_slice() == other.as_slice()
    }
}

impl Eq for Texts {
    ghost use Rattle.std.specs.Cmp.Lexicographic.{nat_list_eq_equiv, lists_equiv};

    ghost laws = { lists_equiv nat_list_eq_equiv };
}
