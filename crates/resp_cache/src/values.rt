//! Lists of values of options, which contracts see as plain lists.

ghost use Rattle.std.specs.Prelude.{◌≡◌};

use coap_codec::Bytes;
use std::marker::Model;

/// Values of options of one kind, in their order.
#[derive(Debug, Drop)]
pub struct Values {
    items: Vec<Bytes>,
}

impl Model for Values {
    ghost use Rattle.std.specs.Prelude.{List, ℕ};

    ghost Value = { List (List ℕ) };

    ghost view = { λ v. v.items.items };
}

impl Values {
    /// Takes the values over.
    pub fn of(items: Vec<Bytes>) -> Values
        ensures { result ≡ items.items }
    {
        Values { items }
    }

    /// The values.
    pub fn as_slice(&self) -> &[Bytes]
        ensures { result.now ≡ self.now }
    {
        self.items.as_slice()
    }
}
