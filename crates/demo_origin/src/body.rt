//! Bodies of which more come.

ghost use Rattle.std.specs.Prelude.{◌≡◌, ◌++◌, OnOk, OnErr};

use std::alloc::AllocError;
use std::marker::Model;

/// The bytes of a body that came so far. Contracts see the list of them.
#[derive(Drop)]
pub struct Body {
    items: Vec<u8>,
}

impl Model for Body {
    ghost use Rattle.std.specs.Prelude.{ℕ, List};

    ghost Value = { List ℕ };

    ghost view = { λ b. b.items.items };
}

impl Body {
    /// The body that begins with these bytes.
    pub fn new(items: Vec<u8>) -> Body
        ensures { result ≡ items.items }
    {
        Body { items }
    }

    /// Puts more bytes last.
    pub fn append(&mut self, bytes: &[u8]) -> Result<(), AllocError>
        ensures ok { OnOk result (self.new ≡ self.old ++ bytes.now) }
        ensures err { OnErr result (self.new ≡ self.old) }
    {
        self.items.extend_from_slice(bytes)
    }

    /// The bytes.
    pub fn as_slice(&self) -> &[u8]
        ensures { result.now ≡ self.now }
    {
        self.items.as_slice()
    }
}
