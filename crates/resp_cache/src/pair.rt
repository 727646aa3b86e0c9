//! Pairs.

use crate::stored::StoredResponse;
use cache_key::Key;
use std::alloc::AllocError;

/// A response and the key that it is stored under.
#[derive(Drop)]
pub struct Pair {
    pub key: Key,
    pub stored: StoredResponse,
}

impl Pair {
    ghost use Rattle.std.specs.Prelude.{◌≡◌, IfOk};

    /// The same once more: key and response aren't copied.
    pub fn share(&self) -> Result<Pair, AllocError>
        ensures { IfOk result (λ p. p ≡ self.now) }
    {
        Ok(Pair {
            key: self.key.share()?,
            stored: self.stored.share()?,
        })
    }
}
