//! What a request's Accept comes to.

ghost use Rattle.std.specs.Prelude.{◌≡◌, IfOk};

use crate::form::Media;
use std::alloc::AllocError;

/// What is asked for, and what the answer is written as where it is transformed.
#[derive(Debug, PartialEq, Eq, Drop)]
pub struct Wanted {
    /// The content format for the Accept option (RFC 7252 section 5.10.4).
    pub format: u16,
    /// The media type that the reader gets.
    pub media: Media,
}

impl Wanted {
    /// An equal value.
    pub fn copy(&self) -> Result<Wanted, AllocError>
        ensures { IfOk result (λ w. w ≡ self.now) }
    {
        Ok(Wanted {
            format: self.format,
            media: self.media.copy()?,
        })
    }
}
