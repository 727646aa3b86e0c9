//! What is shown of the journal.

use std::alloc::Global;

/// Entries of the journal, as lines (`docs/formats.md`, "Journal lines").
#[derive(Drop)]
pub struct Excerpt {
    /// each ended by LF
    pub lines: Vec<u8>,
    /// the number of the entry after the last of them
    pub next: u64,
}

impl Excerpt {
    /// No entries, before that one.
    pub fn new(alloc: Global, next: u64) -> Excerpt {
        Excerpt {
            lines: Vec::new(alloc),
            next,
        }
    }
}
