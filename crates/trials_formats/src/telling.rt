//! What the trials share: how a row is checked, and how a value is written.

use std::alloc::Global;
use std::fmt::{Debug, Display};
use std::process::Abort;

/// Ends the trial where the row doesn't hold, and prints the row.
pub fn check<R: Debug + Copy>(rt: &impl Abort, row: R, holds: bool) {
    assert!(rt; holds, "{row:?}");
}

/// Whether the value is written in these words.
pub fn is_written<T: Display>(alloc: Global, value: &T, words: &str) -> bool {
    match format!(in alloc; "{value}") {
        Ok(text) => text.as_str() == words,
        Err(_) => false,
    }
}
