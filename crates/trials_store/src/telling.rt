//! How a row is checked.

use std::fmt::Debug;
use std::process::Abort;

/// Ends the trial where the row doesn't hold, and prints the row.
pub fn check<R: Debug + Copy>(rt: &impl Abort, row: R, holds: bool) {
    assert!(rt; holds, "{row:?}");
}
