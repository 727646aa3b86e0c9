//! Segments that were given out.

ghost use Rattle.std.specs.Prelude.{◌≡◌, ◌++◌, true, map, is_some, OnOk};
ghost use Rattle.journal_book.specs.Past.{past_in};
ghost use Rattle.journal_book.specs.Views.{item_of};

use crate::entry::Entry;
use passed_items::Passed;
use std::alloc::{AllocError, Global};
use transformers::Relation;

/// Where so many entries were given out no more are, so that the number of all has 64 bits. At a
/// million a second that takes a hundred thousand years.
pub const MAX_GIVEN: usize = (1 << 62) - 1024;

/// Makes what keeps the segments that are given out, where it isn't there yet.
pub fn make_past<R: Relation>(
    alloc: Global,
    past: &mut Option<Passed<Vec<Entry<R>>>>,
) -> Result<(), AllocError>
    ensures same { past_in past.new ≡ past_in past.old }
    ensures ok { OnOk result (is_some past.new ≡ true) }
{
    if past.is_none() {
        *past = Some(Passed::new(alloc)?);
    }
    Ok(())
}

/// Gives the segment out, to the caller.
pub fn pass_on<R: Relation>(
    past: &mut Option<Passed<Vec<Entry<R>>>>,
    segment: Vec<Entry<R>>,
) -> Vec<Entry<R>>
    requires { is_some past.old ≡ true }
    ensures entries { past_in past.new ≡ past_in past.old ++ map item_of segment.items }
    ensures same { result ≡ segment }
{
    let Some(mut kept) = past.take() else {
        unreachable!()
    };
    let given = kept.pass(segment);
    *past = Some(kept);
    given
}
