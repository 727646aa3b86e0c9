//! A journal that stands in memory whole.

ghost use Rattle.std.specs.Prelude.{◌≡◌, ◌≤◌, Some, length, slice_get, MatchOption};
ghost use Rattle.journal_book.specs.Views.{item_of};

use journal_book::{Entry, Journal};
use transformers::Relation;

/// The entry with this number, counted from 0, of a journal of which nothing was given out.
pub fn get<R: Relation>(journal: &Journal<R>, number: usize) -> Option<&Entry<R>>
    requires { journal.now.given ≡ 0 }
    ensures { MatchOption result (length journal.now.entries ≤ number) (λ e.
        slice_get journal.now.entries number ≡ Some (item_of e.now)) }
{
    journal.get(number)
}
