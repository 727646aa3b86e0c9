//! The requests that asks came with.

ghost use Rattle.std.specs.Prelude.{◌≡◌, ℕ, Some, slice_get, IfOk};
ghost use Rattle.std.specs.Arc.{arc_value};
ghost use Rattle.ask_model.specs.Views.{Ask};
ghost use Rattle.journal_book.specs.Entries.{Asks};
ghost use Rattle.journal_book.specs.Views.{ask_of};
ghost use Rattle.exchange_core.specs.Asked.{IsAskIn};
ghost use Rattle.exchange_core.specs.Values.{written};
ghost use Rattle.journal_book.specs.Journals.{IsHere};

use ask_model::Mapped;
use journal_book::{Event, Journal};
use std::alloc::AllocError;
use std::sync::Arc;
use transformers::Relation;

/// The request of the ask in the entry with this number, which it shares.
pub fn request_of<R: Relation>(journal: &Journal<R>, ask: u32) -> Result<Arc<Mapped<R>>, AllocError>
    requires asks { IsAskIn journal.now.entries ask }
    requires here { IsHere journal.now.given journal.now.kept ask }
    ensures { (t c : ℕ) (a : Ask) → slice_get journal.now.entries ask ≡ Some (written t (Asks c a))
        → IfOk result (λ m. ask_of (arc_value m) ≡ a) }
{
    let Some(entry) = journal.get(ask as usize) else {
        unreachable!()
    };
    let Event::Asked(_, mapped) = &entry.event else {
        unreachable!()
    };
    Arc::try_clone(mapped)
}
