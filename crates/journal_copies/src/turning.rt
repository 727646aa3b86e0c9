//! What the next journal begins with.

ghost use Rattle.std.specs.Prelude.{◌≡◌, ◌≤◌, [], length, map, IfOk};
ghost use Rattle.limits.specs.declared.TheConstants.{MAX_ENTRIES};
ghost use Rattle.exchange_model.specs.Rotating.{copies_with, pair_at};
ghost use Rattle.journal_copies.specs.Carrying.{few_in, numbers_in};
ghost use Rattle.journal_copies.specs.Copying.{AreCounted};
ghost use Rattle.journal_copies.specs.Marking.{AreMarks};
ghost use Rattle.resp_cache.specs.Stores.{IsStore};

use crate::copies::{Copies, copies_of};
use crate::marks::Marks;
use crate::places::renumbered;
use crate::taking::chosen;
use journal_book::Journal;
use resp_cache::Pair;
use std::alloc::{AllocError, Global};
use transformers::Relation;

/// What the next journal begins with, and the pairs that are carried over.
#[derive(Drop)]
pub struct Begun<R: Relation> {
    pub copies: Copies<R>,
    pub pairs: Vec<Pair>,
}

/// The copies of what is remembered at this moment, and of what those of these pairs rest on that
/// are carried over.
pub fn begin<R: Relation>(
    alloc: Global,
    journal: &Journal<R>,
    moment: u64,
    remembered: Marks,
    pairs: &[Pair],
) -> Result<Begun<R>, AllocError>
    requires few { length journal.now.entries ≤ MAX_ENTRIES }
    requires whole { journal.now.given ≡ 0 }
    requires marks { AreMarks moment journal.now.entries [] remembered }
    requires store { IsStore pairs.now }
    ensures entries { IfOk result (λ b. b.copies.journal.entries ≡ copies_with moment
        journal.now.entries (numbers_in moment journal.now.entries pairs.now)) }
    ensures counted { IfOk result (λ b. AreCounted b.copies) }
    ensures pairs { IfOk result (λ b. b.pairs.items
        ≡ map (pair_at b.copies.journal.entries) (few_in moment journal.now.entries pairs.now)) }
    ensures store { IfOk result (λ b. IsStore b.pairs.items) }
{
    let choice = chosen(alloc, journal, moment, remembered, pairs)?;
    let copies = copies_of(alloc, journal, &choice.marks)?;
    let pairs = renumbered(alloc, &choice.marks, &choice.taken)?;
    Ok(Begun { copies, pairs })
}
