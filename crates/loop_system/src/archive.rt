//! Where the history goes.

use journal_book::Entry;
use transformers::Relation;

/// Where the history goes, entry by entry.
pub trait Archive<R: Relation> {
    /// Whether it keeps anything.
    fn keeps(&self) -> bool;

    /// Keeps entries, the first of which has this number. Those before them that never came are lost.
    /// Where it can't, it says so itself, and nothing stops.
    fn keep(&mut self, first: usize, entries: &[Entry<R>]);
}

/// An archive that keeps nothing.
#[derive(Clone, Copy, Debug, Drop)]
pub struct NoArchive;

impl<R: Relation> Archive<R> for NoArchive {
    fn keeps(&self) -> bool {
        false
    }

    fn keep(&mut self, _first: usize, _entries: &[Entry<R>]) {}
}
