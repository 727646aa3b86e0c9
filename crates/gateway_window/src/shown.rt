//! What is asked of a gateway that is looked at.

use crate::figures::Figures;
use crate::watch::Watch;
use journal_extracts::{Extract, Numbered};
use journal_lines::Payloads;
use route_bank::Profile;
use status_page::Phase;
use std::alloc::{AllocError, Global};
use std::sync::Wait;

/// A gateway that is looked at.
pub trait Shown {
    /// What is counted for those who look, where somebody may.
    fn watch(&self) -> Option<&Watch>;

    /// Whether they see what datagrams carry.
    fn payloads(&self) -> Payloads;

    /// Whether requests are taken.
    fn phase<W: Wait>(&self, rt: &W) -> Phase;

    /// How much there is of everything now.
    fn figures<W: Wait>(&self, rt: &W, alloc: Global) -> Result<Figures, AllocError>;

    /// Entries of the journal, one after the other, from this number on. None while the journal is
    /// turned over.
    fn entries_from<W: Wait>(
        &self,
        rt: &W,
        alloc: Global,
        from: usize,
    ) -> Result<Option<Extract<Profile>>, AllocError>;

    /// The entries that tell of one request: the one that this entry is, or answers, or that was
    /// answered first by it. An empty list where there is no such request. None while the journal
    /// is turned over.
    fn entries_about<W: Wait>(
        &self,
        rt: &W,
        alloc: Global,
        number: usize,
    ) -> Result<Option<Vec<Numbered<Profile>>>, AllocError>;
}
