//! What is shown of the journal: its entries are copied first, and the lines made after.

use crate::shown::Shown;
use journal_book::Entry;
use journal_extracts::Numbered;
use journal_lines::{Payloads, Unwritten, write_entry};
use route_bank::Profile;
use status_page::Excerpt;
use std::alloc::{AllocError, Global};
use std::sync::Wait;

/// What the journal has of what is asked for.
#[derive(Drop)]
pub enum Found {
    Lines(Excerpt),
    /// It has nothing of it.
    Nothing,
    /// It is turned over.
    Turning,
}

/// The journal from this entry on, or from the first that wasn't given out. The excerpt is empty for
/// the number of the next entry; later numbers have none.
pub fn found_from<W: Wait, G: Shown>(
    rt: &W,
    alloc: Global,
    gateway: &G,
    from: u32,
) -> Result<Found, AllocError> {
    let from = from as usize;
    let Some(extract) = gateway.entries_from(rt, alloc, from)? else {
        return Ok(Found::Turning);
    };
    if from > extract.total {
        return Ok(Found::Nothing);
    }
    let mut excerpt = Excerpt::new(alloc, extract.first as u64);
    'each: for entry in &extract.entries {
        add_line(alloc, &mut excerpt, entry, gateway.payloads())?;
    }
    Ok(Found::Lines(excerpt))
}

/// What became of the request that this entry is, or answers, or that was answered first by it.
pub fn found_about<W: Wait, G: Shown>(
    rt: &W,
    alloc: Global,
    gateway: &G,
    number: u32,
) -> Result<Found, AllocError> {
    let number = number as usize;
    let Some(entries) = gateway.entries_about(rt, alloc, number)? else {
        return Ok(Found::Turning);
    };
    if entries.is_empty() {
        return Ok(Found::Nothing);
    }
    let mut excerpt = Excerpt::new(alloc, 0);
    'each: for numbered in &entries {
        let Numbered { number, entry } = numbered;
        excerpt.next = u64::from(*number);
        add_line(alloc, &mut excerpt, entry, gateway.payloads())?;
    }
    Ok(Found::Lines(excerpt))
}

/// Adds the line of the next entry.
fn add_line(
    alloc: Global,
    excerpt: &mut Excerpt,
    entry: &Entry<Profile>,
    payloads: Payloads,
) -> Result<(), AllocError> {
    let number = excerpt.next as usize;
    excerpt.next = excerpt.next.saturating_add(1);
    match write_entry(alloc, &mut excerpt.lines, number, entry, payloads) {
        Ok(()) => Ok(()),
        Err(Unwritten::Memory | Unwritten::Device) => Err(AllocError),
    }
}
