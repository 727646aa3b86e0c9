//! Segments of a journal that are given out.

ghost use Rattle.journal_book.specs.Journals.{Rise};

use crate::sample::Nothing;
use journal_book::{Entry, Event, Journal};
use journal_extracts::{extract_of, numbered_of};
use std::alloc::{AllocError, Global};

/// A journal of so many openings, of the connections from 0 on.
fn openings(alloc: Global, count: u32) -> Result<Journal<Nothing>, AllocError> {
    let mut journal = Journal::new(alloc);
    journal.make_room(count as usize)?;
    for conn in 0..count {
        journal.make_room(1)?;
        journal.add(Entry {
            moment: 7,
            event: Event::Opened(conn),
        });
    }
    Ok(journal)
}

/// Gives a segment out, of which these are named, and tells which connection its first entry opens.
fn given(journal: &mut Journal<Nothing>, named: &[u32]) -> Option<u32>
    requires { Rise named.now }
{
    let segment = journal.give(named).ok()??;
    match segment.first()?.event {
        Event::Opened(conn) if segment.len() == 1024 => Some(conn),
        _ => None,
    }
}

/// The entry with this number can be read, and is its own.
fn reads(journal: &Journal<Nothing>, number: u32) -> bool {
    match journal.get(number as usize) {
        Some(entry) => matches!(entry.event, Event::Opened(conn) if conn == number),
        None => false,
    }
}

fn lacks(journal: &Journal<Nothing>, number: usize) -> bool {
    journal.get(number).is_none()
}

/// No segment is full.
fn gives_none(journal: &mut Journal<Nothing>) -> bool {
    matches!(journal.give(&[]), Ok(None))
}

/// The first segment leaves: two of its entries stay, and all of the others.
fn first_leaves(journal: &mut Journal<Nothing>) -> bool {
    given(journal, &[5, 1023, 1030]) == Some(0)
        && journal.len() == 2049
        && journal.given() == 1024
        && reads(journal, 5)
        && reads(journal, 1023)
        && lacks(journal, 0)
        && lacks(journal, 1022)
        && reads(journal, 1024)
        && reads(journal, 2048)
        && lacks(journal, 2049)
}

/// So does the second: what isn't named any more goes.
fn second_leaves(journal: &mut Journal<Nothing>) -> bool {
    given(journal, &[5, 1030]) == Some(1024)
        && journal.len() == 2049
        && journal.given() == 2048
        && reads(journal, 5)
        && reads(journal, 1030)
        && lacks(journal, 1023)
        && lacks(journal, 1031)
        && reads(journal, 2048)
        && gives_none(journal)
}

/// What is cut and added after that has the next numbers; a copy has what is held.
fn goes_on(journal: &mut Journal<Nothing>) -> bool {
    if journal.given() > 2048 {
        return false;
    }
    journal.cut(2048);
    let empty = journal.len() == 2048 && lacks(journal, 2048);
    if journal.make_room(1).is_err() {
        return false;
    }
    journal.add(Entry {
        moment: 8,
        event: Event::Opened(2048),
    });
    let copied = match journal.copy() {
        Ok(copy) => copy.len() == 1 && copy.given() == 0,
        Err(_) => false,
    };
    empty && reads(journal, 2048) && reads(journal, 5) && copied
}

/// An extract begins with the first entry that is held, where it was to begin before.
fn extract_begins_later(journal: &Journal<Nothing>, alloc: Global) -> bool {
    match extract_of(journal, 5, Vec::new(alloc)) {
        Ok(extract) => {
            extract.total == 2049 && extract.first == 2048 && extract.entries.len() == 1
        }
        Err(_) => false,
    }
}

/// Of these numbers those are found that are kept or held.
fn finds_what_is_kept(journal: &Journal<Nothing>, alloc: Global) -> bool {
    match numbered_of(journal, &[4, 5, 1031, 2048, 2049], Vec::new(alloc)) {
        Ok(found) => found.len() == 2 && found[0].number == 5 && found[1].number == 2048,
        Err(_) => false,
    }
}

#[test]
fn segments_leave_and_what_is_named_stays(rt: HostRuntime) {
    let mut journal = openings(rt.alloc(), 2049).expect(&rt, "memory");
    assert!(rt;
        first_leaves(&mut journal)
            && second_leaves(&mut journal)
            && goes_on(&mut journal)
            && extract_begins_later(&journal, rt.alloc())
            && finds_what_is_kept(&journal, rt.alloc())
    );
}
