//! Entries of a journal, and what they count.

use crate::sample::{Nothing, light, server, shared};
use ask_model::Cause;
use coap_codec::Bytes;
use journal_book::{Entry, Event, Grounds, Journal, Mark, Numbers};
use std::alloc::{AllocError, Global};
use std::sync::Arc;

/// Two bytes are sent.
fn sent(alloc: Global) -> Result<Event<Nothing>, AllocError> {
    let bytes = Bytes::from_slice(alloc, &[0x48, 0x01])?;
    Ok(Event::Sent {
        peer: server(5683),
        bytes: Arc::new(alloc, bytes)?,
        timeout: Some(2000),
    })
}

/// An answer that rests on two replies.
fn live(alloc: Global) -> Result<Event<Nothing>, AllocError> {
    Ok(Event::Answered {
        conn: 0,
        ask: 1,
        grounds: Grounds::Live(Numbers::from_slice(alloc, &[3, 7])?),
    })
}

/// The light is asked for.
fn asked(alloc: Global) -> Result<Event<Nothing>, AllocError> {
    Ok(Event::Asked(0, shared(alloc, light(alloc)?)?))
}

/// An opening, a datagram that is sent, one that is heard, two answers, and an ask.
fn event(alloc: Global, place: u8) -> Result<Event<Nothing>, AllocError> {
    match place {
        0 => Ok(Event::Opened(0)),
        1 => sent(alloc),
        2 => Ok(Event::Heard {
            peer: server(5683),
            bytes: Bytes::from_slice(alloc, &[0x60])?,
        }),
        3 => Ok(Event::Answered {
            conn: 0,
            ask: 1,
            grounds: Grounds::Fault(Cause::Timeout, 1),
        }),
        4 => live(alloc),
        _ => asked(alloc),
    }
}

/// Adds an entry of the moment 7.
fn add(journal: &mut Journal<Nothing>, event: Event<Nothing>) -> Result<(), AllocError> {
    journal.make_room(1)?;
    journal.add(Entry { moment: 7, event });
    Ok(())
}

/// A journal of those six.
fn small_journal(alloc: Global) -> Result<Journal<Nothing>, AllocError> {
    let mut journal = Journal::new(alloc);
    for place in 0..6 {
        add(&mut journal, event(alloc, place)?)?;
    }
    Ok(journal)
}

fn copied(journal: &Journal<Nothing>) -> Option<Journal<Nothing>> {
    journal.copy().ok()
}

fn count(journal: &Journal<Nothing>) -> usize {
    journal.len()
}

/// The entry of the moment 7 at this place, and its copy, have this size.
fn has_size(journal: &Journal<Nothing>, place: usize, size: u64) -> bool {
    let Some(entry) = journal.get(place) else {
        return false;
    };
    match entry.copy() {
        Ok(copy) => entry.moment == 7 && entry.size() == size && copy.size() == size,
        Err(_) => false,
    }
}

/// The copy that the next journal has of the entry at this place, and the copy of that one.
fn carried_twice(
    journal: &Journal<Nothing>,
    place: u32,
) -> Option<(Entry<Nothing>, Entry<Nothing>)> {
    let entry = journal.get(place as usize)?;
    let once = entry.carried(place, Mark::Ground).ok()??;
    let twice = once.carried(0, Mark::Past).ok()??;
    Some((once, twice))
}

/// A copy of the entry with this number, of the moment 7 and of this size.
fn is_copy(entry: &Entry<Nothing>, of: u32, size: u64) -> bool {
    match &entry.event {
        Event::Carried { number, .. } => {
            *number == of && entry.moment == 7 && entry.size() == size
        }
        _ => false,
    }
}

/// The entry at this place is carried into the next journal, and from there into the one after it.
fn is_carried(journal: &Journal<Nothing>, place: u32, size: u64) -> bool {
    match carried_twice(journal, place) {
        Some((once, twice)) => is_copy(&once, place, size) && is_copy(&twice, 0, size),
        None => false,
    }
}

/// Of the six entries the sending, the datagram that was heard and the ask are carried.
fn are_carried(journal: &Journal<Nothing>) -> bool {
    carried_twice(journal, 0).is_none()
        && is_carried(journal, 1, 66)
        && is_carried(journal, 2, 65)
        && carried_twice(journal, 3).is_none()
        && carried_twice(journal, 4).is_none()
        && is_carried(journal, 5, 97)
}

/// So many entries are left.
fn cuts(journal: &mut Journal<Nothing>, len: usize) -> bool {
    if journal.given() > len {
        return false;
    }
    journal.cut(len);
    journal.len() == len
}

/// The first entry opens the connection 0.
fn begins_with_an_opening(journal: &Journal<Nothing>) -> bool {
    match journal.get(0) {
        Some(entry) => matches!(entry.event, Event::Opened(0)),
        None => false,
    }
}

/// The six entries have these sizes: 64 bytes for each, those of a datagram, four for each number that
/// an answer names, and of an ask the 3 of its method and the 30 of its target.
fn has_sizes(journal: &Journal<Nothing>) -> bool {
    count(journal) == 6
        && has_size(journal, 0, 64)
        && has_size(journal, 1, 66)
        && has_size(journal, 2, 65)
        && has_size(journal, 3, 68)
        && has_size(journal, 4, 72)
        && has_size(journal, 5, 97)
        && journal.get(6).is_none()
}

/// The journal is cut, and its copy is whole.
fn is_cut(journal: &mut Journal<Nothing>, copy: &Journal<Nothing>) -> bool {
    !journal.is_empty()
        && cuts(journal, 6)
        && cuts(journal, 5)
        && cuts(journal, 1)
        && begins_with_an_opening(journal)
        && has_sizes(copy)
}

#[test]
fn entries_are_counted_copied_and_cut(rt: HostRuntime) {
    let mut journal = small_journal(rt.alloc()).expect(&rt, "memory");
    let copy = copied(&journal).expect(&rt, "memory");
    assert!(rt; is_cut(&mut journal, &copy));
}

#[test]
fn entries_are_carried(rt: HostRuntime) {
    let journal = small_journal(rt.alloc()).expect(&rt, "memory");
    assert!(rt; are_carried(&journal));
}
