//! What a core was, so that steps can be taken back.
//!
//! Tables are copied, and of the journal, which only grows, its length is kept: so a snapshot costs
//! no more than the tables, and going back to it takes no memory. A server makes one step at a
//! time, which changes nothing where it is refused, and takes no snapshot; one who makes several
//! steps for an input does.

ghost use Rattle.std.specs.Prelude.{◌≡◌, ◌≤◌, ◌+◌, length, map, min, take, IfOk};
ghost use Rattle.exchange_core.specs.Answering.{given_of};
ghost use Rattle.exchange_core.specs.Snapshots.{IsOf, restored};
ghost use Rattle.exchange_core.specs.Sound.{IsSound};
ghost use Rattle.exchange_core.specs.States.{given_in, outgoing, seen, state_of};
ghost use Rattle.exchange_core.specs.Values.{outgoing_of};

use crate::answer::Answer;
use crate::outgoing::Datagram;
use crate::state::State;
use endpoint_table::Endpoints;
use exchange_model::Conn;
use exchange_table::{Exchanges, Fetched, Readers, Stales};
use observe_share::Watch;
use resp_cache::Store;
use std::alloc::{AllocError, Global};
use std::collections::VecDeque;
use std::marker::Model;
use std::sync::Arc;
use transformers::Relation;

/// What a core was: how many entries it had, what was open, and what wasn't taken yet. It shares
/// what was asked and the bytes that were sent.
#[derive(Drop)]
pub struct Snapshot<R: Relation> {
    entries: usize,
    sealed: bool,
    bytes: u64,
    moment: u64,
    opened: u32,
    issued: u32,
    conns: Vec<Conn>,
    exchanges: Exchanges,
    fetched: Fetched,
    stales: Stales,
    readers: Readers,
    watches: Watch,
    store: Store,
    endpoints: Endpoints,
    answers: Vec<Answer<R>>,
    sends: VecDeque<Datagram>,
}

impl<R: Relation> Model for Snapshot<R> {
    ghost use Rattle.std.specs.Prelude.{[], map};
    ghost use Rattle.exchange_core.specs.Answering.{given_of};
    ghost use Rattle.exchange_core.specs.Snapshots.{SnapshotValue};
    ghost use Rattle.exchange_core.specs.Values.{outgoing_of};

    ghost Value = { SnapshotValue };

    ghost view = { λ s. record {
      count = s.entries;
      bytes = s.bytes;
      tables = record {
        entries = [];
        given = 0;
        kept = [];
        sealed = s.sealed;
        moment = s.moment;
        opened = s.opened;
        issued = s.issued;
        conns = s.conns.items;
        exchanges = s.exchanges.exchanges;
        pieces = s.fetched.pieces;
        stales = s.stales.stales;
        readers = s.readers.items;
        watches = s.watches.standing;
        store = s.store.pairs;
        links = s.endpoints.links;
      };
      answers = map given_of s.answers.items;
      unsent = map outgoing_of s.sends.items;
    } };
}

/// Equal answers.
fn copy_answers<R: Relation>(
    alloc: Global,
    answers: &[Answer<R>],
) -> Result<Vec<Answer<R>>, AllocError>
    ensures { IfOk result (λ copy. map given_of copy.items ≡ map given_of answers.now) }
{
    let mut copy = Vec::new(alloc);
    'each: for answer in answers {
        copy.push(answer.copy()?)?;
    }
    Ok(copy)
}

/// Equal datagrams.
fn copy_sends(alloc: Global, sends: &VecDeque<Datagram>) -> Result<VecDeque<Datagram>, AllocError>
    ensures { IfOk result (λ copy. map outgoing_of copy.items ≡ map outgoing_of sends.now.items) }
{
    let mut copy = VecDeque::new(alloc);
    'each: for i in 0..sends.len() {
        let bytes = Arc::try_clone(&sends[i].bytes)?;
        copy.push_back(Datagram {
            peer: sends[i].peer,
            bytes,
        })?;
    }
    Ok(copy)
}

/// What this is.
pub fn take_snapshot<R: Relation>(alloc: Global, s: &State<R>) -> Result<Snapshot<R>, AllocError>
    requires { IsSound s.now }
    ensures { IfOk result (λ x. IsOf x (seen s.now)) }
{
    Ok(Snapshot {
        entries: s.journal.len(),
        sealed: s.sealed,
        bytes: s.bytes,
        moment: s.moment,
        opened: s.opened,
        issued: s.issued,
        conns: Vec::from_slice(alloc, &s.conns)?,
        exchanges: s.exchanges.copy(alloc)?,
        fetched: s.fetched.copy(alloc)?,
        stales: s.stales.copy(alloc)?,
        readers: s.readers.copy(alloc)?,
        watches: s.watches.copy()?,
        store: s.store.copy()?,
        endpoints: s.endpoints.copy()?,
        answers: copy_answers(alloc, &s.answers)?,
        sends: copy_sends(alloc, &s.sends)?,
    })
}

/// Goes back to what this was, with the first of the entries that there are.
pub fn put_back<R: Relation>(s: &mut State<R>, snapshot: Snapshot<R>)
    requires { s.old.journal.given ≤ snapshot.count }
    ensures state { state_of s.new ≡ restored (take snapshot.count s.old.journal.entries)
        s.old.journal.given s.old.journal.kept snapshot }
    ensures bytes { s.new.bytes ≡ snapshot.bytes }
    ensures room { snapshot.count ≤ length s.old.journal.entries
        → min (s.old.journal.room + length s.old.journal.entries) (snapshot.count + 1024)
        ≤ s.new.journal.room + snapshot.count }
    ensures answers { given_in s.new ≡ snapshot.answers }
    ensures sends { outgoing s.new ≡ snapshot.unsent }
{
    s.journal.cut(snapshot.entries);
    s.sealed = snapshot.sealed;
    s.bytes = snapshot.bytes;
    s.moment = snapshot.moment;
    s.opened = snapshot.opened;
    s.issued = snapshot.issued;
    s.conns = snapshot.conns;
    s.exchanges = snapshot.exchanges;
    s.fetched = snapshot.fetched;
    s.stales = snapshot.stales;
    s.readers = snapshot.readers;
    s.watches = snapshot.watches;
    s.store = snapshot.store;
    s.endpoints.put_back(snapshot.endpoints);
    s.answers = snapshot.answers;
    s.sends = snapshot.sends;
}
