//! What the end of an exchange does to the store (RFC 7252 sections 5.6 and 5.9.2).

ghost use Rattle.std.specs.Prelude.{true, false, ◌≡◌, ℕ, IfOk, OnOk, List, Option, option_map, Some, None};
ghost use Rattle.std.specs.Arc.{arc_value};
ghost use Rattle.exchange_model.specs.Matters.{Matter as ModelMatter};
ghost use Rattle.exchange_model.specs.Hearing.{Numbers, is_newest, newest_content, retired, retold, settled};
ghost use Rattle.history_laws.specs.Progress.{Ending};
ghost use Rattle.journal_book.specs.Entries.{Written};
ghost use Rattle.resp_cache.specs.Stored.{Stored};
ghost use Rattle.exchange_progress.specs.Coming.{IsEnded};
ghost use Rattle.exchange_core.specs.Matters.{IsMatter};
ghost use Rattle.exchange_core.specs.Storing.{HasRoomToPut, content_told, if_newest, if_unchanged, is_newest_found, is_outdating, key_ended, outdated_under, put_for, put_in, put_under, renewed_for, settled_with, stored_for};
ghost use Rattle.exchange_core.specs.Reading.{IsCountedHere, IsEndHere, IsMatterHere};
ghost use Rattle.std.specs.List.{AllByRecursion};
ghost use Rattle.exchange_table.specs.Asks.{IsAskedHere};

use crate::ending::{first_moment, last_moment};
use crate::matter::{Matter, Notification};
use cache_key::{Key, Lookup};
use exchange_model::Exchange;
use exchange_progress::Ended;
use exchange_table::asked;
use journal_book::{Grounds, Journal};
use reply_reading::{Finding, Outcome, Response};
use resp_cache::{Pair, Store, StoredResponse};
use std::alloc::{AllocError, Global};
use std::sync::Arc;
use transformers::Relation;

/// 2.05 Content (RFC 7252 section 5.9.1.5).
const CONTENT: u8 = 69;

/// What a message does to what is stored under the key of what was read.
#[derive(Drop)]
pub enum Put {
    /// It has nothing to store.
    Nothing,
    /// The pair takes the place of the key's own.
    Stores(Pair),
    /// A response that is never fresh takes the key's pair out. It isn't stored, so no key is made.
    Outdates,
}

/// The whole 2.05 that was found, if it is one.
fn content_in(finding: &Finding) -> Option<&Arc<Response>>
    ensures { option_map (λ r. arc_value r.now) result ≡ content_told finding.now.told }
{
    match finding.outcome() {
        Outcome::Whole(response) if response.code == CONTENT => Some(response),
        _ => None,
    }
}

/// What the GET reads whose exchange has ended, if no write outran it.
fn sought_in<'a, R: Relation>(journal: &'a Journal<R>, ended: &Exchange) -> Option<Lookup<'a>>
    requires { IsAskedHere journal.now.given journal.now.kept ended.now }
    ensures { result ≡ key_ended journal.now.entries (Some ended.now) }
{
    if !ended.current {
        return None;
    }
    asked(journal, ended.ask)?.lookup()
}

/// The whole 2.05 that was found by the exchange with this opening, as it is stored: it counts from
/// the moment of its first reply. It shares the response.
pub fn stored_for<R: Relation>(
    alloc: Global,
    journal: &Journal<R>,
    opening: u32,
    finding: &Finding,
    moment: u64,
) -> Result<Option<StoredResponse>, AllocError>
    requires { IsCountedHere journal.now.given journal.now.kept false finding.now.grounds }
    ensures { IfOk result (λ o. o
        ≡ stored_for journal.now.entries moment opening finding.now.told finding.now.grounds) }
{
    let Some(response) = content_in(finding) else {
        return Ok(None);
    };
    let Grounds::Live(numbers) = finding.grounds() else {
        return Ok(None);
    };
    if numbers.as_slice().is_empty() {
        return Ok(None);
    }
    let heard = first_moment(journal, finding.grounds(), moment);
    let shared = Arc::try_clone(response)?;
    let list = Vec::from_slice(alloc, numbers.as_slice())?;
    Ok(Some(StoredResponse::new(alloc, shared, opening, heard, list)?))
}

/// Whether what was found could be stored, were it ever fresh.
fn is_outdating(finding: &Finding) -> bool
    ensures { (ws : List Written) (t o : ℕ) → result
        ≡ is_outdating (stored_for ws t o finding.now.told finding.now.grounds) }
{
    let Some(response) = content_in(finding) else {
        return false;
    };
    match finding.grounds() {
        Grounds::Live(numbers) => !numbers.as_slice().is_empty() && response.is_never_fresh(),
        _ => false,
    }
}

/// Whether no notification that counts has come since the first of the replies that are whole.
fn is_newest(ended: &Exchange, finding: &Finding) -> bool
    ensures { result ≡ is_newest_found ended.now finding.now }
{
    match finding.grounds() {
        Grounds::Live(numbers) => numbers.as_slice().len() == 1 || ended.newest,
        _ => false,
    }
}

/// What the exchange does to the store that ends with what was found: a whole 2.05 to a GET that no
/// write and no notification outran is stored, if it is ever fresh.
fn put_found<R: Relation>(
    alloc: Global,
    journal: &Journal<R>,
    ended: &Exchange,
    finding: &Finding,
    moment: u64,
) -> Result<Put, AllocError>
    requires asked { IsAskedHere journal.now.given journal.now.kept ended.now }
    requires found { IsCountedHere journal.now.given journal.now.kept false finding.now.grounds }
    ensures { IfOk result (λ o. o ≡ put_for journal.now.entries (Some ended.now)
        (if_newest ended.now finding.now (stored_for journal.now.entries moment ended.now.ask
        finding.now.told finding.now.grounds))) }
{
    if !is_newest(ended, finding) {
        return Ok(Put::Nothing);
    }
    let Some(sought) = sought_in(journal, ended) else {
        return Ok(Put::Nothing);
    };
    if is_outdating(finding) {
        return Ok(Put::Outdates);
    }
    let Some(stored) = stored_for(alloc, journal, ended.ask, finding, moment)? else {
        return Ok(Put::Nothing);
    };
    Ok(Put::Stores(Pair {
        key: Key::of_sought(alloc, &sought)?,
        stored,
    }))
}

/// What was renewed, as it is stored: it counts from the moment of the last of its replies, and
/// came first of the exchange with this opening. It shares the response.
fn renewed_for<R: Relation>(
    alloc: Global,
    journal: &Journal<R>,
    opening: u32,
    finding: &Finding,
    moment: u64,
) -> Result<Option<StoredResponse>, AllocError>
    requires { IsCountedHere journal.now.given journal.now.kept true finding.now.grounds }
    ensures { IfOk result (λ o. o
        ≡ renewed_for journal.now.entries moment opening finding.now.told finding.now.grounds) }
{
    let Outcome::Whole(response) = finding.outcome() else {
        return Ok(None);
    };
    let Grounds::Live(numbers) = finding.grounds() else {
        return Ok(None);
    };
    let heard = last_moment(journal, finding.grounds(), moment);
    let shared = Arc::try_clone(response)?;
    let list = Vec::from_slice(alloc, numbers.as_slice())?;
    Ok(Some(StoredResponse::new(alloc, shared, opening, heard, list)?))
}

/// What the exchange puts into the store that ends with what was renewed, which came first of the
/// exchange with this opening: that, where no write and no notification outran it.
fn put_renewed<R: Relation>(
    alloc: Global,
    journal: &Journal<R>,
    ended: &Exchange,
    opening: u32,
    finding: &Finding,
    moment: u64,
) -> Result<Put, AllocError>
    requires asked { IsAskedHere journal.now.given journal.now.kept ended.now }
    requires found { IsCountedHere journal.now.given journal.now.kept true finding.now.grounds }
    ensures { IfOk result (λ o. o ≡ put_for journal.now.entries (Some ended.now)
        (if_unchanged ended.now (renewed_for journal.now.entries moment opening
        finding.now.told finding.now.grounds))) }
{
    if !ended.newest {
        return Ok(Put::Nothing);
    }
    let Some(sought) = sought_in(journal, ended) else {
        return Ok(Put::Nothing);
    };
    let Some(stored) = renewed_for(alloc, journal, opening, finding, moment)? else {
        return Ok(Put::Nothing);
    };
    if stored.is_never_fresh() {
        return Ok(Put::Outdates);
    }
    Ok(Put::Stores(Pair {
        key: Key::of_sought(alloc, &sought)?,
        stored,
    }))
}

/// What the end of the exchange puts into the store.
pub fn put_ended<R: Relation>(
    alloc: Global,
    journal: &Journal<R>,
    exchange: &Exchange,
    ended: &Ended,
    moment: u64,
) -> Result<Put, AllocError>
    requires asked { IsAskedHere journal.now.given journal.now.kept exchange.now }
    requires ended { IsEndHere journal.now.given journal.now.kept ended.now }
    ensures { (n : ℕ) (how : Ending) → IsEnded n ended.now how
        → IfOk result (λ o. o ≡ put_for journal.now.entries (Some exchange.now)
        (newest_content journal.now.entries moment exchange.now how)) }
{
    match ended {
        Ended::Found(finding) => put_found(alloc, journal, exchange, finding, moment),
        Ended::Renewed(finding, opening) => {
            put_renewed(alloc, journal, exchange, *opening, finding, moment)
        }
        Ended::Turned => Ok(Put::Nothing),
    }
}

/// What a notification puts into the store. It shares the response.
fn put_told(told: &Notification) -> Result<Put, AllocError>
    ensures { IfOk result (λ o. o ≡ put_under (Some told.now.key) told.now.found) }
{
    let Some(stored) = &told.found else {
        return Ok(Put::Nothing);
    };
    if stored.is_never_fresh() {
        return Ok(Put::Outdates);
    }
    Ok(Put::Stores(Pair {
        key: told.key.share()?,
        stored: stored.share()?,
    }))
}

/// What a message puts into the store, which is this to the exchanges.
pub fn put_of<R: Relation>(
    alloc: Global,
    journal: &Journal<R>,
    matter: &Matter,
    moment: u64,
) -> Result<Put, AllocError>
    requires { IsMatterHere journal.now.given journal.now.kept matter.now }
    ensures { (n : ℕ) (new : Numbers) (x : ModelMatter) → IsMatter n new matter.now x
        → IfOk result (λ o. o ≡ put_in journal.now.entries moment x) }
{
    match matter {
        Matter::Over(exchange, ended) => put_ended(alloc, journal, exchange, ended, moment),
        Matter::Tells(told) => put_told(told),
        _ => Ok(Put::Nothing),
    }
}

/// Makes room for what is put, if anything is.
pub fn make_room_for(store: &mut Store, put: &Put) -> Result<(), AllocError>
    ensures pairs { store.new.pairs ≡ store.old.pairs }
    ensures room { OnOk result (HasRoomToPut put.now store.new.room) }
{
    if let Put::Stores(_) = put {
        store.make_room()?;
    }
    Ok(())
}

/// Where the exchange that has ended was a write, what is stored of its place goes.
fn retire<R: Relation>(store: &mut Store, journal: &Journal<R>, ended: &Exchange)
    requires { IsAskedHere journal.now.given journal.now.kept ended.now }
    ensures { store.new.pairs
        ≡ settled journal.now.entries (Some ended.now) None store.old.pairs }
{
    if store.is_empty() {
        return;
    }
    let Some(mapped) = asked(journal, ended.ask) else {
        return;
    };
    if let Some(writing) = mapped.writing() {
        store.retire(&writing);
    }
}

/// These exchanges have come to nothing that is stored: what writes among them changed goes.
pub fn retire_all<R: Relation>(store: &mut Store, journal: &Journal<R>, over: &[Exchange])
    requires { AllByRecursion (IsAskedHere journal.now.given journal.now.kept) over.now }
    ensures { store.new.pairs ≡ retired journal.now.entries over.now store.old.pairs }
{
    'each: for ended in over {
        retire(store, journal, ended);
    }
}

/// What was read by the exchange that has ended is stored no more.
fn outdate<R: Relation>(store: &mut Store, journal: &Journal<R>, ended: &Exchange)
    requires { IsAskedHere journal.now.given journal.now.kept ended.now }
    ensures { store.new.pairs
        ≡ outdated_under (key_ended journal.now.entries (Some ended.now)) store.old.pairs }
{
    if store.is_empty() {
        return;
    }
    if let Some(sought) = sought_in(journal, ended) {
        store.outdate(&sought);
    }
}

/// The exchange has ended: what it puts is stored, for which there is room, or what it changed
/// goes.
pub fn settle<R: Relation>(store: &mut Store, journal: &Journal<R>, ended: &Exchange, put: Put)
    requires room { HasRoomToPut put store.old.room }
    requires here { IsAskedHere journal.now.given journal.now.kept ended.now }
    ensures { store.new.pairs
        ≡ settled_with journal.now.entries (Some ended.now) put store.old.pairs }
{
    match put {
        Put::Stores(Pair { key, stored }) => {
            store.put_in_room(key, stored);
        }
        Put::Outdates => outdate(store, journal, ended),
        Put::Nothing => retire(store, journal, ended),
    }
}

/// A notification of the key counts: what it puts is stored, for which there is room, or what is
/// stored goes.
pub fn retell(store: &mut Store, key: &Key, put: Put)
    requires { HasRoomToPut put store.old.room }
    ensures { (found : Option Stored) → put ≡ put_under (Some key.now) found
        → store.new.pairs ≡ retold key.now found store.old.pairs }
{
    match put {
        Put::Stores(Pair { key, stored }) => {
            store.put_in_room(key, stored);
        }
        Put::Outdates | Put::Nothing => store.take_out(key),
    }
}
