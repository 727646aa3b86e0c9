//! What asks, messages and ends do to the resources that are observed (RFC 7641).

ghost use Rattle.std.specs.Prelude.{◌≡◌, ◌≤◌, ◌++◌, IfOk, OnOk};
ghost use Rattle.std.specs.List.{AllByRecursion, list_any};
ghost use Rattle.cache_key.specs.Keys.{key_of, place_of};
ghost use Rattle.observe_share.specs.Watches.{is_at, is_idle, is_of, without};
ghost use Rattle.exchange_model.specs.Matters.{asked_in};
ghost use Rattle.exchange_model.specs.Hearing.{is_written_late};
ghost use Rattle.exchange_model.specs.Watching.{is_written_by, tokens_of, touched};
ghost use Rattle.exchange_core.specs.Watching.{is_renewed_for, is_unwatched_by, may_watch};
ghost use Rattle.exchange_table.specs.Asks.{IsAskedHere};

use ask_model::Mapped;
use cache_key::Reading;
use coap_codec::Token;
use exchange_model::Exchange;
use exchange_table::asked;
use journal_book::Journal;
use observe_share::{Registration, Watch};
use std::alloc::{AllocError, Global};
use transformers::Relation;

/// An ask for what is observed is noted, unless it opens an exchange.
pub fn touch<R: Relation>(watches: &mut Watch, moment: u64, mapped: &Mapped<R>)
    ensures { watches.new.standing ≡ touched moment mapped.now.sense watches.old.standing }
{
    if let Some(reading) = mapped.reading() {
        watches.touched(&reading, moment);
    }
}

/// Whether fewer others are observed than may be, where the request is a GET.
pub fn may_watch<R: Relation>(watches: &Watch, mapped: &Mapped<R>) -> bool
    ensures { result ≡ may_watch mapped.now.sense watches.now.standing }
{
    match mapped.reading() {
        Some(reading) => watches.has_place(&reading),
        None => false,
    }
}

/// Adds the tokens of those of these that observe what is read.
fn add_renewed(
    tokens: &mut Vec<Token>,
    near: &[Registration],
    reading: &Reading<'_>,
) -> Result<(), AllocError>
    ensures { let key = key_of reading.now.peer reading.now.target.now reading.now.accept in
        OnOk result (tokens.new.items ≡ tokens.old.items ++ tokens_of (is_of key) near.now) }
{
    'each: for watch in near {
        if watch.key.is_of(reading) {
            tokens.push(watch.token)?;
        }
    }
    Ok(())
}

/// The tokens of those that observe what the request reads.
pub fn tokens_renewed<R: Relation>(
    alloc: Global,
    watches: &Watch,
    mapped: &Mapped<R>,
) -> Result<Vec<Token>, AllocError>
    ensures { IfOk result
        (λ v. v.items ≡ tokens_of (is_renewed_for mapped.now.sense) watches.now.standing) }
{
    let mut tokens = Vec::new(alloc);
    if watches.is_empty() {
        return Ok(tokens);
    }
    let Some(reading) = mapped.reading() else {
        return Ok(tokens);
    };
    add_renewed(&mut tokens, watches.among(&reading), &reading)?;
    Ok(tokens)
}

/// The request opens an exchange: those that observe what it reads end.
pub fn renew<R: Relation>(watches: &mut Watch, mapped: &Mapped<R>)
    ensures watches { watches.new.standing
        ≡ without (is_renewed_for mapped.now.sense) watches.old.standing }
{
    if watches.is_empty() {
        return;
    }
    if let Some(reading) = mapped.reading() {
        watches.forget(&reading);
    }
}

/// Adds the tokens of those of these that are at the place that is changed.
fn add_at(
    tokens: &mut Vec<Token>,
    near: &[Registration],
    writing: &Reading<'_>,
) -> Result<(), AllocError>
    ensures { let place = place_of writing.now.peer writing.now.target.now in
        OnOk result (tokens.new.items ≡ tokens.old.items ++ tokens_of (is_at place) near.now) }
{
    'each: for watch in near {
        if watch.key.place().is_of(writing) {
            tokens.push(watch.token)?;
        }
    }
    Ok(())
}

/// Adds the tokens of those that end with the exchange.
pub fn add_written<R: Relation>(
    tokens: &mut Vec<Token>,
    watches: &Watch,
    journal: &Journal<R>,
    ended: &Exchange,
) -> Result<(), AllocError>
    requires { IsAskedHere journal.now.given journal.now.kept ended.now }
    ensures { OnOk result (tokens.new.items ≡ tokens.old.items
        ++ tokens_of (is_written_by (asked_in journal.now.entries ended.now.ask))
        watches.now.standing) }
{
    let Some(mapped) = asked(journal, ended.ask) else {
        return Ok(());
    };
    let Some(writing) = mapped.writing() else {
        return Ok(());
    };
    add_at(tokens, watches.among(&writing), &writing)
}

/// Where the exchange that has ended was a write, those of its place end.
pub fn retire<R: Relation>(watches: &mut Watch, journal: &Journal<R>, ended: &Exchange)
    requires { IsAskedHere journal.now.given journal.now.kept ended.now }
    ensures { watches.new.standing ≡ without
        (is_written_by (asked_in journal.now.entries ended.now.ask)) watches.old.standing }
{
    if watches.is_empty() {
        return;
    }
    let Some(mapped) = asked(journal, ended.ask) else {
        return;
    };
    if let Some(writing) = mapped.writing() {
        watches.retire(&writing);
    }
}

/// Whether the exchange, which ends, is a write to the place of this one.
fn is_written<R: Relation>(watch: &Registration, journal: &Journal<R>, ended: &Exchange) -> bool
    requires { IsAskedHere journal.now.given journal.now.kept ended.now }
    ensures { result ≡ is_written_by (asked_in journal.now.entries ended.now.ask) watch.now }
{
    let Some(mapped) = asked(journal, ended.ask) else {
        return false;
    };
    match mapped.writing() {
        Some(writing) => watch.key.place().is_of(&writing),
        None => false,
    }
}

/// Whether one of these exchanges, which end, is a write to the place of this one.
fn is_written_late<R: Relation>(
    watch: &Registration,
    journal: &Journal<R>,
    over: &[Exchange],
) -> bool
    requires { AllByRecursion (IsAskedHere journal.now.given journal.now.kept) over.now }
    ensures { result ≡ is_written_late journal.now.entries over.now watch.now }
{
    'each: for ended in over {
        if is_written(watch, journal, ended) {
            return true;
        }
    }
    false
}

/// Whether a tick ends it, at which these exchanges end.
fn is_unwatched<R: Relation>(
    watch: &Registration,
    journal: &Journal<R>,
    over: &[Exchange],
    moment: u64,
) -> bool
    requires { AllByRecursion (IsAskedHere journal.now.given journal.now.kept) over.now }
    ensures { result ≡ is_unwatched_by moment journal.now.entries over.now watch.now }
{
    watch.is_idle(moment) || is_written_late(watch, journal, over)
}

/// Adds the tokens of those of these that a tick ends, at which these exchanges end.
fn add_ending<R: Relation>(
    tokens: &mut Vec<Token>,
    watches: &[Registration],
    journal: &Journal<R>,
    over: &[Exchange],
    moment: u64,
) -> Result<(), AllocError>
    requires { AllByRecursion (IsAskedHere journal.now.given journal.now.kept) over.now }
    ensures { OnOk result (tokens.new.items ≡ tokens.old.items
        ++ tokens_of (is_unwatched_by moment journal.now.entries over.now) watches.now) }
{
    'each: for watch in watches {
        if is_unwatched(watch, journal, over, moment) {
            tokens.push(watch.token)?;
        }
    }
    Ok(())
}

/// Adds the tokens of those that a tick ends, at which these exchanges end. Where none of these
/// ends and nothing is idle, no watch is looked at.
pub fn add_unwatched<R: Relation>(
    tokens: &mut Vec<Token>,
    watches: &Watch,
    journal: &Journal<R>,
    over: &[Exchange],
    moment: u64,
) -> Result<(), AllocError>
    requires { AllByRecursion (IsAskedHere journal.now.given journal.now.kept) over.now }
    ensures { OnOk result (tokens.new.items ≡ tokens.old.items
        ++ tokens_of (is_unwatched_by moment journal.now.entries over.now) watches.now.standing) }
{
    if over.is_empty() && !watches.has_idle(moment) {
        return Ok(());
    }
    add_ending(tokens, watches.as_slice(), journal, over, moment)
}

/// Those end that a tick ends, at which these exchanges end.
pub fn drop_unwatched<R: Relation>(
    watches: &mut Watch,
    journal: &Journal<R>,
    over: &[Exchange],
    moment: u64,
)
    requires { AllByRecursion (IsAskedHere journal.now.given journal.now.kept) over.now }
    ensures { watches.new.standing
        ≡ without (is_unwatched_by moment journal.now.entries over.now) watches.old.standing }
{
    'each: for ended in over {
        retire(watches, journal, ended);
    }
    let _count = watches.idle(moment);
}
