//! Exchanges that a write outruns, and those that a notification outdates, found by digests.

ghost use Rattle.std.specs.Prelude.{◌≡◌, ◌∷◌, [], map, option_and_then};
ghost use Rattle.std.specs.List.{AllByRecursion};
ghost use Rattle.cache_key.specs.Digests.{digests_of};
ghost use Rattle.cache_key.specs.Keys.{key_of};
ghost use Rattle.exchange_model.specs.Matters.{IsDigested, asked_in, left_by, request_in};
ghost use Rattle.exchange_model.specs.Hearing.{outdated_by};
ghost use Rattle.journal_book.specs.Journals.{IsHere};
ghost use Rattle.exchange_table.specs.Asks.{IsAskedHere};
ghost use Rattle.exchange_table.specs.Marks.{AreMarked, key_in, place_in};
ghost use Rattle.exchange_table.specs.Outrunning.{only_at, outrun_with};
ghost use Rattle.exchange_table.specs.Places.{RiseBy};
ghost use Rattle.exchange_table.specs.Tables.{opening_of};

use crate::keyed::reads;
use crate::marks::{Mark, half_of, marked};
use crate::places::opening_place;
use ask_model::Mapped;
use cache_key::{Digests, Key, Reading};
use exchange_model::Exchange;
use journal_book::{Event, Journal};
use transformers::Relation;

/// The request of the ask in the entry with this number, if one is there.
pub fn asked<R: Relation>(journal: &Journal<R>, ask: u32) -> Option<&Mapped<R>>
    requires { IsHere journal.now.given journal.now.kept ask }
    ensures { option_and_then (λ m. request_in m.now.sense) result
        ≡ asked_in journal.now.entries ask }
{
    match &journal.get(ask as usize)?.event {
        Event::Asked(_, mapped) => Some(mapped),
        _ => None,
    }
}

/// GETs join the exchange no more where the write was to its place.
fn outrun_row<R: Relation>(row: &mut Exchange, journal: &Journal<R>, write: &Mapped<R>)
    requires { IsAskedHere journal.now.given journal.now.kept row.old }
    ensures { row.new ≡ outrun_with (request_in write.now.sense) journal.now.entries row.old }
{
    if let Some(other) = asked(journal, row.ask) {
        if write.outdates(other) {
            row.current = false;
        }
    }
}

/// The same of the row that the entry with this number opened.
fn outrun_at<R: Relation>(
    rows: &mut [Exchange],
    opening: u32,
    journal: &Journal<R>,
    write: &Mapped<R>,
)
    requires ordered { RiseBy opening_of rows.old }
    requires here { AllByRecursion (IsAskedHere journal.now.given journal.now.kept) rows.old }
    ensures { rows.new ≡ map (only_at opening
        (outrun_with (request_in write.now.sense) journal.now.entries)) rows.old }
{
    if let Some(place) = opening_place(rows, opening) {
        outrun_row(&mut rows[place], journal, write);
    }
}

/// The digest of the place that is read or changed.
fn place_digest(reading: &Reading<'_>) -> u32
    ensures { let key = key_of reading.now.peer reading.now.target.now reading.now.accept in
        result ≡ place_in (digests_of key) }
{
    half_of(Digests::of(&reading.peer, reading.target, reading.accept).place)
}

/// An exchange has ended: where it was a write, GETs join the exchanges of its place no more.
pub fn outrun<R: Relation>(
    rows: &mut [Exchange],
    places: &[Mark],
    journal: &Journal<R>,
    ended: &Exchange,
)
    requires ordered { RiseBy opening_of rows.old }
    requires placed { AreMarked place_in rows.old places.now }
    requires digested { AllByRecursion (IsDigested journal.now.entries) rows.old }
    requires here { AllByRecursion (IsAskedHere journal.now.given journal.now.kept) rows.old }
    requires ended { IsAskedHere journal.now.given journal.now.kept ended.now }
    ensures { rows.new ≡ left_by journal.now.entries (ended.now ∷ []) rows.old }
{
    let Some(write) = asked(journal, ended.ask) else {
        return;
    };
    let Some(place) = write.writing() else {
        return;
    };
    let alike = marked(places, place_digest(&place));
    'each: for mark in alike {
        outrun_at(rows, mark.opening, journal, write);
    }
}

/// What the row fetches is out of date, where it is of this key.
fn outdate_row<R: Relation>(row: &mut Exchange, journal: &Journal<R>, key: &Key)
    requires { IsAskedHere journal.now.given journal.now.kept row.old }
    ensures { row.new ≡ outdated_by journal.now.entries key.now row.old }
{
    if reads(row, journal, key) {
        row.newest = false;
    }
}

/// The same of the row that the entry with this number opened.
fn outdate_at<R: Relation>(rows: &mut [Exchange], opening: u32, journal: &Journal<R>, key: &Key)
    requires ordered { RiseBy opening_of rows.old }
    requires here { AllByRecursion (IsAskedHere journal.now.given journal.now.kept) rows.old }
    ensures { rows.new
        ≡ map (only_at opening (outdated_by journal.now.entries key.now)) rows.old }
{
    if let Some(place) = opening_place(rows, opening) {
        outdate_row(&mut rows[place], journal, key);
    }
}

/// A notification of this key counts: what is fetched of that is out of date.
pub fn outdate<R: Relation>(rows: &mut [Exchange], keys: &[Mark], journal: &Journal<R>, key: &Key)
    requires ordered { RiseBy opening_of rows.old }
    requires keyed { AreMarked key_in rows.old keys.now }
    requires digested { AllByRecursion (IsDigested journal.now.entries) rows.old }
    requires here { AllByRecursion (IsAskedHere journal.now.given journal.now.kept) rows.old }
    ensures { rows.new ≡ map (outdated_by journal.now.entries key.now) rows.old }
{
    let alike = marked(keys, half_of(key.digests().key));
    'each: for mark in alike {
        outdate_at(rows, mark.opening, journal, key);
    }
}
