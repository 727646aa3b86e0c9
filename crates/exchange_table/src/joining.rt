//! Exchanges that an ask joins, found by the digest of what it reads.

ghost use Rattle.std.specs.Prelude.{◌≡◌, IsSome, find, is_some, option_and_then};
ghost use Rattle.std.specs.List.{AllByRecursion};
ghost use Rattle.std.specs.Option.{option_copied};
ghost use Rattle.cache_key.specs.Digests.{digests_of};
ghost use Rattle.exchange_model.specs.Matters.{IsDigested};
ghost use Rattle.exchange_table.specs.declared.marks.Mark.{Mark as Row};
ghost use Rattle.exchange_table.specs.Asks.{IsAskedHere};
ghost use Rattle.exchange_table.specs.Joining.{is_joined_at, is_joined_by, is_joined_marked};
ghost use Rattle.exchange_table.specs.Marks.{AreMarked, key_in};
ghost use Rattle.exchange_table.specs.Places.{RiseBy};
ghost use Rattle.exchange_table.specs.Tables.{is_opened_at, opening_of};

use crate::marks::{Mark, half_of, marked};
use crate::outrunning::asked;
use crate::places::opening_place_late;
use ask_model::Mapped;
use cache_key::Lookup;
use exchange_model::Exchange;
use journal_book::Journal;
use transformers::Relation;

/// Whether the request joins the exchange: both are equal GETs, and no write has outrun it.
fn is_joined<R: Relation>(exchange: &Exchange, journal: &Journal<R>, mapped: &Mapped<R>) -> bool
    requires { IsAskedHere journal.now.given journal.now.kept exchange.now }
    ensures { result ≡ is_joined_by journal.now.entries mapped.now.sense exchange.now }
{
    if !exchange.current {
        return false;
    }
    match asked(journal, exchange.ask) {
        Some(other) => mapped.asks_same(other),
        None => false,
    }
}

/// The row that the entry with this number opened.
pub fn row_at(rows: &[Exchange], opening: u32) -> Option<&Exchange>
    requires { RiseBy opening_of rows.now }
    ensures { option_copied result ≡ find (is_opened_at opening) rows.now }
{
    let place = opening_place_late(rows, opening)?;
    Some(&rows[place])
}

/// The row that the entry with this number opened, where the request joins it.
fn joined_at<'a, R: Relation>(
    rows: &'a [Exchange],
    opening: u32,
    journal: &Journal<R>,
    mapped: &Mapped<R>,
) -> Option<&'a Exchange>
    requires ordered { RiseBy opening_of rows.now }
    requires here { AllByRecursion (IsAskedHere journal.now.given journal.now.kept) rows.now }
    ensures row { IsSome result
        → option_copied result ≡ find (is_opened_at opening) rows.now }
    ensures joined { is_some result
        ≡ is_joined_at journal.now.entries mapped.now.sense rows.now opening }
{
    let row = row_at(rows, opening)?;
    if is_joined(row, journal, mapped) {
        Some(row)
    } else {
        None
    }
}

/// The row of the first of these marks whose row the request joins.
fn find_marked<'a, R: Relation>(
    marks: &[Mark],
    rows: &'a [Exchange],
    journal: &Journal<R>,
    mapped: &Mapped<R>,
) -> Option<&'a Exchange>
    requires ordered { RiseBy opening_of rows.now }
    requires here { AllByRecursion (IsAskedHere journal.now.given journal.now.kept) rows.now }
    ensures { option_copied result ≡ option_and_then
        (λ (m : Row). find (is_opened_at m.opening) rows.now)
        (find (is_joined_marked journal.now.entries mapped.now.sense rows.now) marks.now) }
{
    'each: for mark in marks {
        if let Some(row) = joined_at(rows, mark.opening, journal, mapped) {
            return Some(row);
        }
    }
    None
}

/// The digest of the key that is looked for.
fn digest_of(sought: &Lookup<'_>) -> u32
    ensures { result ≡ key_in (digests_of sought.now) }
{
    half_of(sought.digests().key)
}

/// The row that the request joins, where each has the digests of what it was opened for.
pub fn joined<'a, R: Relation>(
    rows: &'a [Exchange],
    keys: &[Mark],
    journal: &Journal<R>,
    mapped: &Mapped<R>,
) -> Option<&'a Exchange>
    requires ordered { RiseBy opening_of rows.now }
    requires marked { AreMarked key_in rows.now keys.now }
    requires digested { AllByRecursion (IsDigested journal.now.entries) rows.now }
    requires here { AllByRecursion (IsAskedHere journal.now.given journal.now.kept) rows.now }
    ensures { option_copied result
        ≡ find (is_joined_by journal.now.entries mapped.now.sense) rows.now }
{
    let Some(sought) = mapped.lookup() else {
        return None;
    };
    let alike = marked(keys, digest_of(&sought));
    find_marked(alike, rows, journal, mapped)
}
