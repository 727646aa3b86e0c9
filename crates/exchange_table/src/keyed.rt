//! Exchanges that read what is under a key, found by its digest.

ghost use Rattle.std.specs.Prelude.{◌≡◌, find};
ghost use Rattle.std.specs.List.{AllByRecursion, list_any};
ghost use Rattle.exchange_model.specs.Matters.{IsDigested, is_reading};
ghost use Rattle.exchange_table.specs.Asks.{IsAskedHere};
ghost use Rattle.exchange_table.specs.Joining.{is_reading_at, is_reading_marked};
ghost use Rattle.exchange_table.specs.Marks.{AreMarked, key_in};
ghost use Rattle.exchange_table.specs.Places.{RiseBy};
ghost use Rattle.exchange_table.specs.Tables.{opening_of};

use crate::joining::row_at;
use crate::marks::{Mark, half_of, marked};
use crate::outrunning::asked;
use cache_key::Key;
use exchange_model::Exchange;
use journal_book::Journal;
use transformers::Relation;

/// Whether the row reads what is under the key.
pub fn reads<R: Relation>(row: &Exchange, journal: &Journal<R>, key: &Key) -> bool
    requires { IsAskedHere journal.now.given journal.now.kept row.now }
    ensures { result ≡ is_reading journal.now.entries key.now row.now }
{
    let Some(mapped) = asked(journal, row.ask) else {
        return false;
    };
    match mapped.reading() {
        Some(reading) => key.is_of(&reading),
        None => false,
    }
}

/// Whether the row that the entry with this number opened does.
fn reads_at<R: Relation>(rows: &[Exchange], opening: u32, journal: &Journal<R>, key: &Key) -> bool
    requires ordered { RiseBy opening_of rows.now }
    requires here { AllByRecursion (IsAskedHere journal.now.given journal.now.kept) rows.now }
    ensures { result ≡ is_reading_at journal.now.entries key.now rows.now opening }
{
    match row_at(rows, opening) {
        Some(row) => reads(row, journal, key),
        None => false,
    }
}

/// Whether any row reads what is under the key, where each has the digests of what it was opened
/// for.
pub fn is_read<R: Relation>(
    rows: &[Exchange],
    keys: &[Mark],
    journal: &Journal<R>,
    key: &Key,
) -> bool
    requires ordered { RiseBy opening_of rows.now }
    requires keyed { AreMarked key_in rows.now keys.now }
    requires digested { AllByRecursion (IsDigested journal.now.entries) rows.now }
    requires here { AllByRecursion (IsAskedHere journal.now.given journal.now.kept) rows.now }
    ensures { result ≡ list_any (is_reading journal.now.entries key.now) rows.now }
{
    let alike = marked(keys, half_of(key.digests().key));
    alike
        .iter()
        .any(|mark| reads_at(rows, mark.opening, journal, key))
}
