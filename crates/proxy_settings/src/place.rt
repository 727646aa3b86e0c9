//! Where in a text a wrong key stands.

ghost use Rattle.std.specs.Prelude.{◌≡◌, ◌≤◌, ◌+◌, IfSome, length, if◌then◌else◌};
ghost use Rattle.proxy_settings.specs.Files.{lines_in, IsLineOf};

use crate::fault::{Why, Wrong};
use crate::name::Name;
use std::alloc::Global;
use toml::{Table, Value};

/// How many parts of a text are read at most to find a line.
const READS: usize = 64;

/// The line, counted from 1, in which the wrong key first stands with its value; for a missing key,
/// the line of the table that has to have it. None if the key is missing from the whole text, or if
/// the line is not found: memory ran out, or values of many lines stand around it.
pub(crate) fn line_of(alloc: Global, text: &[u8], wrong: &Wrong) -> Option<usize>
    ensures { IsLineOf text.now result }
{
    if wrong.row.is_none() && wrong.why == Why::Missing {
        return None;
    }
    let ends = line_ends(alloc, text)?;
    let mut search = Search::among(ends.len());
    'each: for _ in 0..READS {
        if search.low >= search.high {
            return search.best.checked_add(1);
        }
        let end = *ends.get(search.at)?;
        match toml::table_from_slice(alloc, text.get(..end)?) {
            Ok(table) => search.told(is_there(&table, wrong)),
            Err(_) => search.skip(),
        }
    }
    None
}

/// Where each line ends that has a line end: the place after it.
#[tactic(auto, using(std::proofs::lemmas::List::Sums::count_by_more_no, std::proofs::lemmas::List::Sums::count_by_more_yes))]
fn line_ends(alloc: Global, text: &[u8]) -> Option<Vec<usize>>
    ensures { IfSome result (λ ends. length ends.items + 1 ≡ lines_in text.now) }
{
    let mut ends = Vec::new(alloc);
    'each: for (i, byte) in text.iter().enumerate() {
        if *byte == b'\n' {
            ends.push(i.checked_add(1)?).ok()?;
        }
    }
    Some(ends)
}

/// A search for the first line, counted from 0, such that the text up to its end has what is looked
/// for. A text that ends within a statement cannot be read, and its line is skipped.
#[derive(Clone, Copy)]
struct Search {
    /// The first line that may be it.
    low: usize,
    /// The line after those that may be it, other than `best`.
    high: usize,
    /// The line that is tried.
    at: usize,
    /// The first line known to have it.
    best: usize,
}

impl Search {
    /// A search among so many lines. What comes after them has it.
    fn among(lines: usize) -> Search
        ensures { result.best ≡ lines }
    {
        let mut search = Search {
            low: 0,
            high: lines,
            at: 0,
            best: lines,
        };
        search.halve();
        search
    }

    /// The line in the middle is tried next.
    fn halve(&mut self)
        ensures { self.new.best ≡ self.old.best }
    {
        self.at = self.middle();
    }

    fn middle(&self) -> usize {
        let half = self.high.saturating_sub(self.low) / 2;
        self.low.saturating_add(half)
    }

    /// The text to the end of the line that was tried has it, or hasn't.
    fn told(&mut self, there: bool)
        ensures { self.new.best ≡ (if there then self.old.at else self.old.best) }
    {
        if there {
            self.best = self.at;
            self.high = self.middle();
        } else {
            self.low = self.at.saturating_add(1);
        }
        self.halve();
    }

    /// The text to the end of the line that was tried can't be read.
    fn skip(&mut self)
        ensures { self.new.best ≡ self.old.best }
    {
        self.at = self.at.saturating_add(1);
        if self.at >= self.high {
            self.high = self.middle();
            self.halve();
        }
    }
}

/// Whether the table has what the wrong key is told of.
fn is_there(table: &Table, wrong: &Wrong) -> bool {
    match wrong.row {
        None => value_at(table, wrong.key).is_some(),
        Some((list, number)) => match row_at(table, list, number) {
            None => false,
            Some(row) => wrong.why == Why::Missing || value_at(row, wrong.key).is_some(),
        },
    }
}

/// The value at the key that is shown so.
fn value_at(table: &Table, key: Name) -> Option<&Value> {
    for (name, value) in table.iter() {
        if Name::of(name.as_str()) == key {
            return Some(value);
        }
    }
    None
}

/// The table of that number in an array of tables.
fn row_at(table: &Table, list: Name, number: usize) -> Option<&Table> {
    value_at(table, list)?.as_array()?.get(number)?.as_table()
}
