//! Arrays of tables.

ghost use Rattle.std.specs.Prelude.{◌≡◌};
ghost use Rattle.toml.specs.View.{table_view, view, items_view};
ghost use Rattle.proxy_settings.specs.Steps.{Tests, Finds};
ghost use Rattle.proxy_settings.specs.Members.{IsTable, AreTables, HasRows};

use crate::fault::{SetupFault, Why, Wrong};
use crate::listing::Listing;
use crate::members::items;
use std::alloc::Global;
use toml::{Table, Value};

/// A kind of array of tables.
pub(crate) trait Rows {
    /// What one of its tables stands for.
    type Row: Drop;

    ghost use Rattle.std.specs.Prelude.{List, ℕ};
    ghost use Rattle.toml.specs.Data.{Members};

    ghost key: { Self → List ℕ };

    ghost is_row: { Self → Members → Self.Row → Type 0 };

    /// The key of the array.
    fn key(&self) -> &'static str
        ensures { result.now ≡ key self.now };

    /// Refuses a table that stands for no row.
    fn check(&self, table: &Table) -> Result<(), Wrong>
        ensures { Tests result (is_row self.now (table_view table.now)) };

    /// The row that a table stands for.
    fn read(&self, alloc: Global, table: &Table) -> Result<Self::Row, SetupFault>
        ensures { Finds result (is_row self.now (table_view table.now)) };
}

fn check_row<K: Rows>(kind: &K, number: usize, value: &Value) -> Result<(), Wrong>
    ensures { Tests result (IsTable (K.is_row kind.now) (view value.now)) }
{
    let Some(table) = value.as_table() else {
        return Err(Wrong::at(kind.key(), Why::NotTables));
    };
    match kind.check(table) {
        Ok(()) => Ok(()),
        Err(wrong) => Err(wrong.within(kind.key(), number)),
    }
}

fn check_all<K: Rows>(kind: &K, values: &[Value]) -> Result<(), Wrong>
    ensures { Tests result (AreTables (K.is_row kind.now) (items_view values.now)) }
{
    'each: for (number, value) in values.iter().enumerate() {
        check_row(kind, number, value)?;
    }
    Ok(())
}

fn read_row<K: Rows>(alloc: Global, kind: &K, value: &Value) -> Result<K::Row, SetupFault>
    ensures { Finds result (IsTable (K.is_row kind.now) (view value.now)) }
{
    let Some(table) = value.as_table() else {
        return Err(SetupFault::from(Wrong::at(kind.key(), Why::NotTables)));
    };
    kind.read(alloc, table)
}

fn read_all<K: Rows>(
    alloc: Global,
    kind: &K,
    values: &[Value],
) -> Result<Listing<K::Row>, SetupFault>
    ensures { Finds result (AreTables (K.is_row kind.now) (items_view values.now)) }
{
    let mut rows = Listing::new(alloc);
    'each: for value in values {
        let row = read_row(alloc, kind, value)?;
        rows.push(row)?;
    }
    Ok(rows)
}

/// Refuses a table whose array stands for no rows.
pub(crate) fn check<K: Rows>(kind: &K, table: &Table) -> Result<(), Wrong>
    ensures { Tests result (HasRows (table_view table.now) (K.key kind.now) (K.is_row kind.now)) }
{
    let values = items(table, kind.key())?;
    check_all(kind, values)
}

/// The rows that the array of a table stands for.
pub(crate) fn read<K: Rows>(
    alloc: Global,
    kind: &K,
    table: &Table,
) -> Result<Listing<K::Row>, SetupFault>
    ensures { Finds result (HasRows (table_view table.now) (K.key kind.now) (K.is_row kind.now)) }
{
    let values = items(table, kind.key())?;
    read_all(alloc, kind, values)
}
