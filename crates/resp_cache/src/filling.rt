//! A table's pairs as a list, and the table of a list of pairs.

ghost use Rattle.std.specs.Prelude.{◌≡◌, IfOk};
ghost use Rattle.resp_cache.specs.Slots.{pairs_in};
ghost use Rattle.resp_cache.specs.Stores.{IsStore};
ghost use Rattle.resp_cache.specs.Tables.{IsTable, pairs_of};

use crate::pair::Pair;
use crate::ring::Ring;
use crate::search::pair_at;
use crate::table::{Table, make_room, put_first};
use std::alloc::{AllocError, Global};

/// The pairs in these slots, which share their keys and responses.
fn shared_in(alloc: Global, slots: &[Option<Pair>], order: &[u16]) -> Result<Vec<Pair>, AllocError>
    ensures { IfOk result (λ pairs. pairs.items ≡ pairs_in slots.now order.now) }
{
    let mut pairs = Vec::with_capacity(alloc, order.len())?;
    'each: for slot in order {
        if let Some(pair) = pair_at(slots, *slot) {
            pairs.push(pair.share()?)?;
        }
    }
    Ok(pairs)
}

/// The pairs, the last used first, which share their keys and responses.
pub fn pairs_in_use(alloc: Global, table: &Table) -> Result<Vec<Pair>, AllocError>
    requires { IsTable table.now }
    ensures pairs { IfOk result (λ pairs. pairs.items ≡ pairs_of table.now) }
    ensures store { IfOk result (λ pairs. IsStore pairs.items) }
{
    let order = table.ring.numbers(alloc)?;
    shared_in(alloc, &table.slots, &order)
}

/// The table of these pairs.
pub fn table_of(alloc: Global, mut pairs: Vec<Pair>) -> Result<Table, AllocError>
    requires { IsStore pairs.items }
    ensures pairs { IfOk result (λ t. pairs_of t ≡ pairs.items) }
    ensures table { IfOk result (λ t. IsTable t) }
{
    let mut table = Table {
        slots: Vec::new(alloc),
        ring: Ring::new(alloc),
        names: Vec::new(alloc),
    };
    'each: while let Some(pair) = pairs.pop() {
        make_room(&mut table)?;
        put_first(&mut table, pair);
    }
    Ok(table)
}
