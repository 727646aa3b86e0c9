//! The store.

ghost use Rattle.std.specs.Prelude.{◌≡◌, ◌≤◌, ◌==◌, ◌&&◌, [], drop, filter, find, is_some, length, not, take, IfOk, IfSome, None, OnErr, OnOk, true, false};
ghost use Rattle.std.specs.Option.{option_copied, option_to_list};
ghost use Rattle.limits.specs.declared.TheConstants.{MAX_STORED};
ghost use Rattle.cache_key.specs.Keys.{place_of};
ghost use Rattle.resp_cache.specs.Stored.{is_never_fresh};
ghost use Rattle.resp_cache.specs.Stores.{IsStore, is_of, is_elsewhere, is_fresh_under, others, placed, served, stale_under, with_moved, with_room};
ghost use Rattle.resp_cache.specs.Slots.{slot_at};
ghost use Rattle.resp_cache.specs.Tables.{IsTable, has_table_room, pairs_of};

use crate::filling::{pairs_in_use, table_of};
use crate::pair::Pair;
use crate::ring::Ring;
use crate::search::{pair_at, slot_of, slot_sought};
use crate::stored::StoredResponse;
use crate::table::{
    Table, copy_table, drop_key, drop_place, drop_sought, make_room, put_first, use_slot,
};
use cache_key::{Key, Lookup, Reading};
use std::alloc::{AllocError, Global};
use std::marker::Model;

/// At most 256 pairs, the last used first. No key stands twice.
#[derive(Drop)]
pub struct Store {
    table: Table,
}

impl Model for Store {
    ghost use Rattle.resp_cache.specs.Stores.{StoreValue};
    ghost use Rattle.resp_cache.specs.Tables.{IsTable, has_table_room, pairs_of};

    ghost Value = { StoreValue };

    ghost view = { λ s. record { pairs = pairs_of s.table; room = has_table_room s.table } };

    ghost invariant = { λ s. IsTable s.table };
}

/// The pair of what is looked for.
fn pair_under<'a>(table: &'a Table, sought: &Lookup<'_>) -> Option<&'a Pair>
    requires { IsTable table.now }
    ensures { option_copied result ≡ find (is_of sought.now) (pairs_of table.now) }
{
    let slot = slot_sought(&table.slots, &table.names, sought)?;
    pair_at(&table.slots, slot)
}

/// The slot of the pair of what is looked for, if its response is fresh.
fn slot_fresh(table: &Table, sought: &Lookup<'_>, moment: u64) -> Option<u16>
    requires { IsTable table.now }
    ensures some { IfSome result (λ s.
        IfSome (slot_at table.now.slots.items s) (λ p. is_fresh_under sought.now moment p ≡ true)
        × (is_some (slot_at table.now.slots.items s) ≡ true)) }
    ensures none { result ≡ None
        → find (is_fresh_under sought.now moment) (pairs_of table.now) ≡ None }
{
    let slot = slot_sought(&table.slots, &table.names, sought)?;
    let found = pair_at(&table.slots, slot)?;
    if found.stored.is_fresh(moment) {
        Some(slot)
    } else {
        None
    }
}

/// Whether the response is put where no pair stands yet.
fn wants_room(table: &Table, key: &Key, stored: &StoredResponse) -> bool
    requires { IsTable table.now }
    ensures { result ≡ (not (is_some (find (is_of key.now) (pairs_of table.now)))
        && not (is_never_fresh stored.now)) }
{
    if let Some(_) = slot_of(&table.slots, &table.names, key) {
        false
    } else {
        !stored.is_never_fresh()
    }
}

/// Puts a response in front, in place of the key's own, unless it is never fresh. Room is needed
/// only where the key has no pair.
fn put_pair(table: &mut Table, key: Key, stored: StoredResponse) -> Option<Pair>
    requires table { IsTable table.old }
    requires room { find (is_of key) (pairs_of table.old) ≡ None
        → is_never_fresh stored ≡ false → has_table_room table.old ≡ true }
    ensures kept { pairs_of table.new ≡ take MAX_STORED (placed key stored (pairs_of table.old)) }
    ensures gone { option_to_list result
        ≡ drop MAX_STORED (placed key stored (pairs_of table.old)) }
    ensures table { IsTable table.new }
{
    drop_key(table, &key);
    if stored.is_never_fresh() {
        return None;
    }
    put_first(table, Pair { key, stored })
}

impl Store {
    /// No pairs.
    pub fn new(alloc: Global) -> Store
        ensures { result.pairs ≡ [] }
    {
        Store {
            table: Table {
                slots: Vec::new(alloc),
                ring: Ring::new(alloc),
                names: Vec::new(alloc),
            },
        }
    }

    /// How many pairs there are.
    pub fn len(&self) -> usize
        ensures count { result ≡ length self.now.pairs }
        ensures store { IsStore self.now.pairs }
    {
        self.table.names.len()
    }

    /// Whether there is none.
    pub fn is_empty(&self) -> bool
        ensures { result ≡ (length self.now.pairs == 0) }
    {
        self.table.names.is_empty()
    }

    /// The response to what is looked for, if it is fresh at this moment in milliseconds.
    pub fn fresh(&self, sought: &Lookup<'_>, moment: u64) -> Option<&StoredResponse>
        ensures { option_copied result ≡ served sought.now moment self.now.pairs }
    {
        let pair = pair_under(&self.table, sought)?;
        if pair.stored.is_fresh(moment) {
            Some(&pair.stored)
        } else {
            None
        }
    }

    /// The response that is fresh is used: its pair comes to the front.
    pub fn touch(&mut self, sought: &Lookup<'_>, moment: u64)
        ensures { self.new ≡ with_moved sought.now moment self.old }
    {
        if let Some(slot) = slot_fresh(&self.table, sought, moment) {
            use_slot(&mut self.table, slot);
        }
    }

    /// The response to what is looked for, if it isn't fresh any more.
    pub fn stale(&self, sought: &Lookup<'_>, moment: u64) -> Option<&StoredResponse>
        ensures { option_copied result ≡ stale_under sought.now moment self.now.pairs }
    {
        let old = pair_under(&self.table, sought)?;
        if old.stored.is_fresh(moment) {
            None
        } else {
            Some(&old.stored)
        }
    }

    /// Makes room for one more response, so that putting it takes no memory.
    pub fn make_room(&mut self) -> Result<(), AllocError>
        ensures ok { OnOk result (self.new ≡ with_room self.old) }
        ensures unchanged { OnErr result (self.new ≡ self.old) }
        ensures wanted { OnErr result (self.old.room ≡ false) }
    {
        make_room(&mut self.table)
    }

    /// Puts a response in front, in place of the key's own, and answers the pair that goes where
    /// there is one too many. A response whose Max-Age is 0 isn't stored, and takes the key's pair
    /// out.
    pub fn put_in_room(&mut self, key: Key, stored: StoredResponse) -> Option<Pair>
        requires { self.old.room ≡ true }
        ensures kept { self.new.pairs ≡ take MAX_STORED (placed key stored self.old.pairs) }
        ensures evicted { option_to_list result
            ≡ drop MAX_STORED (placed key stored self.old.pairs) }
    {
        put_pair(&mut self.table, key, stored)
    }

    /// Puts a response as `put_in_room` does, where room may still have to be made. Memory may be
    /// wanted for a key that has no pair.
    pub fn put(&mut self, key: Key, stored: StoredResponse) -> Result<Option<Pair>, AllocError>
        ensures kept { OnOk result
            (self.new.pairs ≡ take MAX_STORED (placed key stored self.old.pairs)) }
        ensures evicted { IfOk result
            (λ e. option_to_list e ≡ drop MAX_STORED (placed key stored self.old.pairs)) }
        ensures unchanged { OnErr result (self.new ≡ self.old) }
        ensures new_key { OnErr result (find (is_of key) self.old.pairs ≡ None) }
        ensures storable { OnErr result (is_never_fresh stored ≡ false) }
    {
        if wants_room(&self.table, &key, &stored) {
            make_room(&mut self.table)?;
        }
        Ok(put_pair(&mut self.table, key, stored))
    }

    /// Takes out the key's response, fresh or not.
    pub fn take_out(&mut self, key: &Key)
        ensures pairs { self.new.pairs ≡ others key.now self.old.pairs }
        ensures few { length self.new.pairs ≤ MAX_STORED }
        ensures room { self.old.room ≡ true → self.new.room ≡ true }
    {
        drop_key(&mut self.table, key);
    }

    /// Takes out the response to what is looked for, fresh or not.
    pub fn outdate(&mut self, sought: &Lookup<'_>)
        ensures pairs { self.new.pairs ≡ others sought.now self.old.pairs }
        ensures few { length self.new.pairs ≤ MAX_STORED }
        ensures room { self.old.room ≡ true → self.new.room ≡ true }
    {
        drop_sought(&mut self.table, sought);
    }

    /// Takes out the responses of the place that a write changed, which ended.
    pub fn retire(&mut self, writing: &Reading<'_>)
        ensures pairs { let place = place_of writing.now.peer writing.now.target.now in
            self.new.pairs ≡ filter (is_elsewhere place) self.old.pairs }
        ensures room { self.old.room ≡ true → self.new.room ≡ true }
    {
        drop_place(&mut self.table, writing);
    }

    /// The same pairs, which share their keys and responses.
    pub fn copy(&self) -> Result<Store, AllocError>
        ensures { IfOk result (λ s. s.pairs ≡ self.now.pairs) }
    {
        let alloc = *self.table.slots.allocator();
        Ok(Store {
            table: copy_table(alloc, &self.table)?,
        })
    }

    /// The pairs in their order, which share their keys and responses.
    pub fn to_pairs(&self) -> Result<Vec<Pair>, AllocError>
        ensures pairs { IfOk result (λ pairs. pairs.items ≡ self.now.pairs) }
        ensures store { IfOk result (λ pairs. IsStore pairs.items) }
    {
        let alloc = *self.table.slots.allocator();
        pairs_in_use(alloc, &self.table)
    }

    /// The store of these pairs.
    pub fn from_pairs(alloc: Global, pairs: Vec<Pair>) -> Result<Store, AllocError>
        requires { IsStore pairs.items }
        ensures { IfOk result (λ s. s.pairs ≡ pairs.items) }
    {
        Ok(Store {
            table: table_of(alloc, pairs)?,
        })
    }
}
