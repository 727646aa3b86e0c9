//! Pairs in slots, the order in which the slots were used, and the index by which they are found.

ghost use Rattle.std.specs.List.{list_any};
ghost use Rattle.std.specs.Prelude.{◌≡◌, ◌<◌, ◌≤◌, ◌+◌, ◌∷◌, None, Some, drop, false, filter, find, is_some, length, not, take, true, vec_capacity, vec_len, IfOk, OnErr, OnOk};
ghost use Rattle.std.specs.Option.{option_to_list};
ghost use Rattle.cache_key.specs.Keys.{place_of};
ghost use Rattle.resp_cache.specs.Names.{Ascend, named_as, names_slot, rank_in};
ghost use Rattle.resp_cache.specs.Slots.{Puts, slot_at};
ghost use Rattle.resp_cache.specs.Stores.{is_elsewhere, is_of, others};
ghost use Rattle.resp_cache.specs.declared.pair.Pair.{Pair as Row};
ghost use Rattle.resp_cache.specs.Tables.{IsTable, has_free, has_name_room, has_slot_room, has_table_room, pairs_of};

use crate::names::{Named, drop_name, put_name};
use crate::pair::Pair;
use crate::ring::Ring;
use crate::search::{slot_near, slot_of, slot_sought};
use cache_key::{Key, Lookup, Reading};
use limits::MAX_STORED;
use std::alloc::{AllocError, Global};

/// At most 256 pairs, in slots that aren't moved. A slot is opened where none is empty.
#[derive(Drop)]
pub struct Table {
    pub slots: Vec<Option<Pair>>,
    /// The numbers of all slots in the order of their use, the empty ones last.
    pub ring: Ring,
    /// The slots that are taken.
    pub names: Vec<Named>,
}

/// Takes out what stands in the slot.
fn empty_slot(slots: &mut Vec<Option<Pair>>, slot: u16) -> Option<Pair>
    requires { (0 < slot) × (slot ≤ vec_len slots.old) }
    ensures pair { result ≡ slot_at slots.old.items slot }
    ensures puts { Puts slots.old.items slots.new.items slot None }
    ensures len { vec_len slots.new ≡ vec_len slots.old }
    ensures capacity { vec_capacity slots.new ≡ vec_capacity slots.old }
{
    slots[usize::from(slot) - 1].take()
}

/// Puts the pair into the slot.
fn fill_slot(slots: &mut Vec<Option<Pair>>, slot: u16, pair: Pair)
    requires { (0 < slot) × (slot ≤ vec_len slots.old) }
    ensures puts { Puts slots.old.items slots.new.items slot (Some pair) }
    ensures len { vec_len slots.new ≡ vec_len slots.old }
    ensures capacity { vec_capacity slots.new ≡ vec_capacity slots.old }
{
    slots[usize::from(slot) - 1] = Some(pair);
}

/// Takes the slot out of the index, of which this is taken out.
fn drop_taken(names: &mut Vec<Named>, gone: &Option<Pair>, slot: u16)
    requires order { Ascend rank_in names.old.items }
    requires there { filter (names_slot slot) names.old.items ≡ named_as slot gone.now }
    requires some { is_some gone.now ≡ true }
    ensures items { names.new.items ≡ filter (λ n. not (names_slot slot n)) names.old.items }
    ensures len { vec_len names.new + 1 ≡ vec_len names.old }
    ensures capacity { vec_capacity names.new ≡ vec_capacity names.old }
{
    match gone {
        Some(pair) => drop_name(names, pair.key.rank(), slot),
        None => unreachable!(),
    }
}

/// Whether a slot is empty.
fn has_empty(table: &Table) -> bool
    ensures { result ≡ has_free table.now }
{
    table.names.len() < table.slots.len()
}

/// Whether one more pair can be put without memory.
fn has_room(table: &Table) -> bool
    ensures { result ≡ has_table_room table.now }
{
    MAX_STORED <= table.names.len()
        || table.names.len() < table.names.capacity()
            && (has_empty(table)
                || table.slots.len() < table.slots.capacity() && table.ring.has_room())
}

/// Makes room for one more pair.
pub fn make_room(table: &mut Table) -> Result<(), AllocError>
    requires { IsTable table.old }
    ensures pairs { pairs_of table.new ≡ pairs_of table.old }
    ensures ok { OnOk result (has_table_room table.new ≡ true) }
    ensures wanted { OnErr result (has_table_room table.old ≡ false) }
    ensures refused { OnErr result (has_table_room table.new ≡ false) }
    ensures table { IsTable table.new }
{
    if has_room(table) {
        return Ok(());
    }
    table.names.reserve(1)?;
    if !has_empty(table) {
        table.slots.reserve(1)?;
        table.ring.make_room()?;
    }
    Ok(())
}

/// The pair in the slot is used.
pub fn use_slot(table: &mut Table, slot: u16)
    requires table { IsTable table.old }
    requires some { is_some (slot_at table.old.slots.items slot) ≡ true }
    ensures pairs { (p : Row) → slot_at table.old.slots.items slot ≡ Some p
        → pairs_of table.new ≡ p ∷ others p.key (pairs_of table.old) }
    ensures room { has_table_room table.new ≡ has_table_room table.old }
    ensures table { IsTable table.new }
{
    table.ring.move_first(slot);
}

/// Takes out the pair in the slot.
pub fn vacate(table: &mut Table, slot: u16) -> Option<Pair>
    requires table { IsTable table.old }
    requires some { is_some (slot_at table.old.slots.items slot) ≡ true }
    ensures pair { result ≡ slot_at table.old.slots.items slot }
    ensures pairs { (p : Row) → slot_at table.old.slots.items slot ≡ Some p
        → pairs_of table.new ≡ others p.key (pairs_of table.old) }
    ensures free { has_free table.new ≡ true }
    ensures names { has_name_room table.new ≡ true }
    ensures table { IsTable table.new }
{
    let gone = empty_slot(&mut table.slots, slot);
    drop_taken(&mut table.names, &gone, slot);
    table.ring.move_last(slot);
    gone
}

/// Opens one more slot, for which there is room.
fn open_slot(table: &mut Table)
    requires table { IsTable table.old }
    requires few { vec_len table.old.slots < MAX_STORED }
    requires room { has_slot_room table.old ≡ true }
    ensures pairs { pairs_of table.new ≡ pairs_of table.old }
    ensures names { (vec_len table.new.names ≡ vec_len table.old.names)
        × (vec_capacity table.new.names ≡ vec_capacity table.old.names) }
    ensures slots { vec_len table.new.slots ≡ vec_len table.old.slots + 1 }
    ensures table { IsTable table.new }
{
    table.slots.push_reserved(None);
    table.ring.push_last();
}

/// Makes a slot free, for which there is room. Where all are taken that may be, the last pair goes
/// and is answered.
fn make_free(table: &mut Table) -> Option<Pair>
    requires table { IsTable table.old }
    requires room { has_table_room table.old ≡ true }
    ensures kept { pairs_of table.new ≡ take 255 (pairs_of table.old) }
    ensures gone { option_to_list result ≡ drop 255 (pairs_of table.old) }
    ensures free { has_free table.new ≡ true }
    ensures names { has_name_room table.new ≡ true }
    ensures table { IsTable table.new }
{
    if has_empty(table) {
        return None;
    }
    if table.slots.len() < MAX_STORED {
        open_slot(table);
        return None;
    }
    let oldest = table.ring.last();
    vacate(table, oldest)
}

/// Puts the pair into the slot that was used least lately, which is free.
fn fill(table: &mut Table, pair: Pair)
    requires table { IsTable table.old }
    requires free { has_free table.old ≡ true }
    requires names { has_name_room table.old ≡ true }
    requires other { list_any (is_of pair.key) (pairs_of table.old) ≡ false }
    ensures pairs { pairs_of table.new ≡ pair ∷ pairs_of table.old }
    ensures table { IsTable table.new }
{
    let free = table.ring.last();
    put_name(&mut table.names, pair.key.rank(), free);
    fill_slot(&mut table.slots, free, pair);
    table.ring.move_first(free);
}

/// Puts a pair in front, for which there is room. Where that is one too many, the last one goes and
/// is answered.
pub fn put_first(table: &mut Table, pair: Pair) -> Option<Pair>
    requires table { IsTable table.old }
    requires room { has_table_room table.old ≡ true }
    requires other { list_any (is_of pair.key) (pairs_of table.old) ≡ false }
    ensures kept { pairs_of table.new ≡ take MAX_STORED (pair ∷ pairs_of table.old) }
    ensures gone { option_to_list result ≡ drop MAX_STORED (pair ∷ pairs_of table.old) }
    ensures table { IsTable table.new }
{
    let gone = make_free(table);
    fill(table, pair);
    gone
}

/// Takes the key's pair out.
pub fn drop_key(table: &mut Table, key: &Key)
    requires { IsTable table.old }
    ensures pairs { pairs_of table.new ≡ others key.now (pairs_of table.old) }
    ensures room { (find (is_of key.now) (pairs_of table.old) ≡ None
        → has_table_room table.old ≡ true) → has_table_room table.new ≡ true }
    ensures table { IsTable table.new }
{
    if let Some(slot) = slot_of(&table.slots, &table.names, key) {
        vacate(table, slot);
    }
}

/// Takes out the pair of what is looked for.
pub fn drop_sought(table: &mut Table, sought: &Lookup<'_>)
    requires { IsTable table.old }
    ensures pairs { pairs_of table.new ≡ others sought.now (pairs_of table.old) }
    ensures room { has_table_room table.old ≡ true → has_table_room table.new ≡ true }
    ensures table { IsTable table.new }
{
    if let Some(slot) = slot_sought(&table.slots, &table.names, sought) {
        vacate(table, slot);
    }
}

/// Takes the pairs of the place of what is changed out.
pub fn drop_place(table: &mut Table, writing: &Reading<'_>)
    requires { IsTable table.old }
    ensures pairs { let place = place_of writing.now.peer writing.now.target.now in
        pairs_of table.new ≡ filter (is_elsewhere place) (pairs_of table.old) }
    ensures room { has_table_room table.old ≡ true → has_table_room table.new ≡ true }
    ensures table { IsTable table.new }
{
    let changed = Lookup::of(writing);
    'each: while let Some(slot) = slot_near(&table.slots, &table.names, &changed) {
        vacate(table, slot);
    }
}

/// What stands in a slot, which shares its key and its response.
fn share_slot(slot: &Option<Pair>) -> Result<Option<Pair>, AllocError>
    ensures { IfOk result (λ s. s ≡ slot.now) }
{
    match slot {
        Some(pair) => Ok(Some(pair.share()?)),
        None => Ok(None),
    }
}

/// The same slots, whose pairs share their keys and responses.
fn share_slots(alloc: Global, slots: &[Option<Pair>]) -> Result<Vec<Option<Pair>>, AllocError>
    ensures { IfOk result (λ shared. shared.items ≡ slots.now) }
{
    let mut shared = Vec::with_capacity(alloc, slots.len())?;
    'each: for slot in slots {
        shared.push(share_slot(slot)?)?;
    }
    Ok(shared)
}

/// The same pairs in the same slots.
pub fn copy_table(alloc: Global, table: &Table) -> Result<Table, AllocError>
    requires { IsTable table.now }
    ensures pairs { IfOk result (λ t. pairs_of t ≡ pairs_of table.now) }
    ensures table { IfOk result (λ t. IsTable t) }
{
    Ok(Table {
        slots: share_slots(alloc, &table.slots)?,
        ring: table.ring.copy(alloc)?,
        names: Vec::from_slice(alloc, &table.names)?,
    })
}
