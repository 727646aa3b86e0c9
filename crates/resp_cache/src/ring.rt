//! Numbers in the order of their use, of which each is moved without going through the others.

ghost use Rattle.std.specs.Prelude.{◌≡◌, ◌<◌, ◌≤◌, ◌+◌, ◌-◌, ◌∷◌, ◌++◌, [], false, get_or, length, true, vec_capacity, vec_len, IfOk, OnErr, OnOk};
ghost use Rattle.resp_cache.specs.Rings.{IsLinked, IsOrder, is_in, last_of, without};

use std::alloc::{AllocError, Global};
use std::marker::Model;

/// The numbers from 1 to so many, the one used last first. Together with 0 they stand in a ring, in
/// which each knows the next older one and the next newer one.
#[derive(Drop)]
pub struct Ring {
    older: Vec<u16>,
    newer: Vec<u16>,
}

impl Model for Ring {
    ghost use Rattle.std.specs.Prelude.{vec_capacity, vec_len};
    ghost use Rattle.resp_cache.specs.Rings.{IsRing, RingValue, has_links_room, numbers_in};

    ghost Value = { RingValue };

    ghost view = { λ r. record {
      items = numbers_in r.older.items;
      room = has_links_room (vec_len r.older) (vec_capacity r.older)
          (vec_len r.newer) (vec_capacity r.newer);
    } };

    ghost invariant = { λ r. IsRing r.older.items r.newer.items };
}

/// Takes the number out of the ring: its neighbours become each other's.
fn unlink(older: &mut Vec<u16>, newer: &mut Vec<u16>, number: u16)
    requires before { get_or newer.old.items number 0 < vec_len older.old }
    requires behind { get_or older.old.items number 0 < vec_len newer.old }
    requires within { (number < vec_len older.old) × (number < vec_len newer.old) }
    ensures linked { (os : _) → is_in number os ≡ true
        → IsLinked older.old.items newer.old.items os
        → IsLinked older.new.items newer.new.items (without number os) }
    ensures len { (vec_len older.new ≡ vec_len older.old)
        × (vec_len newer.new ≡ vec_len newer.old) }
    ensures capacity { (vec_capacity older.new ≡ vec_capacity older.old)
        × (vec_capacity newer.new ≡ vec_capacity newer.old) }
{
    let before = newer[usize::from(number)];
    let behind = older[usize::from(number)];
    older[usize::from(before)] = behind;
    newer[usize::from(behind)] = before;
}

/// Puts the number between 0 and the first one.
fn link_first(older: &mut Vec<u16>, newer: &mut Vec<u16>, number: u16)
    requires first { get_or older.old.items 0 0 < vec_len newer.old }
    requires within { (number < vec_len older.old) × (number < vec_len newer.old) }
    requires some { 0 < number }
    ensures linked { (os : _) → is_in number os ≡ false
        → IsLinked older.old.items newer.old.items os
        → IsLinked older.new.items newer.new.items (number ∷ os) }
    ensures len { (vec_len older.new ≡ vec_len older.old)
        × (vec_len newer.new ≡ vec_len newer.old) }
    ensures capacity { (vec_capacity older.new ≡ vec_capacity older.old)
        × (vec_capacity newer.new ≡ vec_capacity newer.old) }
{
    let first = older[0];
    older[usize::from(number)] = first;
    newer[usize::from(first)] = number;
    older[0] = number;
    newer[usize::from(number)] = 0;
}

/// Puts the number between the last one and 0.
fn link_last(older: &mut Vec<u16>, newer: &mut Vec<u16>, number: u16)
    requires last { get_or newer.old.items 0 0 < vec_len older.old }
    requires within { (number < vec_len older.old) × (number < vec_len newer.old) }
    requires some { 0 < number }
    ensures linked { (os : _) → is_in number os ≡ false
        → IsLinked older.old.items newer.old.items os
        → IsLinked older.new.items newer.new.items (os ++ number ∷ []) }
    ensures len { (vec_len older.new ≡ vec_len older.old)
        × (vec_len newer.new ≡ vec_len newer.old) }
    ensures capacity { (vec_capacity older.new ≡ vec_capacity older.old)
        × (vec_capacity newer.new ≡ vec_capacity newer.old) }
{
    let last = newer[0];
    newer[usize::from(number)] = last;
    older[usize::from(last)] = number;
    newer[0] = number;
    older[usize::from(number)] = 0;
}

/// Puts 0 into the ring, unless it stands there.
fn begin(older: &mut Vec<u16>, newer: &mut Vec<u16>)
    requires same { vec_len newer.old ≡ vec_len older.old }
    requires room { (vec_len older.old + 1 < vec_capacity older.old)
        × (vec_len newer.old + 1 < vec_capacity newer.old) }
    ensures linked { (os : _) → IsLinked older.old.items newer.old.items os
        → IsLinked older.new.items newer.new.items os }
    ensures len { (vec_len older.new ≡ vec_len older.old - 1 + 1)
        × (vec_len newer.new ≡ vec_len older.old - 1 + 1) }
    ensures room { (vec_len older.new < vec_capacity older.new)
        × (vec_len newer.new < vec_capacity newer.new) }
{
    if older.is_empty() {
        older.push_reserved(0);
        newer.push_reserved(0);
    }
}

/// The next older number, or 0.
fn older_in(older: &[u16], number: u16) -> u16
    ensures { result ≡ get_or older.now number 0 }
{
    match older.get(usize::from(number)) {
        Some(next) => *next,
        None => 0,
    }
}

impl Ring {
    /// No numbers.
    pub fn new(alloc: Global) -> Ring
        ensures items { result.items ≡ [] }
        ensures order { IsOrder result.items }
    {
        Ring {
            older: Vec::new(alloc),
            newer: Vec::new(alloc),
        }
    }

    /// The number that was used least lately, or 0.
    pub fn last(&self) -> u16
        ensures { result ≡ last_of 0 self.now.items }
    {
        match self.newer.first() {
            Some(last) => *last,
            None => 0,
        }
    }

    /// Whether one more can be put without memory.
    pub fn has_room(&self) -> bool
        ensures { result ≡ self.now.room }
    {
        self.older.len() + 1 < self.older.capacity() && self.newer.len() + 1 < self.newer.capacity()
    }

    /// Makes room for one more.
    pub fn make_room(&mut self) -> Result<(), AllocError>
        ensures items { self.new.items ≡ self.old.items }
        ensures ok { OnOk result (self.new.room ≡ true) }
        ensures refused { OnErr result (self.new.room ≡ false) }
        ensures order { IsOrder self.new.items }
    {
        self.older.reserve(2)?;
        self.newer.reserve(2)?;
        Ok(())
    }

    /// The number is used: it comes to the front.
    pub fn move_first(&mut self, number: u16)
        requires { is_in number self.old.items ≡ true }
        ensures items { self.new.items ≡ number ∷ without number self.old.items }
        ensures room { self.new.room ≡ self.old.room }
        ensures order { IsOrder self.new.items }
    {
        unlink(&mut self.older, &mut self.newer, number);
        link_first(&mut self.older, &mut self.newer, number);
    }

    /// The number isn't used any more: it comes to the end.
    pub fn move_last(&mut self, number: u16)
        requires { is_in number self.old.items ≡ true }
        ensures items { self.new.items ≡ without number self.old.items ++ number ∷ [] }
        ensures room { self.new.room ≡ self.old.room }
        ensures order { IsOrder self.new.items }
    {
        unlink(&mut self.older, &mut self.newer, number);
        link_last(&mut self.older, &mut self.newer, number);
    }

    /// Puts the next number at the end, for which there is room.
    pub fn push_last(&mut self)
        requires room { self.old.room ≡ true }
        requires few { length self.old.items < 65535 }
        ensures items { self.new.items ≡ self.old.items ++ (length self.old.items + 1) ∷ [] }
        ensures order { IsOrder self.new.items }
    {
        begin(&mut self.older, &mut self.newer);
        let number = self.older.len() as u16;
        self.older.push_reserved(0);
        self.newer.push_reserved(0);
        link_last(&mut self.older, &mut self.newer, number);
    }

    /// The numbers, the one used last first.
    pub fn numbers(&self, alloc: Global) -> Result<Vec<u16>, AllocError>
        ensures { IfOk result (λ numbers. numbers.items ≡ self.now.items) }
    {
        let mut numbers = Vec::with_capacity(alloc, self.older.len())?;
        let mut number = 0;
        'each: for _ in 1..self.older.len() {
            number = older_in(&self.older, number);
            numbers.push(number)?;
        }
        Ok(numbers)
    }

    /// The same numbers in the same order.
    pub fn copy(&self, alloc: Global) -> Result<Ring, AllocError>
        ensures items { IfOk result (λ r. r.items ≡ self.now.items) }
        ensures order { IfOk result (λ r. IsOrder r.items) }
    {
        Ok(Ring {
            older: Vec::from_slice(alloc, &self.older)?,
            newer: Vec::from_slice(alloc, &self.newer)?,
        })
    }
}
