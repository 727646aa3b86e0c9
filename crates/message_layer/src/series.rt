//! Lists that grow at their end, lose items at their front, and share most items with their copies.

ghost use Rattle.std.specs.Prelude.{◌≡◌, ◌<◌, ◌≤◌, ◌+◌, ◌++◌, ◌∷◌, ◌^◌, [], length, drop, get_or, slice_get, IfOk, OnOk};

use crate::earlier::Earlier;
use std::alloc::{AllocError, Global};
use std::marker::Model;

/// How many items are added before they are shared.
const SHARED_AFTER: usize = 64;

/// What can stand in a series. It has a size, so that no more of it fits into memory than can be
/// counted.
pub trait Countable: Copy {
    /// How many there are in both.
    fn count(some: &[Self], others: &[Self]) -> usize
        ensures both { result ≡ length some.now + length others.now }
        ensures few { result < 2 ^ 63 };
}

impl Countable for u64 {
    fn count(some: &[u64], others: &[u64]) -> usize {
        some.len() + others.len()
    }
}

/// A list whose copies share all its items but the last few, so that copying takes no longer the
/// more there are.
#[derive(Drop)]
pub struct Series<T: Countable> {
    earlier: Earlier<T>,
    /// What came after those that are shared.
    last: Vec<T>,
    /// How many of the first items are gone.
    gone: usize,
}

impl<T: Countable> Model for Series<T> {
    ghost use Rattle.std.specs.Prelude.{◌++◌, ◌+◌, ◌-◌, ◌≤◌, drop, length, vec_capacity, vec_len};
    ghost use Rattle.message_layer.specs.Series.{SeriesValue};

    ghost Value = { SeriesValue T };

    ghost view = { λ s. record {
      items = drop s.gone (s.earlier ++ s.last.items);
      room = vec_capacity s.last - vec_len s.last;
    } };

    ghost invariant = { λ s. s.gone ≤ length s.earlier + length s.last.items };
}

/// All but the first ones.
fn after<T>(items: &[T], gone: usize) -> &[T]
    ensures { result.now ≡ drop gone items.now }
{
    if gone < items.len() {
        &items[gone..]
    } else {
        &[]
    }
}

/// What is left of both, in one list.
fn joined<T: Copy>(
    alloc: Global,
    earlier: &[T],
    last: &[T],
    gone: usize,
) -> Result<Vec<T>, AllocError>
    ensures { IfOk result (λ v. v.items ≡ drop gone (earlier.now ++ last.now)) }
{
    let mut items = Vec::from_slice(alloc, after(earlier, gone))?;
    let rest = after(last, gone.saturating_sub(earlier.len()));
    items.extend_from_slice(rest)?;
    Ok(items)
}

impl<T: Countable> Series<T> {
    /// No items.
    pub fn new(alloc: Global) -> Series<T>
        ensures { result.items ≡ [] }
    {
        Series {
            earlier: Earlier::none(),
            last: Vec::new(alloc),
            gone: 0,
        }
    }

    /// Where its items lie.
    pub fn allocator(&self) -> Global {
        *self.last.allocator()
    }

    pub fn len(&self) -> usize
        ensures all { result ≡ length self.now.items }
        ensures few { result < 2 ^ 63 }
    {
        T::count(self.earlier.as_slice(), &self.last).saturating_sub(self.gone)
    }

    /// The item in this place.
    pub fn at(&self, place: usize) -> T
        requires { place < length self.now.items }
        ensures { result ≡ get_or self.now.items place result }
    {
        let earlier = self.earlier.as_slice();
        T::count(earlier, &self.last);
        let place = self.gone + place;
        if place < earlier.len() {
            earlier[place]
        } else {
            self.last[place - earlier.len()]
        }
    }

    /// The first item.
    pub fn first(&self) -> Option<T>
        ensures { result ≡ slice_get self.now.items 0 }
    {
        if self.len() == 0 {
            return None;
        }
        Some(self.at(0))
    }

    /// The first item goes.
    pub fn drop_first(&mut self)
        requires { 0 < length self.old.items }
        ensures items { self.new.items ≡ drop 1 self.old.items }
        ensures room { self.new.room ≡ self.old.room }
    {
        T::count(self.earlier.as_slice(), &self.last);
        self.gone += 1;
    }

    /// The last items are shared from now on.
    #[inline(never)]
    fn share_last(&mut self) -> Result<(), AllocError>
        ensures { self.new.items ≡ self.old.items }
    {
        let alloc = self.allocator();
        let items = joined(alloc, self.earlier.as_slice(), &self.last, self.gone)?;
        self.earlier = Earlier::new(alloc, items)?;
        self.last.clear();
        self.gone = 0;
        Ok(())
    }

    /// Room for one more.
    pub fn reserve(&mut self) -> Result<(), AllocError>
        ensures same { self.new.items ≡ self.old.items }
        ensures ok { OnOk result (0 < self.new.room) }
    {
        if SHARED_AFTER <= self.last.len() {
            self.share_last()?;
        }
        self.last.reserve(1)?;
        Ok(())
    }

    /// One more item comes.
    pub fn push_reserved(&mut self, item: T)
        requires { 0 < self.old.room }
        ensures items { self.new.items ≡ self.old.items ++ item ∷ [] }
    {
        self.last.push_reserved(item);
    }

    /// The same items again.
    pub fn copy(&self, alloc: Global) -> Result<Series<T>, AllocError>
        ensures { IfOk result (λ s. s.items ≡ self.now.items) }
    {
        let last = Vec::from_slice(alloc, &self.last)?;
        Ok(Series {
            earlier: self.earlier.share()?,
            last,
            gone: self.gone,
        })
    }
}
