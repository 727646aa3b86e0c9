//! Lists from which everything before a moment can be dropped, wherever it stands.

ghost use Rattle.std.specs.Prelude.{ℕ, ◌≡◌, ◌<◌, ◌≤◌, ◌+◌, ◌++◌, ◌∷◌, ◌^◌, [], length, drop, filter, count_by, get_or, slice_get, if◌then◌else◌, IfOk, OnOk, true};
ghost use Rattle.std.specs.Option.{option_to_list};
ghost use Rattle.message_layer.specs.Kept.{is_since, is_whole, kept};

use crate::series::{Countable, Series};
use std::alloc::{AllocError, Global};
use std::marker::Model;

/// What has a moment.
pub trait Timed: Countable {
    ghost moment_of: { Self → ℕ };

    fn moment(&self) -> u64
        ensures { result ≡ moment_of self.now };
}

impl Timed for u64 {
    ghost moment_of = { λ m. m };

    fn moment(&self) -> u64 {
        *self
    }
}

/// A list of items that each have a moment. Copies share it. Items before a moment can be dropped
/// without allocating: the moment is noted, and heeded until room is made for more.
#[derive(Drop)]
pub struct Kept<T: Timed> {
    pub series: Series<T>,
    /// Items of the series before this moment count as dropped.
    pub since: u64,
    /// An item that came after some were dropped so.
    pub latest: Option<T>,
}

impl<T: Timed> Model for Kept<T> {
    ghost use Rattle.message_layer.specs.Kept.{KeptValue, is_whole, kept, kept_room};

    ghost Value = { KeptValue T };

    ghost view = { λ k. record {
      items = kept T.moment_of k.since k.series.items k.latest;
      room = kept_room k.series.room k.latest;
      whole = is_whole k.since k.latest;
    } };
}

/// How many are of this moment or later.
fn count_since<T: Timed>(series: &Series<T>, since: u64) -> usize
    ensures all { result ≡ count_by (is_since T.moment_of since) series.now.items }
    ensures few { result < 2 ^ 63 }
{
    let mut count = 0;
    'each: for i in 0..series.len() {
        let item = series.at(i);
        if since <= item.moment() {
            count += 1;
        }
    }
    count
}

/// Those that are of this moment or later, by themselves.
fn series_since<T: Timed>(series: &Series<T>, since: u64) -> Result<Series<T>, AllocError>
    ensures { IfOk result (λ s. s.items ≡ filter (is_since T.moment_of since) series.now.items) }
{
    let mut items = Series::new(series.allocator());
    'each: for i in 0..series.len() {
        let item = series.at(i);
        if since <= item.moment() {
            items.reserve()?;
            items.push_reserved(item);
        }
    }
    Ok(items)
}

/// How many of one at most are of this moment or later.
fn count_latest<T: Timed>(latest: &Option<T>, since: u64) -> usize
    ensures all { result ≡ count_by (is_since T.moment_of since) (option_to_list latest.now) }
    ensures one { result ≤ 1 }
{
    match latest {
        Some(item) if since <= item.moment() => 1,
        _ => 0,
    }
}

/// If it is of this moment or later.
fn latest_since<T: Timed>(latest: &Option<T>, since: u64) -> Option<T>
    ensures { option_to_list result
        ≡ filter (is_since T.moment_of since) (option_to_list latest.now) }
{
    match latest {
        Some(item) if since <= item.moment() => Some(*item),
        _ => None,
    }
}

/// The series with the item that came after it, and with nothing in it that was dropped. It is
/// made seldom: only where a clock went back.
#[inline(never)]
fn settled<T: Timed>(
    series: &Series<T>,
    since: u64,
    latest: &Option<T>,
) -> Result<Series<T>, AllocError>
    ensures { IfOk result
        (λ s. s.items ≡ kept T.moment_of since series.now.items latest.now) }
{
    let mut items = series_since(series, since)?;
    if let Some(item) = latest {
        items.reserve()?;
        items.push_reserved(*item);
    }
    Ok(items)
}

impl<T: Timed> Kept<T> {
    pub fn new(alloc: Global) -> Kept<T>
        ensures items { result.items ≡ [] }
        ensures whole { result.whole ≡ true }
    {
        Kept {
            series: Series::new(alloc),
            since: 0,
            latest: None,
        }
    }

    fn is_whole(&self) -> bool
        ensures { result ≡ self.now.whole }
    {
        self.since == 0 && self.latest.is_none()
    }

    /// How many are of this moment or later.
    pub fn count_since(&self, moment: u64) -> usize
        ensures all { result ≡ count_by (is_since T.moment_of moment) self.now.items }
        ensures few { result ≤ 2 ^ 63 }
    {
        count_since(&self.series, self.since.max(moment)) + count_latest(&self.latest, moment)
    }

    pub fn len(&self) -> usize
        ensures all { result ≡ length self.now.items }
        ensures few { result ≤ 2 ^ 63 }
    {
        if self.is_whole() {
            return self.series.len();
        }
        self.count_since(0)
    }

    /// The item in this place.
    pub fn at(&self, place: usize) -> T
        requires whole { self.now.whole ≡ true }
        requires within { place < length self.now.items }
        ensures { result ≡ get_or self.now.items place result }
    {
        self.series.at(place)
    }

    /// The first item.
    pub fn first(&self) -> Option<T>
        requires { self.now.whole ≡ true }
        ensures { result ≡ slice_get self.now.items 0 }
    {
        self.series.first()
    }

    /// The first item goes.
    pub fn drop_first(&mut self)
        requires whole { self.old.whole ≡ true }
        requires some { 0 < length self.old.items }
        ensures items { self.new.items ≡ drop 1 self.old.items }
        ensures room { self.new.room ≡ self.old.room }
        ensures whole { self.new.whole ≡ true }
    {
        self.series.drop_first();
    }

    /// Drops what is before this moment.
    pub fn drop_before(&mut self, moment: u64)
        ensures items { self.new.items ≡ filter (is_since T.moment_of moment) self.old.items }
        ensures room { self.old.room ≤ self.new.room }
    {
        self.since = self.since.max(moment);
        self.latest = latest_since(&self.latest, moment);
    }

    /// Takes out for good what was dropped.
    fn settle(&mut self) -> Result<(), AllocError>
        ensures same { self.new.items ≡ self.old.items }
        ensures whole { self.old.whole ≡ true → self.new.whole ≡ true }
        ensures ok { OnOk result (self.new.whole ≡ true) }
    {
        if self.is_whole() {
            return Ok(());
        }
        self.series = settled(&self.series, self.since, &self.latest)?;
        self.since = 0;
        self.latest = None;
        Ok(())
    }

    /// Room for one more.
    pub fn reserve(&mut self) -> Result<(), AllocError>
        ensures same { self.new.items ≡ self.old.items }
        ensures whole { self.old.whole ≡ true → self.new.whole ≡ true }
        ensures ok { OnOk result (0 < self.new.room) }
    {
        self.settle()?;
        self.series.reserve()
    }

    /// One more item comes.
    pub fn push_reserved(&mut self, item: T)
        requires { 0 < self.old.room }
        ensures items { self.new.items ≡ self.old.items ++ item ∷ [] }
        ensures whole { self.old.whole ≡ true → self.new.whole ≡ true }
    {
        if self.since == 0 {
            self.series.push_reserved(item);
        } else {
            self.latest = Some(item);
        }
    }

    /// The same items again.
    pub fn copy(&self, alloc: Global) -> Result<Kept<T>, AllocError>
        ensures items { IfOk result (λ k. k.items ≡ self.now.items) }
        ensures whole { IfOk result (λ k. k.whole ≡ self.now.whole) }
    {
        Ok(Kept {
            series: self.series.copy(alloc)?,
            since: self.since,
            latest: self.latest,
        })
    }
}
