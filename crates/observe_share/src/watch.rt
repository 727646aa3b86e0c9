//! The watches that stand.

ghost use Rattle.std.specs.Prelude.{◌≡◌, ◌==◌, ◌≤◌, ◌<◌, ◌+◌, ◌∷◌, ◌++◌, ◌↔◌, [], filter, map, length, nat_lt, not, true, false, vec_capacity, All, Any, OnOk, OnErr, IfOk, IfNone, IfSome, IsErrOf};
ghost use Rattle.std.specs.Option.{option_copied};
ghost use Rattle.std.specs.List.{position, find, list_any};
ghost use Rattle.cache_key.specs.Keys.{key_of, place_of};
ghost use Rattle.observe_share.specs.Hints.{IsFirstAsked, IsUnwatched};
ghost use Rattle.observe_share.specs.Watches.{is_under, is_of, is_at, is_idle, with_room, without, asked_at, counts_for, if_counts, noticed, told_of, notice_tells};
ghost use Rattle.observe_share.specs.Due.{IsNextDue};
ghost use Rattle.observe_share.specs.declared.fault.WatchFault.{WatchFault};

use crate::fault::WatchFault;
use crate::hints::{HINTS, hint_anew, hints_of, is_hinted, put_hint};
use crate::notice::{Notice, Notified};
use crate::order::newer;
use crate::registration::{IDLE, Registration};
use cache_key::{Lookup, Reading};
use coap_codec::Token;
use std::alloc::{AllocError, Global};
use std::marker::Model;

/// How many may stand.
const LIMIT: usize = 64;

/// The watches that stand, in the order of their registration.
#[derive(Drop)]
pub struct Watch {
    standing: Vec<Registration>,
    /// the places that may be watched
    hints: Vec<bool>,
    /// the least of the moments at which their keys were asked for last
    first: Option<u64>,
}

impl Model for Watch {
    ghost use Rattle.std.specs.Prelude.{◌==◌, ◌&&◌, nat_lt, vec_capacity, vec_len};
    ghost use Rattle.observe_share.specs.Hints.{IsKept};
    ghost use Rattle.observe_share.specs.Watches.{WatchValue};

    ghost Value = { WatchValue };

    ghost view = { λ w. record {
      standing = w.standing.items;
      room = nat_lt (vec_len w.standing) (vec_capacity w.standing) && (vec_len w.hints == 1024);
    } };

    ghost invariant = { λ w. IsKept w.standing.items w.hints.items w.first };
}

/// Whether the registration has the token.
fn has_token(r: &Registration, token: &Token) -> bool
    ensures { result ≡ is_under token.now r.now }
{
    r.token == *token
}

/// The place of the first one under the token.
fn place_under(standing: &[Registration], token: &Token) -> Option<usize>
    ensures { result ≡ position (is_under token.now) standing.now }
{
    standing.iter().position(|r| has_token(r, token))
}

/// Whether the notice counts for the watch.
fn counts(notice: Notice, moment: u64, r: &Registration) -> bool
    ensures { result ≡ counts_for notice moment r.now }
{
    match notice {
        Notice::Update(version) | Notice::Other(Some(version)) => {
            newer(r.version, r.moment, version, moment)
        }
        Notice::Other(None) => true,
    }
}

/// What is sought was asked for at this moment.
fn touch(standing: &mut [Registration], lookup: &Lookup<'_>, moment: u64)
    ensures { standing.new ≡ map (asked_at lookup.now moment) standing.old }
{
    'each: for r in standing {
        r.touch(lookup, moment);
    }
}

/// How many are of other keys than the one that is sought.
fn count_beside(standing: &[Registration], lookup: &Lookup<'_>) -> usize
    ensures { result ≡ length (without (is_of lookup.now) standing.now) }
{
    standing.iter().filter(|r| !r.key.is_sought(lookup)).count()
}

/// The least of the moments at which their keys were asked for last.
fn first_asked(standing: &[Registration]) -> Option<u64>
    ensures { IsFirstAsked standing.now result }
{
    standing.iter().map(|r| r.asked).min()
}

fn drop_key(standing: &mut Vec<Registration>, lookup: &Lookup<'_>)
    ensures items { standing.new.items ≡ without (is_of lookup.now) standing.old.items }
    ensures fewer { length standing.new.items ≤ length standing.old.items }
    ensures capacity { vec_capacity standing.new ≡ vec_capacity standing.old }
{
    standing.retain(|r| !r.key.is_sought(lookup));
}

fn drop_place(standing: &mut Vec<Registration>, lookup: &Lookup<'_>)
    ensures items { standing.new.items ≡ without (is_at lookup.now.place) standing.old.items }
    ensures fewer { length standing.new.items ≤ length standing.old.items }
    ensures capacity { vec_capacity standing.new ≡ vec_capacity standing.old }
{
    standing.retain(|r| !r.key.is_at(lookup));
}

fn drop_idle(standing: &mut Vec<Registration>, moment: u64)
    ensures items { standing.new.items ≡ without (is_idle moment) standing.old.items }
    ensures fewer { length standing.new.items ≤ length standing.old.items }
    ensures capacity { vec_capacity standing.new ≡ vec_capacity standing.old }
{
    standing.retain(|r| !r.is_idle(moment));
}

impl Watch {
    /// No watches.
    pub fn new(alloc: Global) -> Watch
        ensures { result.standing ≡ [] }
    {
        Watch {
            standing: Vec::new(alloc),
            hints: Vec::new(alloc),
            first: None,
        }
    }

    /// How many stand.
    pub fn len(&self) -> usize
        ensures count { result ≡ length self.now.standing }
        ensures few { length self.now.standing ≤ 64 }
    {
        self.standing.len()
    }

    /// Whether no further one may stand.
    pub fn is_full(&self) -> bool
        ensures { result ≡ not (nat_lt (length self.now.standing) 64) }
    {
        self.standing.len() >= LIMIT
    }

    /// All of them, in the order of their registration.
    pub fn as_slice(&self) -> &[Registration]
        ensures all { result.now ≡ self.now.standing }
        ensures few { length self.now.standing ≤ 64 }
    {
        &self.standing
    }

    /// Whether none stands.
    pub fn is_empty(&self) -> bool
        ensures { result ≡ (length self.now.standing == 0) }
    {
        self.standing.is_empty()
    }

    /// Makes room for one more watch, so that registering it takes no memory.
    pub fn make_room(&mut self) -> Result<(), AllocError>
        ensures ok { OnOk result (self.new ≡ with_room self.old) }
        ensures unchanged { OnErr result (self.new ≡ self.old) }
        ensures wanted { OnErr result (self.old.room ≡ false) }
    {
        self.standing.reserve(1)?;
        if self.hints.len() != HINTS {
            self.hints = hints_of(*self.standing.allocator(), &self.standing)?;
        }
        Ok(())
    }

    /// One more watch, for which there is room. A watch of its key that stands is to be forgotten
    /// first.
    pub fn register_in_room(&mut self, registration: Registration)
        requires few { length self.old.standing < 64 }
        requires room { self.old.room ≡ true }
        ensures { self.new.standing ≡ self.old.standing ++ registration ∷ [] }
    {
        put_hint(&mut self.hints, registration.key.rank());
        if self.standing.push(registration).is_err() {
            unreachable!()
        }
        self.first = first_asked(&self.standing);
    }

    /// One more watch, as `register_in_room` does, where room may still have to be made.
    pub fn register(&mut self, registration: Registration) -> Result<(), WatchFault>
        ensures ok { OnOk result (self.new.standing ≡ self.old.standing ++ registration ∷ []) }
        ensures err { OnErr result (self.new ≡ self.old) }
        ensures full { IsErrOf result WatchFault.Full ↔ (64 ≤ length self.old.standing) }
        ensures memory { IsErrOf result WatchFault.Memory → self.old.room ≡ false }
    {
        if self.standing.len() >= LIMIT {
            return Err(WatchFault::Full);
        }
        self.make_room()?;
        self.register_in_room(registration);
        Ok(())
    }

    /// The watch under this token.
    pub fn under(&self, token: &Token) -> Option<&Registration>
        ensures { option_copied result ≡ find (is_under token.now) self.now.standing }
    {
        self.standing.iter().find(|r| has_token(r, token))
    }

    /// The watch for which this notice counts, if one does. Nothing changes.
    pub fn counting(&self, token: &Token, notice: Notice, moment: u64) -> Option<&Registration>
        ensures { option_copied result
            ≡ if_counts notice moment (find (is_under token.now) self.now.standing) }
    {
        let r = self.under(token)?;
        if counts(notice, moment, r) {
            Some(r)
        } else {
            None
        }
    }

    /// What came under this token, at this moment. Where it counts, the watch holds its number and
    /// moment from then on, or ends.
    pub fn notified(&mut self, token: &Token, notice: Notice, moment: u64) -> Notified
        ensures watches { self.new.standing ≡ noticed token.now notice moment self.old.standing }
        ensures told { told_of result
            ≡ notice_tells notice moment (find (is_under token.now) self.old.standing) }
        ensures room { self.old.room ≡ true → self.new.room ≡ true }
    {
        let Some(place) = place_under(&self.standing, token) else {
            return Notified::Unknown;
        };
        if !counts(notice, moment, &self.standing[place]) {
            return Notified::Older;
        }
        match notice {
            Notice::Update(version) => {
                self.standing[place].renew(version, moment);
                Notified::Updated
            }
            Notice::Other(_) => {
                let ended = self.standing.remove(place);
                self.first = first_asked(&self.standing);
                hint_anew(&mut self.hints, &self.standing);
                Notified::Ended(ended)
            }
        }
    }

    /// What is read or changed, as watches are looked through for it; None where there is none of
    /// its place.
    fn sought<'a>(&self, reading: &Reading<'a>) -> Option<Lookup<'a>>
        ensures some { let key =
            key_of reading.now.peer reading.now.target.now reading.now.accept in
            IfSome result (λ lookup. lookup ≡ key) }
        ensures none { let place = place_of reading.now.peer reading.now.target.now in
            result ≡ None → IsUnwatched place self.now.standing }
    {
        if self.standing.is_empty() {
            return None;
        }
        let lookup = Lookup::of(reading);
        if is_hinted(&self.hints, lookup.rank()) {
            Some(lookup)
        } else {
            None
        }
    }

    /// Among which the watches of the place are that is read or changed, in order: none, where it
    /// has no hint.
    pub fn among(&self, reading: &Reading<'_>) -> &[Registration]
        ensures at { let place = place_of reading.now.peer reading.now.target.now in
            filter (is_at place) result.now ≡ filter (is_at place) self.now.standing }
        ensures of { let key = key_of reading.now.peer reading.now.target.now reading.now.accept in
            filter (is_of key) result.now ≡ filter (is_of key) self.now.standing }
    {
        match self.sought(reading) {
            Some(_) => &self.standing,
            None => &[],
        }
    }

    /// What is read was asked for at this moment.
    pub fn touched(&mut self, reading: &Reading<'_>, moment: u64)
        ensures watches { let key =
            key_of reading.now.peer reading.now.target.now reading.now.accept in
            self.new.standing ≡ map (asked_at key moment) self.old.standing }
        ensures room { self.new.room ≡ self.old.room }
    {
        if let Some(lookup) = self.sought(reading) {
            touch(&mut self.standing, &lookup, moment);
            self.first = first_asked(&self.standing);
        }
    }

    /// Whether one of what is read may stand, once those of its key are forgotten.
    pub fn has_place(&self, reading: &Reading<'_>) -> bool
        ensures { let key = key_of reading.now.peer reading.now.target.now reading.now.accept in
            result ≡ nat_lt (length (without (is_of key) self.now.standing)) 64 }
    {
        if self.standing.len() < LIMIT {
            return true;
        }
        match self.sought(reading) {
            Some(lookup) => count_beside(&self.standing, &lookup) < LIMIT,
            None => false,
        }
    }

    /// The watches of what is read are forgotten, since an exchange is opened for it.
    pub fn forget(&mut self, reading: &Reading<'_>)
        ensures watches { let key =
            key_of reading.now.peer reading.now.target.now reading.now.accept in
            self.new.standing ≡ without (is_of key) self.old.standing }
        ensures room { self.old.room ≡ true → self.new.room ≡ true }
    {
        if let Some(lookup) = self.sought(reading) {
            drop_key(&mut self.standing, &lookup);
            self.first = first_asked(&self.standing);
        }
    }

    /// The watches of the place that a write changed are forgotten, since that ended.
    pub fn retire(&mut self, writing: &Reading<'_>)
        ensures watches { let place = place_of writing.now.peer writing.now.target.now in
            self.new.standing ≡ without (is_at place) self.old.standing }
        ensures room { self.old.room ≡ true → self.new.room ≡ true }
    {
        if let Some(lookup) = self.sought(writing) {
            drop_place(&mut self.standing, &lookup);
            self.first = first_asked(&self.standing);
            hint_anew(&mut self.hints, &self.standing);
        }
    }

    /// Whether there is a watch for whose key nobody asked in the last 120,000 ms. No watch is
    /// looked at for it.
    pub fn has_idle(&self, moment: u64) -> bool
        ensures { result ≡ list_any (is_idle moment) self.now.standing }
    {
        match self.first {
            Some(first) => moment.saturating_sub(first) >= IDLE,
            None => false,
        }
    }

    /// The watches for whose keys nobody asked in the last 120,000 ms are forgotten; how many these
    /// are.
    pub fn idle(&mut self, moment: u64) -> usize
        ensures watches { self.new.standing ≡ without (is_idle moment) self.old.standing }
        ensures count { result + length self.new.standing ≡ length self.old.standing }
        ensures room { self.old.room ≡ true → self.new.room ≡ true }
    {
        if !self.has_idle(moment) {
            return 0;
        }
        let before = self.standing.len();
        drop_idle(&mut self.standing, moment);
        self.first = first_asked(&self.standing);
        hint_anew(&mut self.hints, &self.standing);
        before - self.standing.len()
    }

    /// The least moment at which `idle` forgets a watch; None where there is none.
    pub fn next_due(&self) -> Option<u64>
        ensures { IsNextDue self.now.standing result }
    {
        self.first?.checked_add(IDLE)
    }

    /// The same watches, which share their keys.
    pub fn copy(&self) -> Result<Watch, AllocError>
        ensures { IfOk result (λ w. w.standing ≡ self.now.standing) }
    {
        let alloc = *self.standing.allocator();
        let mut standing = Vec::new(alloc);
        'each: for r in &self.standing {
            standing.push(r.share()?)?;
        }
        Ok(Watch {
            standing,
            hints: Vec::from_slice(alloc, &self.hints)?,
            first: self.first,
        })
    }
}
