//! The message IDs that were given, known by when they were given (RFC 7252 section 4.4).

ghost use Rattle.std.specs.Prelude.{◌≡◌, ◌<◌, ◌≤◌, ◌+◌, ◌-◌, ◌++◌, ◌&&◌, [], ◌∷◌, length, filter, count_by, Some, IfOk, OnOk, IsTrue, true, ◌↔◌, nat_le};
ghost use Rattle.message_layer.specs.Mids.{AreRising, is_in_use, begins_unused, pruned, newest_behind};

use crate::kept::Kept;
use limits::{MAX_MESSAGE_IDS, MESSAGE_ID_LIFETIME};
use std::alloc::{AllocError, Global};
use std::marker::Model;

/// The moments at which the last message IDs were given, the oldest first.
///
/// If the clock never goes back, no call looks through them: those that are no longer in use stand
/// in front, and each is removed once.
#[derive(Drop)]
pub struct Mids {
    moments: Kept<u64>,
    /// The clock didn't go back between them.
    rising: bool,
    /// Where it didn't, none is later than this.
    newest: u64,
}

impl Model for Mids {
    ghost use Rattle.std.specs.Prelude.{◌≡◌, true};
    ghost use Rattle.message_layer.specs.Mids.{MidsGiven, IsRising, newest_of};

    ghost Value = { MidsGiven };

    ghost view = { λ m. record {
      moments = m.moments.items;
      newest = newest_of m.rising m.newest;
      room = m.moments.room;
    } };

    ghost invariant = { λ m. m.rising ≡ true
        → IsRising m.newest m.moments.items × (m.moments.whole ≡ true) };
}

fn is_used(given: u64, moment: u64) -> bool
    ensures { result ≡ is_in_use moment given }
{
    moment.saturating_sub(given) < MESSAGE_ID_LIFETIME
}

/// The earliest moment at which an ID was given that is still in use.
fn first_used(moment: u64) -> u64
    ensures { result ≡ moment - (MESSAGE_ID_LIFETIME - 1) }
{
    moment.saturating_sub(MESSAGE_ID_LIFETIME - 1)
}

/// The oldest one is in use no more.
fn has_unused_first(moments: &Kept<u64>, moment: u64) -> bool
    requires { moments.now.whole ≡ true }
    ensures { result ≡ begins_unused moment moments.now.items }
{
    match moments.first() {
        None => false,
        Some(given) => !is_used(given, moment),
    }
}

/// Forgets those that are in use no more, which stand in front.
fn drop_first(moments: &mut Kept<u64>, moment: u64)
    requires rising { AreRising moments.old.items }
    requires whole { moments.old.whole ≡ true }
    ensures items { moments.new.items ≡ filter (is_in_use moment) moments.old.items }
    ensures room { moments.new.room ≡ moments.old.room }
    ensures whole { moments.new.whole ≡ true }
{
    'each: while has_unused_first(moments, moment) {
        moments.drop_first();
    }
}

/// Forgets those that are in use no more, wherever they stand.
fn drop_any(moments: &mut Kept<u64>, moment: u64)
    ensures items { moments.new.items ≡ filter (is_in_use moment) moments.old.items }
    ensures room { moments.old.room ≤ moments.new.room }
{
    moments.drop_before(first_used(moment));
}

fn count_in_use(moments: &Kept<u64>, moment: u64) -> usize
    ensures { result ≡ count_by (is_in_use moment) moments.now.items }
{
    moments.count_since(first_used(moment))
}

/// Where as many stand as may be in use, the oldest alone tells whether an ID is free.
fn has_free_first(moments: &Kept<u64>, waiting: usize, moment: u64) -> bool
    requires whole { moments.now.whole ≡ true }
    requires rising { AreRising moments.now.items }
    requires few { length moments.now.items + waiting ≤ MAX_MESSAGE_IDS }
    requires many { MAX_MESSAGE_IDS ≤ length moments.now.items + waiting }
    ensures { IsTrue result
        ↔ (count_by (is_in_use moment) moments.now.items + waiting < MAX_MESSAGE_IDS) }
{
    has_unused_first(moments, moment)
}

/// The clock goes on without going back.
fn goes_on(rising: bool, newest: u64, moment: u64) -> bool
    ensures { result ≡ (rising && nat_le newest moment) }
{
    rising && newest <= moment
}

impl Mids {
    pub fn new(alloc: Global) -> Mids
        ensures moments { result.moments ≡ [] }
        ensures newest { result.newest ≡ Some 0 }
    {
        Mids {
            moments: Kept::new(alloc),
            rising: true,
            newest: 0,
        }
    }

    /// Room for one more.
    pub fn reserve(&mut self) -> Result<(), AllocError>
        ensures same { self.new.moments ≡ self.old.moments }
        ensures newest { self.new.newest ≡ self.old.newest }
        ensures ok { OnOk result (0 < self.new.room) }
    {
        self.moments.reserve()?;
        Ok(())
    }

    /// One more is given, at this moment.
    pub fn push_reserved(&mut self, moment: u64)
        requires { 0 < self.old.room }
        ensures moments { self.new.moments ≡ self.old.moments ++ moment ∷ [] }
        ensures newest { self.new.newest ≡ newest_behind moment self.old.newest }
    {
        self.rising = goes_on(self.rising, self.newest, moment);
        self.newest = moment;
        self.moments.push_reserved(moment);
    }

    /// Whether one more ID can be given, beside those in use and `waiting` that will be.
    pub fn has_free(&self, waiting: usize, moment: u64) -> bool
        requires { length self.now.moments + waiting ≤ MAX_MESSAGE_IDS }
        ensures { IsTrue result
            ↔ (count_by (is_in_use moment) self.now.moments + waiting < MAX_MESSAGE_IDS) }
    {
        if self.moments.len() + waiting < MAX_MESSAGE_IDS {
            return true;
        }
        if self.rising {
            return has_free_first(&self.moments, waiting, moment);
        }
        count_in_use(&self.moments, moment) + waiting < MAX_MESSAGE_IDS
    }

    /// Forgets those that are in use no more.
    pub fn drop_unused(&mut self, moment: u64)
        ensures moments { self.new.moments ≡ filter (is_in_use moment) self.old.moments }
        ensures newest { self.new.newest ≡ self.old.newest }
        ensures room { self.old.room ≤ self.new.room }
    {
        if self.rising {
            drop_first(&mut self.moments, moment);
        } else {
            drop_any(&mut self.moments, moment);
        }
    }

    /// Forgets those that are in use no more, if there are many.
    pub fn prune(&mut self, waiting: usize, moment: u64)
        requires { waiting ≤ MAX_MESSAGE_IDS }
        ensures moments { self.new.moments ≡ pruned moment waiting self.old.moments }
        ensures newest { self.new.newest ≡ self.old.newest }
        ensures room { self.old.room ≤ self.new.room }
    {
        if self.moments.len() + waiting < MAX_MESSAGE_IDS {
            return;
        }
        self.drop_unused(moment);
    }

    /// An equal value, which shares most of the moments.
    pub fn copy(&self, alloc: Global) -> Result<Mids, AllocError>
        ensures moments { IfOk result (λ copy. copy.moments ≡ self.now.moments) }
        ensures newest { IfOk result (λ copy. copy.newest ≡ self.now.newest) }
    {
        let moments = self.moments.copy(alloc)?;
        Ok(Mids {
            moments,
            rising: self.rising,
            newest: self.newest,
        })
    }
}
