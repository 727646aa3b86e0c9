//! The messages heard lately, by which a copy is recognised (RFC 7252 sections 4.2 and 4.5).

ghost use Rattle.std.specs.Prelude.{◌≡◌, ◌<◌, ◌≤◌, ◌+◌, ◌-◌, ◌++◌, ◌∷◌, ◌&&◌, [], length, filter, count_by, nat_lt, nat_le, IfOk, OnOk, true};
ghost use Rattle.std.specs.Option.{option_to_list};
ghost use Rattle.std.specs.List.{find};
ghost use Rattle.message_layer.specs.Kept.{is_since};
ghost use Rattle.message_layer.specs.Remembering.{is_fresh, is_repeat, moment_heard, AreInOrder, IsChained, begins_old, has_number_room};

use crate::chains::{
    Chains, chain_if, copy_chains, drop_oldest, find_chained, has_number, make_number_room,
};
use crate::kept::{Kept, Timed};
use crate::series::{Countable, Series};
use crate::state::Heard;
use limits::{EXCHANGE_LIFETIME, MAX_REMEMBERED};
use std::alloc::{AllocError, Global};
use std::marker::Model;

impl Countable for Heard {
    fn count(some: &[Heard], others: &[Heard]) -> usize {
        some.len() + others.len()
    }
}

impl Timed for Heard {
    ghost moment_of = { moment_heard };

    fn moment(&self) -> u64 {
        self.moment
    }
}

/// The CONs and NONs of the peer's that were heard last, the oldest first.
///
/// On a clock that doesn't go back no call looks through them: those that are remembered no more
/// stand in front, and each is taken away once; and one is found by its ID along a chain. Once it
/// went back, or there is no number for one more message, they are looked through.
#[derive(Drop)]
pub struct Remembered {
    messages: Kept<Heard>,
    chains: Chains,
    /// The clock didn't go back between them, and each stands in its chain.
    orderly: bool,
    /// Where it didn't, none is later than this.
    newest: u64,
}

impl Model for Remembered {
    ghost use Rattle.std.specs.Prelude.{◌≡◌, ◌&&◌, nat_lt, true};
    ghost use Rattle.message_layer.specs.Remembering.{MessagesHeard, IsOrderly, has_number_room};

    ghost Value = { MessagesHeard };

    ghost view = { λ m. record {
      messages = m.messages.items;
      room = nat_lt 0 m.messages.room && has_number_room m.chains;
    } };

    ghost invariant = { λ m. m.orderly ≡ true
        → IsOrderly m.newest m.chains m.messages.items × (m.messages.whole ≡ true) };
}

/// The earliest moment at which a message was heard that is still remembered.
fn first_fresh(moment: u64) -> u64
    ensures { result ≡ moment - (EXCHANGE_LIFETIME - 1) }
{
    moment.saturating_sub(EXCHANGE_LIFETIME - 1)
}

/// The message has this ID and is remembered, and it is of a moment or later.
fn is_repeat_since(h: &Heard, since: u64, mid: u16, moment: u64) -> bool
    ensures { result ≡ (is_since moment_heard since h.now && is_repeat moment mid h.now) }
{
    since <= h.moment && h.is_repeat(mid, moment)
}

/// The message with this ID that is remembered, among those of a moment or later.
fn find_since(series: &Series<Heard>, since: u64, mid: u16, moment: u64) -> Option<Heard>
    ensures { result
        ≡ find (is_repeat moment mid) (filter (is_since moment_heard since) series.now.items) }
{
    'each: for i in 0..series.len() {
        let h = series.at(i);
        if is_repeat_since(&h, since, mid, moment) {
            return Some(h);
        }
    }
    None
}

/// The message that came last, if it has this ID and is remembered.
fn find_latest(latest: &Option<Heard>, mid: u16, moment: u64) -> Option<Heard>
    ensures { result ≡ find (is_repeat moment mid) (option_to_list latest.now) }
{
    match latest {
        Some(h) if h.is_repeat(mid, moment) => Some(*h),
        _ => None,
    }
}

/// The message with this ID that is remembered, sought wherever it stands.
#[tactic(auto, using(crate::proofs::KeptLaws::find_kept))]
fn find_any(messages: &Kept<Heard>, mid: u16, moment: u64) -> Option<Heard>
    ensures { result ≡ find (is_repeat moment mid) messages.now.items }
{
    let earlier = find_since(&messages.series, messages.since, mid, moment);
    earlier.or(find_latest(&messages.latest, mid, moment))
}

/// The oldest one is remembered no more.
fn has_old_first(messages: &Kept<Heard>, moment: u64) -> bool
    requires { messages.now.whole ≡ true }
    ensures { result ≡ begins_old moment messages.now.items }
{
    match messages.first() {
        None => false,
        Some(h) => !h.is_fresh(moment),
    }
}

/// Forgets those that are remembered no more, which stand in front.
fn drop_first(chains: &mut Chains, messages: &mut Kept<Heard>, moment: u64)
    requires in_order { AreInOrder messages.old.items }
    requires chained { IsChained chains.old messages.old.items }
    requires whole { messages.old.whole ≡ true }
    ensures messages { messages.new.items ≡ filter (is_fresh moment) messages.old.items }
    ensures chained { IsChained chains.new messages.new.items }
    ensures whole { messages.new.whole ≡ true }
    ensures room { messages.new.room ≡ messages.old.room }
    ensures numbers { has_number_room chains.new ≡ has_number_room chains.old }
{
    'each: while has_old_first(messages, moment) {
        drop_oldest(chains, messages);
    }
}

/// Forgets those that are remembered no more, wherever they stand.
fn drop_any(messages: &mut Kept<Heard>, moment: u64)
    ensures messages { messages.new.items ≡ filter (is_fresh moment) messages.old.items }
    ensures room { messages.old.room ≤ messages.new.room }
{
    messages.drop_before(first_fresh(moment));
}

fn fresh_count(messages: &Kept<Heard>, moment: u64) -> usize
    ensures { result ≡ count_by (is_fresh moment) messages.now.items }
{
    messages.count_since(first_fresh(moment))
}

/// Where as many stand as are remembered at most, the oldest of those tells whether one more can
/// be.
fn has_free_last(messages: &Kept<Heard>, moment: u64) -> bool
    requires whole { messages.now.whole ≡ true }
    requires in_order { AreInOrder messages.now.items }
    requires many { MAX_REMEMBERED ≤ length messages.now.items }
    ensures { result ≡ nat_lt (count_by (is_fresh moment) messages.now.items) MAX_REMEMBERED }
{
    let last = messages.at(messages.len() - MAX_REMEMBERED);
    !last.is_fresh(moment)
}

/// They stay in order: the next one comes no earlier, and has a number.
fn goes_on(orderly: bool, follows: bool, numbered: bool) -> bool
    ensures { result ≡ (orderly && (follows && numbered)) }
{
    orderly && follows && numbered
}

impl Remembered {
    pub fn new(alloc: Global) -> Remembered
        ensures { result.messages ≡ [] }
    {
        Remembered {
            messages: Kept::new(alloc),
            chains: Chains::new(alloc),
            orderly: true,
            newest: 0,
        }
    }

    /// Room for one more.
    pub fn reserve(&mut self) -> Result<(), AllocError>
        ensures same { self.new.messages ≡ self.old.messages }
        ensures ok { OnOk result (self.new.room ≡ true) }
    {
        self.messages.reserve()?;
        make_number_room(&mut self.chains)?;
        Ok(())
    }

    /// The message with this ID that is remembered: of several the oldest.
    pub fn find(&self, mid: u16, moment: u64) -> Option<Heard>
        ensures { result ≡ find (is_repeat moment mid) self.now.messages }
    {
        if self.orderly {
            return find_chained(&self.chains, &self.messages, mid, moment);
        }
        find_any(&self.messages, mid, moment)
    }

    /// One more can be remembered.
    pub fn has_free(&self, moment: u64) -> bool
        ensures { result ≡ nat_lt (count_by (is_fresh moment) self.now.messages) MAX_REMEMBERED }
    {
        if self.messages.len() < MAX_REMEMBERED {
            return true;
        }
        if self.orderly {
            return has_free_last(&self.messages, moment);
        }
        fresh_count(&self.messages, moment) < MAX_REMEMBERED
    }

    /// Forgets those that are remembered no more.
    pub fn drop_old(&mut self, moment: u64)
        ensures messages { self.new.messages ≡ filter (is_fresh moment) self.old.messages }
        ensures room { self.old.room ≡ true → self.new.room ≡ true }
    {
        if self.orderly {
            drop_first(&mut self.chains, &mut self.messages, moment);
        } else {
            drop_any(&mut self.messages, moment);
        }
    }

    fn push_reserved(&mut self, h: Heard)
        requires { self.old.room ≡ true }
        ensures { self.new.messages ≡ self.old.messages ++ h ∷ [] }
    {
        let follows = self.newest <= h.moment;
        let numbered = has_number(self.chains.forgotten, self.messages.len());
        self.orderly = goes_on(self.orderly, follows, numbered);
        chain_if(self.orderly, &mut self.chains, &self.messages, &h);
        self.newest = h.moment;
        self.messages.push_reserved(h);
    }

    /// One more was heard. Those that are remembered no more are forgotten.
    pub fn remember(&mut self, h: Heard)
        requires { self.old.room ≡ true }
        ensures { self.new.messages ≡ filter (is_fresh h.moment) self.old.messages ++ h ∷ [] }
    {
        self.drop_old(h.moment);
        self.push_reserved(h);
    }

    /// An equal value, which shares most of the messages.
    pub fn copy(&self, alloc: Global) -> Result<Remembered, AllocError>
        ensures { IfOk result (λ copy. copy.messages ≡ self.now.messages) }
    {
        let messages = self.messages.copy(alloc)?;
        let chains = copy_chains(alloc, &self.chains)?;
        Ok(Remembered {
            messages,
            chains,
            orderly: self.orderly,
            newest: self.newest,
        })
    }
}
