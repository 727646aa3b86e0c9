//! The messages heard, in chains by their IDs, so that one is found without looking at all of them.

ghost use Rattle.std.specs.Prelude.{◌≡◌, ℕ, ◌<◌, ◌≤◌, ◌+◌, ◌++◌, ◌∷◌, ◌^◌, [], length, drop, get_or, nat_lt, IfOk, OnOk, OnErr, true, vec_len};
ghost use Rattle.std.specs.List.{find};
ghost use Rattle.message_layer.specs.Remembering.{is_repeat, IsChained, chain_of, chosen, has_number_room};

use crate::kept::Kept;
use crate::series::{Countable, Series};
use crate::state::Heard;
use std::alloc::{AllocError, Global};

/// How many chains there are: one for each low byte of an ID.
const CHAINS: usize = 256;

impl Countable for u32 {
    fn count(some: &[u32], others: &[u32]) -> usize {
        some.len() + others.len()
    }
}

/// The numbers by which a message is found. Messages are numbered as they are heard, from 1 on. The
/// table of the chains, 1 KiB, is made with the first room for a message.
#[derive(Drop)]
pub struct Chains {
    /// How many messages were forgotten: those numbered up to this are no longer remembered.
    pub forgotten: u32,
    /// For each message that is remembered, the number of the one before it in its chain.
    pub before: Series<u32>,
    /// For each chain, the number of its last message.
    pub last: Vec<u32>,
}

/// The number of the last message of the chain in which this ID stands.
fn last_of(last: &[u32], mid: u16) -> u32
    ensures { result ≡ get_or last.now (chain_of mid) 0 }
{
    match last.get(usize::from(mid) % CHAINS) {
        None => 0,
        Some(number) => *number,
    }
}

fn choose(h: Heard, found: Option<Heard>, mid: u16, moment: u64) -> Option<Heard>
    ensures { result ≡ chosen moment mid h found }
{
    if h.is_repeat(mid, moment) {
        Some(h)
    } else {
        found
    }
}

/// The message with this ID that is remembered, sought back along its chain.
pub fn find_chained(chains: &Chains, messages: &Kept<Heard>, mid: u16, moment: u64) -> Option<Heard>
    requires chained { IsChained chains.now messages.now.items }
    requires whole { messages.now.whole ≡ true }
    ensures { result ≡ find (is_repeat moment mid) messages.now.items }
{
    let mut found = None;
    let mut number = last_of(&chains.last, mid);
    'back: while chains.forgotten < number {
        let place = (number - chains.forgotten - 1) as usize;
        found = choose(messages.at(place), found, mid, moment);
        number = chains.before.at(place);
    }
    found
}

/// The oldest message is forgotten.
pub fn drop_oldest(chains: &mut Chains, messages: &mut Kept<Heard>)
    requires chained { IsChained chains.old messages.old.items }
    requires whole { messages.old.whole ≡ true }
    requires some { 0 < length messages.old.items }
    ensures messages { messages.new.items ≡ drop 1 messages.old.items }
    ensures chained { IsChained chains.new messages.new.items }
    ensures whole { messages.new.whole ≡ true }
    ensures room { messages.new.room ≡ messages.old.room }
    ensures numbers { has_number_room chains.new ≡ has_number_room chains.old }
{
    messages.drop_first();
    chains.before.drop_first();
    chains.forgotten += 1;
}

/// There is a number for one more message.
pub fn has_number(forgotten: u32, count: usize) -> bool
    ensures { result ≡ nat_lt (forgotten + count + 1) (2 ^ 32) }
{
    count < (u32::MAX - forgotten) as usize
}

/// One more message comes into its chain.
fn chain(chains: &mut Chains, messages: &Kept<Heard>, h: &Heard)
    requires chained { IsChained chains.old messages.now.items }
    requires few { chains.old.forgotten + length messages.now.items + 1 < 2 ^ 32 }
    requires room { has_number_room chains.old ≡ true }
    ensures { IsChained chains.new (messages.now.items ++ h.now ∷ []) }
{
    let own = usize::from(h.mid) % CHAINS;
    chains.before.push_reserved(chains.last[own]);
    chains.last[own] = chains.forgotten + messages.len() as u32 + 1;
}

/// One more message comes into its chain, if they are kept.
pub fn chain_if(kept: bool, chains: &mut Chains, messages: &Kept<Heard>, h: &Heard)
    requires chained { kept ≡ true → IsChained chains.old messages.now.items }
    requires few { kept ≡ true → chains.old.forgotten + length messages.now.items + 1 < 2 ^ 32 }
    requires room { has_number_room chains.old ≡ true }
    ensures { kept ≡ true → IsChained chains.new (messages.now.items ++ h.now ∷ []) }
{
    if kept {
        chain(chains, messages, h);
    }
}

impl Chains {
    pub fn new(alloc: Global) -> Chains
        ensures { IsChained result [] }
    {
        Chains {
            forgotten: 0,
            before: Series::new(alloc),
            last: Vec::new(alloc),
        }
    }
}

fn make_table(last: &mut Vec<u32>) -> Result<(), AllocError>
    ensures same { (c : ℕ) → get_or last.new.items c 0 ≡ get_or last.old.items c 0 }
    ensures ok { OnOk result (256 ≤ vec_len last.new) }
{
    if last.len() < CHAINS {
        last.resize(CHAINS, 0)?;
    }
    Ok(())
}

/// Room for one more number.
pub fn make_number_room(chains: &mut Chains) -> Result<(), AllocError>
    ensures forgotten { chains.new.forgotten ≡ chains.old.forgotten }
    ensures before { chains.new.before.items ≡ chains.old.before.items }
    ensures last { (c : ℕ) → get_or chains.new.last.items c 0 ≡ get_or chains.old.last.items c 0 }
    ensures ok { OnOk result (has_number_room chains.new ≡ true) }
{
    chains.before.reserve()?;
    make_table(&mut chains.last)?;
    Ok(())
}

/// The same numbers again.
pub fn copy_chains(alloc: Global, chains: &Chains) -> Result<Chains, AllocError>
    ensures forgotten { IfOk result (λ copy. copy.forgotten ≡ chains.now.forgotten) }
    ensures before { IfOk result (λ copy. copy.before.items ≡ chains.now.before.items) }
    ensures last { IfOk result (λ copy. copy.last.items ≡ chains.now.last.items) }
{
    let before = chains.before.copy(alloc)?;
    let last = Vec::from_slice(alloc, &chains.last)?;
    Ok(Chains {
        forgotten: chains.forgotten,
        before,
        last,
    })
}
