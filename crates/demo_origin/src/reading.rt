//! What a GET is answered.

ghost use Rattle.std.specs.Prelude.{◌≡◌, ◌≤◌, ◌<◌, ◌%◌, ◌^◌, length, true, false, Some, None, IfOk, IfSome};
ghost use Rattle.coap_codec.specs.Spelling.{entries, entry};
ghost use Rattle.coap_codec.specs.Values.{uint, IsBlock, IsShortest};
ghost use Rattle.coap_codec.specs.Writing.{IsInOrder, IsShort};
ghost use Rattle.std.specs.List.{AllByRecursion};
ghost use Rattle.demo_origin.specs.Answers.{Describes, Renews};

use crate::fault::{Memory, out_of_memory};
use crate::state::Held;
use coap_codec::{Block, Opt, number, uint_to};
use std::alloc::Global;

/// The option with the shortest value that stands for a number.
pub(crate) fn number_option(alloc: Global, number: u16, n: u32) -> Result<Opt, Memory>
    ensures number { IfOk result (λ o. o.number ≡ number) }
    ensures value { IfOk result (λ o. (uint o.value.items ≡ n) × IsShortest o.value.items) }
    ensures len { IfOk result (λ o. length o.value.items ≤ 4) }
{
    let value = uint_to(alloc, n).map_err(out_of_memory)?;
    Ok(Opt { number, value })
}

/// How long the state stays fresh.
fn max_age_of(alloc: Global, held: &Held) -> Result<Opt, Memory>
    ensures number { IfOk result (λ o. o.number ≡ 14) }
    ensures value { IfOk result (λ o.
        (uint o.value.items ≡ held.now.max_age) × IsShortest o.value.items) }
    ensures len { IfOk result (λ o. length o.value.items ≤ 4) }
{
    number_option(alloc, number::MAX_AGE, held.max_age)
}

/// The number that stands for a block.
pub(crate) fn block_number(b: Block) -> u32
    requires num { b.num < 2 ^ 20 }
    requires szx { b.szx < 7 }
    ensures { IsBlock b result }
{
    let more = if b.more { 8 } else { 0 };
    16 * b.num + more + u32::from(b.szx)
}

/// The sequence number of the state, by which observers order it.
fn observe_of(alloc: Global, held: &Held) -> Result<Opt, Memory>
    ensures number { IfOk result (λ o. o.number ≡ 6) }
    ensures value { IfOk result (λ o.
        (uint o.value.items ≡ held.now.version % 16777216) × IsShortest o.value.items) }
    ensures len { IfOk result (λ o. length o.value.items ≤ 4) }
{
    number_option(alloc, number::OBSERVE, (held.version % 16_777_216) as u32)
}

/// The Block2 of a piece.
fn block_of(alloc: Global, b: Block) -> Result<Opt, Memory>
    requires num { b.num < 2 ^ 20 }
    requires szx { b.szx < 7 }
    ensures number { IfOk result (λ o. o.number ≡ 23) }
    ensures value { IfOk result (λ o. IsBlock b (uint o.value.items) × IsShortest o.value.items) }
    ensures len { IfOk result (λ o. length o.value.items ≤ 4) }
{
    number_option(alloc, number::BLOCK2, block_number(b))
}

/// The options that describe a whole state.
fn described_whole(alloc: Global, held: &Held) -> Result<Vec<Opt>, Memory>
    ensures describes { IfOk result (λ v. Describes held.now false None (entries v.items)) }
    ensures in_order { IfOk result (λ v. IsInOrder 0 (entries v.items)) }
    ensures short { IfOk result (λ v. AllByRecursion IsShort (entries v.items)) }
{
    let etag = Opt::new(alloc, number::ETAG, &held.version.to_be_bytes()).map_err(out_of_memory)?;
    let format = number_option(alloc, number::CONTENT_FORMAT, u32::from(held.format))?;
    let max_age = max_age_of(alloc, held)?;
    let options = Vec::from_array(alloc, [etag, format, max_age])?;
    Ok(options)
}

/// The options that describe a piece of a state.
fn described_piece(alloc: Global, held: &Held, b: Block) -> Result<Vec<Opt>, Memory>
    requires num { b.num < 2 ^ 20 }
    requires szx { b.szx < 7 }
    ensures describes { IfOk result (λ v. Describes held.now false (Some b) (entries v.items)) }
    ensures in_order { IfOk result (λ v. IsInOrder 0 (entries v.items)) }
    ensures short { IfOk result (λ v. AllByRecursion IsShort (entries v.items)) }
{
    let etag = Opt::new(alloc, number::ETAG, &held.version.to_be_bytes()).map_err(out_of_memory)?;
    let format = number_option(alloc, number::CONTENT_FORMAT, u32::from(held.format))?;
    let max_age = max_age_of(alloc, held)?;
    let block = block_of(alloc, b)?;
    let options = Vec::from_array(alloc, [etag, format, max_age, block])?;
    Ok(options)
}

/// The options that describe a whole state to an observer.
fn told_whole(alloc: Global, held: &Held) -> Result<Vec<Opt>, Memory>
    ensures describes { IfOk result (λ v. Describes held.now true None (entries v.items)) }
    ensures in_order { IfOk result (λ v. IsInOrder 0 (entries v.items)) }
    ensures short { IfOk result (λ v. AllByRecursion IsShort (entries v.items)) }
{
    let etag = Opt::new(alloc, number::ETAG, &held.version.to_be_bytes()).map_err(out_of_memory)?;
    let observe = observe_of(alloc, held)?;
    let format = number_option(alloc, number::CONTENT_FORMAT, u32::from(held.format))?;
    let max_age = max_age_of(alloc, held)?;
    let options = Vec::from_array(alloc, [etag, observe, format, max_age])?;
    Ok(options)
}

/// The options that describe a piece of a state to an observer.
fn told_piece(alloc: Global, held: &Held, b: Block) -> Result<Vec<Opt>, Memory>
    requires num { b.num < 2 ^ 20 }
    requires szx { b.szx < 7 }
    ensures describes { IfOk result (λ v. Describes held.now true (Some b) (entries v.items)) }
    ensures in_order { IfOk result (λ v. IsInOrder 0 (entries v.items)) }
    ensures short { IfOk result (λ v. AllByRecursion IsShort (entries v.items)) }
{
    let etag = Opt::new(alloc, number::ETAG, &held.version.to_be_bytes()).map_err(out_of_memory)?;
    let observe = observe_of(alloc, held)?;
    let format = number_option(alloc, number::CONTENT_FORMAT, u32::from(held.format))?;
    let max_age = max_age_of(alloc, held)?;
    let block = block_of(alloc, b)?;
    let options = Vec::from_array(alloc, [etag, observe, format, max_age, block])?;
    Ok(options)
}

/// The options that describe a state, or a piece of it: ETag, Observe for an observer,
/// Content-Format, Max-Age, and Block2 for a piece.
pub(crate) fn described(
    alloc: Global,
    held: &Held,
    observed: bool,
    b: Option<Block>,
) -> Result<Vec<Opt>, Memory>
    requires { IfSome b (λ b. (b.num < 2 ^ 20) × (b.szx < 7)) }
    ensures describes { IfOk result (λ v. Describes held.now observed b (entries v.items)) }
    ensures in_order { IfOk result (λ v. IsInOrder 0 (entries v.items)) }
    ensures short { IfOk result (λ v. AllByRecursion IsShort (entries v.items)) }
{
    match (observed, b) {
        (false, None) => described_whole(alloc, held),
        (false, Some(b)) => described_piece(alloc, held, b),
        (true, None) => told_whole(alloc, held),
        (true, Some(b)) => told_piece(alloc, held, b),
    }
}

/// The options of a 2.03.
fn renewed_alone(alloc: Global, held: &Held) -> Result<Vec<Opt>, Memory>
    ensures renews { IfOk result (λ v. Renews held.now false (entries v.items)) }
    ensures in_order { IfOk result (λ v. IsInOrder 0 (entries v.items)) }
    ensures short { IfOk result (λ v. AllByRecursion IsShort (entries v.items)) }
{
    let etag = Opt::new(alloc, number::ETAG, &held.version.to_be_bytes()).map_err(out_of_memory)?;
    let max_age = max_age_of(alloc, held)?;
    let options = Vec::from_array(alloc, [etag, max_age])?;
    Ok(options)
}

/// The options of a 2.03 to an observer.
fn renewed_told(alloc: Global, held: &Held) -> Result<Vec<Opt>, Memory>
    ensures renews { IfOk result (λ v. Renews held.now true (entries v.items)) }
    ensures in_order { IfOk result (λ v. IsInOrder 0 (entries v.items)) }
    ensures short { IfOk result (λ v. AllByRecursion IsShort (entries v.items)) }
{
    let etag = Opt::new(alloc, number::ETAG, &held.version.to_be_bytes()).map_err(out_of_memory)?;
    let observe = observe_of(alloc, held)?;
    let max_age = max_age_of(alloc, held)?;
    let options = Vec::from_array(alloc, [etag, observe, max_age])?;
    Ok(options)
}

/// The options that say that a state is valid still: ETag, Observe for an observer, and Max-Age.
pub(crate) fn renewed(alloc: Global, held: &Held, observed: bool) -> Result<Vec<Opt>, Memory>
    ensures renews { IfOk result (λ v. Renews held.now observed (entries v.items)) }
    ensures in_order { IfOk result (λ v. IsInOrder 0 (entries v.items)) }
    ensures short { IfOk result (λ v. AllByRecursion IsShort (entries v.items)) }
{
    if observed {
        renewed_told(alloc, held)
    } else {
        renewed_alone(alloc, held)
    }
}
