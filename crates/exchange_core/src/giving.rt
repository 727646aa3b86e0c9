//! Entries that leave memory: the first segment of the journal is handed to the caller, and what is
//! named of it is kept.

ghost use Rattle.std.specs.Prelude.{ℕ, ◌≡◌, ◌≤◌, ◌↔◌, ◌++◌, List, None, map, sum_by, true, IfOk, IfSome, IsTrue, OnErr, OnOk};
ghost use Rattle.std.specs.List.{flat_map};
ghost use Rattle.ask_model.specs.Sizes.{capped};
ghost use Rattle.journal_book.specs.Entries.{entry_size};
ghost use Rattle.journal_book.specs.Journals.{Rise, is_among};
ghost use Rattle.journal_book.specs.Views.{item_of};
ghost use Rattle.exchange_model.specs.Here.{HasNumbers};
ghost use Rattle.exchange_core.specs.Giving.{GivesNone, IsGivenOut, ask_of, last_of, named, named_by, number_of, opening_of};
ghost use Rattle.exchange_core.specs.Sound.{IsSound};
ghost use Rattle.exchange_core.specs.States.{seen, state_of};

use crate::state::State;
use exchange_model::{Exchange, Piece, Reader};
use journal_book::Entry;
use limits::MAX_NUMBERED;
use observe_share::Registration;
use resp_cache::Pair;
use std::alloc::{AllocError, Global};
use transformers::Relation;

/// What open exchanges were opened for.
fn name_exchanges(numbers: &mut Vec<u32>, exchanges: &[Exchange]) -> Result<(), AllocError>
    ensures { OnOk result
        (numbers.new.items ≡ numbers.old.items ++ flat_map named_by exchanges.now) }
{
    'each: for exchange in exchanges {
        numbers.push(exchange.ask)?;
        if exchange.observes {
            numbers.push(exchange.opening)?;
        }
    }
    Ok(())
}

/// The replies by which they go on.
fn name_pieces(numbers: &mut Vec<u32>, pieces: &[Piece]) -> Result<(), AllocError>
    ensures { OnOk result (numbers.new.items ≡ numbers.old.items ++ map number_of pieces.now) }
{
    'each: for piece in pieces {
        numbers.push(piece.number)?;
    }
    Ok(())
}

/// The asks of those who wait.
fn name_readers(numbers: &mut Vec<u32>, readers: &[Reader]) -> Result<(), AllocError>
    ensures { OnOk result (numbers.new.items ≡ numbers.old.items ++ map ask_of readers.now) }
{
    'each: for reader in readers {
        numbers.push(reader.ask)?;
    }
    Ok(())
}

/// The asks by which something is observed.
fn name_watches(numbers: &mut Vec<u32>, watches: &[Registration]) -> Result<(), AllocError>
    ensures { OnOk result (numbers.new.items ≡ numbers.old.items ++ map opening_of watches.now) }
{
    'each: for watch in watches {
        numbers.push(watch.opening)?;
    }
    Ok(())
}

/// The last of what each stored response rests on.
fn name_pairs(numbers: &mut Vec<u32>, pairs: &[Pair]) -> Result<(), AllocError>
    ensures { OnOk result (numbers.new.items ≡ numbers.old.items ++ flat_map last_of pairs.now) }
{
    'each: for pair in pairs {
        if let Some(last) = pair.stored.list().last() {
            numbers.push(*last)?;
        }
    }
    Ok(())
}

/// The numbers of the entries that are looked up again, each once, in order.
fn names<R: Relation>(alloc: Global, s: &State<R>) -> Result<Vec<u32>, AllocError>
    ensures rise { IfOk result (λ v. Rise v.items) }
    ensures names { IfOk result (λ v. (n : ℕ)
        → is_among v.items n ≡ is_among (named (state_of s.now)) n) }
{
    let mut numbers = Vec::new(alloc);
    name_exchanges(&mut numbers, s.exchanges.as_slice())?;
    name_pieces(&mut numbers, s.fetched.as_slice())?;
    name_readers(&mut numbers, s.readers.as_slice())?;
    name_watches(&mut numbers, s.watches.as_slice())?;
    let pairs = s.store.to_pairs()?;
    name_pairs(&mut numbers, &pairs)?;
    numbers.sort_unstable();
    numbers.dedup();
    Ok(numbers)
}

/// Whether the numbers of entries, tokens and connections last for another segment.
fn has_numbers<R: Relation>(s: &State<R>) -> bool
    ensures { IsTrue result ↔ HasNumbers (state_of s.now) }
{
    s.journal.given() <= MAX_NUMBERED as usize
        && s.issued <= MAX_NUMBERED
        && s.opened <= MAX_NUMBERED
}

/// What these entries count.
fn size_of<R: Relation>(segment: &[Entry<R>]) -> u64
    ensures { result ≡ capped (sum_by entry_size (map item_of segment.now)) }
{
    let mut bytes: u64 = 0;
    'each: for entry in segment {
        bytes = bytes.saturating_add(entry.size());
    }
    bytes
}

/// Gives the first 1,024 entries out that are in memory, where there are as many and numbers are
/// left. It is refused for memory alone.
pub fn give<R: Relation>(
    alloc: Global,
    s: &mut State<R>,
) -> Result<Option<Vec<Entry<R>>>, AllocError>
    requires { IsSound s.old }
    ensures sound { IsSound s.new }
    ensures given { IfOk result (λ o. IfSome o (λ segment.
        IsGivenOut (map item_of segment.items) (seen s.old) (seen s.new))) }
    ensures none { IfOk result (λ o. o ≡ None → (seen s.new ≡ seen s.old)
        × GivesNone (state_of s.old)) }
    ensures memory { OnErr result (seen s.new ≡ seen s.old) }
{
    if !has_numbers(s) {
        return Ok(None);
    }
    let named = names(alloc, s)?;
    let Some(segment) = s.journal.give(&named)? else {
        return Ok(None);
    };
    s.bytes -= size_of(&segment);
    Ok(Some(segment))
}
