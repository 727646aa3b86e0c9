//! The pieces that an exchange has fetched.

ghost use Rattle.std.specs.Prelude.{◌≡◌, ◌∷◌, ◌++◌, [], true, filter, map, option_map, IfOk, OnOk};
ghost use Rattle.std.specs.List.{AllByRecursion};
ghost use Rattle.coap_codec.specs.Spelling.{content};
ghost use Rattle.history_laws.specs.Progress.{messages, numbers};
ghost use Rattle.exchange_model.specs.Steps.{heard_in, reply_at};
ghost use Rattle.journal_book.specs.Journals.{IsHere};
ghost use Rattle.exchange_model.specs.Matters.{fetched_in, is_piece_of};
ghost use Rattle.exchange_progress.specs.Pieces.{IsPieceHere};

use coap_codec::{CodecFault, Message, decode};
use exchange_model::Piece;
use journal_book::{Event, Journal};
use std::alloc::{AllocError, Global};
use transformers::Relation;

/// Pieces that were fetched, in order: the numbers of their entries, and the messages.
#[derive(Drop)]
pub struct Earlier {
    pub numbers: Vec<u32>,
    pub messages: Vec<Message>,
}

/// The message that was heard in the entry with this number, if one was.
fn heard_in<R: Relation>(
    alloc: Global,
    journal: &Journal<R>,
    number: u32,
) -> Result<Option<Message>, AllocError>
    requires { IsHere journal.now.given journal.now.kept number }
    ensures { IfOk result (λ o. option_map (λ m. reply_at number (content m)) o
        ≡ heard_in journal.now.entries number) }
{
    let Some(entry) = journal.get(number as usize) else {
        return Ok(None);
    };
    match &entry.event {
        Event::Heard { bytes, .. } => match decode(alloc, bytes.as_slice()) {
            Ok(message) => Ok(Some(message)),
            Err(CodecFault::Memory) => Err(AllocError),
            Err(_) => Ok(None),
        },
        _ => Ok(None),
    }
}

/// Adds the piece, where it is one of the exchange with this opening.
fn add_piece<R: Relation>(
    alloc: Global,
    journal: &Journal<R>,
    opening: u32,
    piece: &Piece,
    earlier: &mut Earlier,
) -> Result<(), AllocError>
    requires { is_piece_of opening piece.now ≡ true
        → IsPieceHere journal.now.given journal.now.kept piece.now }
    ensures messages { OnOk result (map content earlier.new.messages.items
        ≡ map content earlier.old.messages.items
        ++ messages (fetched_in journal.now.entries opening (piece.now ∷ []))) }
    ensures numbers { OnOk result (earlier.new.numbers.items
        ≡ earlier.old.numbers.items
        ++ numbers (fetched_in journal.now.entries opening (piece.now ∷ []))) }
{
    if piece.opening != opening {
        return Ok(());
    }
    if let Some(message) = heard_in(alloc, journal, piece.number)? {
        earlier.numbers.push(piece.number)?;
        earlier.messages.push(message)?;
    }
    Ok(())
}

/// The pieces that the exchange with this opening has fetched, read from the journal.
pub fn fetched_in<R: Relation>(
    alloc: Global,
    journal: &Journal<R>,
    pieces: &[Piece],
    opening: u32,
) -> Result<Earlier, AllocError>
    requires { AllByRecursion (IsPieceHere journal.now.given journal.now.kept)
        (filter (is_piece_of opening) pieces.now) }
    ensures messages { IfOk result (λ x. map content x.messages.items
        ≡ messages (fetched_in journal.now.entries opening pieces.now)) }
    ensures numbers { IfOk result (λ x. x.numbers.items
        ≡ numbers (fetched_in journal.now.entries opening pieces.now)) }
{
    let mut earlier = Earlier {
        numbers: Vec::new(alloc),
        messages: Vec::new(alloc),
    };
    'each: for piece in pieces {
        add_piece(alloc, journal, opening, piece, &mut earlier)?;
    }
    Ok(earlier)
}
