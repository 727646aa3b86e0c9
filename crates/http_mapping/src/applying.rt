//! What a bank makes of a body.

ghost use Rattle.std.specs.Prelude.{map, IfOk};
ghost use Rattle.transformers.specs.Keeps.{AllKeep, pair_of};
ghost use Rattle.http_mapping.specs.Showings.{IsApplied};

use http_edge::Memory;
use media_map::Form;
use transformers::{ApplyFault, Bank, Relation};

/// What a bank makes of a body.
#[derive(Drop)]
pub enum Made {
    /// It has no transformer between these forms.
    Nothing,
    /// These bytes.
    Bytes(Vec<u8>),
    /// The content isn't taken, or the other body is too large.
    Failed,
}

/// What the bank makes of a body between these forms.
pub fn applied<R: Relation>(
    bank: &Bank<R>,
    from: &Form,
    to: &Form,
    body: &[u8],
) -> Result<Made, Memory>
    requires keep { AllKeep R.holds R.takes bank.now.stored.items }
    ensures { IfOk result (λ a.
        IsApplied (map pair_of bank.now.stored.items) R.holds R.takes from.now to.now body.now a) }
{
    match bank.apply(from, to, body) {
        Ok(None) => Ok(Made::Nothing),
        Ok(Some(bytes)) => Ok(Made::Bytes(bytes)),
        Err(ApplyFault::Refused) => Ok(Made::Failed),
        Err(ApplyFault::TooLarge) => Ok(Made::Failed),
        Err(ApplyFault::Memory) => Err(Memory),
    }
}
