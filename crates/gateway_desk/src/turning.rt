//! Why a journal isn't turned over, and what becomes of the passes whose notes stand in it.

ghost use Rattle.std.specs.Prelude.{◌≡◌, ◌+◌, sum_by};

use crate::pass::Pass;
use crate::report::SettleFault;
use exchange_core::RotateFault;
use std::fmt;
use std::sync::ledger::{Book, Ledger};
use transformers::Relation;

/// Why a journal isn't turned over.
#[derive(Clone, Copy, Debug, PartialEq, Eq)]
pub enum TurnReason {
    /// The core doesn't go on with another one yet.
    Rotate(RotateFault),
    /// It doesn't justify what the passes note.
    Settle(SettleFault),
}

impl fmt::Display for TurnReason {
    fn fmt<W: fmt::Write>(&self, f: &mut fmt::Formatter<W>) -> fmt::Result {
        match self {
            TurnReason::Rotate(fault) => write!(f, "{fault}"),
            TurnReason::Settle(fault) => write!(f, "{fault}"),
        }
    }
}

/// A journal isn't turned over, and the passes are handed back.
#[derive(Drop)]
pub struct TurnFault<R: Relation, L: Ledger> {
    pub why: TurnReason,
    pub passes: Vec<Pass<R, L>>,
}

impl<R: Relation, L: Ledger> TurnFault<R, L> {
    /// What the core refuses.
    pub(crate) fn rotate(fault: RotateFault, passes: Vec<Pass<R, L>>) -> TurnFault<R, L>
        ensures why { result.why ≡ TurnReason.Rotate fault }
        ensures passes { result.passes ≡ passes }
    {
        TurnFault {
            why: TurnReason::Rotate(fault),
            passes,
        }
    }

    /// What settling refuses.
    pub(crate) fn settle(fault: SettleFault, passes: Vec<Pass<R, L>>) -> TurnFault<R, L>
        ensures why { result.why ≡ TurnReason.Settle fault }
        ensures passes { result.passes ≡ passes }
    {
        TurnFault {
            why: TurnReason::Settle(fault),
            passes,
        }
    }
}

/// Ends all passes: the book counts their asks no more.
pub(crate) fn spend_all<R: Relation, L: Ledger>(book: &mut Book<L>, passes: Vec<Pass<R, L>>)
    ensures { book.new.total + sum_by (λ p. p.amount) passes.items ≡ book.old.total }
{
    'each: for pass in passes {
        pass.spend(book);
    }
}
