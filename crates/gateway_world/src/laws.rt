//! What holds of whatever a world took, as the contract of a function that does nothing.

ghost use Rattle.gateway_world.specs.Runs.{WorldsKeepPromises};

use history_claims::in_order;
use transformers::Relation;

/// Whatever inputs a world took, from the beginning on, and by whichever of its calls: what it gave
/// out and its journals keep all that is promised of a run. Only where memory was refused for what a
/// connection asks or is told, so that it was given up, this says nothing.
pub fn worlds_keep_promises<R: Relation>()
    ensures { WorldsKeepPromises R.holds R.takes }
{
    // Its contract says in which order a journal that stands has messages go out.
    in_order();
}
