//! Handlers of either kind.

ghost use Rattle.std.specs.Prelude.{IsErrOf};
ghost use Rattle.demo_origin.specs.Keeps.{Fits};
ghost use Rattle.device_server.specs.Kinds.{IsEither, IsTakenByBoth, relation_of};

use demo_origin::{Behaviour, CoapRequest, Refused, Reply, cell, counter};
use proxy_settings::Kind;
use std::alloc::Global;

/// Devices with cells and counters.
pub struct Kinds;

impl Behaviour for Kinds {
    ghost use Rattle.device_server.specs.Kinds.{kinds};

    ghost relation = { kinds };
}

/// What a resource of that kind makes of a request.
#[tactic(auto, using(crate::proofs::Either::fits_left, crate::proofs::Either::fits_right))]
pub fn answer(
    alloc: Global,
    kind: Kind,
    state: &[u8],
    request: &CoapRequest,
) -> Result<(Vec<u8>, Reply), Refused>
    ensures does { Fits ((relation_of kind).holds state.now request.now) result }
    ensures takes { IsErrOf result Refused.Content
        → ¬ (relation_of kind).takes state.now request.now }
    ensures either { Fits (IsEither state.now request.now) result }
    ensures both { IsErrOf result Refused.Content → ¬ IsTakenByBoth state.now request.now }
{
    match kind {
        Kind::Cell => cell(alloc, state, request),
        Kind::Counter => counter(alloc, state, request),
    }
}
