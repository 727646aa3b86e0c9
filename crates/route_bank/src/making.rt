//! What transformers make of bodies, and the list of those that routes ask for.

ghost use Rattle.transformers.specs.Keeps.{Fits};
ghost use Rattle.route_bank.specs.Profiles.{kind_holds, kind_takes};

use crate::kind::Kind;
use std::alloc::Global;
use transformers::{Refused, cbor_json, json_cbor, octets_hex};

/// What a transformer of this kind makes of a body. Without one, no content is taken.
pub fn transform(alloc: Global, kind: Option<Kind>, input: &[u8]) -> Result<Vec<u8>, Refused>
    ensures { Fits (kind_holds kind input.now) (kind_takes kind input.now) result }
{
    match kind {
        Some(Kind::CborToJson) => cbor_json(alloc, input),
        Some(Kind::JsonToCbor) => json_cbor(alloc, input),
        Some(Kind::OctetsToHex) => octets_hex(alloc, input),
        None => Err(Refused::Content),
    }
}

/// Puts the transformer between the two forms of a route last: `store_for!(alloc, all, route)`,
/// where `all` is a `Vec<Stored<Profile>>` and `route` a `&(Form, Form)`. Between forms that have
/// no transformer it puts one that takes no content. Where memory is refused, the function returns,
/// as by `?`.
///
/// It is a macro, since no function may hand out boxed closures. A loop of it over routes has the
/// invariant `StandFor` of `specs/Profiles.antt`, and the bank of such a list suits the routes.
#[macro_export]
macro_rules! store_for {
    ($alloc:expr, $all:expr, $route:expr) => {{
        let (alloc, route) = ($alloc, $route);
        let (from, to) = (route.0.copy()?, route.1.copy()?);
        let kind = $crate::kind_between(&from, &to);
        let call: $crate::Call =
            Box::new(alloc, move |input: &[u8]| $crate::transform(alloc, kind, input))?;
        $crate::store(&mut $all, $crate::Stored::new(from, to, call))?;
    }};
}
