//! Resources as they are handed in.

ghost use Rattle.std.specs.Prelude.{◌≡◌, ◌++◌, ◌∷◌, [], OnOk, OnErr};
ghost use Rattle.demo_origin.specs.Keeps.{KeepsRelation};
ghost use Rattle.demo_origin.specs.Origins.{EachKeeps};

use crate::behaviour::Behaviour;
use crate::handler::Handler;
use crate::segments::Segments;
use message_layer::Bytes;
use std::alloc::AllocError;

/// A resource as it is handed in.
#[derive(Drop)]
pub struct Resource<H: Behaviour> {
    pub path: Segments,
    /// Its content format (RFC 7252, section 12.3).
    pub format: u16,
    /// How many seconds its responses stay fresh (RFC 7252, section 5.10.5).
    pub max_age: u32,
    /// What it holds at first.
    pub state: Bytes,
    pub handler: Handler<H>,
}

/// Puts one more resource last: how a list is made whose handlers keep the relation.
pub fn install<H: Behaviour>(
    all: &mut Vec<Resource<H>>,
    resource: Resource<H>,
) -> Result<(), AllocError>
    requires all { EachKeeps H.relation all.old.items }
    requires one { KeepsRelation H.relation resource.handler }
    ensures keep { EachKeeps H.relation all.new.items }
    ensures ok { OnOk result (all.new.items ≡ all.old.items ++ resource ∷ []) }
    ensures err { OnErr result (all.new.items ≡ all.old.items) }
{
    all.push(resource)?;
    Ok(())
}
