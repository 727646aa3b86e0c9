ghost use Rattle.std.specs.Prelude.{◌≡◌, ◌≢◌, Some, Err, IfOk};
ghost use Rattle.json.specs.Value.{members_view};
ghost use Rattle.serde_json.specs.Data.{Members, no_members};
ghost use Rattle.serde_json.specs.Read.{of_members};
ghost use Rattle.transformers.specs.Puts.{ArePlaced, HasKeys};
ghost use Rattle.transformers.specs.declared.refused.Refused.TheVariants.{Content};

use crate::refused::Refused;
use json::Value;
use std::alloc::Global;
use std::collections::BTreeMap;

/// The place of the last member for each key.
pub(crate) type Places<'a> = BTreeMap<&'a str, usize>;

pub(crate) fn places_of<'a>(
    alloc: Global,
    members: &Vec<(&'a str, Value<'a>)>,
) -> Result<Places<'a>, Refused>
    ensures placed { IfOk result (λ p. (ms : Members)
        → of_members (members_view members.now.items) no_members ≡ Some ms
        → ArePlaced members.now.items p.entries ms × HasKeys ms) }
    ensures memory { result ≢ Err Content }
{
    let mut places = Places::new(alloc);
    'each: for i in 0..members.len() {
        places.insert(members[i].0, i)?;
    }
    Ok(places)
}
