//! What the transformers keep.

use transformers::Relation;

/// What bodies become between the forms of each pair.
pub struct Profile;

impl Relation for Profile {
    ghost use Rattle.route_bank.specs.Profiles.{profile_holds, profile_takes};

    ghost holds = { profile_holds };

    ghost takes = { profile_takes };
}
