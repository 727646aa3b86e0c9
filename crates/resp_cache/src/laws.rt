//! What holds of all stores.

ghost use Rattle.resp_cache.specs.Uses.{TheLastUsedStay};

/// What was used last is served while it is fresh, whatever else is asked of the store, as long as
/// it isn't replaced, its place isn't retired, and fewer than 256 other keys are put or served
/// after it.
pub fn the_last_used_stay()
    ensures { TheLastUsedStay }
{}
