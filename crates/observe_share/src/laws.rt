//! What holds of notifications in any order.

ghost use Rattle.observe_share.specs.Order.{NewestWins};

/// Of notifications that came within 128 s, and whose numbers are those of 2^23 changes of one
/// resource modulo 2^24, the one that was sent last is kept, in whatever order they came.
pub fn newest_wins()
    ensures { NewestWins }
{}
