//! Until when a message is outstanding at the latest.

ghost use Rattle.std.specs.Prelude.{◌≡◌, ◌≤◌};
ghost use Rattle.limits.specs.declared.TheConstants.{LAST_MOMENT};
ghost use Rattle.message_layer.specs.Values.{seen, IsSound, IsSoundOutstanding};
ghost use Rattle.message_layer.specs.Sending.{is_over_by, last_due};

use crate::sending::power;
use crate::state::{Outstanding, State};

/// When the message is given up at the latest: each wait is twice as long as the one before it.
fn last_due(outstanding: &Outstanding) -> u64
    requires { IsSoundOutstanding outstanding.now }
    ensures { result ≡ last_due outstanding.now }
{
    outstanding.sent + outstanding.timeout * (32 - power(outstanding.retransmissions))
}

/// Whether nothing would be outstanding at this moment if all ticks came in time.
pub fn is_over(s: &State, moment: u64) -> bool
    requires { IsSound (seen s.now) }
    ensures { result ≡ is_over_by moment (seen s.now).outstanding }
{
    match &s.outstanding {
        Some(outstanding) => last_due(outstanding) <= moment,
        None => true,
    }
}
