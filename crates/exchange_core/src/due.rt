//! When something is due.

ghost use Rattle.std.specs.Prelude.{◌≡◌, ◌≤◌, ◌^◌};
ghost use Rattle.std.specs.List.{AllByRecursion};
ghost use Rattle.exchange_model.specs.Due.{earlier, earliest, deadline, idle_from, next_due};
ghost use Rattle.exchange_model.specs.Hearing.{is_past};
ghost use Rattle.exchange_table.specs.Places.{RiseBy};
ghost use Rattle.exchange_table.specs.Tables.{opening_of};
ghost use Rattle.exchange_core.specs.Due.{IsAskedEarly, IsSince, next_late, next_tick, read_deadline};
ghost use Rattle.exchange_core.specs.Places.{OpenLater};
ghost use Rattle.exchange_core.specs.Sound.{IsSound};
ghost use Rattle.exchange_core.specs.States.{state_of};

use crate::state::State;
use exchange_model::{Exchange, Reader};
use exchange_table::read_by;
use limits::MAX_TRANSMIT_WAIT;
use observe_share::Watch;
use transformers::Relation;

/// Whether the exchange has been open for as long as it may.
pub fn is_past(exchange: &Exchange, moment: u64) -> bool
    ensures { result ≡ is_past moment exchange.now }
{
    moment >= MAX_TRANSMIT_WAIT && exchange.since <= moment - MAX_TRANSMIT_WAIT
}

/// The earlier of two moments, where there are two.
fn earlier(a: Option<u64>, b: Option<u64>) -> Option<u64>
    ensures { result ≡ earlier a b }
{
    match (a, b) {
        (None, b) => b,
        (Some(a), None) => Some(a),
        (Some(a), Some(b)) => Some(a.min(b)),
    }
}

/// The first moment at which an exchange took too long: the first does, which was opened first.
fn earliest_deadline(exchanges: &[Exchange]) -> Option<u64>
    requires early { AllByRecursion IsSince exchanges.now }
    requires ordered { OpenLater exchanges.now }
    ensures { result ≡ earliest deadline exchanges.now }
{
    match exchanges {
        [] => None,
        [first, ..] => Some(first.since + MAX_TRANSMIT_WAIT),
    }
}

/// The first moment at which nobody asked in a while for what is observed.
fn earliest_idle(watches: &Watch) -> Option<u64>
    requires early { AllByRecursion IsAskedEarly watches.now.standing }
    ensures { result ≡ earliest idle_from watches.now.standing }
{
    watches.next_due()
}

/// When a tick has something to do, in a journal that isn't sealed.
pub fn next_due<R: Relation>(s: &State<R>) -> Option<u64>
    requires { IsSound s.now }
    ensures { result ≡ next_due (state_of s.now) }
{
    let deadline = earliest_deadline(s.exchanges.as_slice());
    let idle = earliest_idle(&s.watches);
    earlier(s.endpoints.next_due(), earlier(deadline, idle))
}

/// The moment at which the exchange that the reader waits for took too long.
fn read_deadline(exchanges: &[Exchange], reader: &Reader) -> Option<u64>
    requires early { AllByRecursion IsSince exchanges.now }
    requires ordered { RiseBy opening_of exchanges.now }
    ensures { result ≡ read_deadline exchanges.now reader.now }
{
    let exchange = read_by(exchanges, reader)?;
    Some(exchange.since + MAX_TRANSMIT_WAIT)
}

/// The first such moment, of all who wait.
fn next_late(exchanges: &[Exchange], readers: &[Reader]) -> Option<u64>
    requires early { AllByRecursion IsSince exchanges.now }
    requires ordered { RiseBy opening_of exchanges.now }
    ensures { result ≡ next_late readers.now exchanges.now }
{
    let mut first = None;
    'each: for reader in readers {
        first = earlier(first, read_deadline(exchanges, reader));
    }
    first
}

/// When a tick has something to do: in a sealed journal it answers the asks alone whose exchanges
/// took too long.
pub fn next_tick<R: Relation>(s: &State<R>) -> Option<u64>
    requires { IsSound s.now }
    ensures { result ≡ next_tick (state_of s.now) }
{
    if s.sealed {
        return next_late(s.exchanges.as_slice(), s.readers.as_slice());
    }
    next_due(s)
}
