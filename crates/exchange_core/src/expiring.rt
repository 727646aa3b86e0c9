//! Exchanges that end at a tick.

ghost use Rattle.std.specs.Prelude.{◌≡◌, ◌≤◌, ◌^◌, Bool, filter, map, not, IfOk};
ghost use Rattle.std.specs.List.{AllByRecursion};
ghost use Rattle.limits.specs.declared.TheConstants.{LAST_MOMENT};
ghost use Rattle.exchange_model.specs.declared.kept.Exchange.{Exchange as Row};
ghost use Rattle.exchange_model.specs.Entering.{token_of};
ghost use Rattle.exchange_model.specs.Matters.{IsDigested, left_by};
ghost use Rattle.exchange_model.specs.Hearing.{is_past};
ghost use Rattle.exchange_core.specs.Expiring.{is_over, is_over_by, is_that};
ghost use Rattle.exchange_core.specs.Places.{OpenLater};
ghost use Rattle.exchange_table.specs.Asks.{IsAskedHere};

use crate::due::is_past;
use coap_codec::Token;
use endpoint_table::{Endpoints, GivenUp, find_given_up};
use exchange_model::Exchange;
use exchange_table::Exchanges;
use journal_book::Journal;
use std::alloc::{AllocError, Global};
use transformers::Relation;

/// Whether the exchange ends: it has been open for as long as it may, or the message to which it
/// awaits a reply is given up.
fn is_over(exchange: &Exchange, given: &[GivenUp], moment: u64) -> bool
    ensures { result ≡ is_over_by moment given.now exchange.now }
{
    is_past(exchange, moment)
        || exchange.awaits && is_that(&find_given_up(given, &exchange.peer), &exchange.token)
}

/// Whether the token is that of the message that is given up.
fn is_that(given_up: &Option<Token>, token: &Token) -> bool
    ensures { result ≡ is_that given_up.now token.now }
{
    match given_up {
        Some(given) => given.as_slice() == token.as_slice(),
        None => false,
    }
}

/// The exchanges that have been open for as long as they may. What was opened first is late first,
/// so they stand in front, and of the others one at most is looked at.
pub fn past_exchanges(
    alloc: Global,
    exchanges: &[Exchange],
    moment: u64,
) -> Result<Vec<Exchange>, AllocError>
    requires { OpenLater exchanges.now }
    ensures { IfOk result (λ v. v.items ≡ filter (is_past moment) exchanges.now) }
{
    let mut past = Vec::new(alloc);
    'each: for e in exchanges {
        if !is_past(e, moment) {
            return Ok(past);
        }
        past.push(*e)?;
    }
    Ok(past)
}

/// The exchanges that end, where these messages are given up. Where there are such, all are gone
/// through.
fn over_by(
    alloc: Global,
    exchanges: &[Exchange],
    given: &[GivenUp],
    moment: u64,
) -> Result<Vec<Exchange>, AllocError>
    requires { OpenLater exchanges.now }
    ensures { IfOk result
        (λ v. v.items ≡ filter (is_over_by moment given.now) exchanges.now) }
{
    if given.is_empty() {
        return past_exchanges(alloc, exchanges, moment);
    }
    let mut over = Vec::new(alloc);
    'each: for e in exchanges {
        if is_over(e, given, moment) {
            over.push(*e)?;
        }
    }
    Ok(over)
}

/// The exchanges that end at this moment.
pub fn over_at(
    alloc: Global,
    exchanges: &Exchanges,
    endpoints: &mut Endpoints,
    moment: u64,
) -> Result<Vec<Exchange>, AllocError>
    requires early { moment ≤ LAST_MOMENT }
    requires ordered { OpenLater exchanges.now.exchanges }
    ensures same { endpoints.new.links ≡ endpoints.old.links }
    ensures over { IfOk result (λ v. v.items
        ≡ filter (is_over moment endpoints.old.links) exchanges.now.exchanges) }
{
    let given = endpoints.given_up(moment)?;
    over_by(alloc, exchanges.as_slice(), &given, moment)
}

/// These exchanges have ended: where they were writes, GETs join those of their places no more.
fn outrun_all<R: Relation>(still: &mut Exchanges, journal: &Journal<R>, over: &[Exchange])
    requires digested { AllByRecursion (IsDigested journal.now.entries) still.old.exchanges }
    requires here { AllByRecursion (IsAskedHere journal.now.given journal.now.kept)
        still.old.exchanges }
    requires over { AllByRecursion (IsAskedHere journal.now.given journal.now.kept) over.now }
    ensures { still.new.exchanges
        ≡ left_by journal.now.entries over.now still.old.exchanges }
{
    'each: for e in over {
        still.outrun(journal, e);
    }
}

/// These exchanges end: they leave the table, and where they were writes, GETs join those of their
/// places no more. It takes no memory.
pub fn end_all<R: Relation>(exchanges: &mut Exchanges, journal: &Journal<R>, over: &[Exchange])
    requires digested { AllByRecursion (IsDigested journal.now.entries) exchanges.old.exchanges }
    requires here { AllByRecursion (IsAskedHere journal.now.given journal.now.kept)
        exchanges.old.exchanges }
    requires over { AllByRecursion (IsAskedHere journal.now.given journal.now.kept) over.now }
    ensures { (ends : Row → Bool) → over.now ≡ filter ends exchanges.old.exchanges
        → exchanges.new.exchanges ≡ left_by journal.now.entries over.now
        (filter (λ e. not (ends e)) exchanges.old.exchanges) }
{
    exchanges.remove_all(over);
    outrun_all(exchanges, journal, over);
}

/// The tokens of exchanges.
pub fn tokens_of(alloc: Global, exchanges: &[Exchange]) -> Result<Vec<Token>, AllocError>
    ensures { IfOk result (λ v. v.items ≡ map token_of exchanges.now) }
{
    let mut tokens = Vec::new(alloc);
    'each: for e in exchanges {
        tokens.push(e.token)?;
    }
    Ok(tokens)
}
