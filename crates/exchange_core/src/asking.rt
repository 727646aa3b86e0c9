//! Asks.

ghost use Rattle.std.specs.Prelude.{ℕ, ◌≡◌, ◌≤◌, ◌^◌, Option, false, OnOk, IfOk, Err, OnErr, ◌⊎◌};
ghost use Rattle.ask_model.specs.Datagrams.{asked_peer};
ghost use Rattle.ask_model.specs.Sizes.{came_size};
ghost use Rattle.std.specs.Arc.{arc_value};
ghost use Rattle.limits.specs.declared.TheConstants.{LAST_MOMENT, MAX_REQUEST_SIZE};
ghost use Rattle.journal_book.specs.Views.{ask_of};
ghost use Rattle.exchange_model.specs.Resting.{HasConn};
ghost use Rattle.exchange_core.specs.Calls.{IsAsked};
ghost use Rattle.exchange_core.specs.Joining.{MayJoin};
ghost use Rattle.exchange_core.specs.Places.{id_of};
ghost use Rattle.exchange_table.specs.Places.{RiseBy};
ghost use Rattle.exchange_core.specs.Recalling.{MayRecall};
ghost use Rattle.exchange_core.specs.Refusing.{MayRefuse, BeginsNothing};
ghost use Rattle.exchange_core.specs.Sound.{IsSound};
ghost use Rattle.exchange_core.specs.States.{state_of, seen, number_in};

use crate::answer::Ticket;
use crate::beginning::{Begun, begin};
use crate::draft::Draft;
use crate::fault::AskFault;
use crate::joining::{find_joined, join};
use crate::numbering::token_of;
use crate::places::conn_place;
use crate::recalling::{find_stored, recall};
use crate::refusing::refuse;
use crate::state::State;
use ask_model::{Cause, Mapped, Meaning};
use exchange_model::Conn;
use limits::MAX_EXCHANGES;
use resp_cache::StoredResponse;
use std::alloc::Global;
use std::sync::Arc;
use transformers::Relation;
use uri_map::Peer;

/// Whether the connection is open and waits for no answer.
pub fn check_idle(conns: &[Conn], id: u32) -> Result<(), AskFault>
    requires { RiseBy id_of conns.now }
    ensures ok { OnOk result (HasConn conns.now id None) }
    ensures unknown { result ≡ Err AskFault.Unknown → (p : Option ℕ) → HasConn conns.now id p → ⊥ }
    ensures pending { result ≡ Err AskFault.Pending → (k : ℕ) × HasConn conns.now id (Some k) }
    ensures others { OnErr result ((result ≡ Err AskFault.Unknown)
        ⊎ (result ≡ Err AskFault.Pending)) }
{
    match conn_place(conns, id) {
        Some(place) => match conns[place].pending {
            None => Ok(()),
            Some(_) => Err(AskFault::Pending),
        },
        None => Err(AskFault::Unknown),
    }
}

/// Enters an ask that begins nothing, and answers it by the proxy itself.
fn turn_away<R: Relation>(
    alloc: Global,
    s: &mut State<R>,
    moment: u64,
    word: u64,
    conn: u32,
    mapped: Arc<Mapped<R>>,
    cause: Cause,
) -> Result<Ticket<R>, AskFault>
    requires sound { IsSound s.old }
    requires unsealed { s.old.sealed ≡ false }
    requires later { s.old.moment ≤ moment }
    requires early { moment ≤ LAST_MOMENT }
    requires idle { HasConn s.old.conns.items conn None }
    requires refused { MayRefuse moment conn (ask_of (arc_value mapped)) cause (state_of s.old) }
    requires nothing { BeginsNothing moment (ask_of (arc_value mapped)) (state_of s.old) }
    ensures sound { IsSound s.new }
    ensures asks { IsAsked (number_in result) moment word conn (ask_of (arc_value mapped))
        (seen s.old) (seen s.new) }
    ensures ticket { IfOk result (λ t. (t.conn ≡ conn) × (arc_value t.mapped ≡ arc_value mapped)) }
{
    let _token = token_of(s.issued, word);
    refuse(alloc, s, moment, conn, mapped, cause)
}

/// Enters an ask that reads along what the ask with this number opened.
fn read_along<R: Relation>(
    alloc: Global,
    s: &mut State<R>,
    moment: u64,
    word: u64,
    conn: u32,
    mapped: Arc<Mapped<R>>,
    opening: u32,
) -> Result<Ticket<R>, AskFault>
    requires sound { IsSound s.old }
    requires unsealed { s.old.sealed ≡ false }
    requires later { s.old.moment ≤ moment }
    requires early { moment ≤ LAST_MOMENT }
    requires idle { HasConn s.old.conns.items conn None }
    requires joins { MayJoin moment conn (ask_of (arc_value mapped)) opening (state_of s.old) }
    requires nothing { BeginsNothing moment (ask_of (arc_value mapped)) (state_of s.old) }
    ensures sound { IsSound s.new }
    ensures asks { IsAsked (number_in result) moment word conn (ask_of (arc_value mapped))
        (seen s.old) (seen s.new) }
    ensures ticket { IfOk result (λ t. (t.conn ≡ conn) × (arc_value t.mapped ≡ arc_value mapped)) }
{
    let _token = token_of(s.issued, word);
    join(alloc, s, moment, conn, mapped, opening)
}

/// Enters an ask that is answered by what is stored.
fn read_stored<R: Relation>(
    alloc: Global,
    s: &mut State<R>,
    moment: u64,
    word: u64,
    conn: u32,
    mapped: Arc<Mapped<R>>,
    stored: StoredResponse,
) -> Result<Ticket<R>, AskFault>
    requires sound { IsSound s.old }
    requires unsealed { s.old.sealed ≡ false }
    requires early { moment ≤ LAST_MOMENT }
    requires idle { HasConn s.old.conns.items conn None }
    requires recalls { MayRecall moment conn (arc_value mapped) stored (state_of s.old) }
    requires nothing { BeginsNothing moment (ask_of (arc_value mapped)) (state_of s.old) }
    ensures sound { IsSound s.new }
    ensures asks { IsAsked (number_in result) moment word conn (ask_of (arc_value mapped))
        (seen s.old) (seen s.new) }
    ensures ticket { IfOk result (λ t. (t.conn ≡ conn) × (arc_value t.mapped ≡ arc_value mapped)) }
{
    let _token = token_of(s.issued, word);
    recall(alloc, s, moment, conn, mapped, stored)
}

/// Enters an ask for something: it is answered by what is stored, joins an exchange, or begins one,
/// or is answered as busy where there is no place for one.
fn ask_peer<R: Relation>(
    alloc: Global,
    s: &mut State<R>,
    draft: &mut Draft<R>,
    moment: u64,
    word: u64,
    conn: u32,
    mapped: Arc<Mapped<R>>,
    peer: Peer,
) -> Result<Ticket<R>, AskFault>
    requires sound { IsSound s.old }
    requires unsealed { s.old.sealed ≡ false }
    requires later { s.old.moment ≤ moment }
    requires early { moment ≤ LAST_MOMENT }
    requires idle { HasConn s.old.conns.items conn None }
    requires asked { asked_peer (arc_value mapped).sense ≡ Some peer }
    requires small { came_size (arc_value mapped).came ≤ MAX_REQUEST_SIZE }
    ensures sound { IsSound s.new }
    ensures asks { IsAsked (number_in result) moment word conn (ask_of (arc_value mapped))
        (seen s.old) (seen s.new) }
    ensures ticket { IfOk result (λ t. (t.conn ≡ conn) × (arc_value t.mapped ≡ arc_value mapped)) }
{
    let found = find_stored(&s.store, moment, &mapped)?;
    if let Some(stored) = found {
        return read_stored(alloc, s, moment, word, conn, mapped, stored);
    }
    if let Some(exchange) = find_joined(&s.exchanges, &s.journal, &mapped) {
        return read_along(alloc, s, moment, word, conn, mapped, exchange.opening);
    }
    if s.exchanges.as_slice().len() >= MAX_EXCHANGES {
        return turn_away(alloc, s, moment, word, conn, mapped, Cause::Busy);
    }
    let begun = match begin(alloc, s, draft, moment, word, conn, mapped, peer) {
        Ok(begun) => begun,
        Err(fault) => return Err(fault),
    };
    match begun {
        Begun::Asked(ticket) => Ok(ticket),
        Begun::Busy(mapped) => turn_away(alloc, s, moment, word, conn, mapped, Cause::Busy),
    }
}

/// Enters an ask of a connection, by what it means.
pub fn ask<R: Relation>(
    alloc: Global,
    s: &mut State<R>,
    draft: &mut Draft<R>,
    moment: u64,
    word: u64,
    conn: u32,
    mapped: Arc<Mapped<R>>,
) -> Result<Ticket<R>, AskFault>
    requires sound { IsSound s.old }
    requires later { s.old.moment ≤ moment }
    requires early { moment ≤ LAST_MOMENT }
    ensures sound { IsSound s.new }
    ensures asks { IsAsked (number_in result) moment word conn (ask_of (arc_value mapped))
        (seen s.old) (seen s.new) }
    ensures ticket { IfOk result (λ t. (t.conn ≡ conn) × (arc_value t.mapped ≡ arc_value mapped)) }
{
    check_idle(s.conns.as_slice(), conn)?;
    if s.sealed {
        return Err(AskFault::Sealed);
    }
    let _came = mapped.came();
    match *mapped.meaning() {
        Meaning::Refuse(cause, _) => turn_away(alloc, s, moment, word, conn, mapped, cause),
        Meaning::Ask { peer, .. } => ask_peer(alloc, s, draft, moment, word, conn, mapped, peer),
    }
}
