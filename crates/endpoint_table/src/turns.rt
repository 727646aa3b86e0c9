//! What a tick does at each endpoint where something is due.

ghost use Rattle.std.specs.Prelude.{ℕ, ◌≡◌, ◌≤◌, ◌<◌, ◌∷◌, ◌++◌, [], List, Some, true, false, length, map, slice_get, slice_set, vec_capacity, IfOk, OnOk};
ghost use Rattle.limits.specs.declared.TheConstants.{LAST_MOMENT};
ghost use Rattle.message_layer.specs.Calls.{is_among};
ghost use Rattle.message_layer.specs.Prepared.{IsTicking};
ghost use Rattle.message_layer.specs.declared.prepared.Ticking.TheVariants.{Rests};
ghost use Rattle.exchange_model.specs.Calls.{is_due, link_due};
ghost use Rattle.exchange_model.specs.Entering.{link_after};
ghost use Rattle.endpoint_table.specs.declared.endpoint.Endpoint.{Endpoint as EndpointValue};
ghost use Rattle.endpoint_table.specs.declared.turns.Turn.{Turn as TurnValue};
ghost use Rattle.endpoint_table.specs.Dues.{dues_from, due_places, timers_of, AreDues};
ghost use Rattle.endpoint_table.specs.Tables.{AreDrained, AreOnce, has_room, peer_link};
ghost use Rattle.endpoint_table.specs.Places.{IsFirstAt};
ghost use Rattle.endpoint_table.specs.Turns.{AreTurns, IsTurnOf};

use crate::dues::{Due, due_places, set_due};
use crate::endpoint::Endpoint;
use crate::hints::Hints;
use coap_codec::Token;
use message_layer::{Link, Ticking};
use std::alloc::{AllocError, Global};
use std::collections::VecDeque;
use uri_map::Peer;

/// What a tick does at an endpoint.
#[derive(Drop)]
pub struct Turn {
    pub peer: Peer,
    pub ticking: Ticking,
}

/// Whether the timer of the link has run out.
fn is_due(link: &Link, moment: u64) -> bool
    ensures { result ≡ is_due moment link.now.state.outstanding }
{
    match link.next_due() {
        Some(due) => due <= moment,
        None => false,
    }
}

/// Prepares the tick of a link.
fn prepare_ticking(link: &mut Link, moment: u64, gone: &[Token]) -> Result<Ticking, AllocError>
    requires { moment ≤ LAST_MOMENT }
    ensures same { link.new.state ≡ link.old.state }
    ensures turn { IfOk result (λ x. IsTicking moment gone.now link.new x) }
{
    match link.prepare_tick(moment, gone) {
        Ok(ticking) => Ok(ticking),
        Err(_) => Err(AllocError),
    }
}

/// Prepares the turn of an endpoint where something is due.
fn prepare_turn(endpoint: &mut Endpoint, moment: u64, gone: &[Token]) -> Result<Turn, AllocError>
    requires early { moment ≤ LAST_MOMENT }
    requires due { link_due moment (peer_link endpoint.old) ≡ true }
    ensures same { peer_link endpoint.new ≡ peer_link endpoint.old }
    ensures turn { IfOk result (λ k.
        IsTurnOf moment gone.now (peer_link endpoint.new) endpoint.new.link.room (Some k)) }
{
    let ticking = prepare_ticking(&mut endpoint.link, moment, gone)?;
    Ok(Turn {
        peer: endpoint.peer,
        ticking,
    })
}

/// Prepares the turn of an endpoint where something is due, after those that there are.
fn push_turn(
    turns: &mut VecDeque<Turn>,
    endpoint: &mut Endpoint,
    moment: u64,
    gone: &[Token],
) -> Result<(), AllocError>
    requires early { moment ≤ LAST_MOMENT }
    requires due { link_due moment (peer_link endpoint.old) ≡ true }
    ensures same { peer_link endpoint.new ≡ peer_link endpoint.old }
    ensures turn { OnOk result ((k : TurnValue)
        × (turns.new.items ≡ turns.old.items ++ k ∷ [])
        × IsTurnOf moment gone.now (peer_link endpoint.new) endpoint.new.link.room (Some k)) }
{
    let turn = prepare_turn(endpoint, moment, gone)?;
    turns.push_back(turn)?;
    Ok(())
}

/// Prepares the turns of the endpoints in these places, where alone something is due.
fn prepare_turns(
    alloc: Global,
    rows: &mut Vec<Endpoint>,
    places: &[usize],
    moment: u64,
    gone: &[Token],
) -> Result<VecDeque<Turn>, AllocError>
    requires early { moment ≤ LAST_MOMENT }
    requires places { places.now ≡ due_places moment 0 (timers_of rows.old.items) }
    ensures same { map peer_link rows.new.items ≡ map peer_link rows.old.items }
    ensures turns { IfOk result (λ v. AreTurns moment gone.now
        (map peer_link rows.new.items) (map has_room rows.new.items) v.items) }
{
    let mut turns = VecDeque::new(alloc);
    'each: for place in places {
        push_turn(&mut turns, &mut rows[*place], moment, gone)?;
    }
    Ok(turns)
}

/// Prepares the turns of the endpoints.
pub fn prepare_turns_in(
    alloc: Global,
    rows: &mut Vec<Endpoint>,
    dues: &[Due],
    moment: u64,
    gone: &[Token],
) -> Result<VecDeque<Turn>, AllocError>
    requires early { moment ≤ LAST_MOMENT }
    requires dues { dues.now ≡ dues_from 0 (timers_of rows.old.items) }
    ensures same { map peer_link rows.new.items ≡ map peer_link rows.old.items }
    ensures turns { IfOk result (λ v. AreTurns moment gone.now
        (map peer_link rows.new.items) (map has_room rows.new.items) v.items) }
{
    let places = due_places(alloc, dues, moment)?;
    prepare_turns(alloc, rows, &places, moment, gone)
}

/// What the tick does at the endpoint: the first turn is its own, where something is due there.
fn take_ticking(turns: &mut VecDeque<Turn>, endpoint: &Endpoint, moment: u64) -> Ticking
    ensures due { (k : TurnValue) (ks : List TurnValue) → turns.old.items ≡ k ∷ ks
        → link_due moment (peer_link endpoint.now) ≡ true
        → (result ≡ k.ticking) × (turns.new.items ≡ ks) }
    ensures rests { link_due moment (peer_link endpoint.now) ≡ false
        → (result ≡ Rests) × (turns.new.items ≡ turns.old.items) }
{
    if !is_due(&endpoint.link, moment) {
        return Ticking::Rests;
    }
    match turns.pop_front() {
        Some(turn) => turn.ticking,
        None => Ticking::Rests,
    }
}

/// Does the tick of a link as it was prepared. The link gave out all.
fn tick_endpoint(endpoint: &mut Endpoint, ticking: Ticking, moment: u64, gone: &[Token])
    requires moment { moment ≤ LAST_MOMENT }
    requires ready { IsTicking moment gone.now endpoint.old.link ticking }
    ensures { peer_link endpoint.new
        ≡ link_after moment (is_among gone.now) (peer_link endpoint.old) }
{
    let _up = endpoint.link.tick_prepared(ticking, moment, gone);
    endpoint.link.clear_out();
}

/// Does the tick of the endpoint in this place as it was prepared, and sets its timer where that
/// has run out.
fn tick_at(
    rows: &mut Vec<Endpoint>,
    dues: &mut Vec<Due>,
    place: usize,
    ticking: Ticking,
    moment: u64,
    gone: &[Token],
)
    requires place { place < length rows.old.items }
    requires moment { moment ≤ LAST_MOMENT }
    requires dues { AreDues rows.old.items dues.old.items (vec_capacity dues.old) }
    requires ready { (e : EndpointValue) → slice_get rows.old.items place ≡ Some e
        → IsTicking moment gone.now e.link ticking }
    ensures row { (e : EndpointValue) → slice_get rows.old.items place ≡ Some e
        → (y : EndpointValue) × (rows.new.items ≡ slice_set rows.old.items place y)
        × (peer_link y ≡ link_after moment (is_among gone.now) (peer_link e)) }
    ensures dues { AreDues rows.new.items dues.new.items (vec_capacity dues.new) }
{
    if !is_due(&rows[place].link, moment) {
        tick_endpoint(&mut rows[place], ticking, moment, gone);
        return;
    }
    let before = rows[place].link.next_due();
    tick_endpoint(&mut rows[place], ticking, moment, gone);
    set_due(dues, place, before, rows[place].link.next_due());
}

/// Does the tick of each link, by the turns that were prepared. The links gave out all.
fn tick_turns(
    rows: &mut Vec<Endpoint>,
    dues: &mut Vec<Due>,
    turns: VecDeque<Turn>,
    moment: u64,
    gone: &[Token],
)
    requires moment { moment ≤ LAST_MOMENT }
    requires ready { AreTurns moment gone.now
        (map peer_link rows.old.items) (map has_room rows.old.items) turns.items }
    requires dues { AreDues rows.old.items dues.old.items (vec_capacity dues.old) }
    ensures links { map peer_link rows.new.items
        ≡ map (link_after moment (is_among gone.now)) (map peer_link rows.old.items) }
    ensures dues { AreDues rows.new.items dues.new.items (vec_capacity dues.new) }
{
    let mut turns = turns;
    'each: for place in 0..rows.len() {
        let ticking = take_ticking(&mut turns, &rows[place], moment);
        tick_at(rows, dues, place, ticking, moment, gone);
    }
}

/// Does the tick of the endpoint that has this turn.
fn tick_turn(
    rows: &mut Vec<Endpoint>,
    dues: &mut Vec<Due>,
    hints: &mut Hints,
    turn: Turn,
    moment: u64,
    gone: &[Token],
)
    requires moment { moment ≤ LAST_MOMENT }
    requires once { AreOnce rows.old.items }
    requires dues { AreDues rows.old.items dues.old.items (vec_capacity dues.old) }
    requires ready { (i : ℕ) (e : EndpointValue)
        → IsFirstAt turn.peer (map peer_link rows.old.items) i
        → slice_get rows.old.items i ≡ Some e → IsTicking moment gone.now e.link turn.ticking }
    ensures row { (i : ℕ) (e : EndpointValue) → IsFirstAt turn.peer (map peer_link rows.old.items) i
        → slice_get rows.old.items i ≡ Some e
        → (y : EndpointValue) × (rows.new.items ≡ slice_set rows.old.items i y)
        × (peer_link y ≡ link_after moment (is_among gone.now) (peer_link e)) }
    ensures dues { AreDues rows.new.items dues.new.items (vec_capacity dues.new) }
{
    if let Some(place) = hints.find(rows.as_slice(), &turn.peer) {
        tick_at(rows, dues, place, turn.ticking, moment, gone);
    }
}

/// Does the tick of the links that have a turn, where nothing is gone: so the others rest, and
/// aren't looked at.
fn tick_due(
    rows: &mut Vec<Endpoint>,
    dues: &mut Vec<Due>,
    hints: &mut Hints,
    turns: VecDeque<Turn>,
    moment: u64,
    gone: &[Token],
)
    requires moment { moment ≤ LAST_MOMENT }
    requires none { gone.now ≡ [] }
    requires once { AreOnce rows.old.items }
    requires drained { AreDrained (map peer_link rows.old.items) }
    requires ready { AreTurns moment gone.now
        (map peer_link rows.old.items) (map has_room rows.old.items) turns.items }
    requires dues { AreDues rows.old.items dues.old.items (vec_capacity dues.old) }
    ensures links { map peer_link rows.new.items
        ≡ map (link_after moment (is_among gone.now)) (map peer_link rows.old.items) }
    ensures dues { AreDues rows.new.items dues.new.items (vec_capacity dues.new) }
{
    let mut turns = turns;
    'each: while let Some(turn) = turns.pop_front() {
        tick_turn(rows, dues, hints, turn, moment, gone);
    }
}

/// Does the tick of each link, by the turns that were prepared. The links gave out all. Where
/// nothing is gone, only those are looked at where something is due.
pub fn tick_links(
    rows: &mut Vec<Endpoint>,
    dues: &mut Vec<Due>,
    hints: &mut Hints,
    turns: VecDeque<Turn>,
    moment: u64,
    gone: &[Token],
)
    requires moment { moment ≤ LAST_MOMENT }
    requires once { AreOnce rows.old.items }
    requires drained { AreDrained (map peer_link rows.old.items) }
    requires ready { AreTurns moment gone.now
        (map peer_link rows.old.items) (map has_room rows.old.items) turns.items }
    requires dues { AreDues rows.old.items dues.old.items (vec_capacity dues.old) }
    ensures links { map peer_link rows.new.items
        ≡ map (link_after moment (is_among gone.now)) (map peer_link rows.old.items) }
    ensures dues { AreDues rows.new.items dues.new.items (vec_capacity dues.new) }
{
    if gone.is_empty() {
        tick_due(rows, dues, hints, turns, moment, gone);
        return;
    }
    tick_turns(rows, dues, turns, moment, gone);
}
