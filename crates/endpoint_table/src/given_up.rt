//! Messages that are given up at a tick.

ghost use Rattle.std.specs.Prelude.{◌≡◌, ◌≤◌, ◌++◌, [], map, IfOk, OnOk};
ghost use Rattle.std.specs.Option.{option_to_list};
ghost use Rattle.limits.specs.declared.TheConstants.{LAST_MOMENT};
ghost use Rattle.uri_map.specs.declared.peer.Peer.{Peer as PeerValue};
ghost use Rattle.exchange_model.specs.State.{link_of};
ghost use Rattle.endpoint_table.specs.Dues.{dues_from, due_places, timers_of};
ghost use Rattle.endpoint_table.specs.GivenUps.{given_at, given_by, given_up, given_ups, token_given};
ghost use Rattle.endpoint_table.specs.Tables.{peer_link, AreOnce};

use crate::dues::{Due, due_places};
use crate::endpoint::Endpoint;
use coap_codec::Token;
use message_layer::{Link, Ticking};
use std::alloc::{AllocError, Global};
use uri_map::{Peer, is_same_peer};

/// The token of the message that an endpoint's link gives up.
#[derive(Clone, Copy)]
pub struct GivenUp {
    pub peer: Peer,
    pub token: Token,
}

/// The token of the message that is given up.
fn given_up_by(turn: &Ticking) -> Option<Token>
    ensures { result ≡ token_given turn.now }
{
    match turn {
        Ticking::GivesUp(token, _) => Some(*token),
        _ => None,
    }
}

/// The token of the message that the link gives up. The list has no token.
fn given_up(link: &mut Link, none: &[Token], moment: u64) -> Result<Option<Token>, AllocError>
    requires moment { moment ≤ LAST_MOMENT }
    requires none { none.now ≡ [] }
    ensures same { link.new.state ≡ link.old.state }
    ensures token { IfOk result (λ o. o ≡ given_up moment link.old.state) }
{
    let Ok(turn) = link.prepare_tick(moment, none) else {
        return Err(AllocError);
    };
    Ok(given_up_by(&turn))
}

/// What the endpoint gives up.
fn given_up_at(
    endpoint: &mut Endpoint,
    none: &[Token],
    moment: u64,
) -> Result<Option<GivenUp>, AllocError>
    requires moment { moment ≤ LAST_MOMENT }
    requires none { none.now ≡ [] }
    ensures same { peer_link endpoint.new ≡ peer_link endpoint.old }
    ensures given { IfOk result (λ o. o ≡ given_by moment (peer_link endpoint.old)) }
{
    match given_up(&mut endpoint.link, none, moment)? {
        Some(token) => Ok(Some(GivenUp {
            peer: endpoint.peer,
            token,
        })),
        None => Ok(None),
    }
}

/// Lists what the endpoint gives up.
fn push_given_up(
    given: &mut Vec<GivenUp>,
    endpoint: &mut Endpoint,
    none: &[Token],
    moment: u64,
) -> Result<(), AllocError>
    requires moment { moment ≤ LAST_MOMENT }
    requires none { none.now ≡ [] }
    ensures same { peer_link endpoint.new ≡ peer_link endpoint.old }
    ensures given { OnOk result (given.new.items
        ≡ given.old.items ++ option_to_list (given_by moment (peer_link endpoint.old))) }
{
    match given_up_at(endpoint, none, moment)? {
        Some(one) => {
            given.push(one)?;
            Ok(())
        }
        None => Ok(()),
    }
}

/// What the endpoints give up, in order: those in these places are asked, where alone something
/// is due.
fn given_up_all(
    alloc: Global,
    rows: &mut Vec<Endpoint>,
    places: &[usize],
    moment: u64,
) -> Result<Vec<GivenUp>, AllocError>
    requires early { moment ≤ LAST_MOMENT }
    requires places { places.now ≡ due_places moment 0 (timers_of rows.old.items) }
    ensures same { map peer_link rows.new.items ≡ map peer_link rows.old.items }
    ensures given { IfOk result (λ v. v.items ≡ given_ups moment (map peer_link rows.old.items)) }
{
    let none = Vec::new(alloc);
    let mut given = Vec::new(alloc);
    'each: for place in places {
        push_given_up(&mut given, &mut rows[*place], &none, moment)?;
    }
    Ok(given)
}

/// What the endpoints give up.
pub fn given_up_in(
    alloc: Global,
    rows: &mut Vec<Endpoint>,
    dues: &[Due],
    moment: u64,
) -> Result<Vec<GivenUp>, AllocError>
    requires early { moment ≤ LAST_MOMENT }
    requires once { AreOnce rows.old.items }
    requires dues { dues.now ≡ dues_from 0 (timers_of rows.old.items) }
    ensures same { map peer_link rows.new.items ≡ map peer_link rows.old.items }
    ensures given { IfOk result (λ v. (p : PeerValue) → given_at v.items p
        ≡ given_up moment (link_of (map peer_link rows.old.items) p)) }
{
    let places = due_places(alloc, dues, moment)?;
    given_up_all(alloc, rows, &places, moment)
}

/// The token of the message that the endpoint gives up, where it is listed.
pub fn find_given_up(given: &[GivenUp], peer: &Peer) -> Option<Token>
    ensures { result ≡ given_at given.now peer.now }
{
    let one = given.iter().find(|x| is_same_peer(&x.peer, peer))?;
    Some(one.token)
}
