//! Some of the endpoints are kept, and the others go.

ghost use Rattle.std.specs.Prelude.{◌≡◌, ◌<◌, ◌≤◌, ◌+◌, ◌∷◌, ◌++◌, [], false, true, get_or, length, drop, map, replicate, slice_set, take, vec_capacity, IfOk};
ghost use Rattle.exchange_model.specs.Rotating.{keep_peer};
ghost use Rattle.endpoint_table.specs.declared.endpoint.Endpoint.{Endpoint as EndpointValue};
ghost use Rattle.endpoint_table.specs.Dues.{AreDues};
ghost use Rattle.endpoint_table.specs.Keeping.{is_any, marked, with_mark};
ghost use Rattle.endpoint_table.specs.Tables.{peer_link, AreOnce};

use crate::dues::Due;
use crate::endpoint::Endpoint;
use crate::hints::Hints;
use std::alloc::{AllocError, Global};
use std::marker::Model;
use uri_map::Peer;

/// Which endpoints are to be kept: a mark for each, in their order.
#[derive(Drop)]
pub struct Keeping {
    marks: Vec<bool>,
}

impl Model for Keeping {
    ghost use Rattle.std.specs.Prelude.{Bool, List};

    ghost Value = { List Bool };

    ghost view = { λ k. k.marks.items };
}

impl Keeping {
    /// No mark, in so many places.
    fn none(alloc: Global, count: usize) -> Result<Keeping, AllocError>
        ensures { IfOk result (λ k. k ≡ replicate count false) }
    {
        let mut marks = Vec::new(alloc);
        marks.resize(count, false)?;
        Ok(Keeping { marks })
    }

    /// Marks a place, where there is such a one.
    fn set(&mut self, place: usize)
        ensures { self.new ≡ slice_set self.old place true }
    {
        if let Some(mark) = self.marks.get_mut(place) {
            *mark = true;
        }
    }

    /// Whether a place is marked.
    fn has(&self, place: usize) -> bool
        ensures { result ≡ get_or self.now place false }
    {
        match self.marks.get(place) {
            Some(mark) => *mark,
            None => false,
        }
    }
}

/// Marks an endpoint, where something was asked of it.
fn mark(keeping: &mut Keeping, rows: &[Endpoint], hints: &mut Hints, peer: &Peer)
    requires { AreOnce rows.now }
    ensures { keeping.new ≡ with_mark peer.now (map peer_link rows.now) keeping.old }
{
    if let Some(place) = hints.find(rows, peer) {
        keeping.set(place);
    }
}

/// Marks these endpoints, as far as something was asked of them.
pub fn mark_all(
    alloc: Global,
    rows: &[Endpoint],
    hints: &mut Hints,
    peers: &[Peer],
) -> Result<Keeping, AllocError>
    requires { AreOnce rows.now }
    ensures { IfOk result (λ k. k ≡ map (is_any peers.now) (map peer_link rows.now)) }
{
    let mut keeping = Keeping::none(alloc, rows.len())?;
    'each: for peer in peers {
        mark(&mut keeping, rows, hints, peer);
    }
    Ok(keeping)
}

/// Keeps what the link of the endpoint has to remember.
fn forget_exchanges(endpoint: &mut Endpoint, moment: u64)
    ensures { peer_link endpoint.new ≡ keep_peer moment (peer_link endpoint.old) }
{
    endpoint.link.forget_exchanges(moment);
}

/// Keeps the endpoint in this place, after so many.
fn keep_row(rows: &mut Vec<Endpoint>, kept: usize, place: usize, moment: u64)
    requires before { kept ≤ place }
    requires place { place < length rows.old.items }
    ensures kept { (e : EndpointValue) → map peer_link (take (kept + 1) rows.new.items)
        ≡ map peer_link (take kept rows.old.items)
        ++ keep_peer moment (peer_link (get_or rows.old.items place e)) ∷ [] }
    ensures rest { drop (place + 1) rows.new.items ≡ drop (place + 1) rows.old.items }
    ensures len { length rows.new.items ≡ length rows.old.items }
{
    rows.swap(kept, place);
    forget_exchanges(&mut rows[kept], moment);
}

/// Keeps the endpoints that are marked, with what their links have to remember, so that no timer
/// runs. The others go.
pub fn keep_rows(rows: &mut Vec<Endpoint>, dues: &mut Vec<Due>, keeping: &Keeping, moment: u64)
    requires { AreDues rows.old.items dues.old.items (vec_capacity dues.old) }
    ensures links { map peer_link rows.new.items
        ≡ map (keep_peer moment) (marked keeping.now (map peer_link rows.old.items)) }
    ensures dues { AreDues rows.new.items dues.new.items (vec_capacity dues.new) }
{
    let mut kept = 0;
    'each: for place in 0..rows.len() {
        if keeping.has(place) {
            keep_row(rows, kept, place, moment);
            kept += 1;
        }
    }
    rows.truncate(kept);
    dues.clear();
}
