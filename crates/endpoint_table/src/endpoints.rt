//! The table of endpoints.

ghost use Rattle.std.specs.Prelude.{ℕ, ◌≡◌, ◌≤◌, [], true, map, is_some, IfOk};
ghost use Rattle.std.specs.List.{list_all};
ghost use Rattle.limits.specs.declared.TheConstants.{LAST_MOMENT};
ghost use Rattle.uri_map.specs.declared.peer.Peer.{Peer as PeerValue};
ghost use Rattle.message_layer.specs.Calls.{is_among};
ghost use Rattle.message_layer.specs.Prepared.{heeded, link_after as link_heeded, IsPreparedFor, IsSubmission, IsUnnumberedCon, MayFollow, MayHeed, MaySubmit};
ghost use Rattle.message_layer.specs.Sending.{IsSubmitted, is_over_by};
ghost use Rattle.exchange_model.specs.Due.{earliest, timer};
ghost use Rattle.exchange_model.specs.Entering.{all_deeds, all_going, link_after};
ghost use Rattle.exchange_model.specs.State.{link_of, with_link};
ghost use Rattle.exchange_model.specs.Rotating.{keep_peer};
ghost use Rattle.endpoint_table.specs.GivenUps.{given_at, given_up};
ghost use Rattle.endpoint_table.specs.Keeping.{is_any, marked};
ghost use Rattle.endpoint_table.specs.Tables.{heeds, link_at, submitted_to};
ghost use Rattle.endpoint_table.specs.Turns.{AreTurns, turns_deeds, turns_going};

use crate::dues::{Due, copy_dues, first_due};
use crate::endpoint::Endpoint;
use crate::given_up::{GivenUp, given_up_in};
use crate::hints::Hints;
use crate::keeping::{Keeping, keep_rows, mark_all};
use crate::rows;
use crate::turns::{Turn, prepare_turns_in, tick_links};
use coap_codec::Token;
use message_layer::{Hearing, Heeding, Link, LinkFault, Submission};
use std::alloc::{AllocError, Global};
use std::collections::VecDeque;
use std::marker::Model;
use uri_map::Peer;

/// The endpoints of which something was asked, each with its link, in the order in which they were
/// first asked.
#[derive(Drop)]
pub struct Endpoints {
    alloc: Global,
    rows: Vec<Endpoint>,
    /// their timers, in the order in which they run out
    dues: Vec<Due>,
    /// where they were found last
    hints: Hints,
    /// a link for one more
    spare: Option<Link>,
}

impl Model for Endpoints {
    ghost use Rattle.std.specs.Prelude.{map, vec_capacity, vec_len};
    ghost use Rattle.endpoint_table.specs.Dues.{AreDues};
    ghost use Rattle.endpoint_table.specs.Tables.{TableValue, has_room, peer_link, spare_room, AreDrained, AreOnce, IsUnused};

    ghost Value = { TableValue };

    ghost view = { λ t. record {
      links = map peer_link t.rows.items;
      rooms = map has_room t.rows.items;
      spare = spare_room (vec_len t.rows) (vec_capacity t.rows) (vec_capacity t.dues) t.spare;
    } };

    ghost invariant = { λ t. AreOnce t.rows.items × IsUnused t.spare
        × AreDues t.rows.items t.dues.items (vec_capacity t.dues)
        × AreDrained (map peer_link t.rows.items) };
}

impl Endpoints {
    /// Nothing was asked of any endpoint.
    pub fn new(alloc: Global) -> Result<Endpoints, AllocError>
        ensures { IfOk result (λ t. t.links ≡ []) }
    {
        Ok(Endpoints {
            alloc,
            rows: Vec::new(alloc),
            dues: Vec::new(alloc),
            hints: Hints::new(alloc)?,
            spare: None,
        })
    }

    /// Prepares that the link of an endpoint takes a message (that of a new endpoint where nothing
    /// was asked of it before): one that is spelled already, as a CON under message ID 0.
    pub fn prepare_submit(
        &mut self,
        peer: &Peer,
        token: Token,
        text: &[u8],
        moment: u64,
        word: u64,
    ) -> Result<Submission, LinkFault>
        requires moment { moment ≤ LAST_MOMENT }
        requires message { IsUnnumberedCon token text.now }
        ensures same { self.new.links ≡ self.old.links }
        ensures ok { IfOk result (λ x.
            IsSubmission moment token text.now word (link_at self.new peer.now) x) }
        ensures fault { IsSubmitted moment (link_of self.old.links peer.now) result }
    {
        match self.hints.find(&self.rows, peer) {
            Some(place) => {
                rows::prepare_submit_at(&mut self.rows, place, token, text, moment, word)
            }
            None => rows::prepare_spare(
                self.alloc,
                &mut self.rows,
                &mut self.dues,
                &mut self.spare,
                token,
                text,
                moment,
                word,
            ),
        }
    }

    /// The endpoint's link, which has not changed since, takes the message, and gives out nothing
    /// by itself. Nothing is awaited any more under the tokens that are gone.
    pub fn submit(&mut self, peer: Peer, submission: Submission, gone: &[Token], moment: u64)
        requires early { moment ≤ LAST_MOMENT }
        requires ready { MaySubmit moment (link_at self.old peer) submission }
        ensures { self.new.links
            ≡ submitted_to peer moment submission.waiting gone.now self.old.links }
    {
        match self.hints.find(&self.rows, &peer) {
            Some(place) => rows::submit_at(
                &mut self.rows,
                &mut self.dues,
                place,
                submission,
                gone,
                moment,
            ),
            None => rows::submit_spare(
                &mut self.rows,
                &mut self.dues,
                &mut self.spare,
                peer,
                submission,
                gone,
                moment,
            ),
        }
    }

    /// What the link of the endpoint makes of the datagram, before it does that. One from an
    /// endpoint of which nothing was asked is lost.
    pub fn prepare_heard(
        &mut self,
        peer: &Peer,
        datagram: &[u8],
        moment: u64,
    ) -> Result<Option<Hearing>, AllocError>
        requires { moment ≤ LAST_MOMENT }
        ensures same { self.new.links ≡ self.old.links }
        ensures ok { IfOk result (λ o.
            IsPreparedFor moment datagram.now (link_at self.new peer.now) o) }
    {
        match self.hints.find(&self.rows, peer) {
            Some(place) => rows::prepare_heard_at(&mut self.rows, place, datagram, moment),
            None => Ok(None),
        }
    }

    /// Whether the link of the endpoint, of which something was asked before, has a place for a
    /// message.
    pub fn check(&self, peer: &Peer, moment: u64) -> Result<(), LinkFault>
        requires early { moment ≤ LAST_MOMENT }
        requires known { is_some (link_of self.now.links peer.now).last_mid ≡ true }
        ensures { IsSubmitted moment (link_of self.now.links peer.now) result }
    {
        match self.hints.look_up(&self.rows, peer) {
            Some(place) => rows::check_at(&self.rows, place, moment),
            None => unreachable!(),
        }
    }

    /// Prepares that the link of the endpoint takes a message after the datagram that was prepared
    /// at this moment: one that is spelled already, as a CON under message ID 0. It waits after all
    /// that waits once the datagram was heard, and is sent at once where nothing is outstanding
    /// then.
    pub fn prepare_more(
        &self,
        peer: &Peer,
        heeding: &Heeding,
        token: Token,
        text: &[u8],
        moment: u64,
        word: u64,
    ) -> Result<Submission, LinkFault>
        requires early { moment ≤ LAST_MOMENT }
        requires ready { MayHeed moment (link_at self.now peer.now) heeding.now }
        requires known { is_some (link_of self.now.links peer.now).last_mid ≡ true }
        requires message { IsUnnumberedCon token text.now }
        ensures ok { IfOk result (λ more. IsSubmission moment token text.now word
            (link_heeded moment heeding.now (link_at self.now peer.now)) more) }
        ensures fault { IsSubmitted moment
            (heeded moment heeding.now (link_of self.now.links peer.now)) result }
    {
        match self.hints.look_up(&self.rows, peer) {
            Some(place) => rows::prepare_more_at(
                &self.rows, place, heeding, token, text, moment, word,
            ),
            None => unreachable!(),
        }
    }

    /// The endpoint's link, which has not changed since, does what was prepared, and takes the
    /// message that was prepared after it, if one was. Nothing is awaited any more under the tokens
    /// that are gone.
    pub fn heed(
        &mut self,
        peer: &Peer,
        heeding: Heeding,
        more: Option<Submission>,
        gone: &[Token],
        moment: u64,
    )
        requires early { moment ≤ LAST_MOMENT }
        requires ready { MayHeed moment (link_at self.old peer.now) heeding }
        requires follows { MayFollow moment (link_at self.old peer.now) heeding more }
        requires known { is_some (link_of self.old.links peer.now).last_mid ≡ true }
        ensures { self.new.links
            ≡ with_link peer.now
            (heeds moment heeding more gone.now (link_of self.old.links peer.now))
            self.old.links }
    {
        if let Some(place) = self.hints.find(&self.rows, peer) {
            rows::heed_at(
                &mut self.rows,
                &mut self.dues,
                place,
                heeding,
                more,
                gone,
                moment,
            );
        }
    }

    /// When a tick has something to do at an endpoint.
    pub fn next_due(&self) -> Option<u64>
        ensures { result ≡ earliest timer self.now.links }
    {
        first_due(&self.dues)
    }

    /// Whether no message is outstanding at this moment, were all ticks in time.
    pub fn are_over(&self, moment: u64) -> bool
        ensures { result ≡ list_all (λ x. is_over_by moment x.link.outstanding) self.now.links }
    {
        rows::are_over(&self.rows, moment)
    }

    /// The tokens of the messages that endpoints give up at this moment.
    pub fn given_up(&mut self, moment: u64) -> Result<Vec<GivenUp>, AllocError>
        requires { moment ≤ LAST_MOMENT }
        ensures same { self.new.links ≡ self.old.links }
        ensures given { IfOk result (λ v. (p : PeerValue)
            → given_at v.items p ≡ given_up moment (link_of self.old.links p)) }
    {
        given_up_in(self.alloc, &mut self.rows, &self.dues, moment)
    }

    /// Prepares the tick of the links, once what bears one of these tokens is neither awaited nor
    /// sent any more: what it does at each endpoint where something is due, in order.
    pub fn prepare_tick(
        &mut self,
        moment: u64,
        gone: &[Token],
    ) -> Result<VecDeque<Turn>, AllocError>
        requires { moment ≤ LAST_MOMENT }
        ensures same { self.new.links ≡ self.old.links }
        ensures ready { IfOk result
            (λ v. AreTurns moment gone.now self.new.links self.new.rooms v.items) }
        ensures deeds { IfOk result (λ v. turns_deeds v.items
            ≡ all_deeds moment (is_among gone.now) self.old.links) }
        ensures going { IfOk result (λ v. (n : ℕ) → turns_going n v.items
            ≡ all_going moment (is_among gone.now) n self.old.links) }
    {
        prepare_turns_in(self.alloc, &mut self.rows, &self.dues, moment, gone)
    }

    /// Does the tick of each link, by the turns that were prepared. The links gave out all.
    pub fn tick(&mut self, turns: VecDeque<Turn>, moment: u64, gone: &[Token])
        requires early { moment ≤ LAST_MOMENT }
        requires ready { AreTurns moment gone.now self.old.links self.old.rooms turns.items }
        ensures { self.new.links ≡ map (link_after moment (is_among gone.now)) self.old.links }
    {
        tick_links(
            &mut self.rows,
            &mut self.dues,
            &mut self.hints,
            turns,
            moment,
            gone,
        );
    }

    /// Prepares that these endpoints alone are kept, as far as something was asked of them.
    pub fn prepare_keep(&mut self, peers: &[Peer]) -> Result<Keeping, AllocError>
        ensures same { self.new.links ≡ self.old.links }
        ensures ok { IfOk result (λ k. k ≡ map (is_any peers.now) self.old.links) }
    {
        mark_all(self.alloc, &self.rows, &mut self.hints, peers)
    }

    /// Keeps the endpoints that are marked, in their order, and of each link what has to be
    /// remembered at this moment. The others go, and nothing is under way any more. It takes no
    /// memory.
    pub fn keep(&mut self, keeping: Keeping, moment: u64)
        ensures { self.new.links ≡ map (keep_peer moment) (marked keeping self.old.links) }
    {
        keep_rows(&mut self.rows, &mut self.dues, &keeping, moment);
        self.hints.keep_all(&self.rows);
    }

    /// The same endpoints with equal links, which share the bytes of their messages. Where
    /// endpoints were found last isn't kept.
    pub fn copy(&self) -> Result<Endpoints, AllocError>
        ensures { IfOk result (λ t. t.links ≡ self.now.links) }
    {
        Ok(Endpoints {
            alloc: self.alloc,
            rows: rows::copy_rows(self.alloc, &self.rows)?,
            dues: copy_dues(self.alloc, &self.dues, self.rows.len())?,
            hints: Hints::none(self.alloc),
            spare: None,
        })
    }

    /// Goes back to what was copied. Where endpoints were found last stays. It takes no memory.
    pub fn put_back(&mut self, copied: Endpoints)
        ensures { self.new.links ≡ copied.links }
    {
        let Endpoints {
            alloc: _,
            rows,
            dues,
            hints: _,
            spare: _,
        } = copied;
        self.rows = rows;
        self.dues = dues;
    }
}
