//! A request with its meaning.

ghost use Rattle.std.specs.Prelude.{◌≡◌, ◌≤◌, ◌<◌, ◌^◌, length, option_map, IfOk, IfSome};
ghost use Rattle.std.specs.Arc.{arc_value};
ghost use Rattle.limits.specs.declared.TheConstants.{MAX_BODY_LEN, MAX_MESSAGE_LEN, MAX_REQUEST_SIZE};
ghost use Rattle.ask_model.specs.Views.{came_of, body_of, sense_of, rules_of};
ghost use Rattle.ask_model.specs.Maps.{Maps, wanted_of};
ghost use Rattle.cache_key.specs.Keys.{key_of, place_of};
ghost use Rattle.ask_model.specs.Sharing.{asked_digests, asks_same_by, key_read, outdates_by, place_written};
ghost use Rattle.ask_model.specs.Sizes.{came_size};
ghost use Rattle.ask_model.specs.Observing.{IsObserving};
ghost use Rattle.ask_model.specs.Validating.{IsValidating};
ghost use Rattle.ask_model.specs.Datagrams.{IsSentFor, asked_body, asked_peer, block_named};

use crate::comparing;
use crate::meaning::Meaning;
use crate::request::{body_in, bytes_of, datagram_of, observing_of};
use crate::settings::Settings;
use crate::validating::validating_of;
use cache_key::{Digests, Lookup, Reading};
use coap_codec::{Block, Bytes, Token};
use http_edge::Incoming;
use media_map::Wanted;
use std::alloc::{AllocError, Global};
use std::marker::{Model, PhantomData};
use std::sync::Arc;
use transformers::Relation;
use uri_map::Peer;

/// A request with its meaning, and with what is wanted of its answer. Its type keeps that these are
/// the request's mapping under the settings, and that the request counts at most 2 MiB.
pub struct Mapped<R: Relation> {
    came: Incoming,
    meaning: Meaning,
    wanted: Option<Wanted>,
    /// those of the key that it asks under, made once
    digests: Digests,
    settings: Arc<Settings>,
    relation: PhantomData<R>,
}

/// As derived; but written here, how all that it has is dropped is proved in this crate alone.
impl<R: Relation> Drop for Mapped<R> {
    fn drop(self) {
        let Mapped {
            came: _,
            meaning: _,
            wanted: _,
            digests: _,
            settings: _,
            relation: _,
        } = self;
    }
}

impl<R: Relation> Model for Mapped<R> {
    ghost use Rattle.ask_model.specs.Views.{Mapping};

    ghost Value = { Mapping };

    ghost use Rattle.std.specs.Arc.{arc_value};
    ghost use Rattle.ask_model.specs.Views.{came_of, body_of, sense_of, rules_of};
    ghost use Rattle.ask_model.specs.Maps.{Maps, wanted_of};
    ghost use Rattle.ask_model.specs.Sharing.{asked_digests};
    ghost use Rattle.ask_model.specs.Sizes.{came_size};
    ghost use Rattle.std.specs.Prelude.{◌≡◌, ◌≤◌};
    ghost use Rattle.limits.specs.declared.TheConstants.{MAX_REQUEST_SIZE};

    ghost view = { λ m. record {
      came = came_of m.came;
      sense = sense_of m.meaning (body_of (came_of m.came));
      rules = rules_of (arc_value m.settings);
    } };

    ghost invariant = { λ m.
        Maps R.holds R.takes (rules_of (arc_value m.settings)) (came_of m.came)
        (sense_of m.meaning (body_of (came_of m.came)))
        × (m.wanted ≡ wanted_of (rules_of (arc_value m.settings)) (came_of m.came)
        (sense_of m.meaning (body_of (came_of m.came))))
        × (came_size (came_of m.came) ≤ MAX_REQUEST_SIZE)
        × (m.digests ≡ asked_digests (sense_of m.meaning (body_of (came_of m.came)))) };
}

impl<R: Relation> Mapped<R> {
    /// The request with this meaning, of whose answer this is wanted.
    pub fn new(
        came: Incoming,
        meaning: Meaning,
        wanted: Option<Wanted>,
        settings: Arc<Settings>,
    ) -> Mapped<R>
        requires maps { Maps R.holds R.takes (rules_of (arc_value settings)) (came_of came)
            (sense_of meaning (body_of (came_of came))) }
        requires wanted { wanted ≡ wanted_of (rules_of (arc_value settings)) (came_of came)
            (sense_of meaning (body_of (came_of came))) }
        requires small { came_size (came_of came) ≤ MAX_REQUEST_SIZE }
        ensures came { result.came ≡ came_of came }
        ensures sense { result.sense ≡ sense_of meaning (body_of (came_of came)) }
        ensures rules { result.rules ≡ rules_of (arc_value settings) }
    {
        let digests = comparing::digests_in(&meaning);
        Mapped {
            came,
            meaning,
            wanted,
            digests,
            settings,
            relation: PhantomData,
        }
    }

    /// What came in.
    pub fn came(&self) -> &Incoming
        ensures came { came_of result.now ≡ self.now.came }
        ensures small { came_size self.now.came ≤ MAX_REQUEST_SIZE }
    {
        &self.came
    }

    /// What it means: the mapping of what came in, by the settings.
    pub fn meaning(&self) -> &Meaning
        ensures sense { sense_of result.now (body_of self.now.came) ≡ self.now.sense }
        ensures maps { Maps R.holds R.takes self.now.rules self.now.came self.now.sense }
    {
        &self.meaning
    }

    /// What is wanted of its answer: a format, and the media type that the client gets. None where
    /// the request is refused, and where it takes any.
    pub fn wanted(&self) -> Option<&Wanted>
        ensures { option_map (λ w. w.now) result
            ≡ wanted_of self.now.rules self.now.came self.now.sense }
    {
        self.wanted.as_ref()
    }

    /// The settings that it was mapped under.
    pub fn settings(&self) -> &Arc<Settings>
        ensures { rules_of (arc_value result.now) ≡ self.now.rules }
    {
        &self.settings
    }

    /// The server that is asked. None where the request is refused.
    pub fn peer(&self) -> Option<Peer>
        ensures { result ≡ asked_peer self.now.sense }
    {
        match self.meaning() {
            Meaning::Ask { peer, .. } => Some(*peer),
            Meaning::Refuse(_, _) => None,
        }
    }

    /// What it reads, where it is a GET: what a response to it is kept under (RFC 7252 section
    /// 5.6). Anything else, also a GET with a body, reads nothing.
    pub fn reading(&self) -> Option<Reading<'_>>
        ensures { option_map (λ r. key_of r.peer r.target.now r.accept) result
            ≡ key_read self.now.sense }
    {
        comparing::reading_of(self.meaning(), body_in(self.came()))
    }

    /// The digests of the key that it asks under, where it isn't refused.
    pub fn digests(&self) -> Digests
        ensures { result ≡ asked_digests self.now.sense }
    {
        self.digests
    }

    /// What it reads, to be looked for.
    pub fn lookup(&self) -> Option<Lookup<'_>>
        ensures { result ≡ key_read self.now.sense }
    {
        let reading = self.reading()?;
        Some(Lookup::with(&reading, self.digests()))
    }

    /// What it changes, where it isn't a GET: what is kept of that place is out of date once it
    /// ends (RFC 7252 section 5.9.2).
    pub fn writing(&self) -> Option<Reading<'_>>
        ensures { option_map (λ r. place_of r.peer r.target.now) result
            ≡ place_written self.now.sense }
    {
        comparing::writing_of(self.meaning())
    }

    /// Whether both are GETs that one response may answer: they ask one server with equal options
    /// (RFC 7252 section 5.6).
    pub fn asks_same(&self, other: &Mapped<R>) -> bool
        ensures { result ≡ asks_same_by self.now.sense other.now.sense }
    {
        comparing::asks_same(
            self.meaning(),
            body_in(self.came()),
            other.meaning(),
            body_in(other.came()),
        )
    }

    /// Whether it is a write to the place that the other one reads or changes.
    pub fn outdates(&self, other: &Mapped<R>) -> bool
        ensures { result ≡ outdates_by self.now.sense other.now.sense }
    {
        comparing::outdates(self.meaning(), other.meaning())
    }

    /// The body that goes to the server: an empty one where the request is refused.
    pub fn body(&self) -> &[u8]
        ensures body { result.now ≡ asked_body self.now.sense }
        ensures short { length result.now ≤ MAX_BODY_LEN }
    {
        match self.meaning() {
            Meaning::Ask { payload, .. } => bytes_of(payload, body_in(self.came())),
            Meaning::Refuse(_, _) => &[],
        }
    }

    /// A datagram that asks it, under this message ID and token (RFC 7252 section 3). None where
    /// the request is refused. A block that is named is one of the representation that a GET asks
    /// for, by its Block2, or else one of the body, by its Block1 (RFC 7959 section 2). Where none
    /// is named, the server gives the first, or all, in the size that it likes; and a body of more
    /// than 1,024 bytes begins with its first block. Of the body no more is copied than the
    /// datagram has.
    pub fn request(
        &self,
        alloc: Global,
        block: Option<Block>,
        mid: u16,
        token: &Token,
    ) -> Result<Option<Bytes>, AllocError>
        requires num { IfSome block (λ b. b.num < 2 ^ 20) }
        requires szx { IfSome block (λ b. b.szx < 7) }
        ensures sent { IfOk result (λ o.
            IsSentFor self.now.sense (block_named self.now.sense block) mid
            token.now o) }
        ensures len { IfOk result (λ o. IfSome o (λ bytes. length bytes ≤ MAX_MESSAGE_LEN)) }
    {
        datagram_of(
            alloc,
            self.meaning(),
            body_in(self.came()),
            block,
            mid,
            token,
        )
    }

    /// A datagram that asks it, and to be told of changes too, by Observe 0 (RFC 7641 section 3.1).
    /// None where it isn't a GET, or its server isn't to be observed by the settings.
    pub fn observe_request(
        &self,
        alloc: Global,
        mid: u16,
        token: &Token,
    ) -> Result<Option<Bytes>, AllocError>
        ensures sent { IfOk result (λ o.
            IsObserving self.now.rules self.now.sense mid token.now o) }
        ensures len { IfOk result (λ o. IfSome o (λ bytes. length bytes ≤ MAX_MESSAGE_LEN)) }
    {
        observing_of(
            alloc,
            self.meaning(),
            body_in(self.came()),
            self.settings().observed.as_slice(),
            mid,
            token,
        )
    }

    /// A datagram that asks whether what has this ETag is valid still (RFC 7252 section 5.10.6.2).
    /// None where it isn't a GET.
    pub fn validate_request(
        &self,
        alloc: Global,
        etag: &[u8],
        mid: u16,
        token: &Token,
    ) -> Result<Option<Bytes>, AllocError>
        requires short { length etag.now ≤ 8 }
        ensures sent { IfOk result (λ o. IsValidating etag.now self.now.sense mid token.now o) }
        ensures len { IfOk result (λ o. IfSome o (λ bytes. length bytes ≤ MAX_MESSAGE_LEN)) }
    {
        validating_of(
            alloc,
            self.meaning(),
            body_in(self.came()),
            etag,
            mid,
            token,
        )
    }
}
