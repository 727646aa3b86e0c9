//! A demonstration device.

ghost use Rattle.std.specs.Prelude.{◌≡◌, ◌<◌, map, [], IfOk, IsSome, OnOk, OnErr, None};
ghost use Rattle.coap_codec.specs.Spelling.{content};
ghost use Rattle.demo_origin.specs.Hearing.{Takes, Hears};
ghost use Rattle.demo_origin.specs.Arrivals.{arrival};
ghost use Rattle.demo_origin.specs.Keeps.{KeepsRelation};
ghost use Rattle.demo_origin.specs.Origins.{Sound, EachKeeps, device, count, fresh, held_of, with_one, Ticks, sent_out};
ghost use Rattle.demo_origin.specs.Notifying.{least_due};
ghost use Rattle.demo_origin.specs.Once.{IsFirst};

use crate::answer::{Asker, drop_old, drop_unknown, ignore, send};
use crate::arrival::{Arrival, arrival_at};
use crate::behaviour::Behaviour;
use crate::blocks::BlockSize;
use crate::draft::{copied_and_told, take_over};
use crate::execution::Taken;
use crate::fault::Memory;
use crate::handler::Handler;
use crate::notice::least_due;
use crate::rejection::{reset, reset_undecoded};
use crate::resource::Resource;
use crate::state::{Datagram, Held, State};
use crate::telling::{acknowledge, reject};
use crate::uploads::drop_orphans;
use coap_codec::{CodecFault, Message, decode};
use limits::MAX_DATAGRAM_LEN;
use message_layer::Bytes;
use std::alloc::Global;
use std::collections::VecDeque;
use uri_map::Peer;

/// A device: its resources, each with its handler, and the peers that it talks to.
///
/// Moments are milliseconds of any clock that doesn't go back.
#[derive(Drop)]
pub struct Origin<H: Behaviour> {
    pub(crate) alloc: Global,
    pub state: State,
    /// The handlers of the resources, in their order.
    pub handlers: Vec<Handler<H>>,
}

impl<H: Behaviour> Origin<H> {
    /// A device with these resources, each at version 0. Of equal paths the first counts. `block`
    /// is the size exponent of its pieces (RFC 7959, section 2.2).
    pub fn new(alloc: Global, block: u8, resources: Vec<Resource<H>>) -> Result<Origin<H>, Memory>
        requires block { block < 7 }
        requires keep { EachKeeps H.relation resources.items }
        ensures sound { IfOk result (λ o. Sound H.relation o) }
        ensures fresh { IfOk result (λ o. device o ≡ fresh block (map held_of resources.items)) }
    {
        let mut origin = Origin::empty(alloc, BlockSize { szx: block });
        'each: for resource in resources {
            origin.add(resource)?;
        }
        Ok(origin)
    }

    fn empty(alloc: Global, block: BlockSize) -> Origin<H>
        ensures sound { Sound H.relation result }
        ensures fresh { device result ≡ fresh block.szx [] }
    {
        Origin {
            alloc,
            state: State {
                block,
                resources: Vec::new(alloc),
                clients: Vec::new(alloc),
                remembered: Vec::new(alloc),
                uploads: Vec::new(alloc),
                observers: Vec::new(alloc),
                out: VecDeque::new(alloc),
            },
            handlers: Vec::new(alloc),
        }
    }

    /// Adds a resource last.
    fn add(&mut self, resource: Resource<H>) -> Result<(), Memory>
        requires sound { Sound H.relation self.old }
        requires keeps { KeepsRelation H.relation resource.handler }
        ensures sound { OnOk result (Sound H.relation self.new) }
        ensures added { OnOk result
            (device self.new ≡ with_one (held_of resource) (device self.old)) }
    {
        self.state.resources.push(Held {
            path: resource.path,
            format: resource.format,
            max_age: resource.max_age,
            state: resource.state,
            version: 0,
        })?;
        self.handlers.push(resource.handler)?;
        Ok(())
    }

    /// Takes a message.
    fn take(&mut self, moment: u64, peer: Peer, m: &mut Message) -> Result<Option<Taken>, Memory>
        requires sound { Sound H.relation self.old }
        ensures ok { IfOk result (λ taken. let came = content m.old in
            Takes H.relation moment peer came (arrival moment peer came (device self.old))
            (device self.old) (device self.new) taken) }
        ensures err { OnErr result (device self.new ≡ device self.old) }
        ensures handlers { self.new.handlers ≡ self.old.handlers }
        ensures resources { count self.new ≡ count self.old }
    {
        let to = Asker {
            peer,
            moment,
            kind: m.kind,
            mid: m.mid,
            token: m.token,
        };
        match arrival_at(&self.state, moment, &peer, m)? {
            Arrival::Ignored => Ok(None),
            Arrival::Empty => {
                ignore(&mut self.state, to)?;
                Ok(None)
            }
            Arrival::Rejected => {
                reset(self.alloc, &mut self.state, to)?;
                Ok(None)
            }
            Arrival::Repeated(answer) => {
                send(&mut self.state, peer, answer)?;
                Ok(None)
            }
            Arrival::Fresh => self.process(to, m),
            Arrival::Acknowledged => {
                acknowledge(self.alloc, &mut self.state, moment, &peer, m.mid)?;
                Ok(None)
            }
            Arrival::Reset => {
                reject(self.alloc, &mut self.state, moment, &peer, m.mid)?;
                Ok(None)
            }
        }
    }

    /// Takes a datagram.
    fn hear(&mut self, moment: u64, peer: Peer, datagram: &[u8]) -> Result<Option<Taken>, Memory>
        requires sound { Sound H.relation self.old }
        ensures sound { Sound H.relation self.new }
        ensures ok { IfOk result (λ taken.
            Hears H.relation moment peer datagram.now (device self.old) (device self.new) taken) }
        ensures err { OnErr result (device self.new ≡ device self.old) }
    {
        if datagram.len() > MAX_DATAGRAM_LEN {
            return Ok(None);
        }
        match decode(self.alloc, datagram) {
            Ok(mut m) => self.take(moment, peer, &mut m),
            Err(CodecFault::Memory) => Err(Memory::Memory),
            Err(_) => {
                reset_undecoded(self.alloc, &mut self.state, peer, datagram)?;
                Ok(None)
            }
        }
    }

    /// Takes a datagram of a peer's. Where a handler was asked, what was done is told. Of
    /// messages that were heard within 247 s none is processed again.
    pub fn heard(
        &mut self,
        moment: u64,
        peer: Peer,
        datagram: &[u8],
    ) -> Result<Option<Taken>, Memory>
        requires sound { Sound H.relation self.old }
        ensures sound { Sound H.relation self.new }
        ensures ok { IfOk result (λ taken.
            Hears H.relation moment peer datagram.now (device self.old) (device self.new) taken) }
        ensures first { IfOk result (λ taken. IsSome taken
            → IsFirst moment peer datagram.now (device self.old) (device self.new)) }
        ensures err { OnErr result (device self.new ≡ device self.old) }
    {
        self.hear(moment, peer, datagram)
    }

    /// Sends a copy of each notification whose ACK is due, or the newer state in its place, and
    /// drops the observer that acknowledged none of five. It forgets the messages that were
    /// heard 247 s ago, and the peers that were sent nothing since and observe nothing.
    pub fn tick(&mut self, moment: u64) -> Result<(), Memory>
        requires sound { Sound H.relation self.old }
        ensures sound { Sound H.relation self.new }
        ensures ok { OnOk result (Ticks moment (device self.old) (device self.new)) }
        ensures err { OnErr result (device self.new ≡ device self.old) }
    {
        let draft = copied_and_told(self.alloc, &self.state, moment)?;
        take_over(&mut self.state, draft);
        drop_old(&mut self.state.remembered, moment);
        drop_unknown(&mut self.state.clients, moment, &self.state.observers);
        drop_orphans(&mut self.state.uploads, &self.state.clients);
        Ok(())
    }

    /// When the next copy of a notification, or the end of its observer, is due.
    pub fn next_due(&self) -> Option<u64>
        requires { Sound H.relation self.now }
        ensures { result ≡ least_due None (device self.now).observers }
    {
        least_due(&self.state.observers)
    }

    /// The next datagram to be sent.
    pub fn take_send(&mut self) -> Option<Datagram>
        requires sound { Sound H.relation self.old }
        ensures sound { Sound H.relation self.new }
        ensures sent { sent_out (device self.old) ≡ (device self.new, result) }
    {
        self.state.out.pop_front()
    }
}
