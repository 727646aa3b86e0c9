//! The proxy, the network and the device, between two turns.

ghost use Rattle.std.specs.Prelude.{◌≡◌, ◌++◌, [], map, Err, IfOk, OnOk, IsOkUnless};
ghost use Rattle.demo_origin.specs.Origins.{Sound, device};
ghost use Rattle.exchange_model.specs.Room.{KeptInRoom};
ghost use Rattle.gateway_model.specs.Emissions.{emission_of, emissions};
ghost use Rattle.gateway_model.specs.Going.{goes_by, goes_in};
ghost use Rattle.gateway_world.specs.Worlds.{IsTooMuch, counted, served_in};
ghost use Rattle.transformers.specs.Suits.{Suits};
ghost use Rattle.three_parties.specs.Flights.{by_device, by_proxy, going};
ghost use Rattle.three_parties.specs.Arriving.{IsFull, emptied};
ghost use Rattle.three_parties.specs.Scenes.{DeviceHears, DeviceLooks, ProxyHears, ProxyTakes, TakesInput, TakesTurn, executed};
ghost use Rattle.ask_model.specs.Views.{rules_of};
ghost use Rattle.three_parties.specs.Stories.{opening, scene};

use crate::flight::{Arriving, Flight, Sent, destination, device_peer, proxy_peer, share};
use crate::story::Execution;
use crate::turn::Turn;
use ask_model::Settings;
use demo_origin::{Behaviour, Origin, Taken};
use gateway_world::{Happening, Input, Output, When, World, WorldFault};
use limits::LAST_MOMENT;
use std::alloc::{AllocError, Global};
use transformers::{Bank, Relation};

/// The three, and what came of the turns so far.
#[derive(Drop)]
pub struct Stage<R: Relation, H: Behaviour> {
    pub moment: u64,
    pub world: World<R>,
    pub origin: Origin<H>,
    pub outputs: Vec<Output<R>>,
    pub flights: Vec<Flight>,
    pub taken: Vec<Execution>,
}

/// The moment that counts.
fn counted(last: u64, moment: u64) -> u64
    ensures { result ≡ counted last moment }
{
    last.max(moment.min(LAST_MOMENT))
}

/// Does nothing: its contract says that the core of a proxy keeps what its journal says.
fn keeps<R: Relation>(world: &World<R>)
    ensures { KeptInRoom world.now.core.state }
{
    world.core().journal();
}

/// Sends what the proxy gave out, if it is a datagram.
fn send_one<R: Relation>(
    moment: u64,
    output: &Output<R>,
    flights: &mut Vec<Flight>,
) -> Result<(), AllocError>
    ensures { OnOk result (map going flights.new.items
        ≡ map going flights.old.items ++ map (by_proxy moment) (goes_by (emission_of output.now))) }
{
    if let Output::Datagram(datagram) = output {
        let sent = Sent::Proxy(share(datagram)?);
        flights.push(Flight { moment, sent })?;
    }
    Ok(())
}

/// Sends the datagrams that the proxy gave out.
fn send_given<R: Relation>(
    moment: u64,
    given: &[Output<R>],
    flights: &mut Vec<Flight>,
) -> Result<(), AllocError>
    ensures { OnOk result (map going flights.new.items
        ≡ map going flights.old.items ++ map (by_proxy moment) (goes_in (emissions given.now))) }
{
    'each: for output in given {
        send_one(moment, output, flights)?;
    }
    Ok(())
}

/// Sends all that the device gives to be sent.
fn send_all<H: Behaviour>(
    moment: u64,
    origin: &mut Origin<H>,
    flights: &mut Vec<Flight>,
) -> Result<(), AllocError>
    requires { Sound H.relation origin.old }
    ensures sound { Sound H.relation origin.new }
    ensures gives { OnOk result (device origin.new ≡ emptied (device origin.old)) }
    ensures sends { OnOk result (map going flights.new.items
        ≡ map going flights.old.items ++ map (by_device moment) (device origin.old).out) }
{
    'each: while let Some(datagram) = origin.take_send() {
        let sent = Sent::Device(datagram);
        flights.push(Flight { moment, sent })?;
    }
    Ok(())
}

/// Notes what was executed, if anything was.
fn note(
    moment: u64,
    number: usize,
    told: Option<Taken>,
    taken: &mut Vec<Execution>,
) -> Result<(), AllocError>
    ensures { OnOk result (taken.new.items ≡ taken.old.items ++ executed moment number told) }
{
    if let Some(told) = told {
        taken.push(Execution {
            moment,
            number,
            taken: told,
        })?;
    }
    Ok(())
}

impl<R: Relation, H: Behaviour> Stage<R, H> {
    /// Before the first turn: a proxy to which nothing has happened, and this device.
    pub fn new(
        alloc: Global,
        settings: Settings,
        origin: Origin<H>,
    ) -> Result<Stage<R, H>, WorldFault>
        requires sound { Sound H.relation origin }
        ensures sound { IfOk result (λ s. Sound H.relation s.origin) }
        ensures opens { IfOk result (λ s.
            scene s ≡ opening (rules_of settings) (device origin)) }
        ensures memory { IsOkUnless result WorldFault.Memory }
    {
        Ok(Stage {
            moment: 0,
            world: World::new(alloc, settings)?,
            origin,
            outputs: Vec::new(alloc),
            flights: Vec::new(alloc),
            taken: Vec::new(alloc),
        })
    }

    /// Takes a turn.
    pub fn take(&mut self, bank: &Bank<R>, turn: Turn<'_>) -> Result<(), WorldFault>
        requires suits { Suits R.holds R.takes self.old.world.rules.routes bank.now }
        requires sound { Sound H.relation self.old.origin }
        ensures sound { Sound H.relation self.new.origin }
        ensures takes { OnOk result
            (TakesTurn R.holds R.takes H.relation turn.entry (scene self.old) (scene self.new)) }
        ensures full { result ≡ Err WorldFault.Backlog → IsFull turn.entry (scene self.old) }
    {
        match turn {
            Turn::Proxy(input) => self.take_input(bank, input),
            Turn::Device(moment) => self.look(moment),
            Turn::Deliver(when, number) => self.deliver(bank, when, number),
        }
    }

    /// The proxy takes an input, unless it is a datagram.
    fn take_input(&mut self, bank: &Bank<R>, input: Input<'_>) -> Result<(), WorldFault>
        requires suits { Suits R.holds R.takes self.old.world.rules.routes bank.now }
        requires sound { Sound H.relation self.old.origin }
        ensures sound { Sound H.relation self.new.origin }
        ensures takes { OnOk result (TakesInput R.holds R.takes H.relation
            (counted self.old.moment input.entry.moment) input.entry input.entry.happening
            (scene self.old) (scene self.new)) }
        ensures full { result ≡ Err WorldFault.Backlog
            → IsTooMuch input.entry.happening (served_in self.old.world) }
    {
        let moment = counted(self.moment, input.moment);
        if let Happening::Datagram(_, _) = input.happening {
            self.moment = moment;
            return Ok(());
        }
        self.input(bank, moment, input)
    }

    /// The proxy takes an input at this moment.
    fn input(&mut self, bank: &Bank<R>, moment: u64, input: Input<'_>) -> Result<(), WorldFault>
        requires suits { Suits R.holds R.takes self.old.world.rules.routes bank.now }
        requires sound { Sound H.relation self.old.origin }
        ensures sound { Sound H.relation self.new.origin }
        ensures takes { OnOk result (ProxyTakes R.holds R.takes H.relation moment input.entry
            (scene self.old) (scene self.new)) }
        ensures full { result ≡ Err WorldFault.Backlog
            → IsTooMuch input.entry.happening (served_in self.old.world) }
    {
        let input = Input {
            moment,
            word: input.word,
            happening: input.happening,
        };
        keeps(&self.world);
        let mut given = self.world.input(bank, input)?;
        send_given(moment, &given, &mut self.flights)?;
        self.outputs.append(&mut given)?;
        self.moment = moment;
        Ok(())
    }

    /// The device looks at its timers.
    fn look(&mut self, moment: u64) -> Result<(), WorldFault>
        requires sound { Sound H.relation self.old.origin }
        ensures sound { Sound H.relation self.new.origin }
        ensures looks { OnOk result (DeviceLooks R.holds R.takes H.relation
            (counted self.old.moment moment) (scene self.old) (scene self.new)) }
        ensures memory { IsOkUnless result WorldFault.Memory }
    {
        let moment = counted(self.moment, moment);
        match self.origin.tick(moment) {
            Ok(()) => {}
            Err(_) => return Err(WorldFault::Memory),
        }
        send_all(moment, &mut self.origin, &mut self.flights)?;
        self.moment = moment;
        Ok(())
    }

    /// The network delivers a datagram.
    fn deliver(&mut self, bank: &Bank<R>, when: When, number: usize) -> Result<(), WorldFault>
        requires suits { Suits R.holds R.takes self.old.world.rules.routes bank.now }
        requires sound { Sound H.relation self.old.origin }
        ensures sound { Sound H.relation self.new.origin }
        ensures takes { OnOk result (TakesTurn R.holds R.takes H.relation
            (Turn.Deliver when number) (scene self.old) (scene self.new)) }
        ensures memory { IsOkUnless result WorldFault.Memory }
    {
        let moment = counted(self.moment, when.moment);
        match destination(moment, &self.flights, number)? {
            Arriving::ToProxy(bytes) => self.to_proxy(bank, moment, when.word, bytes.as_slice()),
            Arriving::ToDevice(bytes) => self.to_device(moment, number, bytes.as_slice()),
            Arriving::Nowhere => {
                self.moment = moment;
                Ok(())
            }
        }
    }

    /// The proxy hears a datagram of the device's.
    fn to_proxy(
        &mut self,
        bank: &Bank<R>,
        moment: u64,
        word: u64,
        bytes: &[u8],
    ) -> Result<(), WorldFault>
        requires suits { Suits R.holds R.takes self.old.world.rules.routes bank.now }
        requires sound { Sound H.relation self.old.origin }
        ensures sound { Sound H.relation self.new.origin }
        ensures hears { OnOk result (ProxyHears R.holds R.takes H.relation moment word bytes.now
            (scene self.old) (scene self.new)) }
        ensures memory { IsOkUnless result WorldFault.Memory }
    {
        let input = Input {
            moment,
            word,
            happening: Happening::Datagram(device_peer(), bytes),
        };
        self.input(bank, moment, input)
    }

    /// The device hears a datagram of the proxy's.
    fn to_device(&mut self, moment: u64, number: usize, bytes: &[u8]) -> Result<(), WorldFault>
        requires sound { Sound H.relation self.old.origin }
        ensures sound { Sound H.relation self.new.origin }
        ensures hears { OnOk result (DeviceHears R.holds R.takes H.relation moment number bytes.now
            (scene self.old) (scene self.new)) }
        ensures memory { IsOkUnless result WorldFault.Memory }
    {
        let told = match self.origin.heard(moment, proxy_peer(), bytes) {
            Ok(told) => told,
            Err(_) => return Err(WorldFault::Memory),
        };
        note(moment, number, told, &mut self.taken)?;
        send_all(moment, &mut self.origin, &mut self.flights)?;
        self.moment = moment;
        Ok(())
    }
}
