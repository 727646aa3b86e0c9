//! The device of a file of settings, on its socket.

ghost use Rattle.std.specs.Prelude.{◌≡◌, ◌⊎◌, IfOk, OnErr};
ghost use Rattle.demo_origin.specs.Origins.{EachKeeps};
ghost use Rattle.demo_origin.specs.Values.{Device};
ghost use Rattle.device_server.specs.Kinds.{kinds};
ghost use Rattle.device_server.specs.Rows.{AreRows, device_by};
ghost use Rattle.device_server.specs.Turns.{Fails, GoesThrough};

use crate::clock::{Clock, SystemClock};
use crate::kinds::{Kinds, answer};
use crate::rows::{origin_of, resource_of};
use crate::turns::{Served, serve};
use crate::wire::{DevicePort, Wire};
use demo_origin::{Call, CoapRequest, Memory, Resource, install};
use log::{Log, info};
use proxy_settings::Device as Settings;
use server_faults::DeviceFault;
use std::alloc::Global;
use std::rt::Clock as SystemTime;
use std::time::Instant;

/// Runs the device at this port, until the clock or the socket fails.
pub fn run<W: Log + SystemTime + Copy + Drop>(
    rt: W,
    alloc: Global,
    port: DevicePort,
    device: &Settings,
) -> DeviceFault {
    match run_with(rt, alloc, port, device) {
        Ok(()) => DeviceFault::Stopped,
        Err(fault) => fault,
    }
}

/// Makes the resources of the settings, and serves them.
fn run_with<W: Log + SystemTime + Copy + Drop>(
    rt: W,
    alloc: Global,
    port: DevicePort,
    device: &Settings,
) -> Result<(), DeviceFault> {
    let begin = match Instant::now(&rt) {
        Ok(begin) => begin,
        Err(error) => return Err(DeviceFault::Clock(error)),
    };
    let mut all: Vec<Resource<Kinds>> = Vec::new(alloc);
    'each: for row in device.resources.as_slice() {
        let kind = row.kind;
        let call: Call = Box::new(alloc, move |state: &[u8], request: &CoapRequest| {
            answer(alloc, kind, state, request)
        })?;
        let resource = resource_of(alloc, row, call)?;
        install(&mut all, resource)?;
    }
    serve_all(rt, alloc, port, begin, device, all)
}

/// Serves the resources that the settings say.
fn serve_all<W: Log + SystemTime + Copy + Drop>(
    rt: W,
    alloc: Global,
    port: DevicePort,
    begin: Instant,
    device: &Settings,
    all: Vec<Resource<Kinds>>,
) -> Result<(), DeviceFault>
    requires rows { AreRows device.now.resources all.items }
    requires keep { EachKeeps kinds all.items }
{
    if let Ok(at) = port.listens_at() {
        info!(&rt; target: "hcproxy", "takes messages at {at}");
    }
    let mut port = port;
    let mut clock = SystemClock::new(rt, begin);
    match serve_rows(alloc, device, all, &mut port, &mut clock, u64::MAX) {
        Ok(_served) => Ok(()),
        Err(Memory::Memory) => Err(DeviceFault::Memory),
    }
}

/// Serves the device that the settings say, by the resources of their rows, for so many turns, or
/// until the wire or the clock fails.
pub fn serve_rows<L: Wire, C: Clock>(
    alloc: Global,
    settings: &Settings,
    all: Vec<Resource<Kinds>>,
    wire: &mut L,
    clock: &mut C,
    turns: u64,
) -> Result<Served, Memory>
    requires rows { AreRows settings.now.resources all.items }
    requires keep { EachKeeps kinds all.items }
    ensures goes { IfOk result (λ served. (new : Device) × GoesThrough kinds turns served
        (device_by settings.now) new (C.told clock.old) (C.told clock.new)
        (L.came wire.old) (L.came wire.new) (L.sent wire.old) (L.sent wire.new)) }
    ensures ends { IfOk result (λ served.
        (served.turns ≡ turns) ⊎ Fails (C.failed clock.new) (L.failed wire.new)) }
    ensures unheard { OnErr result (L.came wire.new ≡ L.came wire.old) }
    ensures unsent { OnErr result (L.sent wire.new ≡ L.sent wire.old) }
    ensures untold { OnErr result (C.told clock.new ≡ C.told clock.old) }
{
    let mut origin = origin_of(alloc, settings, all)?;
    Ok(serve(&mut origin, wire, clock, turns))
}
