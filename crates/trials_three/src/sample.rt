//! By what the proxy of the trials goes, and its device.

ghost use Rattle.std.specs.Prelude.{◌≡◌, [], IfOk};
ghost use Rattle.ask_model.specs.Views.{rules_of};
ghost use Rattle.demo_origin.specs.Keeps.{KeepsRelation};
ghost use Rattle.demo_origin.specs.Kinds.{counters};

use ask_model::Settings;
use demo_origin::{Behaviour, Handler, Resource, Segments};
use media_map::{Policy, Routes};
use message_layer::Bytes;
use std::alloc::{AllocError, Global};
use std::net::{IpAddr, Ipv4Addr};
use transformers::Relation;
use uri_map::{Directory, Text, Texts};

/// A relation that relates nothing.
pub struct Nothing;

impl Relation for Nothing {
    ghost use Rattle.trials_three.specs.Nothing.{HoldsNothing, TakesNothing};

    ghost holds = { HoldsNothing };

    ghost takes = { TakesNothing };
}

/// Devices with counters.
pub struct Counters;

impl Behaviour for Counters {
    ghost use Rattle.demo_origin.specs.Kinds.{counters};

    ghost relation = { counters };
}

/// The base `/hc/`, and s.example.com at 192.0.2.1. No body is transformed.
pub fn settings(alloc: Global) -> Result<Settings, AllocError>
    ensures { IfOk result (λ s. (rules_of s).routes ≡ []) }
{
    let mut directory = Directory::new(alloc, true);
    directory.add("s.example.com", IpAddr::V4(Ipv4Addr::new(192, 0, 2, 1)))?;
    Ok(Settings {
        base: Text::copy_of(alloc, "/hc/")?,
        directory,
        observed: Texts::new(alloc),
        policy: Policy::default(),
        routes: Routes::new(alloc),
    })
}

/// The counter `c`, which is empty and stays fresh for a minute.
pub fn resource(alloc: Global, handler: Handler<Counters>) -> Result<Resource<Counters>, AllocError>
    requires { KeepsRelation counters handler }
    ensures { IfOk result (λ r. KeepsRelation counters r.handler) }
{
    let mut path = Segments::new(alloc);
    path.push(b"c")?;
    Ok(Resource {
        path,
        format: 0,
        max_age: 60,
        state: Bytes::new(alloc, Vec::new(alloc))?,
        handler,
    })
}
