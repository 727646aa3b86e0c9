//! The settings that scripts run under: those of a demonstration, or those of a file.

ghost use Rattle.std.specs.Prelude.{◌≡◌, ◌++◌, map, IfOk, OnOk};
ghost use Rattle.ask_model.specs.Views.{rules_of};
ghost use Rattle.command_line.specs.Rules.{line_of, observed_hosts, forms_of, routes_in, rules_in};

use crate::fault::ReplayFault;
use ask_model::Settings;
use media_map::{Form, Media, Policy, Routes};
use proxy_settings::{Origin, Route, Serve};
use std::alloc::{AllocError, Global};
use std::net::{IpAddr, Ipv4Addr};
use uri_map::{Directory, Text, Texts};

/// The content format of CBOR.
const CBOR: u16 = 60;

/// The base `/hc/`, two devices by name, the second of which may be observed, devices by address,
/// and CBOR of devices that clients may have, and send, as JSON.
pub fn demonstration(alloc: Global) -> Result<Settings, ReplayFault> {
    let mut directory = Directory::new(alloc, true);
    directory.add("s.example.com", IpAddr::V4(Ipv4Addr::new(192, 0, 2, 1)))?;
    directory.add("o.example.com", IpAddr::V4(Ipv4Addr::new(192, 0, 2, 2)))?;
    let mut observed = Texts::new(alloc);
    observed.push(Text::copy_of(alloc, "o.example.com")?)?;
    Ok(Settings {
        base: Text::copy_of(alloc, "/hc/")?,
        directory,
        observed,
        policy: Policy::default(),
        routes: demonstration_routes(alloc)?,
    })
}

/// CBOR to JSON on the way to clients, and JSON to CBOR on the way to devices.
fn demonstration_routes(alloc: Global) -> Result<Routes, AllocError> {
    let mut routes = Routes::new(alloc);
    routes.push(Form::Format(CBOR), json(alloc)?)?;
    routes.push(json(alloc)?, Form::Format(CBOR))?;
    Ok(routes)
}

fn json(alloc: Global) -> Result<Form, AllocError> {
    Ok(Form::Media(Media::from_str(alloc, "application/json")?))
}

/// The rules that the settings of a file give the gateway.
pub fn followed(alloc: Global, serve: &Serve) -> Result<Settings, AllocError>
    ensures { IfOk result (λ s. rules_of s ≡ rules_in serve.now) }
{
    let origins = serve.origins.as_slice();
    Ok(Settings {
        base: serve.base.copy()?,
        directory: directory_of(alloc, origins, serve.literals)?,
        observed: observed_of(alloc, origins)?,
        policy: serve.policy,
        routes: routes_of(alloc, serve)?,
    })
}

/// Where the devices are.
fn directory_of(alloc: Global, origins: &[Origin], literals: bool) -> Result<Directory, AllocError>
    ensures { IfOk result (λ d.
        d ≡ record { lines = map line_of origins.now; literals = literals }) }
{
    let mut directory = Directory::new(alloc, literals);
    'each: for origin in origins {
        directory.add(origin.host.as_str(), origin.address)?;
    }
    Ok(directory)
}

/// The names of the devices that may be observed.
fn observed_of(alloc: Global, origins: &[Origin]) -> Result<Texts, AllocError>
    ensures { IfOk result (λ t. t ≡ observed_hosts origins.now) }
{
    let mut observed = Texts::new(alloc);
    'each: for origin in origins {
        if origin.observe {
            observed.push(origin.host.copy()?)?;
        }
    }
    Ok(observed)
}

/// Between which forms bodies are transformed, first on the way to clients, then on the way to
/// devices.
fn routes_of(alloc: Global, serve: &Serve) -> Result<Routes, AllocError>
    ensures { IfOk result (λ r. r ≡ routes_in serve.now) }
{
    let mut routes = Routes::new(alloc);
    add_routes(&mut routes, serve.down.as_slice())?;
    add_routes(&mut routes, serve.up.as_slice())?;
    Ok(routes)
}

/// Puts the forms of each of these routes last.
fn add_routes(routes: &mut Routes, more: &[Route]) -> Result<(), AllocError>
    ensures { OnOk result (routes.new ≡ routes.old ++ map forms_of more.now) }
{
    'each: for route in more {
        routes.push(route.from.copy()?, route.to.copy()?)?;
    }
    Ok(())
}
