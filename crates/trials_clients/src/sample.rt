//! Where requests lead.

ghost use Rattle.std.specs.Prelude.{◌≡◌, [], IfOk, IfSome};
ghost use Rattle.std.specs.Arc.{arc_value};
ghost use Rattle.ask_model.specs.Views.{rules_of};
ghost use Rattle.trials_clients.specs.Nothing.{HoldsNothing, TakesNothing};

use ask_model::Settings;
use media_map::{Policy, Routes};
use std::alloc::{AllocError, Global};
use std::net::{IpAddr, Ipv4Addr};
use std::sync::Arc;
use transformers::Relation;
use uri_map::{Directory, Text, Texts};

/// A relation that relates nothing.
pub struct Nothing;

impl Relation for Nothing {
    ghost use Rattle.trials_clients.specs.Nothing.{HoldsNothing, TakesNothing};

    ghost holds = { HoldsNothing };

    ghost takes = { TakesNothing };
}

/// The base `/hc/`, s.example.com at 192.0.2.1, and servers by their addresses. No body is
/// transformed.
pub fn settings(alloc: Global) -> Result<Settings, AllocError>
    ensures { IfOk result (λ s. (rules_of s).routes ≡ []) }
{
    let mut directory = Directory::new(alloc, true);
    directory.add("s.example.com", IpAddr::V4(Ipv4Addr::new(192, 0, 2, 1)))?;
    Ok(Settings {
        base: Text::copy_of(alloc, "/hc/")?,
        directory,
        observed: Texts::new(alloc),
        policy: Policy::default(),
        routes: Routes::new(alloc),
    })
}

/// The same, to be shared.
pub fn shared_settings(alloc: Global) -> Option<Arc<Settings>>
    ensures { IfSome result (λ s. (rules_of (arc_value s)).routes ≡ []) }
{
    match settings(alloc) {
        Ok(settings) => Arc::new(alloc, settings).ok(),
        Err(_) => None,
    }
}
