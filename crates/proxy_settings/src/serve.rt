//! The settings of the proxy.

ghost use Rattle.std.specs.Prelude.{◌≡◌, IfOk, OnErr};
ghost use Rattle.toml.specs.View.{table_view};
ghost use Rattle.proxy_settings.specs.Steps.{FindsLast};
ghost use Rattle.proxy_settings.specs.Setups.{IsServe};
ghost use Rattle.proxy_settings.specs.Fronts.{IsFront};

use crate::fault::{SetupFault, Wrong};
use crate::keys::Keys;
use crate::listing::{Listing, firsts};
use crate::members::{base, endpoint, switch};
use crate::origin::{Origin, Origins};
use crate::route::{Route, Way};
use crate::rows::{check, read};
use media_map::Policy;
use std::alloc::Global;
use toml::Table;
use uri_map::{Peer, Text};

/// The settings of the proxy.
#[derive(Drop)]
pub struct Serve {
    /// Where HTTP connections are taken: `listen`.
    pub listen: Peer,
    /// From where CoAP messages are sent: `udp`.
    pub udp: Peer,
    /// The path that a target begins with if it names a CoAP resource (RFC 8075 section 5.3):
    /// `base`; without it, `/hc/`.
    pub base: Text,
    /// Whether addresses in targets are taken as they are: `literals`; without it, true.
    pub literals: bool,
    /// How far media types are taken that CoAP does not know: `loose` and `pass`; without them,
    /// false.
    pub policy: Policy,
    /// The devices, no two of a name: of equal names the first counts.
    pub origins: Listing<Origin>,
    /// What is transformed on its way to a client.
    pub down: Listing<Route>,
    /// What is transformed on its way to a device.
    pub up: Listing<Route>,
}

/// What is read of a table before any memory is taken for it.
#[derive(Clone, Copy)]
pub(crate) struct Front<'t> {
    listen: Peer,
    udp: Peer,
    base: &'t str,
    literals: bool,
    policy: Policy,
}

/// Reads what takes no memory, and refuses a table that stands for no settings.
fn front_of(table: &Table) -> Result<Front<'_>, Wrong>
    ensures ok { IfOk result (IsFront (table_view table.now)) }
    ensures err { OnErr result ((s : Serve) → IsServe (table_view table.now) s → ⊥) }
{
    Keys::Serve.check(table)?;
    let listen = endpoint(table, "listen")?;
    let udp = endpoint(table, "udp")?;
    let base = base(table, "base")?;
    let literals = switch(table, "literals", true)?;
    let loose = switch(table, "loose", false)?;
    let pass = switch(table, "pass", false)?;
    check(&Origins, table)?;
    check(&Way::Down, table)?;
    check(&Way::Up, table)?;
    Ok(Front {
        listen,
        udp,
        base,
        literals,
        policy: Policy { loose, pass },
    })
}

/// The settings that a table stands for.
pub(crate) fn serve_of(alloc: Global, table: &Table) -> Result<Serve, SetupFault>
    ensures { FindsLast result (IsServe (table_view table.now)) }
{
    let front = front_of(table)?;
    let base = Text::copy_of(alloc, front.base)?;
    let written = read(alloc, &Origins, table)?;
    let origins = firsts(alloc, written)?;
    let down = read(alloc, &Way::Down, table)?;
    let up = read(alloc, &Way::Up, table)?;
    Ok(Serve {
        listen: front.listen,
        udp: front.udp,
        base,
        literals: front.literals,
        policy: front.policy,
        origins,
        down,
        up,
    })
}
