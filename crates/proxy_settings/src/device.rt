//! The settings of the demonstration device.

ghost use Rattle.std.specs.Prelude.{◌≡◌, IfOk, OnErr};
ghost use Rattle.toml.specs.View.{table_view};
ghost use Rattle.proxy_settings.specs.Steps.{FindsLast};
ghost use Rattle.proxy_settings.specs.Setups.{IsDevice};
ghost use Rattle.proxy_settings.specs.Fronts.{IsDeviceFront};

use crate::fault::{SetupFault, Wrong};
use crate::keys::Keys;
use crate::listing::{Listing, firsts};
use crate::members::{endpoint, number_or};
use crate::resource::{Resource, Resources};
use crate::rows::{check, read};
use std::alloc::Global;
use toml::Table;
use uri_map::Peer;

/// The settings of the demonstration device.
#[derive(Drop)]
pub struct Device {
    /// Where CoAP messages are taken: `listen`.
    pub listen: Peer,
    /// The size exponent of its largest block (RFC 7959 section 2.2): `block`, from 0 for 16 bytes
    /// to 6 for 1,024 bytes; without it, 6.
    pub block: u8,
    /// Its resources, no two of a path: of equal paths the first counts.
    pub resources: Listing<Resource>,
}

/// What is read of a table before any memory is taken for it.
#[derive(Clone, Copy)]
pub(crate) struct DeviceFront {
    listen: Peer,
    block: u8,
}

/// Reads what takes no memory, and refuses a table that stands for no settings.
fn front_of(table: &Table) -> Result<DeviceFront, Wrong>
    ensures ok { IfOk result (IsDeviceFront (table_view table.now)) }
    ensures err { OnErr result ((d : Device) → IsDevice (table_view table.now) d → ⊥) }
{
    Keys::Device.check(table)?;
    let listen = endpoint(table, "listen")?;
    let block = number_or(table, "block", 6, 6)?;
    check(&Resources, table)?;
    Ok(DeviceFront {
        listen,
        block: block as u8,
    })
}

/// The settings that a table stands for.
pub(crate) fn device_of(alloc: Global, table: &Table) -> Result<Device, SetupFault>
    ensures { FindsLast result (IsDevice (table_view table.now)) }
{
    let front = front_of(table)?;
    let written = read(alloc, &Resources, table)?;
    let resources = firsts(alloc, written)?;
    Ok(Device {
        listen: front.listen,
        block: front.block,
        resources,
    })
}
