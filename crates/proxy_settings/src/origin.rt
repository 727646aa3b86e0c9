//! The devices behind the proxy.

ghost use Rattle.std.specs.Prelude.{◌≡◌};
ghost use Rattle.toml.specs.View.{table_view};
ghost use Rattle.proxy_settings.specs.Steps.{Shows};
ghost use Rattle.proxy_settings.specs.Rows.{IsOrigin};
ghost use Rattle.proxy_settings.specs.Written.{origin_of};

use crate::fault::{SetupFault, Wrong};
use crate::keys::Keys;
use crate::listing::Named;
use crate::members::{address, host, switch};
use crate::rows::Rows;
use std::alloc::Global;
use std::net::IpAddr;
use toml::Table;
use uri_map::Text;

/// A device behind the proxy: `[[origin]]`.
#[derive(Drop)]
pub struct Origin {
    /// Its name, in lower case.
    pub host: Text,
    /// Where it is.
    pub address: IpAddr,
    /// Whether its resources may be observed (RFC 7641).
    pub observe: bool,
}

/// A device as the file writes it.
#[derive(Clone, Copy)]
pub(crate) struct WrittenOrigin<'t> {
    host: &'t str,
    address: IpAddr,
    observe: bool,
}

/// The device that a table stands for.
fn written(table: &Table) -> Result<WrittenOrigin<'_>, Wrong>
    ensures { Shows origin_of result (IsOrigin (table_view table.now)) }
{
    Keys::Origin.check(table)?;
    Ok(WrittenOrigin {
        host: host(table, "host")?,
        address: address(table, "address")?,
        observe: switch(table, "observe", false)?,
    })
}

/// The tables `[[origin]]`.
pub(crate) struct Origins;

impl Rows for Origins {
    type Row = Origin;

    ghost use Rattle.std.specs.Prelude.{codes};
    ghost use Rattle.proxy_settings.specs.Rows.{IsOrigin};

    ghost key = { λ _. codes "origin" };

    ghost is_row = { λ _. IsOrigin };

    fn key(&self) -> &'static str {
        "origin"
    }

    fn check(&self, table: &Table) -> Result<(), Wrong> {
        written(table)?;
        Ok(())
    }

    fn read(&self, alloc: Global, table: &Table) -> Result<Origin, SetupFault> {
        let origin = written(table)?;
        let mut host = String::from_str(alloc, origin.host)?;
        host.make_ascii_lowercase();
        Ok(Origin {
            host: Text::of(host),
            address: origin.address,
            observe: origin.observe,
        })
    }
}

impl Named for Origin {
    ghost name = { λ o. o.host };

    fn name(&self) -> &str {
        self.host.as_str()
    }
}
