//! The resources of the demonstration device.

ghost use Rattle.std.specs.Prelude.{◌≡◌};
ghost use Rattle.toml.specs.View.{table_view};
ghost use Rattle.proxy_settings.specs.Steps.{Shows};
ghost use Rattle.proxy_settings.specs.Rows.{IsResource};
ghost use Rattle.proxy_settings.specs.Written.{resource_of};

use crate::fault::{SetupFault, Wrong};
use crate::keys::Keys;
use crate::kind::Kind;
use crate::listing::Named;
use crate::members::{kind, number_or, state, text};
use crate::rows::Rows;
use std::alloc::Global;
use toml::Table;
use uri_map::Text;

/// A resource of the demonstration device: `[[resource]]`.
#[derive(Drop)]
pub struct Resource {
    /// Its path: the values of its Uri-Path options with `/` between them.
    pub path: Text,
    pub kind: Kind,
    /// What it holds at first, at most 65,536 bytes.
    pub state: Text,
    /// Its content format (RFC 7252, section 12.3).
    pub format: u16,
    /// How many seconds its responses stay fresh (RFC 7252, section 5.10.5).
    pub max_age: u32,
}

/// A resource as the file writes it.
#[derive(Clone, Copy)]
pub(crate) struct WrittenResource<'t> {
    path: &'t str,
    kind: Kind,
    state: &'t str,
    format: u16,
    max_age: u32,
}

/// The resource that a table stands for.
fn written(table: &Table) -> Result<WrittenResource<'_>, Wrong>
    ensures { Shows resource_of result (IsResource (table_view table.now)) }
{
    Keys::Resource.check(table)?;
    let path = text(table, "path")?;
    let kind = kind(table, "kind")?;
    let state = state(table, "state")?;
    let format = number_or(table, "format", 65535, 0)?;
    let max_age = number_or(table, "max_age", u32::MAX, 60)?;
    Ok(WrittenResource {
        path,
        kind,
        state,
        format: format as u16,
        max_age,
    })
}

/// The tables `[[resource]]`.
pub(crate) struct Resources;

impl Rows for Resources {
    type Row = Resource;

    ghost use Rattle.std.specs.Prelude.{codes};
    ghost use Rattle.proxy_settings.specs.Rows.{IsResource};

    ghost key = { λ _. codes "resource" };

    ghost is_row = { λ _. IsResource };

    fn key(&self) -> &'static str {
        "resource"
    }

    fn check(&self, table: &Table) -> Result<(), Wrong> {
        written(table)?;
        Ok(())
    }

    fn read(&self, alloc: Global, table: &Table) -> Result<Resource, SetupFault> {
        let resource = written(table)?;
        Ok(Resource {
            path: Text::copy_of(alloc, resource.path)?,
            kind: resource.kind,
            state: Text::copy_of(alloc, resource.state)?,
            format: resource.format,
            max_age: resource.max_age,
        })
    }
}

impl Named for Resource {
    ghost name = { λ r. r.path };

    fn name(&self) -> &str {
        self.path.as_str()
    }
}
