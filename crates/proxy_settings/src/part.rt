//! The parts of the program, and the settings of each.

ghost use Rattle.std.specs.Prelude.{◌≡◌, ◌↔◌};
ghost use Rattle.toml.specs.Errors.{IsMemory};
ghost use Rattle.toml.specs.View.{table_view};
ghost use Rattle.proxy_settings.specs.Steps.{FindsLast, Finds};
ghost use Rattle.proxy_settings.specs.Setups.{IsSetup, StandsFor};

use crate::device::{Device, device_of};
use crate::fault::{Reason, SetupFault};
use crate::serve::{Serve, serve_of};
use std::alloc::Global;
use toml::Table;

/// A part of the program that has settings.
#[derive(Clone, Copy, Debug, PartialEq, Eq)]
pub enum Part {
    /// The proxy.
    Serve,
    /// The demonstration device.
    Origin,
}

/// The settings of a part.
#[derive(Drop)]
pub enum Setup {
    Serve(Serve),
    Origin(Device),
}

/// The settings of the part that a table stands for. A table that stands for none is refused before
/// anything is allocated.
pub fn setup_of(alloc: Global, part: Part, table: &Table) -> Result<Setup, SetupFault>
    ensures { FindsLast result (IsSetup part (table_view table.now)) }
{
    match part {
        Part::Serve => Ok(Setup::Serve(serve_of(alloc, table)?)),
        Part::Origin => Ok(Setup::Origin(device_of(alloc, table)?)),
    }
}

/// The settings of the part that a TOML text stands for. Reading the text allocates; its table, if
/// it stands for none, is refused before anything else is allocated.
pub fn settings_of(alloc: Global, part: Part, text: &str) -> Result<Setup, SetupFault>
    ensures { Finds result (StandsFor part text.now) }
{
    match toml::table_from_str(alloc, text) {
        Ok(table) => setup_of(alloc, part, &table),
        Err(error) => Err(unread(text, error)),
    }
}

/// Why a text is no TOML.
fn unread(text: &str, error: toml::de::Error) -> SetupFault
    ensures { (result ≡ SetupFault.Memory) ↔ IsMemory error }
{
    let Some(span) = error.span() else {
        return SetupFault::Memory;
    };
    let lines = text
        .bytes()
        .take(span.start)
        .filter(|b| *b == b'\n')
        .count();
    SetupFault::Refused(Reason::Syntax(lines.saturating_add(1), error))
}
