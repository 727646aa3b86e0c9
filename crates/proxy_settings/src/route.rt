//! Between which forms bodies are transformed.

ghost use Rattle.std.specs.Prelude.{◌≡◌, ◌↔◌, IsTrue};
ghost use Rattle.toml.specs.View.{table_view};
ghost use Rattle.proxy_settings.specs.Steps.{Shows};
ghost use Rattle.proxy_settings.specs.Rows.{IsRoute, Suits};
ghost use Rattle.proxy_settings.specs.Written.{from_of, to_of, route_of};

use crate::by::By;
use crate::fault::{SetupFault, Why, Wrong};
use crate::keys::Keys;
use crate::members::{by, media, number};
use crate::rows::Rows;
use media_map::{Form, Media};
use std::alloc::Global;
use toml::Table;

/// A pair of forms, and what transforms bodies of the first into bodies of the second: a `[[down]]`
/// or an `[[up]]`.
#[derive(Drop)]
pub struct Route {
    pub from: Form,
    pub to: Form,
    pub by: By,
}

/// Which way bodies go.
#[derive(Clone, Copy)]
pub(crate) enum Way {
    /// From a device to a client.
    Down,
    /// From a client to a device.
    Up,
}

/// A route as the file writes it.
#[derive(Clone, Copy)]
pub(crate) struct WrittenRoute<'t> {
    format: u16,
    media: &'t str,
    by: By,
}

/// Whether the transformer is one between these forms.
fn suits(way: Way, format: u16, media: &str, by: By) -> bool
    ensures { IsTrue result ↔ Suits by (from_of way format media.now) (to_of way format media.now) }
{
    match (by, way) {
        (By::CborJson, Way::Down) | (By::JsonCbor, Way::Up) => {
            format == 60 && media == "application/json"
        }
        (By::OctetsHex, Way::Down) => format == 42,
        _ => false,
    }
}

/// The route that a table stands for.
fn written(way: Way, table: &Table) -> Result<WrittenRoute<'_>, Wrong>
    ensures { Shows (route_of way) result (IsRoute way (table_view table.now)) }
{
    Keys::Route.check(table)?;
    let (format, media) = match way {
        Way::Down => (number(table, "from", 65535)?, media(table, "to")?),
        Way::Up => (number(table, "to", 65535)?, media(table, "from")?),
    };
    let format = format as u16;
    let by = by(table, "by")?;
    if !suits(way, format, media, by) {
        return Err(Wrong::at("by", Why::NotPair));
    }
    Ok(WrittenRoute { format, media, by })
}

impl Rows for Way {
    type Row = Route;

    ghost use Rattle.proxy_settings.specs.Rows.{IsRoute};
    ghost use Rattle.proxy_settings.specs.Written.{way_key};

    ghost key = { way_key };

    ghost is_row = { IsRoute };

    fn key(&self) -> &'static str {
        match self {
            Way::Down => "down",
            Way::Up => "up",
        }
    }

    fn check(&self, table: &Table) -> Result<(), Wrong> {
        written(*self, table)?;
        Ok(())
    }

    fn read(&self, alloc: Global, table: &Table) -> Result<Route, SetupFault> {
        let route = written(*self, table)?;
        let media = Form::Media(Media::from_str(alloc, route.media)?);
        let format = Form::Format(route.format);
        let (from, to) = match self {
            Way::Down => (format, media),
            Way::Up => (media, format),
        };
        Ok(Route {
            from,
            to,
            by: route.by,
        })
    }
}
