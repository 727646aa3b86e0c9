//! How much the loop has of everything, at one moment.

ghost use Rattle.std.specs.Prelude.{◌≡◌, IfOk, count_by};
ghost use Rattle.exchange_model.specs.Room.{has_asked};
ghost use Rattle.loop_system.specs.Figures.{AreOf};

use crate::devices::Devices;
use exchange_core::Core;
use exchange_model::{Conn, Exchange};
use gateway_window::Figures;
use std::alloc::{AllocError, Global};
use transformers::Relation;

/// How many connections wait for an answer.
fn asking_count(conns: &[Conn]) -> usize
    ensures { result ≡ count_by has_asked conns.now }
{
    conns.iter().filter(|conn| conn.pending.is_some()).count()
}

/// The figures of a core, and of the socket towards the devices.
pub fn figures_of<R: Relation>(
    alloc: Global,
    core: &Core<R>,
    devices: &Devices,
) -> Result<Figures, AllocError>
    ensures { IfOk result (λ f. AreOf f core.now.state) }
{
    let mut exchanges: Vec<Exchange> = Vec::new(alloc);
    exchanges.extend_from_slice(core.exchanges())?;
    let conns = core.conns();
    let journal = core.journal();
    Ok(Figures {
        connections: conns.len(),
        asking: asking_count(conns),
        entries: journal.len().saturating_sub(journal.given()),
        bytes: core.bytes(),
        stored: core.stored_count(),
        exchanges,
        sent: devices.sent,
        heard: devices.heard,
    })
}
