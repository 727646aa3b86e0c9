//! The lines that tell of outputs, and those of entries.

use command_line::ReplayFault;
use gateway_world::{Output, World};
use journal_book::Entry;
use journal_lines::{Payloads, Unwritten};
use std::alloc::Global;
use std::io::{self, Write};
use transformers::Relation;

/// A failed write is a failed device.
fn written(outcome: io::Result<()>) -> Result<(), ReplayFault> {
    outcome.map_err(|_| ReplayFault::Device)
}

/// Why a line isn't written, as a run tells it.
fn line(outcome: Result<(), Unwritten>) -> Result<(), ReplayFault> {
    match outcome {
        Ok(()) => Ok(()),
        Err(Unwritten::Memory) => Err(ReplayFault::Memory),
        Err(Unwritten::Device) => Err(ReplayFault::Device),
    }
}

/// Writes `NUMBER MOMENT` and what happened.
pub(crate) fn write_entry<R: Relation, W: Write>(
    alloc: Global,
    writer: &mut W,
    number: usize,
    entry: &Entry<R>,
) -> Result<(), ReplayFault> {
    let shown = Payloads::Shown;
    line(journal_lines::write_entry(alloc, writer, number, entry, shown))
}

/// Writes what an input gave out, after which the world is this.
pub(crate) fn write_outputs<R: Relation, W: Write>(
    alloc: Global,
    writer: &mut W,
    world: &World<R>,
    outputs: &[Output<R>],
) -> Result<(), ReplayFault> {
    for output in outputs {
        write_output(alloc, writer, world, output)?;
    }
    Ok(())
}

/// Writes `MOMENT bytes CONN HEX`, `MOMENT datagram PEER HEX`, `MOMENT closed CONN`,
/// `MOMENT turned`, `MOMENT rotated COUNT` with the entries of the new journal, or
/// `MOMENT unrotated FAULT`.
pub fn write_output<R: Relation, W: Write>(
    alloc: Global,
    writer: &mut W,
    world: &World<R>,
    output: &Output<R>,
) -> Result<(), ReplayFault> {
    let moment = world.moment();
    match output {
        Output::Bytes(connection, bytes) => {
            let bytes = hex::encode(alloc, bytes.as_slice())?;
            written(writeln!(writer, "{moment} bytes {connection} {bytes}"))
        }
        Output::Datagram(datagram) => {
            written(write!(writer, "{moment} "))?;
            let bytes = datagram.bytes.as_slice();
            let peer = datagram.peer;
            line(journal_lines::write_datagram(alloc, writer, "datagram", peer, bytes))
        }
        Output::Closed(connection) => written(writeln!(writer, "{moment} closed {connection}")),
        // No run has one: its input is refused.
        Output::GivenUp(connection) => written(writeln!(writer, "{moment} closed {connection}")),
        Output::Turned => written(writeln!(writer, "{moment} turned")),
        Output::Rotated(_) => {
            let count = world.journal().len();
            written(writeln!(writer, "{moment} rotated {count}"))
        }
        Output::Unrotated(fault) => {
            let fault = *fault as u8;
            written(writeln!(writer, "{moment} unrotated {fault}"))
        }
    }
}
