//! The bytes of a connection, read as requests.

ghost use Rattle.std.specs.Prelude.{◌≡◌, ◌≤◌, ◌<◌, ◌+◌, length, false, IfOk, OnOk, OnErr, []};
ghost use Rattle.http_edge.specs.Edges.{Stands, is_told, unread_len};
ghost use Rattle.sessions.specs.Devices.{Rises, Grown};
ghost use Rattle.sessions.specs.Steps.{TakesRead};

use crate::devices::Stream;
use gateway_desk::Failed;
use http_edge::{Edge, Memory};
use std::alloc::Global;

/// As many bytes as an edge has room for.
const ROOM: usize = 8192;

/// An edge, and a buffer that bytes pass through on their way to it.
#[derive(Drop)]
pub struct Reading {
    pub edge: Edge,
    buffer: [u8; ROOM],
}

impl Reading {
    /// No bytes.
    pub fn new(alloc: Global) -> Result<Reading, Memory>
        ensures stands { IfOk result (λ r. Stands r.edge []) }
        ensures told { IfOk result (λ r. is_told r.edge ≡ false) }
    {
        Ok(Reading {
            edge: Edge::new(alloc)?,
            buffer: [0u8; ROOM],
        })
    }

    /// Reads as much of the connection as the edge has room for, between two requests or within
    /// one. False at the connection's end.
    pub fn more<S: Stream>(&mut self, stream: &mut S, between: bool) -> Result<bool, Failed>
        requires room { unread_len self.old.edge < 8192 }
        ensures same { Grown (S.written stream.old) (S.written stream.new) [] }
        ensures takes { IfOk result (λ goes_on.
            TakesRead goes_on self.old.edge self.new.edge (S.gave stream.old) (S.gave stream.new)) }
        ensures none { OnErr result (Grown (S.gave stream.old) (S.gave stream.new) []) }
        ensures ok { OnOk result (S.count stream.new ≡ S.count stream.old) }
        ensures err { OnErr result (Rises (S.count stream.old) (S.count stream.new)) }
    {
        let room = ROOM - self.edge.unread();
        let buffer = &mut self.buffer[..];
        read_into(stream, &mut self.edge, &mut buffer[..room], between)
    }
}

/// Reads into the buffer, and gives all of it to the edge, which has room for it. False where
/// nothing comes any more.
fn read_into<S: Stream>(
    stream: &mut S,
    edge: &mut Edge,
    buffer: &mut [u8],
    between: bool,
) -> Result<bool, Failed>
    requires room { 0 < length buffer.old }
    requires fits { unread_len edge.old + length buffer.old ≤ 8192 }
    ensures same { Grown (S.written stream.old) (S.written stream.new) [] }
    ensures takes { IfOk result (λ goes_on.
        TakesRead goes_on edge.old edge.new (S.gave stream.old) (S.gave stream.new)) }
    ensures none { OnErr result (Grown (S.gave stream.old) (S.gave stream.new) []) }
    ensures ok { OnOk result (S.count stream.new ≡ S.count stream.old) }
    ensures err { OnErr result (Rises (S.count stream.old) (S.count stream.new)) }
{
    let count = stream.read(buffer, between)?;
    edge.feed(&buffer[..count]);
    Ok(count > 0)
}
