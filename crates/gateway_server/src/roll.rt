//! Who is connected, and what the sessions that ended leave.

use gateway_desk::Pass;
use gateway_system::Line;
use route_bank::Profile;
use std::alloc::{AllocError, Global};
use std::mem;
use std::sync::Arc;
use std::sync::ledger::Ledger;

/// The connection of a session that runs.
#[derive(Drop)]
struct Seat {
    conn: u32,
    line: Arc<Line>,
}

/// The open connections, and the passes of the sessions that ended since the journal began.
#[derive(Drop)]
pub struct Roll<L: Ledger> {
    alloc: Global,
    seats: Vec<Seat>,
    /// how many are open or about to be
    open: usize,
    passes: Vec<Pass<Profile, L>>,
}

impl<L: Ledger> Roll<L> {
    /// Nobody was connected yet.
    pub fn new(alloc: Global) -> Roll<L> {
        Roll {
            alloc,
            seats: Vec::new(alloc),
            open: 0,
            passes: Vec::new(alloc),
        }
    }

    /// Counts one more connection, and makes the places of its seat and of the pass that it leaves.
    pub fn admit(&mut self) -> Result<(), AllocError> {
        let open = self.open.saturating_add(1);
        self.seats.reserve(1)?;
        self.passes.reserve(open)?;
        self.open = open;
        Ok(())
    }

    /// A session begins on this connection.
    pub fn sit(&mut self, conn: u32, line: Arc<Line>) {
        let _ = self.seats.push(Seat { conn, line });
    }

    /// A counted connection is no longer open; its session, if it had one, left this pass.
    pub fn leave(&mut self, conn: Option<u32>, pass: Option<Pass<Profile, L>>) {
        self.open = self.open.saturating_sub(1);
        if let Some(conn) = conn {
            self.seats.retain(|seat| seat.conn != conn);
        }
        if let Some(pass) = pass {
            let _ = self.passes.push(pass);
        }
    }

    /// Whether no connection is open. Those whose sessions have waited for a request for a while at
    /// this moment of the monotonic clock, in milliseconds, are read no more.
    pub fn is_left(&self, now: u64) -> bool {
        for seat in &self.seats {
            seat.line.end_idle(now);
        }
        self.open == 0
    }

    /// The passes of all sessions that ended.
    pub fn take_passes(&mut self) -> Vec<Pass<Profile, L>> {
        mem::replace(&mut self.passes, Vec::new(self.alloc))
    }

    /// Puts passes back that weren't turned over. Nobody was connected meanwhile.
    pub fn put_back(&mut self, passes: Vec<Pass<Profile, L>>) {
        self.passes = passes;
    }
}
