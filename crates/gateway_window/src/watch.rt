//! What is counted for those who look at the gateway, and what they are told.

use crate::figures::Figures;
use crate::given::Given;
use crate::shown::Shown;
use crate::tally::{CAUSES, MOST_DEVICES, Row, Tally};
use exchange_model::Exchange;
use server_faults::ServeFault;
use status_page::{Connections, Device, Fill, Last, Phase, Responses, Status};
use std::alloc::{AllocError, Global};
use std::rt::Clock;
use std::sync::atomic::{AtomicU64, Ordering};
use std::sync::{Mutex, Wait};
use uri_map::is_same_peer;

/// What is counted since the gateway started.
#[derive(Drop)]
pub struct Watch {
    /// when that was: in seconds since the beginning of 1970, and in milliseconds of the monotonic
    /// clock
    started: u64,
    begin: u64,
    tally: Mutex<Tally>,
    /// connections that were taken, and that were turned away
    opened: AtomicU64,
    refused: AtomicU64,
    /// journals that were turned over
    turned: AtomicU64,
    /// how many look at the gateway
    viewers: AtomicU64,
}

/// The time of the monotonic clock, in milliseconds. None where it cannot be read.
pub fn moment<W: Clock>(rt: &W) -> Option<u64> {
    let gone = rt.monotonic().ok()?;
    Some(u64::try_from(gone.as_millis()).unwrap_or(u64::MAX))
}

impl Watch {
    /// Nothing is counted yet.
    pub fn new<W: Clock>(rt: &W, alloc: Global) -> Result<Watch, ServeFault> {
        let started = match rt.since_1970() {
            Ok(started) => started.as_secs(),
            Err(error) => return Err(ServeFault::Clock(error)),
        };
        Ok(Watch {
            started,
            begin: moment(rt).unwrap_or(0),
            tally: Mutex::new(Tally::new(alloc)?),
            opened: AtomicU64::new(0),
            refused: AtomicU64::new(0),
            turned: AtomicU64::new(0),
            viewers: AtomicU64::new(0),
        })
    }

    /// Counts the answer to the request with this entry.
    pub fn count_answer<W: Wait + Clock>(&self, rt: &W, given: &Given<'_>, ask: u32) {
        let now = moment(rt).unwrap_or(self.begin);
        let turned = self.turned();
        self.tally.lock(rt).count(given, ask, now, turned);
    }

    /// Counts a connection that was taken or turned away.
    pub fn count_connection(&self, taken: bool) {
        let count = if taken { &self.opened } else { &self.refused };
        count.fetch_add(1, Ordering::SeqCst);
    }

    /// Counts a journal that was turned over.
    pub fn count_turned(&self) {
        self.turned.fetch_add(1, Ordering::SeqCst);
    }

    /// How many journals were turned over.
    pub fn turned(&self) -> u64 {
        self.turned.load(Ordering::SeqCst)
    }

    /// How many look at the gateway.
    pub fn viewers(&self) -> u64 {
        self.viewers.load(Ordering::SeqCst)
    }

    /// One more does.
    pub fn add_viewer(&self) {
        self.viewers.fetch_add(1, Ordering::SeqCst);
    }

    /// One does no more.
    pub fn remove_viewer(&self) {
        self.viewers.fetch_sub(1, Ordering::SeqCst);
    }

    /// A moment of the monotonic clock, as seconds since the beginning of 1970.
    fn seconds(&self, at: u64) -> u64 {
        let gone = at.saturating_sub(self.begin) / 1000;
        self.started.saturating_add(gone)
    }

    /// Now, as seconds since the beginning of 1970.
    fn now<W: Clock>(&self, rt: &W) -> u64 {
        self.seconds(moment(rt).unwrap_or(self.begin))
    }

    /// What was answered so far. The lock is held while that is copied.
    fn tally<W: Wait>(&self, rt: &W, alloc: Global) -> Result<Tally, AllocError> {
        let rows = Vec::with_capacity(alloc, MOST_DEVICES)?;
        self.tally.lock(rt).copy(rows)
    }

    /// What is known of a device for which something was answered.
    fn device_of(&self, alloc: Global, row: &Row) -> Result<Device, AllocError> {
        Ok(Device {
            peer: row.peer,
            open: 0,
            queued: 0,
            answers: row.answers,
            timeouts: row.timeouts,
            last: Some(Last {
                status: row.status,
                at: self.seconds(row.at),
                request: Vec::from_slice(alloc, row.request.as_slice())?,
                ask: (row.turned == self.turned()).then_some(row.ask),
            }),
        })
    }

    /// What is known of each device for which something was answered, or with which an exchange is
    /// open.
    fn devices(
        &self,
        alloc: Global,
        rows: &[Row],
        exchanges: &[Exchange],
    ) -> Result<Vec<Device>, AllocError> {
        let mut devices = Vec::with_capacity(alloc, rows.len())?;
        'each: for row in rows {
            devices.push(self.device_of(alloc, row)?)?;
        }
        'open: for exchange in exchanges {
            add_exchange(&mut devices, exchange)?;
        }
        Ok(devices)
    }

    /// The connections.
    fn connections(&self, figures: &Figures) -> Connections {
        Connections {
            open: figures.connections as u64,
            asking: figures.asking as u64,
            opened: self.opened.load(Ordering::SeqCst),
            refused: self.refused.load(Ordering::SeqCst),
        }
    }
}

/// Counts an exchange that is open at its device.
fn add_exchange(devices: &mut Vec<Device>, exchange: &Exchange) -> Result<(), AllocError> {
    let queued = u64::from(exchange.sending.is_none());
    'each: for device in devices.iter_mut() {
        if is_same_peer(&device.peer, &exchange.peer) {
            device.open = device.open.saturating_add(1);
            device.queued = device.queued.saturating_add(queued);
            return Ok(());
        }
    }
    devices.push(Device {
        peer: exchange.peer,
        open: 1,
        queued,
        answers: 0,
        timeouts: 0,
        last: None,
    })?;
    Ok(())
}

/// The answers so far.
fn responses_of(alloc: Global, tally: &Tally) -> Result<Responses, AllocError> {
    let mut causes = Vec::with_capacity(alloc, CAUSES.len())?;
    'each: for (cause, count) in CAUSES.iter().zip(tally.causes.iter()) {
        causes.push((*cause, *count))?;
    }
    Ok(Responses {
        classes: tally.classes,
        kept: tally.kept,
        causes,
    })
}

/// How the gateway does, without figures: it is not asked for any.
pub fn brief_status_of<W: Wait + Clock, G: Shown>(
    rt: &W,
    alloc: Global,
    gateway: &G,
    watch: &Watch,
) -> Status {
    Status::without_figures(alloc, gateway.phase(rt), watch.now(rt))
}

/// How the gateway does now. What this is made from is copied first.
pub fn status_of<W: Wait + Clock, G: Shown>(
    rt: &W,
    alloc: Global,
    gateway: &G,
    watch: &Watch,
) -> Result<Status, AllocError> {
    let figures = gateway.figures(rt, alloc)?;
    let tally = watch.tally(rt, alloc)?;
    Ok(Status {
        phase: gateway.phase(rt),
        started: watch.started,
        at: watch.now(rt),
        connections: watch.connections(&figures),
        exchanges: figures.exchanges.len() as u64,
        stored: figures.stored as u64,
        responses: responses_of(alloc, &tally)?,
        sent: figures.sent,
        heard: figures.heard,
        journal: Fill {
            entries: figures.entries as u64,
            bytes: figures.bytes,
            turned: watch.turned(),
        },
        devices: watch.devices(alloc, &tally.rows, &figures.exchanges)?,
    })
}
