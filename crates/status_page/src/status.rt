//! What there is to tell of a gateway that runs.

ghost use Rattle.std.specs.Prelude.{◌≡◌};

use ask_model::Cause;
use std::alloc::Global;
use uri_map::Peer;

/// Whether a gateway takes requests.
#[derive(Clone, Copy, Debug, PartialEq, Eq)]
pub enum Phase {
    Serving,
    /// Its journal is turned over: connections that come wait until that is done.
    Turning,
    /// It stops.
    Stopping,
}

/// How a gateway does. Moments are seconds since 1970 began.
#[derive(Drop)]
pub struct Status {
    pub phase: Phase,
    pub started: u64,
    /// the moment of all this
    pub at: u64,
    pub connections: Connections,
    /// exchanges with devices that are open
    pub exchanges: u64,
    /// responses of devices that are stored
    pub stored: u64,
    pub responses: Responses,
    /// datagrams that were sent and heard
    pub sent: u64,
    pub heard: u64,
    pub journal: Fill,
    pub devices: Vec<Device>,
}

impl Status {
    /// Whether a gateway takes requests at this moment (in seconds since the beginning of 1970),
    /// without any figures.
    pub fn without_figures(alloc: Global, phase: Phase, at: u64) -> Status
        ensures { result.phase ≡ phase }
    {
        Status {
            phase,
            started: at,
            at,
            connections: Connections::default(),
            exchanges: 0,
            stored: 0,
            responses: Responses {
                classes: Classes::default(),
                kept: 0,
                causes: Vec::new(alloc),
            },
            sent: 0,
            heard: 0,
            journal: Fill::default(),
            devices: Vec::new(alloc),
        }
    }
}

/// The connections of clients.
#[derive(Clone, Copy, Default)]
pub struct Connections {
    pub open: u64,
    /// those of them that wait for an answer
    pub asking: u64,
    /// how many were opened since the gateway started
    pub opened: u64,
    /// how many were turned away
    pub refused: u64,
}

/// The answers that were given.
#[derive(Drop)]
pub struct Responses {
    pub classes: Classes,
    /// those that give a response of a device that was stored
    pub kept: u64,
    /// those of the gateway's own, by their cause
    pub causes: Vec<(Cause, u64)>,
}

/// Answers by the class of their status (RFC 9110, section 15).
#[derive(Clone, Copy, Default)]
pub struct Classes {
    pub informational: u64,
    pub success: u64,
    pub redirection: u64,
    pub client_error: u64,
    pub server_error: u64,
}

/// How full a journal is.
#[derive(Clone, Copy, Default)]
pub struct Fill {
    pub entries: u64,
    pub bytes: u64,
    /// how many were turned over before it
    pub turned: u64,
}

/// A device that was asked.
#[derive(Drop)]
pub struct Device {
    pub peer: Peer,
    /// exchanges with it that are open
    pub open: u64,
    /// those of them whose request waits for its turn
    pub queued: u64,
    /// answers to requests for it
    pub answers: u64,
    /// those of them that tell that it didn't reply in time
    pub timeouts: u64,
    pub last: Option<Last>,
}

/// The last answer to a request for a device.
#[derive(Drop)]
pub struct Last {
    pub status: u16,
    /// when it was given, in seconds since 1970 began
    pub at: u64,
    /// as it came, or the beginning of it
    pub request: Vec<u8>,
    /// its entry, where that is one of the journal that there is
    pub ask: Option<u32>,
}
