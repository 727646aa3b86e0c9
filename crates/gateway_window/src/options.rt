//! What an operator chooses of how the gateway runs.

use journal_lines::Payloads;

/// How long a client may stand still in a request, in seconds, if nothing else is chosen.
const IDLE: u64 = 60;

/// How many bytes of what happened are held, if nothing else is chosen: 64 MiB.
const HELD: u64 = 67_108_864;

/// What an operator chooses of how the gateway runs.
#[derive(Clone, Copy)]
pub struct Options {
    /// Each answer is noted.
    pub access: bool,
    /// For how many seconds, at least one, a client may stand still in a request, and an answer may
    /// be on its way to it; and how long a connection is idle at least before it may be closed for
    /// another one.
    pub idle: u64,
    /// How many bytes of what happened are held in memory.
    pub held: u64,
    /// Whoever looks at the journal sees what datagrams carry.
    pub payloads: Payloads,
}

impl Default for Options {
    fn default() -> Options {
        Options {
            access: false,
            idle: IDLE,
            held: HELD,
            payloads: Payloads::Hidden,
        }
    }
}
