//! How much there is of everything, at one moment.

use exchange_model::Exchange;

/// How much there is of everything, at one moment.
#[derive(Drop)]
pub struct Figures {
    /// connections that are open
    pub connections: usize,
    /// those of them that wait for an answer
    pub asking: usize,
    /// entries of the journal
    pub entries: usize,
    /// how many bytes they count
    pub bytes: u64,
    /// responses that are stored
    pub stored: usize,
    /// the exchanges that are open, in the order in which they were opened
    pub exchanges: Vec<Exchange>,
    /// datagrams that were sent and heard
    pub sent: u64,
    pub heard: u64,
}
