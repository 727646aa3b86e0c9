//! What came of turns.

use crate::flight::Flight;
use demo_origin::{Behaviour, Origin, Taken};
use gateway_world::Output;
use journal_book::Journal;
use transformers::Relation;

/// A request that the device executed: at which moment in milliseconds, and by which datagram.
#[derive(Drop)]
pub struct Execution {
    pub moment: u64,
    /// The number of the datagram that was delivered.
    pub number: usize,
    pub taken: Taken,
}

/// What came of all turns.
#[derive(Drop)]
pub struct Story<R: Relation, H: Behaviour> {
    /// What the proxy gave out, in order.
    pub outputs: Vec<Output<R>>,
    /// The datagrams that were sent, by either, in order. Their numbers count from 0.
    pub flights: Vec<Flight>,
    /// The proxy's last journal. Those before it are among the outputs.
    pub journal: Journal<R>,
    /// The device at the end.
    pub origin: Origin<H>,
    /// What the device executed, in order.
    pub taken: Vec<Execution>,
}
