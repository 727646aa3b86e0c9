//! What happens, one turn after another.

use gateway_world::{Input, When};

/// One turn. A moment below that of an earlier turn counts as that, and one above 2^62 as this.
#[derive(Clone, Copy)]
pub enum Turn<'a> {
    /// An input to the proxy. A datagram handed in so is lost: the network alone delivers them.
    Proxy(Input<'a>),
    /// The device looks at its timers, at this moment in milliseconds.
    Device(u64),
    /// The network delivers the datagram with this number, counted from 0 in the order in which all
    /// were sent: to the proxy with these random bits, or to the device. It does nothing where none
    /// was sent, where that was more than 100 seconds ago, or where it is for nobody here.
    Deliver(When, usize),
}
