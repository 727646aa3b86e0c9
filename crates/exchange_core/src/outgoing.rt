//! Datagrams that go out.

use coap_codec::Bytes;
use std::sync::Arc;
use uri_map::Peer;

/// A datagram that goes out to an endpoint. It shares its bytes with its entry in the journal.
#[derive(Drop)]
pub struct Datagram {
    pub peer: Peer,
    pub bytes: Arc<Bytes>,
}
