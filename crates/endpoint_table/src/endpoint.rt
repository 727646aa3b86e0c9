//! One endpoint.

ghost use Rattle.std.specs.Prelude.{◌≡◌, IfOk};
ghost use Rattle.endpoint_table.specs.Tables.{peer_link};

use message_layer::Link;
use std::alloc::AllocError;
use uri_map::Peer;

/// The messages between the proxy and one endpoint.
#[derive(Drop)]
pub struct Endpoint {
    pub peer: Peer,
    pub link: Link,
}

/// An equal link to the endpoint, which shares the bytes of its messages.
pub fn copy_endpoint(endpoint: &Endpoint) -> Result<Endpoint, AllocError>
    ensures { IfOk result (λ x. peer_link x ≡ peer_link endpoint.now) }
{
    match endpoint.link.copy() {
        Ok(link) => Ok(Endpoint {
            peer: endpoint.peer,
            link,
        }),
        Err(_) => Err(AllocError),
    }
}
