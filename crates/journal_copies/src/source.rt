//! What a message is known by.

use std::hash::{Hash, Hasher};
use std::net::IpAddr;
use uri_map::{Peer, is_same_peer};

/// Where a message came from, and its message ID. Two messages with the same source within 247
/// seconds (EXCHANGE_LIFETIME) are copies of one (RFC 7252 section 4.5).
#[derive(Clone, Copy)]
pub struct Source {
    pub peer: Peer,
    pub mid: u16,
}

impl PartialEq for Source {
    ghost use Rattle.std.specs.Cmp.{partial_equiv_from_equiv};
    ghost use Rattle.journal_copies.specs.Sources.{same_source};
    ghost use Rattle.journal_copies.specs.Equal.{same_source-equiv};

    ghost eq = { same_source };

    ghost laws = { partial_equiv_from_equiv same_source-equiv };

    fn eq(&self, other: &Source) -> bool {
        is_same_peer(&self.peer, &other.peer) && self.mid == other.mid
    }
}

impl Eq for Source {
    ghost use Rattle.journal_copies.specs.Equal.{same_source-equiv};

    ghost laws = { same_source-equiv };
}

impl Hash for Source {
    ghost use Rattle.journal_copies.specs.Sources.{source_input};
    ghost use Rattle.journal_copies.specs.Equal.{same_source-input};

    ghost hash_input = { source_input };

    ghost respects_eq = { same_source-input };

    fn hash<H: Hasher>(&self, state: &mut H) {
        match self.peer.address {
            IpAddr::V4(address) => state.write(&address.octets()),
            IpAddr::V6(address) => state.write(&address.octets()),
        }
        state.write_u16(self.peer.port);
        state.write_u16(self.mid);
    }
}
