//! What joins a reply to its request.

ghost use Rattle.std.specs.Prelude.{◌≡◌};
ghost use Rattle.exchange_model.specs.Backing.{token_in};
ghost use Rattle.journal_copies.specs.Tracing.{line_in};

use coap_codec::Token;
use std::hash::{Hash, Hasher};
use std::net::IpAddr;
use uri_map::{Peer, is_same_peer};

/// An endpoint and a token, which a request and its responses share (RFC 7252 section 5.3.2).
#[derive(Clone, Copy)]
pub struct Line {
    pub peer: Peer,
    pub token: Token,
}

/// The token of a message that has one of eight bytes: it stands after the four of the header (RFC
/// 7252 section 3).
fn token_in(bytes: &[u8]) -> Token
    ensures { result ≡ token_in bytes.now }
{
    if bytes.len() <= 4 {
        return Token::new(&[]);
    }
    let rest = &bytes[4..];
    if rest.len() <= 8 {
        return Token::new(rest);
    }
    Token::new(&rest[..8])
}

/// What joins such a message to others.
pub fn line_in(peer: Peer, bytes: &[u8]) -> Line
    ensures { result ≡ line_in peer bytes.now }
{
    Line {
        peer,
        token: token_in(bytes),
    }
}

impl PartialEq for Line {
    ghost use Rattle.std.specs.Cmp.{partial_equiv_from_equiv};
    ghost use Rattle.journal_copies.specs.Lines.{same_line};
    ghost use Rattle.journal_copies.specs.EqualLines.{same_line-equiv};

    ghost eq = { same_line };

    ghost laws = { partial_equiv_from_equiv same_line-equiv };

    fn eq(&self, other: &Line) -> bool {
        is_same_peer(&self.peer, &other.peer) && self.token == other.token
    }
}

impl Eq for Line {
    ghost use Rattle.journal_copies.specs.EqualLines.{same_line-equiv};

    ghost laws = { same_line-equiv };
}

impl Hash for Line {
    ghost use Rattle.journal_copies.specs.Lines.{line_input};
    ghost use Rattle.journal_copies.specs.EqualLines.{same_line-input};

    ghost hash_input = { line_input };

    ghost respects_eq = { same_line-input };

    fn hash<H: Hasher>(&self, state: &mut H) {
        match self.peer.address {
            IpAddr::V4(address) => state.write(&address.octets()),
            IpAddr::V6(address) => state.write(&address.octets()),
        }
        state.write_u16(self.peer.port);
        state.write(self.token.as_slice());
    }
}
