//! Messages that are rejected.

ghost use Rattle.std.specs.Prelude.{◌≡◌, Some, IfOk, OnOk, OnErr};
ghost use Rattle.message_layer.specs.Hearing.{reset_for};
ghost use Rattle.demo_origin.specs.Values.{seen};
ghost use Rattle.demo_origin.specs.Answers.{noted, sent};
ghost use Rattle.demo_origin.specs.Hearing.{rst, undecoded};

use crate::answer::{Asker, make_room, note, send};
use crate::state::{Datagram, State};
use message_layer::Bytes;
use std::alloc::{AllocError, Global};
use uri_map::Peer;

/// The bytes of the RST with that ID.
fn rst(mid: u16) -> [u8; 4]
    ensures { result ≡ rst mid }
{
    [0x70, 0, (mid / 256) as u8, (mid % 256) as u8]
}

/// An RST with that ID.
fn rst_of(alloc: Global, mid: u16) -> Result<Bytes, AllocError>
    ensures { IfOk result (λ b. b ≡ rst mid) }
{
    let bytes = Vec::from_slice(alloc, &rst(mid))?;
    Bytes::new(alloc, bytes)
}

/// Rejects a message by an RST with its ID, and remembers it.
pub(crate) fn reset(alloc: Global, s: &mut State, to: Asker) -> Result<(), AllocError>
    ensures ok { OnOk result
        (seen s.new ≡ sent to.peer (rst to.mid) (noted to (Some (rst to.mid)) (seen s.old))) }
    ensures err { OnErr result (seen s.new ≡ seen s.old) }
{
    let bytes = rst_of(alloc, to.mid)?;
    let again = bytes.share()?;
    let datagram = Datagram {
        peer: to.peer,
        bytes,
    };
    make_room(s)?;
    note(s, to, Some(again));
    s.out.push_back_reserved(datagram);
    Ok(())
}

/// The ID of a CON that is no message, where it shows one.
fn mid_to_reset(datagram: &[u8]) -> Option<u16>
    ensures { result ≡ reset_for datagram.now }
{
    match datagram {
        [first, _, high, low, ..] => {
            if first / 16 == 4 {
                Some(256 * u16::from(*high) + u16::from(*low))
            } else {
                None
            }
        }
        _ => None,
    }
}

/// Rejects what can't be read, where it shows an ID (RFC 7252 section 4.2).
pub(crate) fn reset_undecoded(
    alloc: Global,
    s: &mut State,
    peer: Peer,
    datagram: &[u8],
) -> Result<(), AllocError>
    ensures ok { OnOk result (seen s.new ≡ undecoded peer (reset_for datagram.now) (seen s.old)) }
    ensures err { OnErr result (seen s.new ≡ seen s.old) }
{
    match mid_to_reset(datagram) {
        Some(mid) => {
            let bytes = rst_of(alloc, mid)?;
            send(s, peer, bytes)
        }
        None => Ok(()),
    }
}
