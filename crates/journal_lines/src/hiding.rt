//! Datagrams whose payload isn't shown.

ghost use Rattle.std.specs.Prelude.{◌≡◌, ◌≤◌, ◌-◌, ◌++◌, length, take, IfOk};
ghost use Rattle.journal_lines.specs.Hiding.{Hides, stars};

use coap_codec::{CodecFault, decode};
use std::alloc::{AllocError, Global};

/// Whether what datagrams carry is shown.
#[derive(Clone, Copy, Debug, PartialEq, Eq)]
pub enum Payloads {
    Shown,
    /// Each byte of a payload is shown as `*`, and so is each of bytes that are no message.
    Hidden,
}

/// What stands for a byte that isn't shown.
const STAR: u8 = b'*';

/// The bytes of a datagram with its payload hidden.
#[tactic(auto, using(crate::proofs::Starring::hides_message, crate::proofs::Starring::hides_all))]
pub(crate) fn hidden(alloc: Global, bytes: &[u8]) -> Result<Vec<u8>, AllocError>
    ensures { IfOk result (λ shown. Hides bytes.now shown.items) }
{
    match decode(alloc, bytes) {
        Ok(message) => {
            let kept = bytes.len().saturating_sub(message.payload.len());
            let shown = with_stars(alloc, bytes, kept)?;
            Ok(shown)
        }
        Err(CodecFault::Memory) => Err(AllocError),
        Err(_) => {
            let shown = with_stars(alloc, bytes, 0)?;
            Ok(shown)
        }
    }
}

/// So many of the bytes, with stars in place of the others.
fn with_stars(alloc: Global, bytes: &[u8], kept: usize) -> Result<Vec<u8>, AllocError>
    requires { kept ≤ length bytes.now }
    ensures { IfOk result (λ shown. shown.items
        ≡ take kept bytes.now ++ stars (length bytes.now - kept)) }
{
    let (front, rest) = bytes.split_at(kept);
    let mut shown = Vec::with_capacity(alloc, bytes.len())?;
    shown.extend_from_slice(front)?;
    let stars = vec![in alloc; STAR; rest.len()]?;
    shown.extend_from_slice(&stars)?;
    Ok(shown)
}
