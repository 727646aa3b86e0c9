//! The datagram that asks a server whether what is kept of it is valid still (RFC 7252 section
//! 5.10.6.2).

ghost use Rattle.std.specs.Prelude.{◌≤◌, length, IfOk};
ghost use Rattle.ask_model.specs.Validating.{IsValidating};
ghost use Rattle.ask_model.specs.Views.{sense_of};
ghost use Rattle.ask_model.specs.Datagrams.{IsSendable};

use crate::meaning::Meaning;
use crate::request::{GET, bytes_of};
use crate::writing::validating_bytes;
use coap_codec::{Bytes, Token};
use std::alloc::{AllocError, Global};

/// The datagram of a GET that asks whether what has this ETag is valid still. None of what is no
/// GET.
pub(crate) fn validating_of(
    alloc: Global,
    meaning: &Meaning,
    body: &[u8],
    etag: &[u8],
    mid: u16,
    token: &Token,
) -> Result<Option<Bytes>, AllocError>
    requires sendable { IsSendable (sense_of meaning.now body.now) }
    requires short { length etag.now ≤ 8 }
    ensures { IfOk result (λ o.
        IsValidating etag.now (sense_of meaning.now body.now) mid token.now o) }
{
    match meaning {
        Meaning::Ask {
            method,
            target,
            accept,
            format,
            payload,
            ..
        } => {
            let code = method.code();
            let is_get = code == GET && format.is_none() && bytes_of(payload, body).is_empty();
            if !is_get {
                return Ok(None);
            }
            let bytes = validating_bytes(alloc, code, mid, token, target, *format, *accept, etag)?;
            Ok(Some(Bytes::of(bytes)))
        }
        Meaning::Refuse(_, _) => Ok(None),
    }
}
