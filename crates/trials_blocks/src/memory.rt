//! A call that memory was refused is made once more; until then nothing has changed.

use crate::downloads::{Said, asks, piece, said_by};
use crate::telling::check;
use blockwise::{BlockFault, Download};
use coap_codec::{CodecFault, Message};
use std::alloc::Global;

/// A piece of 16 bytes, built once more where memory was refused.
fn built(alloc: Global, block2: &[u8], place: usize) -> Result<Message, CodecFault> {
    match piece(alloc, block2, place, 16) {
        Ok(m) => Ok(m),
        Err(_) => piece(alloc, block2, place, 16),
    }
}

/// What the download says to the piece, asked once more where memory was refused.
fn takes(alloc: Global, download: &mut Download, block2: &[u8]) -> Result<Said, CodecFault> {
    let place = download.len();
    match download.add(built(alloc, block2, place)?) {
        Err(BlockFault::Memory) => {
            if download.len() != place {
                return Ok(Said::OtherBytes);
            }
            Ok(said_by(download.add(built(alloc, block2, place)?)))
        }
        answer => Ok(said_by(answer)),
    }
}

fn copied(download: &Download) -> Result<Download, BlockFault> {
    match download.copy() {
        Ok(copy) => Ok(copy),
        Err(_) => download.copy(),
    }
}

/// The download says this to the piece.
fn says(alloc: Global, download: &mut Download, block2: &[u8], said: Said) -> bool {
    takes(alloc, download, block2) == Ok(said)
}

/// The last piece makes the whole.
fn ends(alloc: Global, download: &mut Download) -> bool {
    says(alloc, download, &[0x20], Said::Whole(48))
}

/// With any one allocation refused, a download of three pieces comes whole.
#[test]
fn memory_refused_once(rt: HostRuntime) {
    let alloc = rt.alloc();
    let mut download = Download::first(alloc);
    check(&rt, 0, says(alloc, &mut download, &[0x08], asks(1)));
    check(&rt, 1, says(alloc, &mut download, &[0x18], asks(2)));
    let mut copy = copied(&download).expect(&rt, "a copy");
    check(&rt, "the copy", ends(alloc, &mut copy));
    check(&rt, "the download", ends(alloc, &mut download));
}
