//! Bodies that come in pieces.

use crate::responses::{CONTENT, begins_text, bytes_from, response};
use crate::telling::check;
use blockwise::{BlockFault, Download, Pieces, Progress, Step};
use coap_codec::{Block, CodecFault, Message, block_to, number};
use std::alloc::Global;

/// A piece of so many bytes from that place, with this value of Block2.
pub fn piece(
    alloc: Global,
    block2: &[u8],
    place: usize,
    len: usize,
) -> Result<Message, CodecFault> {
    let payload = bytes_from(alloc, place, len)?;
    let etag: &[u8] = &[1];
    let options = [(number::ETAG, etag), (number::BLOCK2, block2)];
    response(alloc, CONTENT, &options, payload)
}

/// What a download said to a piece.
#[derive(Clone, Copy, PartialEq, Eq)]
pub enum Said {
    Next(Block),
    /// The whole body has this length, and the bytes that a text has from its start.
    Whole(usize),
    OtherBytes,
    Refused(BlockFault),
}

pub fn said_by(answer: Result<Progress, BlockFault>) -> Said {
    match answer {
        Ok(Progress::Next(block)) => Said::Next(block),
        Ok(Progress::Whole(body)) if begins_text(&body) => Said::Whole(body.len()),
        Ok(Progress::Whole(_)) => Said::OtherBytes,
        Err(fault) => Said::Refused(fault),
    }
}

/// What the download says to a piece of so many bytes that belongs after those that came.
fn takes(
    alloc: Global,
    download: &mut Download,
    block2: &[u8],
    len: usize,
) -> Result<Said, CodecFault> {
    let m = piece(alloc, block2, download.len(), len)?;
    Ok(said_by(download.add(m)))
}

/// The next piece is asked for by this number, in the smallest size.
pub fn asks(num: u32) -> Said {
    Said::Next(Block {
        num,
        more: false,
        szx: 0,
    })
}

/// A download of which 64 pieces of 1,024 bytes came.
fn filled(alloc: Global) -> Result<Option<Download>, CodecFault> {
    let mut download = Download::first(alloc);
    for num in 0..64u32 {
        let block = Block {
            num,
            more: true,
            szx: 6,
        };
        let value = block_to(alloc, block)?;
        match takes(alloc, &mut download, &value, 1024)? {
            Said::Next(_) => {}
            _ => return Ok(None),
        }
    }
    Ok(Some(download))
}

/// One more byte is too many, and none ends the whole.
fn takes_no_more(alloc: Global, download: &mut Download) -> Result<bool, CodecFault> {
    let more = takes(alloc, download, &[4, 0x06], 1)?;
    let none = takes(alloc, download, &[4, 0x06], 0)?;
    Ok(more == Said::Refused(BlockFault::TooLarge) && none == Said::Whole(65536))
}

/// The whole has at most 65,536 bytes.
#[test]
fn one_byte_too_large(rt: HostRuntime) {
    let filled = filled(rt.alloc()).expect(&rt, "memory");
    let mut download = filled.expect(&rt, "64 pieces");
    assert!(rt; takes_no_more(rt.alloc(), &mut download) == Ok(true));
}

/// A response without Block2 is whole; pieces are counted without their bytes too.
fn is_whole(alloc: Global, len: usize) -> Result<bool, CodecFault> {
    let whole = response(alloc, CONTENT, &[], bytes_from(alloc, 0, len)?)?;
    let mut pieces = Pieces::none();
    let is_last = pieces.add(&whole) == Ok(Step::Last) && pieces.len() == len;
    Ok(is_last && said_by(Download::first(alloc).add(whole)) == Said::Whole(len))
}

#[test]
fn counted_alone(rt: HostRuntime) {
    assert!(rt; is_whole(rt.alloc(), 3000) == Ok(true));
}

fn fault_is(alloc: Global, fault: BlockFault, words: &str) -> bool {
    match format!(in alloc; "{fault}") {
        Ok(text) => text.as_str() == words,
        Err(_) => false,
    }
}

static FAULTS: [(BlockFault, &str); 5] = [
    (
        BlockFault::Changed,
        "the representation changed between two blocks",
    ),
    (BlockFault::Size, "a block of another size than it says"),
    (
        BlockFault::Gap,
        "a block that doesn't follow the one before",
    ),
    (
        BlockFault::TooLarge,
        "a representation of more than 65,536 bytes",
    ),
    (BlockFault::Memory, "out of memory"),
];

#[test]
fn faults_in_words(rt: HostRuntime) {
    for &(fault, words) in &FAULTS {
        check(&rt, words, fault_is(rt.alloc(), fault, words));
    }
}
