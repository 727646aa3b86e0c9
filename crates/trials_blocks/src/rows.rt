//! Worked downloads, by the datagrams that they are.

use crate::downloads::{Said, said_by};
use crate::responses::bytes_from;
use crate::telling::check;
use blockwise::{BlockFault, Download};
use coap_codec::{Block, CodecFault, block_to, decode};
use std::alloc::Global;

/// The datagram of a 2.05 in an ACK, with the ID, the ETag and the Block2 of these bytes, the
/// Content-Format 0, and so many bytes that belong after those that came; and what a download says
/// to it.
type Row = (u8, u8, u8, usize, Said);

/// The second piece is asked for, in the smallest size.
const SECOND: Said = Said::Next(Block {
    num: 1,
    more: false,
    szx: 0,
});

const THIRD: Said = Said::Next(Block {
    num: 2,
    more: false,
    szx: 0,
});

fn hears(alloc: Global, download: &mut Download, row: &Row) -> Result<bool, CodecFault> {
    let &(id, tag, block2, len, said) = row;
    let head = [0x68, 0x45, 0, id, 0, 0, 0, id, 0, 0, 0, 0];
    let options = [0x41, tag, 0x80, 0xb1, block2, 0xff];
    let mut bytes = Vec::from_slice(alloc, &head)?;
    bytes.extend_from_slice(&options)?;
    bytes.extend_from_slice(&bytes_from(alloc, download.len(), len)?)?;
    Ok(said_by(download.add(decode(alloc, &bytes)?)) == said)
}

fn hears_all(alloc: Global, download: &mut Download, rows: &[Row]) -> bool {
    for row in rows {
        if hears(alloc, download, row) != Ok(true) {
            return false;
        }
    }
    true
}

/// The second piece has another ETag.
static CHANGED: [Row; 2] = [
    (0, 1, 0x08, 16, SECOND),
    (1, 2, 0x18, 16, Said::Refused(BlockFault::Changed)),
];

/// All comes under that one from the start.
static ANEW: [Row; 3] = [
    (2, 2, 0x08, 16, SECOND),
    (3, 2, 0x18, 16, THIRD),
    (4, 2, 0x20, 8, Said::Whole(40)),
];

#[test]
fn download_begun_anew(rt: HostRuntime) {
    let alloc = rt.alloc();
    let mut download = Download::first(alloc);
    check(&rt, "at first", download.is_empty());
    check(
        &rt,
        "another ETag",
        hears_all(alloc, &mut download, &CHANGED),
    );
    check(&rt, "one piece", download.len() == 16);
    let mut download = Download::first(alloc);
    check(&rt, "anew", hears_all(alloc, &mut download, &ANEW));
    check(&rt, "at last", download.is_empty());
}

/// The value of the Block2 by which the second piece is asked for.
fn asks_second_by(alloc: Global, value: u8) -> Result<bool, CodecFault> {
    let Said::Next(block) = SECOND else {
        return Ok(false);
    };
    Ok(block_to(alloc, block)?.as_slice() == [value].as_slice())
}

#[test]
fn second_piece_asked(rt: HostRuntime) {
    assert!(rt; asks_second_by(rt.alloc(), 0x10) == Ok(true));
}

/// The second piece has another ETag, whatever that of the first was.
fn changes_after(alloc: Global, id: u8) -> bool {
    let (second, tag) = (id.wrapping_add(1), id.wrapping_add(2));
    let refused = Said::Refused(BlockFault::Changed);
    let rows = [
        (id, second, 0x08, 16, SECOND),
        (second, tag, 0x18, 16, refused),
    ];
    hears_all(alloc, &mut Download::first(alloc), &rows)
}

/// It changes each time.
#[test]
fn download_of_four_changes(rt: HostRuntime) {
    for id in [0u8, 2, 4, 6] {
        check(&rt, id, changes_after(rt.alloc(), id));
    }
}

/// The first refusal that holds is told, and changes nothing.
static REFUSED: [Row; 5] = [
    (0, 1, 0x08, 16, SECOND),
    (1, 2, 0x29, 1, Said::Refused(BlockFault::Changed)),
    (2, 1, 0x28, 15, Said::Refused(BlockFault::Size)),
    (3, 1, 0x11, 16, Said::Refused(BlockFault::Size)),
    (4, 1, 0x20, 16, Said::Refused(BlockFault::Gap)),
];

/// The last piece, with so many bytes, makes so many.
fn ends(alloc: Global, download: &mut Download, len: usize, whole: usize) -> bool {
    hears(alloc, download, &(5, 1, 0x10, len, Said::Whole(whole))) == Ok(true)
}

#[test]
fn refusals(rt: HostRuntime) {
    let alloc = rt.alloc();
    let mut download = Download::first(alloc);
    check(&rt, "refused", hears_all(alloc, &mut download, &REFUSED));
    let mut copy = download.copy().expect(&rt, "memory");
    check(&rt, "the copy", ends(alloc, &mut copy, 4, 20));
    check(&rt, "the download", ends(alloc, &mut download, 16, 32));
}
