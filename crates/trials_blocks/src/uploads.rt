//! Bodies that are sent in pieces.

ghost use Rattle.std.specs.Prelude.{◌<◌, ◌^◌, IfSome};

use crate::responses::{CHANGED, CONTINUE, INCOMPLETE, TOO_LARGE, bytes_from, empty, response};
use crate::telling::check;
use blockwise::{Answered, LARGEST_SZX, Upload};
use coap_codec::{Block, CodecFault, Message, block_to, decode, number};
use std::alloc::Global;

/// An upload of which the pieces that went are kept.
#[derive(Drop)]
struct Trial {
    body: Vec<u8>,
    upload: Upload,
    went: Vec<u8>,
}

/// What an answer bears.
#[derive(Clone, Copy)]
enum Bears {
    Nothing,
    /// A Block1 of this value.
    Block1(u8),
    /// A Block2 of this value, and so many bytes.
    Block2(u8, usize),
}

/// The code of an answer, what it bears, and what it means.
type Answer = (u8, Bears, Answered);

/// The value of the Block1 that a piece has, its length, and the answer to it.
type Turn = (Option<u8>, usize, Answer);

/// An upload of so many bytes.
fn begin(alloc: Global, len: usize) -> Result<Trial, CodecFault> {
    let body = bytes_from(alloc, 0, len)?;
    let upload = if body.len() <= 65536 {
        Upload::new(&body, LARGEST_SZX)
    } else {
        Upload::new(&[], LARGEST_SZX)
    };
    Ok(Trial {
        body,
        upload,
        went: Vec::new(alloc),
    })
}

fn message(alloc: Global, code: u8, bears: Bears) -> Result<Message, CodecFault> {
    match bears {
        Bears::Nothing => empty(alloc, code, &[]),
        Bears::Block1(value) => empty(alloc, code, &[(number::BLOCK1, &[value])]),
        Bears::Block2(value, len) => {
            let payload = bytes_from(alloc, 0, len)?;
            response(alloc, code, &[(number::BLOCK2, &[value])], payload)
        }
    }
}

/// The block goes as a Block1 of this value, or there is none.
fn is_block1(alloc: Global, block: Option<Block>, value: Option<u8>) -> Result<bool, CodecFault>
    requires num { IfSome block (λ b. b.num < 2 ^ 20) }
    requires szx { IfSome block (λ b. b.szx < 7) }
{
    match (block, value) {
        (Some(block), Some(value)) => Ok(block_to(alloc, block)?.as_slice() == [value].as_slice()),
        (None, None) => Ok(true),
        _ => Ok(false),
    }
}

/// The next piece goes so, and the answer means that.
fn goes(alloc: Global, t: &mut Trial, turn: &Turn) -> Result<bool, CodecFault> {
    if t.body.len() != t.upload.body_len() {
        return Ok(false);
    }
    let piece = t.upload.next_piece(&t.body);
    if piece.payload.len() != turn.1 || !is_block1(alloc, piece.block, turn.0)? {
        return Ok(false);
    }
    t.went.extend_from_slice(piece.payload)?;
    let (code, bears, meaning) = turn.2;
    Ok(t.upload.answered(&message(alloc, code, bears)?) == meaning)
}

fn all_go(alloc: Global, t: &mut Trial, turns: &[Turn]) -> Result<bool, CodecFault> {
    for turn in turns {
        if !goes(alloc, t, turn)? {
            return Ok(false);
        }
    }
    Ok(true)
}

/// An upload of so many bytes has these turns, and the last of its pieces went exactly where those
/// that went join to its body.
fn uploads(alloc: Global, len: usize, turns: &[Turn]) -> Result<bool, CodecFault> {
    let mut t = begin(alloc, len)?;
    Ok(all_go(alloc, &mut t, turns)? && t.upload.is_last() == (t.went == t.body))
}

/// The length of a body, and how its pieces go.
type Series = (usize, &'static [Turn]);

static SERIES: [Series; 4] = [
    // A server asks for smaller pieces in its first answer.
    (
        2500,
        &[
            (
                Some(0x0e),
                1024,
                (CONTINUE, Bears::Block1(0x0c), Answered::Next),
            ),
            (Some(0x4c), 256, (CONTINUE, Bears::Nothing, Answered::Next)),
            (Some(0x5c), 256, (CONTINUE, Bears::Nothing, Answered::Next)),
            (Some(0x6c), 256, (CONTINUE, Bears::Nothing, Answered::Next)),
            (Some(0x7c), 256, (CONTINUE, Bears::Nothing, Answered::Next)),
            (Some(0x8c), 256, (CONTINUE, Bears::Nothing, Answered::Next)),
            (Some(0x94), 196, (CHANGED, Bears::Nothing, Answered::Last)),
        ],
    ),
    // The same, and it loses some: the third piece is answered 4.08.
    (
        2500,
        &[
            (
                Some(0x0e),
                1024,
                (CONTINUE, Bears::Block1(0x0c), Answered::Next),
            ),
            (Some(0x4c), 256, (CONTINUE, Bears::Nothing, Answered::Next)),
            (
                Some(0x5c),
                256,
                (INCOMPLETE, Bears::Nothing, Answered::Wrong),
            ),
            (Some(0x5c), 256, (CHANGED, Bears::Nothing, Answered::Wrong)),
        ],
    ),
    // What fits into one message.
    (
        1024,
        &[(None, 1024, (CHANGED, Bears::Nothing, Answered::Last))],
    ),
    // A byte more.
    (
        1025,
        &[
            (Some(0x0e), 1024, (CONTINUE, Bears::Nothing, Answered::Next)),
            (Some(0x16), 1, (CHANGED, Bears::Nothing, Answered::Last)),
        ],
    ),
];

#[test]
fn pieces_go(rt: HostRuntime) {
    for &(len, turns) in &SERIES {
        check(&rt, len, uploads(rt.alloc(), len, turns) == Ok(true));
    }
}

/// What the first answer of a series of 2,500 bytes means, by its datagram.
fn heard_first(alloc: Global, bytes: &[u8]) -> Result<Answered, CodecFault> {
    let mut t = begin(alloc, 2500)?;
    Ok(t.upload.answered(&decode(alloc, bytes)?))
}

#[test]
fn smaller_pieces_asked_by_a_datagram(rt: HostRuntime) {
    let bytes = [0x68, 0x5f, 0, 0, 0, 0, 0, 0, 0, 0, 0, 0, 0xd1, 0x0e, 0x0c];
    assert!(rt; heard_first(rt.alloc(), &bytes) == Ok(Answered::Next));
}

/// What the first of two pieces may be answered. An error may repeat what the piece said of more,
/// and ask for a smaller size.
static TO_THE_FIRST: [Answer; 16] = [
    (TOO_LARGE, Bears::Nothing, Answered::Last),
    (INCOMPLETE, Bears::Nothing, Answered::Wrong),
    (CHANGED, Bears::Nothing, Answered::Wrong),
    (CONTINUE, Bears::Block1(0x1e), Answered::Wrong),
    (TOO_LARGE, Bears::Block1(0x0e), Answered::Last),
    (TOO_LARGE, Bears::Block1(0x0c), Answered::Last),
    (TOO_LARGE, Bears::Block1(0x1e), Answered::Wrong),
    // it comes in one piece, whatever its code
    (CONTINUE, Bears::Block2(0x0e, 0), Answered::Wrong),
    (CONTINUE, Bears::Block2(0x16, 0), Answered::Wrong),
    (CHANGED, Bears::Block2(0x0e, 0), Answered::Wrong),
    (TOO_LARGE, Bears::Block2(0x0e, 0), Answered::Wrong),
    (TOO_LARGE, Bears::Block2(0x06, 3), Answered::Last),
    (TOO_LARGE, Bears::Block2(0x00, 16), Answered::Last),
    (TOO_LARGE, Bears::Block2(0x00, 17), Answered::Last),
    (TOO_LARGE, Bears::Block2(0x10, 16), Answered::Wrong),
    (TOO_LARGE, Bears::Block2(0x16, 3), Answered::Wrong),
];

fn is_first(alloc: Global, answer: Answer) -> bool {
    uploads(alloc, 1025, &[(Some(0x0e), 1024, answer)]) == Ok(true)
}

/// The answer to the last piece names that piece or none, whatever it says of more and of a size.
static TO_THE_LAST: [Answer; 7] = [
    (CHANGED, Bears::Block1(0x16), Answered::Last),
    (CHANGED, Bears::Block1(0x14), Answered::Last),
    (TOO_LARGE, Bears::Block1(0x14), Answered::Last),
    (CHANGED, Bears::Block1(0x1e), Answered::Last),
    (TOO_LARGE, Bears::Block1(0x1e), Answered::Last),
    (CHANGED, Bears::Block1(0x06), Answered::Wrong),
    (CHANGED, Bears::Block1(0x26), Answered::Wrong),
];

fn is_last(alloc: Global, answer: Answer) -> bool {
    let first = (CONTINUE, Bears::Nothing, Answered::Next);
    let turns = [(Some(0x0e), 1024, first), (Some(0x16), 1, answer)];
    uploads(alloc, 1025, &turns) == Ok(true)
}

/// What a body that went whole may be answered, in one piece. It has the number 0.
static TO_THE_WHOLE: [Answer; 12] = [
    (CONTINUE, Bears::Nothing, Answered::Wrong),
    (INCOMPLETE, Bears::Nothing, Answered::Wrong),
    (TOO_LARGE, Bears::Nothing, Answered::Last),
    (CHANGED, Bears::Block1(0x06), Answered::Last),
    (CHANGED, Bears::Block1(0x02), Answered::Last),
    (CHANGED, Bears::Block1(0x0e), Answered::Last),
    (CHANGED, Bears::Block1(0x16), Answered::Wrong),
    (CHANGED, Bears::Block2(0x06, 3), Answered::Last),
    (CHANGED, Bears::Block2(0x00, 16), Answered::Last),
    (CHANGED, Bears::Block2(0x00, 17), Answered::Last),
    (CHANGED, Bears::Block2(0x10, 16), Answered::Wrong),
    (CHANGED, Bears::Block2(0x16, 3), Answered::Wrong),
];

fn is_only(alloc: Global, answer: Answer) -> bool {
    uploads(alloc, 7, &[(None, 7, answer)]) == Ok(true)
}

/// What fails is told by the number of its row.
#[test]
fn answers(rt: HostRuntime) {
    for (row, &answer) in TO_THE_FIRST.iter().enumerate() {
        check(&rt, ("to the first", row), is_first(rt.alloc(), answer));
    }
    for (row, &answer) in TO_THE_LAST.iter().enumerate() {
        check(&rt, ("to the last", row), is_last(rt.alloc(), answer));
    }
    for (row, &answer) in TO_THE_WHOLE.iter().enumerate() {
        check(&rt, ("to the whole", row), is_only(rt.alloc(), answer));
    }
}
