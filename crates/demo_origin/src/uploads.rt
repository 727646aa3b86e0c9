//! Bodies that come in pieces.

ghost use Rattle.std.specs.Prelude.{◌≡◌, ◌≢◌, ◌<◌, ◌≤◌, ◌+◌, ◌*◌, ◌^◌, ◌++◌, ◌∷◌, [], length, filter, OnOk, OnErr, IfOk, Some};
ghost use Rattle.std.specs.List.{AllByRecursion};
ghost use Rattle.coap_codec.specs.Spelling.{entries};
ghost use Rattle.coap_codec.specs.Writing.{IsInOrder, IsShort};
ghost use Rattle.demo_origin.specs.Uploads.{is_of, is_from, upload_of, body_in, body_at, before_piece, joined, going_on, put_at, others, AsksForMore};
ghost use Rattle.demo_origin.specs.Pieces.{KeepsPiece, GivesUp};
ghost use Rattle.demo_origin.specs.Values.{seen};

use crate::answer::{Asker, Ready, answer, prepared, send_answer};
use crate::arrival::is_known;
use crate::blocks::{BlockSize, offset_of};
use crate::body::Body;
use crate::fault::Memory;
use crate::reading::{block_number, number_option};
use crate::state::{Client, State, Upload};
use coap_codec::{Block, Message, Opt, number};
use limits::MAX_BODY_LEN;
use std::alloc::{AllocError, Global};
use std::mem::replace;
use uri_map::{Peer, is_same_peer};

/// The code 2.31.
const CONTINUE: u8 = 95;

/// What a piece is to those before it.
#[derive(Clone, Copy)]
pub enum Joined {
    /// It doesn't begin where they end.
    Gap,
    /// All of them are too long.
    TooLarge,
    /// More come.
    Next,
    /// It is the last.
    Last,
}

fn is_of(u: &Upload, peer: &Peer, place: usize) -> bool
    ensures { result ≡ is_of peer.now place u.now }
{
    is_same_peer(&u.peer, peer) && u.place == place
}

/// The place of what came from the peer for that resource.
pub(crate) fn upload_of(uploads: &[Upload], peer: &Peer, place: usize) -> Option<usize>
    ensures { result ≡ upload_of peer.now place uploads.now }
{
    uploads.iter().position(|u| is_of(u, peer, place))
}

fn body_in(uploads: &[Upload], k: usize) -> &[u8]
    ensures { result.now ≡ body_at (Some k) uploads.now }
{
    match uploads.get(k) {
        Some(u) => u.body.as_slice(),
        None => &[],
    }
}

fn body_at(uploads: &[Upload], k: Option<usize>) -> &[u8]
    ensures { result.now ≡ body_at k uploads.now }
{
    match k {
        Some(k) => body_in(uploads, k),
        None => &[],
    }
}

/// What came before the piece.
pub(crate) fn before_piece(uploads: &[Upload], k: Option<usize>, b: Block) -> &[u8]
    ensures { result.now ≡ before_piece b (body_at k uploads.now) }
{
    if b.num == 0 { &[] } else { body_at(uploads, k) }
}

/// What the piece is to those before it.
pub(crate) fn judge_piece(b: Block, len: usize, more: usize) -> Joined
    requires szx { b.szx < 7 }
    requires num { b.num < 2 ^ 20 }
    ensures { result ≡ joined b len more }
{
    if offset_of(b) != len {
        return Joined::Gap;
    }
    if more > MAX_BODY_LEN || len + more > MAX_BODY_LEN {
        return Joined::TooLarge;
    }
    if b.more { Joined::Next } else { Joined::Last }
}

/// The option that asks for the next piece.
pub(crate) fn asking_for_more(alloc: Global, b: Block, own: BlockSize) -> Result<Vec<Opt>, Memory>
    requires szx { b.szx < 7 }
    requires num { b.num < 2 ^ 20 }
    ensures asks { IfOk result (λ v. AsksForMore b own.szx (entries v.items)) }
    ensures in_order { IfOk result (λ v. IsInOrder 0 (entries v.items)) }
    ensures short { IfOk result (λ v. AllByRecursion IsShort (entries v.items)) }
{
    let wanted = Block {
        num: b.num,
        more: true,
        szx: b.szx.min(own.szx),
    };
    let option = number_option(alloc, number::BLOCK1, block_number(wanted))?;
    let options = Vec::from_array(alloc, [option])?;
    Ok(options)
}

/// The body goes on by a piece. The piece of number 0 begins it anew.
fn go_on(u: &mut Upload, b: Block, payload: Vec<u8>) -> Result<(), AllocError>
    ensures ok { OnOk result (u.new ≡ going_on b payload.items u.old) }
    ensures err { OnErr result (u.new ≡ u.old) }
{
    if b.num == 0 {
        u.body = Body::new(payload);
        return Ok(());
    }
    u.body.append(payload.as_slice())
}

/// Keeps a piece after those before it.
fn put_at(
    uploads: &mut Vec<Upload>,
    peer: Peer,
    place: usize,
    k: Option<usize>,
    b: Block,
    payload: Vec<u8>,
) -> Result<(), AllocError>
    ensures ok { OnOk result
        (uploads.new.items ≡ put_at peer place k b payload.items uploads.old.items) }
    ensures err { OnErr result (uploads.new.items ≡ uploads.old.items) }
{
    match k {
        Some(k) if k < uploads.len() => go_on(&mut uploads[k], b, payload),
        Some(_) => Ok(()),
        None => {
            uploads.push(Upload {
                peer,
                place,
                body: Body::new(payload),
            })?;
            Ok(())
        }
    }
}

/// Keeps a piece, and asks for the next one.
pub(crate) fn keep_piece(
    alloc: Global,
    s: &mut State,
    to: Asker,
    place: usize,
    b: Block,
    m: &mut Message,
) -> Result<(), Memory>
    requires szx { b.szx < 7 }
    requires num { b.num < 2 ^ 20 }
    ensures ok { OnOk result (KeepsPiece to place b m.old.payload.items (seen s.old) (seen s.new)) }
    ensures err { OnErr result (seen s.new ≡ seen s.old) }
{
    let options = asking_for_more(alloc, b, s.block)?;
    let Ready { bytes, again } = prepared(alloc, s, to, CONTINUE, options, Vec::new(alloc))?;
    let k = upload_of(&s.uploads, &to.peer, place);
    let payload = replace(&mut m.payload, Vec::new(alloc));
    put_at(&mut s.uploads, to.peer, place, k, b, payload)?;
    send_answer(s, to, bytes, again);
    Ok(())
}

/// Drops what came from the peer for that resource.
pub(crate) fn drop_upload(uploads: &mut Vec<Upload>, peer: &Peer, place: usize)
    ensures { uploads.new.items ≡ others peer.now place uploads.old.items }
{
    uploads.retain(|u| !is_of(u, peer, place));
}

/// Refuses a piece, and drops those before it.
pub(crate) fn give_up(
    alloc: Global,
    s: &mut State,
    to: Asker,
    place: usize,
    code: u8,
) -> Result<(), Memory>
    requires { code ≢ 0 }
    ensures ok { OnOk result (GivesUp to place code (seen s.old) (seen s.new)) }
    ensures err { OnErr result (seen s.new ≡ seen s.old) }
{
    answer(alloc, s, to, code, Vec::new(alloc), Vec::new(alloc))?;
    drop_upload(&mut s.uploads, &to.peer, place);
    Ok(())
}

/// All that came, with the last piece.
pub(crate) fn whole_body(
    alloc: Global,
    before: &[u8],
    payload: &[u8],
) -> Result<Vec<u8>, AllocError>
    ensures { IfOk result (λ v. v.items ≡ before.now ++ payload.now) }
{
    let mut whole = Vec::from_slice(alloc, before)?;
    whole.extend_from_slice(payload)?;
    Ok(whole)
}

/// Forgets what came from peers that aren't known.
pub(crate) fn drop_orphans(uploads: &mut Vec<Upload>, clients: &[Client])
    ensures { uploads.new.items ≡ filter (is_from clients.now) uploads.old.items }
{
    uploads.retain(|u| is_known(clients, &u.peer));
}
