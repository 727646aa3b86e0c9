//! Notifications: their bytes, and when a copy is due.

ghost use Rattle.std.specs.Prelude.{◌≡◌, ◌≤◌, ◌*◌, ◌^◌, IfOk, IfSome, length};
ghost use Rattle.demo_origin.specs.Blocks.{BeginsIn};
ghost use Rattle.demo_origin.specs.Notifying.{opening, Notifies, timeout_after, is_due, is_lost, is_again, is_reached, due_of, sooner, least_due};

use crate::blocks::{BlockSize, size_of};
use crate::fault::{Memory, out_of_memory};
use crate::reading::described;
use crate::state::{Held, Notification, Observer};
use coap_codec::{Block, Message, MsgType, Token, encode};
use limits::{ACK_TIMEOUT, MAX_RETRANSMIT};
use message_layer::Bytes;
use std::alloc::Global;

/// The code 2.05.
const CONTENT: u8 = 69;

/// The first piece of a state that is longer than a block.
fn opening(block: BlockSize, len: usize) -> Option<Block>
    ensures is { result ≡ opening block.szx len }
    ensures begins { IfSome result (BeginsIn len) }
{
    if len <= size_of(block.szx) {
        return None;
    }
    Some(Block {
        num: 0,
        more: true,
        szx: block.szx,
    })
}

/// A notification of the state as it stands.
pub(crate) fn notice(
    alloc: Global,
    token: Token,
    mid: u16,
    held: &Held,
    block: BlockSize,
) -> Result<Bytes, Memory>
    ensures { IfOk result (λ b. Notifies token mid held.now block.szx b) }
{
    let state = held.state.as_slice();
    let options = described(alloc, held, true, opening(block, state.len()))?;
    let len = state.len().min(size_of(block.szx));
    let m = Message {
        kind: MsgType::Con,
        code: CONTENT,
        mid,
        token,
        options,
        payload: Vec::from_slice(alloc, &state[..len])?,
    };
    let bytes = encode(alloc, &m).map_err(out_of_memory)?;
    Ok(Bytes::new(alloc, bytes)?)
}

fn power(n: u8) -> u64
    requires { n ≤ MAX_RETRANSMIT }
    ensures { result ≡ 2 ^ n }
{
    match n {
        0 => 1,
        1 => 2,
        2 => 4,
        3 => 8,
        _ => 16,
    }
}

fn timeout_after(copies: u8) -> u64
    ensures { result ≡ timeout_after copies }
{
    ACK_TIMEOUT * power(copies.min(MAX_RETRANSMIT))
}

fn is_due(n: &Notification, moment: u64) -> bool
    ensures { result ≡ is_due moment n.now }
{
    moment.saturating_sub(n.sent) >= timeout_after(n.copies)
}

fn is_lost(outstanding: &Option<Notification>, moment: u64) -> bool
    ensures { result ≡ is_lost moment outstanding.now }
{
    match outstanding {
        None => false,
        Some(n) => is_due(n, moment) && n.copies >= MAX_RETRANSMIT,
    }
}

/// Whether the observer doesn't wait in vain for the last ACK.
pub(crate) fn is_reached(o: &Observer, moment: u64) -> bool
    ensures { result ≡ is_reached moment o.now }
{
    !is_lost(&o.outstanding, moment)
}

/// Whether a copy is due.
pub(crate) fn is_again(n: &Notification, moment: u64) -> bool
    ensures { result ≡ is_again moment n.now }
{
    is_due(n, moment) && n.copies < MAX_RETRANSMIT
}

fn due_of(n: &Notification) -> u64
    ensures { result ≡ due_of n.now }
{
    n.sent.saturating_add(timeout_after(n.copies))
}

fn sooner(least: Option<u64>, outstanding: &Option<Notification>) -> Option<u64>
    ensures { result ≡ sooner least outstanding.now }
{
    match (least, outstanding) {
        (least, None) => least,
        (None, Some(n)) => Some(due_of(n)),
        (Some(due), Some(n)) => Some(due.min(due_of(n))),
    }
}

/// When the next copy, or end, is due.
pub(crate) fn least_due(observers: &[Observer]) -> Option<u64>
    ensures { result ≡ least_due None observers.now }
{
    let mut least = None;
    'each: for o in observers {
        least = sooner(least, &o.outstanding);
    }
    least
}
