//! Whether a message is a request that is to be processed.

ghost use Rattle.std.specs.Prelude.{◌≡◌, Ok, IfOk, count_by};
ghost use Rattle.std.specs.List.{list_any, find};
ghost use Rattle.std.specs.Option.{option_map};
ghost use Rattle.coap_codec.specs.Spelling.{content};
ghost use Rattle.demo_origin.specs.Values.{seen};
ghost use Rattle.demo_origin.specs.Peers.{is_client};
ghost use Rattle.demo_origin.specs.Arrivals.{is_live, is_live_of, is_repeat, is_full, is_request, heard_again, heard_first, arrived, arrival_of, is_heeded, arrival};

use crate::fault::Memory;
use crate::observers::has_sent;
use crate::state::{Client, Remembered, State};
use coap_codec::{Message, MsgType};
use limits::{EXCHANGE_LIFETIME, MAX_CLIENTS, MAX_REMEMBERED};
use message_layer::Bytes;
use uri_map::{Peer, is_same_peer};

/// What a message is to a device.
#[derive(Drop)]
pub enum Arrival {
    /// Nothing is done.
    Ignored,
    /// An empty NON: it is remembered, and not answered.
    Empty,
    /// An RST answers it.
    Rejected,
    /// This datagram answered it before, and answers it again.
    Repeated(Bytes),
    /// A request that is to be processed.
    Fresh,
    /// An ACK of a notification.
    Acknowledged,
    /// An RST of a notification.
    Reset,
}

/// Whether the message is remembered at that moment.
pub(crate) fn is_live(r: &Remembered, moment: u64) -> bool
    ensures { result ≡ is_live moment r.now }
{
    moment.saturating_sub(r.moment) < EXCHANGE_LIFETIME
}

fn is_live_of(r: &Remembered, moment: u64, peer: &Peer) -> bool
    ensures { result ≡ is_live_of moment peer.now r.now }
{
    is_same_peer(&r.peer, peer) && is_live(r, moment)
}

fn is_repeat(r: &Remembered, moment: u64, peer: &Peer, mid: u16) -> bool
    ensures { result ≡ is_repeat moment peer.now mid r.now }
{
    r.mid == mid && is_live_of(r, moment, peer)
}

/// The message with that ID that was heard.
fn remembered_as<'a>(
    all: &'a [Remembered],
    moment: u64,
    peer: &Peer,
    mid: u16,
) -> Option<&'a Remembered>
    ensures { option_map (λ r. r.now) result ≡ find (is_repeat moment peer.now mid) all.now }
{
    'each: for r in all {
        if is_repeat(r, moment, peer, mid) {
            return Some(r);
        }
    }
    None
}

/// Whether the peer is known.
pub(crate) fn is_known(clients: &[Client], peer: &Peer) -> bool
    ensures { result ≡ list_any (is_client peer.now) clients.now }
{
    'each: for c in clients {
        if is_same_peer(&c.peer, peer) {
            return true;
        }
    }
    false
}

fn live_count(all: &[Remembered], moment: u64, peer: &Peer) -> usize
    ensures { result ≡ count_by (is_live_of moment peer.now) all.now }
{
    all.iter().filter(|r| is_live_of(r, moment, peer)).count()
}

/// Whether a further message of the peer's counts as lost.
fn is_full(s: &State, moment: u64, peer: &Peer) -> bool
    ensures { result ≡ is_full moment peer.now (seen s.now) }
{
    (!is_known(&s.clients, peer) && s.clients.len() >= MAX_CLIENTS)
        || live_count(&s.remembered, moment, peer) >= MAX_REMEMBERED
}

fn is_request(code: u8) -> bool
    ensures { result ≡ is_request code }
{
    0 < code && code < 32
}

/// What a message is that was heard before, by what answered it.
fn heard_again(confirms: bool, answer: &Option<Bytes>) -> Result<Arrival, Memory>
    ensures { IfOk result (λ a. a ≡ heard_again confirms answer.now) }
{
    match answer {
        Some(bytes) if confirms => Ok(Arrival::Repeated(bytes.share()?)),
        _ => Ok(Arrival::Ignored),
    }
}

/// What a message is that is new.
fn heard_first(confirms: bool, code: u8) -> Arrival
    ensures { result ≡ heard_first confirms code }
{
    if is_request(code) {
        return Arrival::Fresh;
    }
    if confirms || code != 0 {
        Arrival::Rejected
    } else {
        Arrival::Empty
    }
}

fn arrived(
    confirms: bool,
    code: u8,
    before: Option<&Remembered>,
    full: bool,
) -> Result<Arrival, Memory>
    ensures { IfOk result (λ a.
        a ≡ arrived confirms code (option_map (λ r. r.now) before.entry) full) }
{
    match before {
        Some(r) => heard_again(confirms, &r.answer),
        None if full => Ok(Arrival::Ignored),
        None => Ok(heard_first(confirms, code)),
    }
}

/// What a CON or NON is.
fn arrival_of(
    confirms: bool,
    s: &State,
    moment: u64,
    peer: &Peer,
    m: &Message,
) -> Result<Arrival, Memory>
    ensures { IfOk result (λ a.
        a ≡ arrival_of confirms moment peer.now (content m.now) (seen s.now)) }
{
    let before = remembered_as(&s.remembered, moment, peer, m.mid);
    arrived(confirms, m.code, before, is_full(s, moment, peer))
}

/// Whether it is an empty message with the ID of a notification that isn't acknowledged.
fn is_heeded(s: &State, peer: &Peer, m: &Message) -> bool
    ensures { result ≡ is_heeded peer.now (content m.now) (seen s.now) }
{
    m.code == 0 && has_sent(&s.observers, peer, m.mid)
}

/// What the message is.
pub(crate) fn arrival_at(
    s: &State,
    moment: u64,
    peer: &Peer,
    m: &Message,
) -> Result<Arrival, Memory>
    ensures { IfOk result (λ a. a ≡ arrival moment peer.now (content m.now) (seen s.now)) }
{
    match m.kind {
        MsgType::Con => arrival_of(true, s, moment, peer, m),
        MsgType::Non => arrival_of(false, s, moment, peer, m),
        MsgType::Ack if is_heeded(s, peer, m) => Ok(Arrival::Acknowledged),
        MsgType::Rst if is_heeded(s, peer, m) => Ok(Arrival::Reset),
        MsgType::Ack | MsgType::Rst => Ok(Arrival::Ignored),
    }
}
