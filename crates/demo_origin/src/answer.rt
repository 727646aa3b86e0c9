//! Answers: how they are sent and remembered.

ghost use Rattle.std.specs.Prelude.{◌≡◌, ◌≢◌, ◌<◌, ◌≤◌, ◌+◌, ◌%◌, ◌∷◌, ◌++◌, [], map, filter, None, IfOk, OnOk, OnErr, vec_len, vec_capacity};
ghost use Rattle.std.specs.List.{find, AllByRecursion};
ghost use Rattle.std.specs.Option.{option_map};
ghost use Rattle.std.specs.VecDeque.{deque_len, deque_capacity};
ghost use Rattle.coap_codec.specs.Spelling.{Spells, entries};
ghost use Rattle.coap_codec.specs.Writing.{IsInOrder, IsShort};
ghost use Rattle.demo_origin.specs.Values.{seen};
ghost use Rattle.demo_origin.specs.Peers.{is_client, own_mid, after_answer, stepped, known_after};
ghost use Rattle.demo_origin.specs.Arrivals.{is_live, is_kept};
ghost use Rattle.demo_origin.specs.Answers.{answer_kind, answer_mid, answer_to, sent, answered, noted, Answers, HasRoom};

use crate::arrival::{is_known, is_live};
use crate::fault::{Memory, out_of_memory};
use crate::observers::is_observer;
use crate::state::{Client, Datagram, Observer, Remembered, State};
use coap_codec::{Message, MsgType, Opt, Token, encode};
use limits::EXCHANGE_LIFETIME;
use message_layer::Bytes;
use std::alloc::{AllocError, Global};
use uri_map::{Peer, is_same_peer};

/// The type of an answer to a message of that type.
pub(crate) fn answer_kind(kind: MsgType) -> MsgType
    ensures { result ≡ answer_kind kind }
{
    match kind {
        MsgType::Con => MsgType::Ack,
        _ => MsgType::Non,
    }
}

/// The ID of an answer.
pub(crate) fn answer_mid(kind: MsgType, mid: u16, own: u16) -> u16
    ensures { result ≡ answer_mid kind mid own }
{
    match kind {
        MsgType::Con => mid,
        _ => own,
    }
}

/// What is known of the peer.
fn client_of<'a>(clients: &'a [Client], peer: &Peer) -> Option<&'a Client>
    ensures { option_map (λ c. c.now) result ≡ find (is_client peer.now) clients.now }
{
    'each: for c in clients {
        if is_same_peer(&c.peer, peer) {
            return Some(c);
        }
    }
    None
}

/// The ID that the next message to the peer has, where it isn't in an ACK.
pub(crate) fn own_mid(clients: &[Client], peer: &Peer) -> u16
    ensures { result ≡ own_mid peer.now clients.now }
{
    match client_of(clients, peer) {
        Some(c) => c.next_mid,
        None => 0,
    }
}

/// The message ID that comes after.
fn next_mid(mid: u16) -> u16
    ensures { result ≡ (mid + 1) % 65536 }
{
    mid.wrapping_add(1)
}

fn after_answer(kind: MsgType, mid: u16) -> u16
    ensures { result ≡ after_answer kind mid }
{
    match kind {
        MsgType::Non => next_mid(mid),
        _ => mid,
    }
}

fn stepped(c: Client, peer: &Peer, kind: MsgType, moment: u64) -> Client
    ensures { result ≡ stepped moment peer.now kind c }
{
    if is_same_peer(&c.peer, peer) {
        Client {
            peer: c.peer,
            next_mid: after_answer(kind, c.next_mid),
            moment,
        }
    } else {
        c
    }
}

fn step_each(clients: &mut [Client], peer: &Peer, kind: MsgType, moment: u64)
    ensures { clients.new ≡ map (stepped moment peer.now kind) clients.old }
{
    'each: for c in clients.iter_mut() {
        *c = stepped(*c, peer, kind, moment);
    }
}

/// The next message to the peer has another ID.
pub(crate) fn step_own(clients: &mut Vec<Client>, peer: &Peer, moment: u64)
    ensures { clients.new.items ≡ map (stepped moment peer.now MsgType.Non) clients.old.items }
{
    step_each(clients, peer, MsgType::Non, moment);
}

pub(crate) fn know(clients: &mut Vec<Client>, peer: Peer, kind: MsgType, moment: u64)
    requires { vec_len clients.old < vec_capacity clients.old }
    ensures { clients.new.items ≡ known_after moment peer kind clients.old.items }
{
    if is_known(clients, &peer) {
        step_each(clients, &peer, kind, moment);
    } else {
        clients.push_reserved(Client {
            peer,
            next_mid: after_answer(kind, 0),
            moment,
        });
    }
}

/// Forgets what is remembered too long.
pub(crate) fn drop_old(remembered: &mut Vec<Remembered>, moment: u64)
    ensures items { remembered.new.items ≡ filter (is_live moment) remembered.old.items }
    ensures len { vec_len remembered.new ≤ vec_len remembered.old }
    ensures capacity { vec_capacity remembered.new ≡ vec_capacity remembered.old }
{
    remembered.retain(|r| is_live(r, moment));
}

pub(crate) fn remember(remembered: &mut Vec<Remembered>, one: Remembered, moment: u64)
    requires { vec_len remembered.old < vec_capacity remembered.old }
    ensures { remembered.new.items ≡ filter (is_live moment) remembered.old.items ++ one ∷ [] }
{
    drop_old(remembered, moment);
    remembered.push_reserved(one);
}

/// Sends a datagram.
pub(crate) fn send(s: &mut State, peer: Peer, bytes: Bytes) -> Result<(), AllocError>
    ensures ok { OnOk result (seen s.new ≡ sent peer bytes (seen s.old)) }
    ensures err { OnErr result (seen s.new ≡ seen s.old) }
{
    s.out.push_back(Datagram { peer, bytes })?;
    Ok(())
}

pub(crate) fn make_room(s: &mut State) -> Result<(), AllocError>
    ensures same { seen s.new ≡ seen s.old }
    ensures observers { s.new.observers ≡ s.old.observers }
    ensures ok { OnOk result (HasRoom s.new) }
{
    s.clients.reserve(1)?;
    s.remembered.reserve(1)?;
    s.out.reserve(1)?;
    Ok(())
}

/// A CON or NON: who sent it, when it was heard, and what its answer is matched by.
#[derive(Clone, Copy)]
pub struct Asker {
    pub peer: Peer,
    pub moment: u64,
    pub kind: MsgType,
    pub mid: u16,
    pub token: Token,
}

/// Remembers a message that isn't processed, and what it gets.
pub(crate) fn note(s: &mut State, to: Asker, answer: Option<Bytes>)
    requires { HasRoom s.old }
    ensures seen { seen s.new ≡ noted to answer (seen s.old) }
    ensures out { s.new.out ≡ s.old.out }
{
    know(&mut s.clients, to.peer, MsgType::Con, to.moment);
    let one = Remembered {
        peer: to.peer,
        mid: to.mid,
        moment: to.moment,
        answer,
    };
    remember(&mut s.remembered, one, to.moment);
}

/// Meets a message by silence, and remembers it.
pub(crate) fn ignore(s: &mut State, to: Asker) -> Result<(), AllocError>
    ensures ok { OnOk result (seen s.new ≡ noted to None (seen s.old)) }
    ensures err { OnErr result (seen s.new ≡ seen s.old) }
{
    make_room(s)?;
    note(s, to, None);
    Ok(())
}

/// Sends the answer, and remembers it.
pub(crate) fn send_answer(s: &mut State, to: Asker, bytes: Bytes, again: Bytes)
    requires room { HasRoom s.old }
    requires equal { again ≡ bytes }
    ensures seen { seen s.new ≡ answered to bytes (seen s.old) }
    ensures observers { s.new.observers ≡ s.old.observers }
{
    know(&mut s.clients, to.peer, to.kind, to.moment);
    let one = Remembered {
        peer: to.peer,
        mid: to.mid,
        moment: to.moment,
        answer: Some(again),
    };
    remember(&mut s.remembered, one, to.moment);
    s.out.push_back_reserved(Datagram {
        peer: to.peer,
        bytes,
    });
}

/// The bytes of an answer.
pub(crate) fn bytes_of(
    alloc: Global,
    to: Asker,
    own: u16,
    code: u8,
    options: Vec<Opt>,
    payload: Vec<u8>,
) -> Result<Bytes, Memory>
    requires code { code ≢ 0 }
    requires in_order { IsInOrder 0 (entries options.items) }
    requires short { AllByRecursion IsShort (entries options.items) }
    ensures { IfOk result (λ b.
        Spells (answer_to to own code (entries options.items) payload.items) b) }
{
    let m = Message {
        kind: answer_kind(to.kind),
        code,
        mid: answer_mid(to.kind, to.mid, own),
        token: to.token,
        options,
        payload,
    };
    let bytes = encode(alloc, &m).map_err(out_of_memory)?;
    Ok(Bytes::new(alloc, bytes)?)
}

/// An answer that is ready: to be sent, and to be kept for repeats.
#[derive(Drop)]
pub(crate) struct Ready {
    pub bytes: Bytes,
    pub again: Bytes,
}

/// Makes an answer, and room for it.
pub(crate) fn prepared(
    alloc: Global,
    s: &mut State,
    to: Asker,
    code: u8,
    options: Vec<Opt>,
    payload: Vec<u8>,
) -> Result<Ready, Memory>
    requires code { code ≢ 0 }
    requires in_order { IsInOrder 0 (entries options.items) }
    requires short { AllByRecursion IsShort (entries options.items) }
    ensures same { seen s.new ≡ seen s.old }
    ensures room { OnOk result (HasRoom s.new) }
    ensures spelled { IfOk result (λ r. let own = own_mid to.peer s.old.clients.items in
        Spells (answer_to to own code (entries options.items) payload.items) r.bytes) }
    ensures equal { IfOk result (λ r. r.again ≡ r.bytes) }
{
    make_room(s)?;
    let own = own_mid(&s.clients, &to.peer);
    let bytes = bytes_of(alloc, to, own, code, options, payload)?;
    let again = bytes.share()?;
    Ok(Ready { bytes, again })
}

/// Answers a request.
pub(crate) fn answer(
    alloc: Global,
    s: &mut State,
    to: Asker,
    code: u8,
    options: Vec<Opt>,
    payload: Vec<u8>,
) -> Result<(), Memory>
    requires code { code ≢ 0 }
    requires in_order { IsInOrder 0 (entries options.items) }
    requires short { AllByRecursion IsShort (entries options.items) }
    ensures ok { OnOk result
        (Answers to code (entries options.items) payload.items (seen s.old) (seen s.new)) }
    ensures err { OnErr result (seen s.new ≡ seen s.old) }
    ensures observers { s.new.observers ≡ s.old.observers }
{
    make_room(s)?;
    let own = own_mid(&s.clients, &to.peer);
    let bytes = bytes_of(alloc, to, own, code, options, payload)?;
    let again = bytes.share()?;
    send_answer(s, to, bytes, again);
    Ok(())
}

fn is_kept(c: &Client, moment: u64, observers: &[Observer]) -> bool
    ensures { result ≡ is_kept moment observers.now c.now }
{
    moment.saturating_sub(c.moment) < EXCHANGE_LIFETIME || is_observer(observers, &c.peer)
}

/// Forgets the peers to whom no message may be remembered, and who aren't told of changes.
pub(crate) fn drop_unknown(clients: &mut Vec<Client>, moment: u64, observers: &[Observer])
    ensures { clients.new.items ≡ filter (is_kept moment observers.now) clients.old.items }
{
    clients.retain(|c| is_kept(c, moment, observers));
}
