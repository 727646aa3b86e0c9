//! Who is told of changes: registrations.

ghost use Rattle.std.specs.Prelude.{◌≡◌, ◌<◌, map, filter, count_by, vec_len, vec_capacity};
ghost use Rattle.std.specs.List.{list_any};
ghost use Rattle.std.specs.Str.{bytes_eq};
ghost use Rattle.coap_codec.specs.Spelling.{entries};
ghost use Rattle.coap_codec.specs.Values.{values};
ghost use Rattle.demo_origin.specs.Observing.{wish_by, wish_of, is_entry, is_no_entry, is_for, has_place, is_granted, newcomer, enlisted, left_by, has_mid, is_sent_as, is_not_sent_as, relieved, is_observer};

use crate::state::{Notification, Observer};
use coap_codec::{Message, Token, first_of, number, uint_of};
use uri_map::{Peer, is_same_peer};

/// The most observers that a resource has.
const MAX_OBSERVERS: usize = 16;

/// What the Observe of a GET asks for (RFC 7641, section 2).
#[derive(Clone, Copy)]
pub enum Wish {
    Register,
    Deregister,
    Nothing,
}

fn wish_by(value: &[u8]) -> Wish
    ensures { result ≡ wish_by value.now }
{
    if value.len() > 3 {
        return Wish::Nothing;
    }
    match uint_of(value) {
        0 => Wish::Register,
        1 => Wish::Deregister,
        _ => Wish::Nothing,
    }
}

/// What the message's first Observe says.
pub(crate) fn wish_in(m: &Message) -> Wish
    ensures { result ≡ wish_of (values 6 (entries m.now.options.items)) }
{
    match first_of(m, number::OBSERVE) {
        Some(value) => wish_by(value),
        None => Wish::Nothing,
    }
}

fn is_same_token(a: &Token, b: &Token) -> bool
    ensures { result ≡ bytes_eq a.now b.now }
{
    a.as_slice() == b.as_slice()
}

fn is_entry(o: &Observer, peer: &Peer, place: usize, token: &Token) -> bool
    ensures { result ≡ is_entry peer.now place token.now o.now }
{
    is_same_peer(&o.peer, peer) && o.place == place && is_same_token(&o.token, token)
}

fn has_entry(observers: &[Observer], peer: &Peer, place: usize, token: &Token) -> bool
    ensures { result ≡ list_any (is_entry peer.now place token.now) observers.now }
{
    'each: for o in observers {
        if is_entry(o, peer, place, token) {
            return true;
        }
    }
    false
}

fn has_place(observers: &[Observer], place: usize) -> bool
    ensures { result ≡ has_place place observers.now }
{
    observers.iter().filter(|o| o.place == place).count() < MAX_OBSERVERS
}

/// Whether the peer is registered by its request.
pub(crate) fn is_granted(
    wish: Wish,
    observers: &[Observer],
    peer: &Peer,
    place: usize,
    token: &Token,
) -> bool
    ensures { result ≡ is_granted wish peer.now place token.now observers.now }
{
    match wish {
        Wish::Register => {
            has_entry(observers, peer, place, token) || has_place(observers, place)
        }
        Wish::Deregister | Wish::Nothing => false,
    }
}

fn drop_entry(observers: &mut Vec<Observer>, peer: &Peer, place: usize, token: &Token)
    ensures { observers.new.items
        ≡ filter (is_no_entry peer.now place token.now) observers.old.items }
{
    observers.retain(|o| !is_entry(o, peer, place, token));
}

/// Registers the peer, which was told of that version, or takes its registration back.
pub(crate) fn enlist(
    observers: &mut Vec<Observer>,
    wish: Wish,
    peer: Peer,
    place: usize,
    token: Token,
    version: u64,
)
    requires { vec_len observers.old < vec_capacity observers.old }
    ensures { observers.new.items ≡ enlisted wish peer place token version observers.old.items }
{
    match wish {
        Wish::Register => {
            if !has_entry(observers, &peer, place, &token) && has_place(observers, place) {
                observers.push_reserved(Observer {
                    peer,
                    token,
                    place,
                    told: version,
                    outstanding: None,
                });
            }
        }
        Wish::Deregister => drop_entry(observers, &peer, place, &token),
        Wish::Nothing => {}
    }
}

/// Ends the registration of a GET that isn't answered by a state, where Observe 1 asks for it.
pub(crate) fn leave(
    observers: &mut Vec<Observer>,
    wish: Wish,
    peer: &Peer,
    place: usize,
    token: &Token,
)
    ensures { observers.new.items ≡ left_by wish peer.now place token.now observers.old.items }
{
    match wish {
        Wish::Deregister => drop_entry(observers, peer, place, token),
        Wish::Register | Wish::Nothing => {}
    }
}

fn has_mid(outstanding: &Option<Notification>, mid: u16) -> bool
    ensures { result ≡ has_mid mid outstanding.now }
{
    match outstanding {
        None => false,
        Some(n) => n.mid == mid,
    }
}

fn is_sent_as(o: &Observer, peer: &Peer, mid: u16) -> bool
    ensures { result ≡ is_sent_as peer.now mid o.now }
{
    is_same_peer(&o.peer, peer) && has_mid(&o.outstanding, mid)
}

/// Whether a notification with that ID was sent to the peer, and isn't acknowledged.
pub(crate) fn has_sent(observers: &[Observer], peer: &Peer, mid: u16) -> bool
    ensures { result ≡ list_any (is_sent_as peer.now mid) observers.now }
{
    'each: for o in observers {
        if is_sent_as(o, peer, mid) {
            return true;
        }
    }
    false
}

fn relieve(o: &mut Observer, peer: &Peer, mid: u16)
    ensures { o.new ≡ relieved peer.now mid o.old }
{
    if is_sent_as(o, peer, mid) {
        o.outstanding = None;
    }
}

/// The peer acknowledged what it was sent under that ID.
pub(crate) fn relieve_each(observers: &mut [Observer], peer: &Peer, mid: u16)
    ensures { observers.new ≡ map (relieved peer.now mid) observers.old }
{
    'each: for o in observers.iter_mut() {
        relieve(o, peer, mid);
    }
}

/// The peer rejected what it was sent under that ID.
pub(crate) fn drop_rejecting(observers: &mut Vec<Observer>, peer: &Peer, mid: u16)
    ensures { observers.new.items ≡ filter (is_not_sent_as peer.now mid) observers.old.items }
{
    observers.retain(|o| !is_sent_as(o, peer, mid));
}

/// Whether the peer is told of some resource.
pub(crate) fn is_observer(observers: &[Observer], peer: &Peer) -> bool
    ensures { result ≡ list_any (is_observer peer.now) observers.now }
{
    'each: for o in observers {
        if is_same_peer(&o.peer, peer) {
            return true;
        }
    }
    false
}
