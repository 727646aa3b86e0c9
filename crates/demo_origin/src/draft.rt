//! Drafts of what a device says: they take their place once all of it is made.

ghost use Rattle.std.specs.Prelude.{◌≡◌, ◌<◌, Some, IfOk, IfSome, OnOk, length, filter, set, slice_get};
ghost use Rattle.std.specs.List.{list_any};
ghost use Rattle.std.specs.Option.{option_map};
ghost use Rattle.limits.specs.declared.TheConstants.{MAX_RETRANSMIT};
ghost use Rattle.demo_origin.specs.Values.{seen};
ghost use Rattle.demo_origin.specs.Drafts.{drafted, answering, CopiesAndTells};
ghost use Rattle.demo_origin.specs.Notifying.{talk_of, with_talk, telling, copying, once_more, is_waited_for, is_busy, newer, Tells, TellsAt, TellsAll, TellsFirst, CopiesAt, CopiesAll, CopiesFirst, CopiesOf, is_reached, without_lost};

use crate::answer::{Asker, know, own_mid, step_own};
use crate::blocks::BlockSize;
use crate::fault::Memory;
use crate::notice::{is_again, is_reached, notice};
use crate::state::{Client, Datagram, Held, Notification, Observer, State};
use message_layer::Bytes;
use std::alloc::{AllocError, Global};
use std::collections::VecDeque;
use uri_map::{Peer, is_same_peer};

/// The peers, the observers and the datagrams of a device, as they are to be.
#[derive(Drop)]
pub(crate) struct Draft {
    pub clients: Vec<Client>,
    pub observers: Vec<Observer>,
    pub out: VecDeque<Datagram>,
}

fn copy_notification(n: &Notification) -> Result<Notification, AllocError>
    ensures { IfOk result (λ copy. copy ≡ n.now) }
{
    let bytes = n.bytes.share()?;
    Ok(Notification {
        mid: n.mid,
        bytes,
        sent: n.sent,
        copies: n.copies,
    })
}

fn copy_outstanding(n: &Option<Notification>) -> Result<Option<Notification>, AllocError>
    ensures { IfOk result (λ copy. copy ≡ n.now) }
{
    match n {
        None => Ok(None),
        Some(n) => {
            let copy = copy_notification(n)?;
            Ok(Some(copy))
        }
    }
}

fn copy_observers(alloc: Global, observers: &[Observer]) -> Result<Vec<Observer>, AllocError>
    ensures { IfOk result (λ copy. copy.items ≡ observers.now) }
{
    let mut copy = Vec::new(alloc);
    'each: for o in observers {
        let outstanding = copy_outstanding(&o.outstanding)?;
        copy.push(Observer {
            peer: o.peer,
            token: o.token,
            place: o.place,
            told: o.told,
            outstanding,
        })?;
    }
    Ok(copy)
}

fn copy_out(alloc: Global, out: &VecDeque<Datagram>) -> Result<VecDeque<Datagram>, AllocError>
    ensures { IfOk result (λ copy. copy.items ≡ out.now.items) }
{
    let mut copy = VecDeque::new(alloc);
    'each: for i in 0..out.len() {
        let peer = out[i].peer;
        let bytes = out[i].bytes.share()?;
        copy.push_back(Datagram { peer, bytes })?;
    }
    Ok(copy)
}

/// What the device says, to go on from.
pub(crate) fn draft_of(alloc: Global, s: &State) -> Result<Draft, AllocError>
    ensures { IfOk result (λ d. drafted d ≡ talk_of (seen s.now)) }
{
    Ok(Draft {
        clients: Vec::from_slice(alloc, &s.clients)?,
        observers: copy_observers(alloc, &s.observers)?,
        out: copy_out(alloc, &s.out)?,
    })
}

fn copy_one(o: &mut Observer, n: Notification)
    ensures { o.new ≡ record o.old { outstanding = Some n } }
{
    o.outstanding = Some(n);
}

fn tell_one(o: &mut Observer, version: u64, n: Notification)
    ensures { o.new ≡ record o.old { told = version; outstanding = Some n } }
{
    o.told = version;
    o.outstanding = Some(n);
}

/// The observer of that number is told of that version by this notification.
fn put(
    draft: &mut Draft,
    place: usize,
    version: u64,
    n: Notification,
    bytes: Bytes,
) -> Result<(), Memory>
    requires place { place < length draft.old.observers.items }
    requires bytes { bytes ≡ n.bytes }
    ensures { OnOk result (IfSome (slice_get draft.old.observers.items place) (λ o.
        drafted draft.new ≡ telling place version n o (drafted draft.old))) }
{
    let peer = draft.observers[place].peer;
    draft.out.push_back(Datagram { peer, bytes })?;
    step_own(&mut draft.clients, &peer, n.sent);
    tell_one(&mut draft.observers[place], version, n);
    Ok(())
}

/// The notification to the observer of that number goes out once more.
fn put_again(draft: &mut Draft, place: usize, n: Notification, bytes: Bytes) -> Result<(), Memory>
    requires place { place < length draft.old.observers.items }
    requires bytes { bytes ≡ n.bytes }
    ensures { OnOk result (IfSome (slice_get draft.old.observers.items place) (λ o.
        drafted draft.new ≡ copying place n o (drafted draft.old))) }
{
    let peer = draft.observers[place].peer;
    draft.out.push_back(Datagram { peer, bytes })?;
    copy_one(&mut draft.observers[place], n);
    Ok(())
}

/// Tells the observer of that number of the state as it stands.
fn tell(
    alloc: Global,
    draft: &mut Draft,
    block: BlockSize,
    held: &Held,
    moment: u64,
    place: usize,
    copies: u8,
) -> Result<(), Memory>
    requires { place < length draft.old.observers.items }
    ensures { OnOk result (IfSome (slice_get draft.old.observers.items place) (λ o.
        Tells moment block.szx place copies held.now o (drafted draft.old) (drafted draft.new))) }
{
    let o = &draft.observers[place];
    let mid = own_mid(&draft.clients, &o.peer);
    let bytes = notice(alloc, o.token, mid, held, block)?;
    let again = bytes.share()?;
    let n = Notification {
        mid,
        bytes,
        sent: moment,
        copies,
    };
    put(draft, place, held.version, n, again)
}

fn is_waited_for(o: &Observer, peer: &Peer) -> bool
    ensures { result ≡ is_waited_for peer.now o.now }
{
    is_same_peer(&o.peer, peer) && o.outstanding.is_some()
}

fn is_busy(observers: &[Observer], peer: &Peer) -> bool
    ensures { result ≡ is_busy peer.now observers.now }
{
    'each: for o in observers {
        if is_waited_for(o, peer) {
            return true;
        }
    }
    false
}

/// The resource, where its state is another one than the observer was told of.
fn newer<'a>(resources: &'a [Held], o: &Observer) -> Option<&'a Held>
    ensures { option_map (λ h. h.now) result ≡ newer resources.now o.now }
{
    let held = resources.get(o.place)?;
    if held.version == o.told {
        None
    } else {
        Some(held)
    }
}

/// Tells the observer of that number of a newer state, where it is the turn of its peer.
fn tell_at(
    alloc: Global,
    draft: &mut Draft,
    block: BlockSize,
    resources: &[Held],
    moment: u64,
    place: usize,
) -> Result<(), Memory>
    ensures { OnOk result
        (TellsAt moment block.szx resources.now place (drafted draft.old) (drafted draft.new)) }
{
    let Some(o) = draft.observers.get(place) else {
        return Ok(());
    };
    if is_busy(&draft.observers, &o.peer) {
        return Ok(());
    }
    match newer(resources, o) {
        None => Ok(()),
        Some(held) => tell(alloc, draft, block, held, moment, place, 0),
    }
}

/// Tells each observer of a newer state, where it is the turn of its peer.
pub(crate) fn tell_all(
    alloc: Global,
    draft: &mut Draft,
    block: BlockSize,
    resources: &[Held],
    moment: u64,
) -> Result<(), Memory>
    ensures { OnOk result
        (TellsAll moment block.szx resources.now (drafted draft.old) (drafted draft.new)) }
{
    let len = draft.observers.len();
    'each: for place in 0..len {
        tell_at(alloc, draft, block, resources, moment, place)?;
    }
    Ok(())
}

fn once_more(n: &Notification, moment: u64) -> Result<Notification, AllocError>
    requires { n.now.copies < MAX_RETRANSMIT }
    ensures { IfOk result (λ again. again ≡ once_more moment n.now) }
{
    let bytes = n.bytes.share()?;
    Ok(Notification {
        mid: n.mid,
        bytes,
        sent: moment,
        copies: n.copies + 1,
    })
}

/// Sends what the observer of that number didn't acknowledge once more, where it is due.
fn copy_at(
    alloc: Global,
    draft: &mut Draft,
    block: BlockSize,
    resources: &[Held],
    moment: u64,
    place: usize,
) -> Result<(), Memory>
    ensures { OnOk result
        (CopiesAt moment block.szx resources.now place (drafted draft.old) (drafted draft.new)) }
{
    let Some(o) = draft.observers.get(place) else {
        return Ok(());
    };
    let Some(n) = &o.outstanding else {
        return Ok(());
    };
    if !is_again(n, moment) {
        return Ok(());
    }
    let copies = n.copies + 1;
    match newer(resources, o) {
        Some(held) => tell(alloc, draft, block, held, moment, place, copies),
        None => {
            let bytes = n.bytes.share()?;
            let n = once_more(n, moment)?;
            put_again(draft, place, n, bytes)
        }
    }
}

fn copy_all(
    alloc: Global,
    draft: &mut Draft,
    block: BlockSize,
    resources: &[Held],
    moment: u64,
) -> Result<(), Memory>
    ensures { OnOk result
        (CopiesAll moment block.szx resources.now (drafted draft.old) (drafted draft.new)) }
{
    let len = draft.observers.len();
    'each: for place in 0..len {
        copy_at(alloc, draft, block, resources, moment, place)?;
    }
    Ok(())
}

fn drop_lost(observers: &mut Vec<Observer>, moment: u64)
    ensures { observers.new.items ≡ filter (is_reached moment) observers.old.items }
{
    observers.retain(|o| is_reached(o, moment));
}

/// Puts an answer into the draft.
pub(crate) fn answer_in(draft: &mut Draft, to: Asker, bytes: Bytes) -> Result<(), Memory>
    ensures { OnOk result (drafted draft.new ≡ answering to bytes (drafted draft.old)) }
{
    draft.clients.reserve(1)?;
    know(&mut draft.clients, to.peer, to.kind, to.moment);
    draft.out.push_back(Datagram {
        peer: to.peer,
        bytes,
    })?;
    Ok(())
}

/// A draft with the copies that are due, and with what waited for its turn.
pub(crate) fn copied_and_told(alloc: Global, s: &State, moment: u64) -> Result<Draft, Memory>
    ensures { IfOk result (λ d. CopiesAndTells moment (seen s.now) (drafted d)) }
{
    let mut draft = draft_of(alloc, s)?;
    drop_lost(&mut draft.observers, moment);
    copy_all(alloc, &mut draft, s.block, &s.resources, moment)?;
    tell_all(alloc, &mut draft, s.block, &s.resources, moment)?;
    Ok(draft)
}

/// The device says what was drafted.
pub(crate) fn take_over(s: &mut State, draft: Draft)
    ensures seen { seen s.new ≡ with_talk (drafted draft) (seen s.old) }
    ensures resources { s.new.resources ≡ s.old.resources }
{
    s.clients = draft.clients;
    s.observers = draft.observers;
    s.out = draft.out;
}
