//! What makes a device tell its observers of the state as it stands.

ghost use Rattle.std.specs.Prelude.{◌≡◌, ◌≢◌, OnOk, OnErr};
ghost use Rattle.demo_origin.specs.Values.{seen};
ghost use Rattle.demo_origin.specs.Observing.{acknowledged, rejected};
ghost use Rattle.demo_origin.specs.Notifying.{Settles, TellsAll};
ghost use Rattle.demo_origin.specs.Drafts.{AnswersAndTells, answering, drafted};

use crate::answer::{Asker, bytes_of, own_mid, remember};
use crate::draft::{Draft, answer_in, draft_of, take_over, tell_all};
use crate::fault::Memory;
use crate::observers::{drop_rejecting, relieve_each};
use crate::state::{Remembered, State};
use message_layer::Bytes;
use std::alloc::Global;
use uri_map::Peer;

/// Answers a request in a draft, and tells the observers.
fn draft_answer(
    alloc: Global,
    draft: &mut Draft,
    s: &State,
    to: Asker,
    bytes: Bytes,
) -> Result<(), Memory>
    ensures { OnOk result (TellsAll to.moment s.now.block.szx s.now.resources.items
        (answering to bytes (drafted draft.old)) (drafted draft.new)) }
{
    let moment = to.moment;
    answer_in(draft, to, bytes)?;
    tell_all(alloc, draft, s.block, &s.resources, moment)?;
    Ok(())
}

/// Answers a request, and tells the observers.
pub(crate) fn answer_and_tell(
    alloc: Global,
    s: &mut State,
    to: Asker,
    code: u8,
    payload: Vec<u8>,
) -> Result<(), Memory>
    requires { code ≢ 0 }
    ensures ok { OnOk result
        (AnswersAndTells to code payload.items (seen s.old) (seen s.new)) }
    ensures err { OnErr result (seen s.new ≡ seen s.old) }
    ensures resources { s.new.resources ≡ s.old.resources }
{
    s.remembered.reserve(1)?;
    let own = own_mid(&s.clients, &to.peer);
    let bytes = bytes_of(alloc, to, own, code, Vec::new(alloc), payload)?;
    let again = bytes.share()?;
    let mut draft = draft_of(alloc, s)?;
    draft_answer(alloc, &mut draft, s, to, bytes)?;
    let one = Remembered {
        peer: to.peer,
        mid: to.mid,
        moment: to.moment,
        answer: Some(again),
    };
    remember(&mut s.remembered, one, to.moment);
    take_over(s, draft);
    Ok(())
}

/// The peer acknowledged what it was sent under that ID: it is told of what came since.
pub(crate) fn acknowledge(
    alloc: Global,
    s: &mut State,
    moment: u64,
    peer: &Peer,
    mid: u16,
) -> Result<(), Memory>
    ensures ok { OnOk result
        (Settles moment (acknowledged peer.now mid (seen s.old)) (seen s.new)) }
    ensures err { OnErr result (seen s.new ≡ seen s.old) }
    ensures resources { s.new.resources ≡ s.old.resources }
{
    let mut draft = draft_of(alloc, s)?;
    relieve_each(&mut draft.observers, peer, mid);
    tell_all(alloc, &mut draft, s.block, &s.resources, moment)?;
    take_over(s, draft);
    Ok(())
}

/// The peer rejected what it was sent under that ID: it observes that resource no more.
pub(crate) fn reject(
    alloc: Global,
    s: &mut State,
    moment: u64,
    peer: &Peer,
    mid: u16,
) -> Result<(), Memory>
    ensures ok { OnOk result (Settles moment (rejected peer.now mid (seen s.old)) (seen s.new)) }
    ensures err { OnErr result (seen s.new ≡ seen s.old) }
    ensures resources { s.new.resources ≡ s.old.resources }
{
    let mut draft = draft_of(alloc, s)?;
    drop_rejecting(&mut draft.observers, peer, mid);
    tell_all(alloc, &mut draft, s.block, &s.resources, moment)?;
    take_over(s, draft);
    Ok(())
}
