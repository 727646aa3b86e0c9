//! A message that is taken in the same step as a datagram from the peer, and after it.

ghost use Rattle.std.specs.Prelude.{◌≡◌, ◌≤◌, ◌+◌, length, IfOk, IsOkUnless};
ghost use Rattle.limits.specs.declared.TheConstants.{LAST_MOMENT};
ghost use Rattle.message_layer.specs.Values.{seen, shown, IsSound, IsSoundWaiting};
ghost use Rattle.message_layer.specs.Sending.{waits, with_mid, IsSubmitted, HasPlace, HasRoomToo};
ghost use Rattle.message_layer.specs.Prepared.{heeded, link_after, followed, sendings, is_free, MayHeed, MayFollow, IsSubmission};

use crate::fault::LinkFault;
use crate::prepared::{FirstSending, Heeding, Submission};
use crate::sending::{has_mid, take};
use crate::state::{State, Waiting};
use crate::{handing, hearing};
use coap_codec::Token;
use limits::MAX_WAITING;
use std::alloc::Global;

/// How many wait once that was sent.
fn waiting_after(waiting: &[Waiting], next: &Option<FirstSending>) -> usize
    requires { sendings next.now ≤ length waiting.now }
    ensures { result + sendings next.now ≡ length waiting.now }
{
    match next {
        None => waiting.len(),
        Some(_) => waiting.len() - 1,
    }
}

/// Nothing is outstanding once the datagram was heard.
fn has_free_turn(s: &State, x: &Heeding) -> bool
    ensures { result ≡ is_free x.now.next x.now.verdict.ends s.now.outstanding }
{
    match &x.next {
        None => x.verdict.ends || s.outstanding.is_none(),
        Some(_) => false,
    }
}

/// Whether a place in the queue and an ID are free after the datagram; if not, which is missing.
pub fn check_more(s: &State, x: &Heeding, moment: u64) -> Result<(), LinkFault>
    requires sound { IsSound (seen s.now) }
    requires ready { MayHeed moment (shown s.now) x.now }
    ensures { IsSubmitted moment (heeded moment x.now (seen s.now)) result }
{
    if waiting_after(&s.waiting, &x.next) >= MAX_WAITING {
        return Err(LinkFault::Queue);
    }
    if !has_mid(s, moment) {
        return Err(LinkFault::Numbers);
    }
    Ok(())
}

/// The message with these bytes, as it is taken after the datagram.
pub fn prepare_more(
    alloc: Global,
    s: &State,
    x: &Heeding,
    token: Token,
    text: &[u8],
    moment: u64,
    word: u64,
) -> Result<Submission, LinkFault>
    requires waiting { IsSoundWaiting (waits token text.now word) }
    requires id { with_mid 0 text.now ≡ text.now }
    requires ready { MayHeed moment (shown s.now) x.now }
    requires place { HasPlace moment (heeded moment x.now (seen s.now)) }
    ensures ok { IfOk result (λ more.
        IsSubmission moment token text.now word (link_after moment x.now (shown s.now)) more) }
    ensures memory { IsOkUnless result LinkFault.Memory }
{
    if has_free_turn(s, x) {
        handing::at_once(alloc, token, text, s.last_mid, moment, word)
    } else {
        handing::in_turn(alloc, token, text, word)
    }
}

/// Does what the datagram makes the link do, and takes the message after it.
pub fn heed_with(s: &mut State, x: Heeding, more: Option<Submission>, moment: u64)
    requires moment { moment ≤ LAST_MOMENT }
    requires sound { IsSound (seen s.old) }
    requires room { HasRoomToo s.old }
    requires ready { MayHeed moment (shown s.old) x }
    requires more { MayFollow moment (shown s.old) x more }
    ensures { seen s.new ≡ followed moment more (heeded moment x (seen s.old)) }
{
    hearing::heed(s, x, moment);
    if let Some(more) = more {
        take(s, more, moment);
    }
}
