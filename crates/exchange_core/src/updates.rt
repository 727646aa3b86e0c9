//! Messages under the tokens of what is observed (RFC 7641).

ghost use Rattle.std.specs.Prelude.{ℕ, List, ◌≡◌, ◌≤◌, true, is_some, None, Some, IfOk, IfSome, length};
ghost use Rattle.std.specs.List.{AllByRecursion, find};
ghost use Rattle.limits.specs.declared.TheConstants.{LAST_MOMENT};
ghost use Rattle.coap_codec.specs.Spelling.{Content, content};
ghost use Rattle.message_layer.specs.Values.{response, told};
ghost use Rattle.ask_model.specs.Requests.{CoapRequest};
ghost use Rattle.blockwise.specs.Downloads.{IsSayable};
ghost use Rattle.observe_share.specs.declared.notice.Notice.TheVariants.{Update};
ghost use Rattle.message_layer.specs.Prepared.{MayHeed};
ghost use Rattle.message_layer.specs.declared.verdict.News.{News};
ghost use Rattle.history_laws.specs.Hearing.{is_such};
ghost use Rattle.history_laws.specs.Observing.{as_first, notice_in};
ghost use Rattle.endpoint_table.specs.Tables.{link_at};
ghost use Rattle.exchange_model.specs.State.{link_of};
ghost use Rattle.exchange_model.specs.Steps.{is_under};
ghost use Rattle.exchange_model.specs.Matters.{IsDigested, Tells as TellsOf, asked_in, has_next_place, told_alone, told_so};
ghost use Rattle.exchange_model.specs.Hearing.{Numbers};
ghost use Rattle.exchange_core.specs.Matters.{IsMatter, IsNextToken, IsPrepared};
ghost use Rattle.exchange_core.specs.Notifying.{IsStarted, IsUnder, IsWatchedFor, has_link_place, matter_told, may_start_for, notice_told, started};
ghost use Rattle.exchange_core.specs.States.{state_of};
ghost use Rattle.exchange_core.specs.Reading.{IsMatterHere, IsWatchHere};
ghost use Rattle.exchange_table.specs.Asks.{IsAskedHere};
ghost use Rattle.exchange_model.specs.Memory.{most_entries};

use crate::beginning::GET;
use crate::matter::{Going, Matter, Notification, Starting, prepare_next, reset_of};
use crate::state::State;
use crate::storing::stored_for;
use cache_key::Key;
use coap_codec::{Message, MsgType, Token};
use exchange_model::{Exchange, Work};
use exchange_progress::{Coming, Ended, Onward, comes_first, notice_of};
use limits::MAX_EXCHANGES;
use message_layer::{Heeding, LinkFault, Up};
use observe_share::{Notice, Registration};
use resp_cache::StoredResponse;
use std::alloc::{AllocError, Global};
use transformers::Relation;
use uri_map::Peer;

/// What a message is to the watch under its token.
pub fn notice_told(up: &Up) -> Notice
    ensures { result ≡ notice_told (told up.now) }
{
    match up {
        Up::Response(message) => notice_of(message),
        _ => Notice::Other(None),
    }
}

/// Whether it may be a notification: a CON or NON.
fn is_such(message: &Message) -> bool
    ensures { result ≡ is_such message.now.kind }
{
    match message.kind {
        MsgType::Con | MsgType::Non => true,
        _ => false,
    }
}

/// A notification that counts for this watch: by it this is stored.
fn notification(watch: &Registration, found: Option<StoredResponse>) -> Result<Matter, AllocError>
    ensures here { (given : ℕ) (kept : List ℕ) → IfOk result (IsMatterHere given kept) }
    ensures is { (n : ℕ) (new : Numbers) → IfOk result (λ k.
        IsMatter n new k (TellsOf watch.now found)) }
{
    Ok(Matter::Tells(Notification {
        key: watch.key.share()?,
        token: watch.token,
        found,
    }))
}

/// Whether the link of the endpoint has a place for a message, and a message ID.
fn has_link_place<R: Relation>(s: &State<R>, moment: u64, peer: &Peer) -> bool
    requires early { moment ≤ LAST_MOMENT }
    requires known { is_some (link_of s.now.endpoints.links peer.now).last_mid ≡ true }
    ensures { result ≡ has_link_place moment (link_of s.now.endpoints.links peer.now) }
{
    match s.endpoints.check(peer, moment) {
        Ok(()) => true,
        Err(LinkFault::Memory) => true,
        Err(LinkFault::Queue) => false,
        Err(LinkFault::Numbers) => false,
    }
}

/// Whether an exchange may begin that fetches the rest of what is told of this key: no other reads
/// the same, and there is a place for it and for its message.
fn may_start<R: Relation>(s: &State<R>, moment: u64, peer: &Peer, key: &Key) -> bool
    requires early { moment ≤ LAST_MOMENT }
    requires known { is_some (link_of s.now.endpoints.links peer.now).last_mid ≡ true }
    requires digests { AllByRecursion (IsDigested s.now.journal.entries) s.now.exchanges.exchanges }
    requires here { AllByRecursion (IsAskedHere s.now.journal.given s.now.journal.kept)
        s.now.exchanges.exchanges }
    ensures { result ≡ may_start_for moment peer.now key.now (state_of s.now) }
{
    if s.exchanges.as_slice().len() >= MAX_EXCHANGES {
        return false;
    }
    if !has_link_place(s, moment, peer) {
        return false;
    }
    !s.exchanges.is_read(&s.journal, key)
}

/// The exchange that the entry with this number opens, which bears the first piece of what the
/// watch is told: so far it has come by that.
fn exchange_for(
    watch: &Registration,
    peer: Peer,
    token: Token,
    number: u32,
    moment: u64,
    work: Work,
) -> Exchange
    ensures { result ≡ started moment peer watch.now token work number }
{
    Exchange {
        opening: number,
        ask: watch.opening,
        token,
        since: moment,
        peer,
        method: GET,
        sending: None,
        awaits: false,
        observes: false,
        asked: 0,
        current: true,
        newest: true,
        work,
        digests: watch.key.digests(),
    }
}

/// What a notification is that brings the first piece, where an exchange may begin: that fetches
/// the rest, by a message under this token.
fn start<R: Relation>(
    alloc: Global,
    s: &State<R>,
    moment: u64,
    word: u64,
    token: &Token,
    peer: &Peer,
    heeding: &Heeding,
    watch: &Registration,
    onward: Onward,
) -> Result<Matter, AllocError>
    requires early { moment ≤ LAST_MOMENT }
    requires ready { MayHeed moment (link_at s.now.endpoints peer.now) heeding.now }
    requires known { is_some (link_of s.now.endpoints.links peer.now).last_mid ≡ true }
    requires entries { length s.now.journal.entries ≤ most_entries }
    requires asked { is_some (asked_in s.now.journal.entries watch.now.opening) ≡ true }
    requires watch { IsWatchHere s.now.journal.given s.now.journal.kept watch.now }
    requires within { s.now.journal.given ≤ length s.now.journal.entries }
    requires block { IfSome onward.block IsSayable }
    requires place { has_next_place moment peer.now heeding.now.verdict (state_of s.now) ≡ true }
    ensures here { IfOk result (IsMatterHere s.now.journal.given s.now.journal.kept) }
    ensures started { (q : CoapRequest) → asked_in s.now.journal.entries watch.now.opening ≡ Some q
        → IfOk result (λ k. IsStarted moment word token.now peer.now
        (link_at s.now.endpoints peer.now) heeding.now q watch.now onward (state_of s.now) k) }
{
    let number = s.journal.len() as u32;
    let exchange = exchange_for(watch, *peer, *token, number, moment, onward.work);
    let (ask, block) = (watch.opening, onward.block);
    let Some(submission) = prepare_next(alloc, s, moment, word, token, peer, heeding, ask, block)?
    else {
        unreachable!()
    };
    Ok(Matter::Starts(Starting {
        key: watch.key.share()?,
        watch: watch.token,
        going: Going {
            exchange,
            onward,
            token: *token,
            submission,
        },
    }))
}

/// What an update is that counts for this watch: it is stored where it is whole, and where it is
/// the first piece of one, an exchange may fetch the rest (RFC 7959 section 3.4).
fn update<R: Relation>(
    alloc: Global,
    s: &State<R>,
    moment: u64,
    word: u64,
    token: &Token,
    peer: &Peer,
    heeding: &Heeding,
    watch: &Registration,
    message: Message,
) -> Result<Matter, AllocError>
    requires early { moment ≤ LAST_MOMENT }
    requires ready { MayHeed moment (link_at s.now.endpoints peer.now) heeding.now }
    requires known { is_some (link_of s.now.endpoints.links peer.now).last_mid ≡ true }
    requires entries { length s.now.journal.entries ≤ most_entries }
    requires asked { is_some (asked_in s.now.journal.entries watch.now.opening) ≡ true }
    requires watch { IsWatchHere s.now.journal.given s.now.journal.kept watch.now }
    requires within { s.now.journal.given ≤ length s.now.journal.entries }
    requires digests { AllByRecursion (IsDigested s.now.journal.entries) s.now.exchanges.exchanges }
    requires here { AllByRecursion (IsAskedHere s.now.journal.given s.now.journal.kept)
        s.now.exchanges.exchanges }
    requires token { IsNextToken word token.now (state_of s.now) }
    ensures here { IfOk result (IsMatterHere s.now.journal.given s.now.journal.kept) }
    ensures prepared { (v : ℕ) → IfOk result (λ k. IsPrepared moment word
        (link_at s.now.endpoints peer.now) heeding.now (state_of s.now) k
        (told_so moment peer.now (state_of s.now) watch.now (Update v)
        (as_first (length s.now.journal.entries) 0 (content message)))) }
{
    let number = s.journal.len() as u32;
    match comes_first(alloc, number, message)? {
        Coming::Ends(Ended::Found(finding)) => {
            let found = stored_for(alloc, &s.journal, watch.opening, &finding, moment)?;
            notification(watch, found)
        }
        Coming::Ends(Ended::Renewed(_, _)) => notification(watch, None),
        Coming::Ends(Ended::Turned) => notification(watch, None),
        Coming::Goes(onward) => {
            if may_start(s, moment, peer, &watch.key) {
                return start(alloc, s, moment, word, token, peer, heeding, watch, onward);
            }
            notification(watch, None)
        }
    }
}

/// What a response is that no exchange awaits: a notification, where it counts for a watch. Apart,
/// so that what exchanges await needs no room for it.
#[inline(never)]
fn tells<R: Relation>(
    alloc: Global,
    s: &State<R>,
    moment: u64,
    word: u64,
    token: &Token,
    peer: &Peer,
    heeding: &Heeding,
    notice: Notice,
    message: Message,
) -> Result<Matter, AllocError>
    requires early { moment ≤ LAST_MOMENT }
    requires ready { MayHeed moment (link_at s.now.endpoints peer.now) heeding.now }
    requires known { is_some (link_of s.now.endpoints.links peer.now).last_mid ≡ true }
    requires entries { length s.now.journal.entries ≤ most_entries }
    requires watched { AllByRecursion (IsWatchedFor s.now.journal.entries) s.now.watches.standing }
    requires watches { AllByRecursion (IsWatchHere s.now.journal.given s.now.journal.kept)
        s.now.watches.standing }
    requires within { s.now.journal.given ≤ length s.now.journal.entries }
    requires digests { AllByRecursion (IsDigested s.now.journal.entries) s.now.exchanges.exchanges }
    requires here { AllByRecursion (IsAskedHere s.now.journal.given s.now.journal.kept)
        s.now.exchanges.exchanges }
    requires token { IsNextToken word token.now (state_of s.now) }
    requires notice { notice ≡ notice_in (content message) }
    ensures here { IfOk result (IsMatterHere s.now.journal.given s.now.journal.kept) }
    ensures prepared { IfOk result (λ k. IsPrepared moment word (link_at s.now.endpoints peer.now)
        heeding.now (state_of s.now) k
        (told_alone moment peer.now News.Response (content message) (state_of s.now))) }
{
    if !is_such(&message) {
        return Ok(Matter::Nothing);
    }
    let Some(watch) = s.watches.counting(&message.token, notice, moment) else {
        return Ok(Matter::Nothing);
    };
    match notice {
        Notice::Update(_) => update(alloc, s, moment, word, token, peer, heeding, watch, message),
        Notice::Other(_) => notification(watch, None),
    }
}

/// What the datagram, which is no reply to an exchange, is to the exchanges and to what is observed,
/// by what its link tells of it. A next message goes under this token.
pub fn matter_told<R: Relation>(
    alloc: Global,
    s: &State<R>,
    moment: u64,
    word: u64,
    token: &Token,
    peer: &Peer,
    heeding: &Heeding,
    notice: Notice,
    up: Up,
) -> Result<Matter, AllocError>
    requires entries { length s.now.journal.entries ≤ most_entries }
    requires alone { (m : Content) → told up ≡ response m
        → find (is_under heeding.now.token) s.now.exchanges.exchanges ≡ None }
    requires early { moment ≤ LAST_MOMENT }
    requires ready { MayHeed moment (link_at s.now.endpoints peer.now) heeding.now }
    requires known { is_some (link_of s.now.endpoints.links peer.now).last_mid ≡ true }
    requires token { IsNextToken word token.now (state_of s.now) }
    requires watched { AllByRecursion (IsWatchedFor s.now.journal.entries) s.now.watches.standing }
    requires watches { AllByRecursion (IsWatchHere s.now.journal.given s.now.journal.kept)
        s.now.watches.standing }
    requires within { s.now.journal.given ≤ length s.now.journal.entries }
    requires digests { AllByRecursion (IsDigested s.now.journal.entries) s.now.exchanges.exchanges }
    requires here { AllByRecursion (IsAskedHere s.now.journal.given s.now.journal.kept)
        s.now.exchanges.exchanges }
    requires notice { notice ≡ notice_told (told up) }
    requires under { IsUnder heeding.now.token (told up) }
    ensures here { IfOk result (IsMatterHere s.now.journal.given s.now.journal.kept) }
    ensures prepared { IfOk result (λ k. IsPrepared moment word (link_at s.now.endpoints peer.now)
        heeding.now (state_of s.now) k
        (matter_told moment peer.now heeding.now (told up) (state_of s.now))) }
{
    match up {
        Up::Response(message) => tells(
            alloc, s, moment, word, token, peer, heeding, notice, message,
        ),
        Up::Reset(of) => Ok(reset_of(s, &of)),
        _ => Ok(Matter::Nothing),
    }
}
