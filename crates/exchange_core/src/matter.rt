//! What a datagram is to the open exchanges.

ghost use Rattle.std.specs.Prelude.{ℕ, ◌≡◌, ◌≤◌, ◌<◌, ◌^◌, List, None, Some, true, is_some, IfOk, IfSome, filter, length};
ghost use Rattle.std.specs.List.{AllByRecursion, Contains, find};
ghost use Rattle.coap_codec.specs.Spelling.{Spells, content};
ghost use Rattle.limits.specs.declared.TheConstants.{LAST_MOMENT, MAX_MESSAGE_LEN};
ghost use Rattle.ask_model.specs.Requests.{CoapRequest, block_message};
ghost use Rattle.ask_model.specs.Datagrams.{block_or_first};
ghost use Rattle.blockwise.specs.Downloads.{IsSayable};
ghost use Rattle.uri_map.specs.declared.peer.Peer.{Peer as PeerValue};
ghost use Rattle.message_layer.specs.Values.{LinkValue, Told, response, was_reset};
ghost use Rattle.message_layer.specs.Prepared.{IsUnnumberedCon, MayHeed};
ghost use Rattle.message_layer.specs.declared.prepared.Heeding.{Heeding as HeedingValue};
ghost use Rattle.endpoint_table.specs.Tables.{link_at};
ghost use Rattle.exchange_model.specs.State.{link_of};
ghost use Rattle.exchange_model.specs.Steps.{is_under};
ghost use Rattle.exchange_model.specs.Matters.{asked_in, has_next_place, is_piece_of, stale_in};
ghost use Rattle.exchange_progress.specs.declared.coming.Coming.TheVariants as Comes;
ghost use Rattle.exchange_progress.specs.Coming.{AsksSayable, IsComing, comes_by};
ghost use Rattle.exchange_core.specs.Matters.{IsAnsweredSo, IsAskedFor, IsFewTimes, IsNextFor, IsNextToken, IsPrepared, answer_in, matter_for, next_in};
ghost use Rattle.exchange_core.specs.Renewing.{unless_confirmed};
ghost use Rattle.exchange_core.specs.States.{state_of};
ghost use Rattle.exchange_core.specs.Reading.{IsComingHere, IsMatterHere};
ghost use Rattle.journal_book.specs.Journals.{IsHere};
ghost use Rattle.exchange_table.specs.Asks.{IsAskedHere};
ghost use Rattle.exchange_progress.specs.Pieces.{IsPieceHere};
ghost use Rattle.exchange_model.specs.Memory.{most_entries};

use crate::renewing::{is_confirmed, renewed_by};
use crate::state::State;
use ask_model::Cause;
use cache_key::Key;
use coap_codec::{Block, Bytes, Message, Token};
use exchange_model::Exchange;
use exchange_progress::{Coming, Ended, Onward, comes_to};
use exchange_table::asked;
use journal_book::Journal;
use message_layer::{FirstSending, Heeding, LinkFault, Submission};
use reply_reading::Finding;
use resp_cache::StoredResponse;
use std::alloc::{AllocError, Global};
use transformers::Relation;
use uri_map::Peer;

/// An exchange that goes on, with its next message.
#[derive(Drop)]
pub struct Going {
    pub exchange: Exchange,
    pub onward: Onward,
    /// what its next message goes under
    pub token: Token,
    pub submission: Submission,
}

/// A notification that counts.
#[derive(Drop)]
pub struct Notification {
    /// what it is of
    pub key: Key,
    /// what it came under
    pub token: Token,
    /// what is stored by it
    pub found: Option<StoredResponse>,
}

/// A notification that counts, with the first piece of a representation, the rest of which an
/// exchange fetches (RFC 7959 section 3.4).
#[derive(Drop)]
pub struct Starting {
    /// what it is of
    pub key: Key,
    /// what it came under
    pub watch: Token,
    /// the exchange, with its first message
    pub going: Going,
}

/// What a datagram is to the exchanges and to what is observed.
#[derive(Drop)]
pub enum Matter {
    /// nothing
    Nothing,
    /// it tells of what is observed
    Tells(Notification),
    /// it begins an exchange that fetches the rest of what it tells
    Starts(Starting),
    /// by it an exchange goes on
    Goes(Going),
    /// by it this exchange ends so
    Over(Exchange, Ended),
}

/// What the exchange comes to by the reply, which the entry with this number bears.
fn coming_of<R: Relation>(
    alloc: Global,
    s: &State<R>,
    exchange: &Exchange,
    number: u32,
    message: Message,
) -> Result<Coming, AllocError>
    requires few { IsFewTimes exchange.now }
    requires here { AllByRecursion (IsPieceHere s.now.journal.given s.now.journal.kept)
        (filter (is_piece_of exchange.now.opening) s.now.fetched.pieces) }
    requires number { s.now.journal.given ≤ number }
    ensures coming { IfOk result (λ x. IsComing number x (comes_by s.now.journal.entries
        s.now.fetched.pieces exchange.now number (content message))) }
    ensures sayable { IfOk result AsksSayable }
    ensures here { IfOk result (IsComingHere s.now.journal.given s.now.journal.kept) }
{
    let pieces = s.fetched.among(exchange.opening);
    comes_to(alloc, &s.journal, pieces, exchange, number, message)
}

/// What the exchange comes to by the reply, which the entry with this number bears. It ends where
/// that says that what it asks about is valid still.
pub fn replied_to<R: Relation>(
    alloc: Global,
    s: &State<R>,
    exchange: &Exchange,
    number: u32,
    message: Message,
) -> Result<Coming, AllocError>
    requires few { IsFewTimes exchange.now }
    requires here { AllByRecursion (IsPieceHere s.now.journal.given s.now.journal.kept)
        (filter (is_piece_of exchange.now.opening) s.now.fetched.pieces) }
    requires number { s.now.journal.given ≤ number }
    ensures coming { IfOk result (λ x. IsComing number x
        (unless_confirmed (stale_in exchange.now.opening s.now.stales.stales)
        number (content message)
        (comes_by s.now.journal.entries s.now.fetched.pieces exchange.now
        number (content message)))) }
    ensures sayable { IfOk result AsksSayable }
    ensures here { IfOk result (IsComingHere s.now.journal.given s.now.journal.kept) }
{
    if let Some(stored) = s.stales.of(exchange.opening) {
        if is_confirmed(stored, &message) {
            return renewed_by(alloc, stored, number, &message);
        }
    }
    coming_of(alloc, s, exchange, number, message)
}

/// The message for this block of what the ask with this number was for, or of its body, or for the
/// first, under message ID 0.
fn next_text<R: Relation>(
    alloc: Global,
    journal: &Journal<R>,
    ask: u32,
    block: Option<Block>,
    token: &Token,
) -> Result<Bytes, AllocError>
    requires asked { is_some (asked_in journal.now.entries ask) ≡ true }
    requires here { IsHere journal.now.given journal.now.kept ask }
    requires block { IfSome block IsSayable }
    ensures spelled { (q : CoapRequest) → asked_in journal.now.entries ask ≡ Some q
        → IfOk result (λ text. Spells (block_message q (block_or_first q block) 0 token.now) text) }
    ensures short { IfOk result (λ text. length text ≤ MAX_MESSAGE_LEN) }
    ensures message { IfOk result (IsUnnumberedCon token.now) }
{
    let Some(mapped) = asked(journal, ask) else {
        unreachable!()
    };
    let Some(text) = mapped.request(alloc, block, 0, token)? else {
        unreachable!()
    };
    Ok(text)
}

/// Prepares the next message of the exchange, under the next token, or finds no place for it.
pub fn prepare_next<R: Relation>(
    alloc: Global,
    s: &State<R>,
    moment: u64,
    word: u64,
    token: &Token,
    peer: &Peer,
    heeding: &Heeding,
    ask: u32,
    block: Option<Block>,
) -> Result<Option<Submission>, AllocError>
    requires early { moment ≤ LAST_MOMENT }
    requires ready { MayHeed moment (link_at s.now.endpoints peer.now) heeding.now }
    requires known { is_some (link_of s.now.endpoints.links peer.now).last_mid ≡ true }
    requires asked { is_some (asked_in s.now.journal.entries ask) ≡ true }
    requires here { IsHere s.now.journal.given s.now.journal.kept ask }
    requires block { IfSome block IsSayable }
    ensures next { (q : CoapRequest) → asked_in s.now.journal.entries ask ≡ Some q
        → IfOk result (λ o. IfSome o (IsNextFor moment word
        (link_at s.now.endpoints peer.now) heeding.now q block token.now)) }
    ensures place { IfOk result (λ o. is_some o
        ≡ has_next_place moment peer.now heeding.now.verdict (state_of s.now)) }
{
    let text = next_text(alloc, &s.journal, ask, block, token)?;
    match s
        .endpoints
        .prepare_more(peer, heeding, *token, text.as_slice(), moment, word)
    {
        Ok(submission) => Ok(Some(submission)),
        Err(LinkFault::Memory) => Err(AllocError),
        Err(_) => Ok(None),
    }
}

/// What it is that an exchange goes on: its next message goes under this token, where there is a
/// place for that, and else it ends. Apart, so that those that end at once need no room for it.
#[inline(never)]
fn goes_on<R: Relation>(
    alloc: Global,
    s: &State<R>,
    moment: u64,
    word: u64,
    token: &Token,
    peer: &Peer,
    heeding: &Heeding,
    exchange: &Exchange,
    onward: Onward,
) -> Result<Matter, AllocError>
    requires few { AllByRecursion IsFewTimes s.now.exchanges.exchanges }
    requires asked { AllByRecursion (IsAskedFor s.now.journal.entries) s.now.exchanges.exchanges }
    requires open { Contains s.now.exchanges.exchanges exchange.now }
    requires here { IsAskedHere s.now.journal.given s.now.journal.kept exchange.now }
    requires sayable { IfSome onward.block IsSayable }
    requires early { moment ≤ LAST_MOMENT }
    requires ready { MayHeed moment (link_at s.now.endpoints peer.now) heeding.now }
    requires known { is_some (link_of s.now.endpoints.links peer.now).last_mid ≡ true }
    requires token { IsNextToken word token.now (state_of s.now) }
    ensures here { IfOk result (IsMatterHere s.now.journal.given s.now.journal.kept) }
    ensures prepared { (said : Told) → IsAnsweredSo (length s.now.journal.entries) exchange.now
        (Comes.Goes onward) (answer_in said heeding.now.token (state_of s.now))
        → IfOk result (λ k. IsPrepared moment word (link_at s.now.endpoints peer.now)
        heeding.now (state_of s.now) k
        (matter_for moment peer.now heeding.now said (state_of s.now))) }
{
    let ask = exchange.ask;
    let block = onward.block;
    let next = prepare_next(alloc, s, moment, word, token, peer, heeding, ask, block)?;
    match next {
        Some(submission) => Ok(Matter::Goes(Going {
            exchange: *exchange,
            onward,
            token: *token,
            submission,
        })),
        None => Ok(Matter::Over(*exchange, Ended::Turned)),
    }
}

/// What the exchange comes to, as it is prepared.
pub fn matter_by<R: Relation>(
    alloc: Global,
    s: &State<R>,
    moment: u64,
    word: u64,
    token: &Token,
    peer: &Peer,
    heeding: &Heeding,
    exchange: &Exchange,
    coming: Coming,
) -> Result<Matter, AllocError>
    requires few { AllByRecursion IsFewTimes s.now.exchanges.exchanges }
    requires asked { AllByRecursion (IsAskedFor s.now.journal.entries) s.now.exchanges.exchanges }
    requires open { Contains s.now.exchanges.exchanges exchange.now }
    requires here { IsAskedHere s.now.journal.given s.now.journal.kept exchange.now }
    requires coming { IsComingHere s.now.journal.given s.now.journal.kept coming }
    requires sayable { AsksSayable coming }
    requires early { moment ≤ LAST_MOMENT }
    requires ready { MayHeed moment (link_at s.now.endpoints peer.now) heeding.now }
    requires known { is_some (link_of s.now.endpoints.links peer.now).last_mid ≡ true }
    requires token { IsNextToken word token.now (state_of s.now) }
    ensures here { IfOk result (IsMatterHere s.now.journal.given s.now.journal.kept) }
    ensures prepared { (said : Told) → IsAnsweredSo (length s.now.journal.entries) exchange.now coming
        (answer_in said heeding.now.token (state_of s.now))
        → IfOk result (λ k. IsPrepared moment word (link_at s.now.endpoints peer.now)
        heeding.now (state_of s.now) k
        (matter_for moment peer.now heeding.now said (state_of s.now))) }
{
    match coming {
        Coming::Ends(ended) => Ok(Matter::Over(*exchange, ended)),
        Coming::Goes(onward) => goes_on(
            alloc, s, moment, word, token, peer, heeding, exchange, onward,
        ),
    }
}

/// What an RST is to the exchanges, by the token of the message that it rejects: that one's ends.
pub fn reset_of<R: Relation>(s: &State<R>, of: &Token) -> Matter
    requires few { length s.now.journal.entries ≤ most_entries }
    requires here { AllByRecursion (IsAskedHere s.now.journal.given s.now.journal.kept)
        s.now.exchanges.exchanges }
    ensures here { IsMatterHere s.now.journal.given s.now.journal.kept result }
    ensures prepared { (moment word : ℕ) (token : List ℕ) (p : PeerValue) (link : LinkValue) (x : HeedingValue)
        → IsNextToken word token (state_of s.now)
        → IsPrepared moment word link x (state_of s.now) result
        (matter_for moment p x (was_reset of.now) (state_of s.now)) }
{
    let Some(exchange) = s.exchanges.find(of) else {
        return Matter::Nothing;
    };
    let finding = Finding::fault(Cause::Reset, s.journal.len() as u32);
    Matter::Over(*exchange, Ended::Found(finding))
}

/// The message that goes out next: the one that waited first, or else the one that is handed in.
pub fn next_in<'a>(heeding: &'a Heeding, matter: &'a Matter) -> &'a Option<FirstSending>
    ensures { result.now ≡ next_in heeding.now matter.now }
{
    if heeding.next.is_some() {
        return &heeding.next;
    }
    match matter {
        Matter::Goes(going) => &going.submission.sent,
        Matter::Starts(starting) => &starting.going.submission.sent,
        _ => &heeding.next,
    }
}
