//! Asks that begin an exchange.

ghost use Rattle.std.specs.Prelude.{◌≡◌, ◌≤◌, ◌<◌, ◌+◌, ◌&&◌, ◌^◌, ◌∷◌, ◌++◌, [], List, None, true, false, length, sum_by, IfOk, IfErr, OnOk, Ok, Err, Some};
ghost use Rattle.std.specs.Arc.{arc_value};
ghost use Rattle.std.specs.List.{AllByRecursion};
ghost use Rattle.limits.specs.declared.TheConstants.{LAST_MOMENT, MAX_EXCHANGES, MAX_REQUEST_SIZE};
ghost use Rattle.ask_model.specs.Datagrams.{asked_peer};
ghost use Rattle.ask_model.specs.Sizes.{capped, came_size};
ghost use Rattle.journal_book.specs.Entries.{Deed, Asks, entry_size};
ghost use Rattle.journal_book.specs.Views.{ask_of};
ghost use Rattle.message_layer.specs.Prepared.{IsUnnumberedCon, IsSubmission, MaySubmit};
ghost use Rattle.message_layer.specs.Sending.{IsSubmitted};
ghost use Rattle.exchange_model.specs.State.{State as CoreState, link_of};
ghost use Rattle.exchange_model.specs.Resting.{HasConn};
ghost use Rattle.exchange_model.specs.Steps.{stale_for};
ghost use Rattle.exchange_model.specs.declared.kept.Stale.{Stale as StaleValue};
ghost use Rattle.endpoint_table.specs.Tables.{link_at};
ghost use Rattle.exchange_core.specs.Beginning.{with_exchange, IsBegun, IsBegunBy, IsEntered, MayBegin, asked_method, asked_work, exchange_by};
ghost use Rattle.exchange_core.specs.Joining.{joined_for};
ghost use Rattle.exchange_core.specs.Recalling.{served_for};
ghost use Rattle.exchange_core.specs.Sending.{IsTimed, sent_first};
ghost use Rattle.exchange_core.specs.Drafts.{Drafts};
ghost use Rattle.exchange_core.specs.Places.{IsOrdered};
ghost use Rattle.exchange_model.specs.Watching.{tokens_of};
ghost use Rattle.exchange_core.specs.Watching.{is_renewed_for};
ghost use Rattle.exchange_core.specs.Wording.{keeps_for, wants_for};
ghost use Rattle.exchange_table.specs.Tables.{IsLatest};
ghost use Rattle.exchange_core.specs.Sound.{IsSound};
ghost use Rattle.exchange_core.specs.States.{state_of, seen, given_in, outgoing, with_draft, HasPlaces, SeesSame};
ghost use Rattle.exchange_model.specs.Memory.{most_entries};

use crate::answer::Ticket;
use crate::draft::Draft;
use crate::fault::AskFault;
use crate::numbering::token_of;
use crate::room;
use crate::sealing::seal;
use crate::sending::draft_first;
use crate::state::{State, commit, make_places, start_anew};
use crate::watching::{renew, tokens_renewed};
use crate::wording::{First, first_of};
use ask_model::{Mapped, Meaning};
use blockwise::{LARGEST_SZX, Pieces, Upload};
use coap_codec::Token;
use exchange_model::{Exchange, Reader, Stale, Work};
use exchange_table::Stales;
use journal_book::{Entry, Event};
use message_layer::{FirstSending, LinkFault, Submission};
use resp_cache::StoredResponse;
use std::alloc::{AllocError, Global};
use std::sync::Arc;
use transformers::Relation;
use uri_map::Peer;

/// The code of a GET (RFC 7252 section 12.1.1).
pub const GET: u8 = 1;

/// What an ask comes to.
#[derive(Drop)]
pub enum Begun<R: Relation> {
    /// It is entered, and its exchange is open.
    Asked(Ticket<R>),
    /// Its endpoint has no place for one more message. This is the request again.
    Busy(Arc<Mapped<R>>),
}

/// The ask of a connection, and its message where that goes out at once.
fn draft_ask<R: Relation>(
    s: &State<R>,
    draft: &mut Draft<R>,
    moment: u64,
    conn: u32,
    mapped: &Arc<Mapped<R>>,
    peer: Peer,
    sent: &Option<FirstSending>,
) -> Result<(), AllocError>
    requires few { length s.now.journal.entries ≤ most_entries }
    requires timely { IsTimed sent.now }
    ensures drafts { OnOk result (Drafts moment (state_of s.now)
        (Asks conn (ask_of (arc_value mapped.now)) ∷ sent_first peer sent.now) draft.new) }
    ensures answers { OnOk result (draft.new.answers ≡ []) }
{
    let asked = Arc::try_clone(mapped)?;
    start_anew(draft, s);
    draft.enter(Entry {
        moment,
        event: Event::Asked(conn, asked),
    })?;
    draft_first(draft, moment, peer, sent)?;
    Ok(())
}

/// Notes what the exchange with this opening asks about, if it does. There is room for it.
fn note_stale(stales: &mut Stales, opening: u32, keeps: Option<StoredResponse>)
    requires room { stales.old.room ≡ true }
    requires latest { AllByRecursion (λ (x : StaleValue). x.opening < opening) stales.old.stales }
    ensures { stales.new.stales ≡ stales.old.stales ++ stale_for opening keeps }
{
    if let Some(stored) = keeps {
        stales.push_in_room(Stale { opening, stored });
    }
}

/// Opens the exchange with its reader, hands in its message, and adds what was drafted. What
/// observed the same ends, and nothing is awaited any more under these tokens.
fn add_exchange<R: Relation>(
    s: &mut State<R>,
    mapped: &Mapped<R>,
    exchange: Exchange,
    reader: Reader,
    keeps: Option<StoredResponse>,
    submission: Submission,
    gone: &[Token],
    draft: &mut Draft<R>,
    moment: u64,
)
    requires early { moment ≤ LAST_MOMENT }
    requires issued { s.old.issued < 4294967295 }
    requires places { HasPlaces s.old draft.old }
    requires few { length s.old.journal.entries + length draft.old.entries ≤ most_entries }
    requires ordered { IsOrdered (state_of s.old) }
    requires exchange { s.old.exchanges.room ≡ true }
    requires reader { s.old.readers.room ≡ true }
    requires stale { s.old.stales.room ≡ true }
    requires latest { IsLatest exchange s.old.exchanges.exchanges }
    requires later { AllByRecursion (λ (x : StaleValue). x.opening < exchange.opening)
        s.old.stales.stales }
    requires may { MaySubmit moment (link_at s.old.endpoints exchange.peer) submission }
    requires gone { gone.now ≡ tokens_of (is_renewed_for mapped.now.sense) s.old.watches.standing }
    ensures state { state_of s.new ≡ with_exchange moment mapped.now.sense exchange reader keeps
        submission.waiting (with_draft moment draft.old (state_of s.old)) }
    ensures bytes { s.new.bytes ≡ capped (s.old.bytes + capped (sum_by entry_size draft.old.entries)) }
    ensures held { length s.old.conns.items + 1 ≤ s.new.journal.room }
    ensures answers { given_in s.new ≡ given_in s.old ++ draft.old.answers }
    ensures sends { outgoing s.new ≡ outgoing s.old ++ draft.old.sends }
{
    let peer = exchange.peer;
    let opening = exchange.opening;
    s.exchanges.push_in_room(exchange);
    note_stale(&mut s.stales, opening, keeps);
    s.issued += 1;
    renew(&mut s.watches, mapped);
    s.endpoints.submit(peer, submission, gone, moment);
    commit(s, draft, moment);
    s.readers.push_in_room(reader);
}

/// The code of the request that is asked, or 0 where none is.
fn method_of<R: Relation>(mapped: &Mapped<R>) -> u8
    ensures { result ≡ asked_method mapped.now.sense }
{
    match mapped.meaning() {
        Meaning::Ask { method, .. } => method.code(),
        Meaning::Refuse(_, _) => 0,
    }
}

/// How far the exchange of a request has come before its first reply.
fn work_of<R: Relation>(mapped: &Mapped<R>) -> Work
    ensures { result ≡ asked_work mapped.now.sense }
{
    if method_of(mapped) == GET {
        return Work::Fetches {
            restarts: 0,
            pieces: Pieces::none(),
        };
    }
    Work::Gives(Upload::new(mapped.body(), LARGEST_SZX))
}

/// The exchange that the ask with this number opens, whose message goes out at once where it is
/// sent.
fn exchange_of<R: Relation>(
    opening: u32,
    moment: u64,
    token: Token,
    peer: Peer,
    mapped: &Mapped<R>,
    observes: bool,
    sent: &Option<FirstSending>,
) -> Exchange
    requires { opening ≤ most_entries }
    ensures { result ≡ exchange_by moment token peer mapped.now.sense observes sent.now opening }
{
    let sending = match sent {
        Some(_) => Some(opening + 1),
        None => None,
    };
    Exchange {
        opening,
        ask: opening,
        token,
        since: moment,
        peer,
        method: method_of(mapped),
        sending,
        awaits: sent.is_some(),
        observes,
        asked: moment,
        current: true,
        newest: true,
        work: work_of(mapped),
        digests: mapped.digests(),
    }
}

/// Makes places for what was drafted, and for one exchange more with its reader.
fn make_all_places<R: Relation>(s: &mut State<R>, draft: &Draft<R>) -> Result<(), AllocError>
    ensures same { SeesSame s.old s.new }
    ensures endpoints { s.new.endpoints ≡ s.old.endpoints }
    ensures places { OnOk result (HasPlaces s.new draft.now) }
    ensures exchange { OnOk result (s.new.exchanges.room ≡ true) }
    ensures stale { OnOk result (s.new.stales.room ≡ true) }
    ensures reader { OnOk result (s.new.readers.room ≡ true) }
{
    make_places(s, draft)?;
    s.exchanges.make_room()?;
    s.stales.make_room()?;
    s.readers.make_room()?;
    Ok(())
}

/// Enters what was drafted, with its exchange and its message, or seals the journal where there is
/// no room for it.
fn enter<R: Relation>(
    alloc: Global,
    s: &mut State<R>,
    mapped: &Mapped<R>,
    exchange: Exchange,
    reader: Reader,
    keeps: Option<StoredResponse>,
    submission: Submission,
    gone: &[Token],
    draft: &mut Draft<R>,
    moment: u64,
) -> Result<(), AskFault>
    requires sound { IsSound s.old }
    requires unsealed { s.old.sealed ≡ false }
    requires latest { IsLatest exchange s.old.exchanges.exchanges }
    requires later { AllByRecursion (λ (x : StaleValue). x.opening < exchange.opening)
        s.old.stales.stales }
    requires early { moment ≤ LAST_MOMENT }
    requires may { MaySubmit moment (link_at s.old.endpoints exchange.peer) submission }
    requires gone { gone.now ≡ tokens_of (is_renewed_for mapped.now.sense) s.old.watches.standing }
    ensures { IsEntered result moment mapped.now.sense exchange reader keeps submission.waiting
        draft.old s.old s.new }
{
    let taken = room::takes(alloc, s, draft)?;
    if !taken {
        seal(s, moment);
        return Err(AskFault::Sealed);
    }
    make_all_places(s, draft)?;
    add_exchange(
        s, mapped, exchange, reader, keeps, submission, gone, draft, moment,
    );
    Ok(())
}

/// Prepares that the endpoint's link takes a message.
fn prepare<R: Relation>(
    s: &mut State<R>,
    peer: Peer,
    token: Token,
    text: &[u8],
    moment: u64,
    word: u64,
) -> Result<Submission, LinkFault>
    requires moment { moment ≤ LAST_MOMENT }
    requires message { IsUnnumberedCon token text.now }
    ensures same { SeesSame s.old s.new }
    ensures ok { IfOk result (λ x.
        IsSubmission moment token text.now word (link_at s.new.endpoints peer) x) }
    ensures fault { IsSubmitted moment (link_of (state_of s.old).links peer) result }
{
    s.endpoints.prepare_submit(&peer, token, text, moment, word)
}

/// The message of an ask, under its token, for which its endpoint's link is prepared.
struct Prepared {
    peer: Peer,
    token: Token,
    first: First,
    submission: Submission,
    /// the tokens of what observed the same
    gone: Vec<Token>,
}

/// Enters the ask, whose message was prepared.
fn ask<R: Relation>(
    alloc: Global,
    s: &mut State<R>,
    draft: &mut Draft<R>,
    moment: u64,
    word: u64,
    conn: u32,
    mapped: Arc<Mapped<R>>,
    message: Prepared,
) -> Result<Ticket<R>, AskFault>
    requires sound { IsSound s.old }
    requires begins { MayBegin moment word conn (arc_value mapped) message.peer message.token
        message.first.text (state_of s.old) }
    requires observes { message.first.observes
        ≡ wants_for (arc_value mapped) s.old.watches.standing }
    requires keeps { message.first.keeps ≡ keeps_for moment (arc_value mapped) (state_of s.old) }
    requires gone { message.gone.items
        ≡ tokens_of (is_renewed_for (arc_value mapped).sense) s.old.watches.standing }
    requires message { IsSubmission moment message.token message.first.text word
        (link_at s.old.endpoints message.peer) message.submission }
    ensures sound { IsSound s.new }
    ensures ok { IfOk result (λ x. (x.conn ≡ conn) × (arc_value x.mapped ≡ arc_value mapped)
        × IsBegunBy (Ok x.number) moment word conn (arc_value mapped) (seen s.old) (seen s.new)) }
    ensures err { IfErr result (λ e.
        IsBegunBy (Err e) moment word conn (arc_value mapped) (seen s.old) (seen s.new)) }
{
    let Prepared {
        peer,
        token,
        first,
        submission,
        gone,
    } = message;
    let sent = &submission.sent;
    draft_ask(s, draft, moment, conn, &mapped, peer, sent)?;
    let number = s.journal.len() as u32;
    let observes = first.observes;
    let exchange = exchange_of(number, moment, token, peer, &mapped, observes, sent);
    let reader = Reader {
        ask: number,
        conn,
        opening: number,
    };
    let keeps = first.keeps;
    match enter(
        alloc, s, &mapped, exchange, reader, keeps, submission, &gone, draft, moment,
    ) {
        Ok(()) => Ok(Ticket {
            conn,
            number,
            mapped,
        }),
        Err(fault) => Err(fault),
    }
}

/// Begins the exchange of a request from a connection that waits for nothing, where nothing that is
/// stored answers it, it joins none, and fewer than 256 are open. Its message goes out at once, or
/// waits for its turn at its endpoint. The random word makes its token, its first timeout, and the
/// endpoint's first message ID.
pub fn begin<R: Relation>(
    alloc: Global,
    s: &mut State<R>,
    draft: &mut Draft<R>,
    moment: u64,
    word: u64,
    conn: u32,
    mapped: Arc<Mapped<R>>,
    peer: Peer,
) -> Result<Begun<R>, AskFault>
    requires sound { IsSound s.old }
    requires unsealed { s.old.sealed ≡ false }
    requires later { s.old.moment ≤ moment }
    requires early { moment ≤ LAST_MOMENT }
    requires asked { asked_peer (arc_value mapped).sense ≡ Some peer }
    requires idle { HasConn s.old.conns.items conn None }
    requires unserved { served_for (arc_value mapped).sense moment s.old.store.pairs ≡ None }
    requires alone { joined_for (arc_value mapped).sense (state_of s.old) ≡ None }
    requires few { length s.old.exchanges.exchanges < MAX_EXCHANGES }
    ensures sound { IsSound s.new }
    ensures begins { IsBegun result moment word conn (arc_value mapped) peer
        (seen s.old) (seen s.new) }
{
    let token = token_of(s.issued, word);
    let first = first_of(alloc, s, moment, &mapped, &token)?;
    let gone = tokens_renewed(alloc, &s.watches, &mapped)?;
    match prepare(s, peer, token, first.text.as_slice(), moment, word) {
        Ok(submission) => {
            let message = Prepared {
                peer,
                token,
                first,
                submission,
                gone,
            };
            match ask(alloc, s, draft, moment, word, conn, mapped, message) {
                Ok(ticket) => Ok(Begun::Asked(ticket)),
                Err(fault) => Err(fault),
            }
        }
        Err(LinkFault::Memory) => Err(AskFault::Memory),
        Err(_) => Ok(Begun::Busy(mapped)),
    }
}
