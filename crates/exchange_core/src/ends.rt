//! An exchange that ends by its reply, and leaves all that is observed as it is.

ghost use Rattle.std.specs.Prelude.{ℕ, ◌≡◌, ◌≤◌, ◌+◌, ◌∷◌, ◌++◌, [], IsTrue, OnErr, OnOk, false, is_some, length, sum_by, true};
ghost use Rattle.std.specs.List.{AllByRecursion};
ghost use Rattle.limits.specs.declared.TheConstants.{LAST_MOMENT, MAX_CONNECTIONS};
ghost use Rattle.ask_model.specs.Sizes.{capped};
ghost use Rattle.journal_book.specs.Entries.{entry_size};
ghost use Rattle.message_layer.specs.Prepared.{MayHeed};
ghost use Rattle.endpoint_table.specs.Tables.{link_at};
ghost use Rattle.observe_share.specs.declared.notice.Notice.{Notice};
ghost use Rattle.exchange_model.specs.State.{link_of};
ghost use Rattle.exchange_model.specs.Matters.{IsDigested, Matter as ModelMatter, asked_in, left_by};
ghost use Rattle.exchange_model.specs.Hearing.{Numbers};
ghost use Rattle.exchange_model.specs.Watching.{is_written_by, tokens_of};
ghost use Rattle.exchange_model.specs.Entering.{Effect};
ghost use Rattle.exchange_core.specs.declared.matter.Matter.TheVariants as M;
ghost use Rattle.exchange_core.specs.Calls.{HearsSo};
ghost use Rattle.exchange_core.specs.Drafts.{IsDrafted};
ghost use Rattle.exchange_core.specs.Hearing.{hearing_deeds, link_deeds, tables_after, with_heard};
ghost use Rattle.exchange_core.specs.Judged.{EndsAlone, IsJudged, IsJudgedBy};
ghost use Rattle.exchange_core.specs.Matters.{IsMatter, TellsSo, next_in};
ghost use Rattle.exchange_core.specs.Places.{IsOrdered};
ghost use Rattle.exchange_core.specs.Sending.{IsTimed};
ghost use Rattle.exchange_core.specs.Sound.{IsSound};
ghost use Rattle.exchange_core.specs.States.{state_of, seen, given_in, outgoing, SeesSame};
ghost use Rattle.exchange_core.specs.Storing.{HasRoomToPut, put_in};
ghost use Rattle.exchange_core.specs.Reading.{IsEndHere, IsMatterHere, IsReaderHere};
ghost use Rattle.exchange_table.specs.Asks.{IsAskedHere};
ghost use Rattle.exchange_model.specs.Memory.{most_entries};

use crate::acting::draft_link;
use crate::changing::{first_number, note_next};
use crate::draft::Draft;
use crate::ending::tell_readers;
use crate::room::takes;
use crate::sealing::seal;
use crate::state::{State, commit, make_places};
use crate::storing::{Put, make_room_for, put_ended, settle};
use crate::watching::retire;
use exchange_model::Exchange;
use exchange_progress::Ended;
use exchange_table::{Exchanges, asked};
use journal_book::Journal;
use message_layer::Heeding;
use std::alloc::{AllocError, Global};
use transformers::Relation;
use uri_map::Peer;

/// Whether the end of the exchange leaves all that is observed as it is: it registers nothing, and
/// is no write.
pub fn ends_apart<R: Relation>(s: &State<R>, exchange: &Exchange) -> bool
    requires { IsAskedHere s.now.journal.given s.now.journal.kept exchange.now }
    ensures observes { IsTrue result → exchange.now.observes ≡ false }
    ensures writes { IsTrue result → tokens_of
        (is_written_by (asked_in s.now.journal.entries exchange.now.ask))
        s.now.watches.standing ≡ [] }
{
    if exchange.observes {
        return false;
    }
    let Some(mapped) = asked(&s.journal, exchange.ask) else {
        return true;
    };
    match mapped.writing() {
        Some(_) => false,
        None => true,
    }
}

/// The entries that the reply brings by which the exchange ends.
fn draft_end<R: Relation>(
    alloc: Global,
    s: &State<R>,
    draft: &mut Draft<R>,
    moment: u64,
    peer: Peer,
    datagram: &[u8],
    heeding: &Heeding,
    exchange: &Exchange,
    ended: Ended,
) -> Result<(), AllocError>
    requires few { length s.now.journal.entries ≤ most_entries }
    requires readers { length s.now.readers.items ≤ MAX_CONNECTIONS }
    requires timed { IsTimed (next_in heeding.now (M.Over exchange.now ended)) }
    requires tells { TellsSo moment (link_deeds peer datagram.now heeding.now
        (next_in heeding.now (M.Over exchange.now ended))) (M.Over exchange.now ended)
        (state_of s.now) }
    requires ended { IsEndHere s.now.journal.given s.now.journal.kept ended }
    requires waiting { AllByRecursion (IsReaderHere s.now.journal.given s.now.journal.kept)
        s.now.readers.items }
    ensures { (new : Numbers) (x : ModelMatter)
        → IsMatter (length s.now.journal.entries) new (M.Over exchange.now ended) x
        → OnOk result (IsDrafted moment (state_of s.now) (hearing_deeds peer datagram.now
        heeding.now (next_in heeding.now (M.Over exchange.now ended)) x (state_of s.now))
        draft.new) }
{
    draft_link(
        alloc,
        s,
        draft,
        moment,
        peer,
        datagram,
        heeding,
        &heeding.next,
    )?;
    tell_readers(
        alloc, draft, &s.journal, &s.readers, exchange, ended, moment,
    )?;
    Ok(())
}

/// Where the exchange that has ended was a write, it outran the others of its place. Where there
/// are no others, its request isn't looked at.
fn outrun<R: Relation>(exchanges: &mut Exchanges, journal: &Journal<R>, ended: &Exchange)
    requires digested { AllByRecursion (IsDigested journal.now.entries) exchanges.old.exchanges }
    requires here { AllByRecursion (IsAskedHere journal.now.given journal.now.kept)
        exchanges.old.exchanges }
    requires ended { IsAskedHere journal.now.given journal.now.kept ended.now }
    ensures { exchanges.new.exchanges
        ≡ left_by journal.now.entries (ended.now ∷ []) exchanges.old.exchanges }
{
    if exchanges.as_slice().is_empty() {
        return;
    }
    exchanges.outrun(journal, ended);
}

/// The tables after the end of the exchange.
fn change_tables<R: Relation>(
    s: &mut State<R>,
    moment: u64,
    peer: Peer,
    heeding: Heeding,
    exchange: &Exchange,
    put: Put,
)
    requires room { HasRoomToPut put s.old.store.room }
    requires few { length s.old.journal.entries ≤ most_entries }
    requires digests { AllByRecursion (IsDigested s.old.journal.entries) s.old.exchanges.exchanges }
    requires here { AllByRecursion (IsAskedHere s.old.journal.given s.old.journal.kept)
        s.old.exchanges.exchanges }
    requires ended { IsAskedHere s.old.journal.given s.old.journal.kept exchange.now }
    requires early { moment ≤ LAST_MOMENT }
    requires ready { MayHeed moment (link_at s.old.endpoints peer) heeding }
    requires known { is_some (link_of s.old.endpoints.links peer).last_mid ≡ true }
    ensures state { (x : Effect) (ended : Ended) → EndsAlone exchange.now ended x (state_of s.old)
        → put ≡ put_in s.old.journal.entries moment x.matter → state_of s.new
        ≡ tables_after moment peer heeding (M.Over exchange.now ended) x (state_of s.old) }
    ensures journal { s.new.journal ≡ s.old.journal }
    ensures conns { s.new.conns ≡ s.old.conns }
    ensures readers { s.new.readers ≡ s.old.readers }
    ensures bytes { s.new.bytes ≡ s.old.bytes }
    ensures answers { s.new.answers ≡ s.old.answers }
    ensures sends { s.new.sends ≡ s.old.sends }
{
    let number = s.journal.len() as u32;
    settle(&mut s.store, &s.journal, exchange, put);
    s.exchanges.remove(&exchange.token);
    outrun(&mut s.exchanges, &s.journal, exchange);
    retire(&mut s.watches, &s.journal, exchange);
    note_next(
        &mut s.exchanges,
        &heeding.next,
        first_number(number, &heeding),
    );
    s.fetched.drop_of(exchange.opening);
    s.stales.drop_of(exchange.opening);
    s.endpoints
        .heed(&peer, heeding, None, &[exchange.token], moment);
}

/// Adds what was drafted, once there are places for it, and changes the tables.
fn add_end<R: Relation>(
    s: &mut State<R>,
    draft: &mut Draft<R>,
    moment: u64,
    peer: Peer,
    heeding: Heeding,
    exchange: &Exchange,
    put: Put,
) -> Result<(), AllocError>
    requires few { length s.old.journal.entries + length draft.old.entries ≤ most_entries }
    requires ordered { IsOrdered (state_of s.old) }
    requires digests { AllByRecursion (IsDigested s.old.journal.entries) s.old.exchanges.exchanges }
    requires here { AllByRecursion (IsAskedHere s.old.journal.given s.old.journal.kept)
        s.old.exchanges.exchanges }
    requires ended { IsAskedHere s.old.journal.given s.old.journal.kept exchange.now }
    requires early { moment ≤ LAST_MOMENT }
    requires ready { MayHeed moment (link_at s.old.endpoints peer) heeding }
    requires known { is_some (link_of s.old.endpoints.links peer).last_mid ≡ true }
    ensures state { (x : Effect) (ended : Ended) → EndsAlone exchange.now ended x (state_of s.old)
        → put ≡ put_in s.old.journal.entries moment x.matter
        → OnOk result (state_of s.new ≡ with_heard moment peer heeding
        (M.Over exchange.now ended) x draft.old (state_of s.old)) }
    ensures bytes { OnOk result
        (s.new.bytes ≡ capped (s.old.bytes + capped (sum_by entry_size draft.old.entries))) }
    ensures held { OnOk result (length s.old.conns.items + 1 ≤ s.new.journal.room) }
    ensures answers { OnOk result (given_in s.new ≡ given_in s.old ++ draft.old.answers) }
    ensures sends { OnOk result (outgoing s.new ≡ outgoing s.old ++ draft.old.sends) }
    ensures same { OnErr result (SeesSame s.old s.new) }
{
    make_places(s, draft)?;
    make_room_for(&mut s.store, &put)?;
    change_tables(s, moment, peer, heeding, exchange, put);
    commit(s, draft, moment);
    Ok(())
}

/// Lets what was prepared go. Apart, so that what goes on needs no room for it.
#[inline(never)]
fn let_go(_heeding: Heeding, _put: Put) {}

/// Does what the reply brings by which the exchange ends so, and which leaves all that is observed
/// as it is, or seals the journal.
pub fn end<R: Relation>(
    alloc: Global,
    s: &mut State<R>,
    draft: &mut Draft<R>,
    moment: u64,
    peer: Peer,
    datagram: &[u8],
    heeding: Heeding,
    exchange: &Exchange,
    ended: Ended,
) -> Result<(), AllocError>
    requires sound { IsSound s.old }
    requires unsealed { s.old.sealed ≡ false }
    requires later { s.old.moment ≤ moment }
    requires early { moment ≤ LAST_MOMENT }
    requires observes { exchange.now.observes ≡ false }
    requires writes { tokens_of (is_written_by (asked_in s.old.journal.entries exchange.now.ask))
        s.old.watches.standing ≡ [] }
    requires judged { (notice : Notice) × IsJudged moment peer datagram.now heeding notice
        (M.Over exchange.now ended) (link_at s.old.endpoints peer) (state_of s.old) }
    requires here { IsMatterHere s.old.journal.given s.old.journal.kept
        (M.Over exchange.now ended) }
    ensures sound { IsSound s.new }
    ensures heard { (word : ℕ) (notice : Notice)
        → IsJudgedBy moment word peer datagram.now heeding notice
        (M.Over exchange.now ended) (link_at s.old.endpoints peer) (state_of s.old)
        → OnOk result (HearsSo moment word peer datagram.now (seen s.old) (seen s.new)) }
    ensures memory { OnErr result (seen s.new ≡ seen s.old) }
{
    let put = put_ended(alloc, &s.journal, exchange, &ended, moment)?;
    draft_end(
        alloc, s, draft, moment, peer, datagram, &heeding, exchange, ended,
    )?;
    let is_taken = takes(alloc, s, draft)?;
    if !is_taken {
        let_go(heeding, put);
        seal(s, moment);
        return Ok(());
    }
    add_end(s, draft, moment, peer, heeding, exchange, put)?;
    Ok(())
}
