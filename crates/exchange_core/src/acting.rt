//! What a datagram does, which is this to the exchanges and to what is observed.

ghost use Rattle.std.specs.Prelude.{ℕ, ◌≡◌, ◌≤◌, ◌<◌, ◌+◌, ◌++◌, [], List, Some, true, false, map, is_some, drop, sum_by, length, IfOk, IfSome, OnOk, OnErr};
ghost use Rattle.std.specs.List.{AllByRecursion};
ghost use Rattle.limits.specs.declared.TheConstants.{LAST_MOMENT, MAX_CONNECTIONS, MAX_NUMBERED};
ghost use Rattle.coap_codec.specs.Spelling.{Content};
ghost use Rattle.ask_model.specs.Sizes.{capped};
ghost use Rattle.journal_book.specs.Entries.{Deed, entry_size};
ghost use Rattle.message_layer.specs.Hearing.{listed};
ghost use Rattle.message_layer.specs.Prepared.{MayFollow, MayHeed};
ghost use Rattle.endpoint_table.specs.Tables.{link_at};
ghost use Rattle.exchange_model.specs.State.{State as CoreState, link_of};
ghost use Rattle.exchange_model.specs.Matters.{IsDigested, Matter as ModelMatter};
ghost use Rattle.exchange_model.specs.Hearing.{Numbers};
ghost use Rattle.exchange_model.specs.Entering.{Effect, confirm};
ghost use Rattle.exchange_model.specs.Room.{fits};
ghost use Rattle.exchange_table.specs.Places.{RiseBy};
ghost use Rattle.exchange_core.specs.Calls.{HearsSo};
ghost use Rattle.exchange_core.specs.Drafts.{Drafts, IsDrafted};
ghost use Rattle.exchange_core.specs.Hearing.{HasRoomFor, IsEffect, IsNewestIn, hearing_deeds, link_deeds, with_heard};
ghost use Rattle.exchange_core.specs.Judged.{IsJudged, IsJudgedBy};
ghost use Rattle.exchange_core.specs.Matters.{IsMatter, TellsSo, more_in, next_in, told_of};
ghost use Rattle.exchange_core.specs.Notifying.{IsNotedIn, IsWatchedBy, ReadsIn};
ghost use Rattle.exchange_core.specs.Places.{IsOrdered, id_of};
ghost use Rattle.exchange_core.specs.Sending.{IsTimed};
ghost use Rattle.exchange_core.specs.Sound.{IsSound};
ghost use Rattle.exchange_core.specs.States.{state_of, seen, given_in, outgoing, with_draft, HasPlaces, SeesSame};
ghost use Rattle.exchange_core.specs.Storing.{HasRoomToPut, put_in};
ghost use Rattle.exchange_core.specs.Reading.{IsMatterHere, IsReaderHere};
ghost use Rattle.exchange_table.specs.Asks.{IsAskedHere};
ghost use Rattle.exchange_model.specs.Memory.{most_entries};

use crate::changing::change_tables;
use crate::draft::Draft;
use crate::ending::{Telling, draft_tellings, readers_told};
use crate::matter::{Matter, next_in};
use crate::notifying::{Watching, make_room_to_watch, watching_of};
use crate::room::takes;
use crate::sealing::seal;
use crate::sending::draft_first;
use crate::state::{State, commit, make_places, start_anew};
use crate::storing::{Put, make_room_for, put_of};
use coap_codec::Bytes as Whole;
use exchange_table::{Exchanges, Readers};
use journal_book::{Entry, Event};
use message_layer::{Bytes, FirstSending, Heeding};
use observe_share::Notice;
use std::alloc::{AllocError, Global};
use std::collections::VecDeque;
use transformers::Relation;
use uri_map::Peer;

/// The ACK or RST goes out.
fn draft_reply<R: Relation>(
    draft: &mut Draft<R>,
    moment: u64,
    peer: Peer,
    reply: &Option<Bytes>,
) -> Result<(), AllocError>
    requires { draft.old.next < 4294967295 }
    ensures drafts { (S : CoreState) (ds : List Deed) → Drafts moment S ds draft.old
        → OnOk result (Drafts moment S (ds ++ map (confirm peer) (listed reply.now)) draft.new) }
    ensures answers { OnOk result (draft.new.answers ≡ draft.old.answers) }
{
    if let Some(bytes) = reply {
        draft.send(moment, peer, bytes, None)?;
    }
    Ok(())
}

/// The datagram came; the ACK or RST, and the next message, go out.
pub fn draft_link<R: Relation>(
    alloc: Global,
    s: &State<R>,
    draft: &mut Draft<R>,
    moment: u64,
    peer: Peer,
    datagram: &[u8],
    heeding: &Heeding,
    next: &Option<FirstSending>,
) -> Result<(), AllocError>
    requires few { length s.now.journal.entries ≤ most_entries }
    requires timed { IsTimed next.now }
    ensures drafts { OnOk result (Drafts moment (state_of s.now)
        (link_deeds peer datagram.now heeding.now next.now) draft.new) }
    ensures answers { OnOk result (draft.new.answers ≡ []) }
{
    start_anew(draft, s);
    let bytes = Whole::from_slice(alloc, datagram)?;
    draft.enter(Entry {
        moment,
        event: Event::Heard { peer, bytes },
    })?;
    draft_reply(draft, moment, peer, &heeding.reply)?;
    draft_first(draft, moment, peer, next)?;
    Ok(())
}

/// All who wait for the exchange that ends, if any does, and what their asks come to.
fn told_of(
    alloc: Global,
    matter: &Matter,
    readers: &Readers,
) -> Result<VecDeque<Telling>, AllocError>
    ensures { (n : ℕ) (new : Numbers) (x : ModelMatter) → IsMatter n new matter.now x
        → IfOk result (λ v. v.items ≡ told_of n x readers.now.items) }
{
    match matter {
        Matter::Over(exchange, ended) => readers_told(alloc, exchange, ended, readers),
        _ => Ok(VecDeque::new(alloc)),
    }
}

/// The entries that the datagram brings, which is this to the exchanges.
fn draft_heard<R: Relation>(
    alloc: Global,
    s: &State<R>,
    draft: &mut Draft<R>,
    moment: u64,
    peer: Peer,
    datagram: &[u8],
    heeding: &Heeding,
    matter: &Matter,
) -> Result<(), AllocError>
    requires few { length s.now.journal.entries ≤ most_entries }
    requires readers { length s.now.readers.items ≤ MAX_CONNECTIONS }
    requires timed { IsTimed (next_in heeding.now matter.now) }
    requires tells { TellsSo moment (link_deeds peer datagram.now heeding.now
        (next_in heeding.now matter.now)) matter.now (state_of s.now) }
    requires here { IsMatterHere s.now.journal.given s.now.journal.kept matter.now }
    requires waiting { AllByRecursion (IsReaderHere s.now.journal.given s.now.journal.kept)
        s.now.readers.items }
    ensures { (new : Numbers) (x : ModelMatter)
        → IsMatter (length s.now.journal.entries) new matter.now x
        → OnOk result (IsDrafted moment (state_of s.now) (hearing_deeds peer datagram.now
        heeding.now (next_in heeding.now matter.now) x (state_of s.now)) draft.new) }
{
    let next = next_in(heeding, matter);
    draft_link(alloc, s, draft, moment, peer, datagram, heeding, next)?;
    let told = told_of(alloc, matter, &s.readers)?;
    draft_tellings(draft, &s.journal, told, moment)?;
    Ok(())
}

/// What a datagram brings, beside what is drafted for it.
#[derive(Drop)]
struct Brought {
    /// what becomes of what is observed
    watching: Watching,
    /// what is put into the store
    put: Put,
    /// the journal takes what is drafted
    is_taken: bool,
}

/// All that the datagram brings, which is this to the exchanges and to what is observed.
fn bring<R: Relation>(
    alloc: Global,
    s: &State<R>,
    draft: &mut Draft<R>,
    moment: u64,
    peer: Peer,
    datagram: &[u8],
    notice: Notice,
    heeding: &Heeding,
    matter: &Matter,
) -> Result<Brought, AllocError>
    requires unsealed { s.now.sealed ≡ false }
    requires count { s.now.bytes
        ≡ sum_by entry_size (drop s.now.journal.given s.now.journal.entries) }
    requires within { s.now.journal.given ≤ length s.now.journal.entries }
    requires numbered { s.now.journal.given ≤ MAX_NUMBERED + 1024 }
    requires ordered { RiseBy id_of s.now.conns.items }
    requires few { length s.now.journal.entries ≤ most_entries }
    requires readers { length s.now.readers.items ≤ MAX_CONNECTIONS }
    requires timed { IsTimed (next_in heeding.now matter.now) }
    requires tells { TellsSo moment (link_deeds peer datagram.now heeding.now
        (next_in heeding.now matter.now)) matter.now (state_of s.now) }
    requires reads { ReadsIn s.now.journal.entries matter.now }
    requires here { IsMatterHere s.now.journal.given s.now.journal.kept matter.now }
    requires waiting { AllByRecursion (IsReaderHere s.now.journal.given s.now.journal.kept)
        s.now.readers.items }
    ensures watched { (m : Content) (new : Numbers) (x : ModelMatter)
        → IsMatter (length s.now.journal.entries) new matter.now x
        → IsNotedIn notice m matter.now
        → IfOk result (λ b. IsWatchedBy moment m matter.now b.watching x (state_of s.now)) }
    ensures watch { IfOk result
        (λ b. IfSome b.watching.more (λ r. length s.now.watches.standing < 64)) }
    ensures put { (new : Numbers) (x : ModelMatter)
        → IsMatter (length s.now.journal.entries) new matter.now x
        → IfOk result (λ b. b.put ≡ put_in s.now.journal.entries moment x) }
    ensures drafted { (new : Numbers) (x : ModelMatter)
        → IsMatter (length s.now.journal.entries) new matter.now x
        → OnOk result (IsDrafted moment (state_of s.now) (hearing_deeds peer datagram.now
        heeding.now (next_in heeding.now matter.now) x (state_of s.now)) draft.new) }
    ensures taken { (t : ℕ) → IfOk result
        (λ b. b.is_taken ≡ fits (with_draft t draft.new (state_of s.now))) }
{
    let watching = watching_of(alloc, s, moment, notice, matter)?;
    let put = put_of(alloc, &s.journal, matter, moment)?;
    draft_heard(alloc, s, draft, moment, peer, datagram, heeding, matter)?;
    let is_taken = takes(alloc, s, draft)?;
    Ok(Brought {
        watching,
        put,
        is_taken,
    })
}

/// Makes room for the exchange that begins, if one does.
fn make_room_to_open(exchanges: &mut Exchanges, matter: &Matter) -> Result<(), AllocError>
    ensures same { exchanges.new.exchanges ≡ exchanges.old.exchanges }
    ensures room { OnOk result (HasRoomFor matter.now exchanges.new.room) }
{
    if let Matter::Starts(_) = matter {
        exchanges.make_room()?;
    }
    Ok(())
}

/// Makes room for all that the datagram brings, which is this to the exchanges.
fn make_room_to_add<R: Relation>(
    s: &mut State<R>,
    matter: &Matter,
    brought: &Brought,
    draft: &Draft<R>,
) -> Result<(), AllocError>
    ensures same { SeesSame s.old s.new }
    ensures endpoints { s.new.endpoints ≡ s.old.endpoints }
    ensures places { OnOk result (HasPlaces s.new draft.now) }
    ensures room { OnOk result (HasRoomToPut brought.now.put s.new.store.room) }
    ensures piece { OnOk result (s.new.fetched.room ≡ true) }
    ensures open { OnOk result (HasRoomFor matter.now s.new.exchanges.room) }
    ensures watch { OnOk result (IfSome brought.now.watching.more (λ r. s.new.watches.room ≡ true)) }
{
    make_places(s, draft)?;
    make_room_for(&mut s.store, &brought.put)?;
    s.fetched.make_room()?;
    make_room_to_open(&mut s.exchanges, matter)?;
    make_room_to_watch(&mut s.watches, &brought.watching.more)?;
    Ok(())
}

/// Lets what was prepared go. Apart, so that what goes on needs no room for it.
#[inline(never)]
fn let_go(_heeding: Heeding, _matter: Matter, _brought: Brought) {}

/// Adds what was drafted, once there are places for it, and changes the tables.
fn add_heard<R: Relation>(
    s: &mut State<R>,
    moment: u64,
    peer: Peer,
    heeding: Heeding,
    matter: Matter,
    brought: Brought,
    draft: &mut Draft<R>,
) -> Result<(), AllocError>
    requires few { length s.old.journal.entries + length draft.old.entries ≤ most_entries }
    requires ordered { IsOrdered (state_of s.old) }
    requires issued { s.old.issued < 4294967295 }
    requires newest { IsNewestIn matter s.old.exchanges.exchanges }
    requires digests { AllByRecursion (IsDigested s.old.journal.entries) s.old.exchanges.exchanges }
    requires here { AllByRecursion (IsAskedHere s.old.journal.given s.old.journal.kept)
        s.old.exchanges.exchanges }
    requires matter { IsMatterHere s.old.journal.given s.old.journal.kept matter }
    requires watched { IfSome brought.watching.more (λ r. length s.old.watches.standing < 64) }
    requires early { moment ≤ LAST_MOMENT }
    requires ready { MayHeed moment (link_at s.old.endpoints peer) heeding }
    requires follows { MayFollow moment (link_at s.old.endpoints peer) heeding (more_in matter) }
    requires known { is_some (link_of s.old.endpoints.links peer).last_mid ≡ true }
    ensures state { (x : Effect) → IsEffect moment matter brought.watching x (state_of s.old)
        → brought.put ≡ put_in s.old.journal.entries moment x.matter
        → OnOk result (state_of s.new
        ≡ with_heard moment peer heeding matter x draft.old (state_of s.old)) }
    ensures bytes { OnOk result
        (s.new.bytes ≡ capped (s.old.bytes + capped (sum_by entry_size draft.old.entries))) }
    ensures held { OnOk result (length s.old.conns.items + 1 ≤ s.new.journal.room) }
    ensures answers { OnOk result (given_in s.new ≡ given_in s.old ++ draft.old.answers) }
    ensures sends { OnOk result (outgoing s.new ≡ outgoing s.old ++ draft.old.sends) }
    ensures same { OnErr result (SeesSame s.old s.new) }
{
    if make_room_to_add(s, &matter, &brought, draft).is_err() {
        let_go(heeding, matter, brought);
        return Err(AllocError);
    }
    let Brought { watching, put, .. } = brought;
    change_tables(s, moment, peer, heeding, matter, watching, put);
    commit(s, draft, moment);
    Ok(())
}

/// Does what the datagram brings that isn't lost, which is this to the exchanges, or seals the
/// journal.
pub fn act<R: Relation>(
    alloc: Global,
    s: &mut State<R>,
    draft: &mut Draft<R>,
    moment: u64,
    peer: Peer,
    datagram: &[u8],
    notice: Notice,
    heeding: Heeding,
    matter: Matter,
) -> Result<(), AllocError>
    requires sound { IsSound s.old }
    requires unsealed { s.old.sealed ≡ false }
    requires later { s.old.moment ≤ moment }
    requires early { moment ≤ LAST_MOMENT }
    requires judged { IsJudged moment peer datagram.now heeding notice matter
        (link_at s.old.endpoints peer) (state_of s.old) }
    requires here { IsMatterHere s.old.journal.given s.old.journal.kept matter }
    ensures sound { IsSound s.new }
    ensures heard { (word : ℕ) → IsJudgedBy moment word peer datagram.now heeding notice matter
        (link_at s.old.endpoints peer) (state_of s.old)
        → OnOk result (HearsSo moment word peer datagram.now (seen s.old) (seen s.new)) }
    ensures memory { OnErr result (seen s.new ≡ seen s.old) }
{
    let brought = bring(
        alloc, s, draft, moment, peer, datagram, notice, &heeding, &matter,
    )?;
    if !brought.is_taken {
        let_go(heeding, matter, brought);
        seal(s, moment);
        return Ok(());
    }
    add_heard(s, moment, peer, heeding, matter, brought, draft)?;
    Ok(())
}
