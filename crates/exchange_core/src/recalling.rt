//! Asks that the store answers (RFC 7252 section 5.6).

ghost use Rattle.std.specs.Prelude.{◌≡◌, ◌≢◌, ◌≤◌, ◌∷◌, [], false, true, length, IfOk, OnOk, Err};
ghost use Rattle.std.specs.Arc.{arc_value};
ghost use Rattle.limits.specs.declared.TheConstants.{LAST_MOMENT};
ghost use Rattle.journal_book.specs.Views.{ask_of};
ghost use Rattle.exchange_model.specs.Hearing.{Numbers as AskNumbers};
ghost use Rattle.exchange_model.specs.Sealing.{asks_in_room};
ghost use Rattle.exchange_core.specs.Answering.{given_of};
ghost use Rattle.exchange_core.specs.Drafts.{Drafts};
ghost use Rattle.exchange_core.specs.Recalling.{MayRecall, kept_given, moved_for, recall_deeds, served_for};
ghost use Rattle.exchange_core.specs.Sound.{IsSound};
ghost use Rattle.exchange_core.specs.States.{state_of, seen};
ghost use Rattle.exchange_core.specs.Values.{stepped};
ghost use Rattle.exchange_model.specs.Memory.{most_entries};

use crate::answer::{Answer, Ticket};
use crate::draft::Draft;
use crate::fault::AskFault;
use crate::sealing::seal;
use crate::state::{State, commit, make_places, start};
use crate::{room, watching};
use ask_model::Mapped;
use journal_book::{Entry, Event, Numbers};
use reply_reading::Finding;
use resp_cache::{Store, StoredResponse};
use std::alloc::{AllocError, Global};
use std::sync::Arc;
use transformers::Relation;

/// What is stored for the request, if it is a GET and that is fresh at this moment.
pub fn find_stored<R: Relation>(
    store: &Store,
    moment: u64,
    mapped: &Mapped<R>,
) -> Result<Option<StoredResponse>, AllocError>
    ensures { IfOk result (λ o. o ≡ served_for mapped.now.sense moment store.now.pairs) }
{
    if store.is_empty() {
        return Ok(None);
    }
    let Some(sought) = mapped.lookup() else {
        return Ok(None);
    };
    match store.fresh(&sought, moment) {
        Some(stored) => Ok(Some(stored.share()?)),
        None => Ok(None),
    }
}

/// What is stored for the request is used.
fn touch<R: Relation>(store: &mut Store, moment: u64, mapped: &Mapped<R>)
    ensures { store.new.pairs ≡ moved_for mapped.now.sense moment store.old.pairs }
{
    if let Some(sought) = mapped.lookup() {
        store.touch(&sought, moment);
    }
}

/// The answer to the ask in the entry with this number, in the next one, by what is stored. It
/// shares the response.
fn stored_answer<R: Relation>(
    alloc: Global,
    moment: u64,
    conn: u32,
    number: u32,
    mapped: Arc<Mapped<R>>,
    stored: &StoredResponse,
) -> Result<Answer<R>, AllocError>
    requires { number ≤ most_entries }
    ensures { IfOk result
        (λ a. given_of a ≡ kept_given number moment conn (arc_value mapped) stored.now) }
{
    let response = Arc::try_clone(stored.shared())?;
    let replies = Numbers::from_slice(alloc, stored.list())?;
    Ok(Answer {
        conn,
        ask: number,
        number: number + 1,
        mapped,
        moment,
        heard: stored.heard(),
        finding: Finding::kept(response, replies),
    })
}

/// The ask of a connection, and its answer by what is stored.
fn draft_recall<R: Relation>(
    alloc: Global,
    s: &State<R>,
    moment: u64,
    conn: u32,
    mapped: &Arc<Mapped<R>>,
    stored: &StoredResponse,
) -> Result<Draft<R>, AllocError>
    requires few { length s.now.journal.entries ≤ most_entries }
    ensures drafts { IfOk result (λ d. Drafts moment (state_of s.now)
        (recall_deeds conn (ask_of (arc_value mapped.now)) stored.now (state_of s.now)) d) }
    ensures answers { IfOk result (λ d. d.answers ≡ kept_given (length s.now.journal.entries)
        moment conn (arc_value mapped.now) stored.now ∷ []) }
{
    let number = s.journal.len() as u32;
    let asked = Arc::try_clone(mapped)?;
    let answered = Arc::try_clone(mapped)?;
    let mut draft = start(alloc, s);
    draft.enter(Entry {
        moment,
        event: Event::Asked(conn, asked),
    })?;
    let given = stored_answer(alloc, moment, conn, number, answered, stored)?;
    draft.answer(given)?;
    Ok(draft)
}

/// Enters an ask, and answers it by what is stored. Where there is no room for that, the journal is
/// sealed.
pub fn recall<R: Relation>(
    alloc: Global,
    s: &mut State<R>,
    moment: u64,
    conn: u32,
    mapped: Arc<Mapped<R>>,
    stored: StoredResponse,
) -> Result<Ticket<R>, AskFault>
    requires sound { IsSound s.old }
    requires unsealed { s.old.sealed ≡ false }
    requires early { moment ≤ LAST_MOMENT }
    requires recalls { MayRecall moment conn (arc_value mapped) stored (state_of s.old) }
    ensures sound { IsSound s.new }
    ensures ticket { IfOk result (λ t. (t.conn ≡ conn) × (t.number ≡ length s.old.journal.entries)
        × (arc_value t.mapped ≡ arc_value mapped)) }
    ensures ok { OnOk result (s.new.sealed ≡ false) }
    ensures sealed { result ≡ Err AskFault.Sealed → s.new.sealed ≡ true }
    ensures is { result ≢ Err AskFault.Memory → (n : AskNumbers) → seen s.new
        ≡ stepped (asks_in_room moment conn (ask_of (arc_value mapped)) n (state_of s.old))
        (seen s.old) }
    ensures memory { result ≡ Err AskFault.Memory → seen s.new ≡ seen s.old }
    ensures others { (result ≢ Err AskFault.Unknown) × (result ≢ Err AskFault.Pending) }
{
    let number = s.journal.len() as u32;
    let draft = draft_recall(alloc, s, moment, conn, &mapped, &stored)?;
    let taken = room::takes(alloc, s, &draft)?;
    if !taken {
        seal(s, moment);
        return Err(AskFault::Sealed);
    }
    make_places(s, &draft)?;
    let mut draft = draft;
    commit(s, &mut draft, moment);
    touch(&mut s.store, moment, &mapped);
    watching::touch(&mut s.watches, moment, &mapped);
    Ok(Ticket {
        conn,
        number,
        mapped,
    })
}
