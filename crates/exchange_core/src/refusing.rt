//! Asks that are answered in their own step.

ghost use Rattle.std.specs.Prelude.{◌≡◌, ◌≢◌, ◌≤◌, ◌+◌, ◌^◌, ◌∷◌, [], true, false, length, IfOk, OnOk, Err};
ghost use Rattle.std.specs.Arc.{arc_value};
ghost use Rattle.limits.specs.declared.TheConstants.{LAST_MOMENT};
ghost use Rattle.journal_book.specs.Views.{ask_of};
ghost use Rattle.exchange_model.specs.Hearing.{Numbers};
ghost use Rattle.exchange_model.specs.Entering.{refusal_deeds};
ghost use Rattle.exchange_model.specs.Sealing.{asks_in_room};
ghost use Rattle.exchange_core.specs.Refusing.{MayRefuse};
ghost use Rattle.exchange_core.specs.Drafts.{Drafts};
ghost use Rattle.exchange_core.specs.Sound.{IsSound};
ghost use Rattle.exchange_core.specs.States.{state_of, seen, refusal_given};
ghost use Rattle.exchange_core.specs.Values.{stepped};
ghost use Rattle.exchange_model.specs.Memory.{most_entries};

use crate::answer::{Answer, Ticket};
use crate::draft::Draft;
use crate::fault::AskFault;
use crate::room;
use crate::sealing::seal;
use crate::state::{State, commit, make_places, start};
use crate::watching::touch;
use ask_model::{Cause, Mapped};
use journal_book::{Entry, Event};
use reply_reading::Finding;
use std::alloc::{AllocError, Global};
use std::sync::Arc;
use transformers::Relation;

/// The ask of a connection, and its answer by the proxy itself.
fn draft_refusal<R: Relation>(
    alloc: Global,
    s: &State<R>,
    moment: u64,
    conn: u32,
    mapped: &Arc<Mapped<R>>,
    cause: Cause,
) -> Result<Draft<R>, AllocError>
    requires few { length s.now.journal.entries ≤ most_entries }
    ensures drafts { IfOk result (λ d. Drafts moment (state_of s.now)
        (refusal_deeds conn (ask_of (arc_value mapped.now)) cause (state_of s.now)) d) }
    ensures answers { IfOk result (λ d. d.answers
        ≡ refusal_given (length s.now.journal.entries) moment conn (arc_value mapped.now) cause
        ∷ []) }
{
    let number = s.journal.len() as u32;
    let asked = Arc::try_clone(mapped)?;
    let answered = Arc::try_clone(mapped)?;
    let mut draft = start(alloc, s);
    draft.enter(Entry {
        moment,
        event: Event::Asked(conn, asked),
    })?;
    draft.answer(Answer {
        conn,
        ask: number,
        number: number + 1,
        mapped: answered,
        moment,
        heard: moment,
        finding: Finding::fault(cause, number),
    })?;
    Ok(draft)
}

/// Enters an ask, and answers it by the proxy itself. Where there is no room for that, the journal
/// is sealed.
pub fn refuse<R: Relation>(
    alloc: Global,
    s: &mut State<R>,
    moment: u64,
    conn: u32,
    mapped: Arc<Mapped<R>>,
    cause: Cause,
) -> Result<Ticket<R>, AskFault>
    requires sound { IsSound s.old }
    requires unsealed { s.old.sealed ≡ false }
    requires later { s.old.moment ≤ moment }
    requires early { moment ≤ LAST_MOMENT }
    requires refused { MayRefuse moment conn (ask_of (arc_value mapped)) cause (state_of s.old) }
    ensures sound { IsSound s.new }
    ensures ticket { IfOk result (λ t. (t.conn ≡ conn) × (t.number ≡ length s.old.journal.entries)
        × (arc_value t.mapped ≡ arc_value mapped)) }
    ensures ok { OnOk result (s.new.sealed ≡ false) }
    ensures sealed { result ≡ Err AskFault.Sealed → s.new.sealed ≡ true }
    ensures is { result ≢ Err AskFault.Memory → (n : Numbers) → seen s.new
        ≡ stepped (asks_in_room moment conn (ask_of (arc_value mapped)) n (state_of s.old))
        (seen s.old) }
    ensures memory { result ≡ Err AskFault.Memory → seen s.new ≡ seen s.old }
    ensures others { (result ≢ Err AskFault.Unknown) × (result ≢ Err AskFault.Pending) }
{
    let number = s.journal.len() as u32;
    let draft = draft_refusal(alloc, s, moment, conn, &mapped, cause)?;
    let taken = room::takes(alloc, s, &draft)?;
    if !taken {
        seal(s, moment);
        return Err(AskFault::Sealed);
    }
    make_places(s, &draft)?;
    let mut draft = draft;
    commit(s, &mut draft, moment);
    touch(&mut s.watches, moment, &mapped);
    Ok(Ticket {
        conn,
        number,
        mapped,
    })
}
