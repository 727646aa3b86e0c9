//! Asks that join an exchange.

ghost use Rattle.std.specs.Prelude.{◌≡◌, ◌≢◌, ◌≤◌, ◌∷◌, [], false, true, find, length, IfOk, OnOk, Err};
ghost use Rattle.std.specs.Arc.{arc_value};
ghost use Rattle.std.specs.List.{AllByRecursion};
ghost use Rattle.limits.specs.declared.TheConstants.{LAST_MOMENT};
ghost use Rattle.journal_book.specs.Entries.{Asks};
ghost use Rattle.journal_book.specs.Views.{ask_of};
ghost use Rattle.exchange_model.specs.Matters.{IsDigested};
ghost use Rattle.exchange_model.specs.Hearing.{Numbers};
ghost use Rattle.exchange_model.specs.Sealing.{asks_in_room};
ghost use Rattle.exchange_table.specs.Joining.{is_joined_by};
ghost use Rattle.exchange_core.specs.Drafts.{Drafts};
ghost use Rattle.exchange_core.specs.Joining.{MayJoin};
ghost use Rattle.exchange_core.specs.Sound.{IsSound};
ghost use Rattle.exchange_core.specs.States.{state_of, seen};
ghost use Rattle.exchange_core.specs.Values.{stepped};
ghost use Rattle.exchange_table.specs.Asks.{IsAskedHere};
ghost use Rattle.exchange_model.specs.Memory.{most_entries};

use crate::answer::Ticket;
use crate::draft::Draft;
use crate::fault::AskFault;
use crate::room;
use crate::sealing::seal;
use crate::state::{State, commit, make_places, start};
use crate::watching::touch;
use ask_model::Mapped;
use exchange_model::{Exchange, Reader};
use exchange_table::Exchanges;
use journal_book::{Entry, Event, Journal};
use std::alloc::{AllocError, Global};
use std::sync::Arc;
use transformers::Relation;

/// The open exchange that the request joins.
pub fn find_joined<R: Relation>(
    exchanges: &Exchanges,
    journal: &Journal<R>,
    mapped: &Mapped<R>,
) -> Option<Exchange>
    requires digested { AllByRecursion (IsDigested journal.now.entries) exchanges.now.exchanges }
    requires here { AllByRecursion (IsAskedHere journal.now.given journal.now.kept)
        exchanges.now.exchanges }
    ensures { result
        ≡ find (is_joined_by journal.now.entries mapped.now.sense) exchanges.now.exchanges }
{
    if exchanges.as_slice().is_empty() {
        return None;
    }
    exchanges.joined(journal, mapped).copied()
}

/// The ask of a connection.
fn draft_join<R: Relation>(
    alloc: Global,
    s: &State<R>,
    moment: u64,
    conn: u32,
    mapped: &Arc<Mapped<R>>,
) -> Result<Draft<R>, AllocError>
    requires few { length s.now.journal.entries ≤ most_entries }
    ensures drafts { IfOk result (λ d. Drafts moment (state_of s.now)
        (Asks conn (ask_of (arc_value mapped.now)) ∷ []) d) }
    ensures answers { IfOk result (λ d. d.answers ≡ []) }
{
    let asked = Arc::try_clone(mapped)?;
    let mut draft = start(alloc, s);
    draft.enter(Entry {
        moment,
        event: Event::Asked(conn, asked),
    })?;
    Ok(draft)
}

/// Enters an ask that reads along what the ask with this number opened. Where there is no room for
/// that, the journal is sealed.
pub fn join<R: Relation>(
    alloc: Global,
    s: &mut State<R>,
    moment: u64,
    conn: u32,
    mapped: Arc<Mapped<R>>,
    opening: u32,
) -> Result<Ticket<R>, AskFault>
    requires sound { IsSound s.old }
    requires unsealed { s.old.sealed ≡ false }
    requires early { moment ≤ LAST_MOMENT }
    requires joins { MayJoin moment conn (ask_of (arc_value mapped)) opening (state_of s.old) }
    ensures sound { IsSound s.new }
    ensures ticket { IfOk result (λ t. (t.conn ≡ conn) × (t.number ≡ length s.old.journal.entries)
        × (arc_value t.mapped ≡ arc_value mapped)) }
    ensures ok { OnOk result (s.new.sealed ≡ false) }
    ensures sealed { result ≡ Err AskFault.Sealed → s.new.sealed ≡ true }
    ensures is { result ≢ Err AskFault.Memory → (n : Numbers) → seen s.new
        ≡ stepped (asks_in_room moment conn (ask_of (arc_value mapped)) n (state_of s.old))
        (seen s.old) }
    ensures memory { result ≡ Err AskFault.Memory → seen s.new ≡ seen s.old }
    ensures others { (result ≢ Err AskFault.Unknown) × (result ≢ Err AskFault.Pending) }
{
    let ask = s.journal.len() as u32;
    let draft = draft_join(alloc, s, moment, conn, &mapped)?;
    let taken = room::takes(alloc, s, &draft)?;
    if !taken {
        seal(s, moment);
        return Err(AskFault::Sealed);
    }
    make_places(s, &draft)?;
    s.readers.make_room()?;
    let mut draft = draft;
    commit(s, &mut draft, moment);
    touch(&mut s.watches, moment, &mapped);
    s.exchanges.read(opening, moment);
    s.readers.push_in_room(Reader { ask, conn, opening });
    Ok(Ticket {
        conn,
        number: ask,
        mapped,
    })
}
