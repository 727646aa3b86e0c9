//! Connections: they are opened and closed.

ghost use Rattle.std.specs.Prelude.{ℕ, ◌≡◌, ◌≤◌, ◌<◌, ◌+◌, ◌^◌, Option, None, Some, IfSome, IsTrue, IsFalse, vec_len, vec_capacity};
ghost use Rattle.std.specs.List.{AllByRecursion};
ghost use Rattle.limits.specs.declared.TheConstants.{LAST_MOMENT};
ghost use Rattle.ask_model.specs.Sizes.{capped};
ghost use Rattle.exchange_model.specs.declared.kept.Reader.{Reader};
ghost use Rattle.exchange_model.specs.Resting.{HasConn};
ghost use Rattle.exchange_model.specs.Steps.{opens, shuts};
ghost use Rattle.exchange_core.specs.Calls.{IsOpened, IsClosed, IsUnknown};
ghost use Rattle.exchange_core.specs.Places.{id_of};
ghost use Rattle.exchange_table.specs.Places.{RiseBy};
ghost use Rattle.exchange_table.specs.Readers.{ask_in};
ghost use Rattle.exchange_core.specs.Sound.{IsSound};
ghost use Rattle.exchange_core.specs.States.{state_of, given_in, outgoing, seen};

use crate::fault::OpenFault;
use crate::noting::drop_conn;
use crate::places::conn_place;
use crate::room;
use crate::sealing::seal;
use crate::state::State;
use exchange_model::Conn;
use journal_book::{Entry, Event};
use limits::MAX_CONNECTIONS;
use transformers::Relation;

/// Adds a connection, for which there is a place, and its entry.
fn add_conn<R: Relation>(s: &mut State<R>, moment: u64) -> u32
    requires room { 0 < s.old.journal.room }
    requires place { vec_len s.old.conns < vec_capacity s.old.conns }
    requires few { s.old.opened < 4294967295 }
    ensures id { result ≡ s.old.opened }
    ensures state { state_of s.new ≡ opens moment (state_of s.old) }
    ensures room { s.new.journal.room + 1 ≡ s.old.journal.room }
    ensures bytes { s.new.bytes ≡ capped (s.old.bytes + 64) }
    ensures answers { given_in s.new ≡ given_in s.old }
    ensures sends { outgoing s.new ≡ outgoing s.old }
{
    let id = s.opened;
    s.journal.add(Entry {
        moment,
        event: Event::Opened(id),
    });
    s.conns.push_reserved(Conn { id, pending: None });
    s.opened = id + 1;
    s.bytes = s.bytes.saturating_add(64);
    s.moment = moment;
    id
}

/// Opens a connection at this moment. There have to be places for its Opened and its Shut, beside
/// those that are held for the other connections and the Sealed.
pub fn open<R: Relation>(s: &mut State<R>, moment: u64) -> Result<u32, OpenFault>
    requires sound { IsSound s.old }
    requires later { s.old.moment ≤ moment }
    requires early { moment ≤ LAST_MOMENT }
    ensures sound { IsSound s.new }
    ensures opens { IsOpened result moment (seen s.old) (seen s.new) }
{
    if s.conns.len() >= MAX_CONNECTIONS {
        return Err(OpenFault::Full);
    }
    if s.sealed {
        return Err(OpenFault::Sealed);
    }
    if !room::takes_conn(s) {
        seal(s, moment);
        return Err(OpenFault::Sealed);
    }
    s.journal.make_room(s.conns.len() + 3)?;
    s.conns.try_reserve(1)?;
    let id = add_conn(s, moment);
    Ok(id)
}

/// What the connection with this number waits for, if it is open.
fn find_pending(conns: &[Conn], id: u32) -> Option<Option<u32>>
    requires { RiseBy id_of conns.now }
    ensures some { IfSome result (HasConn conns.now id) }
    ensures none { result ≡ None → (p : Option ℕ) → HasConn conns.now id p → ⊥ }
{
    let place = conn_place(conns, id)?;
    Some(conns[place].pending)
}

/// Takes a connection out, with who waits on it, and adds its entry. It waits for the answer to
/// this ask, or for none.
fn take_conn<R: Relation>(s: &mut State<R>, moment: u64, conn: u32, pending: Option<u32>)
    requires room { 0 < s.old.journal.room }
    requires conns { RiseBy id_of s.old.conns.items }
    requires readers { RiseBy ask_in s.old.readers.items }
    requires waits { AllByRecursion (λ (r : Reader). r.conn ≡ conn → pending ≡ Some r.ask)
        s.old.readers.items }
    ensures state { state_of s.new ≡ shuts moment conn (state_of s.old) }
    ensures room { s.new.journal.room + 1 ≡ s.old.journal.room }
    ensures bytes { s.new.bytes ≡ capped (s.old.bytes + 64) }
    ensures answers { given_in s.new ≡ given_in s.old }
    ensures sends { outgoing s.new ≡ outgoing s.old }
{
    s.journal.add(Entry {
        moment,
        event: Event::Shut(conn),
    });
    drop_conn(&mut s.conns, conn);
    s.readers.drop_conn(conn, pending);
    s.bytes = s.bytes.saturating_add(64);
    s.moment = moment;
}

/// Closes a connection at this moment, and tells whether it was open.
pub fn close<R: Relation>(s: &mut State<R>, moment: u64, conn: u32) -> bool
    requires sound { IsSound s.old }
    requires later { s.old.moment ≤ moment }
    requires early { moment ≤ LAST_MOMENT }
    ensures sound { IsSound s.new }
    ensures closed { IsTrue result → IsClosed moment conn (seen s.old) (seen s.new) }
    ensures unknown { IsFalse result → (seen s.new ≡ seen s.old) × IsUnknown conn (seen s.old) }
{
    let Some(pending) = find_pending(s.conns.as_slice(), conn) else {
        return false;
    };
    take_conn(s, moment, conn, pending);
    true
}
