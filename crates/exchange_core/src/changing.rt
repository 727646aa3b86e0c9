//! What a datagram does to the tables.

ghost use Rattle.std.specs.Prelude.{ℕ, ◌≡◌, ◌≤◌, ◌<◌, ◌+◌, ◌++◌, true, is_some, length, IfSome};
ghost use Rattle.std.specs.List.{AllByRecursion};
ghost use Rattle.limits.specs.declared.TheConstants.{LAST_MOMENT};
ghost use Rattle.message_layer.specs.Prepared.{MayFollow, MayHeed};
ghost use Rattle.endpoint_table.specs.Tables.{link_at};
ghost use Rattle.exchange_model.specs.State.{link_of};
ghost use Rattle.exchange_model.specs.Matters.{IsDigested, Matter as ModelMatter};
ghost use Rattle.exchange_model.specs.Hearing.{Numbers, exchanges_by, issued_by, pieces_by, stales_by, store_by};
ghost use Rattle.exchange_model.specs.Entering.{Effect};
ghost use Rattle.exchange_core.specs.Hearing.{HasRoomFor, IsEffect, IsFirstSo, IsNewestIn, first_number, is_first, note_next, tables_after, watches_after};
ghost use Rattle.exchange_core.specs.Matters.{IsMatter, more_in, next_in};
ghost use Rattle.exchange_core.specs.States.{state_of};
ghost use Rattle.exchange_core.specs.Storing.{HasRoomToPut, put_in};
ghost use Rattle.exchange_core.specs.Reading.{IsMatterHere};
ghost use Rattle.exchange_table.specs.Asks.{IsAskedHere};
ghost use Rattle.exchange_model.specs.Memory.{most_entries};

use crate::matter::{Going, Matter, next_in};
use crate::notifying::{Watching, register};
use crate::state::State;
use crate::storing::{Put, retell, settle};
use crate::watching::retire;
use exchange_table::{Exchanges, Fetched, Stales};
use journal_book::Journal;
use message_layer::{FirstSending, Heeding, Submission};
use observe_share::{Notice, Registration, Watch};
use resp_cache::Store;
use transformers::Relation;
use uri_map::Peer;

/// Whether an exchange goes on by the first of its replies: it has fetched none before, and doesn't
/// begin anew.
fn is_first(fetched: &Fetched, going: &Going) -> bool
    ensures { result ≡ is_first fetched.now.pieces going.now }
{
    going.onward.block.is_some() && !fetched.has_any_of(going.exchange.opening)
}

/// The exchanges after the datagram: one begins, goes on, or ends; where that was a write, GETs
/// join those of its place no more.
fn change_exchanges<R: Relation>(
    exchanges: &mut Exchanges,
    journal: &Journal<R>,
    fetched: &Fetched,
    matter: &Matter,
)
    requires newest { IsNewestIn matter.now exchanges.old.exchanges }
    requires room { HasRoomFor matter.now exchanges.old.room }
    requires digests { AllByRecursion (IsDigested journal.now.entries) exchanges.old.exchanges }
    requires here { AllByRecursion (IsAskedHere journal.now.given journal.now.kept)
        exchanges.old.exchanges }
    requires matter { IsMatterHere journal.now.given journal.now.kept matter.now }
    ensures { (n : ℕ) (new : Numbers) (x : ModelMatter) → IsMatter n new matter.now x
        → IsFirstSo fetched.now.pieces matter.now x
        → exchanges.new.exchanges
        ≡ exchanges_by journal.now.entries new.token x exchanges.old.exchanges }
{
    match matter {
        Matter::Nothing => {}
        Matter::Tells(told) => exchanges.outdate(journal, &told.key),
        Matter::Starts(starting) => {
            exchanges.outdate(journal, &starting.key);
            exchanges.push_in_room(starting.going.exchange);
        }
        Matter::Goes(going) => {
            let is_first = is_first(fetched, going);
            let work = going.onward.work;
            exchanges.go_on(&going.exchange.token, &going.token, work, is_first);
        }
        Matter::Over(exchange, _) => {
            exchanges.remove(&exchange.token);
            exchanges.outrun(journal, exchange);
        }
    }
}

/// The message that goes out next, in the entry with this number, is that of its exchange.
pub fn note_next(exchanges: &mut Exchanges, next: &Option<FirstSending>, number: u32)
    ensures { exchanges.new.exchanges ≡ note_next number next.now exchanges.old.exchanges }
{
    if let Some(first) = next {
        exchanges.note_sending(&first.message.token, number);
    }
}

/// The number of the entry in which the next message goes out, after that of the datagram.
pub fn first_number(number: u32, heeding: &Heeding) -> u32
    requires { number ≤ most_entries }
    ensures { result ≡ first_number number heeding.now }
{
    match &heeding.reply {
        Some(_) => number + 2,
        None => number + 1,
    }
}

/// The pieces after the datagram, whose own entry has this number. There is room for one more.
fn change_pieces(fetched: &mut Fetched, matter: &Matter, number: u32)
    requires { fetched.old.room ≡ true }
    ensures { (new : Numbers) (x : ModelMatter) → IsMatter number new matter.now x
        → fetched.new.pieces ≡ pieces_by number x fetched.old.pieces }
{
    match matter {
        Matter::Nothing | Matter::Tells(_) => {}
        Matter::Starts(starting) => {
            fetched.push_in_room(starting.going.exchange.opening, number);
        }
        Matter::Goes(going) => match going.onward.block {
            Some(_) => fetched.push_in_room(going.exchange.opening, number),
            None => fetched.drop_of(going.exchange.opening),
        },
        Matter::Over(exchange, _) => fetched.drop_of(exchange.opening),
    }
}

/// By a reply, or its end, an exchange asks about nothing any more.
fn change_stales(stales: &mut Stales, matter: &Matter)
    ensures { (n : ℕ) (new : Numbers) (x : ModelMatter) → IsMatter n new matter.now x
        → stales.new.stales ≡ stales_by x stales.old.stales }
{
    match matter {
        Matter::Nothing | Matter::Tells(_) | Matter::Starts(_) => {}
        Matter::Goes(going) => stales.drop_of(going.exchange.opening),
        Matter::Over(exchange, _) => stales.drop_of(exchange.opening),
    }
}

/// The store after the datagram: what is put, where something is.
fn change_store<R: Relation>(store: &mut Store, journal: &Journal<R>, matter: &Matter, put: Put)
    requires room { HasRoomToPut put store.old.room }
    requires here { IsMatterHere journal.now.given journal.now.kept matter.now }
    ensures { (n t : ℕ) (new : Numbers) (x : ModelMatter) → IsMatter n new matter.now x
        → put ≡ put_in journal.now.entries t x
        → store.new.pairs ≡ store_by journal.now.entries t x store.old.pairs }
{
    match matter {
        Matter::Tells(told) => retell(store, &told.key, put),
        Matter::Starts(starting) => retell(store, &starting.key, put),
        Matter::Over(exchange, _) => settle(store, journal, exchange, put),
        _ => {}
    }
}

/// What is observed after the datagram. There is room for what is registered.
fn change_watches<R: Relation>(
    watches: &mut Watch,
    journal: &Journal<R>,
    matter: &Matter,
    notice: Notice,
    more: Option<Registration>,
    moment: u64,
)
    requires room { IfSome more (λ r. watches.old.room ≡ true) }
    requires few { IfSome more (λ r. length watches.old.standing < 64) }
    requires here { IsMatterHere journal.now.given journal.now.kept matter.now }
    ensures { watches.new.standing
        ≡ watches_after moment journal.now.entries notice matter.now more watches.old.standing }
{
    match matter {
        Matter::Nothing => {}
        Matter::Tells(told) => {
            let _told = watches.notified(&told.token, notice, moment);
        }
        Matter::Starts(starting) => {
            let _told = watches.notified(&starting.watch, notice, moment);
        }
        Matter::Goes(_) => register(watches, more),
        Matter::Over(exchange, _) => {
            register(watches, more);
            retire(watches, journal, exchange);
        }
    }
}

/// How many tokens are issued after the datagram.
fn issued_after(issued: u32, matter: &Matter) -> u32
    requires { issued < 4294967295 }
    ensures { (n : ℕ) (new : Numbers) (x : ModelMatter) → IsMatter n new matter.now x
        → result ≡ issued_by x issued }
{
    match matter {
        Matter::Goes(_) | Matter::Starts(_) => issued + 1,
        _ => issued,
    }
}

/// The message that is handed in.
fn into_more(matter: Matter) -> Option<Submission>
    ensures { result ≡ more_in matter }
{
    match matter {
        Matter::Goes(going) => Some(going.submission),
        Matter::Starts(starting) => Some(starting.going.submission),
        _ => None,
    }
}

/// The tables after the datagram. There is room for one piece more.
pub fn change_tables<R: Relation>(
    s: &mut State<R>,
    moment: u64,
    peer: Peer,
    heeding: Heeding,
    matter: Matter,
    watching: Watching,
    put: Put,
)
    requires room { HasRoomToPut put s.old.store.room }
    requires piece { s.old.fetched.room ≡ true }
    requires watch { IfSome watching.more (λ r. s.old.watches.room ≡ true) }
    requires watched { IfSome watching.more (λ r. length s.old.watches.standing < 64) }
    requires few { length s.old.journal.entries ≤ most_entries }
    requires issued { s.old.issued < 4294967295 }
    requires newest { IsNewestIn matter s.old.exchanges.exchanges }
    requires open { HasRoomFor matter s.old.exchanges.room }
    requires digests { AllByRecursion (IsDigested s.old.journal.entries) s.old.exchanges.exchanges }
    requires here { AllByRecursion (IsAskedHere s.old.journal.given s.old.journal.kept)
        s.old.exchanges.exchanges }
    requires matter { IsMatterHere s.old.journal.given s.old.journal.kept matter }
    requires early { moment ≤ LAST_MOMENT }
    requires ready { MayHeed moment (link_at s.old.endpoints peer) heeding }
    requires follows { MayFollow moment (link_at s.old.endpoints peer) heeding (more_in matter) }
    requires known { is_some (link_of s.old.endpoints.links peer).last_mid ≡ true }
    ensures state { (x : Effect) → IsEffect moment matter watching x (state_of s.old)
        → put ≡ put_in s.old.journal.entries moment x.matter
        → state_of s.new ≡ tables_after moment peer heeding matter x (state_of s.old) }
    ensures journal { s.new.journal ≡ s.old.journal }
    ensures conns { s.new.conns ≡ s.old.conns }
    ensures readers { s.new.readers ≡ s.old.readers }
    ensures bytes { s.new.bytes ≡ s.old.bytes }
    ensures answers { s.new.answers ≡ s.old.answers }
    ensures sends { s.new.sends ≡ s.old.sends }
{
    let number = s.journal.len() as u32;
    change_store(&mut s.store, &s.journal, &matter, put);
    change_exchanges(&mut s.exchanges, &s.journal, &s.fetched, &matter);
    let notice = watching.notice;
    let registered = watching.more;
    change_watches(
        &mut s.watches,
        &s.journal,
        &matter,
        notice,
        registered,
        moment,
    );
    let next = next_in(&heeding, &matter);
    note_next(&mut s.exchanges, next, first_number(number, &heeding));
    change_pieces(&mut s.fetched, &matter, number);
    change_stales(&mut s.stales, &matter);
    s.issued = issued_after(s.issued, &matter);
    let more = into_more(matter);
    s.endpoints
        .heed(&peer, heeding, more, &watching.gone, moment);
}
