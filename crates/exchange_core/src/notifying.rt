//! What becomes of what is observed by a message (RFC 7641).

ghost use Rattle.std.specs.Prelude.{ℕ, ◌≡◌, ◌<◌, ◌++◌, ◌&&◌, true, IfOk, IfSome, OnOk, length, nat_lt, option_to_list};
ghost use Rattle.coap_codec.specs.Spelling.{Content};
ghost use Rattle.exchange_model.specs.Matters.{Matter as ModelMatter};
ghost use Rattle.exchange_model.specs.Hearing.{Numbers};
ghost use Rattle.exchange_core.specs.Matters.{IsMatter};
ghost use Rattle.exchange_core.specs.Notifying.{IsNotedIn, IsReadBy, IsWatchedBy, ReadsIn, registered_by, unless_more};
ghost use Rattle.exchange_core.specs.States.{state_of};
ghost use Rattle.exchange_core.specs.Reading.{IsMatterHere};
ghost use Rattle.exchange_table.specs.Asks.{IsAskedHere};

use crate::matter::Matter;
use crate::state::State;
use crate::watching::add_written;
use cache_key::Key;
use coap_codec::Token;
use exchange_model::Exchange;
use exchange_table::asked;
use observe_share::{Notice, Registration, Watch};
use std::alloc::{AllocError, Global};
use transformers::Relation;

/// What becomes of what is observed.
#[derive(Drop)]
pub struct Watching {
    /// what the message is to the watch under its token
    pub notice: Notice,
    /// what is registered
    pub more: Option<Registration>,
    /// the tokens under which nothing is awaited any more
    pub gone: Vec<Token>,
}

/// Whether an update in reply to the exchange registers it.
fn may_register(watches: &Watch, exchange: &Exchange) -> bool
    ensures { result ≡ exchange.now.observes
        && (exchange.now.current && nat_lt (length watches.now.standing) 64) }
{
    exchange.observes && exchange.current && !watches.is_full()
}

/// What the reply to the exchange registers, if it does that.
fn registration_of<R: Relation>(
    alloc: Global,
    s: &State<R>,
    moment: u64,
    notice: Notice,
    exchange: &Exchange,
) -> Result<Option<Registration>, AllocError>
    requires reads { exchange.now.observes ≡ true
        → IsReadBy s.now.journal.entries exchange.now.ask }
    requires here { IsAskedHere s.now.journal.given s.now.journal.kept exchange.now }
    ensures is { IfOk result (λ o. option_to_list o
        ≡ registered_by moment notice exchange.now s.now.journal.entries s.now.watches.standing) }
    ensures few { IfOk result (λ o. IfSome o (λ r. length s.now.watches.standing < 64)) }
{
    let Notice::Update(version) = notice else {
        return Ok(None);
    };
    if !may_register(&s.watches, exchange) {
        return Ok(None);
    }
    let Some(mapped) = asked(&s.journal, exchange.ask) else {
        return Ok(None);
    };
    let Some(reading) = mapped.reading() else {
        return Ok(None);
    };
    Ok(Some(Registration {
        key: Key::of(alloc, reading.peer, reading.target, reading.accept)?,
        token: exchange.token,
        opening: exchange.opening,
        version,
        moment,
        asked: exchange.asked,
    }))
}

/// What a reply registers, and its token where it doesn't.
fn watching_by<R: Relation>(
    alloc: Global,
    s: &State<R>,
    moment: u64,
    notice: Notice,
    exchange: &Exchange,
) -> Result<Watching, AllocError>
    requires reads { exchange.now.observes ≡ true
        → IsReadBy s.now.journal.entries exchange.now.ask }
    requires here { IsAskedHere s.now.journal.given s.now.journal.kept exchange.now }
    ensures more { IfOk result (λ w. option_to_list w.more
        ≡ registered_by moment notice exchange.now s.now.journal.entries s.now.watches.standing) }
    ensures gone { IfOk result (λ w. w.gone.items
        ≡ unless_more w.more exchange.now) }
    ensures notice { IfOk result (λ w. w.notice ≡ notice) }
    ensures few { IfOk result (λ w. IfSome w.more (λ r. length s.now.watches.standing < 64)) }
{
    let mut gone = Vec::new(alloc);
    let more = registration_of(alloc, s, moment, notice, exchange)?;
    if more.is_none() {
        gone.push(exchange.token)?;
    }
    Ok(Watching { notice, more, gone })
}

/// What becomes of what is observed.
pub fn watching_of<R: Relation>(
    alloc: Global,
    s: &State<R>,
    moment: u64,
    notice: Notice,
    matter: &Matter,
) -> Result<Watching, AllocError>
    requires reads { ReadsIn s.now.journal.entries matter.now }
    requires here { IsMatterHere s.now.journal.given s.now.journal.kept matter.now }
    ensures is { (m : Content) (new : Numbers) (x : ModelMatter)
        → IsMatter (length s.now.journal.entries) new matter.now x
        → IsNotedIn notice m matter.now
        → IfOk result (λ w. IsWatchedBy moment m matter.now w x (state_of s.now)) }
    ensures few { IfOk result (λ w. IfSome w.more (λ r. length s.now.watches.standing < 64)) }
{
    match matter {
        Matter::Nothing => Ok(Watching {
            notice,
            more: None,
            gone: Vec::new(alloc),
        }),
        Matter::Tells(told) => {
            let mut gone = Vec::new(alloc);
            if let Notice::Other(_) = notice {
                gone.push(told.token)?;
            }
            Ok(Watching {
                notice,
                more: None,
                gone,
            })
        }
        Matter::Starts(_) => Ok(Watching {
            notice,
            more: None,
            gone: Vec::new(alloc),
        }),
        Matter::Goes(going) => watching_by(alloc, s, moment, notice, &going.exchange),
        Matter::Over(exchange, _) => {
            let mut watching = watching_by(alloc, s, moment, notice, exchange)?;
            add_written(&mut watching.gone, &s.watches, &s.journal, exchange)?;
            Ok(watching)
        }
    }
}

/// Makes room for what is registered, if anything is.
pub fn make_room_to_watch(
    watches: &mut Watch,
    more: &Option<Registration>,
) -> Result<(), AllocError>
    ensures watches { watches.new.standing ≡ watches.old.standing }
    ensures room { OnOk result (IfSome more.now (λ r. watches.new.room ≡ true)) }
{
    if more.is_some() {
        watches.make_room()?;
    }
    Ok(())
}

/// What is registered is observed, for which there is room.
pub fn register(watches: &mut Watch, more: Option<Registration>)
    requires room { IfSome more (λ r. watches.old.room ≡ true) }
    requires few { IfSome more (λ r. length watches.old.standing < 64) }
    ensures { watches.new.standing ≡ watches.old.standing ++ option_to_list more }
{
    if let Some(registration) = more {
        watches.register_in_room(registration);
    }
}
