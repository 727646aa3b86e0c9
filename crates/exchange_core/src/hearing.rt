//! What a datagram does.

ghost use Rattle.std.specs.Prelude.{ℕ, ◌≡◌, ◌≤◌, false, length, OnErr, OnOk, None, Some};
ghost use Rattle.std.specs.List.{find};
ghost use Rattle.limits.specs.declared.TheConstants.{LAST_MOMENT};
ghost use Rattle.coap_codec.specs.Spelling.{Content, content};
ghost use Rattle.message_layer.specs.Prepared.{IsHearing};
ghost use Rattle.message_layer.specs.Values.{response, told};
ghost use Rattle.message_layer.specs.declared.state.Up.TheVariants as U;
ghost use Rattle.endpoint_table.specs.Tables.{link_at};
ghost use Rattle.exchange_model.specs.Steps.{is_under};
ghost use Rattle.exchange_progress.specs.Coming.{AsksSayable};
ghost use Rattle.exchange_core.specs.Calls.{HearsSo};
ghost use Rattle.exchange_core.specs.Judged.{IsComingBy};
ghost use Rattle.exchange_core.specs.Matters.{IsNextToken};
ghost use Rattle.exchange_core.specs.Reading.{IsComingHere};
ghost use Rattle.exchange_core.specs.Sound.{IsSound};
ghost use Rattle.exchange_core.specs.States.{state_of, seen};

use crate::acting::act;
use crate::draft::Draft;
use crate::ends::{end, ends_apart};
use crate::matter::{matter_by, replied_to};
use crate::numbering::token_of;
use crate::state::State;
use crate::updates::{matter_told, notice_told};
use coap_codec::{Message, Token};
use exchange_model::Exchange;
use exchange_progress::{Coming, notice_of};
use message_layer::{Hearing, Heeding, Up};
use observe_share::Notice;
use std::alloc::{AllocError, Global};
use transformers::Relation;
use uri_map::Peer;

/// Does what a datagram brings that is no reply to an exchange, or seals the journal. A next
/// message goes under this token. Apart, so that replies need no room for it.
#[inline(never)]
fn take_alone<R: Relation>(
    alloc: Global,
    s: &mut State<R>,
    draft: &mut Draft<R>,
    moment: u64,
    word: u64,
    token: &Token,
    peer: Peer,
    datagram: &[u8],
    heeding: Heeding,
    up: Up,
) -> Result<(), AllocError>
    requires sound { IsSound s.old }
    requires unsealed { s.old.sealed ≡ false }
    requires later { s.old.moment ≤ moment }
    requires early { moment ≤ LAST_MOMENT }
    requires token { IsNextToken word token.now (state_of s.old) }
    requires hears { IsHearing moment datagram.now (link_at s.old.endpoints peer)
        (record { heeding = heeding; up = up }) }
    requires alone { (m : Content) → told up ≡ response m
        → find (is_under heeding.token) s.old.exchanges.exchanges ≡ None }
    ensures sound { IsSound s.new }
    ensures heard { OnOk result
        (HearsSo moment word peer datagram.now (seen s.old) (seen s.new)) }
    ensures memory { OnErr result (seen s.new ≡ seen s.old) }
{
    let notice = notice_told(&up);
    let matter = matter_told(alloc, s, moment, word, token, &peer, &heeding, notice, up)?;
    act(
        alloc, s, draft, moment, peer, datagram, notice, heeding, matter,
    )
}

/// Does what a reply to the exchange brings by which that comes so far, or seals the journal. A
/// next message goes under this token. Apart, so that an exchange that just ends needs no room for
/// it.
#[inline(never)]
fn take_coming<R: Relation>(
    alloc: Global,
    s: &mut State<R>,
    draft: &mut Draft<R>,
    moment: u64,
    word: u64,
    token: &Token,
    peer: Peer,
    datagram: &[u8],
    notice: Notice,
    heeding: Heeding,
    exchange: &Exchange,
    coming: Coming,
) -> Result<(), AllocError>
    requires sound { IsSound s.old }
    requires unsealed { s.old.sealed ≡ false }
    requires later { s.old.moment ≤ moment }
    requires early { moment ≤ LAST_MOMENT }
    requires token { IsNextToken word token.now (state_of s.old) }
    requires open { find (is_under heeding.token) s.old.exchanges.exchanges ≡ Some exchange.now }
    requires sayable { AsksSayable coming }
    requires coming { IsComingHere s.old.journal.given s.old.journal.kept coming }
    requires comes { IsComingBy moment datagram.now (link_at s.old.endpoints peer) heeding notice
        exchange.now coming (state_of s.old) }
    ensures sound { IsSound s.new }
    ensures heard { OnOk result
        (HearsSo moment word peer datagram.now (seen s.old) (seen s.new)) }
    ensures memory { OnErr result (seen s.new ≡ seen s.old) }
{
    let matter = matter_by(
        alloc, s, moment, word, token, &peer, &heeding, exchange, coming,
    )?;
    act(
        alloc, s, draft, moment, peer, datagram, notice, heeding, matter,
    )
}

/// Does what a reply to the exchange brings, or seals the journal. A next message goes under this
/// token.
fn take_reply<R: Relation>(
    alloc: Global,
    s: &mut State<R>,
    draft: &mut Draft<R>,
    moment: u64,
    word: u64,
    token: &Token,
    peer: Peer,
    datagram: &[u8],
    heeding: Heeding,
    exchange: &Exchange,
    message: Message,
) -> Result<(), AllocError>
    requires sound { IsSound s.old }
    requires unsealed { s.old.sealed ≡ false }
    requires later { s.old.moment ≤ moment }
    requires early { moment ≤ LAST_MOMENT }
    requires token { IsNextToken word token.now (state_of s.old) }
    requires hears { IsHearing moment datagram.now (link_at s.old.endpoints peer)
        (record { heeding = heeding; up = U.Response message }) }
    requires open { find (is_under heeding.token) s.old.exchanges.exchanges ≡ Some exchange.now }
    ensures sound { IsSound s.new }
    ensures heard { OnOk result
        (HearsSo moment word peer datagram.now (seen s.old) (seen s.new)) }
    ensures memory { OnErr result (seen s.new ≡ seen s.old) }
{
    let notice = notice_of(&message);
    let number = s.journal.len() as u32;
    let coming = replied_to(alloc, s, exchange, number, message)?;
    let is_apart = ends_apart(s, exchange);
    if !is_apart {
        return take_coming(
            alloc, s, draft, moment, word, token, peer, datagram, notice, heeding, exchange, coming,
        );
    }
    match coming {
        Coming::Ends(ended) => end(
            alloc, s, draft, moment, peer, datagram, heeding, exchange, ended,
        ),
        Coming::Goes(onward) => take_coming(
            alloc,
            s,
            draft,
            moment,
            word,
            token,
            peer,
            datagram,
            notice,
            heeding,
            exchange,
            Coming::Goes(onward),
        ),
    }
}

/// Does what a datagram brings that isn't lost, or seals the journal. A next message goes under
/// this token.
fn take<R: Relation>(
    alloc: Global,
    s: &mut State<R>,
    draft: &mut Draft<R>,
    moment: u64,
    word: u64,
    token: &Token,
    peer: Peer,
    datagram: &[u8],
    hearing: Hearing,
) -> Result<(), AllocError>
    requires sound { IsSound s.old }
    requires unsealed { s.old.sealed ≡ false }
    requires later { s.old.moment ≤ moment }
    requires early { moment ≤ LAST_MOMENT }
    requires token { IsNextToken word token.now (state_of s.old) }
    requires hears { IsHearing moment datagram.now (link_at s.old.endpoints peer) hearing }
    ensures sound { IsSound s.new }
    ensures heard { OnOk result
        (HearsSo moment word peer datagram.now (seen s.old) (seen s.new)) }
    ensures memory { OnErr result (seen s.new ≡ seen s.old) }
{
    let Hearing { heeding, up } = hearing;
    let Up::Response(message) = up else {
        return take_alone(
            alloc, s, draft, moment, word, token, peer, datagram, heeding, up,
        );
    };
    match s.exchanges.find(&heeding.token) {
        Some(exchange) => {
            let exchange = *exchange;
            take_reply(
                alloc, s, draft, moment, word, token, peer, datagram, heeding, &exchange, message,
            )
        }
        None => {
            let up = Up::Response(message);
            take_alone(
                alloc, s, draft, moment, word, token, peer, datagram, heeding, up,
            )
        }
    }
}

/// Takes a datagram that came from the endpoint at this moment. One from an endpoint of which
/// nothing was asked is lost, and so is each after the seal. The word makes the token and the first
/// timeout of a next message. What it brings is drafted in the queues of the draft.
pub fn hear<R: Relation>(
    alloc: Global,
    s: &mut State<R>,
    draft: &mut Draft<R>,
    moment: u64,
    word: u64,
    peer: Peer,
    datagram: &[u8],
) -> Result<(), AllocError>
    requires sound { IsSound s.old }
    requires later { s.old.moment ≤ moment }
    requires early { moment ≤ LAST_MOMENT }
    ensures sound { IsSound s.new }
    ensures heard { OnOk result
        (HearsSo moment word peer datagram.now (seen s.old) (seen s.new)) }
    ensures memory { OnErr result (seen s.new ≡ seen s.old) }
{
    let token = token_of(s.issued, word);
    if s.sealed {
        return Ok(());
    }
    match s.endpoints.prepare_heard(&peer, datagram, moment)? {
        Some(hearing) => take(
            alloc, s, draft, moment, word, &token, peer, datagram, hearing,
        ),
        None => Ok(()),
    }
}
