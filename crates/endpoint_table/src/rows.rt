//! The links of the endpoints, of which one takes a message or a datagram.

ghost use Rattle.std.specs.Prelude.{◌≡◌, ◌≤◌, ◌<◌, ◌∷◌, ◌++◌, [], Bool, false, Some, None, IfOk, length, map, slice_get, vec_len, vec_capacity};
ghost use Rattle.std.specs.List.{list_all};
ghost use Rattle.limits.specs.declared.TheConstants.{LAST_MOMENT};
ghost use Rattle.uri_map.specs.declared.peer.Peer.{Peer as PeerValue};
ghost use Rattle.message_layer.specs.Calls.{expected};
ghost use Rattle.message_layer.specs.Values.{empty_link};
ghost use Rattle.message_layer.specs.Sending.{submitted, IsSubmitted, is_over_by};
ghost use Rattle.message_layer.specs.Prepared.{heeded, link_after, IsPreparedFor, IsSubmission, IsUnnumberedCon, MayFollow, MayHeed, MaySubmit};
ghost use Rattle.exchange_model.specs.Entering.{awaits_no_more};
ghost use Rattle.exchange_model.specs.State.{link_of, with_link};
ghost use Rattle.exchange_model.specs.Steps.{given_out};
ghost use Rattle.endpoint_table.specs.declared.endpoint.Endpoint.{Endpoint as EndpointValue};
ghost use Rattle.endpoint_table.specs.Dues.{AreDues};
ghost use Rattle.endpoint_table.specs.Places.{HasNone, IsFirstAt};
ghost use Rattle.endpoint_table.specs.Tables.{heeds, link_at, peer_link, shown, spare_room, submitted_to, IsUnused};

use crate::dues::{Due, put_due, set_due};
use crate::endpoint::{Endpoint, copy_endpoint};
use coap_codec::Token;
use message_layer::{Hearing, Heeding, Link, LinkFault, Submission};
use std::alloc::{AllocError, Global};
use uri_map::Peer;

/// Prepares that the link of an endpoint takes a message.
fn prepare_submit(
    endpoint: &mut Endpoint,
    token: Token,
    text: &[u8],
    moment: u64,
    word: u64,
) -> Result<Submission, LinkFault>
    requires moment { moment ≤ LAST_MOMENT }
    requires message { IsUnnumberedCon token text.now }
    ensures same { peer_link endpoint.new ≡ peer_link endpoint.old }
    ensures ok { IfOk result (λ x. IsSubmission moment token text.now word endpoint.new.link x) }
    ensures fault { IsSubmitted moment endpoint.old.link.state result }
{
    endpoint.link.prepare_submit(token, text, moment, word)
}

/// Prepares that the link in this place takes a message.
pub fn prepare_submit_at(
    rows: &mut Vec<Endpoint>,
    place: usize,
    token: Token,
    text: &[u8],
    moment: u64,
    word: u64,
) -> Result<Submission, LinkFault>
    requires place { place < length rows.old.items }
    requires moment { moment ≤ LAST_MOMENT }
    requires message { IsUnnumberedCon token text.now }
    ensures same { map peer_link rows.new.items ≡ map peer_link rows.old.items }
    ensures ok { (p : PeerValue) (spare : Bool)
        → IsFirstAt p (map peer_link rows.old.items) place → IfOk result (λ x.
        IsSubmission moment token text.now word (link_at (shown rows.new.items spare) p) x) }
    ensures fault { (p : PeerValue) → IsFirstAt p (map peer_link rows.old.items) place
        → IsSubmitted moment (link_of (map peer_link rows.old.items) p) result }
{
    prepare_submit(&mut rows[place], token, text, moment, word)
}

/// Prepares a new link that takes a message, and a place for its endpoint.
pub fn prepare_spare(
    alloc: Global,
    rows: &mut Vec<Endpoint>,
    dues: &mut Vec<Due>,
    spare: &mut Option<Link>,
    token: Token,
    text: &[u8],
    moment: u64,
    word: u64,
) -> Result<Submission, LinkFault>
    requires moment { moment ≤ LAST_MOMENT }
    requires message { IsUnnumberedCon token text.now }
    requires unused { IsUnused spare.old }
    ensures same { rows.new.items ≡ rows.old.items }
    ensures dues { dues.new.items ≡ dues.old.items }
    ensures slots { vec_capacity dues.old ≤ vec_capacity dues.new }
    ensures unused { IsUnused spare.new }
    ensures ok { (p : PeerValue) → HasNone p (map peer_link rows.old.items) → IfOk result (λ x.
        IsSubmission moment token text.now word (link_at (shown rows.new.items
        (spare_room (vec_len rows.new) (vec_capacity rows.new) (vec_capacity dues.new)
        spare.new)) p) x) }
    ensures fault { IsSubmitted moment empty_link result }
{
    rows.try_reserve(1)?;
    dues.try_reserve(rows.capacity())?;
    let mut link = Link::new(alloc);
    let submission = link.prepare_submit(token, text, moment, word)?;
    *spare = Some(link);
    Ok(submission)
}

/// The link awaits nothing more under the token.
fn let_go(link: &mut Link, token: &Token)
    ensures { link.new.state ≡ expected token.now false link.old.state }
{
    match link.expect(token, false) {
        Ok(()) => {}
        Err(_) => unreachable!(),
    }
}

/// The link awaits nothing more under these tokens.
fn let_go_all(link: &mut Link, gone: &[Token])
    ensures { link.new.state ≡ awaits_no_more gone.now link.old.state }
{
    'each: for token in gone {
        let_go(link, token);
    }
}

/// The link takes the message, awaits nothing more under these tokens, and gives out nothing by
/// itself.
fn submit_to(link: &mut Link, submission: Submission, gone: &[Token], moment: u64)
    requires early { moment ≤ LAST_MOMENT }
    requires ready { MaySubmit moment link.old submission }
    ensures { link.new.state
        ≡ given_out (awaits_no_more gone.now (submitted moment submission.waiting link.old.state)) }
{
    link.submit_prepared(submission, moment);
    let_go_all(link, gone);
    link.clear_out();
}

/// The link of the endpoint takes the message, and awaits nothing more under these tokens.
fn submit(endpoint: &mut Endpoint, submission: Submission, gone: &[Token], moment: u64)
    requires early { moment ≤ LAST_MOMENT }
    requires ready { MaySubmit moment endpoint.old.link submission }
    ensures peer { endpoint.new.peer ≡ endpoint.old.peer }
    ensures link { endpoint.new.link.state ≡ given_out
        (awaits_no_more gone.now (submitted moment submission.waiting endpoint.old.link.state)) }
{
    submit_to(&mut endpoint.link, submission, gone, moment);
}

/// The link in this place takes the message, and awaits nothing more under these tokens.
pub fn submit_at(
    rows: &mut Vec<Endpoint>,
    dues: &mut Vec<Due>,
    place: usize,
    submission: Submission,
    gone: &[Token],
    moment: u64,
)
    requires dues { AreDues rows.old.items dues.old.items (vec_capacity dues.old) }
    requires place { place < length rows.old.items }
    requires early { moment ≤ LAST_MOMENT }
    requires ready { (e : EndpointValue) → slice_get rows.old.items place ≡ Some e
        → MaySubmit moment e.link submission }
    ensures links { (p : PeerValue) → IsFirstAt p (map peer_link rows.old.items) place
        → map peer_link rows.new.items
        ≡ submitted_to p moment submission.waiting gone.now (map peer_link rows.old.items) }
    ensures dues { AreDues rows.new.items dues.new.items (vec_capacity dues.new) }
{
    let before = rows[place].link.next_due();
    submit(&mut rows[place], submission, gone, moment);
    set_due(dues, place, before, rows[place].link.next_due());
}

/// The link that was prepared for one more endpoint takes the message.
pub fn submit_spare(
    rows: &mut Vec<Endpoint>,
    dues: &mut Vec<Due>,
    spare: &mut Option<Link>,
    peer: Peer,
    submission: Submission,
    gone: &[Token],
    moment: u64,
)
    requires early { moment ≤ LAST_MOMENT }
    requires dues { AreDues rows.old.items dues.old.items (vec_capacity dues.old) }
    requires unused { IsUnused spare.old }
    requires ready { MaySubmit moment (record {
      state = empty_link;
      room = spare_room (vec_len rows.old) (vec_capacity rows.old) (vec_capacity dues.old)
          spare.old;
    }) submission }
    ensures links { HasNone peer (map peer_link rows.old.items) → map peer_link rows.new.items
        ≡ submitted_to peer moment submission.waiting gone.now (map peer_link rows.old.items) }
    ensures dues { AreDues rows.new.items dues.new.items (vec_capacity dues.new) }
    ensures spare { spare.new ≡ None }
{
    let Some(mut link) = spare.take() else {
        unreachable!()
    };
    submit_to(&mut link, submission, gone, moment);
    put_due(dues, rows.len(), link.next_due());
    rows.push_reserved(Endpoint { peer, link });
}

/// What the link of the endpoint makes of the datagram, before it does that.
fn prepare_heard(
    endpoint: &mut Endpoint,
    datagram: &[u8],
    moment: u64,
) -> Result<Option<Hearing>, AllocError>
    requires { moment ≤ LAST_MOMENT }
    ensures same { peer_link endpoint.new ≡ peer_link endpoint.old }
    ensures ok { IfOk result (λ o. IsPreparedFor moment datagram.now endpoint.new.link o) }
{
    match endpoint.link.prepare_heard(datagram, moment) {
        Ok(hearing) => Ok(hearing),
        Err(_) => Err(AllocError),
    }
}

/// What the link in this place makes of the datagram, before it does that.
pub fn prepare_heard_at(
    rows: &mut Vec<Endpoint>,
    place: usize,
    datagram: &[u8],
    moment: u64,
) -> Result<Option<Hearing>, AllocError>
    requires place { place < length rows.old.items }
    requires early { moment ≤ LAST_MOMENT }
    ensures same { map peer_link rows.new.items ≡ map peer_link rows.old.items }
    ensures ok { (p : PeerValue) (spare : Bool)
        → IsFirstAt p (map peer_link rows.old.items) place → IfOk result (λ o.
        IsPreparedFor moment datagram.now (link_at (shown rows.new.items spare) p) o) }
{
    prepare_heard(&mut rows[place], datagram, moment)
}

/// Whether the link in this place has a place for a message.
pub fn check_at(rows: &[Endpoint], place: usize, moment: u64) -> Result<(), LinkFault>
    requires place { place < length rows.now }
    requires early { moment ≤ LAST_MOMENT }
    ensures { (p : PeerValue) → IsFirstAt p (map peer_link rows.now) place
        → IsSubmitted moment (link_of (map peer_link rows.now) p) result }
{
    rows[place].link.check(moment)
}

/// Prepares that the link in this place takes a message after the datagram that was prepared.
pub fn prepare_more_at(
    rows: &[Endpoint],
    place: usize,
    heeding: &Heeding,
    token: Token,
    text: &[u8],
    moment: u64,
    word: u64,
) -> Result<Submission, LinkFault>
    requires place { place < length rows.now }
    requires early { moment ≤ LAST_MOMENT }
    requires ready { (e : EndpointValue) → slice_get rows.now place ≡ Some e
        → MayHeed moment e.link heeding.now }
    requires message { IsUnnumberedCon token text.now }
    ensures ok { (p : PeerValue) (spare : Bool) → IsFirstAt p (map peer_link rows.now) place
        → IfOk result (λ more. IsSubmission moment token text.now word
        (link_after moment heeding.now (link_at (shown rows.now spare) p)) more) }
    ensures fault { (p : PeerValue) → IsFirstAt p (map peer_link rows.now) place
        → IsSubmitted moment
        (heeded moment heeding.now (link_of (map peer_link rows.now) p)) result }
{
    rows[place]
        .link
        .prepare_more(heeding, token, text, moment, word)
}

/// The endpoint's link does what was prepared, takes the message that was prepared after it, awaits
/// nothing more under these tokens, and gives out nothing by itself.
fn heed(
    endpoint: &mut Endpoint,
    heeding: Heeding,
    more: Option<Submission>,
    gone: &[Token],
    moment: u64,
)
    requires early { moment ≤ LAST_MOMENT }
    requires ready { MayHeed moment endpoint.old.link heeding }
    requires follows { MayFollow moment endpoint.old.link heeding more }
    ensures peer { endpoint.new.peer ≡ endpoint.old.peer }
    ensures link { endpoint.new.link.state
        ≡ heeds moment heeding more gone.now endpoint.old.link.state }
{
    endpoint.link.hear_with_more_prepared(heeding, more, moment);
    let_go_all(&mut endpoint.link, gone);
    endpoint.link.clear_out();
}

/// The link in this place does what was prepared, and takes the message that was prepared after it.
pub fn heed_at(
    rows: &mut Vec<Endpoint>,
    dues: &mut Vec<Due>,
    place: usize,
    heeding: Heeding,
    more: Option<Submission>,
    gone: &[Token],
    moment: u64,
)
    requires place { place < length rows.old.items }
    requires early { moment ≤ LAST_MOMENT }
    requires ready { (e : EndpointValue) → slice_get rows.old.items place ≡ Some e
        → MayHeed moment e.link heeding }
    requires follows { (e : EndpointValue) → slice_get rows.old.items place ≡ Some e
        → MayFollow moment e.link heeding more }
    requires dues { AreDues rows.old.items dues.old.items (vec_capacity dues.old) }
    ensures links { (p : PeerValue) → IsFirstAt p (map peer_link rows.old.items) place
        → map peer_link rows.new.items
        ≡ with_link p
        (heeds moment heeding more gone.now (link_of (map peer_link rows.old.items) p))
        (map peer_link rows.old.items) }
    ensures dues { AreDues rows.new.items dues.new.items (vec_capacity dues.new) }
{
    let before = rows[place].link.next_due();
    heed(&mut rows[place], heeding, more, gone, moment);
    set_due(dues, place, before, rows[place].link.next_due());
}

/// Equal links.
pub fn copy_rows(alloc: Global, rows: &[Endpoint]) -> Result<Vec<Endpoint>, AllocError>
    ensures { IfOk result (λ copy. map peer_link copy.items ≡ map peer_link rows.now) }
{
    let mut copy = Vec::new(alloc);
    'each: for row in rows {
        copy.push(copy_endpoint(row)?)?;
    }
    Ok(copy)
}

/// Whether no message is outstanding at this moment, were all ticks in time.
fn all_over(rows: &[Endpoint], moment: u64) -> bool
    ensures { result
        ≡ list_all (λ x. is_over_by moment (peer_link x).link.outstanding) rows.now }
{
    'each: for x in rows {
        if !x.link.is_over(moment) {
            return false;
        }
    }
    true
}

/// The same, said of the links.
pub fn are_over(rows: &[Endpoint], moment: u64) -> bool
    ensures { result
        ≡ list_all (λ x. is_over_by moment x.link.outstanding) (map peer_link rows.now) }
{
    all_over(rows, moment)
}
