//! The first message of an exchange: what it asks for beside the request.

ghost use Rattle.std.specs.Prelude.{◌≤◌, IfOk};
ghost use Rattle.limits.specs.declared.TheConstants.{MAX_REQUEST_SIZE};
ghost use Rattle.ask_model.specs.Sizes.{came_size};
ghost use Rattle.exchange_core.specs.Renewing.{AreAskable};
ghost use Rattle.exchange_core.specs.States.{state_of};
ghost use Rattle.exchange_core.specs.Wording.{AsksIfValid, AsksPlainly, AsksToObserve, IsFirst, IsRequest};
ghost use Rattle.exchange_core.specs.Reading.{IsPairHere};
ghost use Rattle.std.specs.List.{AllByRecursion};

use crate::renewing::find_stale;
use crate::state::State;
use crate::watching::may_watch;
use ask_model::Mapped;
use coap_codec::{Bytes, Token};
use resp_cache::StoredResponse;
use std::alloc::{AllocError, Global};
use transformers::Relation;

/// The first message of a request, under message ID 0, which its link sets when it goes out.
#[derive(Drop)]
pub struct First {
    pub text: Bytes,
    /// it asks to observe
    pub observes: bool,
    /// it asks whether this is valid still
    pub keeps: Option<StoredResponse>,
}

/// The message that asks to observe, where the server may be observed and one more may.
fn observing<R: Relation>(
    alloc: Global,
    s: &State<R>,
    mapped: &Mapped<R>,
    token: &Token,
) -> Result<Option<First>, AllocError>
    ensures { IfOk result (λ o. AsksToObserve mapped.now token.now (state_of s.now) o) }
{
    let _body = mapped.body();
    if mapped.settings().observed.is_empty() {
        return Ok(None);
    }
    if !may_watch(&s.watches, mapped) {
        return Ok(None);
    }
    let Some(text) = mapped.observe_request(alloc, 0, token)? else {
        return Ok(None);
    };
    Ok(Some(First {
        text,
        observes: true,
        keeps: None,
    }))
}

/// The message that asks whether what is stored for the request is valid still, where that isn't
/// fresh any more and has an ETag.
fn validating<R: Relation>(
    alloc: Global,
    s: &State<R>,
    moment: u64,
    mapped: &Mapped<R>,
    token: &Token,
) -> Result<Option<First>, AllocError>
    requires askable { AreAskable s.now.journal.entries s.now.store.pairs }
    requires here { AllByRecursion (IsPairHere s.now.journal.given s.now.journal.kept)
        s.now.store.pairs }
    ensures { IfOk result (λ o. AsksIfValid moment mapped.now token.now (state_of s.now) o) }
{
    let _body = mapped.body();
    let Some(stored) = find_stale(alloc, &s.journal, &s.store, moment, mapped)? else {
        return Ok(None);
    };
    let Some(tag) = &stored.response().etag else {
        unreachable!()
    };
    let Some(text) = mapped.validate_request(alloc, tag.as_slice(), 0, token)? else {
        unreachable!()
    };
    Ok(Some(First {
        text,
        observes: false,
        keeps: Some(stored),
    }))
}

/// The message that asks for the response alone.
fn plain<R: Relation>(alloc: Global, mapped: &Mapped<R>, token: &Token) -> Result<First, AllocError>
    requires { IsRequest mapped.now.sense }
    ensures { IfOk result (λ x. AsksPlainly mapped.now token.now x) }
{
    let _body = mapped.body();
    let Some(text) = mapped.request(alloc, None, 0, token)? else {
        unreachable!()
    };
    Ok(First {
        text,
        observes: false,
        keeps: None,
    })
}

/// The first message of a request. It asks to observe where its server may be observed, and one
/// more may; or else whether what is stored for it and isn't fresh is valid still.
pub fn first_of<R: Relation>(
    alloc: Global,
    s: &State<R>,
    moment: u64,
    mapped: &Mapped<R>,
    token: &Token,
) -> Result<First, AllocError>
    requires asks { IsRequest mapped.now.sense }
    requires askable { AreAskable s.now.journal.entries s.now.store.pairs }
    requires here { AllByRecursion (IsPairHere s.now.journal.given s.now.journal.kept)
        s.now.store.pairs }
    ensures first { IfOk result (λ x. IsFirst moment mapped.now token.now (state_of s.now) x) }
    ensures small { came_size mapped.now.came ≤ MAX_REQUEST_SIZE }
{
    let _came = mapped.came();
    if let Some(first) = observing(alloc, s, mapped, token)? {
        return Ok(first);
    }
    if let Some(first) = validating(alloc, s, moment, mapped, token)? {
        return Ok(first);
    }
    plain(alloc, mapped, token)
}
