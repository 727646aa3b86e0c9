//! A message that goes out for the first time.

ghost use Rattle.std.specs.Prelude.{◌≡◌, ◌<◌, ◌++◌, List, OnOk};
ghost use Rattle.journal_book.specs.Entries.{Deed};
ghost use Rattle.exchange_model.specs.State.{State as CoreState};
ghost use Rattle.exchange_core.specs.Drafts.{Drafts};
ghost use Rattle.exchange_core.specs.Sending.{IsTimed, sent_first};

use crate::draft::Draft;
use message_layer::FirstSending;
use std::alloc::AllocError;
use transformers::Relation;
use uri_map::Peer;

/// The message, if there is one, goes out for the first time.
pub fn draft_first<R: Relation>(
    draft: &mut Draft<R>,
    moment: u64,
    peer: Peer,
    first: &Option<FirstSending>,
) -> Result<(), AllocError>
    requires next { draft.old.next < 4294967295 }
    requires timed { IsTimed first.now }
    ensures drafts { (S : CoreState) (ds : List Deed) → Drafts moment S ds draft.old
        → OnOk result (Drafts moment S (ds ++ sent_first peer first.now) draft.new) }
    ensures answers { OnOk result (draft.new.answers ≡ draft.old.answers) }
{
    if let Some(first) = first {
        let timeout = first.message.timeout as u32;
        draft.send(moment, peer, &first.datagram, Some(timeout))?;
    }
    Ok(())
}
