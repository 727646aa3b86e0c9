//! What a message is to what is observed (RFC 7641 section 3.2).

ghost use Rattle.std.specs.Prelude.{◌≡◌, IfOk};
ghost use Rattle.coap_codec.specs.Spelling.{content};
ghost use Rattle.history_laws.specs.Observing.{as_first, is_some_of, notice_in};
ghost use Rattle.exchange_progress.specs.Coming.{AsksSayable, IsComing};

use crate::coming::{Coming, Ended, fetch};
use blockwise::Pieces;
use coap_codec::Message;
use journal_book::Numbers;
use observe_share::Notice;
use reply_reading::{fetched_of, is_tellable, version_of};
use std::alloc::{AllocError, Global};

/// 2.05 Content (RFC 7252 section 5.9.1.5).
const CONTENT: u8 = 69;

/// Whether it is a whole response, or the first piece of one.
fn tells_some(m: &Message) -> bool
    ensures { result ≡ is_some_of (as_first 0 0 (content m.now)) }
{
    is_tellable(m) && Pieces::none().judge(m).is_ok()
}

/// What it is to the watch under its token, where it is a CON or NON.
pub fn notice_of(m: &Message) -> Notice
    ensures { result ≡ notice_in (content m.now) }
{
    let version = version_of(m);
    match version {
        Some(number) if m.code == CONTENT && tells_some(m) => Notice::Update(number),
        _ => Notice::Other(version),
    }
}

/// What a GET comes to by it as the first reply, which the entry with this number bears.
pub fn comes_first(alloc: Global, number: u32, m: Message) -> Result<Coming, AllocError>
    ensures coming { IfOk result (λ x. IsComing number x (as_first number 0 (content m))) }
    ensures sayable { IfOk result AsksSayable }
{
    if let Some(coming) = fetch(0, &Pieces::none(), number, &m) {
        return Ok(coming);
    }
    let numbers = Numbers::from_slice(alloc, &[number])?;
    let finding = fetched_of(alloc, numbers, Vec::new(alloc), m)?;
    Ok(Coming::Ends(Ended::Found(finding)))
}
