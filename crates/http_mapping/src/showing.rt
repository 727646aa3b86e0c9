//! What becomes of the body of a response on its way to a client (RFC 8075, section 6.5).

ghost use Rattle.std.specs.Prelude.{◌≡◌, ◌==◌, length, map, false, Some, IfOk};
ghost use Rattle.transformers.specs.Keeps.{AllKeep, pair_of};
ghost use Rattle.ask_model.specs.Maps.{wanted_of};
ghost use Rattle.http_mapping.specs.Showings.{IsShowing};

use crate::applying::{Made, applied};
use ask_model::Mapped;
use http_edge::Memory;
use media_map::{Form, Media, Wanted};
use reply_reading::Response;
use transformers::{Bank, Relation};

/// What becomes of a body.
#[derive(Drop)]
pub enum Showing<'a> {
    /// It is shown as it is.
    Same,
    /// Another one is shown, under this media type.
    Other(&'a Media, Vec<u8>),
    /// It can't be transformed.
    Failed,
}

/// What becomes of the body of a response.
pub fn showing_of<'a, R: Relation>(
    bank: &Bank<R>,
    mapped: &'a Mapped<R>,
    response: &Response,
) -> Result<Showing<'a>, Memory>
    requires keep { AllKeep R.holds R.takes bank.now.stored.items }
    ensures { IfOk result (λ s.
        IsShowing (map pair_of bank.now.stored.items) R.holds R.takes mapped.now response.now s) }
{
    if response.body.as_slice().is_empty() {
        return Ok(Showing::Same);
    }
    match (mapped.wanted(), response.format) {
        (Some(wanted), Some(format)) => showing_along(bank, mapped, response, wanted, format),
        _ => Ok(Showing::Same),
    }
}

/// What becomes of a body in this format, where that is wanted.
fn showing_along<'a, R: Relation>(
    bank: &Bank<R>,
    mapped: &Mapped<R>,
    response: &Response,
    wanted: &'a Wanted,
    format: u16,
) -> Result<Showing<'a>, Memory>
    requires keep { AllKeep R.holds R.takes bank.now.stored.items }
    requires filled { (length response.now.body == 0) ≡ false }
    requires has_format { response.now.format ≡ Some format }
    requires wanted { wanted_of mapped.now.rules mapped.now.came mapped.now.sense
        ≡ Some wanted.now }
    ensures { IfOk result (λ s.
        IsShowing (map pair_of bank.now.stored.items) R.holds R.takes mapped.now response.now s) }
{
    let to = Form::Media(wanted.media.copy()?);
    match applied(bank, &Form::Format(format), &to, response.body.as_slice())? {
        Made::Nothing => Ok(Showing::Same),
        Made::Bytes(body) => Ok(Showing::Other(&wanted.media, body)),
        Made::Failed => Ok(Showing::Failed),
    }
}
