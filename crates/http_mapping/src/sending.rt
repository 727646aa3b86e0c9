//! The payload that a body goes to a server as.

ghost use Rattle.std.specs.Prelude.{◌≡◌, ◌≤◌, ℕ, List, map, length, IfOk, IfErr};
ghost use Rattle.std.specs.List.{Contains};
ghost use Rattle.limits.specs.declared.TheConstants.{MAX_BODY_LEN};
ghost use Rattle.media_map.specs.declared.form.Form.TheVariants.{Format};
ghost use Rattle.transformers.specs.Keeps.{AllKeep, pair_of};
ghost use Rattle.ask_model.specs.Views.{payload_of as payload_in};
ghost use Rattle.ask_model.specs.Maps.{Becomes, Routed, carried};
ghost use Rattle.http_mapping.specs.Typings.{typing_shown, IsAlong, HasFault};

use crate::applying::{Made, applied};
use crate::typing::Typing;
use ask_model::Payload;
use coap_codec::Bytes;
use code_map::Method;
use http_edge::Memory;
use media_map::Form;
use transformers::{Bank, Relation};

/// A payload in its format.
#[derive(Drop)]
pub struct Sending {
    pub format: Option<u16>,
    pub payload: Payload,
}

/// Why a body isn't sent.
#[derive(Clone, Copy, PartialEq, Eq)]
pub enum Unsent {
    /// No format stands for its media type.
    Type,
    /// It can't be transformed.
    Content,
    /// Memory ran out.
    Memory,
}

/// What goes to the server of a request's body: that of a POST or PUT, and none of other methods.
fn payload_of(method: Method) -> Payload
    ensures { (body : List ℕ) → payload_in result body ≡ carried method body }
{
    match method {
        Method::Post | Method::Put => Payload::Same,
        Method::Get | Method::Head | Method::Delete => Payload::Empty,
    }
}

/// What a body becomes in another format.
fn transformed<R: Relation>(
    bank: &Bank<R>,
    from: &Form,
    format: u16,
    body: &[u8],
) -> Result<Bytes, Unsent>
    requires keep { AllKeep R.holds R.takes bank.now.stored.items }
    requires along { Contains (map pair_of bank.now.stored.items) (from.now, Format format) }
    ensures holds { IfOk result (λ b. R.holds from.now (Format format) body.now b) }
    ensures short { IfOk result (λ b. length b ≤ MAX_BODY_LEN) }
    ensures fault { IfErr result (λ e.
        HasFault R.holds R.takes (Routed from.now format) body.now e) }
{
    match applied(bank, from, &Form::Format(format), body) {
        Ok(Made::Bytes(bytes)) => Ok(Bytes::of(bytes)),
        Ok(Made::Failed) => Err(Unsent::Content),
        Ok(Made::Nothing) => unreachable!(),
        Err(Memory) => Err(Unsent::Memory),
    }
}

/// The payload that a body goes to a server as: along its route, and else as it is.
pub fn sending_of<R: Relation>(
    bank: &Bank<R>,
    typing: Typing<'_>,
    method: Method,
    body: &[u8],
) -> Result<Sending, Unsent>
    requires keep { AllKeep R.holds R.takes bank.now.stored.items }
    requires along { IsAlong (map pair_of bank.now.stored.items) (typing_shown typing) }
    ensures sent { (whole : List ℕ) → carried method whole ≡ body.now
        → IfOk result (λ s. Becomes R.holds R.takes (typing_shown typing.entry) body.now s.format
        (payload_in s.payload whole)) }
    ensures fault { IfErr result (λ e.
        HasFault R.holds R.takes (typing_shown typing.entry) body.now e) }
{
    match typing {
        Typing::Untyped => Ok(Sending {
            format: None,
            payload: payload_of(method),
        }),
        Typing::Typed(format) => Ok(Sending {
            format: Some(format),
            payload: payload_of(method),
        }),
        Typing::Routed(from, format) => {
            let bytes = transformed(bank, from, format, body)?;
            Ok(Sending {
                format: Some(format),
                payload: Payload::Changed(bytes),
            })
        }
        Typing::Untypable => Err(Unsent::Type),
    }
}
