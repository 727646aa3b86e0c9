//! The options that carry a target (RFC 7252, section 6.4).

ghost use Rattle.std.specs.Prelude.{◌≡◌, ◌∷◌, [], ◌++◌, IfOk, OnOk};
ghost use Rattle.coap_codec.specs.Spelling.{entries};
ghost use Rattle.uri_map.specs.Limits.{uri_options, option_with, options_with};

use crate::escapes::Part;
use crate::room::URI_HOST;
use crate::target::{Host, Target};
use crate::text::Text;
use coap_codec::Opt;
use std::alloc::{AllocError, Global};

/// Appends an option with the text.
fn push_text(alloc: Global, out: &mut Vec<Opt>, number: u16, text: &Text) -> Result<(), AllocError>
    ensures { OnOk result (entries out.new.items ≡ entries out.old.items
        ++ option_with number text.now ∷ []) }
{
    let value = Vec::from_slice(alloc, text.as_bytes())?;
    out.push(Opt { number, value })?;
    Ok(())
}

/// Appends an option for each text.
fn push_texts(
    alloc: Global,
    out: &mut Vec<Opt>,
    number: u16,
    texts: &[Text],
) -> Result<(), AllocError>
    ensures { OnOk result (entries out.new.items ≡ entries out.old.items
        ++ options_with number texts.now) }
{
    'each: for text in texts {
        push_text(alloc, out, number, text)?;
    }
    Ok(())
}

/// The options of a request for the target, in ascending order of number: Uri-Host for a name,
/// Uri-Path for each segment, Uri-Query for each argument (RFC 7252 section 6.4). The port is the
/// peer's, so there is no Uri-Port.
pub fn options_of(alloc: Global, target: &Target) -> Result<Vec<Opt>, AllocError>
    ensures { IfOk result (λ v. entries v.items ≡ uri_options target.now) }
{
    let mut out = Vec::new(alloc);
    if let Host::Name(name) = &target.host {
        push_text(alloc, &mut out, URI_HOST, name)?;
    }
    push_texts(alloc, &mut out, Part::Path.number(), target.path.as_slice())?;
    push_texts(
        alloc,
        &mut out,
        Part::Query.number(),
        target.query.as_slice(),
    )?;
    Ok(out)
}
