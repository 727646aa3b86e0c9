//! What connections are told.

ghost use Rattle.std.specs.Prelude.{[], ◌∷◌, ◌++◌, ◌≡◌, ◌≤◌, IfOk, OnOk, OnErr};
ghost use Rattle.std.specs.Prelude.{vec_capacity, vec_len};
ghost use Rattle.std.specs.List.{list_any};
ghost use Rattle.exchange_core.specs.Answering.{given_of};
ghost use Rattle.gateway_model.specs.Acts.{continue_text};
ghost use Rattle.gateway_model.specs.Emissions.{emission_of, emissions, is_end, Says, Closed, GivenUp, Turned};
ghost use Rattle.gateway_world.specs.Engines.{terms_in};
ghost use Rattle.gateway_world.specs.Leading.{rules_in};
ghost use Rattle.gateway_model.specs.Tellings.{TellsBytes};
ghost use Rattle.transformers.specs.Suits.{Suits};

use crate::engine::Context;
use exchange_core::Answer;
use gateway_model::Output;
use http_edge::Memory;
use http_mapping::render;
use std::alloc::Global;
use transformers::{Bank, Relation};

/// What a client that waits with its body is told (RFC 9110 section 10.1.1).
const CONTINUE: &str = "HTTP/1.1 100 Continue\r\n\r\n";

/// The bytes that tell a client that waits with its body to go on.
pub fn continue_told(alloc: Global) -> Result<Vec<u8>, Memory>
    ensures { IfOk result (λ bytes. bytes.items ≡ continue_text) }
{
    let bytes = Vec::from_slice(alloc, CONTINUE.as_bytes())?;
    Ok(bytes)
}

/// The bytes that tell an answer.
pub fn answer_told<R: Relation>(
    alloc: Global,
    context: Context<'_>,
    bank: &Bank<R>,
    answer: &Answer<R>,
) -> Result<Vec<u8>, Memory>
    requires { Suits R.holds R.takes (rules_in context).routes bank.now }
    ensures { IfOk result (λ bytes. TellsBytes (terms_in R.holds R.takes context.entry)
        (given_of answer.now) bytes.items) }
{
    let age = answer.moment.saturating_sub(answer.heard);
    let bytes = render(alloc, bank, &answer.mapped, &answer.finding, age)?;
    Ok(bytes)
}

/// Tells the connection these bytes.
pub fn tell_bytes<R: Relation>(
    number: u32,
    bytes: Vec<u8>,
    outputs: &mut Vec<Output<R>>,
) -> Result<(), Memory>
    ensures told { OnOk result (emissions outputs.new.items
        ≡ emissions outputs.old.items ++ Says number bytes.items ∷ []) }
    ensures places { vec_capacity outputs.old ≤ vec_capacity outputs.new }
    ensures full { OnErr result (vec_capacity outputs.old ≤ vec_len outputs.new) }
{
    outputs.push(Output::Bytes(number, bytes))?;
    Ok(())
}

/// Tells that the proxy closes the connection.
pub fn tell_closed<R: Relation>(number: u32, outputs: &mut Vec<Output<R>>) -> Result<(), Memory>
    ensures told { OnOk result
        (emissions outputs.new.items ≡ emissions outputs.old.items ++ Closed number ∷ []) }
    ensures places { vec_capacity outputs.old ≤ vec_capacity outputs.new }
    ensures full { OnErr result (vec_capacity outputs.old ≤ vec_len outputs.new) }
{
    outputs.push(Output::Closed(number))?;
    Ok(())
}

/// Tells that the connection is given up.
pub fn tell_given_up<R: Relation>(number: u32, outputs: &mut Vec<Output<R>>) -> Result<(), Memory>
    ensures told { OnOk result
        (emissions outputs.new.items ≡ emissions outputs.old.items ++ GivenUp number ∷ []) }
    ensures places { vec_capacity outputs.old ≤ vec_capacity outputs.new }
    ensures full { OnErr result (vec_capacity outputs.old ≤ vec_len outputs.new) }
{
    outputs.push(Output::GivenUp(number))?;
    Ok(())
}

/// Whether a connection is given up.
fn is_end<R: Relation>(output: &Output<R>) -> bool
    ensures { result ≡ is_end (emission_of output.now) }
{
    matches!(output, Output::GivenUp(_))
}

/// Whether a connection is given up by one of these.
pub fn gives_up<R: Relation>(outputs: &[Output<R>]) -> bool
    ensures { result ≡ list_any (λ o. is_end (emission_of o)) outputs.now }
{
    outputs.iter().any(|output| is_end(output))
}

/// Tells that a client is turned away.
pub fn tell_turned<R: Relation>(outputs: &mut Vec<Output<R>>) -> Result<(), Memory>
    ensures told { OnOk result
        (emissions outputs.new.items ≡ emissions outputs.old.items ++ Turned ∷ []) }
    ensures places { vec_capacity outputs.old ≤ vec_capacity outputs.new }
    ensures full { OnErr result (vec_capacity outputs.old ≤ vec_len outputs.new) }
{
    outputs.push(Output::Turned)?;
    Ok(())
}
