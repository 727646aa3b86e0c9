//! What is written to a client.

ghost use Rattle.std.specs.Prelude.{◌≡◌, [], IfOk, OnOk, OnErr};
ghost use Rattle.transformers.specs.Keeps.{AllKeep};
ghost use Rattle.transformers.specs.Suits.{Suits};
ghost use Rattle.ask_model.specs.Views.{Rules};
ghost use Rattle.exchange_core.specs.Answering.{given_of};
ghost use Rattle.sessions.specs.Devices.{Rises, Grown, GrownPartly};
ghost use Rattle.sessions.specs.Telling.{SaysAnswer, continue_text};

use crate::devices::Stream;
use exchange_core::Answer;
use gateway_desk::Failed;
use http_edge::Memory;
use http_mapping::render;
use std::alloc::Global;
use transformers::{Bank, Relation};

/// What a client that waits with its body is told (RFC 9110 section 10.1.1).
const CONTINUE: &str = "HTTP/1.1 100 Continue\r\n\r\n";

/// The bytes of the reply that tells an answer.
pub fn reply_of<R: Relation>(
    alloc: Global,
    bank: &Bank<R>,
    answer: &Answer<R>,
) -> Result<Vec<u8>, Memory>
    requires keep { AllKeep R.holds R.takes bank.now.stored.items }
    ensures { (rules : Rules) → Suits R.holds R.takes rules.routes bank.now
        → IfOk result (λ bytes.
        SaysAnswer R.holds R.takes rules (given_of answer.now) bytes.items) }
{
    let age = answer.moment.saturating_sub(answer.heard);
    let bytes = render(alloc, bank, &answer.mapped, &answer.finding, age)?;
    Ok(bytes)
}

/// Tells a client that waits with its body to go on.
pub fn write_continue<S: Stream>(stream: &mut S) -> Result<(), Failed>
    ensures quiet { Grown (S.gave stream.old) (S.gave stream.new) [] }
    ensures ok { OnOk result (Grown (S.written stream.old) (S.written stream.new) continue_text
        × (S.count stream.new ≡ S.count stream.old)) }
    ensures err { OnErr result (
        GrownPartly (S.written stream.old) (S.written stream.new) continue_text
        × Rises (S.count stream.old) (S.count stream.new)) }
{
    stream.write(CONTINUE.as_bytes())
}
