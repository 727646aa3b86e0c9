//! Messages that are handed in: sent at once where nothing is outstanding, else in their turn.

ghost use Rattle.std.specs.Prelude.{◌≡◌, ◌≤◌, ◌%◌, ◌∷◌, [], length, IfOk, IsOkUnless, None};
ghost use Rattle.coap_codec.specs.Spelling.{content, Spells};
ghost use Rattle.coap_codec.specs.Writing.{IsEncodable};
ghost use Rattle.message_layer.specs.Sending.{initial_timeout, unnumbered, waits, with_mid, IsNext};

use crate::bytes::{Bytes, Unnumbered};
use crate::fault::LinkFault;
use crate::prepared::Submission;
use crate::sending::{mid_after, sent_in};
use crate::state::Waiting;
use coap_codec::{Message, Token, encode};
use limits::ACK_TIMEOUT;
use std::alloc::Global;

fn timeout_of(word: u64) -> u64
    ensures { result ≡ initial_timeout word }
{
    ACK_TIMEOUT + word % 4294967296 % 1001
}

fn first_mid_of(word: u64) -> u16
    ensures { result ≡ word % 65536 }
{
    (word % 65536) as u16
}

/// A message that is handed in, as it waits for its turn.
fn waiting_of(token: Token, datagram: Unnumbered, word: u64) -> Waiting
    ensures { result ≡ waits token datagram word }
{
    Waiting {
        token,
        datagram,
        timeout: timeout_of(word),
        first_mid: first_mid_of(word),
    }
}

/// The message with these bytes, as it is taken where another is outstanding.
pub fn in_turn(alloc: Global, token: Token, text: &[u8], word: u64) -> Result<Submission, LinkFault>
    requires { with_mid 0 text.now ≡ text.now }
    ensures waiting { IfOk result (λ x. x.waiting ≡ waits token text.now word) }
    ensures sent { IfOk result (λ x. x.sent ≡ None) }
    ensures memory { IsOkUnless result LinkFault.Memory }
{
    let datagram = Unnumbered::from_slice(alloc, text)?;
    Ok(Submission {
        waiting: waiting_of(token, datagram, word),
        sent: None,
    })
}

/// The message with these bytes, as it is taken where nothing is outstanding. Its bytes are copied
/// once, for what waits and what is sent.
pub fn at_once(
    alloc: Global,
    token: Token,
    text: &[u8],
    last_mid: Option<u16>,
    moment: u64,
    word: u64,
) -> Result<Submission, LinkFault>
    requires id { with_mid 0 text.now ≡ text.now }
    requires header { 4 ≤ length text.now }
    ensures waiting { IfOk result (λ x. x.waiting ≡ waits token text.now word) }
    ensures sent { IfOk result (λ x. IsNext moment last_mid (x.waiting ∷ []) x.sent) }
    ensures memory { IsOkUnless result LinkFault.Memory }
{
    let mid = mid_after(last_mid, first_mid_of(word));
    let datagram = Bytes::numbered(alloc, text, mid)?;
    let waiting = waiting_of(token, Unnumbered::of(&datagram)?, word);
    let first = sent_in(&waiting, mid, datagram, moment)?;
    Ok(Submission {
        waiting,
        sent: Some(first),
    })
}

/// The message's bytes.
fn bytes_of(alloc: Global, m: &Message) -> Result<Vec<u8>, LinkFault>
    requires { IsEncodable (content m.now) }
    ensures ok { IfOk result (λ text. Spells (content m.now) text.items) }
    ensures memory { IsOkUnless result LinkFault.Memory }
{
    match encode(alloc, m) {
        Ok(text) => Ok(text),
        Err(_) => Err(LinkFault::Memory),
    }
}

/// The message's bytes, under ID 0.
pub fn text_of(alloc: Global, m: Message) -> Result<Vec<u8>, LinkFault>
    requires encodable { IsEncodable (content m) }
    ensures ok { IfOk result (λ text. Spells (unnumbered (content m)) text.items) }
    ensures memory { IsOkUnless result LinkFault.Memory }
{
    let mut m = m;
    m.mid = 0;
    bytes_of(alloc, &m)
}
