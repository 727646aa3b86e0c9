//! A message of CoAP.

ghost use Rattle.std.specs.Prelude.{◌≡◌, [], IfOk, IsOkUnless};
ghost use Rattle.coap_codec.specs.Spelling.{content, entries};

use crate::fault::CodecFault;
use crate::opt::Opt;
use crate::token::Token;
use std::alloc::Global;

/// The type of a message (RFC 7252, sections 4.2 and 4.3).
#[derive(Clone, Copy, Debug, PartialEq, Eq)]
pub enum MsgType {
    /// Confirmable: it is sent again until it is acknowledged.
    Con = 0,
    /// Non-confirmable.
    Non = 1,
    /// Acknowledgement.
    Ack = 2,
    /// Reset.
    Rst = 3,
}

/// A message (RFC 7252, section 3).
#[derive(Debug, Drop, PartialEq, Eq)]
pub struct Message {
    /// The type.
    pub kind: MsgType,
    /// The code c.dd, as 32 * c + dd; 0 is the Empty message.
    pub code: u8,
    /// The message ID.
    pub mid: u16,
    /// The token, which a request and its responses share.
    pub token: Token,
    /// The options. `encode` wants them in order of their numbers, as `decode` gives them.
    pub options: Vec<Opt>,
    /// The payload; none is the same as an empty one.
    pub payload: Vec<u8>,
}

impl Message {
    /// The message with no options and no payload. It takes no memory.
    pub fn new(alloc: Global, kind: MsgType, code: u8, mid: u16, token: Token) -> Message
        ensures { content result ≡ record {
          kind = kind;
          code = code;
          mid = mid;
          token = token;
          options = [];
          payload = [];
        } }
    {
        Message {
            kind,
            code,
            mid,
            token,
            options: Vec::new(alloc),
            payload: Vec::new(alloc),
        }
    }

    /// The same message again.
    pub fn copy(&self, alloc: Global) -> Result<Message, CodecFault>
        ensures ok { IfOk result (λ m. content m ≡ content self.now) }
        ensures memory { IsOkUnless result CodecFault.Memory }
    {
        let options = copies_of(alloc, &self.options)?;
        let payload = Vec::from_slice(alloc, &self.payload)?;
        Ok(Message {
            kind: self.kind,
            code: self.code,
            mid: self.mid,
            token: self.token,
            options,
            payload,
        })
    }
}

/// The same options again.
fn copies_of(alloc: Global, options: &[Opt]) -> Result<Vec<Opt>, CodecFault>
    ensures ok { IfOk result (λ v. entries v.items ≡ entries options.now) }
    ensures memory { IsOkUnless result CodecFault.Memory }
{
    let mut all = Vec::with_capacity(alloc, options.len())?;
    'each: for o in options {
        all.push(o.copy(alloc)?)?;
    }
    Ok(all)
}
