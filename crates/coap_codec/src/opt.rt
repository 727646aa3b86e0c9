//! An option of a message.

ghost use Rattle.std.specs.Prelude.{◌≡◌, IfOk, IsOkUnless};
ghost use Rattle.coap_codec.specs.Spelling.{entry};

use crate::fault::CodecFault;
use std::alloc::Global;

/// An option: its number and its value (RFC 7252, section 5.4).
#[derive(Debug, Drop, PartialEq, Eq)]
pub struct Opt {
    /// The option number, as in the module `number`.
    pub number: u16,
    /// The value as it stands in the message.
    pub value: Vec<u8>,
}

impl Opt {
    /// The option with a copy of that value.
    pub fn new(alloc: Global, number: u16, value: &[u8]) -> Result<Opt, CodecFault>
        ensures ok { IfOk result (λ o. entry o ≡ record { number = number; value = value.now }) }
        ensures memory { IsOkUnless result CodecFault.Memory }
    {
        let value = Vec::from_slice(alloc, value)?;
        Ok(Opt { number, value })
    }

    /// The same option again.
    pub fn copy(&self, alloc: Global) -> Result<Opt, CodecFault>
        ensures ok { IfOk result (λ o. entry o ≡ entry self.now) }
        ensures memory { IsOkUnless result CodecFault.Memory }
    {
        Opt::new(alloc, self.number, &self.value)
    }
}
