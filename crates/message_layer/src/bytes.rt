//! Bytes that several owners share, which contracts see as a list of numbers.

ghost use Rattle.std.specs.Prelude.{◌≡◌, ◌≤◌, List, ℕ, IfOk, length};
ghost use Rattle.std.specs.Arc.{arc_value};
ghost use Rattle.message_layer.specs.Sending.{with_mid};

use coap_codec::Bytes as Whole;
use std::alloc::{AllocError, Global};
use std::marker::Model;
use std::sync::Arc;

/// The bytes of a datagram. They are made once, and its copies share them.
#[derive(Drop)]
pub struct Bytes {
    items: Arc<Whole>,
}

impl Model for Bytes {
    ghost use Rattle.std.specs.Prelude.{List, ℕ};
    ghost use Rattle.std.specs.Arc.{arc_value};

    ghost Value = { List ℕ };

    ghost view = { λ b. arc_value b.items };
}

impl Bytes {
    /// Takes the bytes over.
    pub fn new(alloc: Global, items: Vec<u8>) -> Result<Bytes, AllocError>
        ensures { IfOk result (λ b. b ≡ items.items) }
    {
        Ok(Bytes {
            items: Arc::new(alloc, Whole::of(items))?,
        })
    }

    /// The same bytes, shared and not copied.
    pub fn share(&self) -> Result<Bytes, AllocError>
        ensures { IfOk result (λ b. b ≡ self.now) }
    {
        Ok(Bytes {
            items: Arc::try_clone(&self.items)?,
        })
    }

    /// The bytes, for who keeps them longer than the link does.
    pub fn shared(&self) -> &Arc<Whole>
        ensures { arc_value result.now ≡ self.now }
    {
        &self.items
    }

    /// The bytes.
    pub fn as_slice(&self) -> &[u8]
        ensures { result.now ≡ self.now }
    {
        self.items.as_slice()
    }

    /// A copy of the datagram, with this message ID.
    pub(crate) fn numbered(alloc: Global, datagram: &[u8], mid: u16) -> Result<Bytes, AllocError>
        requires { 4 ≤ length datagram.now }
        ensures { IfOk result (λ b. b ≡ with_mid mid datagram.now) }
    {
        let mut items = Vec::from_slice(alloc, datagram)?;
        items[2] = (mid / 256) as u8;
        items[3] = (mid % 256) as u8;
        Bytes::new(alloc, items)
    }
}

/// The bytes of a datagram that is to get its message ID when it is sent: what they have in its
/// place counts as 0. So they may be shared with the datagram that is sent.
#[derive(Drop)]
pub struct Unnumbered {
    bytes: Bytes,
}

impl Model for Unnumbered {
    ghost use Rattle.std.specs.Prelude.{List, ℕ, slice_set};

    ghost Value = { List ℕ };

    ghost view = { λ u. slice_set (slice_set u.bytes 2 0) 3 0 };
}

impl Unnumbered {
    /// A copy of the bytes.
    pub(crate) fn from_slice(alloc: Global, text: &[u8]) -> Result<Unnumbered, AllocError>
        ensures { IfOk result (λ u. u ≡ with_mid 0 text.now) }
    {
        let items = Vec::from_slice(alloc, text)?;
        Ok(Unnumbered {
            bytes: Bytes::new(alloc, items)?,
        })
    }

    /// The bytes of a datagram, shared and not copied.
    pub(crate) fn of(datagram: &Bytes) -> Result<Unnumbered, AllocError>
        ensures { IfOk result (λ u. u ≡ with_mid 0 datagram.now) }
    {
        Ok(Unnumbered {
            bytes: datagram.share()?,
        })
    }

    /// The same bytes, shared and not copied.
    pub(crate) fn share(&self) -> Result<Unnumbered, AllocError>
        ensures { IfOk result (λ u. u ≡ self.now) }
    {
        Ok(Unnumbered {
            bytes: self.bytes.share()?,
        })
    }

    /// A copy of the datagram, with this message ID.
    #[tactic(auto, using(crate::proofs::Numbering::as_long))]
    pub(crate) fn numbered(&self, alloc: Global, mid: u16) -> Result<Bytes, AllocError>
        requires { 4 ≤ length self.now }
        ensures { IfOk result (λ b. b ≡ with_mid mid self.now) }
    {
        let datagram = Bytes::numbered(alloc, self.bytes.as_slice(), mid)?;
        Ok(datagram)
    }
}
