//! One watch.

ghost use Rattle.std.specs.Prelude.{◌≡◌, IfOk};
ghost use Rattle.observe_share.specs.Watches.{asked_at, is_idle};

use cache_key::{Key, Lookup};
use coap_codec::Token;
use std::alloc::AllocError;

/// How long a watch stands after the last ask for its key, in milliseconds.
pub(crate) const IDLE: u64 = 120_000;

/// A resource that is observed (RFC 7641, section 1.2), for all who ask for this key.
#[derive(Drop)]
pub struct Registration {
    /// What the responses are stored under.
    pub key: Key,
    /// The token of the request that registered it, under which notifications come.
    pub token: Token,
    /// The number of the journal's entry that opened the exchange of that request.
    pub opening: u32,
    /// The number of the newest notification, at first that of the answer to the request.
    pub version: u32,
    /// When that came, in milliseconds.
    pub moment: u64,
    /// When the key was asked for last, in milliseconds.
    pub asked: u64,
}

impl Registration {
    /// The same again, which shares its key.
    pub fn share(&self) -> Result<Registration, AllocError>
        ensures { IfOk result (λ r. r ≡ self.now) }
    {
        Ok(Registration {
            key: self.key.share()?,
            token: self.token,
            opening: self.opening,
            version: self.version,
            moment: self.moment,
            asked: self.asked,
        })
    }

    /// Whether nobody asked for its key in the last 120,000 ms.
    pub fn is_idle(&self, moment: u64) -> bool
        ensures { result ≡ is_idle moment self.now }
    {
        moment.saturating_sub(self.asked) >= IDLE
    }

    /// A notification that counts came.
    pub(crate) fn renew(&mut self, version: u32, moment: u64)
        ensures { self.new ≡ record self.old { version = version; moment = moment } }
    {
        self.version = version;
        self.moment = moment;
    }

    /// What is read was asked for at this moment: that counts, should it have its key.
    pub(crate) fn touch(&mut self, lookup: &Lookup<'_>, moment: u64)
        ensures { self.new ≡ asked_at lookup.now moment self.old }
    {
        if self.key.is_sought(lookup) {
            self.asked = moment;
        }
    }
}
