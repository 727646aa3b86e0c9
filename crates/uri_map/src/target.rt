//! The resource that a target names.

ghost use Rattle.std.specs.Prelude.{◌≡◌, IfOk};

use crate::text::{Text, Texts};
use std::alloc::AllocError;
use std::net::{Ipv4Addr, Ipv6Addr};

/// The host of a resource.
#[derive(Drop, PartialEq, Eq)]
pub enum Host {
    /// A registered name, in lower case, of 1 to 255 bytes. It is not the text of an IPv4 address.
    Name(Text),
    /// An IPv4 address.
    V4(Ipv4Addr),
    /// An IPv6 address.
    V6(Ipv6Addr),
}

/// A resource of a CoAP server: its host, its UDP port, and the values of its Uri-Path and
/// Uri-Query options in order (RFC 7252, section 6.4).
#[derive(Drop, PartialEq, Eq)]
pub struct Target {
    pub host: Host,
    pub port: u16,
    pub path: Texts,
    pub query: Texts,
}

impl Host {
    /// A copy of the host.
    pub fn copy(&self) -> Result<Host, AllocError>
        ensures { IfOk result (λ h. h ≡ self.now) }
    {
        match self {
            Host::Name(name) => Ok(Host::Name(name.copy()?)),
            Host::V4(address) => Ok(Host::V4(*address)),
            Host::V6(address) => Ok(Host::V6(*address)),
        }
    }
}

impl Target {
    /// A copy of the target.
    pub fn copy(&self) -> Result<Target, AllocError>
        ensures { IfOk result (λ t. t ≡ self.now) }
    {
        let host = self.host.copy()?;
        let path = self.path.copy()?;
        let query = self.query.copy()?;
        Ok(Target {
            host,
            port: self.port,
            path,
            query,
        })
    }
}
