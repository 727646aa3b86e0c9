//! The addresses of hosts.

ghost use Rattle.std.specs.Prelude.{◌≡◌};
ghost use Rattle.uri_map.specs.Peers.{is_no_endpoint, literal, peer_in};

use crate::peer::Peer;
use crate::target::{Host, Target};
use crate::text::Text;
use std::alloc::{AllocError, Global};
use std::marker::Model;
use std::net::IpAddr;

/// A name in lower case, and its address.
#[derive(Drop)]
pub struct Listed {
    pub name: Text,
    pub address: IpAddr,
}

/// The addresses of names, and whether addresses that stand in targets are taken as they are.
#[derive(Drop)]
pub struct Directory {
    literals: bool,
    listed: Vec<Listed>,
}

impl Model for Directory {
    ghost use Rattle.uri_map.specs.Peers.{Lines};

    ghost Value = { Lines };

    ghost view = { λ d. record { literals = d.literals; lines = d.listed.items } };
}

impl Directory {
    ghost use Rattle.std.specs.Prelude.{◌≡◌, [], ◌∷◌, ◌++◌, OnOk, OnErr};
    ghost use Rattle.std.specs.Str.{str_to_ascii_lowercase};
    ghost use Rattle.uri_map.specs.Peers.{address_in};

    /// A directory with no names.
    pub fn new(alloc: Global, literals: bool) -> Directory
        ensures { result ≡ record { literals = literals; lines = [] } }
    {
        Directory {
            literals,
            listed: Vec::new(alloc),
        }
    }

    /// Lists a name, which is kept in lower case. Of equal names the first counts.
    pub fn add(&mut self, name: &str, address: IpAddr) -> Result<(), AllocError>
        ensures ok { OnOk result (self.new.lines ≡ self.old.lines
            ++ record { name = str_to_ascii_lowercase name.now; address = address } ∷ []) }
        ensures err { OnErr result (self.new.lines ≡ self.old.lines) }
        ensures literals { self.new.literals ≡ self.old.literals }
    {
        let mut lowered = String::from_str(*self.listed.allocator(), name)?;
        lowered.make_ascii_lowercase();
        let name = Text::of(lowered);
        self.listed.push(Listed { name, address })?;
        Ok(())
    }

    /// Whether addresses that stand in targets are taken as they are.
    pub fn literals(&self) -> bool
        ensures { result ≡ self.now.literals }
    {
        self.literals
    }

    /// The address, where addresses that stand in targets are taken, and this is an endpoint's.
    fn literal(&self, address: IpAddr) -> Option<IpAddr>
        ensures { result ≡ literal self.now.literals address }
    {
        if self.literals && !is_no_endpoint(&address) {
            Some(address)
        } else {
            None
        }
    }

    /// The address of a name in lower case.
    pub fn address_of(&self, name: &Text) -> Option<IpAddr>
        ensures { result ≡ address_in self.now.lines name.now }
    {
        'each: for listed in &self.listed {
            if listed.name == *name {
                return Some(listed.address);
            }
        }
        None
    }
}

/// Whether no endpoint has the address: it is unspecified, the broadcast address, or a group's.
fn is_no_endpoint(address: &IpAddr) -> bool
    ensures { result ≡ is_no_endpoint address.now }
{
    match address {
        IpAddr::V4(address) => {
            let octets = address.octets();
            octets == [0; 4] || octets == [255; 4] || (224..=239).contains(&octets[0])
        }
        IpAddr::V6(address) => {
            let segments = address.segments();
            segments == [0; 8] || segments[0] >= 0xff00
        }
    }
}

/// The peer that serves the target, if the directory knows one.
pub fn peer_of(directory: &Directory, target: &Target) -> Option<Peer>
    ensures { result ≡ peer_in directory.now target.now }
{
    let address = match &target.host {
        Host::Name(name) => directory.address_of(name)?,
        Host::V4(address) => directory.literal(IpAddr::V4(*address))?,
        Host::V6(address) => directory.literal(IpAddr::V6(*address))?,
    };
    Some(Peer {
        address,
        port: target.port,
    })
}
