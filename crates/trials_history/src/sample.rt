//! The requests that the trials ask, and where they lead.

ghost use Rattle.std.specs.Prelude.{◌≡◌, [], IfOk};

use ask_model::{Mapped, Settings};
use http_edge::{BadKind, Incoming, Request, Version};
use http_header::HeaderMap;
use http_mapping::map_request;
use media_map::{Policy, Routes};
use std::alloc::{AllocError, Global};
use std::net::{IpAddr, Ipv4Addr};
use std::sync::Arc;
use transformers::{Bank, Relation};
use uri_map::{Directory, Peer, Text, Texts};

/// A relation that relates nothing.
pub struct Nothing;

impl Relation for Nothing {
    ghost holds = { λ from to input output. ⊥ };

    ghost takes = { λ from to input. ⊥ };
}

/// The server of s.example.com, at this port.
pub fn server(port: u16) -> Peer {
    Peer {
        address: IpAddr::V4(Ipv4Addr::new(192, 0, 2, 1)),
        port,
    }
}

/// Settings that transform nothing. The server's resources may be observed, or not.
fn settings(alloc: Global, observed: bool) -> Result<Settings, AllocError>
    ensures { IfOk result (λ s. s.routes ≡ []) }
{
    let mut directory = Directory::new(alloc, true);
    directory.add("s.example.com", IpAddr::V4(Ipv4Addr::new(192, 0, 2, 1)))?;
    let mut names = Texts::new(alloc);
    if observed {
        names.push(Text::copy_of(alloc, "s.example.com")?)?;
    }
    Ok(Settings {
        base: Text::copy_of(alloc, "/hc/")?,
        directory,
        observed: names,
        policy: Policy::default(),
        routes: Routes::new(alloc),
    })
}

/// What came in, with its meaning under these settings.
fn mapped_by(
    alloc: Global,
    settings: Settings,
    came: Incoming,
) -> Result<Mapped<Nothing>, AllocError>
    requires { settings.routes ≡ [] }
{
    let settings = Arc::new(alloc, settings)?;
    let bank = Bank::new(Vec::new(alloc));
    match map_request(alloc, &settings, &bank, came) {
        Ok(mapped) => Ok(mapped),
        Err(_) => Err(AllocError),
    }
}

/// What came in, with its meaning where nothing is observed.
fn mapped(alloc: Global, came: Incoming) -> Result<Mapped<Nothing>, AllocError> {
    mapped_by(alloc, settings(alloc, false)?, came)
}

/// A GET of coap://s.example.com/light.
pub fn light(alloc: Global) -> Result<Mapped<Nothing>, AllocError> {
    mapped(alloc, bare(alloc, b"GET", lights(alloc)?)?)
}

/// A DELETE of it.
pub fn erasing(alloc: Global) -> Result<Mapped<Nothing>, AllocError> {
    mapped(alloc, bare(alloc, b"DELETE", lights(alloc)?)?)
}

/// A GET of it where the server is observed.
pub fn watched_light(alloc: Global) -> Result<Mapped<Nothing>, AllocError> {
    let came = bare(alloc, b"GET", lights(alloc)?)?;
    mapped_by(alloc, settings(alloc, true)?, came)
}

/// A GET of coap://s.example.com and a path that is this number.
pub fn numbered(alloc: Global, number: u32) -> Result<Mapped<Nothing>, AllocError> {
    mapped(alloc, bare(alloc, b"GET", place(alloc, number)?)?)
}

/// The same where the server is observed.
pub fn watched_number(alloc: Global, number: u32) -> Result<Mapped<Nothing>, AllocError> {
    let came = bare(alloc, b"GET", place(alloc, number)?)?;
    mapped_by(alloc, settings(alloc, true)?, came)
}

/// The target of the light.
fn lights(alloc: Global) -> Result<Vec<u8>, AllocError> {
    Ok(Vec::from_slice(alloc, b"/hc/coap://s.example.com/light")?)
}

/// The target of what has this number.
fn place(alloc: Global, number: u32) -> Result<Vec<u8>, AllocError> {
    let target = format!(in alloc; "/hc/coap://s.example.com/{number}")?;
    Ok(target.into_bytes())
}

/// A request without fields and body.
fn bare(alloc: Global, method: &[u8], target: Vec<u8>) -> Result<Incoming, AllocError> {
    Ok(Incoming::Request(Request {
        method: Vec::from_slice(alloc, method)?,
        target,
        version: Version::Http11,
        fields: HeaderMap::new(alloc),
        body: Vec::new(alloc),
        close: false,
    }))
}

/// A request of so many bytes, at least 5, which is refused: its target is no path of the proxy's.
pub fn sized(alloc: Global, size: usize) -> Result<Mapped<Nothing>, AllocError> {
    let request = Request {
        method: Vec::from_slice(alloc, b"POST")?,
        target: Vec::from_slice(alloc, b"/")?,
        version: Version::Http11,
        fields: HeaderMap::new(alloc),
        body: vec![in alloc; b'x'; size.saturating_sub(5)]?,
        close: false,
    };
    mapped(alloc, Incoming::Request(request))
}

/// A request that is refused for its size.
pub fn too_large(alloc: Global) -> Result<Mapped<Nothing>, AllocError> {
    mapped(alloc, Incoming::Bad(BadKind::Large))
}

/// What was asked, to be shared.
pub fn shared(alloc: Global, mapped: Mapped<Nothing>) -> Result<Arc<Mapped<Nothing>>, AllocError> {
    Ok(Arc::new(alloc, mapped)?)
}
