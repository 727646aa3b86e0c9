//! The rules that requests are mapped by.

use media_map::{Policy, Routes};
use uri_map::{Directory, Text, Texts};

/// The rules that requests are mapped by.
#[derive(Drop)]
pub struct Settings {
    /// what a target begins with that names a CoAP resource (RFC 8075 section 5.3)
    pub base: Text,
    /// where the servers are
    pub directory: Directory,
    /// the names of servers whose resources may be observed (RFC 7641)
    pub observed: Texts,
    /// how far media types that CoAP doesn't know are taken (RFC 8075 section 6)
    pub policy: Policy,
    /// between which forms bodies are transformed
    pub routes: Routes,
}
