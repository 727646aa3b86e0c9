//! What transforms bodies.

ghost use Rattle.std.specs.Prelude.{◌≡◌};
ghost use Rattle.proxy_settings.specs.Values.{by_named};

/// What transforms the bodies of a route.
#[derive(Clone, Copy, Debug)]
pub enum By {
    /// CBOR to JSON: `cbor-json`.
    CborJson,
    /// JSON to CBOR: `json-cbor`.
    JsonCbor,
    /// Bytes to their hexadecimal digits: `octets-hex`.
    OctetsHex,
}

impl By {
    /// What a word names.
    pub(crate) fn named(word: &str) -> Option<By>
        ensures { result ≡ by_named word.now }
    {
        if word == "cbor-json" {
            Some(By::CborJson)
        } else if word == "json-cbor" {
            Some(By::JsonCbor)
        } else if word == "octets-hex" {
            Some(By::OctetsHex)
        } else {
            None
        }
    }
}
