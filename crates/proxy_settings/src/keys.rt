//! Which keys a table may have.

ghost use Rattle.std.specs.Prelude.{◌≡◌, true, false, map, OnOk, OnErr};
ghost use Rattle.std.specs.List.{list_any};
ghost use Rattle.std.specs.Str.{bytes_eq};
ghost use Rattle.toml.specs.View.{table_view};
ghost use Rattle.proxy_settings.specs.Keys.{keys_of, is_key, has_only};

use crate::fault::{Why, Wrong};
use toml::Table;

/// The tables of a file.
#[derive(Clone, Copy)]
pub(crate) enum Keys {
    Serve,
    Origin,
    Route,
    Device,
    Resource,
}

impl Keys {
    /// The keys that the table may have.
    fn names(self) -> &'static [&'static str]
        ensures { map (λ name. name.now) result.now ≡ keys_of self }
    {
        match self {
            Keys::Serve => &[
                "listen", "udp", "base", "literals", "loose", "pass", "origin", "down", "up",
            ],
            Keys::Origin => &["host", "address", "observe"],
            Keys::Route => &["from", "to", "by"],
            Keys::Device => &["listen", "block", "resource"],
            Keys::Resource => &["path", "kind", "state", "format", "max_age"],
        }
    }

    /// Whether the table may have the key.
    fn knows(self, key: &str) -> bool
        ensures { result ≡ is_key self key.now }
    {
        is_among(self.names(), key)
    }

    /// Refuses a table with another key.
    pub(crate) fn check(self, table: &Table) -> Result<(), Wrong>
        ensures ok { OnOk result (has_only self (table_view table.now) ≡ true) }
        ensures err { OnErr result (has_only self (table_view table.now) ≡ false) }
    {
        'each: for (key, _) in table.iter() {
            if !self.knows(key.as_str()) {
                return Err(Wrong::at(key.as_str(), Why::Unknown));
            }
        }
        Ok(())
    }
}

fn is_among(names: &[&str], key: &str) -> bool
    ensures { result ≡ list_any (bytes_eq key.now) (map (λ name. name.now) names.now) }
{
    'each: for name in names {
        if key == *name {
            return true;
        }
    }
    false
}
