//! Why settings are refused.

ghost use Rattle.std.specs.Prelude.{◌≡◌};
ghost use Rattle.proxy_settings.specs.Steps.{number_of};
ghost use Rattle.proxy_settings.specs.declared.fault.SetupFault.TheVariants.{Memory, Refused};
ghost use Rattle.proxy_settings.specs.declared.fault.Reason.TheVariants.{AtKey};

use crate::name::Name;
use std::alloc::{AllocError, AllocFailed};
use std::error::Error;
use std::fmt;

/// What is wrong at a key.
#[derive(Clone, Copy, Debug, PartialEq, Eq)]
pub enum Why {
    Unknown,
    Missing,
    NotText,
    NotSwitch,
    NotWhole,
    /// Above the greatest number that may stand there.
    Above(u32),
    NotTables,
    NotEndpoint,
    NotAddress,
    NotBase,
    NotHost,
    NotMedia,
    NotBy,
    /// The transformer isn't one between these forms.
    NotPair,
    NotKind,
    TooLong,
}

impl fmt::Display for Why {
    fn fmt<W: fmt::Write>(&self, f: &mut fmt::Formatter<W>) -> fmt::Result {
        f.write_str(match self {
            Why::Above(most) => return write!(f, "not a number from 0 to {most}"),
            Why::Unknown => "unknown key",
            Why::Missing => "missing",
            Why::NotText => "not a text",
            Why::NotSwitch => "neither true nor false",
            Why::NotWhole => "not a whole number",
            Why::NotTables => "not an array of tables",
            Why::NotEndpoint => "not an address and a port from 1 to 65535",
            Why::NotAddress => "not an address",
            Why::NotBase => "not a path of letters, digits, -._~ and / between two /",
            Why::NotHost => "not a host's name of 1 to 255 bytes",
            Why::NotMedia => "not a media type",
            Why::NotBy => "none of cbor-json, json-cbor and octets-hex",
            Why::NotPair => "not a way between these two",
            Why::NotKind => "neither cell nor counter",
            Why::TooLong => "above 65,536 bytes",
        })
    }
}

/// A key that is wrong, and in which table of an array of tables it stands, counted from 0.
#[derive(Clone, Copy, Debug)]
pub struct Wrong {
    pub row: Option<(Name, usize)>,
    pub key: Name,
    pub why: Why,
}

impl Wrong {
    /// A wrong key.
    pub fn at(key: &str, why: Why) -> Wrong {
        Wrong {
            row: None,
            key: Name::of(key),
            why,
        }
    }

    /// The same, in a table of the array of tables.
    pub fn within(self, list: &str, number: usize) -> Wrong {
        Wrong {
            row: Some((Name::of(list), number)),
            key: self.key,
            why: self.why,
        }
    }
}

impl fmt::Display for Wrong {
    fn fmt<W: fmt::Write>(&self, f: &mut fmt::Formatter<W>) -> fmt::Result {
        let (key, why) = (self.key, self.why);
        if let Some((list, number)) = self.row {
            write!(f, "{list}[{number}].")?;
        }
        write!(f, "{key}: {why}")
    }
}

/// What is wrong with a text, in one line.
#[derive(Clone, Copy, Debug)]
pub enum Reason {
    /// It is no TOML: at which line, counted from 1, and why.
    Syntax(usize, toml::de::Error),
    /// A key of its table is wrong.
    AtKey(Wrong),
}

impl fmt::Display for Reason {
    fn fmt<W: fmt::Write>(&self, f: &mut fmt::Formatter<W>) -> fmt::Result {
        match self {
            Reason::Syntax(line, error) => write!(f, "line {line}: {}", error.message()),
            Reason::AtKey(wrong) => write!(f, "{wrong}"),
        }
    }
}

/// Why a text gives no settings.
#[derive(Clone, Copy, Debug)]
pub enum SetupFault {
    /// The text is refused.
    Refused(Reason),
    /// Memory ran out.
    Memory,
}

impl SetupFault {
    /// Its number: 1 for a refused text, 2 for want of memory.
    pub fn number(&self) -> u8
        ensures { result ≡ number_of self.now }
    {
        match self {
            SetupFault::Refused(_) => 1,
            SetupFault::Memory => 2,
        }
    }
}

impl fmt::Display for SetupFault {
    fn fmt<W: fmt::Write>(&self, f: &mut fmt::Formatter<W>) -> fmt::Result {
        match self {
            SetupFault::Refused(reason) => write!(f, "{reason}"),
            SetupFault::Memory => f.write_str("out of memory"),
        }
    }
}

impl Error for SetupFault {}

impl From<Wrong> for SetupFault {
    ghost from_gives = { λ w e. e ≡ Refused (AtKey w) };

    fn from(wrong: Wrong) -> SetupFault {
        SetupFault::Refused(Reason::AtKey(wrong))
    }
}

impl From<AllocError> for SetupFault {
    ghost from_gives = { λ _ e. e ≡ Memory };

    fn from(_e: AllocError) -> SetupFault {
        SetupFault::Memory
    }
}

impl<T: Drop> From<AllocFailed<T>> for SetupFault {
    ghost from_gives = { λ _ e. e ≡ Memory };

    fn from(_e: AllocFailed<T>) -> SetupFault {
        SetupFault::Memory
    }
}
