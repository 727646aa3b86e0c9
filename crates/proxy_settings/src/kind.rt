//! What a resource of the demonstration device is.

ghost use Rattle.std.specs.Prelude.{◌≡◌};
ghost use Rattle.proxy_settings.specs.Values.{kind_named};

/// What a resource of the demonstration device is.
#[derive(Clone, Copy, Debug)]
pub enum Kind {
    /// It holds what was put: `cell`.
    Cell,
    /// It counts what was posted: `counter`.
    Counter,
}

impl Kind {
    /// What a word names.
    pub(crate) fn named(word: &str) -> Option<Kind>
        ensures { result ≡ kind_named word.now }
    {
        if word == "cell" {
            Some(Kind::Cell)
        } else if word == "counter" {
            Some(Kind::Counter)
        } else {
            None
        }
    }
}
