//! What is wrong with the words after the program's name.

use std::fmt;

/// What is wrong with the words after the program's name.
#[derive(Clone, Copy, PartialEq, Eq)]
pub enum Wrong<'a> {
    /// There is none.
    Nothing,
    /// No command has this name.
    Command(&'a str),
    /// A word isn't taken where it stands.
    Word(&'a str),
    /// What has to come after this word is missing.
    After(&'a str),
    /// The first goes with the second alone.
    Alone(&'static str, &'static str),
    /// The first doesn't go with the second.
    Not(&'static str, &'static str),
    /// No address and port.
    Address(&'a str),
    /// No number of seconds for which a client may stand still.
    Idle(&'a str),
    /// No number of bytes that may be held.
    Held(&'a str),
}

impl fmt::Display for Wrong<'_> {
    fn fmt<W: fmt::Write>(&self, f: &mut fmt::Formatter<W>) -> fmt::Result {
        match self {
            Wrong::Nothing => f.write_str("no command"),
            Wrong::Command(word) => write!(f, "{word}: no such command"),
            Wrong::Word(word) => write!(f, "{word}: not taken here"),
            Wrong::After(word) => write!(f, "{word}: what comes after it is missing"),
            Wrong::Alone(word, other) => write!(f, "{word}: only with {other}"),
            Wrong::Not(word, other) => write!(f, "{word}: not with {other}"),
            Wrong::Address(word) => write!(f, "{word}: no address and port, as 127.0.0.1:8080 is"),
            Wrong::Idle(word) => write!(f, "--idle {word}: no number of seconds from 1 to 86400"),
            Wrong::Held(word) => {
                write!(
                    f,
                    "--held-bytes {word}: no number from 1048576 to 134217728"
                )
            }
        }
    }
}
