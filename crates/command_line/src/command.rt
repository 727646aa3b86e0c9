//! What the arguments ask for.

use crate::serving::{Serving, serving_of};
use crate::wrong::Wrong;
use proxy_settings::Part;
use uri_map::{Peer, peer_at};

/// What the arguments ask for. A file is named by its path.
#[derive(Clone, Copy, PartialEq, Eq)]
pub enum Command<'a> {
    Help,
    Version,
    /// A run of a script, with the settings of a file, or else with those of a demonstration.
    Replay {
        journal: bool,
        settings: Option<&'a str>,
    },
    /// A picture of the journal that is on standard input.
    Draw,
    /// A story, from a file or else from standard input.
    Story {
        file: Option<&'a str>,
    },
    /// The gateway, and a device to try it with, both with settings of their own. Connections are
    /// taken at `listen`, if it is named.
    Demo {
        listen: Option<Peer>,
    },
    /// The gateway.
    Serve(Serving<'a>),
    /// The demonstration device, with the settings of a file, or else with those on standard input.
    Origin {
        settings: Option<&'a str>,
    },
    /// Whether a file has settings of the part.
    Check {
        part: Part,
        file: &'a str,
    },
}

/// What the words after the program's name ask for.
pub fn command_of(words: &[String]) -> Result<Command<'_>, Wrong<'_>> {
    for word in words {
        if matches!(word.as_str(), "--help" | "-h") {
            return Ok(Command::Help);
        }
    }
    let Some((name, rest)) = words.split_first() else {
        return Err(Wrong::Nothing);
    };
    match name.as_str() {
        "--version" | "-V" => nothing(Command::Version, rest),
        "demo" => demo_of(rest),
        "serve" => Ok(Command::Serve(serving_of(rest)?)),
        "origin" => Ok(Command::Origin {
            settings: file_in(rest)?,
        }),
        "draw" => nothing(Command::Draw, rest),
        "story" => Ok(Command::Story {
            file: file_in(rest)?,
        }),
        "replay" => replay_of(rest),
        "check" => check_of(rest),
        name => Err(Wrong::Command(name)),
    }
}

/// The command, after which nothing comes.
fn nothing<'a>(command: Command<'a>, words: &'a [String]) -> Result<Command<'a>, Wrong<'a>> {
    match words.first() {
        None => Ok(command),
        Some(word) => Err(Wrong::Word(word.as_str())),
    }
}

/// The file that the words name, if there are any: `[FILE]`.
fn file_in(words: &[String]) -> Result<Option<&str>, Wrong<'_>> {
    match words {
        [] => Ok(None),
        [file] => Ok(Some(path_in(file.as_str())?)),
        [file, word, ..] => {
            path_in(file.as_str())?;
            Err(Wrong::Word(word.as_str()))
        }
    }
}

/// A path that a word names. One that begins with two hyphens is none, but a flag that isn't known.
pub(crate) fn path_in(word: &str) -> Result<&str, Wrong<'_>> {
    if word.starts_with("--") {
        Err(Wrong::Word(word))
    } else {
        Ok(word)
    }
}

/// What the words after `demo` ask for: `[ADDRESS:PORT]`.
fn demo_of(words: &[String]) -> Result<Command<'_>, Wrong<'_>> {
    let at = match words {
        [] => return Ok(Command::Demo { listen: None }),
        [at] => at.as_str(),
        [_, word, ..] => return Err(Wrong::Word(word.as_str())),
    };
    match peer_at(at.as_bytes()) {
        Some(peer) => Ok(Command::Demo { listen: Some(peer) }),
        None => Err(Wrong::Address(at)),
    }
}

/// What the words after `replay` ask for: `[--journal] [--settings FILE]`, in any order.
fn replay_of(words: &[String]) -> Result<Command<'_>, Wrong<'_>> {
    let (journal, rest) = match words {
        [flag, rest @ ..] if flag.as_str() == "--journal" => (true, rest),
        [rest @ .., flag] if flag.as_str() == "--journal" => (true, rest),
        _ => (false, words),
    };
    let settings = match rest {
        [] => None,
        [name, file] if name.as_str() == "--settings" => Some(file.as_str()),
        [name] if name.as_str() == "--settings" => return Err(Wrong::After("--settings")),
        [name, _, word, ..] if name.as_str() == "--settings" => {
            return Err(Wrong::Word(word.as_str()));
        }
        [word, ..] => return Err(Wrong::Word(word.as_str())),
    };
    Ok(Command::Replay { journal, settings })
}

/// What the words after `check` ask for: `[--origin] FILE`.
fn check_of(words: &[String]) -> Result<Command<'_>, Wrong<'_>> {
    let (part, rest) = match words {
        [flag, rest @ ..] if flag.as_str() == "--origin" => (Part::Origin, rest),
        _ => (Part::Serve, words),
    };
    match file_in(rest)? {
        Some(file) => Ok(Command::Check { part, file }),
        None => Err(Wrong::After("check")),
    }
}
