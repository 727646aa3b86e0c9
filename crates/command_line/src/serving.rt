//! What the words after `serve` ask for.

use crate::command::path_in;
use crate::wrong::Wrong;
use uri_map::{Peer, peer_at};

/// How long a client may stand still at most, in seconds: a day.
const LONGEST_IDLE: u64 = 86_400;

/// How many bytes of what happened may be held, at least and at most: 1 and 128 MiB.
const LEAST_HELD: u64 = 1_048_576;

const MOST_HELD: u64 = 134_217_728;

/// How the gateway is to run.
#[derive(Clone, Copy, PartialEq, Eq)]
pub struct Serving<'a> {
    /// the file of the settings, or else standard input
    pub settings: Option<&'a str>,
    /// the folder of the journal, where it is kept
    pub journals: Option<&'a str>,
    /// each answer is noted
    pub access: bool,
    /// how long a client may stand still in a request, in seconds, and is idle at least before its
    /// connection may be closed for another one, where that is said
    pub idle: Option<u64>,
    /// how many bytes of what happened are held in memory, where that is said
    pub held: Option<u64>,
    /// where it shows how it does, if it does
    pub status: Option<Peer>,
    /// what datagrams carry is shown there too
    pub bodies: bool,
    /// one loop serves all connections, in place of a thread for each, which keeps no journals, notes
    /// no answers and doesn't show how it does
    pub looped: bool,
}

/// A word that says what the next one is.
#[derive(Clone, Copy, PartialEq, Eq)]
enum Flag {
    Journals,
    Idle,
    Held,
    Status,
}

impl Flag {
    /// The word.
    fn word(self) -> &'static str {
        match self {
            Flag::Journals => "--journals",
            Flag::Idle => "--idle",
            Flag::Held => "--held-bytes",
            Flag::Status => "--status",
        }
    }
}

/// How the gateway serves its connections.
#[derive(Clone, Copy, PartialEq, Eq)]
enum Form {
    /// all of them in one loop
    Loop,
    /// each in a thread of its own
    Threads,
}

/// The words so far.
#[derive(Clone, Copy)]
struct Words<'a> {
    settings: Option<&'a str>,
    journals: Option<&'a str>,
    access: bool,
    idle: Option<u64>,
    held: Option<u64>,
    status: Option<Peer>,
    bodies: bool,
    /// how it is to run, where that is said
    form: Option<Form>,
    /// what the next word is
    flag: Option<Flag>,
}

impl<'a> Words<'a> {
    /// These and one more, if it has a place there.
    fn with(self, word: &'a str) -> Result<Words<'a>, Wrong<'a>> {
        let mut words = self;
        words.flag = None;
        match (self.flag, word) {
            (Some(Flag::Journals), _) => words.journals = Some(word),
            (Some(Flag::Idle), _) => words.idle = Some(seconds_of(word)?),
            (Some(Flag::Held), _) => words.held = Some(held_of(word)?),
            (Some(Flag::Status), _) => words.status = Some(address_of(word)?),
            (None, "--journals") if self.journals.is_none() => words.flag = Some(Flag::Journals),
            (None, "--idle") if self.idle.is_none() => words.flag = Some(Flag::Idle),
            (None, "--held-bytes") if self.held.is_none() => words.flag = Some(Flag::Held),
            (None, "--status") if self.status.is_none() => words.flag = Some(Flag::Status),
            (None, "--access") if !self.access => words.access = true,
            (None, "--status-bodies") if !self.bodies => words.bodies = true,
            (None, "--loop") if self.form.is_none() => words.form = Some(Form::Loop),
            (None, "--threads") if self.form.is_none() => words.form = Some(Form::Threads),
            (None, _) if self.settings.is_none() => words.settings = Some(path_in(word)?),
            (None, _) => return Err(Wrong::Word(word)),
        }
        Ok(words)
    }

    /// The first of them that goes with the loop alone.
    fn of_the_loop(&self) -> Option<&'static str> {
        if self.journals.is_some() {
            Some(Flag::Journals.word())
        } else if self.access {
            Some("--access")
        } else if self.held.is_some() {
            Some(Flag::Held.word())
        } else if self.status.is_some() {
            Some(Flag::Status.word())
        } else {
            None
        }
    }
}

/// An address and a port.
fn address_of(word: &str) -> Result<Peer, Wrong<'_>> {
    match peer_at(word.as_bytes()) {
        Some(peer) => Ok(peer),
        None => Err(Wrong::Address(word)),
    }
}

/// A number of seconds: from one to those of a day.
fn seconds_of(word: &str) -> Result<u64, Wrong<'_>> {
    match word.parse::<u64>() {
        Ok(seconds) if (1..=LONGEST_IDLE).contains(&seconds) => Ok(seconds),
        _ => Err(Wrong::Idle(word)),
    }
}

/// A number of bytes that may be held.
fn held_of(word: &str) -> Result<u64, Wrong<'_>> {
    match word.parse::<u64>() {
        Ok(bytes) if (LEAST_HELD..=MOST_HELD).contains(&bytes) => Ok(bytes),
        _ => Err(Wrong::Held(word)),
    }
}

/// What the words after `serve` ask for: `[FILE] [--journals FOLDER] [--access] [--idle SECONDS]
/// [--held-bytes BYTES] [--status ADDRESS:PORT [--status-bodies]] [--loop]`, or
/// `[FILE] [--idle SECONDS] --threads`, in any order. Where no form is named, it is the loop.
pub fn serving_of(words: &[String]) -> Result<Serving<'_>, Wrong<'_>> {
    let mut so_far = Words {
        settings: None,
        journals: None,
        access: false,
        idle: None,
        held: None,
        status: None,
        bodies: false,
        form: None,
        flag: None,
    };
    'each: for word in words {
        so_far = so_far.with(word.as_str())?;
    }
    if let Some(flag) = so_far.flag {
        return Err(Wrong::After(flag.word()));
    }
    if so_far.bodies && so_far.status.is_none() {
        return Err(Wrong::Alone("--status-bodies", "--status"));
    }
    let looped = so_far.form != Some(Form::Threads);
    match so_far.of_the_loop() {
        Some(word) if !looped => return Err(Wrong::Not(word, "--threads")),
        _ => {}
    }
    Ok(Serving {
        settings: so_far.settings,
        journals: so_far.journals,
        access: so_far.access,
        idle: so_far.idle,
        held: so_far.held,
        status: so_far.status,
        bodies: so_far.bodies,
        looped,
    })
}
