//! The folder of the journal: what happens, as lines in files, one after another.

use crate::notes::Notes;
use journal_book::Entry;
use journal_lines::{Payloads, write_entry};
use log::{info, warn};
use loop_system::Archive;
use route_bank::Profile;
use std::alloc::{AllocError, Global};
use std::fs::{self, File, OpenOptions};
use std::io::{self, ErrorKind, Write};
use std::os::unix::fs::OpenOptionsExt;
use std::time::SystemTime;

/// How many bytes a file has until the next one is begun: 64 MiB.
const LONGEST: u64 = 67_108_864;

/// How many bytes are written at once, at least where more comes.
const AT_ONCE: usize = 65_536;

/// Who may read and write a file: its owner alone.
const OWNER: u32 = 0o600;

/// A file that takes lines.
#[derive(Drop)]
struct Sheet {
    file: File,
    /// how many bytes its whole lines have
    len: u64,
}

/// A folder for the journal, or none.
#[derive(Drop)]
pub struct Folder {
    rt: HostRuntime,
    path: Option<String>,
    sheet: Option<Sheet>,
    /// the number of the next entry that is written
    next: usize,
    /// The first entry that wasn't written of those just before that one.
    lost: Option<usize>,
}

impl Folder {
    /// The folder of this path, where one is named. A file is made there and taken away again, so that a
    /// folder which takes none is told of at once.
    pub fn new(rt: HostRuntime, path: Option<&str>) -> io::Result<Folder> {
        let path = match path {
            Some(path) => Some(tried(&rt, path)?),
            None => None,
        };
        Ok(Folder {
            rt,
            path,
            sheet: None,
            next: 0,
            lost: None,
        })
    }

    /// Writes the lines of these entries. At an error those that weren't written whole are lost.
    fn write(&mut self, first: usize, entries: &[Entry<Profile>]) -> io::Result<()> {
        let alloc = self.rt.alloc();
        self.next = first;
        let mut lines = Vec::new(alloc);
        let mut number = first;
        'each: for entry in entries {
            add_line(alloc, &mut lines, number, entry)?;
            number = number.saturating_add(1);
            if lines.len() >= AT_ONCE {
                self.put(&mut lines, number)?;
            }
        }
        self.put(&mut lines, number)
    }

    /// Writes these lines, which go up to the entry before this one, and takes them away.
    fn put(&mut self, lines: &mut Vec<u8>, end: usize) -> io::Result<()> {
        let sheet = match self.sheet.take() {
            Some(sheet) if sheet.len < LONGEST => sheet,
            _ => self.begin()?,
        };
        let mut sheet = sheet;
        sheet.add(lines.as_slice())?;
        lines.clear();
        self.sheet = Some(sheet);
        self.next = end;
        Ok(())
    }

    /// Begins a file, named by the time and by its first entry. It is a new one, so it never is where a
    /// link leads.
    fn begin(&self) -> io::Result<Sheet> {
        let Some(folder) = &self.path else {
            return Err(io::Error::from(ErrorKind::NotFound));
        };
        let (seconds, number) = (self.seconds(), self.next);
        let path = format!(in self.rt.alloc(); "{folder}/journal-{seconds}-{number}")?;
        let file = OpenOptions::new()
            .write(true)
            .create_new(true)
            .mode(OWNER)
            .open(&self.rt, path.as_str())?;
        let notes = Notes(self.rt);
        info!(notes; target: "hcproxy", "the journal goes to {path} from entry {number} on");
        Ok(Sheet { file, len: 0 })
    }

    /// The seconds since 1970 began.
    fn seconds(&self) -> u64 {
        match SystemTime::now(&self.rt) {
            Ok(now) => match now.duration_since(SystemTime::UNIX_EPOCH) {
                Ok(gone) => gone.as_secs(),
                Err(_) => 0,
            },
            Err(_) => 0,
        }
    }

    /// Entries from this one on aren't written, for this reason. The first of them is noted.
    fn lose(&mut self, error: &io::Error) {
        if self.lost.is_some() {
            return;
        }
        let (notes, number) = (Notes(self.rt), self.next);
        self.lost = Some(number);
        warn!(
            notes;
            target: "hcproxy",
            "the journal isn't written from entry {number} on: {error}"
        );
    }

    /// Entries are written again: notes which weren't.
    fn note_lost(&mut self, end: usize) {
        if let Some(first) = self.lost.take() {
            let (notes, last) = (Notes(self.rt), end.saturating_sub(1));
            warn!(
                notes;
                target: "hcproxy",
                "entries {first} to {last} of the journal aren't written"
            );
        }
    }
}

impl Sheet {
    /// Adds whole lines, or, where that fails, nothing.
    fn add(&mut self, lines: &[u8]) -> io::Result<()> {
        let written = self.file.write_all(lines);
        if written.is_err() {
            let _ = self.file.set_len(self.len);
            return written;
        }
        self.len = self.len.saturating_add(lines.len() as u64);
        Ok(())
    }
}

impl Archive<Profile> for Folder {
    fn keeps(&self) -> bool {
        self.path.is_some()
    }

    fn keep(&mut self, first: usize, entries: &[Entry<Profile>]) {
        match self.write(first, entries) {
            Ok(()) => self.note_lost(first),
            Err(error) => self.lose(&error),
        }
    }
}

/// The path of a folder that takes files: one was made there, and taken away.
fn tried(rt: &HostRuntime, path: &str) -> io::Result<String> {
    let alloc = rt.alloc();
    let file = format!(in alloc; "{path}/journal.part")?;
    let _ = fs::remove_file(rt, file.as_str());
    drop(
        OpenOptions::new()
            .write(true)
            .create_new(true)
            .open(rt, file.as_str())?,
    );
    fs::remove_file(rt, file.as_str())?;
    Ok(String::from_str(alloc, path)?)
}

/// Adds the line of an entry.
fn add_line(
    alloc: Global,
    lines: &mut Vec<u8>,
    number: usize,
    entry: &Entry<Profile>,
) -> io::Result<()> {
    match write_entry(alloc, lines, number, entry, Payloads::Shown) {
        Ok(()) => Ok(()),
        Err(_) => Err(io::Error::from(AllocError)),
    }
}
