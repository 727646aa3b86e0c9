//! The settings that a file has.

ghost use Rattle.std.specs.Prelude.{◌≡◌, ◌==◌, ◌≤◌, length, IfSome, IfOk};
ghost use Rattle.proxy_settings.specs.Files.{IsFailure, IsReadOf, lines_in, line_at, IsLineOf, IsFoundIn, IsOf};

use crate::fault::{Reason, SetupFault};
use crate::part::{Part, Setup, settings_of};
use crate::place::line_of;
use std::alloc::Global;
use std::error::Error;
use std::io::{self, ErrorKind, Read};
use std::{fmt, str};

/// How many bytes a file of settings has at most.
pub const FILE_LIMIT: usize = 1_048_576;

/// Why a file gives no settings.
#[derive(Clone, Copy, Debug)]
pub enum FileFault {
    /// It can't be read.
    Unread(io::Error),
    /// It has more than 1,048,576 bytes.
    TooLarge,
    /// The line of that number, from 1, isn't UTF-8.
    NotText(usize),
    /// Its text is refused, in the line of that number, from 1, where it is known.
    Refused(Option<usize>, Reason),
    /// Memory ran out.
    Memory,
}

impl fmt::Display for FileFault {
    fn fmt<W: fmt::Write>(&self, f: &mut fmt::Formatter<W>) -> fmt::Result {
        match self {
            FileFault::Unread(error) => write!(f, "{error}"),
            FileFault::TooLarge => write!(f, "above {FILE_LIMIT} bytes"),
            FileFault::NotText(line) => write!(f, "line {line}: not UTF-8"),
            FileFault::Refused(Some(line), reason) => write!(f, "line {line}: {reason}"),
            FileFault::Refused(None, reason) => write!(f, "{reason}"),
            FileFault::Memory => f.write_str("out of memory"),
        }
    }
}

impl Error for FileFault {}

/// The settings of the part that a file has. It is read to its end, but no further than the limit.
pub fn read_setup<F: Read + Drop>(alloc: Global, part: Part, file: F) -> Result<Setup, FileFault>
    ensures found { IfSome (F.remaining file) (λ bytes. IsFoundIn part bytes result) }
    ensures part { IfOk result (IsOf part) }
{
    let bytes = bytes_of(alloc, file)?;
    setup_in(alloc, part, &bytes)
}

/// The bytes of a file.
fn bytes_of<F: Read + Drop>(alloc: Global, file: F) -> Result<Vec<u8>, FileFault>
    ensures { IfSome (F.remaining file) (λ bytes. IsReadOf (λ v. v.items) bytes result) }
{
    let mut bytes = Vec::new(alloc);
    let mut front = file.take(FILE_LIMIT as u64 + 1);
    match front.read_to_end(&mut bytes) {
        Ok(_) if bytes.len() > FILE_LIMIT => Err(FileFault::TooLarge),
        Ok(_) => Ok(bytes),
        Err(error) => Err(failed(error)),
    }
}

/// A read that failed.
fn failed(error: io::Error) -> FileFault
    ensures { IsFailure result }
{
    match error.kind() {
        ErrorKind::OutOfMemory => FileFault::Memory,
        _ => FileFault::Unread(error),
    }
}

/// The settings of the part that bytes stand for.
fn setup_in(alloc: Global, part: Part, bytes: &[u8]) -> Result<Setup, FileFault>
    ensures found { IsFoundIn part bytes.now result }
    ensures part { IfOk result (IsOf part) }
{
    match str::from_utf8(bytes) {
        Ok(text) => match settings_of(alloc, part, text) {
            Ok(setup) => Ok(setup),
            Err(SetupFault::Memory) => Err(FileFault::Memory),
            Err(SetupFault::Refused(reason)) => {
                Err(FileFault::Refused(place_of(alloc, bytes, reason), reason))
            }
        },
        Err(error) => Err(FileFault::NotText(line_at(bytes, error.valid_up_to()))),
    }
}

/// The line that a reason doesn't tell by itself.
fn place_of(alloc: Global, bytes: &[u8], reason: Reason) -> Option<usize>
    ensures { IsLineOf bytes.now result }
{
    match reason {
        Reason::Syntax(_, _) => None,
        Reason::AtKey(wrong) => line_of(alloc, bytes, &wrong),
    }
}

/// The line, counted from 1, of the byte at that place.
fn line_at(bytes: &[u8], place: usize) -> usize
    requires { place ≤ length bytes.now }
    ensures { result ≡ line_at bytes.now place }
{
    lines_in(&bytes[..place])
}

/// How many lines there are; what comes after the last line end is one too.
fn lines_in(bytes: &[u8]) -> usize
    ensures { result ≡ lines_in bytes.now }
{
    bytes.iter().filter(|b| **b == b'\n').count() + 1
}
