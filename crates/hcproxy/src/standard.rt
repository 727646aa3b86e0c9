//! The standard descriptors.

use std::fs::{File, OpenOptions};
use std::os::fd::AsRawFd;

/// A file that gives and keeps nothing.
fn opened(rt: &HostRuntime, read: bool, write: bool) -> Option<File> {
    OpenOptions::new()
        .read(read)
        .write(write)
        .open(rt, "/dev/null")
        .ok()
}

/// The number of the descriptor that is free first.
fn first_free(rt: &HostRuntime) -> Option<i32> {
    let file = opened(rt, true, true)?;
    Some(file.as_raw_fd())
}

/// A file that takes the number of a standard descriptor which is closed. None where none is closed.
/// While it is open no socket gets that number, and what is printed and noted reaches no client.
/// Standard input can't be read from it, nor standard output be written to it: who does is told that
/// the device failed, as where it is closed. What is noted is kept nowhere.
pub fn filled(rt: &HostRuntime) -> Option<File> {
    match first_free(rt)? {
        0 => opened(rt, false, true),
        1 => opened(rt, true, false),
        2 => opened(rt, true, true),
        _ => None,
    }
}
