//! `hcproxy replay`: the script on standard input, under the settings of a file or else under those
//! of a demonstration.

use crate::files::serve_at;
use ask_model::Settings;
use command_line::{Report, demonstration, followed};
use script_runs::replay;
use std::io;
use std::rt::Files;

/// Runs the script, and prints what goes out, and then, where asked for, the journal.
pub fn replay_input<'a, R: Input + Print + Eprint + Files + AllocGlobal + Copy + Drop>(
    rt: R,
    path: Option<&'a str>,
    journal: bool,
) -> Result<(), Report<'a>> {
    let settings = settings_at(&rt, path)?;
    let mut reader = rt.reader();
    let mut writer = io::writer(&rt);
    replay(rt.alloc(), settings, &mut reader, &mut writer, journal)
}

/// The settings that the script runs under.
fn settings_at<'a, R: Input + Eprint + Files + AllocGlobal>(
    rt: &R,
    path: Option<&'a str>,
) -> Result<Settings, Report<'a>> {
    let alloc = rt.alloc();
    if path.is_some() {
        return Ok(followed(alloc, &serve_at(rt, path)?)?);
    }
    match demonstration(alloc) {
        Ok(settings) => Ok(settings),
        Err(fault) => Err(Report::replay(fault, None)),
    }
}
