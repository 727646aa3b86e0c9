//! `hcproxy story`: the story in a file, or else on standard input.

use command_line::Report;
use proxy_settings::FileFault;
use std::rt::Files;
use std::{fs, io};
use story_runs::tell_story;

/// Plays the story, and prints what happens.
pub fn story_at<'a, R: Input + Print + Files + AllocGlobal + Copy + Drop>(
    rt: R,
    path: Option<&'a str>,
) -> Result<(), Report<'a>> {
    let alloc = rt.alloc();
    let mut writer = io::writer(&rt);
    let (outcome, name) = match path {
        None => (
            tell_story(alloc, rt.reader(), &mut writer),
            "standard input",
        ),
        Some(path) => match fs::open(&rt, path) {
            Ok(file) => (tell_story(alloc, file, &mut writer), path),
            Err(error) => return Err(Report::file(path, FileFault::Unread(error))),
        },
    };
    outcome.map_err(|untold| untold.report(name))
}
