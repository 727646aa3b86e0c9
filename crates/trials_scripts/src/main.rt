//! Runs the scripts of its folder `data`, and compares what each prints with the file beside it.
//!
//! A line on standard input names a script, and how it is run: `NAME [--journal] [FILE.toml]`. Its
//! inputs are in
//! `NAME.script`, and `NAME.out` has what a terminal shows of `hcproxy replay`: the outputs, then the journal where
//! that is asked for, and why the run ended where it was refused. With `NAME --draw` it is what a terminal shows of
//! `hcproxy draw`, and with `NAME --story` of `hcproxy story`.
#![tactic(auto)]

ghost use Rattle.proxy_settings.specs.Files.{IsOf};
ghost use Rattle.std.specs.Prelude.{IfOk};

use ask_model::Settings;
use command_line::{Report, demonstration, followed};
use journal_picture::draw;
use proxy_settings::{FileFault, Part, Setup, read_setup};
use script_runs::replay;
use std::alloc::Global;
use std::fs;
use std::io::{self, BufRead, BufReader, Write};
use std::process::ExitCode;
use std::rt::Files;
use story_runs::tell_story;

/// How a script is run.
#[derive(Clone, Copy)]
struct Row<'a> {
    name: &'a str,
    journal: bool,
    /// Whether it is a journal that is drawn.
    draw: bool,
    /// Whether it is a story that is told.
    story: bool,
    /// The file of its settings, or none for those of the demonstration.
    settings: Option<&'a str>,
}

/// The row that a line names.
fn row_of(line: &str) -> Row<'_> {
    let mut row = Row {
        name: "",
        journal: false,
        draw: false,
        story: false,
        settings: None,
    };
    for (place, word) in line.split(' ').enumerate() {
        if place == 0 {
            row.name = word;
        } else if word == "--journal" {
            row.journal = true;
        } else if word == "--draw" {
            row.draw = true;
        } else if word == "--story" {
            row.story = true;
        } else {
            row.settings = Some(word);
        }
    }
    row
}

/// What a file has settings of: the part.
fn read<R: Files + AllocGlobal>(rt: &R, part: Part, path: &str) -> Result<Setup, FileFault>
    ensures { IfOk result (IsOf part) }
{
    match fs::open(rt, path) {
        Ok(file) => read_setup(rt.alloc(), part, file),
        Err(error) => Err(FileFault::Unread(error)),
    }
}

/// The settings of a file.
fn settings_in<'a, R: Files + AllocGlobal>(rt: &R, path: &'a str) -> Result<Settings, Report<'a>> {
    match read(rt, Part::Serve, path) {
        Ok(Setup::Serve(serve)) => Ok(followed(rt.alloc(), &serve)?),
        Ok(Setup::Origin(_)) => unreachable!(),
        Err(fault) => Err(Report::file(path, fault)),
    }
}

/// The settings that a row is run under.
fn settings_of<'a, R: Files + AllocGlobal>(rt: &R, row: Row<'a>) -> Result<Settings, Report<'a>> {
    match row.settings {
        Some(path) => settings_in(rt, path),
        None => demonstration(rt.alloc()).map_err(|fault| Report::replay(fault, None)),
    }
}

/// Runs the script of a row.
fn run<'a, R: Files + AllocGlobal, W: Write>(
    rt: &R,
    row: Row<'a>,
    script: &[u8],
    writer: &mut W,
) -> Result<(), Report<'a>> {
    if row.draw {
        return draw_to(rt.alloc(), script, writer);
    }
    if row.story {
        let told = tell_story(rt.alloc(), script, writer);
        return told.map_err(|untold| untold.report("standard input"));
    }
    let settings = settings_of(rt, row)?;
    let mut reader = script;
    replay(rt.alloc(), settings, &mut reader, writer, row.journal)
}

/// Writes the picture of a journal.
fn draw_to<'a, W: Write>(alloc: Global, journal: &[u8], writer: &mut W) -> Result<(), Report<'a>> {
    let page = match draw(alloc, journal) {
        Ok(page) => page,
        Err(fault) => return Err(Report::picture(fault)),
    };
    match writer.write_all(page.as_slice()) {
        Ok(()) => Ok(()),
        Err(_) => Err(Report::unprinted()),
    }
}

/// What a terminal shows of a row.
fn shown<R: Files + AllocGlobal>(rt: &R, row: Row<'_>, script: &[u8]) -> io::Result<Vec<u8>> {
    let mut out = Vec::new(rt.alloc());
    if let Err(report) = run(rt, row, script, &mut out) {
        writeln!(out, "{}", report.failure)?;
        if let Some(hint) = report.hint {
            writeln!(out, "{hint}")?;
        }
    }
    Ok(out)
}

/// The bytes of the file of a row with this ending.
fn file_of<R: Files + AllocGlobal>(rt: &R, name: &str, ending: &str) -> io::Result<Vec<u8>> {
    let path = format!(in rt.alloc(); "{name}.{ending}")?;
    fs::read(rt, path.as_str())
}

/// Whether a row prints what stands beside it.
fn holds<R: Files + AllocGlobal>(rt: &R, row: Row<'_>) -> io::Result<bool> {
    let script = file_of(rt, row.name, "script")?;
    let wanted = file_of(rt, row.name, "out")?;
    Ok(shown(rt, row, &script)?.as_slice() == wanted.as_slice())
}

/// Runs each row that a line names.
fn run_all<R: Input + Print + Files + AllocGlobal>(rt: &R) -> io::Result<()> {
    for line in BufReader::new(rt.alloc(), rt.reader())?.lines(rt.alloc()) {
        let line = line?;
        let row = row_of(line.as_str());
        let word = if holds(rt, row)? {
            "holds"
        } else {
            "prints something else"
        };
        println!(rt; "{} {word}", row.name)?;
    }
    Ok(())
}

fn main(rt: HostRuntime) -> ExitCode {
    match run_all(&rt) {
        Ok(()) => ExitCode::SUCCESS,
        Err(_) => ExitCode::FAILURE,
    }
}
