//! The program: `hcproxy demo` shows the gateway at work, `hcproxy serve` runs it, `hcproxy replay` runs a
//! script of inputs through it and prints what comes out, `hcproxy draw` makes a picture of the journal
//! that it prints, `hcproxy story` plays it with a network and a device and tells what happens,
//! `hcproxy origin` runs a device to try it with,
//! `hcproxy check` reads a file of settings; `--help` and `--version` tell of it.
#![tactic(auto)]

mod demo;
mod device;
mod drawing;
mod files;
mod journals;
mod looping;
mod notes;
mod replaying;
mod serving;
mod standard;
mod storying;

use command_line::{Command, Hint, Report, USAGE, command_of};
use demo::run_demo;
use device::serve_device;
use drawing::draw_input;
use files::setup_at;
use log::Log;
use looping::serve_loop;
use proxy_settings::Part;
use replaying::replay_input;
use serving::serve_threads;
use standard::filled;
use std::net::{Net, TcpListener, TcpStream};
use std::process::ExitCode;
use std::random::RandomSource;
use std::rt::{Clock, Env, Files};
use std::sync::Wait;
use std::thread::Threads;
use std::{env, io};
use storying::story_at;

/// What `--help` prints after the usage.
const HELP: &str = "
A gateway from HTTP/1.1 to CoAP.

  demo                    runs the gateway and a device to try it with, on this machine alone, and prints
                          what to try
  demo ADDRESS:PORT       .. and takes connections there
  serve FILE              runs the gateway by the settings of FILE, or of standard input without FILE
  serve FILE --journals FOLDER
                          .. and writes what happens to files in FOLDER, within a second
  serve FILE --access     .. and notes each answer: who asked for what, and what came of it
  serve FILE --held-bytes BYTES
                          .. and holds so much of what happened in memory, 1048576 to 134217728. 67108864
                          without it
  serve FILE --idle SECONDS
                          .. and waits so long for a client that stands still in a request, or doesn't
                          take its answer. 60 without it
  serve FILE --status ADDRESS:PORT
                          .. and shows how it does there, by HTTP: a page for people, /metrics for
                          Prometheus, /health, /journal. Whoever reaches the address may look
  serve FILE --status ADDRESS:PORT --status-bodies
                          .. and its journal there with what datagrams carry, which is hidden without it
  serve FILE --threads    .. by a thread for each connection, in place of one loop for all. Of the words
                          above it takes --idle, which says then how long a client has for its next
                          request, for the rest of it, and to take its answer
  replay                  runs the script on standard input through the gateway, and prints what goes out
  replay --journal        .. and then the entries of the journal
  replay --settings FILE  .. under the settings of FILE in place of those of a demonstration
  draw                    makes a picture of what replay --journal printed: reads that on standard input,
                          and prints a page of HTML
  story FILE              plays the story in FILE, or on standard input without FILE: a gateway, a device, and
                          a network between them that loses, repeats and delays; and tells what happens
  check FILE              says whether FILE has settings of the gateway, or what is wrong at which line
  check --origin FILE     the same of settings of the demonstration device
  origin FILE             runs a CoAP device to try the gateway with, by the settings of FILE, or of
                          standard input without FILE
  --help, -h              prints this
  --version, -V           prints the version

Exit status: 0 done; 1 a line of the input, or the settings, were refused; 2 wrong arguments;
3 a file can't be read, an address can't be taken, a device failed, or memory ran out.
docs/operate/ says how to run the gateway, docs/formats.md has the formats of scripts and settings,
and examples/ has some of both.";

/// What `--version` prints.
const VERSION: &str = "hcproxy 0.2.0";

/// Reads the words after the program's name.
fn words<R: Env + AllocGlobal>(rt: &R) -> Result<Vec<String>, Report<'static>> {
    match env::args(rt) {
        Ok(args) => Ok(args.skip(1).collect(rt.alloc())?),
        Err(_) => Err(Report::usage(Hint::SeeHelp)),
    }
}

/// A write of a text that failed is told as a failed device.
fn printed(outcome: io::Result<()>) -> Result<(), Report<'static>> {
    match outcome {
        Ok(()) => Ok(()),
        Err(_) => Err(Report::unprinted()),
    }
}

/// Says whether a file has settings.
fn check<'a, R: Input + Print + Files + AllocGlobal>(
    rt: &R,
    part: Part,
    path: &'a str,
) -> Result<(), Report<'a>> {
    let _setup = setup_at(rt, part, Some(path))?;
    printed(println!(rt; "settings ok"))?;
    Ok(())
}

/// Does what the words ask for. The thread that writes journals has the host's own runtime.
fn run<
    'a,
    R: Net<Listener = TcpListener, Stream = TcpStream>
        + Threads
        + Wait
        + Log
        + Clock
        + RandomSource
        + Input
        + Print
        + Eprint
        + Files
        + AllocGlobal
        + Copy
        + Drop
        + Send
        + Sync
        + 'static,
>(rt: R, host: HostRuntime, words: &'a [String]) -> Result<(), Report<'a>> {
    match command_of(words).map_err(Report::arguments)? {
        Command::Help => printed(println!(rt; "{USAGE}\n{HELP}")),
        Command::Version => printed(println!(rt; "{VERSION}")),
        Command::Demo { listen } => Err(run_demo(rt, listen)),
        Command::Serve(serving) if serving.looped => Err(serve_loop(rt, host, serving)),
        Command::Serve(serving) => Err(serve_threads(rt, serving)),
        Command::Origin { settings } => Err(serve_device(rt, settings)),
        Command::Check { part, file } => check(&rt, part, file),
        Command::Replay { journal, settings } => replay_input(rt, settings, journal),
        Command::Draw => draw_input(&rt),
        Command::Story { file } => story_at(rt, file),
    }
}

/// Tells why the program ends, and answers the exit status.
fn tell<R: Eprint>(rt: &R, report: Report<'_>) -> u8 {
    let _ = eprintln!(rt; "{report}");
    report.failure.status()
}

fn main(rt: HostRuntime) -> ExitCode {
    let _standard = (filled(&rt), filled(&rt), filled(&rt));
    let status = match words(&rt) {
        Err(report) => tell(&rt, report),
        Ok(words) => match run(rt, rt, &words) {
            Ok(()) => 0,
            Err(report) => tell(&rt, report),
        },
    };
    ExitCode::from(status)
}
