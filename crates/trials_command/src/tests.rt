//! What words ask for, and scripts on devices that give little or fail.

use crate::devices::{Tape, Trickle, Trouble};
use crate::rows::{PIPELINED, Row};
use crate::setting_tests::told;
use command_line::{Command, ReplayFault, Report, Serving, command_of, demonstration};
use proxy_settings::Part;
use script_runs::replay;
use std::alloc::{AllocError, Global};
use std::net::{IpAddr, Ipv4Addr};
use uri_map::Peer;

/// Runs a script on devices with this trouble, and keeps what it prints.
fn run_on(
    alloc: Global,
    script: &str,
    trouble: Trouble,
    tape: &mut Tape,
) -> Result<(), Report<'static>> {
    let settings = demonstration(alloc).map_err(|fault| Report::replay(fault, None))?;
    let mut trickle = Trickle::new(script, trouble);
    replay(alloc, settings, &mut trickle, tape, true)
}

/// What a script on devices with this trouble is told at its end.
fn end_on(alloc: Global, script: &str, trouble: Trouble) -> Result<String, AllocError> {
    let mut tape = Tape::new(alloc, trouble);
    match run_on(alloc, script, trouble, &mut tape) {
        Ok(()) => Ok(String::new(alloc)),
        Err(report) => told(alloc, report),
    }
}

/// Whether a script on devices with this trouble is told this at its end.
fn ends_so(alloc: Global, script: &str, trouble: Trouble, lines: &str) -> bool {
    end_on(alloc, script, trouble).is_ok_and(|text| text.as_str() == lines)
}

#[test]
fn failed_devices_are_told(rt: HostRuntime) {
    let unread = "hcproxy: device failed\nhcproxy: standard input can't be read to its end\n3";
    assert!(rt; ends_so(rt.alloc(), "0 0 open\n0 0 op", Trouble::Reading, unread));
    let unwritten = "hcproxy: device failed\nhcproxy: standard output can't be written\n3";
    assert!(rt;
        ends_so(
            rt.alloc(),
            "0 0 open\n0 0 open\n",
            Trouble::Writing,
            unwritten
        )
    );
}

/// Whether a script that comes byte by byte prints, before its journal, what it has to.
fn comes_in_bytes(alloc: Global, row: &Row) -> bool {
    let mut tape = Tape::new(alloc, Trouble::None);
    let end = run_on(alloc, row.script, Trouble::None, &mut tape);
    end.is_ok() && tape.bytes.as_slice().starts_with(row.printed.as_bytes())
}

static IN_BYTES: Row = PIPELINED;

/// The row, handed out by a call that says nothing of it: what calls that is proved in less time.
fn in_bytes() -> &'static Row {
    &IN_BYTES
}

#[test]
fn a_script_may_come_byte_by_byte(rt: HostRuntime) {
    assert!(rt; comes_in_bytes(rt.alloc(), in_bytes()));
}

/// What a line of words asks for, or None where it is answered by the usage.
static COMMANDS: [(&str, Option<Command<'static>>); 59] = [
    ("replay", RUN),
    (
        "replay --journal",
        Some(Command::Replay {
            journal: true,
            settings: None,
        }),
    ),
    (
        "replay --settings a.toml",
        Some(Command::Replay {
            journal: false,
            settings: Some("a.toml"),
        }),
    ),
    ("replay --journal --settings a.toml", BOTH),
    ("replay --settings a.toml --journal", BOTH),
    (
        "check a.toml",
        Some(Command::Check {
            part: Part::Serve,
            file: "a.toml",
        }),
    ),
    (
        "check --origin a.toml",
        Some(Command::Check {
            part: Part::Origin,
            file: "a.toml",
        }),
    ),
    ("replay --help", Some(Command::Help)),
    ("-h", Some(Command::Help)),
    ("--version", Some(Command::Version)),
    (
        "serve",
        Some(Command::Serve(Serving {
            settings: None,
            ..PLAIN
        })),
    ),
    ("serve a.toml", Some(Command::Serve(PLAIN))),
    ("serve a.toml --journals past", KEPT),
    ("serve --journals past a.toml", KEPT),
    ("serve --access --idle 5 a.toml --journals past", WATCHED),
    ("serve a.toml --journals past --idle 5 --access", WATCHED),
    ("serve --status 127.0.0.1:9090 a.toml", SHOWN),
    ("serve a.toml --status 127.0.0.1", None),
    ("serve a.toml --status", None),
    (
        "serve --status 127.0.0.1:9090 --status-bodies a.toml",
        BARED,
    ),
    ("serve a.toml --status-bodies", None),
    (
        "serve a.toml --status-bodies --status 127.0.0.1:9090 --status-bodies",
        None,
    ),
    ("serve a.toml --access --access", None),
    ("serve a.toml --idle", None),
    ("serve a.toml --idle 0", None),
    ("serve a.toml --idle 86401", None),
    ("serve a.toml --idle 5s", None),
    ("serve a.toml --held-bytes 1048576", LITTLE),
    ("serve a.toml --held-bytes 1048575", None),
    ("serve a.toml --held-bytes 134217729", None),
    ("serve --threads --held-bytes 1048576", None),
    ("serve a.toml b.toml", None),
    ("serve a.toml --journals", None),
    ("serve --journals", None),
    (
        "serve --threads",
        Some(Command::Serve(Serving {
            settings: None,
            looped: false,
            ..PLAIN
        })),
    ),
    ("serve --idle 5 --threads a.toml", THREADED),
    ("serve --threads --idle 5 a.toml", THREADED),
    ("serve --idle 5 --threads a.toml --journals past", None),
    ("serve --threads --access a.toml", None),
    ("serve a.toml --threads --status 127.0.0.1:9090", None),
    ("serve a.toml --threads --idle 0", None),
    ("serve a.toml --loop", Some(Command::Serve(PLAIN))),
    ("serve --loop a.toml", Some(Command::Serve(PLAIN))),
    ("serve --loop --loop", None),
    ("serve --loop --threads", None),
    ("serve --threads --threads", None),
    ("origin", Some(Command::Origin { settings: None })),
    (
        "origin a.toml",
        Some(Command::Origin {
            settings: Some("a.toml"),
        }),
    ),
    ("origin a.toml b.toml", None),
    ("replay --journal --journal", None),
    ("replay --settings", None),
    ("replay --settings a.toml b.toml", None),
    ("replay a.toml", None),
    ("--journal replay", None),
    ("check", None),
    ("check a.toml b.toml", None),
    ("draw", Some(Command::Draw)),
    ("draw a.html", None),
    ("reply", None),
];

const RUN: Option<Command<'static>> = Some(Command::Replay {
    journal: false,
    settings: None,
});

const BOTH: Option<Command<'static>> = Some(Command::Replay {
    journal: true,
    settings: Some("a.toml"),
});

const PLAIN: Serving<'static> = Serving {
    settings: Some("a.toml"),
    journals: None,
    access: false,
    idle: None,
    held: None,
    status: None,
    bodies: false,
    looped: true,
};

const KEPT: Option<Command<'static>> = Some(Command::Serve(Serving {
    journals: Some("past"),
    ..PLAIN
}));

const WATCHED: Option<Command<'static>> = Some(Command::Serve(Serving {
    journals: Some("past"),
    access: true,
    idle: Some(5),
    ..PLAIN
}));

const LITTLE: Option<Command<'static>> = Some(Command::Serve(Serving {
    held: Some(1_048_576),
    ..PLAIN
}));

const SHOWN: Option<Command<'static>> = Some(Command::Serve(Serving {
    status: Some(Peer {
        address: IpAddr::V4(Ipv4Addr::LOCALHOST),
        port: 9090,
    }),
    ..PLAIN
}));

const BARED: Option<Command<'static>> = Some(Command::Serve(Serving {
    status: Some(Peer {
        address: IpAddr::V4(Ipv4Addr::LOCALHOST),
        port: 9090,
    }),
    bodies: true,
    ..PLAIN
}));

const THREADED: Option<Command<'static>> = Some(Command::Serve(Serving {
    idle: Some(5),
    looped: false,
    ..PLAIN
}));

fn commands() -> &'static [(&'static str, Option<Command<'static>>)] {
    &COMMANDS
}

/// The words of the line ask for this.
fn asks(alloc: Global, line: &str, asked: Option<Command<'static>>) -> Result<bool, AllocError> {
    let mut words = Vec::new(alloc);
    for word in line.split(' ') {
        words.push(String::from_str(alloc, word)?)?;
    }
    Ok(command_of(&words).ok() == asked)
}

#[test]
fn words_ask_for_a_command(rt: HostRuntime) {
    for &(line, asked) in commands() {
        assert!(rt; asks(rt.alloc(), line, asked) == Ok(true), "{line}");
    }
}
