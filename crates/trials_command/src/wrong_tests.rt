//! What is told of words that ask for nothing.

use crate::setting_tests::told;
use command_line::{Report, USAGE, command_of};
use std::alloc::{AllocError, Global};

/// Lines of words, and what is wrong with each.
const WRONG: [(&str, &str); 25] = [
    ("bogus", "bogus: no such command"),
    ("--journal replay", "--journal: no such command"),
    (
        "serve a.toml --idle 0",
        "--idle 0: no number of seconds from 1 to 86400",
    ),
    (
        "serve a.toml --idle 86401",
        "--idle 86401: no number of seconds from 1 to 86400",
    ),
    (
        "serve a.toml --idle 5s",
        "--idle 5s: no number of seconds from 1 to 86400",
    ),
    (
        "serve a.toml --held-bytes 64M",
        "--held-bytes 64M: no number from 1048576 to 134217728",
    ),
    (
        "serve --threads --held-bytes 1048576",
        "--held-bytes: not with --threads",
    ),
    (
        "serve a.toml --idle",
        "--idle: what comes after it is missing",
    ),
    (
        "serve --journals",
        "--journals: what comes after it is missing",
    ),
    (
        "serve a.toml --status 9090",
        "9090: no address and port, as 127.0.0.1:8080 is",
    ),
    (
        "serve a.toml --status-bodies",
        "--status-bodies: only with --status",
    ),
    ("serve --acces", "--acces: not taken here"),
    ("serve a.toml --acces", "--acces: not taken here"),
    ("serve a.toml b.toml", "b.toml: not taken here"),
    ("serve --access --access", "--access: not taken here"),
    ("serve --loop --threads", "--threads: not taken here"),
    (
        "serve --idle 5 --threads a.toml --journals past",
        "--journals: not with --threads",
    ),
    (
        "serve --threads --access a.toml",
        "--access: not with --threads",
    ),
    (
        "serve a.toml --threads --status 127.0.0.1:9090",
        "--status: not with --threads",
    ),
    (
        "serve --status 127.0.0.1:9090 --status-bodies --threads a.toml",
        "--status: not with --threads",
    ),
    (
        "demo 127.0.0.1",
        "127.0.0.1: no address and port, as 127.0.0.1:8080 is",
    ),
    (
        "replay --settings",
        "--settings: what comes after it is missing",
    ),
    ("check --origin", "check: what comes after it is missing"),
    ("check --orign a.toml", "--orign: not taken here"),
    ("draw a.html", "a.html: not taken here"),
];

fn wrong() -> &'static [(&'static str, &'static str)] {
    &WRONG
}

/// Whether the words of the line are answered by the usage, and by what is wrong with them.
fn is_told(alloc: Global, line: &str, wrong: &str) -> Result<bool, AllocError> {
    let mut words = Vec::new(alloc);
    for word in line.split(' ') {
        words.push(String::from_str(alloc, word)?)?;
    }
    let Err(found) = command_of(&words) else {
        return Ok(false);
    };
    let printed = told(alloc, Report::arguments(found))?;
    let lines = format!(in alloc; "{USAGE}\nhcproxy: {wrong}; --help says more\n2")?;
    Ok(printed.as_str() == lines.as_str())
}

#[test]
fn what_is_wrong_with_words_is_told(rt: HostRuntime) {
    for &(line, wrong) in wrong() {
        assert!(rt; is_told(rt.alloc(), line, wrong) == Ok(true), "{line}");
    }
}
