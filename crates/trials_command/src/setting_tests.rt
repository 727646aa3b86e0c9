//! Files of settings: which servers may be observed, and what is told of those that can't be read.

use command_line::{Report, followed};
use proxy_settings::{FileFault, Part, Serve, Setup, read_setup};
use std::alloc::{AllocError, Global};
use std::io::{Error, ErrorKind};

/// Settings with another base and one device, and without devices by address.
const OTHER: &str =
    "listen = '127.0.0.1:8080'\nudp = '0.0.0.0:5700'\nbase = '/api/'\nliterals = false\n[[origin]]\nhost = 'Lamp.example.com'\naddress = '192.0.2.7'\n";

/// The settings of the proxy that a text stands for.
fn serve_of(alloc: Global, text: &str) -> Option<Serve> {
    match read_setup(alloc, Part::Serve, text.as_bytes()) {
        Ok(Setup::Serve(serve)) => Some(serve),
        Ok(Setup::Origin(_)) | Err(_) => None,
    }
}

/// The first server that may be observed by the settings, if any may.
fn observed_first(alloc: Global, text: &str) -> Option<Option<String>> {
    let serve = serve_of(alloc, text)?;
    let settings = followed(alloc, &serve).ok()?;
    match settings.observed.as_slice() {
        [first, ..] => Some(Some(String::from_str(alloc, first.as_str()).ok()?)),
        [] => Some(None),
    }
}

/// By the settings this server alone, or none, may be observed first.
fn is_observed(alloc: Global, text: &str, name: Option<&str>) -> bool {
    match (observed_first(alloc, text), name) {
        (Some(Some(first)), Some(name)) => first.as_str() == name,
        (Some(None), None) => true,
        _ => false,
    }
}

#[test]
fn observation_is_asked_for(rt: HostRuntime) {
    let observed =
        "listen = '1.2.3.4:5'\nudp = '1.2.3.4:6'\norigin = [{host = 'a', address = '::1'}, {host = 'b', address = '::1', observe = true}]\n";
    assert!(rt; is_observed(rt.alloc(), OTHER, None));
    assert!(rt; is_observed(rt.alloc(), observed, Some("b")));
}

/// The lines and the status of a report.
pub fn told(alloc: Global, report: Report<'_>) -> Result<String, AllocError> {
    format!(in alloc; "{report}\n{}", report.failure.status())
}

/// The file `a.toml` with this fault is told so.
fn is_told(alloc: Global, fault: FileFault, lines: &str) -> bool {
    match told(alloc, Report::file("a.toml", fault)) {
        Ok(text) => text.as_str() == lines,
        Err(_) => false,
    }
}

#[test]
fn files_that_cannot_be_read_are_told(rt: HostRuntime) {
    let alloc = rt.alloc();
    let absent = FileFault::Unread(Error::from(ErrorKind::NotFound));
    assert!(rt; is_told(alloc, absent, "hcproxy: a.toml: no such file\n3"));
    let locked = FileFault::Unread(Error::from(ErrorKind::PermissionDenied));
    let lines = "hcproxy: device failed\nhcproxy: a.toml: permission denied\n3";
    assert!(rt; is_told(alloc, locked, lines));
    assert!(rt; is_told(alloc, FileFault::Memory, "hcproxy: out of memory\n3"));
}
