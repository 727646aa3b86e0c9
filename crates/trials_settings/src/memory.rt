//! A call that memory was refused says so, and once more gives the same.

use proxy_settings::{Part, Serve, Setup, SetupFault, settings_of};
use std::alloc::Global;

static TEXT: &str =
    "listen = '1.2.3.4:5'\nudp = '1.2.3.4:6'\n[[origin]]\nhost = 'A'\naddress = '192.0.2.1'\n[[origin]]\nhost = 'a'\naddress = '192.0.2.2'\n[[down]]\nfrom = 42\nto = 'text/plain'\nby = 'octets-hex'\n";

/// Whether these are the settings of the text.
fn are_its(serve: &Serve) -> bool {
    let hosts = serve.origins.as_slice();
    hosts.iter().all(|o| o.host.as_str() == "a" && !o.observe)
        && hosts.len() == 1
        && serve.base.as_str() == "/hc/"
        && serve.down.len() == 1
        && serve.up.len() == 0
}

fn are_read(alloc: Global) -> Result<bool, SetupFault> {
    match settings_of(alloc, Part::Serve, TEXT)? {
        Setup::Serve(serve) => Ok(are_its(&serve)),
        Setup::Origin(_) => Ok(false),
    }
}

/// The same, once more where memory was refused.
fn are_read_again(alloc: Global) -> bool {
    match are_read(alloc) {
        Err(SetupFault::Memory) => are_read(alloc).unwrap_or(false),
        read => read.unwrap_or(false),
    }
}

/// With any one allocation refused, the settings are given, at the latest when asked once more.
#[test]
fn memory_refused_once(rt: HostRuntime) {
    assert!(rt; are_read_again(rt.alloc()));
}
