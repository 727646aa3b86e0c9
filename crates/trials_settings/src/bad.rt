//! Texts that are refused, and what is printed of them.

use crate::telling::is_told;
use proxy_settings::{Part, SetupFault, settings_of};
use std::alloc::{AllocError, Global};

/// What stands in front of each text of the proxy's settings below.
const PORTS: &str = "listen = '1.2.3.4:5'\nudp = '1.2.3.4:6'\n";

static SERVE: [(&str, &str); 41] = [
    ("colour = 'red'\n", "colour: unknown key"),
    ("'two words\\n' = 1\n", "two?words\\n: unknown key"),
    (
        "\"a\\nkey of more than forty bytes is cut to one line\" = 1\n",
        "a?key?of?more?than?forty?bytes?is?cut?to..: unknown key",
    ),
    (
        "base = 'hc/'\n",
        "base: not a path of letters, digits, -._~ and / between two /",
    ),
    (
        "base = '/hc'\n",
        "base: not a path of letters, digits, -._~ and / between two /",
    ),
    (
        "base = ''\n",
        "base: not a path of letters, digits, -._~ and / between two /",
    ),
    (
        "base = '/a%20b/'\n",
        "base: not a path of letters, digits, -._~ and / between two /",
    ),
    ("base = 1\n", "base: not a text"),
    ("literals = 'true'\n", "literals: neither true nor false"),
    ("loose = 1\n", "loose: neither true nor false"),
    ("origin = 1\n", "origin: not an array of tables"),
    (
        "origin = [{host = 'a', address = '::1'}, 7]\n",
        "origin: not an array of tables",
    ),
    (
        "[origin]\nhost = 'a'\naddress = '::1'\n",
        "origin: not an array of tables",
    ),
    ("[[origin]]\naddress = '::1'\n", "origin[0].host: missing"),
    (
        "[[origin]]\nhost = ''\naddress = '::1'\n",
        "origin[0].host: not a host's name of 1 to 255 bytes",
    ),
    (
        "[[origin]]\nhost = '192.0.2.1'\naddress = '::1'\n",
        "origin[0].host: not a host's name of 1 to 255 bytes",
    ),
    (
        "[[origin]]\nhost = 'a'\naddress = '::1'\n[[origin]]\nhost = 'b'\naddress = '::1'\n[[origin]]\nhost = 'a'\naddress = '192.0.2.01'\n",
        "origin[2].address: not an address",
    ),
    (
        "[[origin]]\nhost = 'a'\naddress = '[::1]'\n",
        "origin[0].address: not an address",
    ),
    (
        "[[origin]]\nhost = 'a'\naddress = '::ffff:192.0.2.1'\n",
        "origin[0].address: not an address",
    ),
    (
        "[[origin]]\nhost = 'a'\naddress = '::1'\nport = 1\n",
        "origin[0].port: unknown key",
    ),
    (
        "[[down]]\nfrom = 65536\nto = 'a/b'\nby = 'octets-hex'\n",
        "down[0].from: not a number from 0 to 65535",
    ),
    (
        "[[down]]\nfrom = 60\nto = 'text/plain'\nby = 'cbor-json'\n",
        "down[0].by: not a way between these two",
    ),
    (
        "[[up]]\nfrom = 'application/json'\nto = 60\nby = 'cbor-json'\n",
        "up[0].by: not a way between these two",
    ),
    (
        "[[down]]\nfrom = 42\nto = 'text'\nby = 'octets-hex'\n",
        "down[0].to: not a media type",
    ),
    (
        "[[down]]\nfrom = 42\nto = 'a/b'\nby = 'hex'\n",
        "down[0].by: none of cbor-json, json-cbor and octets-hex",
    ),
    (
        "[[down]]\nfrom = -1\nto = 'a/b'\nby = 'octets-hex'\n",
        "down[0].from: not a number from 0 to 65535",
    ),
    ("pass = 'no'\n", "pass: neither true nor false"),
    (
        "[[origin]]\nhost = 7\naddress = '::1'\n",
        "origin[0].host: not a text",
    ),
    (
        "[[origin]]\nhost = 'a'\naddress = 1\n",
        "origin[0].address: not a text",
    ),
    ("[[origin]]\nhost = 'a'\n", "origin[0].address: missing"),
    (
        "[[origin]]\nhost = 'a'\naddress = '::1'\nobserve = 'yes'\n",
        "origin[0].observe: neither true nor false",
    ),
    (
        "[[down]]\nfrom = '60'\nto = 'application/json'\nby = 'cbor-json'\n",
        "down[0].from: not a whole number",
    ),
    (
        "[[down]]\nto = 'a/b'\nby = 'octets-hex'\n",
        "down[0].from: missing",
    ),
    (
        "[[down]]\nfrom = 42\nto = 42\nby = 'octets-hex'\n",
        "down[0].to: not a text",
    ),
    (
        "[[down]]\nfrom = 60\nto = 'application/json'\nby = 3\n",
        "down[0].by: not a text",
    ),
    (
        "[[down]]\nfrom = 60\nto = 'application/json'\nby = 'json-cbor'\n",
        "down[0].by: not a way between these two",
    ),
    (
        "[[up]]\nfrom = 'application/json'\nto = 60\n",
        "up[0].by: missing",
    ),
    (
        "[[up]]\nfrom = 'application/json'\nto = 60\nby = 'json-cbor'\nq = 1\n",
        "up[0].q: unknown key",
    ),
    (
        "[[up]]\nfrom = 'application/json'\nto = 65536\nby = 'json-cbor'\n",
        "up[0].to: not a number from 0 to 65535",
    ),
    (
        "[[up]]\nfrom = 'application/json'\nto = 50\nby = 'json-cbor'\n",
        "up[0].by: not a way between these two",
    ),
    (
        "[[up]]\nfrom = 'text/plain'\nto = 42\nby = 'octets-hex'\n",
        "up[0].by: not a way between these two",
    ),
];

/// The table, handed out by a call that says nothing of its rows: a loop over it is proved in less
/// time.
fn serve() -> &'static [(&'static str, &'static str)] {
    &SERVE
}

/// Whole texts, of either part.
static WHOLE: [(Part, &str, &str); 23] = [
    (Part::Serve, "", "listen: missing"),
    (Part::Serve, "listen = '1.2.3.4:5'\n", "udp: missing"),
    (
        Part::Serve,
        "listen = '1.2.3.4:0'\n",
        "listen: not an address and a port from 1 to 65535",
    ),
    (
        Part::Serve,
        "listen = '1.2.3.4'\n",
        "listen: not an address and a port from 1 to 65535",
    ),
    (
        Part::Serve,
        "listen = 'localhost:80'\n",
        "listen: not an address and a port from 1 to 65535",
    ),
    (Part::Serve, "listen = 8080\n", "listen: not a text"),
    (
        Part::Serve,
        "listen = '1.2.3.4:5'\nlisten = '1.2.3.4:6'\n",
        "line 2: duplicate key",
    ),
    (
        Part::Serve,
        "listen '1.2.3.4:5'\n",
        "line 1: key with no value, expected `=`",
    ),
    (
        Part::Origin,
        "listen = '1.2.3.4:5'\nudp = '1.2.3.4:6'\n",
        "udp: unknown key",
    ),
    (
        Part::Origin,
        "listen = '1.2.3.4:5'\nblock = 7\n",
        "block: not a number from 0 to 6",
    ),
    (
        Part::Origin,
        "listen = '1.2.3.4:5'\nblock = 1.0\n",
        "block: not a whole number",
    ),
    (
        Part::Origin,
        "listen = '1.2.3.4:5'\n[[resource]]\npath = 'a'\nkind = 'bell'\n",
        "resource[0].kind: neither cell nor counter",
    ),
    (
        Part::Origin,
        "listen = '1.2.3.4:5'\n[[resource]]\npath = 'a'\nkind = 'cell'\nmax_age = 4294967296\n",
        "resource[0].max_age: not a number from 0 to 4294967295",
    ),
    (
        Part::Serve,
        "listen = '1.2.3.4:5'\nudp = ['1.2.3.4:6']\n",
        "udp: not a text",
    ),
    (Part::Origin, "", "listen: missing"),
    (
        Part::Origin,
        "listen = '1.2.3.4:5'\nblock = -1\n",
        "block: not a number from 0 to 6",
    ),
    (
        Part::Origin,
        "listen = '1.2.3.4:5'\nresource = 'a'\n",
        "resource: not an array of tables",
    ),
    (
        Part::Origin,
        "listen = '1.2.3.4:5'\n[[resource]]\nkind = 'cell'\n",
        "resource[0].path: missing",
    ),
    (
        Part::Origin,
        "listen = '1.2.3.4:5'\n[[resource]]\npath = 'a'\n",
        "resource[0].kind: missing",
    ),
    (
        Part::Origin,
        "listen = '1.2.3.4:5'\n[[resource]]\npath = 'a'\nkind = 'cell'\nstate = 1\n",
        "resource[0].state: not a text",
    ),
    (
        Part::Origin,
        "listen = '1.2.3.4:5'\n[[resource]]\npath = 'a'\nkind = 'cell'\nformat = 65536\n",
        "resource[0].format: not a number from 0 to 65535",
    ),
    (
        Part::Origin,
        "listen = '1.2.3.4:5'\n[[resource]]\npath = 'a'\nkind = 'cell'\nmax_age = '60'\n",
        "resource[0].max_age: not a whole number",
    ),
    (
        Part::Origin,
        "listen = '1.2.3.4:5'\n[[resource]]\npath = 'a'\nkind = 'cell'\ncolour = 'red'\n",
        "resource[0].colour: unknown key",
    ),
];

/// The same.
fn whole() -> &'static [(Part, &'static str, &'static str)] {
    &WHOLE
}

/// This is told of the proxy's settings with two ports in front of the text.
fn is_refused(alloc: Global, rest: &str, line: &str) -> bool {
    match format!(in alloc; "{PORTS}{rest}") {
        Ok(text) => is_told(alloc, Part::Serve, text.as_str(), line),
        Err(AllocError) => false,
    }
}

#[test]
fn refused(rt: HostRuntime) {
    for &(rest, line) in serve() {
        assert!(rt; is_refused(rt.alloc(), rest, line), "{rest}");
    }
}

#[test]
fn refused_wholly(rt: HostRuntime) {
    for &(part, text, line) in whole() {
        assert!(rt; is_told(rt.alloc(), part, text, line), "{text}");
    }
}

/// A cell that holds so many bytes.
fn cell(alloc: Global, len: usize) -> Result<String, AllocError> {
    let mut text = String::from_str(
        alloc,
        "listen = '1.2.3.4:5'\nresource = [{path = 'a', kind = 'cell', state = '",
    )?;
    for _ in 0..len {
        text.push('x')?;
    }
    text.push_str("'}]\n")?;
    Ok(text)
}

fn is_taken(alloc: Global, text: &str) -> bool {
    settings_of(alloc, Part::Origin, text).is_ok()
}

#[test]
fn states_have_an_end(rt: HostRuntime) {
    let alloc = rt.alloc();
    let most = cell(alloc, 65536).expect(&rt, "memory");
    assert!(rt; is_taken(alloc, most.as_str()));
    let more = cell(alloc, 65537).expect(&rt, "memory");
    let line = "resource[0].state: above 65,536 bytes";
    assert!(rt; is_told(alloc, Part::Origin, more.as_str(), line));
}

/// The number of the fault of a text without settings.
fn number_of_nothing(alloc: Global) -> Option<u8> {
    let fault = settings_of(alloc, Part::Serve, "").err()?;
    Some(fault.number())
}

#[test]
fn numbers(rt: HostRuntime) {
    assert!(rt; number_of_nothing(rt.alloc()) == Some(1));
    assert!(rt; SetupFault::Memory.number() == 2);
}
