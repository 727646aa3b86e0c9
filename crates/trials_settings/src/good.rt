//! Texts that are taken.

use crate::telling::first_wrong;
use proxy_settings::Part;

/// Texts of the proxy's settings, and what they stand for.
static SERVE: [(&str, &str); 9] = [
    (
        "listen = '127.0.0.1:8080'\nudp = '0.0.0.0:5700'\n",
        "127.0.0.1:8080 0.0.0.0:5700 /hc/ true false false",
    ),
    (
        "listen = '[2001:db8::1]:1'\nudp = '[::]:65535'\nbase = '/'\nliterals = false\nloose = true\npass = true\n",
        "[2001:db8:0:0:0:0:0:1]:1 [0:0:0:0:0:0:0:0]:65535 / false true true",
    ),
    (
        "udp = '192.0.2.9:00001'\nlisten = '192.0.2.9:1'\nbase = '/~a-b_c.d/E9/'\n",
        "192.0.2.9:1 192.0.2.9:1 /~a-b_c.d/E9/ true false false",
    ),
    // Of equal hosts, in any case, the first counts.
    (
        "listen = '1.2.3.4:5'\nudp = '1.2.3.4:6'\n[[origin]]\nhost = 'S.example.com'\naddress = '192.0.2.1'\n[[origin]]\nhost = 'o.example.com'\naddress = '2001:db8::2'\nobserve = true\n[[origin]]\nhost = 's.EXAMPLE.com'\naddress = '192.0.2.3'\nobserve = true\n",
        "1.2.3.4:5 1.2.3.4:6 /hc/ true false false; s.example.com 192.0.2.1 false; o.example.com 2001:db8::2 true",
    ),
    // An array of inline tables is an array of tables, and it may be empty.
    (
        "listen = '1.2.3.4:5'\nudp = '1.2.3.4:6'\norigin = [{host = 'a', address = '::1'}]\ndown = []\n",
        "1.2.3.4:5 1.2.3.4:6 /hc/ true false false; a ::1 false",
    ),
    (
        "listen = '1.2.3.4:5'\nudp = '1.2.3.4:6'\n[[down]]\nfrom = 60\nto = 'application/json'\nby = 'cbor-json'\n[[up]]\nfrom = 'application/json'\nto = 60\nby = 'json-cbor'\n",
        "1.2.3.4:5 1.2.3.4:6 /hc/ true false false; down 60 application/json CborJson; up application/json 60 JsonCbor",
    ),
    (
        "listen = '1.2.3.4:5'\nudp = '1.2.3.4:6'\n[[down]]\nfrom = 42\nto = 'text/plain;charset=us-ascii'\nby = 'octets-hex'\n",
        "1.2.3.4:5 1.2.3.4:6 /hc/ true false false; down 42 text/plain;charset=us-ascii OctetsHex",
    ),
    // A byte order mark, comments and quoted keys are TOML's own.
    (
        "\u{feff}# settings\n\"listen\" = \"\"\"1.2.3.4:5\"\"\"\nudp = \"1.2.3.4\\u003a6\" # port 6\n",
        "1.2.3.4:5 1.2.3.4:6 /hc/ true false false",
    ),
    (
        "listen = '1.2.3.4:5'\nudp = '1.2.3.4:6'\norigin = [{host = '\u{e9}', address = '0.0.0.0', observe = false}]\n",
        "1.2.3.4:5 1.2.3.4:6 /hc/ true false false; \u{e9} 0.0.0.0 false",
    ),
];

/// The table, handed out by a call that says nothing of its rows: a trial over it is proved in less
/// time.
fn serve() -> &'static [(&'static str, &'static str)] {
    &SERVE
}

/// Texts of the device's settings, and what they stand for.
static ORIGIN: [(&str, &str); 4] = [
    ("listen = '127.0.0.1:5683'\n", "127.0.0.1:5683 6"),
    (
        "listen = '[::1]:5683'\nblock = 0\n[[resource]]\npath = 'light'\nkind = 'cell'\n",
        "[0:0:0:0:0:0:0:1]:5683 0; light Cell '' 0 60",
    ),
    (
        "listen = '1.2.3.4:5'\n[[resource]]\npath = ''\nkind = 'counter'\nstate = '18446744073709551615'\nformat = 65535\nmax_age = 4294967295\n",
        "1.2.3.4:5 6;  Counter '18446744073709551615' 65535 4294967295",
    ),
    // Of equal paths the first counts.
    (
        "listen = '1.2.3.4:5'\nresource = [{path = 'a', kind = 'cell', state = 'x'}, {path = 'a', kind = 'counter'}, {path = 'A', kind = 'counter', max_age = 0}]\n",
        "1.2.3.4:5 6; a Cell 'x' 0 60; A Counter '' 0 0",
    ),
];

/// The same.
fn origin() -> &'static [(&'static str, &'static str)] {
    &ORIGIN
}

#[test]
fn proxies(rt: HostRuntime) {
    assert_eq!(rt; first_wrong(rt.alloc(), Part::Serve, serve()), None);
}

#[test]
fn devices(rt: HostRuntime) {
    assert_eq!(rt; first_wrong(rt.alloc(), Part::Origin, origin()), None);
}
