//! The files of `examples/`, with the same text.

use crate::telling::is_told;
use proxy_settings::Part;

static HCPROXY: &str =
    r#"# Settings of the proxy. Keys that may be left out stand here with what they are then.

# Where HTTP connections are taken: an address and a port from 1 to 65535.
listen = "127.0.0.1:8080"

# From where CoAP messages are sent. An IPv6 address stands in brackets, as in "[2001:db8::1]:5683".
udp = "0.0.0.0:56830"

# What a target begins with that names a CoAP resource: GET /hc/coap://s.example.com/light asks
# s.example.com for /light. Letters, digits and -._~/ between two slashes.
base = "/hc/"

# Whether addresses that stand in targets are taken as they are; false: only hosts listed below.
literals = true

# Whether a media type that CoAP doesn't know is sent as the nearest one that it knows.
loose = false

# Whether application/coap-payload is passed on by its number.
pass = false

# A device behind the proxy. There may be any number; of equal hosts the first counts.
[[origin]]
# Its name, in any case.
host = "s.example.com"
# Its address, without a port: the port stands in the target, or is 5683.
address = "192.0.2.1"
# Whether its resources may be observed, so that one observation serves many readers.
observe = false

[[origin]]
host = "o.example.com"
address = "192.0.2.2"
observe = true

[[origin]]
host = "meter.example.com"
address = "2001:db8::1"

# What is transformed on its way to a client: from a content format to a media type.
[[down]]
from = 60
to = "application/json"
# cbor-json takes CBOR, 60, to application/json; octets-hex takes bytes, 42, to any media type.
by = "cbor-json"

# What is transformed on its way to a device: from a media type to a content format.
[[up]]
from = "application/json"
to = 60
# json-cbor takes application/json to CBOR, 60.
by = "json-cbor"
"#;

static DEVICE: &str =
    r#"# Settings of the demonstration device. Keys that may be left out stand here with what they are then.

# Where CoAP messages are taken: an address and a port from 1 to 65535.
listen = "127.0.0.1:5683"

# The greatest block, as Block options write it: 0 for 16 bytes to 6 for 1,024 bytes.
block = 6

# A resource. There may be any number; of equal paths the first counts.
[[resource]]
# Its path: segments with / between them.
path = "light"
# A cell holds what was put last; a counter counts what was posted.
kind = "cell"
# What it holds at first, at most 65,536 bytes.
state = "on"
# The content format of its state: 0 is text, 50 is JSON, 60 is CBOR.
format = 0
# How many seconds its responses stay fresh.
max_age = 60

[[resource]]
path = "visits/today"
kind = "counter"
# The count at first, in decimal digits; nothing counts as 0.
state = ""
format = 0
max_age = 5
"#;

/// The text, handed out by a call that says nothing of it: a trial over it is proved in less time.
fn hcproxy() -> &'static str {
    HCPROXY
}

/// The same.
fn device_text() -> &'static str {
    DEVICE
}

#[test]
fn proxy(rt: HostRuntime) {
    let line =
        "127.0.0.1:8080 0.0.0.0:56830 /hc/ true false false; s.example.com 192.0.2.1 false; o.example.com 192.0.2.2 true; meter.example.com 2001:db8::1 false; down 60 application/json CborJson; up application/json 60 JsonCbor";
    assert!(rt; is_told(rt.alloc(), Part::Serve, hcproxy(), line));
}

#[test]
fn device(rt: HostRuntime) {
    let line = "127.0.0.1:5683 6; light Cell 'on' 0 60; visits/today Counter '' 0 5";
    assert!(rt; is_told(rt.alloc(), Part::Origin, device_text(), line));
}
