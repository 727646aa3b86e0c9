//! What `hcproxy demo` runs, and what it prints at first.

use std::fmt;
use std::net::{IpAddr, Ipv4Addr, SocketAddr};

/// Where the demonstration takes connections, if it can and no other place is named.
pub const WEB_PORT: u16 = 8080;

/// Where it shows how it does, if it can.
pub const WINDOW_PORT: u16 = 9090;

/// The port where the device of a demonstration takes messages, if it is free: the one that a
/// `coap` URI without a port means (RFC 7252 section 6.1).
pub const COAP_PORT: u16 = 5683;

/// The settings of its gateway. Which ports it takes is found out when it starts.
pub const GATEWAY: &str = r#"
listen = "127.0.0.1:8080"
udp = "127.0.0.1:56830"

[[origin]]
host = "demo.example.com"
address = "127.0.0.1"
"#;

/// The settings of its device: a lamp that keeps what is put, and a counter of what is posted.
pub const DEVICE: &str = r#"
listen = "127.0.0.1:5683"

[[resource]]
path = "lamp"
kind = "cell"
state = "off"

[[resource]]
path = "visits"
kind = "counter"
state = "0"
"#;

/// The port of this machine alone. A port of 0 is one that the system chooses.
pub fn loopback(port: u16) -> SocketAddr {
    SocketAddr::new(IpAddr::V4(Ipv4Addr::new(127, 0, 0, 1)), port)
}

/// Where a demonstration's gateway takes connections and shows how it does, and where its device
/// takes messages. Its text says so, and what to try.
#[derive(Clone, Copy)]
pub struct Demonstration {
    pub web: SocketAddr,
    pub window: SocketAddr,
    pub device: SocketAddr,
}

/// A device of this port, as a URL names it.
#[derive(Clone, Copy)]
struct Authority(u16);

impl fmt::Display for Authority {
    fn fmt<W: fmt::Write>(&self, f: &mut fmt::Formatter<W>) -> fmt::Result {
        match self.0 {
            COAP_PORT => f.write_str("demo.example.com"),
            port => write!(f, "demo.example.com:{port}"),
        }
    }
}

impl fmt::Display for Demonstration {
    fn fmt<W: fmt::Write>(&self, f: &mut fmt::Formatter<W>) -> fmt::Result {
        let (web, window) = (self.web, self.window);
        let (at, device) = (self.device, Authority(self.device.port()));
        write!(
            f,
            "The gateway is at http://{web}, and a device with a lamp and a counter at coap://{at}.
Try, in another terminal:

  curl -i http://{web}/hc/coap://{device}/lamp
      asks the device for the lamp: 200 OK, and off
  curl -i -X PUT -H Content-Type: -d on http://{web}/hc/coap://{device}/lamp
      changes it: 204 No Content, and from then on it is on
  curl -i -X POST http://{web}/hc/coap://{device}/visits
      counts one more: 200 OK, and how many there are now

and then, in a browser:

  http://{window}/
      shows how the gateway does, and where a request leads, what became of it

Both run until this is ended, with Ctrl-C."
        )
    }
}
