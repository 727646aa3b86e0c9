//! What is told of a gateway that doesn't run.

use crate::setting_tests::told;
use command_line::Report;
use server_faults::ServeFault;
use std::io::{Error, ErrorKind};
use std::net::{IpAddr, Ipv4Addr, SocketAddr};
use std::test::Fail;

/// This port of the machine itself.
fn here(port: u16) -> SocketAddr {
    SocketAddr::new(IpAddr::V4(Ipv4Addr::new(127, 0, 0, 1)), port)
}

#[test]
fn a_gateway_that_does_not_run_is_told(rt: HostRuntime) -> Result<(), Fail> {
    let alloc = rt.alloc();
    let taken = Error::from(ErrorKind::AddrInUse);
    for (fault, lines) in [
        (
            ServeFault::Listen(here(8080), taken),
            "hcproxy: device failed\nhcproxy: listen: 127.0.0.1:8080: address in use\n3",
        ),
        (
            ServeFault::Udp(here(5683), taken),
            "hcproxy: device failed\nhcproxy: udp: 127.0.0.1:5683: address in use\n3",
        ),
        (
            ServeFault::Window(here(9090), taken),
            "hcproxy: device failed\nhcproxy: --status: 127.0.0.1:9090: address in use\n3",
        ),
        (
            ServeFault::Stopped,
            "hcproxy: device failed\nhcproxy: the clock or the UDP socket failed\n3",
        ),
        (ServeFault::Memory, "hcproxy: out of memory\n3"),
    ] {
        assert_eq!(rt; told(alloc, Report::serve(fault))?.as_str(), lines);
    }
    Ok(())
}
