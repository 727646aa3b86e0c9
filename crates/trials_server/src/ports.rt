//! Addresses that can't be taken.

use gateway_server::Ports as ThreadPorts;
use loop_system::Ports;
use server_faults::ServeFault;
use std::test::Fail;
use trials_clients::any_port;

#[test]
fn a_taken_port_is_refused(rt: HostRuntime) -> Result<(), Fail> {
    let ports = Ports::bind(&rt, any_port(), any_port())?;
    let listen = ports.listens_at()?;
    let refused = Ports::bind(&rt, listen, any_port());
    assert!(rt; matches!(refused, Err(ServeFault::Listen(at, _)) if at == listen));
    let udp = ports.sends_from()?;
    let refused = Ports::bind(&rt, any_port(), udp);
    assert!(rt; matches!(refused, Err(ServeFault::Udp(at, _)) if at == udp));
    let refused = Ports::bind(&rt, any_port(), any_port())?.with_window(&rt, listen);
    assert!(rt; matches!(refused, Err(ServeFault::Window(at, _)) if at == listen));
    Ok(())
}

#[test]
fn a_taken_port_is_refused_to_threads(rt: HostRuntime) -> Result<(), Fail> {
    let ports = ThreadPorts::bind(&rt, any_port(), any_port())?;
    let listen = ports.listens_at()?;
    let refused = ThreadPorts::bind(&rt, listen, any_port());
    assert!(rt; matches!(refused, Err(ServeFault::Listen(at, _)) if at == listen));
    let udp = ports.sends_from()?;
    let refused = ThreadPorts::bind(&rt, any_port(), udp);
    assert!(rt; matches!(refused, Err(ServeFault::Udp(at, _)) if at == udp));
    Ok(())
}
