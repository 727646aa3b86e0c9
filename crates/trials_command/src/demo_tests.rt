//! The demonstration: its settings, and what it prints at first.

use command_line::{Command, DEVICE, Demonstration, GATEWAY, command_of, loopback};
use proxy_settings::{Part, Setup, read_setup};
use std::alloc::{AllocError, Global};
use std::net::SocketAddr;

/// What it prints where it has these two ports has each of the lines.
fn prints(alloc: Global, web: u16, device: u16, lines: &[&str]) -> Result<bool, AllocError> {
    let demonstration = Demonstration {
        web: loopback(web),
        window: loopback(9090),
        device: loopback(device),
    };
    let text = format!(in alloc; "{demonstration}")?;
    Ok(lines.iter().all(|line| text.contains(*line)))
}

#[test]
fn it_says_what_to_try(rt: HostRuntime) {
    let usual = [
        "  curl -i http://127.0.0.1:8080/hc/coap://demo.example.com/lamp\n",
        "  curl -i -X PUT -H Content-Type: -d on http://127.0.0.1:8080/hc/coap://demo.example.com/lamp\n",
        "  curl -i -X POST http://127.0.0.1:8080/hc/coap://demo.example.com/visits\n",
        "  http://127.0.0.1:9090/\n",
    ];
    assert!(rt; prints(rt.alloc(), 8080, 5683, &usual) == Ok(true));
    let other = ["  curl -i http://127.0.0.1:7/hc/coap://demo.example.com:56830/lamp\n"];
    assert!(rt; prints(rt.alloc(), 7, 56830, &other) == Ok(true));
}

/// The settings of the gateway name one device.
fn names_a_device(alloc: Global) -> bool {
    match read_setup(alloc, Part::Serve, GATEWAY.as_bytes()) {
        Ok(Setup::Serve(serve)) => serve.origins.as_slice().len() == 1,
        Ok(Setup::Origin(_)) | Err(_) => false,
    }
}

/// The settings of the device name a lamp and a counter.
fn has_resources(alloc: Global) -> bool {
    match read_setup(alloc, Part::Origin, DEVICE.as_bytes()) {
        Ok(Setup::Origin(device)) => device.resources.as_slice().len() == 2,
        Ok(Setup::Serve(_)) | Err(_) => false,
    }
}

/// What the words of the line ask for is the demonstration that takes connections there.
fn asks(alloc: Global, line: &str, listen: Option<SocketAddr>) -> Result<bool, AllocError> {
    let mut words = Vec::new(alloc);
    for word in line.split(' ') {
        words.push(String::from_str(alloc, word)?)?;
    }
    Ok(match command_of(&words) {
        Ok(Command::Demo { listen: Some(at) }) => {
            listen == Some(SocketAddr::new(at.address, at.port))
        }
        Ok(Command::Demo { listen: None }) => listen.is_none(),
        _ => false,
    })
}

#[test]
fn it_has_settings_and_may_be_given_an_address(rt: HostRuntime) {
    let alloc = rt.alloc();
    assert!(rt; names_a_device(alloc));
    assert!(rt; has_resources(alloc));
    assert!(rt; asks(alloc, "demo", None) == Ok(true));
    assert!(rt; asks(alloc, "demo 127.0.0.1:9000", Some(loopback(9000))) == Ok(true));
    assert!(rt; asks(alloc, "demo 9000", None) == Ok(false));
    assert!(rt; asks(alloc, "demo 127.0.0.1:9000 a.toml", None) == Ok(false));
}
