//! `hcproxy serve --threads`: the gateway with a thread for each connection, by a file's settings.

use crate::looping::{addressed, options_of, told};
use crate::notes::noted;
use ask_model::Settings;
use command_line::{Report, Serving};
use gateway_server::{Ports, run};
use log::Log;
use std::net::{Net, TcpListener, TcpStream};
use std::random::RandomSource;
use std::rt::{Clock, Files};
use std::sync::Wait;
use std::thread::Threads;
use std::time::Duration;

/// Runs the gateway by the settings of a file, or else by those on standard input, until a device
/// fails.
pub fn serve_threads<
    'a,
    R: Net<Listener = TcpListener, Stream = TcpStream>
        + Threads
        + Wait
        + Log
        + Clock
        + RandomSource
        + Input
        + Eprint
        + Files
        + AllocGlobal
        + Copy
        + Drop
        + Send
        + Sync
        + 'static,
>(rt: R, serving: Serving<'a>) -> Report<'a> {
    let patience = Duration::from_secs(options_of(serving).idle);
    match opened(&rt, serving.settings) {
        Ok((ports, settings)) => {
            let fault = run(noted(rt), rt.alloc(), ports, settings, patience);
            Report::serve(fault)
        }
        Err(report) => report,
    }
}

/// The ports that the settings name, taken, and what the gateway goes by.
fn opened<
    'a,
    R: Net<Listener = TcpListener, Stream = TcpStream>
        + Clock
        + Input
        + Eprint
        + Files
        + AllocGlobal
        + Copy,
>(rt: &R, path: Option<&'a str>) -> Result<(Ports, Settings), Report<'a>> {
    let (settings, listen, udp) = addressed(rt, path)?;
    let ports = told(Ports::bind(rt, listen, udp))?;
    Ok((ports, settings))
}
