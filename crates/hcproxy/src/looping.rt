//! `hcproxy serve`: the gateway as one loop, in one thread, by the settings of a file.

use crate::files::serve_at;
use crate::journals::Folder;
use crate::notes::{Notes, noted};
use ask_model::Settings;
use command_line::{Report, Serving, followed};
use log::{Log, info};
use loop_system::{Options, Payloads, Ports, ServeFault, run};
use proxy_settings::Serve;
use std::net::{Net, SocketAddr, TcpListener, TcpStream};
use std::random::RandomSource;
use std::rt::{Clock, Files};
use std::sync::Wait;
use std::thread::Threads;
use uri_map::Peer;

/// What is noted where whoever reaches the gateway may have any address asked.
const ANY_ADDRESS: &str = "other hosts can have any address asked, since literals = true: \
    literals = false leaves only the devices of the settings";

/// Runs the gateway by the settings of a file, or else by those on standard input, until the clock or
/// the sockets fail. Journals go into the folder, where one is named. Who looks at it is served by
/// threads.
pub fn serve_loop<
    'a,
    R: Net<Listener = TcpListener, Stream = TcpStream>
        + Threads
        + Wait
        + Log
        + Clock
        + RandomSource
        + Input
        + Eprint
        + Files
        + AllocGlobal
        + Copy
        + Drop
        + Send
        + Sync
        + 'static,
>(rt: R, host: HostRuntime, serving: Serving<'a>) -> Report<'a> {
    let options = options_of(serving);
    match opened(&rt, host, serving) {
        Ok((ports, settings, folder)) => {
            Report::serve(keep_on(rt, ports, settings, options, folder))
        }
        Err(report) => report,
    }
}

/// How the gateway is to run.
pub fn options_of(serving: Serving<'_>) -> Options {
    let plain = Options::default();
    Options {
        access: serving.access,
        idle: serving.idle.unwrap_or(plain.idle),
        held: serving.held.unwrap_or(plain.held),
        payloads: if serving.bodies {
            Payloads::Shown
        } else {
            Payloads::Hidden
        },
    }
}

/// Runs the gateway, and gives its journals to the folder.
fn keep_on<
    R: Net
        + Threads
        + Wait
        + Log
        + Clock
        + RandomSource
        + Eprint
        + AllocGlobal
        + Copy
        + Drop
        + Send
        + Sync
        + 'static,
>(rt: R, ports: Ports, settings: Settings, options: Options, folder: Folder) -> ServeFault {
    run(&rt, noted(rt), rt.alloc(), ports, settings, options, folder)
}

/// The ports that the settings name, taken, what the gateway goes by, and where its journals go.
fn opened<
    'a,
    R: Net<Listener = TcpListener, Stream = TcpStream>
        + Clock
        + Input
        + Eprint
        + Files
        + AllocGlobal
        + Copy,
>(
    rt: &R,
    host: HostRuntime,
    serving: Serving<'a>,
) -> Result<(Ports, Settings, Folder), Report<'a>> {
    let (settings, listen, udp) = addressed(rt, serving.settings)?;
    let folder = folder_of(host, serving.journals)?;
    let ports = told(Ports::bind(rt, listen, udp))?;
    let ports = match serving.status {
        Some(at) => told(ports.with_window(rt, socket_of(at)))?,
        None => ports,
    };
    Ok((ports, settings, folder))
}

/// What was taken, or the report of why it wasn't.
pub fn told<'a, P>(taken: Result<P, ServeFault>) -> Result<P, Report<'a>> {
    match taken {
        Ok(ports) => Ok(ports),
        Err(fault) => Err(Report::serve(fault)),
    }
}

/// What the gateway goes by, by the settings of a file or of standard input, and which addresses it
/// takes: of connections, and of datagrams.
pub fn addressed<'a, R: Clock + Input + Eprint + Files + AllocGlobal + Copy>(
    rt: &R,
    path: Option<&'a str>,
) -> Result<(Settings, SocketAddr, SocketAddr), Report<'a>> {
    let serve = serve_at(rt, path)?;
    let (listen, udp) = (socket_of(serve.listen), socket_of(serve.udp));
    if asks_any_address(&serve) {
        let notes = Notes(*rt);
        info!(notes; target: "hcproxy", "{ANY_ADDRESS}");
    }
    match followed(rt.alloc(), &serve) {
        Ok(settings) => Ok((settings, listen, udp)),
        Err(_) => Err(Report::memory()),
    }
}

/// Whether hosts besides this one reach the gateway, and it asks any address that they name.
fn asks_any_address(serve: &Serve) -> bool {
    serve.literals && !serve.listen.address.is_loopback()
}

/// The folder of this path, or none.
fn folder_of(rt: HostRuntime, journals: Option<&str>) -> Result<Folder, Report<'_>> {
    match Folder::new(rt, journals) {
        Ok(folder) => Ok(folder),
        Err(error) => Err(Report::folder(journals.unwrap_or(""), error)),
    }
}

/// The address and the port of a socket.
fn socket_of(at: Peer) -> SocketAddr {
    SocketAddr::new(at.address, at.port)
}
