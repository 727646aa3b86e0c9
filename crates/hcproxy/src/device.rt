//! `hcproxy origin`: the demonstration device by the settings of a file.

use crate::files::device_at;
use crate::notes::noted;
use command_line::Report;
use device_server::{DevicePort, run};
use log::Log;
use proxy_settings::Device;
use std::net::{Net, SocketAddr};
use std::rt::{Clock, Files};

/// Runs the device by the settings of a file, or else by those on standard input, until its clock or its
/// socket fails.
pub fn serve_device<'a, R: Net + Log + Clock + Input + Eprint + Files + AllocGlobal + Copy + Drop>(
    rt: R,
    path: Option<&'a str>,
) -> Report<'a> {
    match opened(&rt, path) {
        Ok((port, device)) => Report::origin(run(noted(rt), rt.alloc(), port, &device)),
        Err(report) => report,
    }
}

/// The port that the settings name, taken, and the settings.
fn opened<'a, R: Net + Input + Files + AllocGlobal>(
    rt: &R,
    path: Option<&'a str>,
) -> Result<(DevicePort, Device), Report<'a>> {
    let device = device_at(rt, path)?;
    let at = SocketAddr::new(device.listen.address, device.listen.port);
    match DevicePort::bind(rt, at) {
        Ok(port) => Ok((port, device)),
        Err(fault) => Err(Report::origin(fault)),
    }
}
