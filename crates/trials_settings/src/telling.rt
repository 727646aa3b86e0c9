//! Settings in one line, for comparison.

use media_map::Form;
use proxy_settings::{
    Device, Origin, Part, Resource, Route, Serve, Setup, SetupFault, settings_of,
};
use std::alloc::{AllocError, Global};

/// What a text stands for, or why it is refused. Like each call here, it passes on nothing of what
/// the one in it promises: a trial over it is proved in less time.
fn told(alloc: Global, part: Part, text: &str) -> Result<String, AllocError> {
    match settings_of(alloc, part, text) {
        Ok(Setup::Serve(serve)) => serve_told(alloc, &serve),
        Ok(Setup::Origin(device)) => device_told(alloc, &device),
        Err(SetupFault::Refused(reason)) => format!(in alloc; "{reason}"),
        Err(SetupFault::Memory) => Err(AllocError),
    }
}

/// Whether this is told of the text.
pub fn is_told(alloc: Global, part: Part, text: &str, line: &str) -> bool {
    match told(alloc, part, text) {
        Ok(told) => told.as_str() == line,
        Err(AllocError) => false,
    }
}

/// The first text of the rows of which something else is told.
pub fn first_wrong(
    alloc: Global,
    part: Part,
    rows: &'static [(&'static str, &'static str)],
) -> Option<&'static str> {
    for &(text, line) in rows {
        if !is_told(alloc, part, text, line) {
            return Some(text);
        }
    }
    None
}

fn serve_told(alloc: Global, serve: &Serve) -> Result<String, AllocError> {
    let (listen, udp, base) = (serve.listen, serve.udp, serve.base.as_str());
    let (literals, loose, pass) = (serve.literals, serve.policy.loose, serve.policy.pass);
    let mut line = format!(in alloc; "{listen} {udp} {base} {literals} {loose} {pass}")?;
    for origin in serve.origins.as_slice() {
        write_origin(alloc, &mut line, origin)?;
    }
    write_routes(alloc, &mut line, "; down ", serve.down.as_slice())?;
    write_routes(alloc, &mut line, "; up ", serve.up.as_slice())?;
    Ok(line)
}

fn write_origin(alloc: Global, line: &mut String, origin: &Origin) -> Result<(), AllocError> {
    let (host, address, observe) = (origin.host.as_str(), origin.address, origin.observe);
    let told = format!(in alloc; "; {host} {address} {observe}")?;
    line.push_str(told.as_str())
}

/// Each route after this mark.
fn write_routes(
    alloc: Global,
    line: &mut String,
    mark: &str,
    routes: &[Route],
) -> Result<(), AllocError> {
    for route in routes {
        line.push_str(mark)?;
        write_route(alloc, line, route)?;
    }
    Ok(())
}

fn write_route(alloc: Global, line: &mut String, route: &Route) -> Result<(), AllocError> {
    write_form(alloc, line, &route.from)?;
    line.push_str(" ")?;
    write_form(alloc, line, &route.to)?;
    let by = format!(in alloc; " {:?}", route.by)?;
    line.push_str(by.as_str())
}

fn write_form(alloc: Global, line: &mut String, form: &Form) -> Result<(), AllocError> {
    let told = form_told(alloc, form)?;
    line.push_str(told.as_str())
}

fn form_told(alloc: Global, form: &Form) -> Result<String, AllocError> {
    match form {
        Form::Format(number) => format!(in alloc; "{number}"),
        Form::Media(media) => format!(in alloc; "{media}"),
    }
}

fn device_told(alloc: Global, device: &Device) -> Result<String, AllocError> {
    let (listen, block) = (device.listen, device.block);
    let mut line = format!(in alloc; "{listen} {block}")?;
    for resource in device.resources.as_slice() {
        write_resource(alloc, &mut line, resource)?;
    }
    Ok(line)
}

fn write_resource(alloc: Global, line: &mut String, resource: &Resource) -> Result<(), AllocError> {
    let (path, state) = (resource.path.as_str(), resource.state.as_str());
    let (kind, format, max_age) = (resource.kind, resource.format, resource.max_age);
    let told = format!(in alloc; "; {path} {kind:?} '{state}' {format} {max_age}")?;
    line.push_str(told.as_str())
}
