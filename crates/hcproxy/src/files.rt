//! The settings that files have, or standard input where no file is named.

ghost use Rattle.std.specs.Prelude.{IfOk};
ghost use Rattle.proxy_settings.specs.Files.{IsOf};

use command_line::Report;
use proxy_settings::{Device, FileFault, Part, Serve, Setup, read_setup};
use std::alloc::Global;
use std::fs;
use std::rt::Files;

/// What a file is called: by its path, or as standard input.
fn name_of(path: Option<&str>) -> &str {
    path.unwrap_or("standard input")
}

/// The settings of the part.
pub fn setup_at<'a, R: Input + Files + AllocGlobal>(
    rt: &R,
    part: Part,
    path: Option<&'a str>,
) -> Result<Setup, Report<'a>>
    ensures { IfOk result (IsOf part) }
{
    match read(rt, part, path) {
        Ok(setup) => Ok(setup),
        Err(fault) => Err(Report::file(name_of(path), fault)),
    }
}

fn read<R: Input + Files + AllocGlobal>(
    rt: &R,
    part: Part,
    path: Option<&str>,
) -> Result<Setup, FileFault>
    ensures { IfOk result (IsOf part) }
{
    let Some(path) = path else {
        return read_setup(rt.alloc(), part, rt.reader());
    };
    match fs::open(rt, path) {
        Ok(file) => read_setup(rt.alloc(), part, file),
        Err(error) => Err(FileFault::Unread(error)),
    }
}

/// The settings of the gateway.
pub fn serve_at<'a, R: Input + Files + AllocGlobal>(
    rt: &R,
    path: Option<&'a str>,
) -> Result<Serve, Report<'a>> {
    match setup_at(rt, Part::Serve, path)? {
        Setup::Serve(serve) => Ok(serve),
        Setup::Origin(_) => unreachable!(),
    }
}

/// The settings of the demonstration device.
pub fn device_at<'a, R: Input + Files + AllocGlobal>(
    rt: &R,
    path: Option<&'a str>,
) -> Result<Device, Report<'a>> {
    match setup_at(rt, Part::Origin, path)? {
        Setup::Origin(device) => Ok(device),
        Setup::Serve(_) => unreachable!(),
    }
}

/// The settings of the part that are written here as a file has them.
pub fn setup_in(alloc: Global, part: Part, text: &str) -> Result<Setup, Report<'static>>
    ensures { IfOk result (IsOf part) }
{
    match read_setup(alloc, part, text.as_bytes()) {
        Ok(setup) => Ok(setup),
        Err(fault) => Err(Report::file("demo", fault)),
    }
}
