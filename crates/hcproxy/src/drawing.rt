//! `hcproxy draw`: a picture of the journal on standard input.

use command_line::Report;
use journal_picture::draw;
use std::io::{ErrorKind, Read, Write};

/// Reads the lines that `replay --journal` prints, and prints a page with their picture.
pub fn draw_input<R: Input + Print + AllocGlobal>(rt: &R) -> Result<(), Report<'static>> {
    let mut bytes = Vec::new(rt.alloc());
    match rt.reader().read_to_end(&mut bytes) {
        Ok(_) => {}
        Err(error) if error.kind() == ErrorKind::OutOfMemory => return Err(Report::memory()),
        Err(_) => return Err(Report::unread()),
    }
    let page = match draw(rt.alloc(), &bytes) {
        Ok(page) => page,
        Err(fault) => return Err(Report::picture(fault)),
    };
    let mut writer = std::io::writer(rt);
    match writer.write_all(page.as_slice()).and(writer.flush()) {
        Ok(()) => Ok(()),
        Err(_) => Err(Report::unprinted()),
    }
}
