//! The lines of figures.

ghost use Rattle.std.specs.Prelude.{◌≡◌, ◌++◌, OnOk};
ghost use Rattle.status_page.specs.Samples.{figure_line, label_escape, label_text, labelled_line};

use std::alloc::{AllocError, Global};

/// What kind of figures a family has.
#[derive(Clone, Copy)]
pub enum Kind {
    /// It goes up and down.
    Gauge,
    /// It goes up, or begins anew with the gateway.
    Counter,
}

/// Adds what stands for a byte in the value of a label.
fn add_escape(out: &mut Vec<u8>, byte: u8) -> Result<(), AllocError>
    ensures { OnOk result (out.new.items ≡ out.old.items ++ label_escape byte) }
{
    match byte {
        b'\\' => out.extend_from_slice(b"\\\\"),
        b'"' => out.extend_from_slice(b"\\\""),
        b'\n' => out.extend_from_slice(b"\\n"),
        _ => Ok(out.push(byte)?),
    }
}

/// Adds the value of a label.
fn add_label(out: &mut Vec<u8>, text: &[u8]) -> Result<(), AllocError>
    ensures { OnOk result (out.new.items ≡ out.old.items ++ label_text text.now) }
{
    'each: for byte in text {
        add_escape(out, *byte)?;
    }
    Ok(())
}

/// A text of figures that is being written.
#[derive(Drop)]
pub struct Text {
    pub alloc: Global,
    pub bytes: Vec<u8>,
}

impl Text {
    /// Adds what the figures of that name are.
    pub fn family(
        &mut self,
        name: &'static str,
        kind: Kind,
        help: &'static str,
    ) -> Result<(), AllocError> {
        let out = &mut self.bytes;
        out.extend_from_slice(b"# HELP ")?;
        out.extend_from_slice(name.as_bytes())?;
        out.push(b' ')?;
        out.extend_from_slice(help.as_bytes())?;
        out.extend_from_slice(b"\n# TYPE ")?;
        out.extend_from_slice(name.as_bytes())?;
        out.extend_from_slice(match kind {
            Kind::Gauge => b" gauge\n",
            Kind::Counter => b" counter\n",
        })
    }

    /// Adds a figure.
    pub fn figure(&mut self, name: &'static str, value: u64) -> Result<(), AllocError>
        ensures { OnOk result (self.new.bytes.items
            ≡ self.old.bytes.items ++ figure_line name.now value) }
    {
        let line = format!(in self.alloc; "{name} {value}\n")?;
        self.bytes.extend_from_slice(line.as_bytes())
    }

    /// Adds a figure of what the label says.
    pub fn labelled(
        &mut self,
        name: &'static str,
        label: &'static str,
        text: &str,
        value: u64,
    ) -> Result<(), AllocError>
        ensures { OnOk result (self.new.bytes.items
            ≡ self.old.bytes.items ++ labelled_line name.now label.now text.now value) }
    {
        let front = format!(in self.alloc; "{name}{{{label}=\"")?;
        let value = format!(in self.alloc; "\"}} {value}\n")?;
        let out = &mut self.bytes;
        out.extend_from_slice(front.as_bytes())?;
        add_label(out, text.as_bytes())?;
        out.extend_from_slice(value.as_bytes())
    }
}
