//! The bytes of an answer (RFC 9112, sections 4 to 6).

ghost use Rattle.std.specs.Prelude.{◌≡◌, ◌<◌, ◌++◌, OnOk, IfOk};
ghost use Rattle.http_edge.specs.Answers.{answer_text, body_bytes, digits_of, field_line, status_line};
ghost use Rattle.std.specs.List.{flat_map};

use crate::memory::Memory;
use std::alloc::Global;
use std::sync::Arc;

/// A field of an answer.
#[derive(Drop)]
pub struct Field {
    pub name: &'static str,
    pub value: Vec<u8>,
}

/// A body that is shared, and moved only into the answer's bytes.
#[derive(Drop)]
pub enum Body {
    Empty,
    Owned(Vec<u8>),
    Shared(Arc<Vec<u8>>),
}

impl Body {
    /// Its bytes.
    pub fn as_slice(&self) -> &[u8]
        ensures { result.now ≡ body_bytes self.now }
    {
        match self {
            Body::Empty => &[],
            Body::Owned(bytes) => bytes,
            Body::Shared(bytes) => bytes,
        }
    }
}

/// An answer. Its fields say everything that is said of its body.
#[derive(Drop)]
pub struct HttpAnswer {
    /// Three digits.
    pub status: u16,
    pub phrase: &'static str,
    /// In the order in which they are sent, Content-Length among them.
    pub fields: Vec<Field>,
    pub body: Body,
}

/// The bytes of the answer, in one piece.
pub fn answer_bytes(alloc: Global, answer: &HttpAnswer) -> Result<Vec<u8>, Memory>
    requires { answer.now.status < 1000 }
    ensures { IfOk result (λ out. out.items ≡ answer_text answer.now) }
{
    let mut out = Vec::with_capacity(alloc, size_of(answer))?;
    add_status_line(&mut out, answer.status, answer.phrase)?;
    add_fields(&mut out, &answer.fields)?;
    out.extend_from_slice(b"\r\n")?;
    out.extend_from_slice(answer.body.as_slice())?;
    Ok(out)
}

/// Adds the status line.
fn add_status_line(out: &mut Vec<u8>, status: u16, phrase: &str) -> Result<(), Memory>
    requires { status < 1000 }
    ensures { OnOk result (out.new.items ≡ out.old.items ++ status_line status phrase.now) }
{
    out.extend_from_slice(b"HTTP/1.1 ")?;
    out.extend_from_slice(&digits(status))?;
    out.push(b' ')?;
    out.extend_from_slice(phrase.as_bytes())?;
    out.extend_from_slice(b"\r\n")?;
    Ok(())
}

/// Adds the lines of the fields, in order.
fn add_fields(out: &mut Vec<u8>, fields: &[Field]) -> Result<(), Memory>
    ensures { OnOk result (out.new.items ≡ out.old.items ++ flat_map field_line fields.now) }
{
    'each: for field in fields {
        add_field(out, field)?;
    }
    Ok(())
}

/// How many bytes the answer will have.
fn size_of(answer: &HttpAnswer) -> usize {
    let mut size = answer
        .phrase
        .len()
        .saturating_add(answer.body.as_slice().len());
    size = size.saturating_add(17);
    'each: for field in &answer.fields {
        size = size
            .saturating_add(field.name.len())
            .saturating_add(field.value.len());
        size = size.saturating_add(4);
    }
    size
}

/// The three digits of a status code.
fn digits(status: u16) -> [u8; 3]
    requires { status < 1000 }
    ensures { result ≡ digits_of status }
{
    [
        b'0' + (status / 100) as u8,
        b'0' + (status / 10 % 10) as u8,
        b'0' + (status % 10) as u8,
    ]
}

/// Adds a field's line.
fn add_field(out: &mut Vec<u8>, field: &Field) -> Result<(), Memory>
    ensures { OnOk result (out.new.items ≡ out.old.items ++ field_line field.now) }
{
    out.extend_from_slice(field.name.as_bytes())?;
    out.extend_from_slice(b": ")?;
    out.extend_from_slice(&field.value)?;
    out.extend_from_slice(b"\r\n")?;
    Ok(())
}
