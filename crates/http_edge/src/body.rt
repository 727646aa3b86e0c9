//! A body, as its bytes come in (RFC 9112, sections 6 and 7.1).

ghost use Rattle.std.specs.Prelude.{◌≡◌, ◌≤◌, ◌<◌, ◌-◌, ◌+◌, ◌++◌, ℕ, List, take, drop, min, length, IsTrue, ◌↔◌, Ok, IfOk, OnErr};
ghost use Rattle.http_edge.specs.declared.framing.Framing.{Framing};
ghost use Rattle.http_edge.specs.declared.body.Left.TheVariants.{Bytes, Line, Data, Trailers};
ghost use Rattle.http_edge.specs.declared.body.Next.TheVariants.{On};
ghost use Rattle.http_edge.specs.Bodies.{SoFar, Goes, Comes};

use crate::memory::Memory;
use crate::request::BadKind;
use crate::unread::Unread;
use httparse::spans::{EMPTY_HEADER_SPAN, parse_headers};
use httparse::{Status, parse_chunk_size};
use limits::MAX_BODY_LEN;

/// What of a body is read next.
#[derive(Clone, Copy)]
pub enum Left {
    /// So many bytes of a body with a length.
    Bytes(usize),
    /// A chunk's line.
    Line,
    /// So many bytes of a chunk, and the line end after them.
    Data(usize),
    /// The trailers after the last chunk.
    Trailers,
}

/// What a step came to.
#[derive(Clone, Copy)]
pub enum Next {
    On,
    Whole,
    Wait,
    Bad(BadKind),
}

/// What became of a body that comes in.
#[derive(Clone, Copy)]
pub enum Fill {
    Whole,
    Wait,
    Bad(BadKind),
}

/// What stands after a chunk's bytes.
const LINE_END: [u8; 2] = *b"\r\n";

/// The most bytes of a chunk's line.
const LINE: usize = 256;

/// Nothing of the body is missing.
pub fn is_all(left: Left) -> bool
    ensures { IsTrue result → left ≡ Bytes 0 }
{
    matches!(left, Left::Bytes(0))
}

/// Moves unread bytes into the body, as far as they are its.
pub fn fill_body(left: &mut Left, body: &mut Vec<u8>, unread: &mut Unread) -> Result<Fill, Memory>
    ensures ok { IfOk result (λ fill.
        (f : Framing) (text : List ℕ) → SoFar f left.old body.old.items unread.old text
        → Comes f fill left.new body.new.items unread.new text) }
    ensures err { OnErr result ((f : Framing) (text : List ℕ)
        → SoFar f left.old body.old.items unread.old text
        → SoFar f left.new body.new.items unread.new text) }
    ensures fewer { length unread.new ≤ length unread.old }
    ensures room { result ≡ Ok Fill.Wait → length unread.new < 8192 }
{
    'each: loop {
        match step(left, body, unread)? {
            Next::On => {}
            Next::Whole => return Ok(Fill::Whole),
            Next::Wait => return Ok(Fill::Wait),
            Next::Bad(kind) => return Ok(Fill::Bad(kind)),
        }
    }
}

/// Reads the next part of the body.
fn step(left: &mut Left, body: &mut Vec<u8>, unread: &mut Unread) -> Result<Next, Memory>
    ensures ok { IfOk result (λ next.
        (f : Framing) (text : List ℕ) → SoFar f left.old body.old.items unread.old text
        → Goes f next left.new body.new.items unread.new text) }
    ensures err { OnErr result ((left.new ≡ left.old) × (body.new.items ≡ body.old.items)
        × (unread.new ≡ unread.old)) }
    ensures reads { IfOk result (λ next. next ≡ On → length unread.new < length unread.old) }
    ensures fewer { length unread.new ≤ length unread.old }
    ensures room { result ≡ Ok Next.Wait → length unread.new < 8192 }
{
    match *left {
        Left::Bytes(missing) => read_bytes(left, missing, body, unread),
        Left::Line => Ok(read_line(left, body, unread)),
        Left::Data(0) => Ok(read_end(left, unread)),
        Left::Data(missing) => read_data(left, missing, body, unread),
        Left::Trailers => Ok(read_trailers(unread)),
    }
}

/// Reads bytes of a body with a length.
fn read_bytes(
    left: &mut Left,
    missing: usize,
    body: &mut Vec<u8>,
    unread: &mut Unread,
) -> Result<Next, Memory>
    requires { left.old ≡ Bytes missing }
    ensures ok { IfOk result (λ next.
        (f : Framing) (text : List ℕ) → SoFar f left.old body.old.items unread.old text
        → Goes f next left.new body.new.items unread.new text) }
    ensures err { OnErr result ((left.new ≡ left.old) × (body.new.items ≡ body.old.items)
        × (unread.new ≡ unread.old)) }
    ensures reads { IfOk result (λ next. next ≡ On → length unread.new < length unread.old) }
    ensures fewer { length unread.new ≤ length unread.old }
    ensures room { result ≡ Ok Next.Wait → length unread.new < 8192 }
{
    if missing == 0 {
        return Ok(Next::Whole);
    }
    if unread.as_slice().is_empty() {
        return Ok(Next::Wait);
    }
    let n = move_bytes(missing, body, unread)?;
    *left = Left::Bytes(missing - n);
    Ok(Next::On)
}

/// Reads bytes of a chunk.
fn read_data(
    left: &mut Left,
    missing: usize,
    body: &mut Vec<u8>,
    unread: &mut Unread,
) -> Result<Next, Memory>
    requires at { left.old ≡ Data missing }
    requires some { 0 < missing }
    ensures ok { IfOk result (λ next.
        (f : Framing) (text : List ℕ) → SoFar f left.old body.old.items unread.old text
        → Goes f next left.new body.new.items unread.new text) }
    ensures err { OnErr result ((left.new ≡ left.old) × (body.new.items ≡ body.old.items)
        × (unread.new ≡ unread.old)) }
    ensures reads { IfOk result (λ next. next ≡ On → length unread.new < length unread.old) }
    ensures fewer { length unread.new ≤ length unread.old }
    ensures room { result ≡ Ok Next.Wait → length unread.new < 8192 }
{
    if unread.as_slice().is_empty() {
        return Ok(Next::Wait);
    }
    let n = move_bytes(missing, body, unread)?;
    *left = Left::Data(missing - n);
    Ok(Next::On)
}

/// Moves bytes that are missing, as many as there are.
fn move_bytes(missing: usize, body: &mut Vec<u8>, unread: &mut Unread) -> Result<usize, Memory>
    ensures count { IfOk result (λ n. n ≡ min missing (length unread.old)) }
    ensures moved { IfOk result (λ n.
        (body.new.items ≡ body.old.items ++ take n unread.old) × (unread.new ≡ drop n unread.old)) }
    ensures err { OnErr result ((body.new.items ≡ body.old.items) × (unread.new ≡ unread.old)) }
{
    let count = missing.min(unread.as_slice().len());
    body.extend_from_slice(&unread.as_slice()[..count])?;
    unread.skip(count);
    Ok(count)
}

/// Reads a chunk's line.
fn read_line(left: &mut Left, body: &[u8], unread: &mut Unread) -> Next
    requires { left.old ≡ Line }
    ensures goes { (f : Framing) (text : List ℕ) → SoFar f left.old body.now unread.old text
        → Goes f result left.new body.now unread.new text }
    ensures reads { result ≡ On → length unread.new < length unread.old }
    ensures fewer { length unread.new ≤ length unread.old }
    ensures room { result ≡ Next.Wait → length unread.new < 8192 }
{
    let (len, size) = match parse_chunk_size(unread.as_slice()) {
        Ok(Status::Complete(found)) => found,
        Ok(Status::Partial) => {
            if unread.as_slice().len() > LINE {
                return Next::Bad(BadKind::Syntax);
            }
            return Next::Wait;
        }
        Err(_) => return Next::Bad(BadKind::Syntax),
    };
    if len > LINE {
        return Next::Bad(BadKind::Syntax);
    }
    if size > MAX_BODY_LEN.saturating_sub(body.len()) as u64 {
        return Next::Bad(BadKind::Large);
    }
    unread.skip(len);
    if size == 0 {
        *left = Left::Trailers;
        return Next::On;
    }
    *left = Left::Data(size as usize);
    Next::On
}

/// Reads the line end after a chunk's bytes.
fn read_end(left: &mut Left, unread: &mut Unread) -> Next
    requires { left.old ≡ Data 0 }
    ensures goes { (f : Framing) (body text : List ℕ) → SoFar f left.old body unread.old text
        → Goes f result left.new body unread.new text }
    ensures reads { result ≡ On → length unread.new < length unread.old }
    ensures fewer { length unread.new ≤ length unread.old }
    ensures room { result ≡ Next.Wait → length unread.new < 8192 }
{
    let n = unread.as_slice().len().min(LINE_END.len());
    if !is_equal(&unread.as_slice()[..n], &LINE_END[..n]) {
        return Next::Bad(BadKind::Syntax);
    }
    if n < LINE_END.len() {
        return Next::Wait;
    }
    unread.skip(n);
    *left = Left::Line;
    Next::On
}

/// The bytes are equal.
fn is_equal(a: &[u8], b: &[u8]) -> bool
    ensures { IsTrue result ↔ (a.now ≡ b.now) }
{
    a == b
}

/// Reads the trailers.
fn read_trailers(unread: &mut Unread) -> Next
    ensures goes { (f : Framing) (body text : List ℕ) → SoFar f Trailers body unread.old text
        → Goes f result Trailers body unread.new text }
    ensures reads { result ≡ On → length unread.new < length unread.old }
    ensures fewer { length unread.new ≤ length unread.old }
    ensures room { result ≡ Next.Wait → length unread.new < 8192 }
{
    let mut spans = [EMPTY_HEADER_SPAN; 64];
    match parse_headers(unread.as_slice(), &mut spans) {
        Ok(Status::Complete((len, _))) => {
            unread.skip(len);
            Next::Whole
        }
        Ok(Status::Partial) => {
            if unread.as_slice().len() == Unread::ROOM {
                return Next::Bad(BadKind::Syntax);
            }
            Next::Wait
        }
        Err(_) => Next::Bad(BadKind::Syntax),
    }
}
