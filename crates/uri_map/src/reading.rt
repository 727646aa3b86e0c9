//! Texts as targets.

ghost use Rattle.std.specs.Prelude.{◌≡◌, IfOk, IsOk, IsErrOf, MatchResult, Ok};
ghost use Rattle.uri_map.specs.Steps.{Gives, GivesLast, option_view};
ghost use Rattle.uri_map.specs.Escapes.{text_at, part_at};
ghost use Rattle.uri_map.specs.Naming.{target_at};
ghost use Rattle.uri_map.specs.Scanning.{host_view, Stands, IsBuilt};
ghost use Rattle.uri_map.specs.declared.escapes.Part.TheVariants.{Path, Query};
ghost use Rattle.uri_map.specs.declared.target.Target.{Target};

use crate::authority::{Named, authority_of};
use crate::escapes::{Part, next_piece};
use crate::fault::UriFault;
use crate::marks::{Mark, cut_at};
use crate::parts::{behind_base, behind_scheme, path_and_query_of};
use crate::plain::is_plain;
use crate::room::{behind_host, behind_part};
use crate::target::{Host, Target};
use crate::text::{Text, Texts};
use percent_encoding::{DecodeError, ascii_str, percent_decode};
use std::alloc::{AllocError, Global};

/// The text that a good piece stands for, decoded.
#[inline(never)]
#[tactic(auto, unfolding(crate::specs::Escapes::text_at))]
fn decoded_of(alloc: Global, part: Part, piece: &[u8]) -> Result<Text, UriFault>
    requires { IsOk (text_at part piece.now) }
    ensures { Gives result (text_at part piece.now) }
{
    match percent_decode(piece).decode_utf8(alloc) {
        Ok(text) => Ok(Text::copy_of(alloc, text.as_str())?),
        Err(fault) => match fault {
            DecodeError::OutOfMemory => Err(UriFault::Memory),
            DecodeError::Utf8(_) => Err(UriFault::Escape),
        },
    }
}

/// The text that a good piece stands for.
fn text_of(alloc: Global, part: Part, piece: &[u8]) -> Result<Text, UriFault>
    requires { IsOk (text_at part piece.now) }
    ensures { Gives result (text_at part piece.now) }
{
    if is_plain(piece) {
        return Ok(Text::copy_of(alloc, ascii_str(piece))?);
    }
    decoded_of(alloc, part, piece)
}

/// The texts that the pieces of a part stand for.
fn texts_of(alloc: Global, part: Part, text: Option<&[u8]>) -> Result<Texts, UriFault>
    requires { IsOk (part_at part (option_view text)) }
    ensures { Gives result (part_at part (option_view text.entry)) }
{
    let mut texts = Texts::new(alloc);
    let mut left = text;
    'each: while let Some((piece, next)) = next_piece(part, left) {
        let text = text_of(alloc, part, piece)?;
        texts.push(text)?;
        left = next;
    }
    Ok(texts)
}

/// The host, in memory of its own.
fn host_of(alloc: Global, host: &Named<'_>) -> Result<Host, AllocError>
    ensures { IfOk result (λ h. h ≡ host_view host.now) }
{
    match host {
        Named::Name(name) => Ok(Host::Name(name.lowered(alloc)?)),
        Named::V4(address) => Ok(Host::V4(*address)),
        Named::V6(address) => Ok(Host::V6(*address)),
    }
}

/// A target before any memory is taken for it: the parts are good, and within the limits.
#[derive(Drop)]
pub(crate) struct Written<'a> {
    host: Named<'a>,
    port: u16,
    path: Option<&'a [u8]>,
    query: Option<&'a [u8]>,
}

/// The target that the text names, as it is written there, or the first fault.
#[tactic(auto, unfolding(crate::specs::Naming::target_at))]
fn written_of<'a>(base: &[u8], text: &'a [u8]) -> Result<Written<'a>, UriFault>
    ensures { MatchResult result (λ w. Stands w (target_at base.now text.now))
        (λ e. target_at base.now text.now ≡ Err e) }
{
    let below = behind_base(base, text)?;
    let rest = behind_scheme(below)?;
    let (authority, tail) = cut_at(Mark::Authority, rest);
    let (host, port) = authority_of(authority)?;
    let (path, query) = path_and_query_of(tail);
    let room = behind_host(&host);
    let after_path = behind_part(Part::Path, path, room)?;
    let after_query = behind_part(Part::Query, query, after_path)?;
    let _left = after_query?;
    Ok(Written {
        host,
        port,
        path,
        query,
    })
}

/// The target, in memory of its own.
fn build(alloc: Global, written: &Written<'_>) -> Result<Target, UriFault>
    requires path { IsOk (part_at Path (option_view written.now.path)) }
    requires query { IsOk (part_at Query (option_view written.now.query)) }
    ensures { MatchResult result (IsBuilt written.now) (λ e. e ≡ UriFault.Memory) }
{
    let host = host_of(alloc, &written.host)?;
    let path = texts_of(alloc, Part::Path, written.path)?;
    let query = texts_of(alloc, Part::Query, written.query)?;
    Ok(Target {
        host,
        port: written.port,
        path,
        query,
    })
}

/// The target that the text names below the base. A fault is told before want of memory.
pub fn target_of(alloc: Global, base: &[u8], text: &[u8]) -> Result<Target, UriFault>
    ensures exact { GivesLast result (target_at base.now text.now) }
    // Memory runs out only at a target.
    ensures memory { IsErrOf result UriFault.Memory
        → (t : Target) × (target_at base.now text.now ≡ Ok t) }
{
    let written = written_of(base, text)?;
    build(alloc, &written)
}
