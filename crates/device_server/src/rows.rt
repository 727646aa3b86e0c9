//! The resources that rows of settings say.

ghost use Rattle.std.specs.Prelude.{◌≡◌, ◌≤◌, ◌<◌, ◌∷◌, [], ◌==◌, length, IfOk, IfSome, IfNone};
ghost use Rattle.std.specs.List.{position_or_len};
ghost use Rattle.demo_origin.specs.Keeps.{Keeps, KeepsRelation};
ghost use Rattle.demo_origin.specs.Origins.{Sound, EachKeeps, device};
ghost use Rattle.device_server.specs.Kinds.{kinds, relation_of};
ghost use Rattle.device_server.specs.Rows.{segments_of, IsRow, AreRows, device_by};

use crate::kinds::Kinds;
use demo_origin::{Call, Handler, Memory, Origin, Resource, Segments};
use message_layer::Bytes;
use proxy_settings::{Device as Settings, Kind, Resource as Row};
use std::alloc::{AllocError, Global};

/// The greatest size exponent of a block (RFC 7959, section 2.2).
const MAX_SZX: u8 = 6;

/// How long the first segment of a path is.
fn segment_len(path: &[u8]) -> usize
    ensures value { result ≡ position_or_len (λ b. b == 47) path.now }
    ensures within { result ≤ length path.now }
{
    'each: for (i, b) in path.iter().enumerate() {
        if *b == b'/' {
            return i;
        }
    }
    path.len()
}

/// The first segment of a path, and what follows its slash, where there is one.
fn first_segment(path: &[u8]) -> Option<(&[u8], &[u8])>
    ensures some { IfSome result (λ x.
        segments_of path.now ≡ x.0.now ∷ segments_of x.1.now) }
    ensures shorter { IfSome result (λ x. length x.1.now < length path.now) }
    ensures none { IfNone result (segments_of path.now ≡ path.now ∷ []) }
{
    let len = segment_len(path);
    if len == path.len() {
        return None;
    }
    Some((&path[..len], &path[len + 1..]))
}

/// The segments of a path: what stands between its slashes.
fn path_of(alloc: Global, path: &[u8]) -> Result<Segments, AllocError>
    ensures { IfOk result (λ segments. segments ≡ segments_of path.now) }
{
    let mut segments = Segments::new(alloc);
    let mut rest = path;
    'each: while let Some((segment, more)) = first_segment(rest) {
        segments.push(segment)?;
        rest = more;
    }
    segments.push(rest)?;
    Ok(segments)
}

/// What a resource holds at first.
fn state_of(alloc: Global, state: &[u8]) -> Result<Bytes, AllocError>
    ensures { IfOk result (λ bytes. bytes ≡ state.now) }
{
    Bytes::new(alloc, Vec::from_slice(alloc, state)?)
}

/// A handler of one kind, among those of either.
fn handler_of(kind: Kind, call: Call) -> Handler<Kinds>
    requires callable { Call.IsAlwaysCallable call }
    requires keeps { Keeps (relation_of kind) (λ p q r. Call.post call p q r) }
    ensures kind { KeepsRelation (relation_of kind) result }
    ensures either { KeepsRelation kinds result }
{
    Handler::new(call)
}

/// The resource that a row says, by a handler of its kind.
pub fn resource_of(alloc: Global, row: &Row, call: Call) -> Result<Resource<Kinds>, AllocError>
    requires callable { Call.IsAlwaysCallable call }
    requires keeps { Keeps (relation_of row.now.kind) (λ p q r. Call.post call p q r) }
    ensures row { IfOk result (λ r. IsRow row.now r) }
    ensures either { IfOk result (λ r. KeepsRelation kinds r.handler) }
{
    Ok(Resource {
        path: path_of(alloc, row.path.as_bytes())?,
        format: row.format,
        max_age: row.max_age,
        state: state_of(alloc, row.state.as_bytes())?,
        handler: handler_of(row.kind, call),
    })
}

/// The device that the settings say, by the resources of their rows.
#[tactic(auto, using(crate::proofs::Listed::all_held))]
pub(crate) fn origin_of(
    alloc: Global,
    settings: &Settings,
    all: Vec<Resource<Kinds>>,
) -> Result<Origin<Kinds>, Memory>
    requires rows { AreRows settings.now.resources all.items }
    requires keep { EachKeeps kinds all.items }
    ensures sound { IfOk result (λ o. Sound kinds o) }
    ensures says { IfOk result (λ o. device o ≡ device_by settings.now) }
{
    Origin::new(alloc, settings.block.min(MAX_SZX), all)
}
