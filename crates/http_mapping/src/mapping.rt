//! From an HTTP request to its meaning (RFC 8075, section 5).

ghost use Rattle.std.specs.Prelude.{◌≡◌, None, option_map, IfOk};
ghost use Rattle.std.specs.Arc.{arc_value};
ghost use Rattle.code_map.specs.Methods.{method_named};
ghost use Rattle.code_map.specs.Statuses.{number_of};
ghost use Rattle.http_header.specs.Token.{lowercase};
ghost use Rattle.http_edge.specs.Kinds.{status_of};
ghost use Rattle.http_edge.specs.Requests.{content};
ghost use Rattle.transformers.specs.Suits.{Suits};
ghost use Rattle.ask_model.specs.Requests.{Whole, Bad};
ghost use Rattle.ask_model.specs.Views.{came_of, sense_of, rules_of};
ghost use Rattle.ask_model.specs.Maps.{Maps, MapsMethod, wanted_of, has_field, is_conditional as conditional, is_refused_write as refused_write, carried, fault_status};
ghost use Rattle.http_mapping.specs.Limits.{limited};

use crate::sending::{Unsent, sending_of};
use crate::typing::{typing_of, wanted_by};
use ask_model::{Cause, Mapped, Meaning, Settings, incoming_size};
use code_map::{Method, Status, method_of};
use http_edge::{BadKind, Incoming, Memory, Request};
use limits::{MAX_BODY_LEN, MAX_REQUEST_SIZE};
use media_map::{MediaFault, Wanted};
use std::alloc::Global;
use std::sync::Arc;
use transformers::{Bank, Relation};
use uri_map::{UriFault, path_and_query, peer_of, target_of};

/// What a request means, and what is wanted of its answer.
#[derive(Drop)]
struct Meant {
    meaning: Meaning,
    wanted: Option<Wanted>,
}

/// A refusal, of whose answer nothing is wanted.
fn refused(cause: Cause, status: Status) -> Meant
    ensures meaning { result.meaning ≡ Meaning.Refuse cause status }
    ensures wanted { result.wanted ≡ None }
{
    Meant {
        meaning: Meaning::Refuse(cause, status),
        wanted: None,
    }
}

/// The meaning of what was read from a connection. A request of more than 2 MiB counts as too large
/// (413); no reader of connections gives one. Of others the refusals are met in this order: method,
/// conditional write, long body, target, peer, Content-Type, what the body becomes, Accept.
pub fn map_request<R: Relation>(
    alloc: Global,
    settings: &Arc<Settings>,
    bank: &Bank<R>,
    came: Incoming,
) -> Result<Mapped<R>, Memory>
    requires suits { Suits R.holds R.takes (rules_of (arc_value settings.now)).routes bank.now }
    ensures came { IfOk result (λ m. m.came ≡ limited (came_of came)) }
    ensures rules { IfOk result (λ m. m.rules ≡ rules_of (arc_value settings.now)) }
    ensures maps { IfOk result (λ m.
        Maps R.holds R.takes (rules_of (arc_value settings.now)) m.came m.sense) }
{
    let request = match &came {
        Incoming::Request(request) if incoming_size(&came) <= MAX_REQUEST_SIZE => request,
        Incoming::Request(_) => return bad_mapped(settings, BadKind::Large),
        Incoming::Bad(kind) => return bad_mapped(settings, *kind),
    };
    let kept = Arc::try_clone(settings)?;
    let meant = request_meant(alloc, settings, bank, request)?;
    Ok(Mapped::new(came, meant.meaning, meant.wanted, kept))
}

/// What is mapped of bytes that are no request.
fn bad_mapped<R: Relation>(settings: &Arc<Settings>, kind: BadKind) -> Result<Mapped<R>, Memory>
    ensures came { IfOk result (λ m. m.came ≡ Bad kind) }
    ensures rules { IfOk result (λ m. m.rules ≡ rules_of (arc_value settings.now)) }
    ensures maps { IfOk result (λ m.
        Maps R.holds R.takes (rules_of (arc_value settings.now)) m.came m.sense) }
{
    let settings = Arc::try_clone(settings)?;
    let refusal = refused(Cause::BadHttp, bad_status(kind));
    Ok(Mapped::new(
        Incoming::Bad(kind),
        refusal.meaning,
        refusal.wanted,
        settings,
    ))
}

/// The status for bytes that are no request.
fn bad_status(kind: BadKind) -> Status
    ensures { number_of result ≡ status_of kind }
{
    match kind {
        BadKind::Syntax => Status::BadRequest,
        BadKind::Large => Status::ContentTooLarge,
        BadKind::Coding => Status::NotImplemented,
    }
}

/// The meaning of a request. Of a target in absolute form, the path and the query count (RFC 9112
/// section 3.2.2).
fn request_meant<R: Relation>(
    alloc: Global,
    settings: &Settings,
    bank: &Bank<R>,
    request: &Request,
) -> Result<Meant, Memory>
    requires suits { Suits R.holds R.takes settings.now.routes bank.now }
    ensures maps { IfOk result (λ m.
        MapsMethod R.holds R.takes (rules_of settings.now) (content request.now)
        (method_named request.now.method.items) (sense_of m.meaning request.now.body.items)) }
    ensures wants { IfOk result (λ m.
        m.wanted ≡ wanted_of (rules_of settings.now) (Whole (content request.now))
        (sense_of m.meaning request.now.body.items)) }
{
    let method = match method_of(&request.method) {
        Some(method) if !is_refused_write(request, method) => method,
        _ => return Ok(refused(Cause::Method, Status::NotImplemented)),
    };
    let named = path_and_query(&request.target);
    let target = match target_of(alloc, settings.base.as_bytes(), named) {
        Ok(target) => target,
        Err(UriFault::Memory) => return Err(Memory),
        Err(fault) => return Ok(refused(Cause::NoMap, target_status(fault))),
    };
    let Some(peer) = peer_of(&settings.directory, &target) else {
        return Ok(refused(Cause::NoMap, Status::NotImplemented));
    };
    let body = carried_body(request, method);
    let typing = typing_of(request, settings, body);
    let sending = match sending_of(bank, typing, method, body) {
        Ok(sending) => sending,
        Err(Unsent::Type) => return Ok(refused(Cause::Media, Status::UnsupportedMediaType)),
        Err(Unsent::Content) => return Ok(refused(Cause::Media, Status::BadRequest)),
        Err(Unsent::Memory) => return Err(Memory),
    };
    let wanted = match wanted_by(alloc, request, settings) {
        Ok(wanted) => wanted,
        Err(MediaFault::Memory) => return Err(Memory),
        Err(_) => return Ok(refused(Cause::Media, Status::NotAcceptable)),
    };
    let meaning = Meaning::Ask {
        method,
        target,
        peer,
        accept: format_wanted(&wanted),
        format: sending.format,
        payload: sending.payload,
    };
    Ok(Meant { meaning, wanted })
}

/// The status for a target that names no resource.
fn target_status(fault: UriFault) -> Status
    ensures { number_of result ≡ fault_status fault }
{
    match fault {
        UriFault::OtherBase => Status::NotFound,
        UriFault::Scheme => Status::NotImplemented,
        UriFault::TooLong => Status::UriTooLong,
        UriFault::Authority | UriFault::Escape | UriFault::Memory => Status::BadRequest,
    }
}

/// The format that is asked for.
fn format_wanted(wanted: &Option<Wanted>) -> Option<u16>
    ensures { result ≡ option_map (λ w. w.format) wanted.now }
{
    wanted.as_ref().map(|wanted| wanted.format)
}

/// The body that goes to the server.
fn carried_body(request: &Request, method: Method) -> &[u8]
    ensures { result.now ≡ carried method request.now.body.items }
{
    match method {
        Method::Post | Method::Put => &request.body,
        Method::Get | Method::Head | Method::Delete => &[],
    }
}

/// Whether a request is refused although its method is mapped: a write with a condition (RFC 9110
/// section 13.1), or a body that is longer than any that goes to a server.
fn is_refused_write(request: &Request, method: Method) -> bool
    ensures { result ≡ refused_write method (content request.now) }
{
    (method.is_write() && is_conditional(request))
        || carried_body(request, method).len() > MAX_BODY_LEN
}

/// Whether the request is to be carried out only under a condition (RFC 9110, section 13.1).
fn is_conditional(request: &Request) -> bool
    ensures { result ≡ conditional (content request.now) }
{
    has(request, "if-match") || has(request, "if-none-match") || has(request, "if-unmodified-since")
}

/// Whether the request has a field of that name.
fn has(request: &Request, name: &'static str) -> bool
    requires { lowercase name.now ≡ name.now }
    ensures { result ≡ has_field name.now (content request.now) }
{
    request.fields.contains_key(name)
}
