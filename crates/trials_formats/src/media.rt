//! Media types and content formats, and what Accept asks for (RFC 9110, sections 8.3 and 12.5.1;
//! RFC 7252, section 12.3; RFC 8075, section 6).

use crate::telling::{check, is_written};
use media_map::{
    Form, Media, MediaFault, Policy, Routes, Wanted, accept_of, format_of, media_of, route_of,
};
use std::alloc::{AllocError, Global};

const STRICT: Policy = Policy {
    loose: false,
    pass: false,
};

const LOOSE: Policy = Policy {
    loose: true,
    pass: false,
};

const PASS: Policy = Policy {
    loose: false,
    pass: true,
};

/// What a content type is to the policies.
#[derive(Clone, Copy)]
enum Kind {
    /// Each takes it for this format, or for none where it is blank.
    Mapped(Option<u16>),
    Malformed,
    /// It has no format; the loose policy takes the nearest one.
    Nearest(u16),
    /// It gives the format by its number, which the passing policy takes.
    Numbered(u16),
}

/// What the strict, the loose and the passing policy answer.
type Answers = [Result<Option<u16>, MediaFault>; 3];

fn answers(kind: Kind) -> Answers {
    match kind {
        Kind::Mapped(format) => [Ok(format); 3],
        Kind::Malformed => [Err(MediaFault::Syntax); 3],
        Kind::Nearest(format) => {
            let unmapped = Err(MediaFault::Unmapped);
            [unmapped, Ok(Some(format)), unmapped]
        }
        Kind::Numbered(format) => {
            let refused = Err(MediaFault::PassThrough);
            [refused, refused, Ok(Some(format))]
        }
    }
}

/// The value is answered so under each of the policies.
fn is_read(row: &(&'static [u8], Kind)) -> bool {
    let [strict, loose, pass] = answers(row.1);
    format_of(row.0, STRICT) == strict
        && format_of(row.0, LOOSE) == loose
        && format_of(row.0, PASS) == pass
}

static CONTENT_TYPES: [(&[u8], Kind); 66] = [
    (b"", Kind::Mapped(None)),
    (b" \t", Kind::Mapped(None)),
    (b"text/plain", Kind::Mapped(Some(0))),
    (b"text/plain; charset=UTF-8", Kind::Mapped(Some(0))),
    (b"Text/Plain; Charset=\"utf-8\"", Kind::Mapped(Some(0))),
    (b"text/plain;charset=\"utf\\-8\"", Kind::Mapped(Some(0))),
    (b"text/plain;charset=\"\\UTF-\\8\"", Kind::Mapped(Some(0))),
    (b"text/plain;charset=\"utf\\\\-8\"", Kind::Nearest(42)),
    (b"text/plain ; charset=\"US-ASCII\" ", Kind::Mapped(Some(0))),
    (b"text/plain;", Kind::Mapped(Some(0))),
    (b"text/plain; ;;charset=utf-8", Kind::Mapped(Some(0))),
    (
        b"text/plain;charset=utf-8;charset=utf-16",
        Kind::Mapped(Some(0)),
    ),
    (b"text/plain;format=flowed", Kind::Mapped(Some(0))),
    (b"text/plain;x=\"a;b\";charset=utf-8", Kind::Mapped(Some(0))),
    (
        b"text/plain;x=\"a\\\";charset=utf-16\"",
        Kind::Mapped(Some(0)),
    ),
    (b"application/link-format", Kind::Mapped(Some(40))),
    (b"application/xml", Kind::Mapped(Some(41))),
    (b"application/xml;charset=utf-16", Kind::Mapped(Some(41))),
    (b"application/octet-stream", Kind::Mapped(Some(42))),
    (b"application/exi", Kind::Mapped(Some(47))),
    (b"application/json", Kind::Mapped(Some(50))),
    (b"APPLICATION/JSON", Kind::Mapped(Some(50))),
    (b" application/json\t", Kind::Mapped(Some(50))),
    (b"application/cbor", Kind::Mapped(Some(60))),
    (b"application/cbor;q=0", Kind::Mapped(Some(60))),
    (b"text", Kind::Malformed),
    (b"/plain", Kind::Malformed),
    (b"text/", Kind::Malformed),
    (b"text/plain/x", Kind::Malformed),
    (b"te xt/plain", Kind::Malformed),
    (b"text /plain", Kind::Malformed),
    (b";charset=utf-8", Kind::Malformed),
    (b"text/pl\xc3\xa4in", Kind::Malformed),
    (b"text/plain;charset", Kind::Malformed),
    (b"text/plain;charset=", Kind::Malformed),
    (b"text/plain;=utf-8", Kind::Malformed),
    (b"text/plain;charset =utf-8", Kind::Malformed),
    (b"text/plain;charset= utf-8", Kind::Malformed),
    (b"text/plain;charset=\"utf-8", Kind::Malformed),
    (b"text/plain;x=\"a\x01b\"", Kind::Malformed),
    (b"text/plain,text/html", Kind::Malformed),
    (b"text/plain;charset=utf-16", Kind::Nearest(42)),
    (
        b"text/plain;charset=utf-16;charset=utf-8",
        Kind::Nearest(42),
    ),
    (b"text/plain;charset=\"\"", Kind::Nearest(42)),
    (b"text/html;charset=utf-16", Kind::Nearest(0)),
    (b"Text/XML;charset=utf-8", Kind::Nearest(41)),
    (b"text/x+json", Kind::Nearest(0)),
    (b"application/ATOM+XML", Kind::Nearest(41)),
    (b"application/problem+json", Kind::Nearest(50)),
    (b"application/json+zip", Kind::Nearest(42)),
    (b"application/pdf", Kind::Nearest(42)),
    (b"image/svg+xml", Kind::Nearest(42)),
    (b"*/*", Kind::Nearest(42)),
    (b"application/coap-payload", Kind::Nearest(42)),
    (b"application/coap-payload;cf=65536", Kind::Nearest(42)),
    (b"application/coap-payload;cf=000060", Kind::Nearest(42)),
    (b"application/coap-payload;cf=6a", Kind::Nearest(42)),
    (b"application/coap-payload;cf=-1", Kind::Nearest(42)),
    (b"application/coap-payload;cf=\"\"", Kind::Nearest(42)),
    (b"application/coap-payload;cf=0", Kind::Numbered(0)),
    (b"application/coap-payload;cf=65535", Kind::Numbered(65535)),
    (b"application/coap-payload;cf=00060", Kind::Numbered(60)),
    (
        b"application/coap-payload; cf=\"11050\"",
        Kind::Numbered(11050),
    ),
    (
        b"application/coap-payload; cf=\"1\\1050\"",
        Kind::Numbered(11050),
    ),
    (b"Application/CoAP-Payload;CF=1;cf=2", Kind::Numbered(1)),
    (b"application/coap-payload;x=1;cf=2", Kind::Numbered(2)),
];

#[test]
fn content_types(rt: HostRuntime) {
    for row in &CONTENT_TYPES {
        check(&rt, row.0, is_read(row));
    }
}

/// A format, and the media type that names it.
static NAMES: [(u16, &str); 9] = [
    (0, "text/plain;charset=utf-8"),
    (40, "application/link-format"),
    (41, "application/xml"),
    (42, "application/octet-stream"),
    (47, "application/exi"),
    (50, "application/json"),
    (60, "application/cbor"),
    (1, "application/coap-payload;cf=1"),
    (65535, "application/coap-payload;cf=65535"),
];

fn is_named(alloc: Global, row: &(u16, &'static str)) -> bool {
    match media_of(alloc, row.0) {
        Ok(media) => media.as_str() == row.1,
        Err(_) => false,
    }
}

#[test]
fn media_types_of_formats(rt: HostRuntime) {
    for row in &NAMES {
        check(&rt, row.1, is_named(rt.alloc(), row));
    }
}

/// The form of a media type.
fn form(alloc: Global, name: &str) -> Result<Form, AllocError> {
    Ok(Form::Media(Media::from_str(alloc, name)?))
}

/// A form by its number or its name.
#[derive(Clone, Copy)]
enum Named {
    Number(u16),
    Media(&'static str),
}

fn form_of(alloc: Global, named: Named) -> Result<Form, AllocError> {
    match named {
        Named::Number(format) => Ok(Form::Format(format)),
        Named::Media(name) => form(alloc, name),
    }
}

/// From CBOR to JSON and back, and from bytes to a text whose charset is written.
static ROUTES: [(Named, Named); 4] = [
    (Named::Number(60), Named::Media("application/json")),
    (Named::Number(41), Named::Media("application/json")),
    (Named::Media("application/json"), Named::Number(60)),
    (Named::Number(42), Named::Media("text/csv; charset=utf-8")),
];

fn demonstration_routes(alloc: Global) -> Result<Routes, AllocError> {
    let mut routes = Routes::new(alloc);
    for &(from, to) in &ROUTES {
        routes.push(form_of(alloc, from)?, form_of(alloc, to)?)?;
    }
    Ok(routes)
}

/// An Accept, and the format and the media type that it asks for; none where no format meets it.
type AcceptRow = (&'static [u8], Option<(u16, &'static str)>);

static ACCEPTS: [AcceptRow; 27] = [
    (b"application/json", Some((60, "application/json"))),
    (
        b"Application/JSON;q=0.2;x=y",
        Some((60, "application/json")),
    ),
    (b"text/csv", Some((42, "text/csv; charset=utf-8"))),
    (
        b"TEXT/PLAIN;charset=us-ascii",
        Some((0, "text/plain;charset=utf-8")),
    ),
    (
        b"text/html, application/exi;q=0.1",
        Some((47, "application/exi")),
    ),
    (b"nonsense, application/exi", Some((47, "application/exi"))),
    (b",, application/exi ,", Some((47, "application/exi"))),
    (
        b"application/xml;q=0.5,application/cbor;q=0.6",
        Some((60, "application/cbor")),
    ),
    (
        b"application/xml;q=0.5,application/cbor;q=0.500",
        Some((41, "application/xml")),
    ),
    (
        b"application/xml;q=0.999,application/cbor;q=1.000",
        Some((60, "application/cbor")),
    ),
    (
        b"application/xml;q=0.001,application/cbor;q=0",
        Some((41, "application/xml")),
    ),
    (
        b"application/xml;Q=0.3,application/exi;q=0.2",
        Some((41, "application/xml")),
    ),
    (
        b"application/xml;q=0.3;q=0.9,application/exi;q=0.5",
        Some((47, "application/exi")),
    ),
    (
        b"application/xml;q=1.001,application/exi;q=0.5",
        Some((47, "application/exi")),
    ),
    (
        b"*/*;q=0,application/exi;q=0.5",
        Some((47, "application/exi")),
    ),
    (
        b"application/coap-payload;cf=60,application/exi;q=0.1",
        Some((47, "application/exi")),
    ),
    // RFC 9110, section 12.5.1.
    (
        b"text/plain; q=0.5, text/html, text/x-dvi; q=0.8, text/x-c",
        Some((0, "text/plain;charset=utf-8")),
    ),
    (
        b"text/plain;x=\"a,b\",application/exi",
        Some((47, "application/exi")),
    ),
    (b"text/html", None),
    (b"*/*;q=0", None),
    (b"text/*;q=0.000", None),
    (b"application/xml;q=0.", None),
    (b"text/plain;charset=utf-16", None),
    (b"*/json", None),
    (b"text/html,application/json;q=0", None),
    (b"application/coap-payload;cf=65536", None),
    (b"application/coap-payload;cf=60;q=0", None),
];

/// What an Accept asks for under a policy. Like each call here, it passes on nothing of what the
/// one in it promises: a trial over it is proved in less time.
fn asked(
    alloc: Global,
    value: &[u8],
    policy: Policy,
    routes: &Routes,
) -> Result<Option<Wanted>, MediaFault> {
    accept_of(alloc, value, policy, routes)
}

fn is_wanted(wanted: &Wanted, format: u16, media: &str) -> bool {
    wanted.format == format && wanted.media.as_str() == media
}

/// The Accept is answered so.
fn is_answered(alloc: Global, row: &AcceptRow, routes: &Routes) -> bool {
    match (asked(alloc, row.0, STRICT, routes), row.1) {
        (Ok(Some(wanted)), Some((format, media))) => is_wanted(&wanted, format, media),
        (Err(fault), None) => fault == MediaFault::Unmapped,
        _ => false,
    }
}

#[test]
fn accepted(rt: HostRuntime) {
    let routes = demonstration_routes(rt.alloc()).expect(&rt, "memory");
    for row in &ACCEPTS {
        check(&rt, row.0, is_answered(rt.alloc(), row, &routes));
    }
}

/// Accepts that leave the format open, two of them from RFC 9110, section 12.5.1.
static OPEN: [&[u8]; 12] = [
    b"",
    b" , ,",
    b"nonsense",
    b"text/html,*/*;q=0.8",
    b"application/xml,text/*;q=0.001",
    b"audio/*; q=0.2, audio/basic",
    b"text/*;q=0.3, text/plain;q=0.7, text/plain;format=flowed, text/plain;format=fixed;q=0.4, */*;q=0.5",
    b"application/xml;q=1.001",
    b"application/xml;q=0.1234",
    b"application/xml;q=.5",
    b"application/xml;q=\"0.5\"",
    b"application/xml;x",
];

/// The Accept leaves the format open, where there are no routes.
fn is_open(alloc: Global, value: &[u8]) -> bool {
    let answer = asked(alloc, value, STRICT, &Routes::new(alloc));
    matches!(answer, Ok(None))
}

#[test]
fn open_accepts(rt: HostRuntime) {
    for &value in &OPEN {
        check(&rt, value, is_open(rt.alloc(), value));
    }
}

/// An Accept of a format by its number.
static BY_NUMBER: &[u8] = b"text/html,application/coap-payload;cf=11050;q=0.1";

/// A copy of what is wanted is this format by its number.
fn is_number(alloc: Global, wanted: &Wanted, format: u16) -> Result<bool, AllocError> {
    let media = media_of(alloc, format)?;
    Ok(wanted.format == format && wanted.copy()? == Wanted { format, media })
}

/// The Accept asks for this format by its number, written so.
fn asks_by_number(alloc: Global, routes: &Routes, format: u16, name: &str) -> bool {
    match asked(alloc, BY_NUMBER, PASS, routes) {
        Ok(Some(wanted)) => {
            is_number(alloc, &wanted, format) == Ok(true) && is_written(alloc, &wanted.media, name)
        }
        _ => false,
    }
}

/// The Accept is refused where numbers aren't passed through.
fn is_refused(alloc: Global, routes: &Routes) -> bool {
    asked(alloc, BY_NUMBER, LOOSE, routes).err() == Some(MediaFault::PassThrough)
}

#[test]
fn accepted_by_number(rt: HostRuntime) {
    let alloc = rt.alloc();
    let routes = demonstration_routes(alloc).expect(&rt, "memory");
    check(&rt, "loose", is_refused(alloc, &routes));
    check(
        &rt,
        "passing",
        asks_by_number(alloc, &routes, 11050, "application/coap-payload;cf=11050"),
    );
    let words = "coap-payload isn't passed through";
    check(
        &rt,
        "in words",
        is_written(alloc, &MediaFault::PassThrough, words),
    );
}

/// A content type, and the format to which a route leads from it; none where there is no route.
static ROUTED: [(&[u8], Option<u16>); 6] = [
    (b"Application/JSON; charset=utf-8", Some(60)),
    (b" application/json;", Some(60)),
    (b"", None),
    (b"application/json;x", None),
    (b"application/cbor", None),
    (b"application/jso", None),
];

fn is_routed(row: &(&'static [u8], Option<u16>), routes: &Routes) -> bool {
    match (route_of(row.0, routes), row.1) {
        (Some(route), Some(format)) => route.1.is_same(&Form::Format(format)),
        (None, None) => true,
        _ => false,
    }
}

/// A copy of the routes.
fn copied_routes(alloc: Global) -> Result<Routes, AllocError> {
    demonstration_routes(alloc)?.copy()
}

#[test]
fn routes_of_content_types(rt: HostRuntime) {
    let routes = copied_routes(rt.alloc()).expect(&rt, "memory");
    check(&rt, "four routes", routes.as_slice().len() == 4);
    for row in &ROUTED {
        check(&rt, row.0, is_routed(row, &routes));
    }
}

/// A form is the same as its copy, and not as one that is written otherwise.
fn differs(alloc: Global, name: &str, other: &str) -> Result<bool, AllocError> {
    let one = form(alloc, name)?;
    Ok(one.copy()?.is_same(&one) && !one.is_same(&form(alloc, other)?))
}

#[test]
fn forms_differ(rt: HostRuntime) {
    let differ = differs(rt.alloc(), "application/json", "application/JSON");
    assert!(rt; differ == Ok(true));
}
