//! Targets of requests, and where they lead (RFC 7252, section 6; RFC 8075, section 5).

use crate::telling::{check, is_written};
use coap_codec::Opt;
use std::alloc::{AllocError, Global};
use std::net::{IpAddr, Ipv4Addr, Ipv6Addr};
use std::process::Abort;
use uri_map::{
    Directory, Host, Peer, Target, Text, UriFault, hosting_of, options_of, path_and_query, peer_at,
    peer_of, target_of,
};

/// What the text names below `/hc/`. Like each call here, it passes on nothing of what the one in
/// it promises: a trial over it is proved in less time.
fn read(alloc: Global, text: &[u8]) -> Result<Target, UriFault> {
    target_of(alloc, b"/hc/", text)
}

/// The host and the port.
fn authority_text(alloc: Global, host: &Host, port: u16) -> Result<String, AllocError> {
    match host {
        Host::Name(name) => format!(in alloc; "{} {port}", name.as_str()),
        Host::V4(address) => format!(in alloc; "v4 {address} {port}"),
        Host::V6(address) => format!(in alloc; "v6 {address} {port}"),
    }
}

/// Each of the texts after this mark.
fn write_texts(out: &mut String, mark: &str, texts: &[Text]) -> Result<(), AllocError> {
    for text in texts {
        out.push_str(mark)?;
        out.push_str(text.as_str())?;
    }
    Ok(())
}

/// A target written out: the host, the port, each segment after ` /` and each argument after ` ?`.
fn target_text(alloc: Global, target: &Target) -> Result<String, AllocError> {
    let mut out = authority_text(alloc, &target.host, target.port)?;
    write_texts(&mut out, " /", target.path.as_slice())?;
    write_texts(&mut out, " ?", target.query.as_slice())?;
    Ok(out)
}

/// What the text names, written out; or the fault.
fn named(alloc: Global, text: &[u8]) -> Result<String, AllocError> {
    match read(alloc, text) {
        Ok(target) => target_text(alloc, &target),
        Err(fault) => format!(in alloc; "{fault:?}"),
    }
}

/// A text, and what it names.
type Row = (&'static [u8], &'static str);

fn is_named(alloc: Global, row: &Row) -> bool {
    match named(alloc, row.0) {
        Ok(text) => text.as_str() == row.1,
        Err(AllocError) => false,
    }
}

fn check_named(rt: &impl Abort, alloc: Global, rows: &[Row]) {
    for row in rows {
        check(rt, row.0, is_named(alloc, row));
    }
}

/// Below the base or not, and schemes.
static BASES: [Row; 16] = [
    // RFC 8075, section 5.3: the default mapping, here below /hc/.
    (
        b"/hc/coap://s.example.com/light",
        "s.example.com 5683 /light",
    ),
    (
        b"/hc/coap://s.example.com:5683/~sensors/temp.xml",
        "s.example.com 5683 /~sensors /temp.xml",
    ),
    // RFC 7252, section 6.3: equal targets.
    (
        b"/hc/coap://EXAMPLE.com:5683/%7Esensors/temp.xml",
        "example.com 5683 /~sensors /temp.xml",
    ),
    (
        b"/hc/coap://EXAMPLE.com/%7esensors/temp.xml",
        "example.com 5683 /~sensors /temp.xml",
    ),
    (
        b"/hc/s.example.com/light?on",
        "s.example.com 5683 /light ?on",
    ),
    (b"/hc/COAP://S.Example.com", "s.example.com 5683"),
    (b"/hc/coaps://s.example.com/x", "Scheme"),
    (b"/hc/http://s.example.com/x", "Scheme"),
    (b"/hc/://s.example.com/x", "Scheme"),
    (b"/hc/coap:/x", "Authority"),
    (b"/hc/coap://", "Authority"),
    (b"/hc/", "Authority"),
    (b"/hc", "OtherBase"),
    (b"/other", "OtherBase"),
    (b"", "OtherBase"),
    (b"*", "OtherBase"),
];

static AUTHORITIES: [Row; 34] = [
    (b"/hc/h:61616", "h 61616"),
    (b"/hc/h:00080", "h 80"),
    (b"/hc/h:65535", "h 65535"),
    (b"/hc/h:65536", "Authority"),
    (b"/hc/h:0", "Authority"),
    (b"/hc/h:", "Authority"),
    (b"/hc/h:000080", "Authority"),
    (b"/hc/h:+80", "Authority"),
    (b"/hc/h:80:80", "Authority"),
    (b"/hc/:80", "Authority"),
    (b"/hc/user@h", "Authority"),
    (b"/hc/user%40h", "user@h 5683"),
    (b"/hc/a%3Ab", "a:b 5683"),
    (b"/hc/%C3%89%41", "\u{c9}a 5683"),
    (b"/hc/%ff", "Authority"),
    (b"/hc/h%4", "Authority"),
    (b"/hc/h%zz", "Authority"),
    (b"/hc/192.0.2.1:65535", "v4 192.0.2.1 65535"),
    (b"/hc/%31%392.0.2.1", "v4 192.0.2.1 5683"),
    (b"/hc/192.0.2.01", "192.0.2.01 5683"),
    (b"/hc/192.0.2.256", "192.0.2.256 5683"),
    (
        b"/hc/%5B2001:db8::1%5D/light?on",
        "v6 2001:db8::1 5683 /light ?on",
    ),
    (b"/hc/%5b2001:DB8:0:0:0:0:0:1%5d:1", "v6 2001:db8::1 1"),
    (b"/hc/[::]/", "v6 :: 5683"),
    (b"/hc/[1::%5D", "v6 1:: 5683"),
    (b"/hc/%5B1:2:3:4:5:6:7::]", "v6 1:2:3:4:5:6:7:0 5683"),
    (b"/hc/[1:2:3:4:5:6:7]", "Authority"),
    (b"/hc/[1:2:3:4:5:6:7:8:9]", "Authority"),
    (b"/hc/[12345::]", "Authority"),
    (b"/hc/%5B1::2::3%5D", "Authority"),
    (b"/hc/%5B::ffff:1.2.3.4%5D", "Authority"),
    (b"/hc/[fe80::1%25eth0]", "Authority"),
    (b"/hc/[::1]x", "Authority"),
    (b"/hc/%5Bfoo%5D", "[foo] 5683"),
];

static PATHS_AND_QUERIES: [Row; 24] = [
    (b"/hc/h/", "h 5683"),
    (b"/hc/h//", "h 5683 / /"),
    (b"/hc/h/a/", "h 5683 /a /"),
    (b"/hc/h/a%2Fb//c", "h 5683 /a/b / /c"),
    (b"/hc/h/a%2fb", "h 5683 /a/b"),
    (b"/hc/h/.", "Escape"),
    (b"/hc/h/a/../b", "Escape"),
    (b"/hc/h/%2e", "Escape"),
    (b"/hc/h/%2e%2E", "Escape"),
    (b"/hc/h/%2e%2E%2e", "h 5683 /..."),
    (b"/hc/h/a%", "Escape"),
    (b"/hc/h/a%4", "Escape"),
    (b"/hc/h/a%4g", "Escape"),
    (
        b"/hc/h/%C3%A9%E2%82%AC%F0%9F%98%80",
        "h 5683 /\u{e9}\u{20ac}\u{1f600}",
    ),
    (b"/hc/h/%C3%A9%ff", "Escape"),
    (b"/hc/h/%ED%A0%80", "Escape"),
    (b"/hc/h/%C0%80", "Escape"),
    (b"/hc/h/%E2%82", "Escape"),
    (b"/hc/h?", "h 5683 ?"),
    (b"/hc/h?a=1&&b", "h 5683 ?a=1 ? ?b"),
    (b"/hc/h?a?b/..&..", "h 5683 ?a?b/.. ?.."),
    (b"/hc/h/x?a%26b=%3d", "h 5683 /x ?a&b=="),
    (b"/hc/h?%", "Escape"),
    (b"/hc/h/%?x", "Escape"),
];

#[test]
fn named_targets(rt: HostRuntime) {
    check_named(&rt, rt.alloc(), &BASES);
    check_named(&rt, rt.alloc(), &AUTHORITIES);
    check_named(&rt, rt.alloc(), &PATHS_AND_QUERIES);
}

/// The target `/hc/192.0.2.1` with `pieces` segments of `len` bytes each, and what follows.
fn segments(alloc: Global, pieces: usize, len: usize, rest: &[u8]) -> Result<Vec<u8>, AllocError> {
    let mut text = Vec::from_slice(alloc, b"/hc/192.0.2.1")?;
    for _ in 0..pieces {
        text.push(b'/')?;
        for _ in 0..len {
            text.push(b'a')?;
        }
    }
    text.extend_from_slice(rest)?;
    Ok(text)
}

/// Segments and their length, what follows, and the fault of that target.
type LimitRow = (usize, usize, &'static [u8], Option<UriFault>);

static LIMITS: [LimitRow; 5] = [
    // A value has at most 255 bytes.
    (1, 255, b"", None),
    (1, 256, b"", Some(UriFault::TooLong)),
    // 80 options of 12 bytes each are 960 bytes; an option more is too many.
    (80, 11, b"", None),
    (81, 11, b"", Some(UriFault::TooLong)),
    // A bad escape is told before a value that is too long.
    (1, 256, b"?%", Some(UriFault::Escape)),
];

fn has_fault(alloc: Global, row: &LimitRow) -> bool {
    match segments(alloc, row.0, row.1, row.2) {
        Ok(text) => read(alloc, &text).err() == row.3,
        Err(AllocError) => false,
    }
}

#[test]
fn limits(rt: HostRuntime) {
    for row in &LIMITS {
        check(&rt, row.0, has_fault(rt.alloc(), row));
    }
}

/// A target, and its text as it is hosted.
static HOSTED: [(&[u8], &[u8]); 9] = [
    (
        b"/hc/S.example.com:5683/light?on",
        b"/hc/coap://s.example.com/light?on",
    ),
    (b"/hc/h:61616", b"/hc/coap://h:61616"),
    (
        b"/hc/%5B2001:db8::1%5D/",
        b"/hc/coap://%5B2001:db8:0:0:0:0:0:1%5D",
    ),
    (
        b"/hc/[::ffff:c000:201]:80",
        b"/hc/coap://%5B0:0:0:0:0:ffff:c000:201%5D:80",
    ),
    (b"/hc/192.0.2.1/a%2fb", b"/hc/coap://192.0.2.1/a%2Fb"),
    (b"/hc/a%3Ab//", b"/hc/coap://a%3Ab//"),
    (b"/hc/h/%7e*?%7e*=&", b"/hc/coap://h/~%2A?~%2A=&"),
    (b"/hc/%C3%A9?", b"/hc/coap://%C3%A9?"),
    (b"/hc/h?a%26b/c?d", b"/hc/coap://h?a%26b%2Fc%3Fd"),
];

/// The text names the target.
fn names(alloc: Global, text: &[u8], target: &Target) -> bool {
    match read(alloc, text) {
        Ok(read) => read == *target,
        Err(_) => false,
    }
}

/// The target is hosted so, and what is hosted names the target.
fn hosts(alloc: Global, target: &Target, want: &[u8]) -> bool {
    match hosting_of(alloc, b"/hc/", target) {
        Ok(hosted) => hosted.as_slice() == want && names(alloc, &hosted, target),
        Err(_) => false,
    }
}

/// A copy of the target that the text names.
fn copied(alloc: Global, text: &[u8]) -> Result<Target, UriFault> {
    Ok(read(alloc, text)?.copy()?)
}

/// The copy is hosted so.
fn is_hosted(alloc: Global, text: &[u8], want: &[u8]) -> bool {
    match copied(alloc, text) {
        Ok(target) => hosts(alloc, &target, want),
        Err(_) => false,
    }
}

#[test]
fn hosted_again(rt: HostRuntime) {
    for &(text, want) in &HOSTED {
        check(&rt, text, is_hosted(rt.alloc(), text, want));
    }
}

/// The options of the target that the text names.
fn options(alloc: Global, text: &[u8]) -> Result<Vec<Opt>, UriFault> {
    let target = read(alloc, text)?;
    Ok(options_of(alloc, &target)?)
}

/// An option's number and value.
type OptionRow = (u16, &'static [u8]);

/// The options of `s.example.com:61616/a//b?x&y`.
static OPTIONS: [OptionRow; 6] = [
    (3, b"s.example.com"),
    (11, b"a"),
    (11, b""),
    (11, b"b"),
    (15, b"x"),
    (15, b"y"),
];

fn is_option(option: &Opt, row: &OptionRow) -> bool {
    option.number == row.0 && option.value.as_slice() == row.1
}

/// The options are those of the rows.
fn are_options(options: &[Opt], rows: &[OptionRow]) -> bool {
    for (option, row) in options.iter().zip(rows) {
        if !is_option(option, row) {
            return false;
        }
    }
    options.len() == rows.len()
}

/// The text names a target with these options.
fn has_options(alloc: Global, text: &[u8], rows: &[OptionRow]) -> bool {
    match options(alloc, text) {
        Ok(given) => are_options(&given, rows),
        Err(_) => false,
    }
}

#[test]
fn options_of_a_target(rt: HostRuntime) {
    let text = b"/hc/s.example.com:61616/a//b?x&y";
    check(&rt, "a name", has_options(rt.alloc(), text, &OPTIONS));
    check(
        &rt,
        "an address",
        has_options(rt.alloc(), b"/hc/192.0.2.1", &[]),
    );
}

/// A directory with two servers of one name.
fn lamps(alloc: Global) -> Result<Directory, AllocError> {
    let first = IpAddr::V4(Ipv4Addr::new(192, 0, 2, 1));
    let second = IpAddr::V6(Ipv6Addr::new(0x2001, 0xdb8, 0, 0, 0, 0, 0, 1));
    let mut directory = Directory::new(alloc, false);
    directory.add("Lamp.Example", first)?;
    directory.add("lamp.example", second)?;
    Ok(directory)
}

/// Where the text leads, if it leads anywhere.
fn peer(alloc: Global, directory: &Directory, text: &[u8]) -> Result<Option<Peer>, UriFault> {
    let target = read(alloc, text)?;
    Ok(peer_of(directory, &target))
}

/// The text leads to this peer, or names a target that leads nowhere.
fn leads(alloc: Global, directory: &Directory, text: &[u8], want: Option<&str>) -> bool {
    match (peer(alloc, directory, text), want) {
        (Ok(Some(peer)), Some(want)) => is_written(alloc, &peer, want),
        (Ok(None), None) => true,
        _ => false,
    }
}

/// Names lead to the first of their addresses, and addresses nowhere.
fn leads_by_names(alloc: Global, directory: &Directory) -> bool {
    !directory.literals()
        && leads(
            alloc,
            directory,
            b"/hc/LAMP.example:80",
            Some("192.0.2.1:80"),
        )
        && leads(alloc, directory, b"/hc/%5B2001:db8::1%5D", None)
}

/// Addresses are taken as they are, and names lead nowhere.
fn leads_by_addresses(alloc: Global, directory: &Directory) -> bool {
    let address = "[2001:db8:0:0:0:0:0:1]:5683";
    leads(alloc, directory, b"/hc/%5B2001:db8::1%5D", Some(address))
        && leads(alloc, directory, b"/hc/LAMP.example:80", None)
}

#[test]
fn peers(rt: HostRuntime) {
    let alloc = rt.alloc();
    let lamps = lamps(alloc).expect(&rt, "memory");
    check(&rt, "names", leads_by_names(alloc, &lamps));
    check(
        &rt,
        "addresses",
        leads_by_addresses(alloc, &Directory::new(alloc, true)),
    );
}

/// The text of a peer, and how it is written.
type PeerRow = (&'static [u8], Option<&'static str>);

static WRITTEN: [PeerRow; 10] = [
    (b"192.0.2.1:5683", Some("192.0.2.1:5683")),
    (b"[2001:db8::1]:5683", Some("[2001:db8:0:0:0:0:0:1]:5683")),
    (
        b"[::ffff:c000:201]:00080",
        Some("[0:0:0:0:0:ffff:c000:201]:80"),
    ),
    (b"192.0.2.1", None),
    (b"192.0.2.1:0", None),
    (b"192.0.2.1:65536", None),
    (b"lamp:5683", None),
    (b"%5B::1%5D:5683", None),
    (b"[::ffff:1.2.3.4]:5683", None),
    (b"[fe80::1%1]:5683", None),
];

/// The peer of the text is written so, or there is none.
fn is_peer(alloc: Global, row: &PeerRow) -> bool {
    match (peer_at(row.0), row.1) {
        (Some(peer), Some(want)) => is_written(alloc, &peer, want),
        (None, None) => true,
        _ => false,
    }
}

#[test]
fn peers_written(rt: HostRuntime) {
    for row in &WRITTEN {
        check(&rt, row.0, is_peer(rt.alloc(), row));
    }
}

/// A target of a request, and its path and query.
static FORMS: [(&[u8], &[u8]); 8] = [
    (b"/hc/h/a", b"/hc/h/a"),
    (b"http://proxy:80/hc/h/a", b"/hc/h/a"),
    (b"HTTP://proxy?x", b"?x"),
    (b"a+b-c.1://proxy", b""),
    (b"http:/x", b"http:/x"),
    (b"1http://proxy/x", b"1http://proxy/x"),
    (b"://proxy/x", b"://proxy/x"),
    (b"*", b"*"),
];

#[test]
fn absolute_form(rt: HostRuntime) {
    for &(text, want) in &FORMS {
        check(&rt, text, path_and_query(text) == want);
    }
}

static FAULTS: [(UriFault, &str); 6] = [
    (UriFault::OtherBase, "the target is not below the base"),
    (UriFault::Scheme, "the scheme is not coap"),
    (UriFault::Authority, "the host or the port is malformed"),
    (UriFault::Escape, "the path or the query is malformed"),
    (UriFault::TooLong, "the path or the query is too long"),
    (UriFault::Memory, "out of memory"),
];

#[test]
fn faults_in_words(rt: HostRuntime) {
    for (fault, words) in &FAULTS {
        check(&rt, *words, is_written(rt.alloc(), fault, words));
    }
}
