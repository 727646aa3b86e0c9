//! Files, and what is told of those that give no settings.

use proxy_settings::{FILE_LIMIT, FileFault, Part, Setup, read_setup};
use std::alloc::{AllocError, Global};
use std::io::{self, ErrorKind, Read};

/// Files of the proxy's settings, and what is told of them.
static FILES: [(&[u8], &str); 20] = [
    (b"listen = '1.2.3.4:5'\nudp = '1.2.3.4:6'\n", "taken"),
    // Without its last line end, with lines that end by CR and LF, and with a byte order mark.
    (b"listen = '1.2.3.4:5'\nudp = '1.2.3.4:6'", "taken"),
    (b"listen = '1.2.3.4:5'\r\nudp = '1.2.3.4:6'\r\n", "taken"),
    (
        b"\xef\xbb\xbflisten = '1.2.3.4:5'\nudp = '1.2.3.4:6'\n",
        "taken",
    ),
    (b"", "listen: missing"),
    (b"\xef\xbb\xbf", "listen: missing"),
    (b"# nothing\n", "listen: missing"),
    (b"udp = '1.2.3.4:6'\n", "listen: missing"),
    (b"listen = 8080\n", "line 1: listen: not a text"),
    (b"listen = 8080", "line 1: listen: not a text"),
    (
        b"\n\n# ports\nlisten = '1.2.3.4:5'\nudp = '1.2.3.4'\nbase = 1\n",
        "line 5: udp: not an address and a port from 1 to 65535",
    ),
    (
        b"listen = '1.2.3.4:5'\r\nudp = '1.2.3.4:6'\r\ncolour = 1\r\n",
        "line 3: colour: unknown key",
    ),
    (
        b"listen = '1.2.3.4:5'\nudp '1.2.3.4:6'\n",
        "line 2: key with no value, expected `=`",
    ),
    (
        b"listen = '1.2.3.4:5'\nlisten = '1.2.3.4:5'\n",
        "line 2: duplicate key",
    ),
    (b"listen = '1.2.3.4:5'\nudp = '\xff'\n", "line 2: not UTF-8"),
    (b"\xff\xfel\0i\0", "line 1: not UTF-8"),
    // A text of many lines, in which a key seems to stand that doesn't.
    (
        b"base = '''\nlisten = 1\n'''\nlisten = '1.2.3.4:5'\nudp = 3\n",
        "line 5: udp: not a text",
    ),
    (
        b"listen = '1.2.3.4:5'\nudp = '1.2.3.4:6'\n\n[[origin]]\nhost = 'a'\naddress = '::1'\n\n[[origin]]\nhost = 'b'\naddress = '::g'\n",
        "line 10: origin[1].address: not an address",
    ),
    (
        b"listen = '1.2.3.4:5'\nudp = '1.2.3.4:6'\n[[origin]]\nhost = 'a'\naddress = '::1'\n[[origin]]\naddress = '::1'\n",
        "line 6: origin[1].host: missing",
    ),
    (
        b"listen = '1.2.3.4:5'\nudp = '1.2.3.4:6'\n[[down]]\nfrom = 60\nto = 'text/plain'\nby = 'cbor-json'\n",
        "line 6: down[0].by: not a way between these two",
    ),
];

/// The table, handed out by a call that says nothing of its rows: a loop over it is proved in less
/// time.
fn files() -> &'static [(&'static [u8], &'static str)] {
    &FILES
}

/// What is told of a file.
fn told(alloc: Global, part: Part, file: &[u8]) -> Result<String, AllocError> {
    match read_setup(alloc, part, file) {
        Ok(Setup::Serve(_)) | Ok(Setup::Origin(_)) => String::from_str(alloc, "taken"),
        Err(fault) => format!(in alloc; "{fault}"),
    }
}

/// Whether this is told of the file.
fn is_told(alloc: Global, part: Part, file: &[u8], line: &str) -> bool {
    match told(alloc, part, file) {
        Ok(told) => told.as_str() == line,
        Err(AllocError) => false,
    }
}

#[test]
fn files_of_the_proxy(rt: HostRuntime) {
    for &(bytes, line) in files() {
        assert!(rt; is_told(rt.alloc(), Part::Serve, bytes, line), "{line}");
    }
}

#[test]
fn files_of_the_device(rt: HostRuntime) {
    let alloc = rt.alloc();
    let good = b"listen = '1.2.3.4:5'\n[[resource]]\npath = 'a'\nkind = 'cell'\n";
    assert!(rt; is_told(alloc, Part::Origin, good, "taken"));
    let bad = b"listen = '1.2.3.4:5'\n[[resource]]\npath = 'a'\nkind = 'bell'\n";
    let line = "line 4: resource[0].kind: neither cell nor counter";
    assert!(rt; is_told(alloc, Part::Origin, bad, line));
}

/// Settings, and then a comment: so many bytes in all.
fn long(alloc: Global, len: usize) -> Result<Vec<u8>, AllocError> {
    let mut bytes = Vec::from_slice(alloc, b"listen = '1.2.3.4:5'\nudp = '1.2.3.4:6'\n#")?;
    for _ in bytes.len()..len {
        bytes.push(b'x')?;
    }
    Ok(bytes)
}

#[test]
fn files_have_an_end(rt: HostRuntime) {
    let alloc = rt.alloc();
    let most = long(alloc, FILE_LIMIT).expect(&rt, "memory");
    assert!(rt; is_told(alloc, Part::Serve, &most, "taken"));
    let more = long(alloc, FILE_LIMIT + 1).expect(&rt, "memory");
    assert!(rt; is_told(alloc, Part::Serve, &more, "above 1048576 bytes"));
}

/// A file that gives a byte and then fails.
#[derive(Drop)]
struct Failing {
    fails: bool,
}

impl Read for Failing {
    fn read(&mut self, buf: &mut [u8]) -> io::Result<usize> {
        match buf.first_mut() {
            Some(place) if !self.fails => {
                *place = b'#';
                self.fails = true;
                Ok(1)
            }
            _ => Err(io::Error::from(ErrorKind::PermissionDenied)),
        }
    }
}

/// What is told of a file that can't be read.
fn unread_told(alloc: Global) -> Option<String> {
    let failing = Failing { fails: false };
    match read_setup(alloc, Part::Serve, failing) {
        Err(FileFault::Unread(error)) => format!(in alloc; "{}", FileFault::Unread(error)).ok(),
        _ => None,
    }
}

#[test]
fn a_failed_read_is_told(rt: HostRuntime) {
    let told = unread_told(rt.alloc()).expect(&rt, "a fault");
    assert!(rt; told.as_str() == "permission denied");
}
