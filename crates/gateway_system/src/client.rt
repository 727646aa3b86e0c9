//! The connection of a client.

ghost use Rattle.std.specs.Prelude.{◌≡◌, ◌≤◌, ◌<◌, ◌∷◌, [], length, take, Ok, IfOk, OnOk, OnErr};
ghost use Rattle.sessions.specs.Devices.{Rises, Grown};

use sessions::{Failed, Stream};
use std::io::{self, ErrorKind, Read, Write};
use std::net::{Shutdown, TcpStream};
use std::rt::Clock;
use std::sync::Arc;
use std::sync::atomic::{AtomicU64, Ordering};
use std::time::{Duration, Instant};

/// How long a client has to read its last answer, in milliseconds.
const FAREWELL: u64 = 1000;

/// How long a client that has just connected or was just answered has to send a request, in
/// milliseconds, before its connection counts as idle.
const GRACE: u64 = 100;

/// A moment that doesn't come.
const NEVER: u64 = u64::MAX;

/// A TCP connection, shared by its session and the thread that turns the journal over.
#[derive(Drop)]
pub struct Line {
    stream: TcpStream,
    /// since when its session waits for the next request, of which nothing came yet, in milliseconds
    /// of the monotonic clock
    idle_since: AtomicU64,
}

/// The time of the monotonic clock, in milliseconds. None where it cannot be read.
pub fn moment<W: Clock>(rt: &W) -> Option<u64> {
    let gone = rt.monotonic().ok()?;
    Some(u64::try_from(gone.as_millis()).unwrap_or(u64::MAX))
}

impl Line {
    /// A connection that was taken. Its answers go out without delay.
    pub fn new(stream: TcpStream) -> Line {
        let _ = stream.set_nodelay(true);
        Line {
            stream,
            idle_since: AtomicU64::new(NEVER),
        }
    }

    /// Stops reading if the session has waited for the next request for a while at this moment. What
    /// came before is still read.
    pub fn end_idle(&self, now: u64) {
        if now.saturating_sub(self.idle_since.load(Ordering::SeqCst)) >= GRACE {
            let _ = self.stream.shutdown(Shutdown::Read);
        }
    }
}

/// A client's connection over TCP, as its session has it.
#[derive(Drop)]
pub struct Client<'a, W: Clock> {
    rt: &'a W,
    line: Arc<Line>,
    /// how long a client has for its next request, for the rest of one, and to take an answer
    patience: Duration,
    /// when it was taken, its request began, or its last answer was written, in milliseconds
    begin: u64,
    /// a read has less than the whole of that time
    hurries: bool,
    /// a read or a write took too long
    gave_up: bool,
    faults: u64,
}

impl<'a, W: Clock> Client<'a, W> {
    /// The session's end of a connection. A client has the time of `patience` for its next request,
    /// as long again for the rest of it, and as long to take the answer.
    pub fn new(rt: &'a W, line: Arc<Line>, patience: Duration) -> Client<'a, W> {
        let _ = line.stream.set_read_timeout(Some(patience));
        let _ = line.stream.set_write_timeout(Some(patience));
        Client {
            rt,
            line,
            patience,
            begin: moment(rt).unwrap_or(0),
            hurries: false,
            gave_up: false,
            faults: 0,
        }
    }

    /// Whether the client was given up, because it stood still or took too long for a request or to
    /// read an answer.
    pub fn gave_up(&self) -> bool {
        self.gave_up
    }

    /// What a read of the socket gave: how many bytes came (0 at the end), or that it failed, which
    /// is counted.
    fn told(&mut self, read: io::Result<usize>) -> Result<usize, Failed>
        ensures told { IfOk read (λ n. result ≡ Ok n) }
        ensures came { IfOk result (λ n. read ≡ Ok n) }
        ensures ok { OnOk result (self.new.faults ≡ self.old.faults) }
        ensures err { OnErr result (Rises self.old.faults self.new.faults) }
    {
        match read {
            Ok(n) => Ok(n),
            Err(error) => {
                self.gave_up = is_late(error.kind());
                self.faults = self.faults.saturating_add(1);
                Err(Failed)
            }
        }
    }

    /// What is left of the client's time for what began last. It is late where nothing is.
    fn left(&self) -> io::Result<Duration> {
        let gone = match moment(self.rt) {
            Some(now) => Duration::from_millis(now.saturating_sub(self.begin)),
            None => self.patience,
        };
        match self.patience.checked_sub(gone) {
            Some(left) if !left.is_zero() => Ok(left),
            _ => Err(io::Error::from(ErrorKind::TimedOut)),
        }
    }

    /// Limits the next read: between two requests to the client's time, and within one to what is
    /// left of it.
    fn hurry(&mut self, between: bool) -> io::Result<()>
        ensures { self.new.faults ≡ self.old.faults }
    {
        if between && !self.hurries {
            return Ok(());
        }
        let time = if between { self.patience } else { self.left()? };
        self.hurries = !between;
        self.line.stream.set_read_timeout(Some(time))
    }

    /// Another time of the client's begins.
    fn begin_anew(&mut self)
        ensures { self.new.faults ≡ self.old.faults }
    {
        if let Some(now) = moment(self.rt) {
            self.begin = now;
        }
    }

    /// Writes the bytes within the client's time. One call of the system waits for that time at
    /// most, and may then have written only a part.
    fn write_in_time(&self, bytes: &[u8]) -> io::Result<()> {
        let rest = write_some(&self.line.stream, bytes)?;
        if rest.is_empty() {
            return Ok(());
        }
        let written = self.write_rest(rest);
        let _ = self.line.stream.set_write_timeout(Some(self.patience));
        written
    }

    /// Writes the rest of an answer. Each call of the system would wait the whole time again, so it
    /// is given only what is left.
    fn write_rest(&self, bytes: &[u8]) -> io::Result<()> {
        let mut rest = bytes;
        'each: for _ in 0..u64::MAX {
            let left = self.left()?;
            self.line.stream.set_write_timeout(Some(left))?;
            rest = write_some(&self.line.stream, rest)?;
            if rest.is_empty() {
                return Ok(());
            }
        }
        Err(io::Error::from(ErrorKind::TimedOut))
    }

    /// Ends the connection so that the client can still read what was written: what it sends
    /// meanwhile is read and dropped (RFC 9112 section 9.6). This takes two seconds at most.
    pub fn end(&mut self) {
        let rt = self.rt;
        let time = Duration::from_millis(FAREWELL);
        let mut stream = &self.line.stream;
        if stream.shutdown(Shutdown::Write).is_err()
            || stream.set_read_timeout(Some(time)).is_err()
        {
            return;
        }
        let Ok(begin) = Instant::now(rt) else { return };
        let mut rest = [0u8; 4096];
        'each: for _ in 0..u64::MAX {
            match stream.read(&mut rest) {
                Ok(0) | Err(_) => return,
                Ok(_) => match begin.elapsed(rt) {
                    Ok(gone) if gone < time => {}
                    _ => return,
                },
            }
        }
    }
}

/// Writes as much as the system takes, and gives what is left.
fn write_some<'a>(mut stream: &TcpStream, bytes: &'a [u8]) -> io::Result<&'a [u8]> {
    match stream.write(bytes) {
        Ok(0) if !bytes.is_empty() => Err(io::Error::from(ErrorKind::WriteZero)),
        Ok(count) => Ok(&bytes[count..]),
        Err(error) if error.kind() == ErrorKind::Interrupted => Ok(bytes),
        Err(error) => Err(error),
    }
}

/// Whether a read or a write failed because it took too long.
fn is_late(kind: ErrorKind) -> bool {
    matches!(kind, ErrorKind::WouldBlock | ErrorKind::TimedOut)
}

impl<W: Clock> Stream for Client<'_, W> {
    ghost use Rattle.std.specs.Prelude.{None};

    ghost count = { λ c. c.faults };

    ghost written = { λ c. None };

    ghost gave = { λ c. None };

    fn faults(&self) -> u64 {
        self.faults
    }

    fn read(&mut self, buffer: &mut [u8], between: bool) -> Result<usize, Failed> {
        if let Err(error) = self.hurry(between) {
            return self.told(Err(error));
        }
        if between {
            self.line.idle_since.store(self.begin, Ordering::SeqCst);
        }
        let mut stream = &self.line.stream;
        let read = stream.read(buffer);
        if between {
            self.line.idle_since.store(NEVER, Ordering::SeqCst);
            self.begin_anew();
        }
        self.told(read)
    }

    fn write(&mut self, bytes: &[u8]) -> Result<(), Failed> {
        self.begin_anew();
        if let Err(error) = self.write_in_time(bytes) {
            self.gave_up = is_late(error.kind());
            self.faults = self.faults.saturating_add(1);
            return Err(Failed);
        }
        self.begin_anew();
        Ok(())
    }
}
