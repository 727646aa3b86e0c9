//! Devices with a light each, behind a wire in memory.

use gateway_desk::{Failed, Inbound, Outbound, Wire};
use std::alloc::{AllocError, Global};
use std::collections::VecDeque;
use std::net::{IpAddr, Ipv4Addr};
use std::sync::{Mutex, MutexGuard};
use std::thread;
use trials_clients::{ACK, reply_to};
use uri_map::Peer;

/// How often a lock that is held is tried again.
const TRIES: u32 = 1_000_000;

/// After how many turns a wire fails that breaks.
const TURNS_LEFT: u64 = 100;

/// When the devices answer.
#[derive(Clone, Copy, Debug, PartialEq, Eq)]
pub enum Manner {
    /// At once.
    Prompt,
    /// Once the first was asked, and the first itself only once a session was answered.
    FirstLast,
    /// At once, but the first datagram to them is lost.
    LosesFirst,
    /// At once, but the first datagram alone.
    Once,
    /// Never.
    Silent,
    /// Never, and the wire fails some turns after the first was asked.
    Breaks,
}

/// After how many datagrams that come from the devices the wire fails.
#[derive(Clone, Copy)]
pub struct Failing {
    pub received: u64,
}

/// Nothing fails.
pub const SOUND: Failing = Failing { received: u64::MAX };

/// A datagram on its way to the proxy.
#[derive(Drop)]
struct Letter {
    from: Peer,
    bytes: Vec<u8>,
}

/// The light's state, and what the devices answered.
#[derive(Drop)]
struct Mail {
    alloc: Global,
    manner: Manner,
    /// how many go well yet
    left: Failing,
    has_failed: bool,
    /// whether a datagram was waited for
    is_heard: bool,
    /// after how many turns the wire breaks, once that is known
    breaks_in: Option<u64>,
    is_on: bool,
    ready: VecDeque<Letter>,
    /// the answer of the first device
    held: Option<Letter>,
}

/// Devices that answer a GET with the state of their light, and whose light a PUT puts out.
#[derive(Drop)]
pub struct Device {
    mail: Mutex<Mail>,
}

fn first_device() -> IpAddr {
    IpAddr::V4(Ipv4Addr::new(192, 0, 2, 1))
}

impl Mail {
    /// What the devices do with a request.
    fn take(&mut self, to: Peer, request: &[u8]) -> Result<(), AllocError> {
        match self.manner {
            Manner::Silent => return Ok(()),
            Manner::Breaks => {
                self.breaks_in = Some(TURNS_LEFT);
                return Ok(());
            }
            Manner::LosesFirst => {
                self.manner = Manner::Prompt;
                return Ok(());
            }
            Manner::Once => self.manner = Manner::Silent,
            Manner::Prompt | Manner::FirstLast => {}
        }
        let bytes = self.reply(request)?;
        let letter = Letter { from: to, bytes };
        if self.manner == Manner::FirstLast && to.address == first_device() {
            self.held = Some(letter);
            return Ok(());
        }
        let _ = self.ready.push_back(letter);
        Ok(())
    }

    /// What is answered, by the request's code.
    fn reply(&mut self, request: &[u8]) -> Result<Vec<u8>, AllocError> {
        if request.get(1) != Some(&1) {
            self.is_on = false;
            return reply_to(self.alloc, ACK, request, 68, b"");
        }
        let state: &[u8] = if self.is_on {
            b"\xc0\xffon"
        } else {
            b"\xc0\xffoff"
        };
        reply_to(self.alloc, ACK, request, 69, state)
    }

    /// The next datagram that comes.
    fn next(&mut self) -> Option<Letter> {
        match self.manner {
            Manner::FirstLast if self.held.is_none() => None,
            Manner::FirstLast => self.ready.pop_front(),
            _ => self.ready.pop_front().or(self.held.take()),
        }
    }

    /// The wire fails.
    fn fail(&mut self) -> Failed {
        self.has_failed = true;
        Failed
    }

    /// The same, or none where the wire fails in its place.
    fn receive(&mut self) -> Result<Option<Letter>, Failed> {
        self.is_heard = true;
        match self.breaks_in {
            Some(0) => return Err(self.fail()),
            Some(turns) => self.breaks_in = Some(turns - 1),
            None => {}
        }
        let Some(letter) = self.next() else {
            return Ok(None);
        };
        if self.left.received == 0 {
            return Err(self.fail());
        }
        self.left.received -= 1;
        Ok(Some(letter))
    }
}

impl Device {
    pub fn new(alloc: Global, manner: Manner, failing: Failing) -> Device {
        Device {
            mail: Mutex::new(Mail {
                alloc,
                manner,
                left: failing,
                has_failed: false,
                is_heard: false,
                breaks_in: None,
                is_on: true,
                ready: VecDeque::new(alloc),
                held: None,
            }),
        }
    }

    /// The mail, once no other thread has it.
    fn mail(&self) -> Option<MutexGuard<'_, Mail>> {
        for _ in 0..TRIES {
            if let Some(mail) = self.mail.try_lock() {
                return Some(mail);
            }
            thread::yield_now();
        }
        None
    }

    /// A session was answered: what is held back may come.
    pub fn release(&self) {
        if let Some(mut mail) = self.mail() {
            if mail.manner == Manner::FirstLast {
                mail.manner = Manner::Prompt;
            }
        }
    }

    /// Whether the wire failed.
    pub fn has_failed(&self) -> bool {
        match self.mail() {
            Some(mail) => mail.has_failed,
            None => true,
        }
    }

    /// Whether a datagram was waited for.
    pub fn is_heard(&self) -> bool {
        match self.mail() {
            Some(mail) => mail.is_heard,
            None => false,
        }
    }

    /// The next datagram that comes.
    fn next(&self) -> Result<Option<Letter>, Failed> {
        match self.mail() {
            Some(mut mail) => mail.receive(),
            None => Ok(None),
        }
    }
}

impl Wire for Device {
    type Sent = ();

    fn send(&self, datagram: Outbound<'_>) {
        if let Some(mut mail) = self.mail() {
            let _ = mail.take(datagram.peer, datagram.bytes);
        }
    }

    fn receive(&self, buffer: &mut [u8]) -> Result<Option<Inbound>, Failed> {
        let Some(letter) = self.next()? else {
            thread::yield_now();
            return Ok(None);
        };
        let count = letter.bytes.len().min(buffer.len());
        buffer[..count].copy_from_slice(&letter.bytes[..count]);
        Ok(Some(Inbound::new(letter.from, count)))
    }
}
