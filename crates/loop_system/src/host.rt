//! What drives the loop: the clients that the system has, its signs, and its clock.

ghost use Rattle.std.specs.Prelude.{◌≡◌};

use crate::client::Client;
use gateway_loop::{Accepted, Host, Sign};
use mio::event::Event;
use mio::net::{TcpListener, UdpSocket};
use mio::{Events, Interest, Poll, Token, Waker};
use random_words::Words;
use std::alloc::Global;
use std::io::{self, ErrorKind};
use std::net::{Net, SocketAddr};
use std::random::RandomSource;
use std::rt::Clock;
use std::time::Duration;

/// How many signs are told of at once.
const SIGNS: usize = 1024;

/// Under these names there are signs of the listener and of the devices. Those of connections are
/// their numbers, which are shorter.
const LISTENER: Token = Token(0xffff_ffff_ffff_fffe);

const DEVICES: Token = Token(0xffff_ffff_ffff_fffd);

/// Under this name the loop is woken by who looks at it.
const WAKER: Token = Token(0xffff_ffff_ffff_fffc);

/// A client that came, under the number that its connection has if it is taken.
#[derive(Clone, Copy)]
pub struct Arrival {
    pub number: u32,
    pub address: SocketAddr,
    /// It was connected before, and goes on under this number.
    pub carried: bool,
}

/// The system, as the loop sees it.
#[derive(Drop)]
pub struct System<W: Clock + RandomSource + Drop> {
    rt: W,
    poll: Poll,
    listener: TcpListener,
    events: Events,
    /// Those that weren't given yet, the last of them first.
    signs: Vec<Sign>,
    /// Who came since that was looked at.
    pub(crate) arrivals: Vec<Arrival>,
    /// the clock's milliseconds when it began
    begin: u64,
    words: Words,
}

/// What tells of the two sockets that are there from the begin on.
pub fn watched<W: Net>(
    rt: &W,
    listener: &mut TcpListener,
    devices: &mut UdpSocket,
) -> io::Result<Poll> {
    let poll = Poll::new(rt)?;
    let registry = poll.registry();
    registry.register(listener, LISTENER, Interest::READABLE)?;
    registry.register(devices, DEVICES, Interest::READABLE)?;
    Ok(poll)
}

/// What wakes the loop that waits there.
pub fn waker_of(poll: &Poll) -> io::Result<Waker> {
    Waker::new(poll.registry(), WAKER)
}

impl<W: Clock + RandomSource + Drop> System<W> {
    /// A system whose time counts from this reading of the clock.
    pub fn new(
        rt: W,
        alloc: Global,
        poll: Poll,
        listener: TcpListener,
        begin: Duration,
    ) -> Result<System<W>, std::alloc::AllocError> {
        Ok(System {
            rt,
            poll,
            listener,
            events: Events::with_capacity(alloc, SIGNS)?,
            signs: Vec::with_capacity(alloc, SIGNS)?,
            arrivals: Vec::new(alloc),
            begin: millis(begin),
            words: Words::new(),
        })
    }
}

impl<W: Clock + RandomSource + Drop> System<W> {
    /// Keeps who came or goes on, until that is looked at. False where memory is refused.
    fn note_arrival(&mut self, number: u32, address: SocketAddr, carried: bool) -> bool {
        let arrival = Arrival {
            number,
            address,
            carried,
        };
        self.arrivals.push(arrival).is_ok()
    }
}

/// So many whole milliseconds.
fn millis(time: Duration) -> u64 {
    u64::try_from(time.as_millis()).unwrap_or(u64::MAX)
}

/// Which signs are wanted of a connection, and under which name.
fn wanted(number: u32) -> (Token, Interest) {
    let both = Interest::READABLE | Interest::WRITABLE;
    (Token(number as usize), both)
}

/// The sign that an event is.
fn sign_of(event: &Event) -> Sign {
    let token = event.token();
    match u32::try_from(token.0) {
        Ok(number) if event.is_read_closed() || event.is_error() => Sign::Ended(number),
        Ok(number) => Sign::Ready(number),
        Err(_) if token == DEVICES => Sign::Wire,
        Err(_) => Sign::Clients,
    }
}

impl<W: Clock + RandomSource + Drop> Host<Client> for System<W> {
    fn accept(&mut self) -> Accepted<Client> {
        match self.listener.accept() {
            Ok((stream, address)) => Accepted::Client(Client::new(stream, address)),
            Err(error) if error.kind() == ErrorKind::WouldBlock => Accepted::Later,
            Err(_) => Accepted::Refused,
        }
    }

    fn watch(&mut self, number: u32, stream: &mut Client) -> bool {
        if !self.note_arrival(number, stream.address, false) {
            return false;
        }
        let (token, both) = wanted(number);
        self.poll
            .registry()
            .register(&mut stream.stream, token, both)
            .is_ok()
    }

    fn rename(&mut self, number: u32, stream: &mut Client) -> bool {
        if !self.note_arrival(number, stream.address, true) {
            return false;
        }
        let (token, both) = wanted(number);
        self.poll
            .registry()
            .reregister(&mut stream.stream, token, both)
            .is_ok()
    }

    fn wait(&mut self, most: Option<u64>) -> bool {
        let most = most.map(|most| Duration::from_millis(most));
        self.signs.clear();
        if self.poll.poll(&mut self.events, most).is_err() {
            return false;
        }
        'each: for event in &self.events {
            if event.token() != WAKER && self.signs.push(sign_of(event)).is_err() {
                return false;
            }
        }
        true
    }

    fn sign(&mut self) -> Option<Sign> {
        self.signs.pop()
    }

    fn moment(&mut self) -> Option<u64> {
        match self.rt.monotonic() {
            Ok(time) => Some(millis(time).saturating_sub(self.begin)),
            Err(_) => None,
        }
    }

    fn word(&mut self) -> u64 {
        self.words.next(&self.rt).unwrap_or(0)
    }
}
